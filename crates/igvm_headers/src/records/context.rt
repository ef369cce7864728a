//! The state of a virtual processor (`igvm_defs`, IGVM_VHS_VP_CONTEXT).
ghost use Rattle.std.specs.Prelude.{◌≡◌, ◌≤◌, ◌+◌, ◌++◌, length, vec_len, vec_capacity};
ghost use Rattle.igvm_headers.specs.Records.Context.{context_form, context_fields};

use crate::fields::{append, append_u16, append_u32, append_u64};
use crate::numbers::{u16_at, u32_at, u64_at};
use crate::{Header, HeaderFault};

/// The type.
pub(crate) const TYPE: u32 = 0x304;

/// The size of a content, in bytes, as it is written.
pub(crate) const SIZE: u32 = 20;

/// The size of a content with four bytes more, which are not read.
const LONG_SIZE: u32 = 24;

/// The header of a content of either size.
#[tactic(auto, unfolding(crate::specs::Records::Context::context_form))]
pub(crate) fn read(content: &[u8]) -> Result<Header, HeaderFault>
    ensures { result ≡ context_form content.now }
{
    if content.len() != SIZE as usize && content.len() != LONG_SIZE as usize {
        return Err(HeaderFault::Length);
    }
    Ok(Header::Context {
        gpa: u64_at(content, 0),
        mask: u32_at(content, 8),
        offset: u32_at(content, 12),
        vp: u16_at(content, 16),
    })
}

/// Appends the fields.
#[tactic(auto, unfolding(crate::specs::Records::Context::context_fields))]
pub(crate) fn append_fields(out: &mut Vec<u8>, gpa: u64, mask: u32, offset: u32, vp: u16)
    requires room { vec_len out.old + 20 ≤ vec_capacity out.old }
    ensures items { out.new.items ≡ out.old.items ++ context_fields gpa mask offset vp }
    ensures len { vec_len out.new ≡ vec_len out.old + 20 }
    ensures size { length (context_fields gpa mask offset vp) ≡ 20 }
    ensures capacity { vec_capacity out.old ≤ vec_capacity out.new }
{
    append_u64(out, gpa);
    append_u32(out, mask);
    append_u32(out, offset);
    append_u16(out, vp);
    append(out, &[0; 2]);
}
