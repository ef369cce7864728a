//! Memory that the guest needs (`igvm_defs`, IGVM_VHS_REQUIRED_MEMORY).
ghost use Rattle.std.specs.Prelude.{◌≡◌, ◌≤◌, ◌+◌, ◌++◌, length, vec_len, vec_capacity};
ghost use Rattle.igvm_headers.specs.Records.Required.{required_form, required_fields};

use crate::fields::{append, append_u32, append_u64};
use crate::numbers::{u32_at, u64_at};
use crate::{Header, HeaderFault};

/// The type.
pub(crate) const TYPE: u32 = 0x305;

/// The size of a content, in bytes.
pub(crate) const SIZE: u32 = 24;

/// The header of a content.
#[tactic(auto, unfolding(crate::specs::Records::Required::required_form))]
pub(crate) fn read(content: &[u8]) -> Result<Header, HeaderFault>
    ensures { result ≡ required_form content.now }
{
    if content.len() != SIZE as usize {
        return Err(HeaderFault::Length);
    }
    Ok(Header::Required {
        gpa: u64_at(content, 0),
        mask: u32_at(content, 8),
        bytes: u32_at(content, 12),
        flags: u32_at(content, 16),
    })
}

/// Appends the fields.
#[tactic(auto, unfolding(crate::specs::Records::Required::required_fields))]
pub(crate) fn append_fields(out: &mut Vec<u8>, gpa: u64, mask: u32, bytes: u32, flags: u32)
    requires room { vec_len out.old + 24 ≤ vec_capacity out.old }
    ensures items { out.new.items ≡ out.old.items ++ required_fields gpa mask bytes flags }
    ensures len { vec_len out.new ≡ vec_len out.old + 24 }
    ensures size { length (required_fields gpa mask bytes flags) ≡ 24 }
    ensures capacity { vec_capacity out.old ≤ vec_capacity out.new }
{
    append_u64(out, gpa);
    append_u32(out, mask);
    append_u32(out, bytes);
    append_u32(out, flags);
    append(out, &[0; 4]);
}
