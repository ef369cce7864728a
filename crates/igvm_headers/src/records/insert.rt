//! A parameter area put into the guest (`igvm_defs`, IGVM_VHS_PARAMETER_INSERT).
ghost use Rattle.std.specs.Prelude.{◌≡◌, ◌≤◌, ◌+◌, ◌++◌, length, vec_len, vec_capacity};
ghost use Rattle.igvm_headers.specs.Records.Insert.{insert_form, insert_fields};

use crate::fields::{append_u32, append_u64};
use crate::numbers::{u32_at, u64_at};
use crate::{Header, HeaderFault};

/// The type.
pub(crate) const TYPE: u32 = 0x303;

/// The size of a content, in bytes.
pub(crate) const SIZE: u32 = 16;

/// The header of a content.
#[tactic(auto, unfolding(crate::specs::Records::Insert::insert_form))]
pub(crate) fn read(content: &[u8]) -> Result<Header, HeaderFault>
    ensures { result ≡ insert_form content.now }
{
    if content.len() != SIZE as usize {
        return Err(HeaderFault::Length);
    }
    Ok(Header::Insert {
        gpa: u64_at(content, 0),
        mask: u32_at(content, 8),
        area: u32_at(content, 12),
    })
}

/// Appends the fields.
#[tactic(auto, unfolding(crate::specs::Records::Insert::insert_fields))]
pub(crate) fn append_fields(out: &mut Vec<u8>, gpa: u64, mask: u32, area: u32)
    requires room { vec_len out.old + 16 ≤ vec_capacity out.old }
    ensures items { out.new.items ≡ out.old.items ++ insert_fields gpa mask area }
    ensures len { vec_len out.new ≡ vec_len out.old + 16 }
    ensures size { length (insert_fields gpa mask area) ≡ 16 }
    ensures capacity { vec_capacity out.old ≤ vec_capacity out.new }
{
    append_u64(out, gpa);
    append_u32(out, mask);
    append_u32(out, area);
}
