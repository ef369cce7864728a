//! Memory where the guest reports errors (`igvm_defs`, IGVM_VHS_ERROR_RANGE).
ghost use Rattle.std.specs.Prelude.{◌≡◌, ◌≤◌, ◌+◌, ◌++◌, length, vec_len, vec_capacity};
ghost use Rattle.igvm_headers.specs.Records.ErrorRange.{error_range_form, error_range_fields};

use crate::fields::{append_u32, append_u64};
use crate::numbers::{u32_at, u64_at};
use crate::{Header, HeaderFault};

/// The type.
pub(crate) const TYPE: u32 = 0x30D;

/// The size of a content, in bytes.
pub(crate) const SIZE: u32 = 16;

/// The header of a content.
#[tactic(auto, unfolding(crate::specs::Records::ErrorRange::error_range_form))]
pub(crate) fn read(content: &[u8]) -> Result<Header, HeaderFault>
    ensures { result ≡ error_range_form content.now }
{
    if content.len() != SIZE as usize {
        return Err(HeaderFault::Length);
    }
    Ok(Header::ErrorRange {
        gpa: u64_at(content, 0),
        mask: u32_at(content, 8),
        bytes: u32_at(content, 12),
    })
}

/// Appends the fields.
#[tactic(auto, unfolding(crate::specs::Records::ErrorRange::error_range_fields))]
pub(crate) fn append_fields(out: &mut Vec<u8>, gpa: u64, mask: u32, bytes: u32)
    requires room { vec_len out.old + 16 ≤ vec_capacity out.old }
    ensures items { out.new.items ≡ out.old.items ++ error_range_fields gpa mask bytes }
    ensures len { vec_len out.new ≡ vec_len out.old + 16 }
    ensures size { length (error_range_fields gpa mask bytes) ≡ 16 }
    ensures capacity { vec_capacity out.old ≤ vec_capacity out.new }
{
    append_u64(out, gpa);
    append_u32(out, mask);
    append_u32(out, bytes);
}
