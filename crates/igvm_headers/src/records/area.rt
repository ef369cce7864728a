//! A parameter area (`igvm_defs`, IGVM_VHS_PARAMETER_AREA).
ghost use Rattle.std.specs.Prelude.{◌≡◌, ◌≤◌, ◌+◌, ◌++◌, length, vec_len, vec_capacity};
ghost use Rattle.igvm_headers.specs.Records.Area.{area_form, area_fields};

use crate::fields::{append_u32, append_u64};
use crate::numbers::{u32_at, u64_at};
use crate::{Header, HeaderFault};

/// The type.
pub(crate) const TYPE: u32 = 0x301;

/// The size of a content, in bytes.
pub(crate) const SIZE: u32 = 16;

/// The header of a content.
#[tactic(auto, unfolding(crate::specs::Records::Area::area_form))]
pub(crate) fn read(content: &[u8]) -> Result<Header, HeaderFault>
    ensures { result ≡ area_form content.now }
{
    if content.len() != SIZE as usize {
        return Err(HeaderFault::Length);
    }
    Ok(Header::Area {
        bytes: u64_at(content, 0),
        area: u32_at(content, 8),
        offset: u32_at(content, 12),
    })
}

/// Appends the fields.
#[tactic(auto, unfolding(crate::specs::Records::Area::area_fields))]
pub(crate) fn append_fields(out: &mut Vec<u8>, bytes: u64, area: u32, offset: u32)
    requires room { vec_len out.old + 16 ≤ vec_capacity out.old }
    ensures items { out.new.items ≡ out.old.items ++ area_fields bytes area offset }
    ensures len { vec_len out.new ≡ vec_len out.old + 16 }
    ensures size { length (area_fields bytes area offset) ≡ 16 }
    ensures capacity { vec_capacity out.old ≤ vec_capacity out.new }
{
    append_u64(out, bytes);
    append_u32(out, area);
    append_u32(out, offset);
}
