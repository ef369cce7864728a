//! A parameter of the host (`igvm_defs`, IGVM_VHS_PARAMETER); its kind is the type's alone.
ghost use Rattle.std.specs.Prelude.{◌≡◌, ◌≤◌, ◌+◌, ◌++◌, length, vec_len, vec_capacity};
ghost use Rattle.igvm_headers.specs.Records.Param.{param_form, param_fields};

use crate::fields::append_u32;
use crate::numbers::u32_at;
use crate::{Header, HeaderFault, ParamKind};

/// The size of a content, in bytes.
pub(crate) const SIZE: u32 = 8;

/// The header of a content, under its kind.
#[tactic(auto, unfolding(crate::specs::Records::Param::param_form))]
pub(crate) fn read(kind: ParamKind, content: &[u8]) -> Result<Header, HeaderFault>
    ensures { result ≡ param_form kind content.now }
{
    if content.len() != SIZE as usize {
        return Err(HeaderFault::Length);
    }
    Ok(Header::Param {
        kind,
        area: u32_at(content, 0),
        byte_offset: u32_at(content, 4),
    })
}

/// Appends the fields.
#[tactic(auto, unfolding(crate::specs::Records::Param::param_fields))]
pub(crate) fn append_fields(out: &mut Vec<u8>, area: u32, byte_offset: u32)
    requires room { vec_len out.old + 8 ≤ vec_capacity out.old }
    ensures items { out.new.items ≡ out.old.items ++ param_fields area byte_offset }
    ensures len { vec_len out.new ≡ vec_len out.old + 8 }
    ensures size { length (param_fields area byte_offset) ≡ 8 }
    ensures capacity { vec_capacity out.old ≤ vec_capacity out.new }
{
    append_u32(out, area);
    append_u32(out, byte_offset);
}
