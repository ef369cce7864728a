//! A platform that an image supports (`igvm_defs`, IGVM_VHS_SUPPORTED_PLATFORM).
ghost use Rattle.std.specs.Prelude.{◌≡◌, ◌≤◌, ◌+◌, ◌++◌, length, vec_len, vec_capacity};
ghost use Rattle.igvm_headers.specs.Records.Platform.{platform_form, platform_fields};

use crate::fields::{append_u8, append_u16, append_u32, append_u64};
use crate::numbers::{u16_at, u32_at, u64_at};
use crate::{Header, HeaderFault, PlatformKind};

/// The type.
pub(crate) const TYPE: u32 = 0x001;

/// The size of a content, in bytes.
pub(crate) const SIZE: u32 = 16;

/// The header of a content.
#[tactic(auto, unfolding(crate::specs::Records::Platform::platform_form))]
pub(crate) fn read(content: &[u8]) -> Result<Header, HeaderFault>
    ensures { result ≡ platform_form content.now }
{
    if content.len() != SIZE as usize {
        return Err(HeaderFault::Length);
    }
    let Some(kind) = PlatformKind::from_number(content[5]) else {
        return Err(HeaderFault::PlatformType);
    };
    Ok(Header::Platform {
        mask: u32_at(content, 0),
        highest_vtl: content[4],
        kind,
        version: u16_at(content, 6),
        shared_gpa: u64_at(content, 8),
    })
}

/// Appends the fields.
#[tactic(auto, unfolding(crate::specs::Records::Platform::platform_fields))]
pub(crate) fn append_fields(
    out: &mut Vec<u8>,
    mask: u32,
    highest_vtl: u8,
    kind: PlatformKind,
    version: u16,
    shared_gpa: u64,
)
    requires room { vec_len out.old + 16 ≤ vec_capacity out.old }
    ensures items { out.new.items ≡ out.old.items ++ platform_fields mask highest_vtl kind version shared_gpa }
    ensures len { vec_len out.new ≡ vec_len out.old + 16 }
    ensures size { length (platform_fields mask highest_vtl kind version shared_gpa) ≡ 16 }
    ensures capacity { vec_capacity out.old ≤ vec_capacity out.new }
{
    append_u32(out, mask);
    append_u8(out, highest_vtl);
    append_u8(out, kind.number());
    append_u16(out, version);
    append_u64(out, shared_gpa);
}
