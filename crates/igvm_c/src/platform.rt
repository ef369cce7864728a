//! A platform of an image as C gets it.
ghost use Rattle.std.specs.Prelude.{◌≡◌};
ghost use Rattle.igvm_c.specs.Platforms.{told_platform};

use platform_masks::Platform;

/// `struct igvm_platform_fields`: the fields of a SUPPORTED_PLATFORM header (`igvm_defs`).
#[repr(C)]
#[derive(Clone, Copy, Debug, PartialEq, Eq)]
pub struct PlatformFields {
    /// The guest physical address from which memory is shared with the host.
    pub shared_gpa: u64,
    /// Its place among the image's platforms, from 0.
    pub number: u32,
    /// Its compatibility mask.
    pub mask: u32,
    /// The number of its kind: `enum igvm_kind`.
    pub kind: u32,
    /// The platform's version.
    pub version: u32,
    /// The highest virtual trust level of the guest.
    pub highest_vtl: u32,
}

/// A platform as C gets it.
pub(crate) fn told_platform(platform: Platform) -> PlatformFields
    ensures { result ≡ told_platform platform }
{
    PlatformFields {
        shared_gpa: platform.shared_gpa,
        number: platform.number,
        mask: platform.mask,
        kind: platform.kind.number() as u32,
        version: platform.version as u32,
        highest_vtl: platform.highest_vtl as u32,
    }
}
