//! One platform that an image supports (`igvm_defs`, IGVM_VHS_SUPPORTED_PLATFORM).
use igvm_headers::PlatformKind;

/// A platform of an image.
#[derive(Clone, Copy, Debug, PartialEq, Eq)]
pub struct Platform {
    /// Its place among the image's platforms, from 0.
    pub number: u32,
    /// Its compatibility mask: the headers that share a bit with it count for it.
    pub mask: u32,
    pub kind: PlatformKind,
    /// The highest virtual trust level of the guest.
    pub highest_vtl: u8,
    /// The platform's version.
    pub version: u16,
    /// The guest physical address from which memory is shared with the host.
    pub shared_gpa: u64,
}
