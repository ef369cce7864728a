//! Variable headers (`igvm_defs`, IgvmVariableHeaderType): one variant a record.

use crate::{Digest, PageKind, ParamKind, PlatformKind};

/// A variable header. Sizes and offsets are in bytes, `gpa` is a guest physical address, `mask` a
/// compatibility mask, and an `offset` of 0 says that all the data are zeros.
#[derive(Clone, Copy, Debug, PartialEq, Eq)]
pub enum Header {
    /// A platform that the image supports, under the one bit of its mask.
    Platform {
        mask: u32,
        highest_vtl: u8,
        kind: PlatformKind,
        version: u16,
        shared_gpa: u64,
    },
    /// The guest policy.
    Policy {
        policy: u64,
        mask: u32,
    },
    /// A parameter area, by its index.
    Area {
        bytes: u64,
        area: u32,
        offset: u32,
    },
    /// A page of 4 KB, or of 2 MB where it is large.
    Page {
        gpa: u64,
        mask: u32,
        offset: u32,
        large: bool,
        unmeasured: bool,
        kind: PageKind,
    },
    /// A parameter area put into the guest.
    Insert {
        gpa: u64,
        mask: u32,
        area: u32,
    },
    /// A value of the host, written into an area.
    Param {
        kind: ParamKind,
        area: u32,
        byte_offset: u32,
    },
    /// The state of a virtual processor.
    Context {
        gpa: u64,
        mask: u32,
        offset: u32,
        vp: u16,
    },
    /// Memory that the guest needs.
    Required {
        gpa: u64,
        mask: u32,
        bytes: u32,
        flags: u32,
    },
    /// Memory where the guest reports errors.
    ErrorRange {
        gpa: u64,
        mask: u32,
        bytes: u32,
    },
    /// An SEV-SNP ID block; its last 592 bytes, keys and signatures, are carried unread.
    IdBlock {
        mask: u32,
        author_enabled: u8,
        ld: Digest,
        family_id: [u8; 16],
        image_id: [u8; 16],
        version: u32,
        guest_svn: u32,
        id_algorithm: u32,
        author_algorithm: u32,
    },
    /// A header that is kept as bytes and applies to no platform.
    Carried {
        kind: u32,
        length: u32,
    },
}
