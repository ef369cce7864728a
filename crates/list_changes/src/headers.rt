//! Headers with another mask, or another index of their area.
ghost use Rattle.std.specs.Prelude.{◌≡◌};
ghost use Rattle.list_changes.specs.Changes.{with_area, with_mask};

use igvm_headers::Header;

/// The same header with this compatibility mask, where it has one.
pub fn with_mask(header: Header, mask: u32) -> Header
    ensures { result ≡ with_mask mask header }
{
    match header {
        Header::Platform {
            highest_vtl,
            kind,
            version,
            shared_gpa,
            ..
        } => Header::Platform {
            mask,
            highest_vtl,
            kind,
            version,
            shared_gpa,
        },
        Header::Policy { policy, .. } => Header::Policy { policy, mask },
        Header::Page {
            gpa,
            offset,
            large,
            unmeasured,
            kind,
            ..
        } => Header::Page {
            gpa,
            mask,
            offset,
            large,
            unmeasured,
            kind,
        },
        Header::Insert { gpa, area, .. } => Header::Insert { gpa, mask, area },
        Header::Context {
            gpa,
            offset,
            vp,
            ..
        } => Header::Context {
            gpa,
            mask,
            offset,
            vp,
        },
        Header::Required {
            gpa,
            bytes,
            flags,
            ..
        } => Header::Required {
            gpa,
            mask,
            bytes,
            flags,
        },
        Header::ErrorRange { gpa, bytes, .. } => Header::ErrorRange { gpa, mask, bytes },
        Header::IdBlock {
            author_enabled,
            ld,
            family_id,
            image_id,
            version,
            guest_svn,
            id_algorithm,
            author_algorithm,
            ..
        } => Header::IdBlock {
            mask,
            author_enabled,
            ld,
            family_id,
            image_id,
            version,
            guest_svn,
            id_algorithm,
            author_algorithm,
        },
        _ => header,
    }
}

/// The same header with this index of its parameter area, where it has one.
pub fn with_area(header: Header, area: u32) -> Header
    ensures { result ≡ with_area area header }
{
    match header {
        Header::Area { bytes, offset, .. } => Header::Area {
            bytes,
            area,
            offset,
        },
        Header::Insert { gpa, mask, .. } => Header::Insert { gpa, mask, area },
        Header::Param {
            kind,
            byte_offset,
            ..
        } => Header::Param {
            kind,
            area,
            byte_offset,
        },
        _ => header,
    }
}
