//! What holds of a header by its type: one method a fact.
ghost use Rattle.std.specs.Prelude.{◌≡◌, ◌≤◌, ◌<◌};
ghost use Rattle.igvm_headers.specs.HeaderFacts.{header_type, content_size, tail_size, class_of, mask_of, is_for_all, gpa_of, page_count, inserted_area, data_size, data_pages, data_offset, with_offset};

use crate::Header;
use crate::page_view::{PAGE_SIZE, page_bytes, small_pages};
use crate::records::carried::class_of_carried;
use crate::records::{
    area, carried, context, error_range, id_block, insert, page, param, platform, policy, required,
};

impl Header {
    /// The header's type in the section (`igvm_defs`, IGVM_VHT_*).
    pub fn header_type(&self) -> u32
        ensures { result ≡ header_type self.now }
    {
        match *self {
            Header::Platform { .. } => platform::TYPE,
            Header::Policy { .. } => policy::TYPE,
            Header::Area { .. } => area::TYPE,
            Header::Page { .. } => page::TYPE,
            Header::Insert { .. } => insert::TYPE,
            Header::Context { .. } => context::TYPE,
            Header::Required { .. } => required::TYPE,
            Header::IdBlock { .. } => id_block::TYPE,
            Header::ErrorRange { .. } => error_range::TYPE,
            Header::Param { kind, .. } => kind.header_type(),
            Header::Carried { kind, .. } => kind,
        }
    }

    /// How many bytes the header's content is written with: its fields, and what it carries unread.
    pub fn content_size(&self) -> u32
        ensures { result ≡ content_size self.now }
    {
        match *self {
            Header::Platform { .. } => platform::SIZE,
            Header::Policy { .. } => policy::SIZE,
            Header::Area { .. } => area::SIZE,
            Header::Page { .. } => page::SIZE,
            Header::Insert { .. } => insert::SIZE,
            Header::Context { .. } => context::SIZE,
            Header::Required { .. } => required::SIZE,
            Header::IdBlock { .. } => id_block::SIZE,
            Header::ErrorRange { .. } => error_range::SIZE,
            Header::Param { .. } => param::SIZE,
            Header::Carried { length, .. } => length,
        }
    }

    /// How many bytes of its content a header carries unread: 592 of an ID block, all of a carried
    /// header, none of others.
    pub fn tail_size(&self) -> u32
        ensures { result ≡ tail_size self.now }
    {
        match *self {
            Header::IdBlock { .. } => id_block::TAIL_SIZE,
            Header::Carried { length, .. } => length,
            _ => 0,
        }
    }

    /// The class of the header's type in the order of headers (`igvm_defs`, IGVM_VHT_RANGE_*): 1 for
    /// platforms, 2 for initialization, 3 for directives, and 0 for none.
    pub fn class(&self) -> u32
        ensures value { result ≡ class_of self.now }
        ensures within { result ≤ 3 }
    {
        match *self {
            Header::Platform { .. } => 1,
            Header::Policy { .. } => 2,
            Header::Carried { kind, .. } => class_of_carried(kind),
            _ => 3,
        }
    }

    /// The header's compatibility mask, where its record has one.
    pub fn mask(&self) -> Option<u32>
        ensures { result ≡ mask_of self.now }
    {
        match *self {
            Header::Area { .. } | Header::Param { .. } | Header::Carried { .. } => None,
            Header::Platform { mask, .. }
            | Header::Policy { mask, .. }
            | Header::Page { mask, .. }
            | Header::Insert { mask, .. }
            | Header::Context { mask, .. }
            | Header::Required { mask, .. }
            | Header::ErrorRange { mask, .. }
            | Header::IdBlock { mask, .. } => Some(mask),
        }
    }

    /// The header counts for every platform, as parameter areas and parameters do.
    pub fn is_for_all(&self) -> bool
        ensures { result ≡ is_for_all self.now }
    {
        matches!(self, Header::Area { .. } | Header::Param { .. })
    }

    /// The guest physical address of the first page that the header places, and 0 where it places none.
    pub fn gpa(&self) -> u64
        ensures { result ≡ gpa_of self.now }
    {
        match *self {
            Header::Page { gpa, .. } | Header::Insert { gpa, .. } => gpa,
            _ => 0,
        }
    }

    /// How many pages of 4,096 bytes the header places; `area_bytes` is the size of the parameter area
    /// that it puts into the guest, and counts for no other header. Such an area has at most 2^64 - 1 bytes.
    pub fn page_count(&self, area_bytes: u64) -> u64
        ensures value { result ≡ page_count self.now area_bytes }
        ensures within { result < 4503599627370496 }
    {
        match *self {
            Header::Page { large, .. } => small_pages(large),
            Header::Insert { .. } => area_bytes / PAGE_SIZE,
            _ => 0,
        }
    }

    /// The index of the parameter area that the header puts into the guest, where it puts one.
    pub fn inserted_area(&self) -> Option<u32>
        ensures { result ≡ inserted_area self.now }
    {
        match *self {
            Header::Insert { area, .. } => Some(area),
            _ => None,
        }
    }

    /// How many bytes the header's data have, where it has any.
    pub fn data_size(&self) -> Option<u64>
        ensures { result ≡ data_size self.now }
    {
        match *self {
            Header::Area { bytes, .. } => Some(bytes),
            Header::Page { large, .. } => Some(page_bytes(large)),
            Header::Context { .. } => Some(PAGE_SIZE),
            _ => None,
        }
    }

    /// How many pages of 4,096 bytes the header's data are.
    pub fn data_pages(&self) -> u64
        ensures { result ≡ data_pages self.now }
    {
        match *self {
            Header::Area { bytes, .. } => bytes / PAGE_SIZE,
            Header::Page { large, .. } => small_pages(large),
            Header::Context { .. } => 1,
            _ => 0,
        }
    }

    /// The file offset of the header's data, in bytes; 0 where they are zeros, or where it has none.
    pub fn data_offset(&self) -> u32
        ensures { result ≡ data_offset self.now }
    {
        match *self {
            Header::Area { offset, .. }
            | Header::Page { offset, .. }
            | Header::Context { offset, .. } => offset,
            _ => 0,
        }
    }

    /// The same header with data that stand at a file offset; one without data stays as it is.
    pub fn with_offset(self, offset: u32) -> Header
        ensures { result ≡ with_offset offset self }
    {
        match self {
            Header::Area { bytes, area, .. } => Header::Area {
                bytes,
                area,
                offset,
            },
            Header::Page {
                gpa,
                mask,
                large,
                unmeasured,
                kind,
                ..
            } => Header::Page {
                gpa,
                mask,
                offset,
                large,
                unmeasured,
                kind,
            },
            Header::Context { gpa, mask, vp, .. } => Header::Context {
                gpa,
                mask,
                offset,
                vp,
            },
            _ => self,
        }
    }
}
