//! What the rules on a header ask of the headers before it (`igvm_defs`, IGVM_VHS_VARIABLE_HEADER).
ghost use Rattle.std.specs.Prelude.{◌≡◌, ◌≤◌, ◌<◌, ◌+◌, [], ◌∷◌, ◌++◌, List, length, IfSome};
ghost use Rattle.std.specs.Option.{option_to_list};
ghost use Rattle.igvm_headers.specs.declared.header.Header.{Header};
ghost use Rattle.igvm_image.specs.Areas.{area_entry, area_size, placed_pages};
ghost use Rattle.platform_masks.specs.Platforms.{platform_of};
ghost use Rattle.igvm_image.specs.HeaderRules.{MayFollow, rule_fault, seen_of, seen_after};

use crate::area_table::{AreaEntry, AreaTable};
use crate::header_rules::{
    breaks_align, breaks_area_limit, breaks_area_repeated, breaks_area_size, breaks_area_unknown,
    breaks_data, breaks_mask, breaks_order, breaks_pages, breaks_wrap, placed_pages,
};
use igvm_headers::{Header, ReadWhat};
use platform_masks::{Platform, Platforms};
use std::marker::Model;

/// A summary of headers in a row that break no rule: the latest class, the platforms, the areas, and
/// how many pages of 4,096 bytes they name together. Contracts see it as a `Seen`. Its size is fixed:
/// such headers declare at most 32 platforms and 256 areas, and name at most 4,194,304 pages.
#[derive(Drop)]
pub struct SeenHeaders {
    latest: u32,
    platforms: Platforms,
    areas: AreaTable,
    pages: u64,
}

impl Model for SeenHeaders {
    ghost use Rattle.igvm_image.specs.HeaderRules.{Seen};
    ghost use Rattle.igvm_image.specs.TablesHaveRoom.{HasRoom};

    ghost Value = { Seen };

    ghost view = { λ s. record {
      latest = s.latest;
      platforms = s.platforms;
      areas = s.areas;
      pages = s.pages;
    } };

    ghost invariant = { λ s. HasRoom s.platforms s.pages };
}

impl SeenHeaders {
    /// Before the first header.
    #[tactic(auto, unfolding(platform_masks::specs::Platforms::platforms_from))]
    pub fn new() -> SeenHeaders
        ensures { result ≡ seen_of [] }
    {
        SeenHeaders {
            latest: 0,
            platforms: Platforms::new(),
            areas: AreaTable::new(),
            pages: 0,
        }
    }

    /// The first rule that a header breaks behind these, in a file of this total size in bytes. With a
    /// total size of 0 only data at file offset 0 lie inside.
    #[tactic(auto, unfolding(crate::specs::HeaderRules::rule_fault))]
    pub fn rule_fault(&self, total: u32, header: &Header) -> Option<ReadWhat>
        ensures { result ≡ rule_fault total self.now header.now }
    {
        if breaks_order(self, header) {
            Some(ReadWhat::Order)
        } else if breaks_mask(self, header) {
            Some(ReadWhat::Mask)
        } else if breaks_align(header) {
            Some(ReadWhat::Align)
        } else if breaks_area_limit(self, header) {
            Some(ReadWhat::AreaLimit)
        } else if breaks_area_repeated(self, header) {
            Some(ReadWhat::AreaRepeated)
        } else if breaks_area_unknown(self, header) {
            Some(ReadWhat::AreaUnknown)
        } else if breaks_area_size(header) {
            Some(ReadWhat::AreaSize)
        } else if breaks_wrap(self, header) {
            Some(ReadWhat::Wrap)
        } else if breaks_data(total, header) {
            Some(ReadWhat::DataOutside)
        } else if breaks_pages(self, header) {
            Some(ReadWhat::TooManyPages)
        } else {
            None
        }
    }

    /// Takes in one more header, which breaks no rule.
    pub fn push(&mut self, header: &Header)
        requires { MayFollow self.old header.now }
        ensures value { self.new ≡ seen_after self.old header.now }
        ensures seen { (before : List Header) → self.old ≡ seen_of before
            → self.new ≡ seen_of (before ++ header.now ∷ []) }
    {
        let pages = placed_pages(self, header);
        self.latest = self.latest.max(header.class());
        declare_platform(&mut self.platforms, header);
        declare_area(&mut self.areas, header);
        self.pages += pages;
    }

    /// The platforms, numbered in the order of their headers.
    pub fn platforms(&self) -> &Platforms
        ensures { result.now ≡ self.now.platforms }
    {
        &self.platforms
    }

    /// The size in bytes of the area of an index, or None where no header declares it.
    pub fn area_bytes(&self, area: u32) -> Option<u64>
        ensures { result ≡ area_size self.now.areas area }
    {
        self.areas.bytes_of(area)
    }

    /// How many pages of 4,096 bytes a header places: an insert as many as its area has.
    pub fn placed_pages(&self, header: &Header) -> u64
        ensures value { result ≡ placed_pages self.now.areas header.now }
        ensures within { result < 4503599627370496 }
    {
        placed_pages(self, header)
    }

    /// How many areas are declared.
    pub(crate) fn area_count(&self) -> usize
        ensures { result ≡ length self.now.areas }
    {
        self.areas.count()
    }

    /// The latest class.
    pub(crate) fn latest(&self) -> u32
        ensures { result ≡ self.now.latest }
    {
        self.latest
    }

    /// How many pages the headers name together.
    pub(crate) fn pages(&self) -> u64
        ensures value { result ≡ self.now.pages }
        ensures within { result ≤ 4194304 }
    {
        self.pages
    }
}

/// Takes in the platform that a header declares, under the next number. Other headers declare none.
fn declare_platform(platforms: &mut Platforms, header: &Header)
    requires { length platforms.old + length (platform_of (length platforms.old) header.now) ≤ 32 }
    ensures { platforms.new ≡ platforms.old ++ platform_of (length platforms.old) header.now }
{
    if let Header::Platform {
        mask,
        highest_vtl,
        kind,
        version,
        shared_gpa,
    } = header
    {
        let number = platforms.count();
        platforms.push(Platform {
            number,
            mask: *mask,
            kind: *kind,
            highest_vtl: *highest_vtl,
            version: *version,
            shared_gpa: *shared_gpa,
        });
    }
}

/// Takes in the area that a header declares. Other headers declare none.
fn declare_area(areas: &mut AreaTable, header: &Header)
    requires { IfSome (area_entry header.now) (λ _. length areas.old < 256) }
    ensures { areas.new ≡ areas.old ++ option_to_list (area_entry header.now) }
{
    if let Header::Area { bytes, area, .. } = header {
        areas.push(AreaEntry {
            area: *area,
            bytes: *bytes,
        });
    }
}
