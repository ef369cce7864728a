//! A view of an accepted file: it keeps the lent file and two small tables, and takes no memory.
ghost use Rattle.std.specs.Prelude.{◌≡◌, ◌≤◌, ◌<◌, ◌^◌, length, IfOk, IfErr, OnOk, Some};
ghost use Rattle.igvm_headers.specs.Fixed.{fixed_fields};
ghost use Rattle.platform_masks.specs.Platforms.{platforms_of};
ghost use Rattle.igvm_image.specs.Areas.{areas_of, area_size, placed_pages};
ghost use Rattle.igvm_image.specs.FileFault.{fault_of};
ghost use Rattle.std.specs.List.{AllByRecursion};
ghost use Rattle.igvm_image.specs.PagesFit.{PagesFit, AreBytes};
ghost use Rattle.igvm_image.specs.Headers.{IsAccepted, placed_headers, headers_of};

use crate::file_rules::{body_of, check_file, read_section, section_of};
use crate::headers::Headers;
use crate::seen_headers::SeenHeaders;
use igvm_headers::{FixedHeader, Header, ReadFault};
use platform_masks::Platforms;
use std::marker::Model;

/// An accepted file. Contracts see its bytes; all that the view answers is a function of them.
#[derive(Drop)]
pub struct ImageView<'a> {
    file: &'a [u8],
    fixed: FixedHeader,
    seen: SeenHeaders,
    count: u32,
}

impl<'a> Model for ImageView<'a> {
    ghost use Rattle.std.specs.Prelude.{List, ℕ};

    ghost Value = { List ℕ };

    ghost use Rattle.igvm_image.specs.ViewInvariant.{IsView};

    ghost view = { λ s. s.file.now };

    ghost invariant = { IsView };
}

/// Reads a file of at most 536,870,912 bytes: Ok where it breaks no rule of docs/FORMAT.md, and else the
/// first rule that it breaks, with the file offset where it does.
pub fn open_image(file: &[u8]) -> Result<ImageView<'_>, ReadFault>
    requires { length file.now ≤ 536870912 }
    ensures file { IfOk result (λ view. view ≡ file.now) }
    ensures accepted { OnOk result (IsAccepted file.now) }
    ensures fault { IfErr result (λ e. fault_of file.now ≡ Some e) }
{
    let fixed = check_file(file)?;
    let section = section_of(file, &fixed);
    let contents = match read_section(section, fixed.var_offset, fixed.total) {
        Ok(contents) => contents,
        Err(fault) => return Err(fault),
    };
    Ok(ImageView {
        file,
        fixed,
        seen: contents.seen,
        count: contents.count,
    })
}

impl<'a> ImageView<'a> {
    /// The fixed header's fields.
    pub fn fixed(&self) -> FixedHeader
        ensures value { result ≡ fixed_fields self.now }
        ensures accepted { IsAccepted self.now }
        ensures bytes { AreBytes self.now }
    {
        note_bytes(self.file);
        self.fixed
    }

    /// How many variable headers there are.
    pub fn header_count(&self) -> u32
        ensures { result ≡ length (placed_headers self.now) }
    {
        self.count
    }

    /// The platforms, numbered in the order of their headers.
    pub fn platforms(&self) -> &Platforms
        ensures { result.now ≡ platforms_of (headers_of self.now) }
    {
        self.seen.platforms()
    }

    /// The size in bytes of the parameter area of an index, or None where no header declares it.
    pub fn area_bytes(&self, area: u32) -> Option<u64>
        ensures { result ≡ area_size (areas_of (headers_of self.now)) area }
    {
        self.seen.area_bytes(area)
    }

    /// How many pages of 4,096 bytes a header places: an insert as many as its area has.
    pub fn placed_pages(&self, header: &Header) -> u64
        ensures value { result ≡ placed_pages (areas_of (headers_of self.now)) header.now }
        ensures within { result < 4503599627370496 }
    {
        self.seen.placed_pages(header)
    }

    /// The headers in file order.
    pub fn headers(&self) -> Headers<'a>
        ensures placed { result ≡ placed_headers self.now }
        ensures few { length result < 2 ^ 32 }
        // A page's address is a multiple of its size; an inserted area ends at 2^64 at the latest.
        ensures fit { AllByRecursion (λ p. PagesFit (areas_of (headers_of self.now)) p.header) result }
    {
        let section = section_of(self.file, &self.fixed);
        let body = body_of(self.file, &self.fixed);
        Headers::new(body, section, self.fixed.var_offset)
    }
}

/// What is lent of a file are bytes: a clause ranges over all numbers.
fn note_bytes(bytes: &[u8])
    ensures { AreBytes bytes.now }
{}
