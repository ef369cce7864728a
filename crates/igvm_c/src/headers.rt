//! The headers of an image, one after the other.
ghost use Rattle.std.specs.Prelude.{◌≡◌};
ghost use Rattle.igvm_c.specs.Headers.{found_in, header_at, header_in, last_header, told_header, with_next};
ghost use Rattle.igvm_c.specs.Refusals.{held, status_of};
ghost use Rattle.igvm_image.specs.Headers.{placed_headers};
ghost use Rattle.igvm_image.specs.PlacedView.{placed_view};

use crate::file::open;
use crate::refusal::Refusal;
use igvm_headers::Header;
use igvm_image::{ImageView, Placed};

/// `struct igvm_header_fields`: where a header stands in the file.
#[repr(C)]
#[derive(Clone, Copy, Debug, PartialEq, Eq)]
pub struct HeaderFields {
    /// The file offset of its first byte.
    pub at: u64,
    /// The file offset of its content.
    pub content_at: u64,
    /// How many bytes its content has.
    pub length: u64,
    /// The file offset of the next header's first byte, and 0 where it is the last.
    pub next: u64,
    /// Its place among the headers, from 0.
    pub number: u32,
    /// Its type (`igvm_defs`, IGVM_VHT_*).
    pub kind: u32,
}

/// The header whose first byte is at a file offset; the first header for 0.
#[unsafe(no_mangle)]
pub extern "C" fn igvm_header(file: &[u8], at: u64, header: &mut HeaderFields) -> u32
    ensures status { result ≡ status_of (header_in file.now at) }
    ensures fields { header.new ≡ held told_header (header_in file.now at) header.old }
{
    match header_in(file, at) {
        Ok(found) => {
            *header = told_header(&found);
            0
        }
        Err(refusal) => refusal.status(),
    }
}

/// A header that was looked for, and where the next one stands.
#[derive(Clone, Copy, Debug, PartialEq, Eq)]
pub(crate) struct Found {
    pub header: Header,
    pub number: u32,
    pub at: u32,
    pub length: usize,
    pub next: u32,
}

/// The header at a file offset, as C gets it.
fn told_header(found: &Found) -> HeaderFields
    ensures { result ≡ told_header found.now }
{
    HeaderFields {
        at: found.at as u64,
        content_at: found.at as u64 + 8,
        length: found.length as u64,
        next: found.next as u64,
        number: found.number,
        kind: found.header.header_type(),
    }
}

/// The header at a file offset of a file.
fn header_in(file: &[u8], at: u64) -> Result<Found, Refusal>
    ensures { result ≡ header_in file.now at }
{
    let view = open(file)?;
    header_at(&view, at)
}

/// The header at a file offset of an image.
pub(crate) fn header_at(view: &ImageView<'_>, at: u64) -> Result<Found, Refusal>
    ensures { result ≡ header_at view.now at }
{
    match found_in(view, at) {
        Some(found) => Ok(found),
        None => Err(Refusal::NoHeader),
    }
}

/// The header at a file offset of an image, and the first for 0.
fn found_in(view: &ImageView<'_>, at: u64) -> Option<Found>
    ensures { result ≡ found_in at (placed_headers view.now) }
{
    let mut pending: Option<Found> = None;
    'headers: for placed in view.headers() {
        if let Some(found) = pending {
            return Some(with_next(found, placed.at));
        }
        if at == 0 || placed.at as u64 == at {
            pending = Some(last_header(&placed));
        }
    }
    pending
}

/// A header that no other follows yet.
fn last_header(placed: &Placed<'_>) -> Found
    ensures { result ≡ last_header (placed_view placed.now) }
{
    Found {
        header: placed.header,
        number: placed.index,
        at: placed.at,
        length: placed.raw.len(),
        next: 0,
    }
}

/// The same header, followed by one at a file offset.
fn with_next(found: Found, next: u32) -> Found
    ensures { result ≡ with_next found next }
{
    Found { next, ..found }
}
