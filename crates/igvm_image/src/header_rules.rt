//! The rules on a header among those before it, one test each, in the order of docs/FORMAT.md.
ghost use Rattle.std.specs.Prelude.{◌≡◌, ◌<◌};
ghost use Rattle.igvm_image.specs.Areas.{area_bytes_of, placed_pages};
ghost use Rattle.igvm_image.specs.HeaderRules.{breaks_order, breaks_mask, breaks_align, breaks_area_limit, breaks_area_repeated, breaks_area_unknown, breaks_area_size, breaks_wrap, breaks_data, breaks_pages, passes};

use crate::one_bit::is_one_bit;
use crate::seen_headers::SeenHeaders;
use igvm_headers::{Header, page_bytes};

/// An earlier header has a later class.
pub(crate) fn breaks_order(seen: &SeenHeaders, header: &Header) -> bool
    ensures { result ≡ breaks_order seen.now header.now }
{
    let class = header.class();
    class != 0 && class < seen.latest()
}

/// A platform's mask is not one bit, or is that of an earlier platform.
pub(crate) fn breaks_mask(seen: &SeenHeaders, header: &Header) -> bool
    ensures { result ≡ breaks_mask seen.now header.now }
{
    match header {
        Header::Platform { mask, .. } => !is_one_bit(*mask) || seen.platforms().has_mask(*mask),
        _ => false,
    }
}

/// A guest physical address is no multiple of the page's size.
pub(crate) fn breaks_align(header: &Header) -> bool
    ensures { result ≡ breaks_align header.now }
{
    match header {
        Header::Page { gpa, large, .. } => gpa % page_bytes(*large) != 0,
        Header::Insert { gpa, .. } => gpa % 4096 != 0,
        Header::Context { gpa, .. } => gpa % 4096 != 0,
        _ => false,
    }
}

/// 256 areas are declared before.
pub(crate) fn breaks_area_limit(seen: &SeenHeaders, header: &Header) -> bool
    ensures { result ≡ breaks_area_limit seen.now header.now }
{
    match header {
        Header::Area { .. } => seen.area_count() >= 256,
        _ => false,
    }
}

/// An area's index is declared before.
pub(crate) fn breaks_area_repeated(seen: &SeenHeaders, header: &Header) -> bool
    ensures { result ≡ breaks_area_repeated seen.now header.now }
{
    match header {
        Header::Area { area, .. } => seen.area_bytes(*area).is_some(),
        _ => false,
    }
}

/// An area that is named is not declared before.
pub(crate) fn breaks_area_unknown(seen: &SeenHeaders, header: &Header) -> bool
    ensures { result ≡ breaks_area_unknown seen.now header.now }
{
    match header {
        Header::Insert { area, .. } => seen.area_bytes(*area).is_none(),
        Header::Param { area, .. } => seen.area_bytes(*area).is_none(),
        _ => false,
    }
}

/// An area's size is 0, no multiple of 4,096, or above 67,108,864.
pub(crate) fn breaks_area_size(header: &Header) -> bool
    ensures { result ≡ breaks_area_size header.now }
{
    match header {
        Header::Area { bytes, .. } => *bytes == 0 || bytes % 4096 != 0 || *bytes > 67_108_864,
        _ => false,
    }
}

/// An inserted area passes the end of the address space.
pub(crate) fn breaks_wrap(seen: &SeenHeaders, header: &Header) -> bool
    ensures { result ≡ breaks_wrap seen.now header.now }
{
    match header {
        Header::Insert { gpa, area, .. } => {
            let bytes = seen.area_bytes(*area).unwrap_or(0);
            u128::from(*gpa) + u128::from(bytes) > 1 << 64
        }
        _ => false,
    }
}

/// Data at an offset other than 0 pass the total size; a context's offset alone counts.
pub(crate) fn breaks_data(total: u32, header: &Header) -> bool
    ensures { result ≡ breaks_data total header.now }
{
    match header {
        Header::Page { offset, large, .. } => passes(total, *offset, page_bytes(*large)),
        Header::Area { bytes, offset, .. } => passes(total, *offset, *bytes),
        Header::Context { offset, .. } => total < *offset,
        _ => false,
    }
}

/// Data of this size at an offset other than 0 pass the total size.
fn passes(total: u32, offset: u32, size: u64) -> bool
    ensures { result ≡ passes total offset size }
{
    offset != 0 && (offset > total || u64::from(total - offset) < size)
}

/// The pages placed so far, with this header's, are more than 4,194,304.
pub(crate) fn breaks_pages(seen: &SeenHeaders, header: &Header) -> bool
    ensures { result ≡ breaks_pages seen.now header.now }
{
    seen.pages() + placed_pages(seen, header) > 4_194_304
}

/// How many pages of 4,096 bytes a header places: an insert as many as its area has.
pub(crate) fn placed_pages(seen: &SeenHeaders, header: &Header) -> u64
    ensures value { result ≡ placed_pages seen.now.areas header.now }
    ensures within { result < 4503599627370496 }
{
    header.page_count(area_bytes_of(seen, header))
}

/// The size in bytes of the area that a header puts into the guest, and 0 for other headers.
fn area_bytes_of(seen: &SeenHeaders, header: &Header) -> u64
    ensures { result ≡ area_bytes_of seen.now.areas header.now }
{
    match header.inserted_area() {
        Some(area) => seen.area_bytes(area).unwrap_or(0),
        None => 0,
    }
}
