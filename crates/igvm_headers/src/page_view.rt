//! One page of 4,096 bytes, lent from where it lies.
ghost use Rattle.std.specs.Prelude.{◌≡◌, ◌≤◌, ◌<◌, ◌-◌, ◌++◌, length, replicate, slice_index};
ghost use Rattle.igvm_headers.specs.Pages.{page_bytes, padded_page, small_pages};

use std::marker::Model;

/// The size of a page, in bytes.
pub const PAGE_SIZE: u64 = 4096;

/// The size of a large page, in bytes: 512 pages.
pub const LARGE_PAGE_SIZE: u64 = 2_097_152;

/// The size in bytes of a page, large or not.
pub fn page_bytes(large: bool) -> u64
    ensures { result ≡ page_bytes large }
{
    if large { LARGE_PAGE_SIZE } else { PAGE_SIZE }
}

/// How many pages of 4,096 bytes a page is, large or not.
pub fn small_pages(large: bool) -> u64
    ensures { result ≡ small_pages large }
{
    if large { 512 } else { 1 }
}

/// A page: at most 4,096 bytes that are lent, followed by zeros. Contracts see its 4,096 bytes.
#[derive(Drop)]
pub struct PageView<'a> {
    lent: &'a [u8],
}

impl<'a> Model for PageView<'a> {
    ghost use Rattle.std.specs.Prelude.{List, ℕ, ◌≤◌, length};
    ghost use Rattle.igvm_headers.specs.Pages.{padded_page};

    ghost Value = { List ℕ };

    ghost view = { λ p. padded_page p.lent.now };

    ghost invariant = { λ p. length p.lent.now ≤ 4096 };
}

impl<'a> PageView<'a> {
    /// The page of zeros.
    #[tactic(auto, unfolding(crate::specs::Pages::padded_page))]
    pub fn zero() -> PageView<'a>
        ensures { result ≡ replicate 4096 0 }
    {
        PageView { lent: &[] }
    }

    /// These bytes, followed by zeros.
    pub fn of_bytes(bytes: &'a [u8]) -> PageView<'a>
        requires { length bytes.now ≤ 4096 }
        ensures { result ≡ padded_page bytes.now }
    {
        PageView { lent: bytes }
    }

    /// The bytes that are lent; zeros follow them up to the page's end.
    #[tactic(auto, using(crate::proofs::Pages::length_padded_page))]
    pub fn lent(&self) -> &'a [u8]
        ensures page { self.now ≡ padded_page result.now }
        ensures within { length result.now ≤ 4096 }
        ensures size { length self.now ≡ 4096 }
    {
        self.lent
    }

    /// The byte at a place below 4,096.
    pub fn byte(&self, i: usize) -> u8
        requires { i < 4096 }
        ensures { result ≡ slice_index self.now i }
    {
        if i < self.lent.len() { self.lent[i] } else { 0 }
    }

    /// Makes `out`, of 4,096 bytes, the page.
    pub fn fill(&self, out: &mut [u8])
        requires { length out.old ≡ 4096 }
        ensures { out.new ≡ self.now }
    {
        let size = self.lent.len();
        out[..size].copy_from_slice(self.lent);
        out[size..].fill(0);
    }
}

#[cfg(test)]
mod tests {
    use super::*;

    #[test]
    fn pads_what_is_lent(rt: HostRuntime) {
        let full = [7; 4096];
        for (page, lent, first, last) in [
            (PageView::zero(), 0, 0, 0),
            (PageView::of_bytes(b"abc"), 3, 97, 0),
            (PageView::of_bytes(&full), 4096, 7, 7),
        ] {
            assert_eq!(rt; page.lent().len(), lent);
            assert_eq!(rt; page.byte(0), first);
            assert_eq!(rt; page.byte(4095), last);
            let mut out = [1; 4096];
            page.fill(&mut out);
            assert_eq!(rt; out[0], first);
            assert_eq!(rt; out[4095], last);
        }
    }
}
