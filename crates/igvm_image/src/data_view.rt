//! A header's data, lent from the file.
ghost use Rattle.std.specs.Prelude.{◌≡◌, ◌<◌, ◌≤◌, ◌+◌, ◌*◌, length, take, drop};
ghost use Rattle.igvm_headers.specs.Numbers.{slice};
ghost use Rattle.igvm_image.specs.Data.{is_zero, data_page, data_in};

use igvm_headers::{Header, PageView};
use std::marker::Model;

/// The pages of a header's data: 1 or 512 for a page, one for each 4,096 bytes of an area, one for a
/// context, none for others. At file offset 0 they are zeros.
#[derive(Drop)]
pub struct DataView<'a> {
    body: &'a [u8],
    offset: u32,
    count: u64,
}

impl<'a> Model for DataView<'a> {
    ghost use Rattle.igvm_image.specs.Data.{Data};

    ghost Value = { Data };

    ghost view = { λ s. record { body = s.body.now; offset = s.offset; pages = s.count } };
}

impl<'a> DataView<'a> {
    /// The data of a header in a file's body, which ends at the total size.
    pub(crate) fn of(body: &'a [u8], header: &Header) -> DataView<'a>
        ensures { result ≡ data_in body.now header.now }
    {
        DataView {
            body,
            offset: header.data_offset(),
            count: header.data_pages(),
        }
    }

    /// How many pages of 4,096 bytes there are.
    pub fn pages(&self) -> u64
        ensures { result ≡ self.now.pages }
    {
        self.count
    }

    /// The file offset is 0, or there are no pages.
    pub fn is_zero(&self) -> bool
        ensures { result ≡ is_zero self.now }
    {
        self.offset == 0 || self.count == 0
    }

    /// Page `k`. Bytes past the file's total size are zeros.
    #[tactic(auto, unfolding(igvm_headers::specs::Pages::body_page))]
    pub fn page(&self, k: u64) -> PageView<'a>
        requires { k < self.now.pages }
        ensures { result ≡ data_page self.now k }
    {
        if self.offset == 0 {
            return PageView::zero();
        }
        PageView::of_bytes(page_bytes(self.body, self.offset, k))
    }
}

/// The bytes of a page that the body has: none behind its end.
fn page_bytes(body: &[u8], offset: u32, k: u64) -> &[u8]
    ensures value { result.now ≡ slice body.now (offset + 4096 * k) 4096 }
    ensures within { length result.now ≤ 4096 }
{
    // So far out that the place might not fit a number.
    if k > body.len() as u64 / 4096 {
        return front(behind(body, body.len()), 4096);
    }
    let start = u64::from(offset) + 4096 * k;
    front(behind(body, start as usize), 4096)
}

/// What stands from a place on.
#[tactic(auto, using(std::proofs::lemmas::List::drop_all))]
fn behind(bytes: &[u8], at: usize) -> &[u8]
    ensures { result.now ≡ drop at bytes.now }
{
    &bytes[at.min(bytes.len())..]
}

/// The first `n` bytes, or all where there are fewer.
#[tactic(auto, using(std::proofs::lemmas::List::take_min))]
fn front(bytes: &[u8], n: usize) -> &[u8]
    ensures value { result.now ≡ take n bytes.now }
    ensures within { length result.now ≤ n }
{
    &bytes[..n.min(bytes.len())]
}
