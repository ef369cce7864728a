//! The pages that a header places in the guest.
ghost use Rattle.std.specs.Prelude.{◌≡◌, ◌≤◌};
ghost use Rattle.igvm_c.specs.Pages.{pages_in, pages_of, stored_run, stored_size};
ghost use Rattle.igvm_c.specs.Refusals.{held, status_of};

use crate::file::open;
use crate::headers::header_at;
use crate::refusal::Refusal;
use igvm_headers::Header;
use igvm_image::ImageView;

/// `struct igvm_pages_fields`: pages in a row, in the guest and in the file.
#[repr(C)]
#[derive(Clone, Copy, Debug, PartialEq, Eq)]
pub struct PagesFields {
    /// The guest physical address of the first page.
    pub gpa: u64,
    /// How many pages of 4,096 bytes there are.
    pub count: u64,
    /// The file offset of their bytes, and 0 where the file has none of them.
    pub data_at: u64,
    /// How many bytes of them the file has; zeros follow these.
    pub data_size: u64,
}

/// The pages that the header at a file offset places, the first header's for 0: of a page header and of a
/// context (VMSA) with their bytes; of an insert with none, since they are its parameter area's.
#[unsafe(no_mangle)]
pub extern "C" fn igvm_pages(file: &[u8], at: u64, pages: &mut PagesFields) -> u32
    ensures status { result ≡ status_of (pages_in file.now at) }
    ensures fields { pages.new ≡ held (λ p. p) (pages_in file.now at) pages.old }
{
    match pages_at(file, at) {
        Ok(found) => {
            *pages = found;
            0
        }
        Err(refusal) => refusal.status(),
    }
}

/// The pages that the header at a file offset of a file places.
fn pages_at(file: &[u8], at: u64) -> Result<PagesFields, Refusal>
    ensures { result ≡ pages_in file.now at }
{
    let view = open(file)?;
    let found = header_at(&view, at)?;
    pages_of(&view, &found.header)
}

/// The pages that a header places.
fn pages_of(view: &ImageView<'_>, header: &Header) -> Result<PagesFields, Refusal>
    ensures { result ≡ pages_of view.now header.now }
{
    match *header {
        Header::Page {
            gpa,
            offset,
            large,
            ..
        } => Ok(stored_run(view, gpa, if large { 512 } else { 1 }, offset)),
        Header::Context { gpa, offset, .. } => Ok(stored_run(view, gpa, 1, offset)),
        Header::Insert { gpa, .. } => Ok(PagesFields {
            gpa,
            count: view.placed_pages(header),
            data_at: 0,
            data_size: 0,
        }),
        _ => Err(Refusal::NoPages),
    }
}

/// Pages in a row whose bytes stand at a file offset.
fn stored_run(view: &ImageView<'_>, gpa: u64, count: u64, offset: u32) -> PagesFields
    requires { count ≤ 512 }
    ensures { result ≡ stored_run view.now gpa count offset }
{
    PagesFields {
        gpa,
        count,
        data_at: offset as u64,
        data_size: stored_size(view, offset, 4096 * count),
    }
}

/// How many of so many bytes at a file offset the file has.
#[tactic(auto, unfolding(crate::specs::Pages::stored_size))]
fn stored_size(view: &ImageView<'_>, offset: u32, size: u64) -> u64
    ensures { result ≡ stored_size view.now offset size }
{
    if offset == 0 {
        return 0;
    }
    size.min(view.fixed().total.saturating_sub(offset) as u64)
}
