//! The row of pages that a header gives, and how they enter a measurement.
ghost use Rattle.std.specs.Prelude.{◌≡◌};
ghost use Rattle.igvm_image.specs.Areas.{areas_of};
ghost use Rattle.igvm_image.specs.Headers.{headers_of};
ghost use Rattle.igvm_measure.specs.Measured.{has_bytes, is_measured};
ghost use Rattle.igvm_measure.specs.PageRows.{row_of, snp_row, tagged_row, tdx_row};

use directive_rules::tag_of;
use igvm_headers::{Header, Options, PlatformKind, Tag};
use igvm_image::ImageView;
use snp_chain::{SnpPage, page_type_of};

/// Pages at guest physical addresses in a row, the first at `gpa`, that enter a measurement in one way: with
/// a page type on SEV-SNP alone, and with their bytes or by their place alone.
#[derive(Clone, Copy)]
pub(crate) struct PageRow {
    pub(crate) kind: Option<SnpPage>,
    pub(crate) with_bytes: bool,
    pub(crate) gpa: u64,
    pub(crate) count: u64,
}

/// The row of a header of an image for platforms of a kind.
pub(crate) fn row_of(
    view: &ImageView<'_>,
    header: &Header,
    kind: PlatformKind,
    options: Options,
) -> PageRow
    ensures { result ≡ row_of kind options (areas_of (headers_of view.now)) header.now }
{
    match kind {
        PlatformKind::SevSnp => snp_row(view, header, options),
        _ => tdx_row(view, header),
    }
}

/// The row of a header on SEV-SNP. A context gives the page of a virtual processor's state.
fn snp_row(view: &ImageView<'_>, header: &Header, options: Options) -> PageRow
    ensures { result ≡ snp_row options (areas_of (headers_of view.now)) header.now }
{
    match header {
        Header::Context { gpa, .. } => PageRow {
            kind: Some(SnpPage::Vmsa),
            with_bytes: true,
            gpa: *gpa,
            count: 1,
        },
        _ => tagged_row(
            tag_of(header, PlatformKind::SevSnp, options),
            header.gpa(),
            view.placed_pages(header),
        ),
    }
}

/// The row of `count` pages with a tag on SEV-SNP: none where there is no tag.
fn tagged_row(tag: Option<Tag>, gpa: u64, count: u64) -> PageRow
    ensures { result ≡ tagged_row tag gpa count }
{
    match tag {
        Some(tag) => PageRow {
            kind: Some(page_type_of(tag)),
            with_bytes: has_bytes(tag),
            gpa,
            count,
        },
        None => PageRow {
            kind: None,
            with_bytes: false,
            gpa,
            count: 0,
        },
    }
}

/// The row of a header on TDX.
fn tdx_row(view: &ImageView<'_>, header: &Header) -> PageRow
    ensures { result ≡ tdx_row (areas_of (headers_of view.now)) header.now }
{
    PageRow {
        kind: None,
        with_bytes: is_measured(header),
        gpa: header.gpa(),
        count: view.placed_pages(header),
    }
}

/// The bytes of the pages that a header places are measured on TDX, whatever the options.
fn is_measured(header: &Header) -> bool
    ensures { result ≡ is_measured header.now }
{
    match tag_of(header, PlatformKind::Tdx, Options::plain()) {
        Some(tag) => has_bytes(tag),
        None => false,
    }
}

/// The bytes of pages with this tag are measured.
fn has_bytes(tag: Tag) -> bool
    ensures { result ≡ has_bytes tag }
{
    matches!(tag, Tag::Normal)
}
