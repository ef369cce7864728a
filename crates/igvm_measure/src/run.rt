//! The pages of a header, one after the other.
ghost use Rattle.std.specs.Prelude.{◌≡◌, ◌%◌, ◌∷◌, [], IfSome, IfNone, None, Decides};
ghost use Rattle.igvm_image.specs.Areas.{areas_of};
ghost use Rattle.igvm_image.specs.Headers.{headers_of};
ghost use Rattle.igvm_image.specs.PlacedView.{placed_view};
ghost use Rattle.igvm_image.specs.PagesFit.{PagesFit};
ghost use Rattle.igvm_measure.specs.Runs.{IsRun, IsRunIfAny, HasItsPages, option_left, page_view, run_left, header_measured};

use crate::page_row::{PageRow, row_of};
use igvm_headers::{Options, PAGE_SIZE, PageView, PlatformKind, numbers_fit};
use igvm_image::{DataView, ImageView, Placed};
use snp_chain::SnpPage;

/// A page as it is measured: its page type on SEV-SNP, its address, and its bytes where they count.
#[derive(Drop)]
pub(crate) struct MeasuredPage<'a> {
    pub(crate) kind: Option<SnpPage>,
    pub(crate) gpa: u64,
    pub(crate) bytes: Option<PageView<'a>>,
}

/// The pages of a header from page `next` on.
#[derive(Drop)]
pub(crate) struct Run<'a> {
    row: PageRow,
    content: DataView<'a>,
    next: u64,
}

impl<'a> Run<'a> {
    /// The pages of a header of an image.
    pub(crate) fn of(
        view: &ImageView<'_>,
        placed: Placed<'a>,
        kind: PlatformKind,
        options: Options,
    ) -> Run<'a>
        requires fits { PagesFit (areas_of (headers_of view.now)) placed.header }
        requires pages { HasItsPages (placed_view placed) }
        ensures run { IsRun result }
        ensures left { run_left result
            ≡ header_measured kind options (areas_of (headers_of view.now)) (placed_view placed.entry) }
    {
        // A law: nothing runs.
        numbers_fit(placed.header);
        let row = row_of(view, &placed.header, kind, options);
        Run {
            row,
            content: placed.content,
            next: 0,
        }
    }

    /// No page is left.
    pub(crate) fn is_done(&self) -> bool
        requires { IsRun self.now }
        ensures { Decides result (run_left self.now ≡ []) }
    {
        self.next == self.row.count
    }

    /// The next page, or None where none is left. Where it has no page type, its address is a multiple of
    /// 4,096.
    pub(crate) fn next(&mut self) -> Option<MeasuredPage<'a>>
        requires { IsRun self.old }
        ensures run { IsRun self.new }
        ensures none { IfNone result (run_left self.old ≡ []) }
        ensures some { IfSome result (λ page. run_left self.old ≡ page_view page ∷ run_left self.new) }
        ensures aligned { IfSome result (λ page. page.kind ≡ None → page.gpa % 4096 ≡ 0) }
    {
        if self.next == self.row.count {
            return None;
        }
        let k = self.next;
        self.next += 1;
        Some(MeasuredPage {
            kind: self.row.kind,
            gpa: self.row.gpa + PAGE_SIZE * k,
            bytes: if self.row.with_bytes {
                Some(self.content.page(k))
            } else {
                None
            },
        })
    }
}

/// The next page of a run, or None where none is left or there is no run.
pub(crate) fn next_of<'a>(run: &mut Option<Run<'a>>) -> Option<MeasuredPage<'a>>
    requires { IsRunIfAny run.old }
    ensures run { IsRunIfAny run.new }
    ensures none { IfNone result (option_left run.old ≡ []) }
    ensures some { IfSome result (λ page. option_left run.old ≡ page_view page ∷ option_left run.new) }
    ensures aligned { IfSome result (λ page. page.kind ≡ None → page.gpa % 4096 ≡ 0) }
{
    match run {
        Some(run) => run.next(),
        None => None,
    }
}

/// No page is left of a run, or there is no run.
pub(crate) fn is_over(run: &Option<Run<'_>>) -> bool
    requires { IsRunIfAny run.now }
    ensures { Decides result (option_left run.now ≡ []) }
{
    match run {
        Some(run) => run.is_done(),
        None => true,
    }
}
