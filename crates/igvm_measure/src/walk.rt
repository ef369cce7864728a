//! A walk over the pages of an image that are measured, header by header. It takes no memory.
ghost use Rattle.std.specs.Prelude.{◌≡◌, ◌⊎◌, ◌<◌, ◌%◌, ◌∷◌, [], length, IfSome, IfNone, None, IsTrue, IsFalse};
ghost use Rattle.igvm_image.specs.Areas.{areas_of};
ghost use Rattle.igvm_image.specs.Headers.{headers_of};
ghost use Rattle.igvm_image.specs.PlacedView.{placed_view};
ghost use Rattle.igvm_image.specs.PagesFit.{PagesFit};
ghost use Rattle.igvm_measure.specs.Measured.{counted, measured};
ghost use Rattle.igvm_measure.specs.Runs.{IsRunIfAny, HasItsPages, page_view, option_left, header_measured};
ghost use Rattle.igvm_measure.specs.Walks.{IsWalk, walk_left};

use crate::run::{MeasuredPage, Run, is_over, next_of};
use igvm_headers::{Options, PlatformKind};
use igvm_image::{Headers, ImageView, Placed};
use platform_masks::{Platform, applies};

/// The headers of an image that are left, and the run of the one that the walk is at.
#[derive(Drop)]
pub(crate) struct Walk<'v, 'a> {
    view: &'v ImageView<'a>,
    kind: PlatformKind,
    mask: u32,
    options: Options,
    headers: Headers<'a>,
    run: Option<Run<'a>>,
}

impl<'v, 'a> Walk<'v, 'a> {
    /// From an image's first page for a platform on.
    pub(crate) fn new(view: &'v ImageView<'a>, platform: Platform, options: Options) -> Walk<'v, 'a>
        requires { (platform.kind ≡ PlatformKind.SevSnp) ⊎ (platform.kind ≡ PlatformKind.Tdx) }
        ensures walk { IsWalk result }
        ensures left { walk_left result ≡ measured view.now platform options }
    {
        Walk {
            view,
            kind: platform.kind,
            mask: platform.mask,
            options,
            headers: view.headers(),
            run: None,
        }
    }

    /// The next page, or None where none is left. Where it has no page type, its address is a multiple of
    /// 4,096.
    pub(crate) fn next(&mut self) -> Option<MeasuredPage<'a>>
        requires { IsWalk self.old }
        ensures walk { IsWalk self.new }
        ensures none { IfNone result (walk_left self.old ≡ []) }
        ensures some { IfSome result (λ page. walk_left self.old ≡ page_view page ∷ walk_left self.new) }
        ensures aligned { IfSome result (λ page. page.kind ≡ None → page.gpa % 4096 ≡ 0) }
    {
        'headers: while is_over(&self.run) {
            if !self.next_header() {
                return None;
            }
        }
        next_of(&mut self.run)
    }

    /// Goes on to the next header, if one is left.
    fn next_header(&mut self) -> bool
        requires walk { IsWalk self.old }
        requires over { option_left self.old.run ≡ [] }
        ensures walk { IsWalk self.new }
        ensures left { walk_left self.new ≡ walk_left self.old }
        ensures fewer { IsTrue result → length self.new.headers < length self.old.headers }
        ensures end { IsFalse result → walk_left self.old ≡ [] }
    {
        let Some(placed) = self.headers.next() else {
            return false;
        };
        self.run = run_if(self.view, placed, self.kind, self.mask, self.options);
        true
    }
}

/// The run of a header that counts for a platform's mask.
fn run_if<'a>(
    view: &ImageView<'_>,
    placed: Placed<'a>,
    kind: PlatformKind,
    mask: u32,
    options: Options,
) -> Option<Run<'a>>
    requires fits { PagesFit (areas_of (headers_of view.now)) placed.header }
    requires pages { HasItsPages (placed_view placed) }
    ensures run { IsRunIfAny result }
    ensures left { option_left result
        ≡ counted (header_measured kind options (areas_of (headers_of view.now))) mask (placed_view placed.entry ∷ []) }
{
    if applies(&placed.header, mask) {
        Some(Run::of(view, placed, kind, options))
    } else {
        None
    }
}
