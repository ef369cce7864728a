//! Whether an image fits a host, and what doesn't.
ghost use Rattle.std.specs.Prelude.{◌≡◌, ◌<◌, ℕ, List, true, None, OnOk, IfOk, IfErr};
ghost use Rattle.std.specs.Ordering.{nat_cmp};
ghost use Rattle.std.specs.BTreeSet.{contains, btree_set_len};
ghost use Rattle.igvm_image.specs.Areas.{areas_of};
ghost use Rattle.igvm_image.specs.PagesFit.{PagesFit};
ghost use Rattle.igvm_image.specs.Headers.{PlacedHeader, placed_headers, headers_of};
ghost use Rattle.igvm_image.specs.PlacedView.{placed_view};
ghost use Rattle.directive_rules.specs.MisfitRows.{setting, row};
ghost use Rattle.directive_rules.specs.FirstMisfit.{setting_of, headers_in, headers_for, first_misfit};
ghost use Rattle.directive_rules.specs.LoadCounts.{Counts, IsWithinLimits};
ghost use Rattle.directive_rules.specs.EarlierHeaders.{Summarizes};
ghost use Rattle.directive_rules.specs.CheckAnswers.{IsRefusalBy, IsRefusalOf, FitsAfter};

use crate::earlier_headers::EarlierHeaders;
use crate::misfit::{CheckRefusal, Checked, Misfit};
use host_set::{HostSet, MemoryPlan};
use igvm_headers::PlatformKind;
use igvm_image::{ImageView, Placed};
use platform_masks::{Platform, applies};
use std::alloc::Global;

/// Whether an image fits a host, for one of its platforms: the headers that count for it are judged in
/// file order. Ok is what they come to, where all fit this memory and these values; else the answer is the
/// first that doesn't, and its first row. Whether the launch digest is the one that an ID block wants is
/// not judged here.
pub fn check(
    alloc: Global,
    view: &ImageView<'_>,
    platform: Platform,
    plan: &MemoryPlan,
    host: &HostSet,
) -> Result<Checked, CheckRefusal>
    ensures fits { OnOk result (first_misfit view.now platform plan.now host.now ≡ None) }
    ensures refused { IfErr result
        (IsRefusalBy (first_misfit view.now platform plan.now host.now)) }
    ensures counts { IfOk result (Counts (areas_of (headers_of view.now))
        (headers_for platform.mask (placed_headers view.now))) }
    ensures within { IfOk result IsWithinLimits }
{
    let mut earlier = EarlierHeaders::new(alloc);
    'headers: for placed in view.headers() {
        if applies(&placed.header, platform.mask) {
            if let Err(refusal) = judge(&mut earlier, view, platform.kind, plan, host, &placed) {
                return Err(refusal);
            }
        }
    }
    Ok(earlier.into_checked())
}

/// Takes in one more header, where it fits.
fn judge(
    earlier: &mut EarlierHeaders,
    view: &ImageView<'_>,
    kind: PlatformKind,
    plan: &MemoryPlan,
    host: &HostSet,
    placed: &Placed<'_>,
) -> Result<(), CheckRefusal>
    requires { PagesFit (areas_of (headers_of view.now)) placed.now.header }
    ensures fits { OnOk result (
        FitsAfter (setting kind plan.now host.now (areas_of (headers_of view.now)))
        earlier.old earlier.new (placed_view placed.now)) }
    ensures refused { IfErr result (λ e. (before : List PlacedHeader)
        → Summarizes earlier.old (areas_of (headers_of view.now)) before
        → IsRefusalOf (row (setting kind plan.now host.now (areas_of (headers_of view.now)))
        (headers_in before) placed.now.header) placed.now.index e) }
{
    if let Some(why) = earlier.why_of(view, kind, plan, host, &placed.header) {
        return Err(CheckRefusal::Misfit(Misfit {
            index: placed.index,
            why,
        }));
    }
    let Ok(()) = earlier.take(view, placed) else {
        return Err(CheckRefusal::Memory);
    };
    Ok(())
}

impl EarlierHeaders {
    /// What the headers come to.
    fn into_checked(self) -> Checked
        requires { (vp : ℕ) → contains nat_cmp self.vps vp ≡ true → vp < 65536 }
        ensures pages { result.pages ≡ self.pages }
        ensures contexts { result.contexts ≡ btree_set_len self.vps }
        ensures area_bytes { result.area_bytes ≡ self.area_bytes }
        ensures id { result.id ≡ self.id }
        ensures within { IsWithinLimits result }
    {
        Checked {
            pages: self.pages as u32,
            contexts: self.vps.len() as u32,
            area_bytes: self.area_bytes,
            id: self.id,
        }
    }
}
