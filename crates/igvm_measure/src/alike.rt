//! Images that measure the same pages.
ghost use Rattle.std.specs.Prelude.{◌≡◌, ◌⊎◌, IsTrue, IsFalse, Decides};
ghost use Rattle.igvm_measure.specs.Digests.{digest_of};
ghost use Rattle.igvm_measure.specs.Measured.{measured};
ghost use Rattle.igvm_measure.specs.Hashed.{hashed, Clash};
ghost use Rattle.igvm_measure.specs.Walks.{IsWalk, walk_left};

use crate::laws::binding;
use crate::same::is_same;
use crate::walk::Walk;
use igvm_headers::{Options, PlatformKind};
use igvm_image::ImageView;
use platform_masks::Platform;

/// Two images have the same measured pages for a platform of each, both SEV-SNP or both TDX. Then their
/// digests are one; and where they have one digest and other pages, SHA-384 clashes.
pub fn measured_alike(
    first: &ImageView<'_>,
    p: Platform,
    second: &ImageView<'_>,
    q: Platform,
    options: Options,
) -> bool
    requires kinds { p.kind ≡ q.kind }
    requires launch { (p.kind ≡ PlatformKind.SevSnp) ⊎ (p.kind ≡ PlatformKind.Tdx) }
    ensures exact { Decides result (measured first.now p options ≡ measured second.now q options) }
    ensures digests { IsTrue result → digest_of first.now p options ≡ digest_of second.now q options }
    ensures clash { IsFalse result → digest_of first.now p options ≡ digest_of second.now q options
        → Clash p.kind (hashed first.now p options) (hashed second.now q options) }
{
    // A law: nothing runs.
    binding();
    // Files that are viewed are accepted.
    let _first = first.fixed();
    let _second = second.fixed();
    same_pages(Walk::new(first, p, options), Walk::new(second, q, options))
}

/// Two walks have the same pages left.
fn same_pages(mut one: Walk<'_, '_>, mut other: Walk<'_, '_>) -> bool
    requires one { IsWalk one }
    requires other { IsWalk other }
    ensures { Decides result (walk_left one.entry ≡ walk_left other.entry) }
{
    'pages: while let Some(page) = one.next() {
        let Some(counterpart) = other.next() else {
            return false;
        };
        if !is_same(&page, &counterpart) {
            return false;
        }
    }
    other.next().is_none()
}
