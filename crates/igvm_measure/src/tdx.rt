//! The TDX measurement: the records of an image's pages as one stream (Intel TDX Module Base Architecture
//! Specification, TDH.MEM.PAGE.ADD and TDH.MR.EXTEND).
ghost use Rattle.std.specs.Prelude.{◌≡◌, ◌%◌, ℕ, ◌++◌, List};
ghost use Rattle.tdx_chain.specs.Held.{Holds};
ghost use Rattle.igvm_measure.specs.Measured.{TdxMeasured, on_tdx};
ghost use Rattle.igvm_measure.specs.Records.{tdx_records_of};
ghost use Rattle.igvm_measure.specs.Digests.{tdx_digest};
ghost use Rattle.igvm_measure.specs.Runs.{page_view};

use crate::run::MeasuredPage;
use crate::walk::Walk;
use igvm_headers::{Digest, Options, PlatformKind};
use igvm_image::ImageView;
use platform_masks::Platform;
use tdx_chain::TdxChain;

/// The TDX measurement of an image for a platform. No option has a say in it.
pub(crate) fn tdx_digest(view: &ImageView<'_>, platform: Platform) -> Digest
    requires { platform.kind ≡ PlatformKind.Tdx }
    ensures { result ≡ tdx_digest view.now platform.mask }
{
    let mut chain = TdxChain::new();
    let mut walk = Walk::new(view, platform, Options::plain());
    'pages: while let Some(page) = walk.next() {
        add_page(&mut chain, page);
    }
    chain.finish()
}

/// Adds the records of a page: its place, and its bytes behind it where they are measured.
fn add_page(chain: &mut TdxChain, page: MeasuredPage<'_>)
    requires { page.gpa % 4096 ≡ 0 }
    ensures { (records : List (List ℕ)) (m : TdxMeasured) → page_view page.entry ≡ on_tdx m
        → Holds chain.old records → Holds chain.new (records ++ tdx_records_of m) }
{
    let MeasuredPage { gpa, bytes, .. } = page;
    chain.page_add(gpa);
    if let Some(bytes) = bytes {
        chain.extend(gpa, bytes);
    }
}
