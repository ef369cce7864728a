//! The SEV-SNP launch digest: the records of an image's pages, one after the other (SEV-SNP Firmware ABI,
//! SNP_LAUNCH_UPDATE).
ghost use Rattle.std.specs.Prelude.{◌≡◌, ◌++◌, [], ◌∷◌, List};
ghost use Rattle.snp_chain.specs.Chain.{PageRecord, Holds};
ghost use Rattle.igvm_measure.specs.Measured.{SnpMeasured, on_snp};
ghost use Rattle.igvm_measure.specs.Records.{snp_record};
ghost use Rattle.igvm_measure.specs.Digests.{snp_digest};
ghost use Rattle.igvm_measure.specs.Runs.{page_view};

use crate::page_digests::PageDigests;
use crate::run::MeasuredPage;
use crate::walk::Walk;
use igvm_headers::{Digest, Options, PlatformKind};
use igvm_image::ImageView;
use platform_masks::Platform;
use snp_chain::SnpChain;

/// The SEV-SNP launch digest of an image for a platform.
pub(crate) fn snp_digest(view: &ImageView<'_>, platform: Platform, options: Options) -> Digest
    requires { platform.kind ≡ PlatformKind.SevSnp }
    ensures { result ≡ snp_digest options view.now platform.mask }
{
    let digests = PageDigests::new();
    let mut chain = SnpChain::new();
    let mut walk = Walk::new(view, platform, options);
    'pages: while let Some(page) = walk.next() {
        add_page(&mut chain, &digests, page);
    }
    chain.digest()
}

/// Adds the record of a page.
fn add_page(chain: &mut SnpChain, digests: &PageDigests, page: MeasuredPage<'_>)
    ensures { (records : List PageRecord) (m : SnpMeasured) → page_view page.entry ≡ on_snp m
        → Holds chain.old records → Holds chain.new (records ++ snp_record m ∷ []) }
{
    let MeasuredPage { kind, gpa, bytes } = page;
    if let Some(kind) = kind {
        let contents = digests.contents(bytes);
        chain.update(kind, gpa, &contents);
    }
}
