//! The launch digest of an image for one of its platforms.
ghost use Rattle.std.specs.Prelude.{◌≡◌, IfOk, IfErr, Some, None};
ghost use Rattle.igvm_measure.specs.Digests.{digest_of};

use crate::snp::snp_digest;
use crate::tdx::tdx_digest;
use igvm_headers::{Digest, Options, PlatformKind};
use igvm_image::ImageView;
use platform_masks::Platform;

/// The platform's kind has no launch digest.
#[derive(Clone, Copy, Debug, PartialEq, Eq)]
pub struct NoDigest {
    pub kind: PlatformKind,
}

/// The launch digest of an image for one of its platforms: the SEV-SNP launch digest (SEV-SNP Firmware ABI,
/// LD), or the TDX measurement (Intel TDX Module Base Architecture Specification, MRTD). It needs no memory
/// plan and no host, and images that would not load have it, too.
pub fn measure_image(
    view: &ImageView<'_>,
    platform: Platform,
    options: Options,
) -> Result<Digest, NoDigest>
    ensures digest { IfOk result (λ digest. digest_of view.now platform options ≡ Some digest) }
    ensures none { IfErr result (λ e. digest_of view.now platform options ≡ None) }
    ensures kind { IfErr result (λ e. e.kind ≡ platform.kind) }
{
    match platform.kind {
        PlatformKind::SevSnp => Ok(snp_digest(view, platform, options)),
        PlatformKind::Tdx => Ok(tdx_digest(view, platform)),
        kind => Err(NoDigest { kind }),
    }
}
