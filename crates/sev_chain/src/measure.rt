//! The launch digest of an image for one of its SEV or SEV-ES platforms.
ghost use Rattle.std.specs.Prelude.{◌≡◌, IfOk, IfErr, Some, None};
ghost use Rattle.sev_chain.specs.SevBytes.{sev_digest_of};

use crate::digest::Digest32;
use crate::hashing::sev_digest;
use igvm_headers::PlatformKind;
use igvm_image::ImageView;
use igvm_measure::NoDigest;
use platform_masks::Platform;

/// The launch digest of an image for a SEV or SEV-ES platform (AMD SEV API, LAUNCH_MEASURE: GCTX.LD). It
/// needs no memory plan and no host, and images that would not load have it, too. An error says that the
/// platform is of another kind.
pub fn sev_measure(view: &ImageView<'_>, platform: Platform) -> Result<Digest32, NoDigest>
    ensures digest { IfOk result (λ digest. sev_digest_of view.now platform ≡ Some digest) }
    ensures none { IfErr result (λ e. sev_digest_of view.now platform ≡ None) }
    ensures kind { IfErr result (λ e. e.kind ≡ platform.kind) }
{
    match platform.kind {
        PlatformKind::Sev | PlatformKind::SevEs => Ok(sev_digest(view, platform)),
        kind => Err(NoDigest { kind }),
    }
}
