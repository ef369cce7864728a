//! What holds of the digest of every file: a law is a function that does nothing.
ghost use Rattle.std.specs.Prelude.{◌≡◌, ◌↔◌, ℕ, List, ◌++◌, IsSome, filter};
ghost use Rattle.std.specs.List.{AllByRecursion};
ghost use Rattle.platform_masks.specs.declared.platform.Platform.{Platform};
ghost use Rattle.platform_masks.specs.Masks.{applies};
ghost use Rattle.igvm_image.specs.Headers.{IsAccepted, placed_headers};
ghost use Rattle.sev_chain.specs.SevBytes.{HasSevDigest, IsNoContext, sev_bytes, sev_digest_of};

use igvm_headers::PlatformKind;

/// A platform has this digest exactly where it is a SEV or a SEV-ES platform, whatever the file.
pub fn kinds_with_a_digest()
    ensures { (file : List ℕ) (platform : Platform)
        → (IsSome (sev_digest_of file platform) ↔ HasSevDigest platform.kind) }
{}

/// Contexts alone tell the two kinds apart: where none counts, the same bytes are hashed for a SEV and a
/// SEV-ES platform of one mask.
pub fn without_contexts()
    ensures { (file : List ℕ) (sev sev_es : Platform) → sev.kind ≡ PlatformKind.Sev
        → sev_es.kind ≡ PlatformKind.SevEs → sev.mask ≡ sev_es.mask
        → AllByRecursion IsNoContext (filter (λ p. applies p.header sev.mask) (placed_headers file))
        → sev_bytes file sev ≡ sev_bytes file sev_es }
{}

/// Bytes behind an accepted file change no digest, for a platform of any kind.
pub fn trailing_bytes()
    ensures { (file more : List ℕ) (platform : Platform) → IsAccepted file
        → sev_digest_of (file ++ more) platform ≡ sev_digest_of file platform }
{
    igvm_image::laws::trailing_bytes();
}
