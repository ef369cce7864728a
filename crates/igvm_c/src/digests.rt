//! The launch digests of an image for its platforms.
ghost use Rattle.std.specs.Prelude.{◌≡◌};
ghost use Rattle.igvm_c.specs.Digests.{digest_in, sev_digest_in};
ghost use Rattle.igvm_c.specs.Refusals.{held, status_of};

use crate::file::open;
use crate::options::options_of;
use crate::platforms::by_number;
use crate::refusal::Refusal;
use igvm_headers::Digest;
use igvm_measure::measure_image;
use sev_chain::{Digest32, sev_measure};

/// `struct igvm_digest`: the 48 bytes of a launch digest.
#[repr(C)]
#[derive(Clone, Copy, Debug, PartialEq, Eq)]
pub struct LaunchDigest {
    pub bytes: [u8; 48],
}

/// `struct igvm_sev_digest`: the 32 bytes of a launch digest of SEV and SEV-ES.
#[repr(C)]
#[derive(Clone, Copy, Debug, PartialEq, Eq)]
pub struct SevDigest {
    pub bytes: [u8; 32],
}

/// The launch digest of an image for its platform of this number, by these options: of SEV-SNP the LD
/// (SEV-SNP Firmware ABI), of TDX the MRTD (Intel TDX Module Base Architecture Specification).
#[unsafe(no_mangle)]
pub extern "C" fn igvm_measure(
    file: &[u8],
    platform: u32,
    options: u32,
    digest: &mut LaunchDigest,
) -> u32
    ensures status { result ≡ status_of (digest_in file.now platform options) }
    ensures digest { digest.new.bytes
        ≡ held (λ d. d) (digest_in file.now platform options) digest.old.bytes }
{
    match measured(file, platform, options) {
        Ok(found) => {
            digest.bytes.copy_from_slice(found.bytes());
            0
        }
        Err(refusal) => refusal.status(),
    }
}

/// The launch digest of an image for its SEV or SEV-ES platform of this number (AMD SEV API, GCTX.LD).
#[unsafe(no_mangle)]
pub extern "C" fn igvm_sev_measure(file: &[u8], platform: u32, digest: &mut SevDigest) -> u32
    ensures status { result ≡ status_of (sev_digest_in file.now platform) }
    ensures digest { digest.new.bytes
        ≡ held (λ d. d) (sev_digest_in file.now platform) digest.old.bytes }
{
    match sev_measured(file, platform) {
        Ok(found) => {
            digest.bytes.copy_from_slice(found.bytes());
            0
        }
        Err(refusal) => refusal.status(),
    }
}

/// The launch digest of a file.
fn measured(file: &[u8], platform: u32, options: u32) -> Result<Digest, Refusal>
    ensures { result ≡ digest_in file.now platform options }
{
    let options = options_of(options)?;
    let view = open(file)?;
    let platform = by_number(&view, platform)?;
    match measure_image(&view, platform, options) {
        Ok(digest) => Ok(digest),
        Err(_) => Err(Refusal::NoDigest),
    }
}

/// The launch digest of a file for SEV or SEV-ES.
fn sev_measured(file: &[u8], platform: u32) -> Result<Digest32, Refusal>
    ensures { result ≡ sev_digest_in file.now platform }
{
    let view = open(file)?;
    let platform = by_number(&view, platform)?;
    match sev_measure(&view, platform) {
        Ok(digest) => Ok(digest),
        Err(_) => Err(Refusal::NoDigest),
    }
}
