//! A launch that has ended: its pages, and its digest (SEV-SNP Firmware ABI, SNP_LAUNCH_FINISH; Intel TDX Module Base
//! Architecture Specification, TDH.MR.FINALIZE).
ghost use Rattle.std.specs.Prelude.{◌≡◌, ◌≢◌, ℕ, List, Some, true, false, IfSome};
ghost use Rattle.launch_platform.specs.Machine.{LaunchRecord, launch_digest};
ghost use Rattle.launch_platform.specs.Chains.{kind_of, ChainHolds};

use crate::guest_pages::GuestPages;
use crate::running_launch::RunningLaunch;
use igvm_headers::{Digest, PlatformKind};

/// A launch that has ended.
#[derive(Drop)]
pub(crate) struct EndedLaunch {
    pub(crate) pages: GuestPages,
    pub(crate) kind: PlatformKind,
    pub(crate) digest: Digest,
    pub(crate) is_refused: bool,
}

impl EndedLaunch {
    /// Ends a launch. It is refused where another digest is wanted.
    pub(crate) fn new(launch: RunningLaunch, wanted: Option<Digest>) -> EndedLaunch
        ensures pages { result.pages ≡ launch.pages }
        ensures kind { result.kind ≡ kind_of launch.chain }
        ensures digest { (records : List LaunchRecord) → ChainHolds launch.chain records
            → result.digest ≡ launch_digest (kind_of launch.chain) records }
        ensures refused { result.is_refused ≡ true
            → (other : List ℕ) × (wanted ≡ Some other) × (other ≢ result.digest) }
        ensures accepted { result.is_refused ≡ false
            → IfSome wanted (λ other. other ≡ result.digest) }
    {
        let kind = launch.chain.kind();
        let digest = launch.chain.finish();
        EndedLaunch {
            pages: launch.pages,
            kind,
            digest,
            is_refused: is_other(wanted, digest),
        }
    }
}

/// Another digest than this one is wanted.
fn is_other(wanted: Option<Digest>, digest: Digest) -> bool
    ensures other { result ≡ true → (other : List ℕ) × (wanted ≡ Some other) × (other ≢ digest) }
    ensures same { result ≡ false → IfSome wanted (λ other. other ≡ digest) }
{
    match wanted {
        Some(wanted) => wanted != digest,
        None => false,
    }
}
