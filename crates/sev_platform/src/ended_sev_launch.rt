//! A SEV launch that has ended: its pages, and its digest (AMD SEV API, LAUNCH_MEASURE and LAUNCH_FINISH).
ghost use Rattle.std.specs.Prelude.{◌≡◌, ℕ, List};
ghost use Rattle.sha2.specs.Hashers.{Holds256};
ghost use Rattle.sha2.specs.Sha256.{sha256};

use crate::running_sev_launch::RunningSevLaunch;
use igvm_headers::PlatformKind;
use launch_platform::GuestPages;
use sev_chain::Digest32;
use sha2::Digest as _;

/// A launch that has ended.
#[derive(Drop)]
pub(crate) struct EndedSevLaunch {
    pub(crate) pages: GuestPages,
    pub(crate) kind: PlatformKind,
    pub(crate) digest: Digest32,
}

impl EndedSevLaunch {
    /// Ends a launch.
    pub(crate) fn new(launch: RunningSevLaunch) -> EndedSevLaunch
        ensures pages { result.pages ≡ launch.pages }
        ensures kind { result.kind ≡ launch.kind }
        ensures digest { (bytes : List ℕ) → Holds256 launch.hasher bytes
            → result.digest ≡ sha256 bytes }
    {
        EndedSevLaunch {
            pages: launch.pages,
            kind: launch.kind,
            digest: Digest32::of_bytes(launch.hasher.finalize()),
        }
    }
}
