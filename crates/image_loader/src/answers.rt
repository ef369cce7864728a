//! What `prepare` and `execute` answer.

use directive_rules::Misfit;
use igvm_headers::{Digest, PlatformKind};

/// Why an image isn't prepared. The first of these that holds is the answer.
#[derive(Clone, Copy, Debug, PartialEq, Eq)]
pub enum PrepareRefusal {
    /// The platform's kind has no launch digest.
    NoDigest { kind: PlatformKind },
    /// A header doesn't fit the host.
    Misfit(Misfit),
    /// Want of memory.
    Memory,
}

/// How a load ended.
#[derive(Clone, Copy, Debug, PartialEq, Eq)]
pub enum LoadAnswer {
    /// The image is loaded, and has this launch digest.
    Loaded(Digest),
    /// The ID block wants another launch digest than the one that was found.
    DoesNotFit(Misfit),
}

/// Why a load was stopped.
#[derive(Clone, Copy, Debug, PartialEq, Eq)]
pub enum ExecuteRefusal {
    /// A counted fault of the machine.
    Launch,
    /// Want of memory, at the start of the launch.
    Memory,
}
