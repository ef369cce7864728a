//! What `sev_load` answers.

use directive_rules::Misfit;
use igvm_headers::PlatformKind;
use sev_chain::Digest32;

/// How a load ended.
#[derive(Clone, Copy, Debug, PartialEq, Eq)]
pub enum SevAnswer {
    /// The image is loaded, and has this launch digest.
    Loaded(Digest32),
    /// A header doesn't fit the host. No command was sent.
    DoesNotFit(Misfit),
}

/// Why a load has no such answer.
#[derive(Clone, Copy, Debug, PartialEq, Eq)]
pub enum SevRefusal {
    /// The platform's kind is neither SEV nor SEV-ES. It comes before all others.
    NoDigest { kind: PlatformKind },
    /// A counted fault of the machine.
    Launch,
    /// Want of memory, before the launch begins.
    Memory,
}
