//! Why a file is not read.
ghost use Rattle.std.specs.Prelude.{◌≡◌};

use igvm_headers::Failed as Fault;
use std::alloc::AllocError;

/// Why a file is not read.
#[derive(Clone, Copy, Debug, PartialEq, Eq)]
pub enum ReadRefusal {
    /// The file gave more bytes than the limit.
    TooLong,
    /// The shelf could not open or read it.
    Failed,
    /// Memory ran out.
    Memory,
}

impl From<Fault> for ReadRefusal {
    ghost use Rattle.igvm_outside.specs.declared.read_refusal.ReadRefusal.TheVariants.{Failed};

    ghost from_gives = { λ _ refusal. refusal ≡ Failed };

    fn from(_: Fault) -> ReadRefusal {
        ReadRefusal::Failed
    }
}

impl From<AllocError> for ReadRefusal {
    ghost use Rattle.igvm_outside.specs.declared.read_refusal.ReadRefusal.TheVariants.{Memory};

    ghost from_gives = { λ _ refusal. refusal ≡ Memory };

    fn from(_: AllocError) -> ReadRefusal {
        ReadRefusal::Memory
    }
}
