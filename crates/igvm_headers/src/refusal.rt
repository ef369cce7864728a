//! The two refusals that say nothing of the input.
use std::alloc::{AllocError, AllocFailed};

/// Want of memory.
#[derive(Clone, Copy, Debug, PartialEq, Eq)]
pub struct Memory;

impl From<AllocError> for Memory {
    ghost from_gives = { λ _ _. Unit {0} };

    fn from(_e: AllocError) -> Memory {
        Memory
    }
}

impl<T: Drop> From<AllocFailed<T>> for Memory {
    ghost from_gives = { λ _ _. Unit {0} };

    fn from(_e: AllocFailed<T>) -> Memory {
        Memory
    }
}

/// A fault of something outside: a shelf of files, an output or a launch machine. It is counted there.
#[derive(Clone, Copy, Debug, PartialEq, Eq)]
pub struct Failed;
