//! The standard output and the standard error. What they have taken is not told.
ghost use Rattle.std.specs.Prelude.{◌≡◌, ◌≤◌, None};

use crate::Sink;
use igvm_headers::Failed;
use std::io::Print;
use std::rt::{HostRuntime, Stderr};

/// A standard stream. Each put is one write of the system, so nothing is held back.
#[derive(Drop)]
pub struct StdSink<P: Print> {
    to: P,
    faults: u64,
}

impl<P: Print> StdSink<P> {
    /// The standard output of the runtime that `main` is given.
    pub fn output(rt: P) -> StdSink<P>
        ensures { ⟦<StdSink<P> as Sink>⟧.faults result ≡ 0 }
    {
        StdSink { to: rt, faults: 0 }
    }
}

impl StdSink<Stderr> {
    /// The standard error of the runtime that `main` is given.
    pub fn error(rt: HostRuntime) -> StdSink<Stderr>
        ensures { ⟦<StdSink<Stderr> as Sink>⟧.faults result ≡ 0 }
    {
        StdSink {
            to: rt.stderr(),
            faults: 0,
        }
    }
}

impl<P: Print> Sink for StdSink<P> {
    ghost bytes = { λ s. None };

    ghost faults = { λ s. s.faults };

    // A stream that takes no byte has failed.
    fn put(&mut self, piece: &[u8]) -> Result<usize, Failed> {
        match self.to.write_some(piece) {
            Ok(count) if count > 0 => Ok(count),
            _ => {
                self.faults = self.faults.saturating_add(1);
                Err(Failed)
            }
        }
    }
}
