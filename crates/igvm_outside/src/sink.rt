//! An output that takes bytes, a piece at a time.
ghost use Rattle.std.specs.Prelude.{◌≡◌, ℕ, ◌<◌, ◌≤◌, List, Option, length, take, IfOk, OnOk, OnErr};
ghost use Rattle.igvm_headers.specs.FaultCounts.{HasCause};
ghost use Rattle.igvm_outside.specs.Outputs.{gained};

use igvm_headers::Failed;

/// An output. Whether it tells its bytes never changes.
pub trait Sink {
    /// All bytes put, where the output tells them.
    ghost bytes: { Self → Option (List ℕ) };

    /// How often a put has failed: a `u64` that never falls and stops at its last value. An answer Ok
    /// leaves it.
    ghost faults: { Self → ℕ };

    /// Takes the first bytes of a piece and answers how many.
    fn put(&mut self, piece: &[u8]) -> Result<usize, Failed>
        requires { 0 < length piece.now }
        ensures some { IfOk result (λ n. 1 ≤ n) }
        ensures within { IfOk result (λ n. n ≤ length piece.now) }
        ensures put { IfOk result (λ n. bytes self.new
            ≡ gained (bytes self.old) (take n piece.now)) }
        ensures kept { OnErr result (bytes self.new ≡ bytes self.old) }
        ensures cause { HasCause (faults self.old) (faults self.new) result }
        ensures no_fault { OnOk result (faults self.new ≡ faults self.old) }
        ensures counted { faults self.old ≤ faults self.new };
}
