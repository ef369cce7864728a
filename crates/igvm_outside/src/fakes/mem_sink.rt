//! An output in memory, whose calls can be made to fail.
ghost use Rattle.std.specs.Prelude.{◌≡◌, ◌++◌, ◌∷◌, [], ◌<◌, ◌≤◌, None, Some, IfOk, OnOk, OnErr, length, take};
ghost use Rattle.igvm_outside.specs.Script.{fault_count, portion, IsCalled};

use crate::Sink;
use crate::fakes::fake_script::FakeScript;
use igvm_headers::{Failed, Memory};
use std::alloc::Global;
use std::marker::Model;

/// An output in memory. It tells its bytes.
#[derive(Drop)]
pub struct MemSink {
    bytes: Vec<u8>,
    script: FakeScript,
}

impl Model for MemSink {
    ghost use Rattle.igvm_outside.specs.MemSinkView.{MemSinkView};

    ghost Value = { MemSinkView };

    ghost view = { λ s. record { bytes = s.bytes.items; script = s.script } };
}

impl MemSink {
    /// An output that has taken nothing.
    pub fn new(alloc: Global) -> MemSink
        ensures { result ≡ record {
          bytes = [];
          script = record { calls = 0; failing = []; others = 0; piece = None };
        } }
    {
        MemSink {
            bytes: Vec::new(alloc),
            script: FakeScript::new(alloc),
        }
    }

    /// All bytes put.
    pub fn bytes(&self) -> &[u8]
        ensures { result.now ≡ self.now.bytes }
    {
        &self.bytes
    }

    /// Lets the call of a number fail; the first is number 1.
    pub fn fail_call(&mut self, number: u64) -> Result<(), Memory>
        ensures ok { OnOk result (self.new ≡ record self.old {
          script = record self.old.script { failing = self.old.script.failing ++ number ∷ [] };
        }) }
        ensures err { OnErr result (self.new ≡ self.old) }
    {
        self.script.fail_call(number)
    }

    /// Takes at most `n` bytes a call from now on.
    pub fn set_piece(&mut self, n: usize)
        requires { 1 ≤ n }
        ensures { self.new ≡ record self.old {
          script = record self.old.script { piece = Some n };
        } }
    {
        self.script.set_piece(n);
    }
}

impl Sink for MemSink {
    ghost bytes = { λ s. Some s.bytes };

    ghost faults = { λ s. fault_count s.script };

    /// Takes as many bytes as `set_piece` allows. Fails where `fail_call` says so and where memory
    /// runs out.
    fn put(&mut self, piece: &[u8]) -> Result<usize, Failed>
        requires { 0 < length piece.now }
        ensures some { IfOk result (λ n. 1 ≤ n) }
        ensures within { IfOk result (λ n. n ≤ length piece.now) }
        ensures exact { IfOk result (λ n. n ≡ portion self.old.script.piece (length piece.now)) }
        ensures put { IfOk result (λ n. self.new.bytes ≡ self.old.bytes ++ take n piece.now) }
        ensures kept { OnErr result (self.new.bytes ≡ self.old.bytes) }
        ensures called { IsCalled self.old.script self.new.script result }
    {
        self.script.call()?;
        let count = self.script.portion(piece.len());
        match self.bytes.extend_from_slice(&piece[..count]) {
            Ok(()) => Ok(count),
            Err(_) => Err(self.script.fault()),
        }
    }
}
