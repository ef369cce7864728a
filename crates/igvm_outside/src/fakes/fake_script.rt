//! How a fake behaves: which of its calls fail, and in what pieces it moves bytes.
ghost use Rattle.std.specs.Prelude.{◌≡◌, ◌++◌, ◌∷◌, [], ◌+◌, ◌<◌, ◌≤◌, min, true, None, Some, OnOk, OnErr};
ghost use Rattle.igvm_headers.specs.FaultCounts.{Rose};
ghost use Rattle.igvm_outside.specs.Script.{fault_count, portion, is_due, IsCalled};

use igvm_headers::{Failed, Memory};
use std::alloc::Global;
use std::marker::Model;

/// The script of a fake, with a count of its faults.
#[derive(Drop)]
pub struct FakeScript {
    calls: u64,
    failing: Vec<u64>,
    others: u64,
    piece: Option<usize>,
}

impl Model for FakeScript {
    ghost use Rattle.std.specs.Prelude.{◌≢◌, Some};
    ghost use Rattle.igvm_outside.specs.Script.{Script};

    ghost Value = { Script };

    ghost view = { λ s. record {
      calls = s.calls;
      failing = s.failing.items;
      others = s.others;
      piece = s.piece;
    } };

    ghost invariant = { λ s. s.piece ≢ Some 0 };
}

impl FakeScript {
    /// Nothing fails, and bytes move whole.
    pub fn new(alloc: Global) -> FakeScript
        ensures { result ≡ record { calls = 0; failing = []; others = 0; piece = None } }
    {
        FakeScript {
            calls: 0,
            failing: Vec::new(alloc),
            others: 0,
            piece: None,
        }
    }

    /// Lets the call of a number fail; the first is number 1.
    pub fn fail_call(&mut self, number: u64) -> Result<(), Memory>
        ensures ok { OnOk result (self.new ≡ record self.old {
          failing = self.old.failing ++ number ∷ [];
        }) }
        ensures err { OnErr result (self.new ≡ self.old) }
    {
        self.failing.push(number).map_err(|_| Memory)
    }

    /// Moves at most `n` bytes a call from now on.
    pub fn set_piece(&mut self, n: usize)
        requires { 1 ≤ n }
        ensures { self.new ≡ record self.old { piece = Some n } }
    {
        self.piece = Some(n);
    }

    /// Counts a call, which fails where its number says so.
    pub fn call(&mut self) -> Result<(), Failed>
        ensures called { IsCalled self.old self.new result }
        ensures failed { OnErr result (is_due self.old ≡ true) }
        ensures others { self.new.others ≡ self.old.others }
    {
        if self.calls == u64::MAX {
            return Ok(());
        }
        self.calls += 1;
        if self.failing.contains(&self.calls) {
            return Err(Failed);
        }
        Ok(())
    }

    /// Counts a fault that no number asked for.
    pub fn fault(&mut self) -> Failed
        ensures one { self.new.others ≡ min (self.old.others + 1) 18446744073709551615 }
        ensures rose { Rose (fault_count self.old) (fault_count self.new) }
        ensures counted { fault_count self.old ≤ fault_count self.new }
        ensures calls { self.new.calls ≡ self.old.calls }
        ensures failing { self.new.failing ≡ self.old.failing }
        ensures piece { self.new.piece ≡ self.old.piece }
    {
        self.others = self.others.saturating_add(1);
        Failed
    }

    /// How many bytes a call moves where there is room for `room` of them.
    pub fn portion(&self, room: usize) -> usize
        ensures value { result ≡ portion self.now.piece room }
        ensures some { 0 < room → 0 < result }
        ensures within { result ≤ room }
    {
        match self.piece {
            Some(piece) => piece.min(room),
            None => room,
        }
    }
}
