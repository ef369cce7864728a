//! A shelf in memory, whose calls can be made to fail.
ghost use Rattle.std.specs.Prelude.{◌≡◌, ℕ, ◌+◌, ◌-◌, ◌^◌, ◌<◌, ◌≤◌, min, false, List, [], ◌∷◌, ◌++◌, length, take, drop, None, Some, IsSome, IsOk, IfOk, OnOk, OnErr};
ghost use Rattle.std.specs.FinMap as map;
ghost use Rattle.igvm_outside.specs.Files.{Nothing, Reading, Writing, untold, content};
ghost use Rattle.igvm_outside.specs.Script.{fault_count, portion, is_due, IsCalled};

use crate::Shelf;
use crate::fakes::fake_script::FakeScript;
use crate::fakes::mem_files::{KeptFile, Turn, append, give, index_of, keep};
use igvm_headers::{Failed, Memory};
use std::alloc::Global;
use std::marker::Model;

/// A shelf in memory. It tells its files.
#[derive(Drop)]
pub struct MemShelf {
    alloc: Global,
    files: Vec<KeptFile>,
    turn: Turn,
    given: u64,
    script: FakeScript,
}

impl Model for MemShelf {
    ghost use Rattle.igvm_outside.specs.MemShelfView.{MemShelfView, mem_shelf_code};
    ghost use Rattle.igvm_outside.specs.MemFiles.{files_of, state_of, IsOpenAt};

    ghost Value = { MemShelfView };

    ghost coded = { mem_shelf_code };

    ghost view = { λ s. record {
      files = files_of s.files.items;
      state = state_of s.files.items s.turn;
      given = s.given;
      script = s.script;
    } };

    ghost invariant = { λ s. IsOpenAt s.files.items s.turn };
}

impl MemShelf {
    /// A shelf without files.
    pub fn new(alloc: Global) -> MemShelf
        ensures { result ≡ record {
          files = map.empty;
          state = Nothing;
          given = 0;
          script = record { calls = 0; failing = []; others = 0; piece = None };
        } }
    {
        MemShelf {
            alloc,
            files: Vec::new(alloc),
            turn: Turn::Closed,
            given: 0,
            script: FakeScript::new(alloc),
        }
    }

    /// Keeps a file with these bytes, in place of one of this name. Nothing is open then.
    pub fn put_file(&mut self, name: &str, bytes: &[u8]) -> Result<(), Memory>
        ensures ok { OnOk result (self.new ≡ record self.old {
          files = map.insert self.old.files name.now bytes.now;
          state = Nothing;
        }) }
        ensures err { OnErr result (self.new ≡ self.old) }
    {
        let mut own_bytes = Vec::new(self.alloc);
        own_bytes.extend_from_slice(bytes).map_err(|_| Memory)?;
        keep(self.alloc, &mut self.files, name, own_bytes).map_err(|_| Memory)?;
        self.turn = Turn::Closed;
        Ok(())
    }

    /// Lets the call of a number fail; the first is number 1.
    pub fn fail_call(&mut self, number: u64) -> Result<(), Memory>
        ensures ok { OnOk result (self.new ≡ record self.old {
          script = record self.old.script { failing = self.old.script.failing ++ number ∷ [] };
        }) }
        ensures err { OnErr result (self.new ≡ self.old) }
    {
        self.script.fail_call(number)
    }

    /// Moves at most `n` bytes a call from now on.
    pub fn set_piece(&mut self, n: usize)
        requires { 1 ≤ n }
        ensures { self.new ≡ record self.old {
          script = record self.old.script { piece = Some n };
        } }
    {
        self.script.set_piece(n);
    }

    // Reads the file that is open, whatever its name.
    pub(crate) fn read_open(&mut self, buf: &mut [u8]) -> Result<usize, Failed>
        requires reading { untold self.old.state ≡ Reading None }
        requires room { 0 < length buf.old }
        ensures within { IfOk result (λ n. n ≤ length buf.new) }
        ensures exact { (name : List ℕ) (place : ℕ) → self.old.state ≡ Reading (Some (name, place))
            → IfOk result (λ n. n ≡ portion self.old.script.piece
            (min (length buf.old) (length (content self.old.files name) - place))) }
        ensures bytes { (name : List ℕ) (place : ℕ) → self.old.state ≡ Reading (Some (name, place))
            → IfOk result (λ n. take n buf.new
            ≡ take n (drop place (content self.old.files name))) }
        ensures end { (name : List ℕ) (place : ℕ) → self.old.state ≡ Reading (Some (name, place))
            → IfOk result (λ n. n ≡ 0 → length (content self.old.files name) ≤ place) }
        ensures moved { (name : List ℕ) (place : ℕ) → self.old.state ≡ Reading (Some (name, place))
            → IfOk result (λ n. self.new.state ≡ Reading (Some (name, place + n))) }
        ensures open_still { OnOk result (untold self.new.state ≡ Reading None) }
        ensures rest { IfOk result (λ n. drop n buf.new ≡ drop n buf.old) }
        ensures given { IfOk result (λ n. self.new.given
            ≡ min (self.old.given + n) 18446744073709551615) }
        ensures given_kept { OnErr result (self.new.given ≡ self.old.given) }
        ensures dropped { OnErr result (self.new.state ≡ Nothing) }
        ensures kept { self.new.files ≡ self.old.files }
        ensures sure { is_due self.old.script ≡ false → IsOk result }
        ensures called { IsCalled self.old.script self.new.script result }
    {
        let turn = self.turn;
        self.turn = Turn::Closed;
        self.script.call()?;
        let Turn::Read { file, place } = turn else {
            unreachable!()
        };
        let count = give(&self.files[file].bytes, place, &self.script, buf);
        self.turn = Turn::Read {
            file,
            place: place + count,
        };
        self.given = self.given.saturating_add(count as u64);
        Ok(count)
    }

    // Writes the file that is open, whatever its name.
    pub(crate) fn write_open(&mut self, piece: &[u8]) -> Result<usize, Failed>
        requires writing { untold self.old.state ≡ Writing None }
        requires some { 0 < length piece.now }
        ensures some { IfOk result (λ n. 1 ≤ n) }
        ensures within { IfOk result (λ n. n ≤ length piece.now) }
        ensures exact { IfOk result (λ n. n ≡ portion self.old.script.piece (length piece.now)) }
        ensures written { (name : List ℕ) → self.old.state ≡ Writing (Some name)
            → IfOk result (λ n. self.new.files ≡ map.insert self.old.files name
            (content self.old.files name ++ take n piece.now)) }
        ensures named { (name : List ℕ) → self.old.state ≡ Writing (Some name)
            → OnOk result (self.new.state ≡ Writing (Some name)) }
        ensures open_still { OnOk result (untold self.new.state ≡ Writing None) }
        ensures given_kept { self.new.given ≡ self.old.given }
        ensures dropped { OnErr result (self.new.state ≡ Nothing) }
        ensures kept { OnErr result (self.new.files ≡ self.old.files) }
        ensures called { IsCalled self.old.script self.new.script result }
    {
        let turn = self.turn;
        self.turn = Turn::Closed;
        self.script.call()?;
        let Turn::Write { file } = turn else {
            unreachable!()
        };
        let count = self.script.portion(piece.len());
        match append(&mut self.files, file, &piece[..count]) {
            Ok(()) => {
                self.turn = Turn::Write { file };
                Ok(count)
            }
            Err(_) => Err(self.script.fault()),
        }
    }

    // Ends what is open, whatever its name.
    pub(crate) fn close_open(&mut self) -> Result<(), Failed>
        ensures closed { self.new.state ≡ Nothing }
        ensures kept { self.new.files ≡ self.old.files }
        ensures given_kept { self.new.given ≡ self.old.given }
        ensures sure { is_due self.old.script ≡ false → IsOk result }
        ensures called { IsCalled self.old.script self.new.script result }
    {
        self.turn = Turn::Closed;
        self.script.call()
    }
}

impl Shelf for MemShelf {
    ghost told = { λ s. Some s.files };

    ghost state = { λ s. s.state };

    ghost given = { λ s. s.given };

    // One count for all names.
    ghost read_faults = { λ s name. fault_count s.script };

    ghost write_faults = { λ s name. fault_count s.script };

    /// Fails where `fail_call` says so and where there is no such file.
    fn open_file(&mut self, name: &str) -> Result<(), Failed>
        ensures opened { OnOk result (self.new.state ≡ Reading (Some (name.now, 0))) }
        ensures begun { OnOk result (self.new.given ≡ 0) }
        ensures found { OnOk result (IsSome (map.get self.old.files name.now)) }
        ensures given_kept { OnErr result (self.new.given ≡ self.old.given) }
        ensures dropped { OnErr result (self.new.state ≡ Nothing) }
        ensures kept { self.new.files ≡ self.old.files }
        ensures sure { is_due self.old.script ≡ false
            → IsSome (map.get self.old.files name.now) → IsOk result }
        ensures called { IsCalled self.old.script self.new.script result }
    {
        self.turn = Turn::Closed;
        self.script.call()?;
        match index_of(&self.files, name) {
            Some(file) => {
                self.turn = Turn::Read { file, place: 0 };
                self.given = 0;
                Ok(())
            }
            None => Err(self.script.fault()),
        }
    }

    /// Gives as many bytes as `set_piece` allows. It fails where `fail_call` says so.
    fn read(&mut self, name: &str, buf: &mut [u8]) -> Result<usize, Failed>
        requires reading { (place : ℕ) × (self.old.state ≡ Reading (Some (name.now, place))) }
        requires room { 0 < length buf.old }
        requires countable { self.old.given < 2 ^ 62 }
        ensures within { IfOk result (λ n. n ≤ length buf.new) }
        ensures exact { (place : ℕ) → self.old.state ≡ Reading (Some (name.now, place))
            → IfOk result (λ n. n ≡ portion self.old.script.piece
            (min (length buf.old) (length (content self.old.files name.now) - place))) }
        ensures bytes { (place : ℕ) → self.old.state ≡ Reading (Some (name.now, place))
            → IfOk result (λ n. take n buf.new
            ≡ take n (drop place (content self.old.files name.now))) }
        ensures end { (place : ℕ) → self.old.state ≡ Reading (Some (name.now, place))
            → IfOk result (λ n. n ≡ 0 → length (content self.old.files name.now) ≤ place) }
        ensures moved { (place : ℕ) → self.old.state ≡ Reading (Some (name.now, place))
            → IfOk result (λ n. self.new.state ≡ Reading (Some (name.now, place + n))) }
        ensures rest { IfOk result (λ n. drop n buf.new ≡ drop n buf.old) }
        ensures given { IfOk result (λ n. self.new.given ≡ self.old.given + n) }
        ensures given_kept { OnErr result (self.new.given ≡ self.old.given) }
        ensures dropped { OnErr result (self.new.state ≡ Nothing) }
        ensures kept { self.new.files ≡ self.old.files }
        ensures sure { is_due self.old.script ≡ false → IsOk result }
        ensures called { IsCalled self.old.script self.new.script result }
    {
        self.read_open(buf)
    }

    /// Fails where `fail_call` says so and where memory runs out.
    fn create(&mut self, name: &str) -> Result<(), Failed>
        ensures created { OnOk result (self.new.state ≡ Writing (Some name.now)) }
        ensures emptied { OnOk result (self.new.files ≡ map.insert self.old.files name.now []) }
        ensures given_kept { self.new.given ≡ self.old.given }
        ensures dropped { OnErr result (self.new.state ≡ Nothing) }
        ensures kept { OnErr result (self.new.files ≡ self.old.files) }
        ensures called { IsCalled self.old.script self.new.script result }
    {
        self.turn = Turn::Closed;
        self.script.call()?;
        match keep(self.alloc, &mut self.files, name, Vec::new(self.alloc)) {
            Ok(file) => {
                self.turn = Turn::Write { file };
                Ok(())
            }
            Err(_) => Err(self.script.fault()),
        }
    }

    /// Takes as many bytes as `set_piece` allows. Fails where `fail_call` says so and where memory
    /// runs out.
    fn write(&mut self, name: &str, piece: &[u8]) -> Result<usize, Failed>
        requires writing { self.old.state ≡ Writing (Some name.now) }
        requires some { 0 < length piece.now }
        ensures some { IfOk result (λ n. 1 ≤ n) }
        ensures within { IfOk result (λ n. n ≤ length piece.now) }
        ensures exact { IfOk result (λ n. n ≡ portion self.old.script.piece (length piece.now)) }
        ensures written { IfOk result (λ n. self.new.files ≡ map.insert self.old.files name.now
            (content self.old.files name.now ++ take n piece.now)) }
        ensures open_still { OnOk result (self.new.state ≡ Writing (Some name.now)) }
        ensures given_kept { self.new.given ≡ self.old.given }
        ensures dropped { OnErr result (self.new.state ≡ Nothing) }
        ensures kept { OnErr result (self.new.files ≡ self.old.files) }
        ensures called { IsCalled self.old.script self.new.script result }
    {
        self.write_open(piece)
    }

    /// Fails where `fail_call` says so.
    fn close(&mut self, name: &str) -> Result<(), Failed>
        requires { self.old.state ≡ Writing (Some name.now) }
        ensures closed { self.new.state ≡ Nothing }
        ensures given_kept { self.new.given ≡ self.old.given }
        ensures kept { self.new.files ≡ self.old.files }
        ensures sure { is_due self.old.script ≡ false → IsOk result }
        ensures called { IsCalled self.old.script self.new.script result }
    {
        self.close_open()
    }
}
