//! A shelf whose files `made-N` are made as they are read, over a shelf in memory.
ghost use Rattle.std.specs.Prelude.{◌≡◌, ℕ, ◌+◌, ◌-◌, ◌^◌, ◌<◌, ◌≤◌, min, false, List, [], ◌++◌, length, take, drop, None, Some, IsSome, IsOk, IfOk, OnOk, OnErr};
ghost use Rattle.std.specs.FinMap as map;
ghost use Rattle.igvm_headers.specs.FaultCounts.{HasCause};
ghost use Rattle.igvm_outside.specs.Files.{Nothing, Reading, Writing, content};
ghost use Rattle.igvm_outside.specs.MadeFiles.{IsMade, made_bytes, making_state};
ghost use Rattle.igvm_outside.specs.Script.{fault_count, portion, is_due, IsCalled};

use crate::fakes::made_files::{give_made, made_size};
use crate::{MemShelf, Shelf};
use igvm_headers::Failed;
use std::marker::Model;

/// A shelf that makes its files `made-N`. N is decimal digits without a leading zero, of a number
/// below 2^32, and the file has N bytes. Every other name is one of the shelf below. It tells no
/// files.
#[derive(Drop)]
pub struct MadeShelf {
    inner: MemShelf,
    made: Option<MadeFile>,
    given: u64,
}

/// A made file that is open.
#[derive(Clone, Copy)]
struct MadeFile {
    size: u32,
    place: u64,
}

impl Model for MadeShelf {
    ghost use Rattle.std.specs.Prelude.{◌≤◌, IfSome};
    ghost use Rattle.std.specs.Option.{option_map};
    ghost use Rattle.igvm_outside.specs.MadeFiles.{Making, making_code};

    ghost Value = { Making };

    ghost coded = { making_code };

    ghost view = { λ s. record {
      inner = s.inner;
      made = option_map (λ file. (file.size, file.place)) s.made;
      given = s.given;
    } };

    ghost invariant = { λ s. IfSome s.made (λ file. file.place ≤ file.size) };
}

impl MadeShelf {
    /// Makes files over this shelf.
    pub fn new(inner: MemShelf) -> MadeShelf
        ensures { result ≡ record { inner = inner; made = None; given = 0 } }
    {
        MadeShelf {
            inner,
            made: None,
            given: 0,
        }
    }
}

impl Shelf for MadeShelf {
    ghost told = { λ s. None };

    ghost state = { making_state };

    ghost given = { λ s. s.given };

    // The counts are those of the shelf below.
    ghost read_faults = { λ s name. fault_count s.inner.script };

    ghost write_faults = { λ s name. fault_count s.inner.script };

    /// Opening a made file never fails and leaves the shelf below as it is. Another is opened there.
    fn open_file(&mut self, name: &str) -> Result<(), Failed>
        ensures made { (size : ℕ) → IsMade name.now size
            → IsOk result × (self.new.made ≡ Some (size, 0)) }
        ensures inner { (size : ℕ) → IsMade name.now size → self.new.inner ≡ self.old.inner }

        // A file that is not made.
        ensures other { ((size : ℕ) → IsMade name.now size → ⊥) → self.new.made ≡ None }
        ensures opened_there { ((size : ℕ) → IsMade name.now size → ⊥)
            → OnOk result (self.new.inner.state ≡ Reading (Some (name.now, 0))) }
        ensures found { ((size : ℕ) → IsMade name.now size → ⊥)
            → OnOk result (IsSome (map.get self.old.inner.files name.now)) }
        ensures sure { ((size : ℕ) → IsMade name.now size → ⊥)
            → is_due self.old.inner.script ≡ false
            → IsSome (map.get self.old.inner.files name.now) → IsOk result }
        ensures called { ((size : ℕ) → IsMade name.now size → ⊥)
            → IsCalled self.old.inner.script self.new.inner.script result }

        ensures opened { OnOk result (making_state self.new ≡ Reading None) }
        ensures begun { OnOk result (self.new.given ≡ 0) }
        ensures given_kept { OnErr result (self.new.given ≡ self.old.given) }
        ensures dropped { OnErr result (making_state self.new ≡ Nothing) }
        ensures kept { self.new.inner.files ≡ self.old.inner.files }
        ensures cause { HasCause (fault_count self.old.inner.script)
            (fault_count self.new.inner.script) result }
        ensures no_fault { OnOk result (fault_count self.new.inner.script
            ≡ fault_count self.old.inner.script) }
        ensures counted { fault_count self.old.inner.script ≤ fault_count self.new.inner.script }
    {
        match made_size(name) {
            Some(size) => {
                self.made = Some(MadeFile { size, place: 0 });
                self.given = 0;
                Ok(())
            }
            None => {
                self.made = None;
                self.inner.open_file(name)?;
                self.given = 0;
                Ok(())
            }
        }
    }

    /// Reading a made file never fails and leaves the shelf below as it is. Another is read there.
    fn read(&mut self, name: &str, buf: &mut [u8]) -> Result<usize, Failed>
        requires reading { making_state self.old ≡ Reading None }
        requires room { 0 < length buf.old }
        requires countable { self.old.given < 2 ^ 62 }
        ensures within { IfOk result (λ n. n ≤ length buf.new) }

        // The bytes of a made file, from the place that the reading has come to.
        ensures sure { (size place : ℕ) → self.old.made ≡ Some (size, place) → IsOk result }
        ensures exact { (size place : ℕ) → self.old.made ≡ Some (size, place)
            → IfOk result (λ n. n ≡ min (length buf.old) (size - place)) }
        ensures bytes { (size place : ℕ) → self.old.made ≡ Some (size, place)
            → IfOk result (λ n. take n buf.new ≡ take n (drop place (made_bytes size))) }
        ensures moved { (size place : ℕ) → self.old.made ≡ Some (size, place)
            → IfOk result (λ n. self.new.made ≡ Some (size, place + n)) }
        ensures inner { (size place : ℕ) → self.old.made ≡ Some (size, place)
            → self.new.inner ≡ self.old.inner }

        // Those of another file.
        ensures other_exact { (other : List ℕ) (place : ℕ) → self.old.made ≡ None
            → self.old.inner.state ≡ Reading (Some (other, place))
            → IfOk result (λ n. n ≡ portion self.old.inner.script.piece
            (min (length buf.old) (length (content self.old.inner.files other) - place))) }
        ensures other { (other : List ℕ) (place : ℕ) → self.old.made ≡ None
            → self.old.inner.state ≡ Reading (Some (other, place))
            → IfOk result (λ n. take n buf.new
            ≡ take n (drop place (content self.old.inner.files other))) }
        ensures other_end { (other : List ℕ) (place : ℕ) → self.old.made ≡ None
            → self.old.inner.state ≡ Reading (Some (other, place))
            → IfOk result (λ n. n ≡ 0
            → length (content self.old.inner.files other) ≤ place) }
        ensures other_moved { (other : List ℕ) (place : ℕ) → self.old.made ≡ None
            → self.old.inner.state ≡ Reading (Some (other, place))
            → IfOk result (λ n. self.new.inner.state ≡ Reading (Some (other, place + n))) }
        ensures other_sure { self.old.made ≡ None
            → is_due self.old.inner.script ≡ false → IsOk result }
        ensures other_called { self.old.made ≡ None
            → IsCalled self.old.inner.script self.new.inner.script result }
        ensures other_still { self.old.made ≡ None → self.new.made ≡ None }

        ensures open_still { OnOk result (making_state self.new ≡ Reading None) }
        ensures rest { IfOk result (λ n. drop n buf.new ≡ drop n buf.old) }
        ensures given { IfOk result (λ n. self.new.given ≡ self.old.given + n) }
        ensures given_kept { OnErr result (self.new.given ≡ self.old.given) }
        ensures dropped { OnErr result (making_state self.new ≡ Nothing) }
        ensures kept { self.new.inner.files ≡ self.old.inner.files }
        ensures cause { HasCause (fault_count self.old.inner.script)
            (fault_count self.new.inner.script) result }
        ensures no_fault { OnOk result (fault_count self.new.inner.script
            ≡ fault_count self.old.inner.script) }
        ensures counted { fault_count self.old.inner.script ≤ fault_count self.new.inner.script }
    {
        match self.made {
            Some(MadeFile { size, place }) => {
                let count = give_made(size, place, buf);
                self.made = Some(MadeFile {
                    size,
                    place: place + count as u64,
                });
                self.given += count as u64;
                Ok(count)
            }
            None => {
                let count = self.inner.read_open(buf)?;
                self.given += count as u64;
                Ok(count)
            }
        }
    }

    fn create(&mut self, name: &str) -> Result<(), Failed>
        ensures created { OnOk result (making_state self.new ≡ Writing None) }
        ensures emptied { OnOk result (self.new.inner.files
            ≡ map.insert self.old.inner.files name.now []) }
        ensures named { OnOk result (self.new.inner.state ≡ Writing (Some name.now)) }
        ensures unmade { self.new.made ≡ None }
        ensures given_kept { self.new.given ≡ self.old.given }
        ensures dropped { OnErr result (making_state self.new ≡ Nothing) }
        ensures kept { OnErr result (self.new.inner.files ≡ self.old.inner.files) }
        ensures called { IsCalled self.old.inner.script self.new.inner.script result }
    {
        self.made = None;
        self.inner.create(name)
    }

    fn write(&mut self, name: &str, piece: &[u8]) -> Result<usize, Failed>
        requires writing { making_state self.old ≡ Writing None }
        requires some { 0 < length piece.now }
        ensures some { IfOk result (λ n. 1 ≤ n) }
        ensures within { IfOk result (λ n. n ≤ length piece.now) }
        ensures written { (other : List ℕ) → self.old.inner.state ≡ Writing (Some other)
            → IfOk result (λ n. self.new.inner.files ≡ map.insert self.old.inner.files other
            (content self.old.inner.files other ++ take n piece.now)) }
        ensures open_still { OnOk result (making_state self.new ≡ Writing None) }
        ensures exact { IfOk result (λ n. n ≡ portion self.old.inner.script.piece (length piece.now)) }
        ensures named { (other : List ℕ) → self.old.inner.state ≡ Writing (Some other)
            → OnOk result (self.new.inner.state ≡ Writing (Some other)) }
        ensures given_kept { self.new.given ≡ self.old.given }
        ensures dropped { OnErr result (making_state self.new ≡ Nothing) }
        ensures kept { OnErr result (self.new.inner.files ≡ self.old.inner.files) }
        ensures unmade { self.new.made ≡ None }
        ensures called { IsCalled self.old.inner.script self.new.inner.script result }
    {
        match self.made {
            Some(_) => unreachable!(),
            None => self.inner.write_open(piece),
        }
    }

    fn close(&mut self, name: &str) -> Result<(), Failed>
        requires { making_state self.old ≡ Writing None }
        ensures closed { making_state self.new ≡ Nothing }
        ensures given_kept { self.new.given ≡ self.old.given }
        ensures kept { self.new.inner.files ≡ self.old.inner.files }
        ensures sure { is_due self.old.inner.script ≡ false → IsOk result }
        ensures called { IsCalled self.old.inner.script self.new.inner.script result }
    {
        self.made = None;
        self.inner.close_open()
    }
}
