//! Files by name, of which at most one is open.
ghost use Rattle.std.specs.Prelude.{◌≡◌, ℕ, ◌+◌, ◌^◌, ◌<◌, ◌≤◌, List, [], Option, length, take, drop, IfSome, IfOk, OnOk, OnErr};
ghost use Rattle.igvm_headers.specs.FaultCounts.{HasCause};
ghost use Rattle.igvm_outside.specs.Files.{Files, State, Nothing, reading, writing, content, IsThere, with_file, with_more, NeverFalls};

use igvm_headers::Failed;

/// Files by name. Whether they are told never changes, and no call changes them but a `create` and
/// a `write` that answer Ok. After `Failed` nothing is open.
pub trait Shelf {
    /// What each file holds, where the shelf tells it.
    ghost told: { Self → Option Files };

    /// What is open.
    ghost state: { Self → State };

    /// The bytes given since the last `open_file` that answered Ok. A call that gives none leaves it.
    ghost given: { Self → ℕ };

    /// How often opening or reading a name has failed: for each name a `u64` that never falls and
    /// stops at its last value. An answer Ok leaves the count of the name.
    ghost read_faults: { Self → List ℕ → ℕ };

    /// How often creating, writing or closing a name has failed, counted likewise.
    ghost write_faults: { Self → List ℕ → ℕ };

    /// Opens a file to be read from its start. A name that is not there is a fault.
    fn open_file(&mut self, name: &str) -> Result<(), Failed>
        ensures opened { OnOk result (state self.new ≡ reading (told self.new) name.now 0) }
        ensures begun { OnOk result (given self.new ≡ 0) }
        ensures found { OnOk result (IsThere (told self.old) name.now) }
        ensures given_kept { OnErr result (given self.new ≡ given self.old) }
        ensures dropped { OnErr result (state self.new ≡ Nothing) }
        ensures kept { told self.new ≡ told self.old }
        ensures cause { HasCause (read_faults self.old name.now)
            (read_faults self.new name.now) result }
        ensures no_fault { OnOk result (read_faults self.new name.now
            ≡ read_faults self.old name.now) }
        ensures reads { NeverFalls (read_faults self.old) (read_faults self.new) }
        ensures writes { NeverFalls (write_faults self.old) (write_faults self.new) };

    /// Gives the next bytes of the file that is read. `Ok(0)` is its end.
    fn read(&mut self, name: &str, buf: &mut [u8]) -> Result<usize, Failed>
        requires reading { (place : ℕ) × (state self.old ≡ reading (told self.old) name.now place) }
        requires room { 0 < length buf.old }
        requires countable { given self.old < 2 ^ 62 }
        ensures within { IfOk result (λ n. n ≤ length buf.new) }

        // What is given stands at the place that the reading has come to.
        ensures bytes { (place : ℕ) → state self.old ≡ reading (told self.old) name.now place
            → IfOk result (λ n. IfSome (told self.old) (λ files.
            take n buf.new ≡ take n (drop place (content files name.now)))) }
        ensures end { (place : ℕ) → state self.old ≡ reading (told self.old) name.now place
            → IfOk result (λ n. n ≡ 0 → IfSome (told self.old) (λ files.
            length (content files name.now) ≤ place)) }
        ensures moved { (place : ℕ) → state self.old ≡ reading (told self.old) name.now place
            → IfOk result (λ n. state self.new ≡ reading (told self.new) name.now (place + n)) }

        ensures rest { IfOk result (λ n. drop n buf.new ≡ drop n buf.old) }
        ensures given { IfOk result (λ n. given self.new ≡ given self.old + n) }
        ensures given_kept { OnErr result (given self.new ≡ given self.old) }
        ensures dropped { OnErr result (state self.new ≡ Nothing) }
        ensures kept { told self.new ≡ told self.old }
        ensures cause { HasCause (read_faults self.old name.now)
            (read_faults self.new name.now) result }
        ensures no_fault { OnOk result (read_faults self.new name.now
            ≡ read_faults self.old name.now) }
        ensures reads { NeverFalls (read_faults self.old) (read_faults self.new) }
        ensures writes { NeverFalls (write_faults self.old) (write_faults self.new) };

    /// Begins a file that is empty, in place of one of this name.
    fn create(&mut self, name: &str) -> Result<(), Failed>
        ensures created { OnOk result (state self.new ≡ writing (told self.new) name.now) }
        ensures emptied { OnOk result (told self.new ≡ with_file (told self.old) name.now []) }
        ensures given_kept { given self.new ≡ given self.old }
        ensures dropped { OnErr result (state self.new ≡ Nothing) }
        ensures kept { OnErr result (told self.new ≡ told self.old) }
        ensures cause { HasCause (write_faults self.old name.now)
            (write_faults self.new name.now) result }
        ensures no_fault { OnOk result (write_faults self.new name.now
            ≡ write_faults self.old name.now) }
        ensures reads { NeverFalls (read_faults self.old) (read_faults self.new) }
        ensures writes { NeverFalls (write_faults self.old) (write_faults self.new) };

    /// Puts the first bytes of a piece after those of the file that is written, and says how many.
    fn write(&mut self, name: &str, piece: &[u8]) -> Result<usize, Failed>
        requires writing { state self.old ≡ writing (told self.old) name.now }
        requires some { 0 < length piece.now }
        ensures some { IfOk result (λ n. 1 ≤ n) }
        ensures within { IfOk result (λ n. n ≤ length piece.now) }
        ensures written { IfOk result (λ n. told self.new
            ≡ with_more (told self.old) name.now (take n piece.now)) }
        ensures open_still { OnOk result (state self.new ≡ writing (told self.new) name.now) }
        ensures given_kept { given self.new ≡ given self.old }
        ensures dropped { OnErr result (state self.new ≡ Nothing) }
        ensures kept { OnErr result (told self.new ≡ told self.old) }
        ensures cause { HasCause (write_faults self.old name.now)
            (write_faults self.new name.now) result }
        ensures no_fault { OnOk result (write_faults self.new name.now
            ≡ write_faults self.old name.now) }
        ensures reads { NeverFalls (read_faults self.old) (read_faults self.new) }
        ensures writes { NeverFalls (write_faults self.old) (write_faults self.new) };

    /// Ends the file that is written.
    fn close(&mut self, name: &str) -> Result<(), Failed>
        requires { state self.old ≡ writing (told self.old) name.now }
        ensures closed { state self.new ≡ Nothing }
        ensures given_kept { given self.new ≡ given self.old }
        ensures kept { told self.new ≡ told self.old }
        ensures cause { HasCause (write_faults self.old name.now)
            (write_faults self.new name.now) result }
        ensures no_fault { OnOk result (write_faults self.new name.now
            ≡ write_faults self.old name.now) }
        ensures reads { NeverFalls (read_faults self.old) (read_faults self.new) }
        ensures writes { NeverFalls (write_faults self.old) (write_faults self.new) };
}
