//! A buffer of lines, which are put together.
ghost use Rattle.std.specs.Prelude.{◌≡◌, ℕ, ◌≤◌, ◌+◌, ◌*◌, ◌++◌, List, [], length, take, OnOk, OnErr};
ghost use Rattle.hex.specs.Hex.{encode_lower};
ghost use Rattle.igvm_headers.specs.FaultCounts.{HasCause};
ghost use Rattle.igvm_outside.specs.Outputs.{gained};

use igvm_headers::Failed;
use igvm_outside::{Sink, put_all};
use std::marker::Model;

/// The most bytes that are gathered.
const CAPACITY: usize = 16_384;

/// No line has more bytes.
const LONGEST: usize = 512;

/// Text that is not put yet, in a buffer of fixed size. Contracts see its bytes; there is room for 16,384.
#[derive(Drop)]
pub struct LineBuffer {
    bytes: [u8; CAPACITY],
    count: usize,
}

impl Model for LineBuffer {
    ghost use Rattle.std.specs.Prelude.{List, ℕ, ◌≤◌, take};

    ghost Value = { List ℕ };

    ghost view = { λ s. take s.count s.bytes };

    ghost invariant = { λ s. s.count ≤ 16384 };
}

impl LineBuffer {
    /// No text.
    pub fn new() -> LineBuffer
        ensures { result ≡ [] }
    {
        LineBuffer {
            bytes: [0; CAPACITY],
            count: 0,
        }
    }

    /// Adds a text.
    pub fn push(&mut self, text: &[u8])
        requires { length self.old + length text.now ≤ 16384 }
        ensures { self.new ≡ self.old ++ text.now }
    {
        let end = self.count + text.len();
        self.bytes[self.count..end].copy_from_slice(text);
        self.count = end;
    }

    /// Adds the lower-case hexadecimal digits of some bytes, two a byte.
    pub fn push_digits(&mut self, bytes: &[u8])
        requires { length self.old + 2 * length bytes.now ≤ 16384 }
        ensures text { self.new ≡ self.old ++ encode_lower bytes.now }
        ensures grown { length self.new ≡ length self.old + 2 * length bytes.now }
    {
        let end = self.count + 2 * bytes.len();
        let _ = hex::encode_to_slice(bytes, &mut self.bytes[self.count..end]);
        self.count = end;
    }

    /// The text, lent.
    pub fn bytes(&self) -> &[u8]
        ensures { result.now ≡ self.now }
    {
        &self.bytes[..self.count]
    }

    /// Puts all of the text, and has none then. At a fault a front of it is put, and all of it is kept.
    pub fn put<O: Sink>(&mut self, out: &mut O) -> Result<(), Failed>
        ensures put { OnOk result (O.bytes out.new ≡ gained (O.bytes out.old) self.old) }
        ensures emptied { OnOk result (self.new ≡ []) }
        ensures front { OnErr result ((n : ℕ) × (n ≤ length self.old)
            × (O.bytes out.new ≡ gained (O.bytes out.old) (take n self.old))) }
        ensures kept { OnErr result (self.new ≡ self.old) }
        ensures cause { HasCause (O.faults out.old) (O.faults out.new) result }
        ensures counted { O.faults out.old ≤ O.faults out.new }
    {
        put_all(out, self.bytes())?;
        self.count = 0;
        Ok(())
    }

    /// Puts the text where there is no room for a line of 512 bytes behind it. At a fault a front of it is put, and
    /// all of it is kept.
    pub fn make_room<O: Sink>(&mut self, out: &mut O) -> Result<(), Failed>
        ensures put { OnOk result ((front : List ℕ)
            × (O.bytes out.new ≡ gained (O.bytes out.old) front)
            × (front ++ self.new ≡ self.old)) }
        ensures room { OnOk result (length self.new + 512 ≤ 16384) }
        ensures front { OnErr result ((n : ℕ) × (n ≤ length self.old)
            × (O.bytes out.new ≡ gained (O.bytes out.old) (take n self.old))) }
        ensures kept { OnErr result (self.new ≡ self.old) }
        ensures cause { HasCause (O.faults out.old) (O.faults out.new) result }
        ensures counted { O.faults out.old ≤ O.faults out.new }
    {
        if self.count > CAPACITY - LONGEST {
            return self.put(out);
        }
        Ok(())
    }
}
