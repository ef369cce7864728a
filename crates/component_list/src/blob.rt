//! Bytes that a component holds, of its own or in a file that it shares.
ghost use Rattle.std.specs.Prelude.{◌≡◌, ◌==◌};
ghost use Rattle.std.proofs.Common.{rules};
ghost use Rattle.std.specs.Cmp.Rules.{comparing};
ghost use Rattle.std.specs.Cmp.Lexicographic.{pointwise};
ghost use Rattle.std.specs.Rc.{rc_slice_items};
ghost use Rattle.igvm_headers.specs.Numbers.{slice};
ghost use Rattle.igvm_headers.specs.SpellingConditions.{AreBytes};
ghost use Rattle.component_list.specs.Blobs.{bytes_of};

use crate::slices::{behind, front};
use std::marker::Model;
use std::rc::RcSlice;

/// Bytes that a component holds, as a header's tail or its data: contracts see their list.
#[derive(Drop)]
pub struct Blob {
    bytes: Bytes,
}

/// Where the bytes lie.
#[derive(Drop)]
enum Bytes {
    /// All of a vector.
    Own(Vec<u8>),
    /// So many bytes of a file from a place on, or those up to its end.
    Piece {
        file: RcSlice<u8>,
        at: usize,
        size: usize,
    },
}

impl Model for Blob {
    ghost use Rattle.std.specs.Prelude.{List, ℕ};

    ghost Value = { List ℕ };

    ghost use Rattle.component_list.specs.Blobs.{bytes_of};

    ghost view = { λ b. bytes_of b.bytes };
}

impl Blob {
    /// These bytes.
    pub fn of_vec(bytes: Vec<u8>) -> Blob
        ensures { result ≡ bytes.items }
    {
        Blob {
            bytes: Bytes::Own(bytes),
        }
    }

    /// So many bytes of a file from a place on, which stay where they lie.
    pub(crate) fn of_piece(file: RcSlice<u8>, at: usize, size: usize) -> Blob
        ensures { result ≡ slice (rc_slice_items file) at size }
    {
        Blob {
            bytes: Bytes::Piece { file, at, size },
        }
    }

    /// The bytes, lent.
    pub fn bytes(&self) -> &[u8]
        ensures value { result.now ≡ self.now }
        ensures bytes { AreBytes result.now }
    {
        let bytes = lent(&self.bytes);
        note_bytes(bytes);
        bytes
    }
}

/// The bytes, wherever they lie.
fn lent(bytes: &Bytes) -> &[u8]
    ensures { result.now ≡ bytes_of bytes.now }
{
    match bytes {
        Bytes::Own(bytes) => bytes.as_slice(),
        Bytes::Piece { file, at, size } => front(behind(file.as_slice(), *at), *size),
    }
}

impl PartialEq for Blob {
    ghost eq = { pointwise ◌==◌ };

    ghost laws = { Prim.search (comparing, rules) };

    fn eq(&self, other: &Blob) -> bool {
        self.bytes() == other.bytes()
    }
}

impl Eq for Blob {
    ghost laws = { Prim.search (comparing, rules) };
}

/// Numbers of eight bits are bytes.
pub(crate) fn note_bytes(bytes: &[u8])
    ensures { AreBytes bytes.now }
{}
