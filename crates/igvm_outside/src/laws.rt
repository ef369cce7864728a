//! What holds of calls one after the other: each law is a function that does nothing.
ghost use Rattle.std.specs.Prelude.{ℕ, List};
ghost use Rattle.igvm_outside.specs.ShelfCalls.{OnlyReads, OnlyWrites};

use crate::Shelf;

/// Two calls that only read are together one that only reads.
pub fn reads_compose<S: Shelf>()
    ensures { (first second third : S) → OnlyReads S.Shelf first second
        → OnlyReads S.Shelf second third → OnlyReads S.Shelf first third }
{}

/// Two calls that only write a file are together one that only writes it.
pub fn writes_compose<S: Shelf>()
    ensures { (name : List ℕ) (first second third : S) → OnlyWrites S.Shelf name first second
        → OnlyWrites S.Shelf name second third → OnlyWrites S.Shelf name first third }
{}
