//! A whole file written to a shelf.
ghost use Rattle.std.specs.Prelude.{◌≡◌, ℕ, List, ◌++◌, Option, OnOk, OnErr};
ghost use Rattle.igvm_headers.specs.FaultCounts.{HasCause};
ghost use Rattle.igvm_outside.specs.Files.{Files, Nothing, writing, with_file};
ghost use Rattle.igvm_outside.specs.JoinedBytes.{lent, joined, HoldsFront};
ghost use Rattle.igvm_outside.specs.ShelfCalls.{OnlyWrites, Writes};

use crate::Shelf;
use igvm_headers::Failed;

/// Writes a file that holds this text, in place of one of this name. It takes no memory of its own.
pub fn write_file<S: Shelf>(shelf: &mut S, name: &str, text: &[u8]) -> Result<(), Failed>
    ensures { Writes S.Shelf name.now text.now result shelf.old shelf.new }
{
    write_pieces(shelf, name, text, &[])
}

/// Writes a file that holds these bytes one after the other, in place of one of this name. It takes
/// no memory of its own.
pub fn write_pieces<S: Shelf>(
    shelf: &mut S,
    name: &str,
    front: &[u8],
    pieces: &[&[u8]],
) -> Result<(), Failed>
    ensures { Writes S.Shelf name.now (joined front.now (lent pieces.now)) result
        shelf.old shelf.new }
{
    shelf.create(name)?;
    write_piece(shelf, name, front)?;
    'pieces: for piece in pieces {
        write_piece(shelf, name, *piece)?;
    }
    shelf.close(name)
}

/// Puts all bytes of a piece after those of the file that is written. An empty piece makes no call.
/// Between `create` and `close` it writes a file that is made a piece at a time.
pub fn write_piece<S: Shelf>(shelf: &mut S, name: &str, piece: &[u8]) -> Result<(), Failed>
    requires { S.state shelf.old ≡ writing (S.told shelf.old) name.now }
    ensures written { (told : Option Files) (text : List ℕ)
        → S.told shelf.old ≡ with_file told name.now text
        → OnOk result (S.told shelf.new ≡ with_file told name.now (text ++ piece.now)) }
    ensures front { (told : Option Files) (text : List ℕ)
        → S.told shelf.old ≡ with_file told name.now text
        → OnErr result (HoldsFront told (S.told shelf.new) name.now (text ++ piece.now)) }
    ensures open_still { OnOk result (S.state shelf.new ≡ writing (S.told shelf.new) name.now) }
    ensures dropped { OnErr result (S.state shelf.new ≡ Nothing) }
    ensures cause { HasCause (S.write_faults shelf.old name.now)
        (S.write_faults shelf.new name.now) result }
    ensures no_fault { OnOk result (S.write_faults shelf.new name.now
        ≡ S.write_faults shelf.old name.now) }
    ensures only_writes { OnlyWrites S.Shelf name.now shelf.old shelf.new }
{
    let mut at = 0;
    'writes: while at < piece.len() {
        at += shelf.write(name, &piece[at..])?;
    }
    Ok(())
}
