//! A file, read whole.
ghost use Rattle.std.specs.Prelude.{◌≤◌, IfOk, IfErr};
ghost use Rattle.igvm_outside.specs.ShelfCalls.{IsRead, OnlyReads};
ghost use Rattle.igvm_outside.specs.Files.{IsUnwritten};
ghost use Rattle.igvm_jobs.specs.Endings.{IsNotRead};

use crate::refusal::{LimitOf, Refusal};
use igvm_outside::{ReadRefusal, Shelf, read_all};
use std::alloc::Global;

/// The bytes of a file of at most `limit` bytes, or why there are none.
pub fn read_file<S: Shelf>(
    alloc: Global,
    shelf: &mut S,
    name: &str,
    limit: u64,
    of: LimitOf,
) -> Result<Vec<u8>, Refusal>
    requires { limit ≤ 536870912 }
    ensures read { IfOk result (λ bytes.
        IsRead S.Shelf name.now limit bytes.items shelf.old shelf.new) }
    ensures refused { IfErr result (λ refusal.
        IsNotRead S.Shelf name.now limit of refusal shelf.old shelf.new) }
    ensures only_reads { OnlyReads S.Shelf shelf.old shelf.new }
    ensures unwritten { IsUnwritten (S.state shelf.new) }
{
    match read_all(alloc, shelf, name, limit) {
        Ok(bytes) => Ok(bytes),
        Err(ReadRefusal::TooLong) => Err(Refusal::Limit(of)),
        Err(ReadRefusal::Failed) => Err(Refusal::Shelf),
        Err(ReadRefusal::Memory) => Err(Refusal::Memory),
    }
}
