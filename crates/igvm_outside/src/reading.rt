//! A whole file read from a shelf.
ghost use Rattle.std.specs.Prelude.{◌≡◌, ℕ, ◌+◌, ◌^◌, ◌<◌, ◌≤◌, length, IfSome, IfOk, OnOk, IsErrOf};
ghost use Rattle.igvm_headers.specs.FaultCounts.{Rose};
ghost use Rattle.igvm_outside.specs.Files.{Nothing, reading, content, IsUnwritten};
ghost use Rattle.igvm_outside.specs.ReadProgress.{HasGiven};
ghost use Rattle.igvm_outside.specs.ShelfCalls.{IsLonger, IsRead, OnlyReads};

use crate::{ReadRefusal, Shelf};
use std::alloc::Global;

/// The bytes of one read at most.
const CHUNK: usize = 65_536;

/// Reads a file to its end, of at most `limit` bytes. Want of memory may be answered at any step
/// after the opening.
pub fn read_all<S: Shelf>(
    alloc: Global,
    shelf: &mut S,
    name: &str,
    limit: u64,
) -> Result<Vec<u8>, ReadRefusal>
    requires { limit ≤ 536870912 }

    // The file is read whole.
    ensures read { IfOk result (λ bytes.
        IsRead S.Shelf name.now limit bytes.items shelf.old shelf.new) }

    // It is refused as too long exactly where it gave more than the limit.
    ensures too_long { IsErrOf result ReadRefusal.TooLong
        → IsLonger S.Shelf name.now limit shelf.old shelf.new }

    // A fault has its cause.
    ensures cause { IsErrOf result ReadRefusal.Failed
        → Rose (S.read_faults shelf.old name.now) (S.read_faults shelf.new name.now) }

    // The files stay, and nothing is being written.
    ensures only_reads { OnlyReads S.Shelf shelf.old shelf.new }
    ensures dropped { IsErrOf result ReadRefusal.Failed → S.state shelf.new ≡ Nothing }
    ensures open_still { (IsErrOf result ReadRefusal.Failed → ⊥)
        → S.state shelf.new ≡ reading (S.told shelf.new) name.now (S.given shelf.new) }
    ensures unwritten { IsUnwritten (S.state shelf.new) }
{
    shelf.open_file(name)?;
    let mut space = Vec::new(alloc);
    space.resize(CHUNK, 0)?;
    let buffer = space.as_mut_slice();
    let mut bytes = Vec::new(alloc);
    let limit = limit as usize;
    'reads: while bytes.len() <= limit {
        // One byte more than the limit shows that the file is too long.
        let room = CHUNK.min(limit + 1 - bytes.len());
        if read_more(shelf, name, &mut buffer[..room], &mut bytes)? == 0 {
            return Ok(bytes);
        }
    }
    Err(ReadRefusal::TooLong)
}

// One read, whose bytes follow those that were read before. It answers how many they are.
fn read_more<S: Shelf>(
    shelf: &mut S,
    name: &str,
    buffer: &mut [u8],
    bytes: &mut Vec<u8>,
) -> Result<usize, ReadRefusal>
    requires given { HasGiven S.Shelf shelf.old name.now bytes.old.items }
    requires room { 0 < length buffer.old }
    requires countable { length bytes.old.items < 2 ^ 62 }
    ensures given { OnOk result (HasGiven S.Shelf shelf.new name.now bytes.new.items) }
    ensures grown { IfOk result (λ n. length bytes.new.items ≡ length bytes.old.items + n) }
    ensures within { IfOk result (λ n. n ≤ length buffer.old) }
    ensures end { IfOk result (λ n. n ≡ 0 → IfSome (S.told shelf.old)
        (λ files. length (content files name.now) ≤ length bytes.old.items)) }
    ensures never_too_long { IsErrOf result ReadRefusal.TooLong → ⊥ }
    ensures cause { IsErrOf result ReadRefusal.Failed
        → Rose (S.read_faults shelf.old name.now) (S.read_faults shelf.new name.now) }
    ensures no_fault { OnOk result (S.read_faults shelf.new name.now
        ≡ S.read_faults shelf.old name.now) }
    ensures only_reads { OnlyReads S.Shelf shelf.old shelf.new }
    ensures dropped { IsErrOf result ReadRefusal.Failed → S.state shelf.new ≡ Nothing }
    ensures open_still { IsErrOf result ReadRefusal.Memory
        → S.state shelf.new ≡ reading (S.told shelf.new) name.now (S.given shelf.new) }
{
    let count = shelf.read(name, buffer)?;
    bytes.extend_from_slice(&buffer[..count])?;
    Ok(count)
}
