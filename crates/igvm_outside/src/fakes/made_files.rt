//! The names and the bytes of files that are made as they are read.
ghost use Rattle.std.specs.Prelude.{◌≡◌, ℕ, ◌+◌, ◌-◌, ◌/◌, ◌%◌, ◌^◌, ◌<◌, ◌≤◌, min, length, take, drop, slice_index, MatchOption};
ghost use Rattle.std.specs.Int.{to_le_bytes, w64};
ghost use Rattle.igvm_outside.specs.MadeFiles.{IsPlainNumber, IsMade, made_bytes};

/// How many bytes a file of this name has, if it is made.
pub fn made_size(name: &str) -> Option<u32>
    ensures { MatchOption result ((size : ℕ) → IsMade name.now size → ⊥) (IsMade name.now) }
{
    match name.strip_prefix("made-") {
        Some(digits) => plain_number(digits),
        None => None,
    }
}

// The number that decimal digits write, without a sign or a leading zero.
fn plain_number(digits: &str) -> Option<u32>
    ensures { MatchOption result ((number : ℕ) → IsPlainNumber digits.now number → ⊥)
        (IsPlainNumber digits.now) }
{
    match digits.as_bytes() {
        [b'+', ..] => None,
        [b'0', _, ..] => None,
        _ => digits.parse::<u32>().ok(),
    }
}

/// Gives the bytes of a made file from a place on: as many as fit and as are left.
pub fn give_made(size: u32, place: u64, buf: &mut [u8]) -> usize
    requires { place ≤ size }
    ensures count { result ≡ min (length buf.old) (size - place) }
    ensures bytes { take result buf.new ≡ take result (drop place (made_bytes size)) }
    ensures rest { drop result buf.new ≡ drop result buf.old }
{
    let count = buf.len().min((u64::from(size) - place) as usize);
    fill(place, &mut buf[..count]);
    count
}

// Each byte is one of the eight of a number.
fn fill(place: u64, part: &mut [u8])
    requires { place + length part.old < 2 ^ 63 }
    ensures { (k : ℕ) → k < length part.new → slice_index part.new k
        ≡ slice_index (to_le_bytes w64 ((place + k) / 8)) ((place + k) % 8) }
{
    'bytes: for k in 0..part.len() {
        let at = place + k as u64;
        part[k] = (at / 8).to_le_bytes()[(at % 8) as usize];
    }
}
