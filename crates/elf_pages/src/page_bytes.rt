//! The bytes of one page, as slices of the file with zeros between.
ghost use Rattle.std.specs.Prelude.{◌≡◌, ◌<◌, ◌≤◌, ◌+◌, ◌-◌, ℕ, [], ◌∷◌, false, length, slice_index};
ghost use Rattle.elf_pages.specs.GuestBytes.{byte_in, holds};
ghost use Rattle.elf_pages.specs.Limits.{address_limit};
ghost use Rattle.elf_pages.specs.SegmentFacts.{IsSound};
ghost use Rattle.elf_pages.specs.SegmentTables.{AreSorted};

use crate::segment::{PAGE, Segment};

/// Zeros from a place up to another.
fn put_zeros(out: &mut [u8], from: usize, to: usize)
    requires order { from ≤ to }
    requires within { to ≤ length out.old }
    ensures size { length out.new ≡ length out.old }
    ensures below { (i : ℕ) → i < from → slice_index out.new i ≡ slice_index out.old i }
    ensures zeros { (i : ℕ) → from ≤ i → i < to → slice_index out.new i ≡ 0 }
{
    out[from..to].fill(0);
}

/// These bytes from a place on.
fn put_bytes(out: &mut [u8], at: usize, bytes: &[u8])
    requires within { at + length bytes.now ≤ length out.old }
    ensures size { length out.new ≡ length out.old }
    ensures below { (i : ℕ) → i < at → slice_index out.new i ≡ slice_index out.old i }
    ensures bytes { (i : ℕ) → at ≤ i → i < at + length bytes.now
        → slice_index out.new i ≡ slice_index bytes.now (i - at) }
{
    out[at..at + bytes.len()].copy_from_slice(bytes);
}

/// After the first `done` bytes of a page: zeros up to the segment's bytes in the page, and those bytes.
/// Answers how many bytes are done.
fn put_segment(file: &[u8], segment: Segment, page: u64, done: usize, out: &mut [u8]) -> usize
    requires sound { IsSound (length file.now) segment }
    requires size { length out.old ≡ 4096 }
    requires within { done ≤ 4096 }
    requires low { page ≤ address_limit }
    ensures size { length out.new ≡ 4096 }
    ensures more { done ≤ result }
    ensures within { result ≤ 4096 }
    ensures below { (i : ℕ) → i < done → slice_index out.new i ≡ slice_index out.old i }
    ensures bytes { (i : ℕ) → done ≤ i → i < result
        → slice_index out.new i ≡ byte_in file.now (segment ∷ []) (page + i) }
    ensures reach { done < result → page + result ≤ segment.address + segment.file_bytes }
    ensures rest { (x : ℕ) → page + result ≤ x → x < page + 4096 → holds x segment ≡ false }
{
    let start = segment.address.max(page + done as u64);
    let end = (segment.address + segment.file_bytes).min(page + PAGE);
    if end <= start {
        return done;
    }
    let at = (start - page) as usize;
    let to = (end - page) as usize;
    let offset = (segment.offset + (start - segment.address)) as usize;
    put_zeros(out, done, at);
    put_bytes(out, at, &file[offset..offset + (to - at)]);
    to
}

/// Makes `out` the page at an address. Each byte is written once.
pub(crate) fn fill_page(file: &[u8], segments: &[Segment], page: u64, out: &mut [u8])
    requires sorted { AreSorted (length file.now) segments.now }
    requires size { length out.old ≡ 4096 }
    requires low { page ≤ address_limit }
    ensures { (i : ℕ) → i < 4096 → slice_index out.new i ≡ byte_in file.now segments.now (page + i) }
{
    let mut done = 0;
    'segments: for segment in segments {
        done = put_segment(file, *segment, page, done, out);
    }
    put_zeros(out, done, 4096);
}
