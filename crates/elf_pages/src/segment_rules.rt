//! The rules on one loadable segment (ELF-64 Object File Format, "Program header table").
ghost use Rattle.std.specs.Prelude.{◌≡◌, ◌≤◌, ℕ, length, nat_lt};
ghost use Rattle.std.specs.List.{list_any};
ghost use Rattle.elf_pages.specs.Faults.{is_outside, segment_fault};
ghost use Rattle.elf_pages.specs.Limits.{address_limit};
ghost use Rattle.elf_pages.specs.SegmentTables.{AreSorted};
ghost use Rattle.elf_pages.specs.Segments.{end_of, overlaps};

use crate::fault::ElfWhat;
use crate::segment::Segment;
use crate::segment_table::SEGMENT_LIMIT;

/// No segment ends past this guest physical address.
const ADDRESS_LIMIT: u64 = 1 << 52;

/// The segment's bytes in the file pass the end of a file of this size.
fn is_outside(size: u64, segment: Segment) -> bool
    ensures { result ≡ is_outside size segment }
{
    segment.file_bytes != 0
        && (segment.file_bytes > size || segment.offset > size - segment.file_bytes)
}

/// The segment's end passes 2^52.
fn wraps(segment: Segment) -> bool
    ensures { result ≡ nat_lt address_limit (end_of segment) }
{
    segment.memory_bytes > ADDRESS_LIMIT || segment.address > ADDRESS_LIMIT - segment.memory_bytes
}

/// The segment overlaps one of these.
fn overlaps_some(segments: &[Segment], segment: Segment) -> bool
    requires sorted { (size : ℕ) × AreSorted size segments.now }
    requires end { end_of segment ≤ address_limit }
    ensures { result ≡ list_any (overlaps segment) segments.now }
{
    segments.iter().any(|other| segment.overlaps(*other))
}

/// The first rule that a loadable segment breaks after these, in a file of this size.
#[tactic(auto, unfolding(crate::specs::Faults::segment_fault))]
pub(crate) fn segment_fault(segments: &[Segment], size: u64, segment: Segment) -> Option<ElfWhat>
    requires { AreSorted size segments.now }
    ensures { result ≡ segment_fault size segments.now segment }
{
    if segments.len() == SEGMENT_LIMIT {
        return Some(ElfWhat::TooMany);
    }
    if segment.memory_bytes < segment.file_bytes {
        return Some(ElfWhat::Sizes);
    }
    if is_outside(size, segment) {
        return Some(ElfWhat::Outside);
    }
    if wraps(segment) {
        return Some(ElfWhat::Wrap);
    }
    if overlaps_some(segments, segment) {
        return Some(ElfWhat::Overlap);
    }
    None
}
