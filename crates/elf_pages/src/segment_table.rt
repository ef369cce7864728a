//! Loadable segments in the order of their addresses, in a table of fixed size.
ghost use Rattle.std.specs.Prelude.{◌≡◌, ◌+◌, ◌<◌, ◌≤◌, ℕ, [], length, slice_index_or};
ghost use Rattle.std.specs.List.{insert};
ghost use Rattle.elf_pages.specs.Limits.{segment_limit};
ghost use Rattle.elf_pages.specs.declared.segment.Segment as declared;

use crate::segment::Segment;
use std::marker::Model;

/// The most loadable segments that a file may have.
pub(crate) const SEGMENT_LIMIT: usize = 64;

/// At most 64 segments. Contracts see a list.
#[derive(Drop)]
pub(crate) struct SegmentTable {
    room: [Segment; SEGMENT_LIMIT],
    count: usize,
}

impl Model for SegmentTable {
    ghost use Rattle.std.specs.Prelude.{List, ◌≤◌, take};
    ghost use Rattle.elf_pages.specs.declared.segment.Segment as segment;

    ghost Value = { List segment.Segment };

    ghost view = { λ t. take t.count t.room };

    ghost invariant = { λ t. t.count ≤ 64 };
}

impl SegmentTable {
    /// No segment.
    pub(crate) fn new() -> SegmentTable
        ensures { result ≡ [] }
    {
        let none = Segment {
            offset: 0,
            address: 0,
            file_bytes: 0,
            memory_bytes: 0,
        };
        SegmentTable {
            room: [none; SEGMENT_LIMIT],
            count: 0,
        }
    }

    /// The segments, lent where they lie.
    pub(crate) fn as_slice(&self) -> &[Segment]
        ensures value { result.now ≡ self.now }
        ensures within { length result.now ≤ segment_limit }
    {
        &self.room[..self.count]
    }

    /// Puts a segment at a place, before those that stood from there on.
    pub(crate) fn insert(&mut self, at: usize, segment: Segment)
        requires place { at ≤ length self.old }
        requires room { length self.old < segment_limit }
        ensures { self.new ≡ insert self.old at segment }
    {
        self.room.copy_within(at..self.count, at + 1);
        self.room[at] = segment;
        self.count += 1;
    }
}

/// How many of the sorted segments begin at a segment's address or before it: the place where it belongs.
pub(crate) fn place_of(segments: &[Segment], segment: Segment) -> usize
    ensures within { result ≤ length segments.now }
    ensures before { (k : ℕ) (d : declared.Segment) → k < result
        → (slice_index_or segments.now k d).address ≤ segment.address }
    ensures after { (d : declared.Segment) → result < length segments.now
        → segment.address < (slice_index_or segments.now result d).address }
{
    segments
        .iter()
        .position(|other| segment.address < other.address)
        .unwrap_or(segments.len())
}
