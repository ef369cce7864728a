//! One loadable segment (ELF-64 Object File Format, "Program header table"; System V ABI, "Program Header").
ghost use Rattle.std.specs.Prelude.{◌≡◌, ◌<◌, ◌≤◌, ◌+◌, length, max};
ghost use Rattle.elf_pages.specs.Limits.{address_limit};
ghost use Rattle.elf_pages.specs.Pages.{end_page, first_page, meets};
ghost use Rattle.elf_pages.specs.Segments.{end_of, is_loadable, overlaps, segment_at};

use crate::numbers::{u32_at, u64_at};

/// The size of a page of guest memory in bytes.
pub(crate) const PAGE: u64 = 4096;

/// The type of a loadable segment.
const PT_LOAD: u32 = 1;

// Offsets of fields in a program header.
const P_TYPE: usize = 0;

const P_OFFSET: usize = 8;

const P_PADDR: usize = 24;

const P_FILESZ: usize = 32;

const P_MEMSZ: usize = 40;

/// The fields `p_offset`, `p_paddr`, `p_filesz` and `p_memsz` of a program header: offsets and sizes are in
/// bytes, and the address is a guest physical one. Contracts of the view name these fields.
#[derive(Clone, Copy, Debug, PartialEq, Eq)]
pub struct Segment {
    pub offset: u64,
    pub address: u64,
    pub file_bytes: u64,
    pub memory_bytes: u64,
}

impl Segment {
    /// The segment of the program header at an offset.
    pub(crate) fn read(file: &[u8], at: usize) -> Segment
        requires { at + 56 ≤ length file.now }
        ensures { result ≡ segment_at file.now at }
    {
        Segment {
            offset: u64_at(file, at + P_OFFSET),
            address: u64_at(file, at + P_PADDR),
            file_bytes: u64_at(file, at + P_FILESZ),
            memory_bytes: u64_at(file, at + P_MEMSZ),
        }
    }

    /// The address after its last byte in memory.
    pub(crate) fn end(self) -> u64
        requires { end_of self ≤ address_limit }
        ensures { result ≡ end_of self }
    {
        self.address + self.memory_bytes
    }

    /// The number of its first page from `next` on.
    pub(crate) fn first_page_from(self, next: u64) -> u64
        ensures { result ≡ max (first_page self) next }
    {
        (self.address / PAGE).max(next)
    }

    /// The number of the first page from `next` on that is after its last byte.
    pub(crate) fn end_page_from(self, next: u64) -> u64
        requires { end_of self ≤ address_limit }
        ensures { result ≡ max (end_page self) next }
    {
        self.end().div_ceil(PAGE).max(next)
    }

    /// Some byte in memory is of both, each of which has one at least.
    pub(crate) fn overlaps(self, other: Segment) -> bool
        requires ends { end_of self ≤ address_limit }
        requires other_ends { end_of other ≤ address_limit }
        ensures { result ≡ overlaps self other }
    {
        self.address < other.end() && other.address < self.end()
    }

    /// The page at an address holds a byte of it that the file has.
    pub(crate) fn fills(self, page: u64) -> bool
        requires ends { self.address + self.file_bytes ≤ address_limit }
        requires low { page < address_limit }
        ensures { result ≡ meets page self.address self.file_bytes }
    {
        self.file_bytes > 0 && self.address < page + PAGE && page < self.address + self.file_bytes
    }
}

/// The program header at an offset has the type PT_LOAD, and bytes in memory.
#[tactic(auto, unfolding(crate::specs::Segments::is_loadable))]
pub(crate) fn is_loadable(file: &[u8], at: usize) -> bool
    requires { at + 56 ≤ length file.now }
    ensures { result ≡ is_loadable file.now at }
{
    u32_at(file, at + P_TYPE) == PT_LOAD && u64_at(file, at + P_MEMSZ) > 0
}
