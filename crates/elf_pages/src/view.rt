//! A view of an accepted ELF-64 file: it keeps the lent file and a table of its segments, and takes no memory.
ghost use Rattle.std.specs.Prelude.{◌≡◌, ◌≤◌, ◌<◌, ◌+◌, ◌^◌, ℕ, length, slice_index, IfOk, IfErr, OnOk, None, Some};
ghost use Rattle.elf_pages.specs.Faults.{elf_fault};
ghost use Rattle.elf_pages.specs.GuestBytes.{elf_byte};
ghost use Rattle.elf_pages.specs.Limits.{page_limit};
ghost use Rattle.elf_pages.specs.Pages.{is_filled, page_address, pages_of};
ghost use Rattle.elf_pages.specs.Segments.{segments_of};

use crate::fault::ElfFault;
use crate::file_rules::{E_PHNUM, E_PHOFF, file_fault};
use crate::numbers::{u16_at, u64_at};
use crate::page_bytes::fill_page;
use crate::page_walk::{count_pages, is_filled, page_number};
use crate::program_headers::read_headers;
use crate::segment::PAGE;
use crate::segment_table::SegmentTable;
use std::marker::Model;

/// An accepted file. Contracts see its bytes; all that the view answers is a function of them.
#[derive(Drop)]
pub struct ElfView<'a> {
    file: &'a [u8],
    table: SegmentTable,
    pages: u32,
}

impl<'a> Model for ElfView<'a> {
    ghost use Rattle.std.specs.Prelude.{List, ℕ};

    ghost Value = { List ℕ };

    ghost use Rattle.elf_pages.specs.ViewInvariant.{IsElfView};

    ghost view = { λ s. s.file.now };

    ghost invariant = { IsElfView };
}

/// Reads a file of at most 536,870,912 bytes: Ok where it breaks no rule of `ElfWhat`, and else the first
/// rule that it breaks, with the program header that breaks it.
pub fn open_elf(file: &[u8]) -> Result<ElfView<'_>, ElfFault>
    requires { length file.now ≤ 536870912 }
    ensures file { IfOk result (λ view. view ≡ file.now) }
    ensures accepted { OnOk result (elf_fault file.now ≡ None) }
    ensures fault { IfErr result (λ e. elf_fault file.now ≡ Some e) }
{
    if let Some(what) = file_fault(file) {
        return Err(ElfFault { item: 0, what });
    }
    let table = read_headers(file, u64_at(file, E_PHOFF) as usize, u16_at(file, E_PHNUM))?;
    let pages = match count_pages(table.as_slice()) {
        Ok(pages) => pages,
        Err(what) => return Err(ElfFault { item: 0, what }),
    };
    Ok(ElfView { file, table, pages })
}

impl<'a> ElfView<'a> {
    /// How many pages hold a byte of some loadable segment.
    pub fn pages(&self) -> u32
        ensures count { result ≡ length (pages_of self.now) }
        ensures few { result ≤ page_limit }
        ensures accepted { elf_fault self.now ≡ None }
    {
        self.pages
    }

    /// The guest physical address of page `k`: pages are numbered from 0 on in the order of their addresses.
    pub fn gpa(&self, k: u32) -> u64
        requires { k < length (pages_of self.now) }
        ensures address { result ≡ page_address self.now k }
        ensures low { result < 2 ^ 52 }
    {
        PAGE * page_number(self.table.as_slice(), u64::from(k))
    }

    /// Page `k` holds a byte that some loadable segment has in the file.
    pub fn filled(&self, k: u32) -> bool
        requires { k < length (pages_of self.now) }
        ensures { result ≡ is_filled (segments_of self.now) (page_address self.now k) }
    {
        is_filled(self.table.as_slice(), self.gpa(k))
    }

    /// Makes `out`, of 4,096 bytes, page `k`: the bytes that segments have in the file, and zeros.
    pub fn fill(&self, k: u32, out: &mut [u8])
        requires within { k < length (pages_of self.now) }
        requires size { length out.old ≡ 4096 }
        ensures { (i : ℕ) → i < 4096
            → slice_index out.new i ≡ elf_byte self.now (page_address self.now k + i) }
    {
        fill_page(self.file, self.table.as_slice(), self.gpa(k), out);
    }
}
