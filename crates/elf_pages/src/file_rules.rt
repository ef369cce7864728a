//! The rules on the file header (ELF-64 Object File Format, "File header"; System V ABI, "ELF Header").
ghost use Rattle.std.specs.Prelude.{◌≡◌, ◌+◌, ◌*◌, ◌<◌, ◌≤◌, nat_lt, length, IfNone};
ghost use Rattle.elf_pages.specs.FileHeader.{header_count, header_offset};
ghost use Rattle.elf_pages.specs.Faults.{breaks_class, breaks_table, file_fault};

use crate::fault::ElfWhat;
use crate::numbers::{u16_at, u32_at, u64_at};

/// The size of the file header in bytes.
const FILE_HEADER_BYTES: usize = 64;

/// The size of a program header in bytes.
pub(crate) const HEADER_BYTES: usize = 56;

// Offsets of fields in the file header.
const EI_MAG0: usize = 0;

const EI_CLASS: usize = 4;

const EI_DATA: usize = 5;

const E_MACHINE: usize = 18;

pub(crate) const E_PHOFF: usize = 32;

const E_PHENTSIZE: usize = 54;

pub(crate) const E_PHNUM: usize = 56;

/// `7f 45 4c 46`.
const MAGIC: u32 = 0x464C_457F;

/// The class of files of 64 bits.
const ELFCLASS64: u8 = 2;

/// The encoding of little-endian numbers.
const ELFDATA2LSB: u8 = 1;

/// The machine x86-64.
const EM_X86_64: u16 = 62;

/// The first rule on the file header that fails.
#[tactic(auto, using(crate::proofs::FaultOrder::table_lies), unfolding(crate::specs::Faults::file_fault))]
pub(crate) fn file_fault(file: &[u8]) -> Option<ElfWhat>
    ensures fault { result ≡ file_fault file.now }
    ensures whole { IfNone result (64 ≤ length file.now) }
    ensures table { IfNone result (0 < header_count file.now
        → header_offset file.now (header_count file.now) ≤ length file.now) }
{
    if file.len() < FILE_HEADER_BYTES {
        return Some(ElfWhat::TooShort);
    }
    if u32_at(file, EI_MAG0) != MAGIC {
        return Some(ElfWhat::Magic);
    }
    if breaks_class(file) {
        return Some(ElfWhat::Class);
    }
    if u16_at(file, E_MACHINE) != EM_X86_64 {
        return Some(ElfWhat::Machine);
    }
    if breaks_table(file) {
        return Some(ElfWhat::Table);
    }
    None
}

/// The file isn't of 64 bits with little-endian numbers.
fn breaks_class(file: &[u8]) -> bool
    requires { 64 ≤ length file.now }
    ensures { result ≡ breaks_class file.now }
{
    file[EI_CLASS] != ELFCLASS64 || file[EI_DATA] != ELFDATA2LSB
}

/// There are program headers, and they have another size than 56 bytes or don't lie in the file.
fn breaks_table(file: &[u8]) -> bool
    requires { 64 ≤ length file.now }
    ensures { result ≡ breaks_table file.now }
{
    let count = u16_at(file, E_PHNUM);
    if count == 0 {
        return false;
    }
    let size = usize::from(u16_at(file, E_PHENTSIZE));
    size != HEADER_BYTES || passes_end(file, u64_at(file, E_PHOFF), count)
}

/// `count` program headers from an offset on pass the end of the file.
fn passes_end(file: &[u8], start: u64, count: u16) -> bool
    ensures { result ≡ nat_lt (length file.now) (start + 56 * count) }
{
    let size = file.len() as u64;
    let bytes = HEADER_BYTES as u64 * u64::from(count);
    start > size || bytes > size - start
}
