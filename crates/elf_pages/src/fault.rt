//! What is wrong with an ELF-64 file (ELF-64 Object File Format, "File header" and "Program header table";
//! System V ABI, "ELF Header" and "Program Header").

/// The rule that a file breaks. The rules stand in the order in which they are tried; those from `TooMany`
/// to `Overlap` are tried on one loadable segment after the other. Sums are whole numbers: none wraps.
#[derive(Clone, Copy, Debug, PartialEq, Eq)]
pub enum ElfWhat {
    /// The file has fewer than 64 bytes.
    TooShort,
    /// It doesn't begin with `7f 45 4c 46`.
    Magic,
    /// `e_ident` has another class than 2 (64 bits) or another encoding than 1 (little-endian).
    Class,
    /// `e_machine` isn't 62 (x86-64).
    Machine,
    /// `e_phnum` isn't 0, and `e_phentsize` isn't 56 or the program headers pass the end of the file.
    Table,
    /// It is the 65th loadable segment.
    TooMany,
    /// `p_filesz` is above `p_memsz`.
    Sizes,
    /// `p_filesz` isn't 0, and `p_offset` plus `p_filesz` passes the end of the file.
    Outside,
    /// `p_paddr` plus `p_memsz` passes 2^52.
    Wrap,
    /// Its bytes in memory overlap those of an earlier loadable segment.
    Overlap,
    /// There is no loadable segment.
    Empty,
    /// The segments take up more than 131,072 pages.
    TooLarge,
}

/// The first rule that a file breaks. The item is the number of the program header, from 0 on, where the
/// rule is one on a segment; else 0.
#[derive(Clone, Copy, Debug, PartialEq, Eq)]
pub struct ElfFault {
    pub item: u32,
    pub what: ElfWhat,
}
