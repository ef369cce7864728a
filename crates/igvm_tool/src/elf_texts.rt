//! What is said of an ELF file that is refused: docs/PROGRAM.md.
ghost use Rattle.std.specs.Prelude.{◌≡◌, IfOk, string_bytes};
ghost use Rattle.igvm_tool.specs.ElfTexts.{elf_words, elf_text};

use elf_pages::{ElfFault, ElfWhat};
use std::alloc::{AllocError, Global};

/// The words for a rule.
fn elf_words(what: ElfWhat) -> &'static str
    ensures { result.now ≡ elf_words what }
{
    match what {
        ElfWhat::TooShort => "too short",
        ElfWhat::Magic => "magic",
        ElfWhat::Class => "class",
        ElfWhat::Machine => "machine",
        ElfWhat::Table => "table",
        ElfWhat::TooMany => "too many segments",
        ElfWhat::Sizes => "sizes",
        ElfWhat::Outside => "outside",
        ElfWhat::Wrap => "address wraps",
        ElfWhat::Overlap => "overlap",
        ElfWhat::Empty => "empty",
        ElfWhat::TooLarge => "too large",
    }
}

/// The line that says which rule an ELF file breaks, and in which program header.
pub fn elf_text(alloc: Global, fault: ElfFault) -> Result<String, AllocError>
    ensures { IfOk result (λ text. string_bytes text ≡ elf_text fault) }
{
    let item = fault.item;
    let what = elf_words(fault.what);
    format!(in alloc; "igvm: elf refused at {item}: {what}\n")
}
