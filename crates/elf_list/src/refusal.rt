//! Why a list doesn't take the pages of a file.
ghost use Rattle.std.specs.Prelude.{◌≡◌};
ghost use Rattle.elf_list.specs.declared.refusal.ElfListRefusal.TheVariants as refusal;

use igvm_headers::Memory;

/// Why a list can't take the pages of an ELF file.
#[derive(Clone, Copy, Debug, PartialEq, Eq)]
pub enum ElfListRefusal {
    /// The pages of all headers would pass 4,194,304, the most that an image may name.
    TooManyPages,
    /// Memory ran out, or would for 4,294,967,296 components.
    Memory,
}

impl From<Memory> for ElfListRefusal {
    ghost from_gives = { λ _ given. given ≡ refusal.Memory };

    fn from(_e: Memory) -> ElfListRefusal {
        ElfListRefusal::Memory
    }
}
