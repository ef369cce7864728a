//! `build-elf LIST ELF MASK OUT`: the image of a component list with the pages of an ELF file.
ghost use Rattle.std.specs.Prelude.{◌≡◌, ◌≤◌, length, IfOk, IfErr};
ghost use Rattle.further_words.specs.FurtherWords as words;
ghost use Rattle.further_words.specs.FurtherView.{elf_view};
ghost use Rattle.igvm_headers.specs.SpellingConditions.{AreBytes};
ghost use Rattle.component_list.specs.Lists.{ImageParts};
ghost use Rattle.igvm_jobs.specs.BuildJob.{parts_outcome};
ghost use Rattle.igvm_jobs.specs.Refusals.{Refuses};
ghost use Rattle.igvm_jobs.specs.Endings.{Ends};
ghost use Rattle.igvm_tool.specs.BuildElfJob.{elf_limit, elf_outcome, joined_outcome, judged_outcome, build_elf_task};

use crate::elf_texts::elf_text;
use component_list::ComponentList;
use elf_list::{ElfListRefusal, add_elf_pages};
use elf_pages::{ElfView, open_elf};
use further_words::ElfWords;
use igvm_jobs::{Ended, LimitOf, Refusal, read_file, read_parts, write_image};
use igvm_outside::{Shelf, Sink, reads_compose};
use std::alloc::Global;

/// The most bytes that an ELF file may have.
const ELF_LIMIT: u64 = 536_870_912;

/// Writes the image of a list with the pages of an ELF file behind it, and puts how many bytes it has, or
/// says why not.
pub fn build_elf_file<S: Shelf, O: Sink>(
    alloc: Global,
    words: ElfWords<'_>,
    shelf: &mut S,
    out: &mut O,
) -> Result<Ended, Refusal>
    ensures { Ends S.Shelf O.Sink (build_elf_task (elf_view words.entry)) result
        shelf.old shelf.new out.old out.new }
{
    // A law: nothing runs.
    reads_compose::<S>();
    let list = read_parts(alloc, words.list, shelf)?;
    let bytes = read_file(alloc, shelf, words.elf, ELF_LIMIT, LimitOf::Elf)?;
    let file = bytes.as_slice();
    note_bytes(file);
    let parts = with_elf(alloc, list, file, words.mask)?;
    write_image(alloc, &parts, words.target, shelf, out)
}

/// Numbers of eight bits are bytes.
fn note_bytes(bytes: &[u8])
    ensures { AreBytes bytes.now }
{}

/// A list with the pages of an ELF file behind its components, or why there is none.
#[tactic(auto, unfolding(crate::specs::BuildElfJob::elf_outcome))]
fn with_elf(
    alloc: Global,
    list: ComponentList,
    bytes: &[u8],
    mask: u32,
) -> Result<ComponentList, Refusal>
    requires { length bytes.now ≤ elf_limit }
    ensures parts { IfOk result (λ parts. (words : words.ElfWords) → words.mask ≡ mask
        → elf_outcome words list bytes.now ≡ parts_outcome words.target parts) }
    ensures refused { (words : words.ElfWords) → words.mask ≡ mask
        → IfErr result (Refuses (elf_outcome words list bytes.now)) }
{
    let elf = accepted(alloc, bytes)?;
    match add_elf_pages(alloc, list, &elf, mask) {
        Ok(parts) => Ok(parts),
        Err(ElfListRefusal::TooManyPages) => Err(Refusal::Limit(LimitOf::Pages)),
        Err(ElfListRefusal::Memory) => Err(Refusal::Memory),
    }
}

/// The view of an ELF file, or the rule that its bytes break.
#[tactic(auto, unfolding(crate::specs::BuildElfJob::elf_outcome))]
fn accepted(alloc: Global, bytes: &[u8]) -> Result<ElfView<'_>, Refusal>
    requires { length bytes.now ≤ elf_limit }
    ensures file { IfOk result (λ elf. elf ≡ bytes.now) }
    ensures accepted { (words : words.ElfWords) (parts : ImageParts) → IfOk result (λ elf.
        elf_outcome words parts bytes.now ≡ joined_outcome words parts bytes.now) }
    ensures refused { (words : words.ElfWords) (parts : ImageParts)
        → IfErr result (Refuses (elf_outcome words parts bytes.now)) }
{
    match open_elf(bytes) {
        Ok(elf) => Ok(elf),
        Err(fault) => Err(Refusal::File(elf_text(alloc, fault)?)),
    }
}
