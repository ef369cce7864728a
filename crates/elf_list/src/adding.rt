//! A list with the pages of a file.
ghost use Rattle.std.specs.Prelude.{◌≡◌, ◌≤◌, ◌<◌, ◌+◌, length, IfOk, OnOk, IsErrOf};
ghost use Rattle.elf_pages.specs.Pages.{pages_of};
ghost use Rattle.elf_list.specs.ElfParts.{pages_named, with_elf_pages};

use crate::page_count::pages_named;
use crate::pages::push_elf_pages;
use crate::refusal::ElfListRefusal;
use component_list::{ComponentList, first_fault_of_a_list};
use elf_pages::{ElfView, accepted_files, pages_are_those_touched};
use std::alloc::Global;

/// The most pages of 4,096 bytes that the headers of an image may name.
const MOST_PAGES: u64 = 4_194_304;

/// The most components that a list may have.
const MOST_COMPONENTS: u64 = 0xFFFF_FFFF;

/// The list with the pages of an ELF file behind its last component: each of 4,096 bytes, normal, measured
/// and under the mask, with its bytes where a segment has some in the file and zeros otherwise. The version
/// stays.
pub fn add_elf_pages(
    alloc: Global,
    list: ComponentList,
    elf: &ElfView<'_>,
    mask: u32,
) -> Result<ComponentList, ElfListRefusal>
    ensures list { IfOk result (λ l. l ≡ with_elf_pages list elf.now mask) }
    ensures few { OnOk result (pages_named list.parts + length (pages_of elf.now) ≤ 4194304) }
    ensures many { IsErrOf result ElfListRefusal.TooManyPages
        → 4194304 < pages_named list.parts + length (pages_of elf.now) }
{
    // Laws: nothing runs.
    first_fault_of_a_list();
    accepted_files();
    pages_are_those_touched();
    let version = list.version();
    let mut parts = list.into_parts();
    let more = u64::from(elf.pages());
    if pages_named(parts.as_slice()) + more > MOST_PAGES {
        return Err(ElfListRefusal::TooManyPages);
    }
    // No memory holds so many components.
    if parts.len() as u64 + more > MOST_COMPONENTS {
        return Err(ElfListRefusal::Memory);
    }
    push_elf_pages(alloc, &mut parts, elf, mask)?;
    Ok(ComponentList::of_valid(parts).with_version(version))
}
