//! The pages of a file as components.
ghost use Rattle.std.specs.Prelude.{◌≡◌, ◌<◌, ◌++◌, ℕ, length, OnOk};
ghost use Rattle.elf_pages.specs.Pages.{pages_of};
ghost use Rattle.component_list.specs.Ranges.{HoldsBytes};
ghost use Rattle.elf_list.specs.ElfParts.{elf_parts, page_content};

use crate::page::elf_page;
use component_list::Component;
use elf_pages::ElfView;
use igvm_headers::Memory;
use std::alloc::Global;

/// All pages of a file under a mask, behind the parts.
pub(crate) fn push_elf_pages(
    alloc: Global,
    parts: &mut Vec<Component>,
    elf: &ElfView<'_>,
    mask: u32,
) -> Result<(), Memory>
    ensures pages { OnOk result (parts.new.items ≡ parts.old.items ++ elf_parts elf.now mask) }
    ensures bytes { OnOk result ((k : ℕ) → k < length (pages_of elf.now)
        → HoldsBytes (page_content elf.now k)) }
{
    'pages: for k in 0..elf.pages() {
        let page = elf_page(alloc, elf, mask, k)?;
        parts.push(page)?;
    }
    Ok(())
}
