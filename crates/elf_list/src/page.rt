//! One page of a file as a component.
ghost use Rattle.std.specs.Prelude.{◌≡◌, ◌<◌, length, IfOk, OnOk};
ghost use Rattle.igvm_headers.specs.SpellingConditions.{AreBytes};
ghost use Rattle.elf_pages.specs.Pages.{pages_of};
ghost use Rattle.component_list.specs.Ranges.{HoldsBytes};
ghost use Rattle.elf_list.specs.ElfParts.{elf_page, page_bytes, page_content};

use component_list::{Blob, Component, Content};
use elf_pages::ElfView;
use igvm_headers::{Header, Memory, PageKind};
use std::alloc::Global;

/// Page `k` of a file, under a mask.
#[tactic(auto, unfolding(crate::specs::ElfParts::elf_page))]
pub(crate) fn elf_page(
    alloc: Global,
    elf: &ElfView<'_>,
    mask: u32,
    k: u32,
) -> Result<Component, Memory>
    requires { k < length (pages_of elf.now) }
    ensures page { IfOk result (λ page. page ≡ elf_page elf.now mask k) }
    ensures bytes { OnOk result (HoldsBytes (page_content elf.now k)) }
{
    let header = Header::Page {
        gpa: elf.gpa(k),
        mask,
        offset: 0,
        large: false,
        unmeasured: false,
        kind: PageKind::Normal,
    };
    let content = page_content(alloc, elf, k)?;
    Ok(Component {
        header,
        tail: Blob::of_vec(Vec::new(alloc)),
        content,
    })
}

/// The bytes of page `k`, or zeros where no segment has one of them in the file.
fn page_content(alloc: Global, elf: &ElfView<'_>, k: u32) -> Result<Content, Memory>
    requires { k < length (pages_of elf.now) }
    ensures content { IfOk result (λ content. content ≡ page_content elf.now k) }
    ensures bytes { OnOk result (HoldsBytes (page_content elf.now k)) }
{
    if !elf.filled(k) {
        return Ok(Content::Zero);
    }
    let bytes = page_bytes(alloc, elf, k)?;
    Ok(Content::Bytes(Blob::of_vec(bytes)))
}

/// The 4,096 bytes of page `k`.
fn page_bytes(alloc: Global, elf: &ElfView<'_>, k: u32) -> Result<Vec<u8>, Memory>
    requires { k < length (pages_of elf.now) }
    ensures page { IfOk result (λ bytes. bytes.items ≡ page_bytes elf.now k) }
    ensures bytes { IfOk result (λ bytes. AreBytes bytes.items) }
{
    let mut bytes = vec![in alloc; 0; 4096]?;
    elf.fill(k, bytes.as_mut_slice());
    note_bytes(bytes.as_slice());
    Ok(bytes)
}

/// Numbers of eight bits are bytes.
fn note_bytes(bytes: &[u8])
    ensures { AreBytes bytes.now }
{}
