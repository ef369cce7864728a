//! The file of docs/ELF.md, section 4, put into small lists.
ghost use Rattle.std.specs.Prelude.{◌≡◌};

use crate::{ElfListRefusal, add_elf_pages};
use component_list::{Blob, Component, ComponentList, Content};
use elf_pages::open_elf;
use igvm_headers::{Header, PageKind, PlatformKind};
use std::alloc::Global;
use std::test::Fail;

/// A program header at 64 with 4 bytes of the file at 120, at address 0x100FFE, and 0x1004 bytes in memory.
const ONE_SEGMENT: [u8; 124] = *b"\x7FELF\x02\x01\x01\0\0\0\0\0\0\0\0\0\x02\0\x3E\0\x01\0\0\0\
    \0\0\0\0\0\0\0\0\x40\0\0\0\0\0\0\0\0\0\0\0\0\0\0\0\0\0\0\0\x40\0\x38\0\x01\0\0\0\0\0\0\0\
    \x01\0\0\0\x07\0\0\0\x78\0\0\0\0\0\0\0\xFE\x4F\0\x80\xFF\xFF\xFF\xFF\xFE\x0F\x10\0\0\0\0\0\
    \x04\0\0\0\0\0\0\0\x04\x10\0\0\0\0\0\0\0\x10\0\0\0\0\0\0\xDE\xAD\xBE\xEF";

/// A header with this content, of which nothing is carried unread.
fn part(alloc: Global, header: Header, content: Content) -> Component
    ensures { result.header ≡ header }
{
    Component {
        header,
        tail: Blob::of_vec(Vec::new(alloc)),
        content,
    }
}

/// A list of an SEV-SNP platform of mask 1, and so many large pages.
fn snp(alloc: Global, large_pages: u32) -> Result<ComponentList, Fail> {
    let platform = Header::Platform {
        mask: 1,
        highest_vtl: 0,
        kind: PlatformKind::SevSnp,
        version: 1,
        shared_gpa: 0,
    };
    let mut parts = Vec::new(alloc);
    parts.push(part(alloc, platform, Content::Nothing))?;
    for k in 0..large_pages {
        let page = Header::Page {
            gpa: 0x20_0000 * u64::from(k),
            mask: 1,
            offset: 0,
            large: true,
            unmeasured: false,
            kind: PageKind::Normal,
        };
        parts.push(part(alloc, page, Content::Zero))?;
    }
    if parts.len() >= 0x1_0000_0000 {
        return Err(Fail::new("too many components"));
    }
    Ok(ComponentList::from_parts(parts)?)
}

#[test]
fn adds_the_pages_of_a_file(rt: HostRuntime) -> Result<(), Fail> {
    let alloc = rt.alloc();
    let elf = open_elf(&ONE_SEGMENT).ok().ok_or("refused")?;
    let list = add_elf_pages(alloc, snp(alloc, 0)?.with_version(2), &elf, 1)?;
    assert_eq!(rt; (list.version(), list.len()), (2, 4));
    let platform = list.component(0).ok_or("no platform")?;
    assert!(rt; matches!(platform.header, Header::Platform { mask: 1, .. }));
    for (place, address, ends) in [
        (1, 0x10_0000, Some([0, 0, 0xDE, 0xAD])),
        (2, 0x10_1000, Some([0xBE, 0xEF, 0, 0])),
        (3, 0x10_2000, None),
    ] {
        let page = list.component(place).ok_or("no page")?;
        let header = Header::Page {
            gpa: address,
            mask: 1,
            offset: 0,
            large: false,
            unmeasured: false,
            kind: PageKind::Normal,
        };
        assert!(rt; page.header == header);
        assert!(rt; page.tail.bytes().is_empty());
        match (&page.content, ends) {
            (Content::Bytes(blob), Some(ends)) => {
                let bytes = blob.bytes();
                assert_eq!(rt; bytes.len(), 4096);
                assert_eq!(rt; bytes.get(..2), Some(&ends[..2]));
                assert_eq!(rt; bytes.get(4094..), Some(&ends[2..]));
            }
            (Content::Zero, None) => {}
            _ => return Err(Fail::new("another content")),
        }
    }
    Ok(())
}

/// A large page counts as 512, so 8,192 of them are all that an image may name.
#[test]
fn adds_no_more_pages_than_an_image_may_name(rt: HostRuntime) -> Result<(), Fail> {
    let alloc = rt.alloc();
    let elf = open_elf(&ONE_SEGMENT).ok().ok_or("refused")?;
    let list = add_elf_pages(alloc, snp(alloc, 8191)?, &elf, 1)?;
    assert_eq!(rt; list.len(), 8195);
    let refusal = add_elf_pages(alloc, snp(alloc, 8192)?, &elf, 1).err();
    assert_eq!(rt; refusal, Some(ElfListRefusal::TooManyPages));
    Ok(())
}
