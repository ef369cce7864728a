//! Texts with the entry that breaks its form, lists with the rule that they break, and an image.
use super::*;
use igvm_headers::{Header, PageKind, PlatformKind, ReadWhat, crc_begin, crc_end, crc_more};
use igvm_image::open_image;
use igvm_outside::MemShelf;
use std::alloc::Global;
use std::test::Fail;

/// Reads the text that these pieces make.
fn read(alloc: Global, pieces: [&str; 3]) -> Result<Option<ListRefusal>, Fail> {
    let mut text = String::new(alloc);
    for piece in pieces {
        text.push_str(piece)?;
    }
    let bytes = text.as_str().as_bytes();
    if bytes.len() > 16_777_216 {
        return Ok(None);
    }
    Ok(read_list(alloc, bytes).err())
}

fn field(part: ListPart, item: u32) -> Option<ListRefusal> {
    Some(ListRefusal::Field { part, item })
}

#[test]
fn texts_that_are_no_list(rt: HostRuntime) -> Result<(), Fail> {
    let top = field(ListPart::Top, 0);
    for (text, want) in [
        ("[", Some(ListRefusal::NotJson)),
        ("", Some(ListRefusal::NotJson)),
        (
            "{\"platforms\":[],\"directives\":[1e400]}",
            Some(ListRefusal::NotJson),
        ),
        ("[]", top),
        ("null", top),
        ("{\"platforms\":[]}", top),
        ("{\"directives\":[]}", top),
        ("{\"platforms\":{},\"directives\":[]}", top),
        (
            "{\"platforms\":[],\"directives\":[],\"policies\":null}",
            top,
        ),
        ("{\"platforms\":[],\"directives\":[],\"Policies\":[]}", top),
        ("{\"platforms\":[],\"directives\":[],\"Version\":1}", top),
        ("{\"platforms\":[],\"directives\":[]}", None),
        ("{\"platforms\":[],\"policies\":[],\"directives\":[]}", None),
        // The later of two values at one key stands.
        ("{\"platforms\":7,\"directives\":[],\"platforms\":[]}", None),
        ("{\"platforms\":[],\"directives\":[],\"platforms\":7}", top),
    ] {
        assert_eq!(rt; read(rt.alloc(), [text, "", ""])?, want, "{text}");
    }
    Ok(())
}

/// Reads a list of one platform whose version is written so.
fn with_version(alloc: Global, version: &str) -> Result<Result<ListSource, ListRefusal>, Fail> {
    let mut text = String::new(alloc);
    text.push_str("{\"platforms\":[{\"kind\":\"snp\",\"mask\":1}],")?;
    text.push_str(version)?;
    text.push_str("\"directives\":[]}")?;
    let bytes = text.as_str().as_bytes();
    if bytes.len() > 16_777_216 {
        return Err("too long".into());
    }
    Ok(read_list(alloc, bytes))
}

#[test]
fn versions_of_a_list(rt: HostRuntime) -> Result<(), Fail> {
    for (text, want) in [
        ("", Some(1)),
        ("\"version\":1,", Some(1)),
        ("\"version\":2,", Some(2)),
        ("\"version\":7,\"version\":2,", Some(2)),
        ("\"version\":2,\"version\":7,", None),
        ("\"version\":0,", None),
        ("\"version\":3,", None),
        ("\"version\":-0,", None),
        ("\"version\":-1,", None),
        ("\"version\":1.0,", None),
        ("\"version\":2.0,", None),
        ("\"version\":2e0,", None),
        ("\"version\":4294967297,", None),
        ("\"version\":\"2\",", None),
        ("\"version\":null,", None),
        ("\"version\":true,", None),
    ] {
        let part = ListPart::Top;
        let refused = ListRefusal::Field { part, item: 0 };
        match (with_version(rt.alloc(), text)?, want) {
            (Ok(source), Some(version)) => {
                let mut shelf = MemShelf::new(rt.alloc());
                let list = expand(rt.alloc(), &source, &mut shelf)?;
                assert_eq!(rt; source.version(), version, "{text}");
                assert_eq!(rt; list.version(), version, "{text}");
            }
            (read, _) => assert_eq!(rt; read.err(), Some(refused), "{text}"),
        }
    }
    Ok(())
}

#[test]
fn platforms_and_policies_that_break_their_forms(rt: HostRuntime) -> Result<(), Fail> {
    let bad = field(ListPart::Platforms, 1);
    for (entry, want) in [
        ("{\"kind\":\"tdx\",\"mask\":2}", None),
        (
            "{\"kind\":\"sev_es\",\"mask\":4294967295,\"vtl\":255,\"version\":65535}",
            None,
        ),
        (
            "{\"kind\":\"vsm\",\"mask\":0,\"shared_gpa\":\"0xFfFfFfFfFfFfFfFf\"}",
            None,
        ),
        ("{\"kind\":\"tdx\",\"mask\":7,\"mask\":2}", None),
        ("{\"mask\":2}", bad),
        ("{\"kind\":\"tdx\"}", bad),
        ("{\"kind\":\"TDX\",\"mask\":2}", bad),
        ("{\"Kind\":\"tdx\",\"mask\":2}", bad),
        ("{\"kind\":\"tdx\",\"mask\":2,\"more\":0}", bad),
        ("{\"kind\":\"tdx\",\"mask\":1.0}", bad),
        ("{\"kind\":\"tdx\",\"mask\":1e0}", bad),
        ("{\"kind\":\"tdx\",\"mask\":-0}", bad),
        ("{\"kind\":\"tdx\",\"mask\":-1}", bad),
        ("{\"kind\":\"tdx\",\"mask\":4294967296}", bad),
        ("{\"kind\":\"tdx\",\"mask\":18446744073709551616}", bad),
        ("{\"kind\":\"tdx\",\"mask\":\"2\"}", bad),
        ("{\"kind\":\"tdx\",\"mask\":2,\"vtl\":256}", bad),
        ("{\"kind\":\"tdx\",\"mask\":2,\"vtl\":null}", bad),
        ("{\"kind\":\"tdx\",\"mask\":2,\"version\":65536}", bad),
        ("{\"kind\":\"tdx\",\"mask\":2,\"shared_gpa\":0}", bad),
        ("7", bad),
    ] {
        let pieces = [
            "{\"platforms\":[{\"kind\":\"snp\",\"mask\":1},",
            entry,
            "],\"directives\":[7]}",
        ];
        let want = match want {
            None => field(ListPart::Directives, 0),
            found => found,
        };
        assert_eq!(rt; read(rt.alloc(), pieces)?, want, "{entry}");
    }
    for (entry, want) in [
        ("{\"mask\":1,\"policy\":\"0x30000\"}", None),
        ("{\"mask\":1}", field(ListPart::Policies, 0)),
        (
            "{\"mask\":1,\"policy\":196608}",
            field(ListPart::Policies, 0),
        ),
        (
            "{\"mask\":1,\"policy\":\"0x1\",\"kind\":\"snp\"}",
            field(ListPart::Policies, 0),
        ),
    ] {
        let pieces = [
            "{\"platforms\":[],\"policies\":[",
            entry,
            "],\"directives\":[]}",
        ];
        assert_eq!(rt; read(rt.alloc(), pieces)?, want, "{entry}");
    }
    Ok(())
}

#[test]
fn directives_that_break_their_forms(rt: HostRuntime) -> Result<(), Fail> {
    for (entry, is_good) in [
        (
            "{\"do\":\"pages\",\"mask\":1,\"gpa\":\"0x1000\",\"file\":\"a\"}",
            true,
        ),
        (
            "{\"do\":\"pages\",\"mask\":1,\"gpa\":\"0x1000\",\"file\":\"a\",\"large\":true}",
            true,
        ),
        (
            "{\"do\":\"pages\",\"mask\":1,\"gpa\":\"0x1000\",\"file\":\"\"}",
            false,
        ),
        ("{\"do\":\"pages\",\"mask\":1,\"gpa\":\"0x1000\"}", false),
        (
            "{\"do\":\"pages\",\"mask\":1,\"gpa\":\"0X1000\",\"file\":\"a\"}",
            false,
        ),
        (
            "{\"do\":\"pages\",\"mask\":1,\"gpa\":\"0x\",\"file\":\"a\"}",
            false,
        ),
        (
            "{\"do\":\"pages\",\"mask\":1,\"gpa\":\"0x1g\",\"file\":\"a\"}",
            false,
        ),
        (
            "{\"do\":\"pages\",\"mask\":1,\"gpa\":\"0x0000000000000000A\",\"file\":\"a\"}",
            false,
        ),
        (
            "{\"do\":\"pages\",\"mask\":1,\"gpa\":\"0x1000\",\"file\":\"a\",\"large\":1}",
            false,
        ),
        (
            "{\"do\":\"pages\",\"mask\":1,\"gpa\":\"0x1000\",\"file\":\"a\",\"count\":1}",
            false,
        ),
        (
            "{\"do\":\"zero\",\"mask\":1,\"gpa\":\"0xABCDEF\",\"count\":524288}",
            true,
        ),
        (
            "{\"do\":\"zero\",\"mask\":1,\"gpa\":\"0x0\",\"count\":1,\"kind\":\"cpuid_xf\"}",
            true,
        ),
        (
            "{\"do\":\"zero\",\"mask\":1,\"gpa\":\"0x0\",\"count\":0}",
            false,
        ),
        (
            "{\"do\":\"zero\",\"mask\":1,\"gpa\":\"0x0\",\"count\":524289}",
            false,
        ),
        (
            "{\"do\":\"zero\",\"mask\":1,\"gpa\":\"0x0\",\"count\":1,\"kind\":\"snp\"}",
            false,
        ),
        ("{\"do\":\"area\",\"index\":0,\"bytes\":4294967295}", true),
        (
            "{\"do\":\"area\",\"index\":0,\"bytes\":4096,\"file\":\"-\"}",
            true,
        ),
        (
            "{\"do\":\"area\",\"index\":0,\"bytes\":4096,\"file\":null}",
            false,
        ),
        ("{\"do\":\"area\",\"index\":0}", false),
        (
            "{\"do\":\"param\",\"kind\":\"madt\",\"area\":0,\"offset\":0}",
            true,
        ),
        (
            "{\"do\":\"param\",\"kind\":\"normal\",\"area\":0,\"offset\":0}",
            false,
        ),
        ("{\"do\":\"param\",\"kind\":\"madt\",\"area\":0}", false),
        (
            "{\"do\":\"insert\",\"mask\":1,\"gpa\":\"0x0\",\"area\":0}",
            true,
        ),
        ("{\"do\":\"insert\",\"mask\":1,\"gpa\":\"0x0\"}", false),
        (
            "{\"do\":\"context\",\"mask\":1,\"gpa\":\"0x0\",\"vp\":65535}",
            true,
        ),
        (
            "{\"do\":\"context\",\"mask\":1,\"gpa\":\"0x0\",\"vp\":65536}",
            false,
        ),
        (
            "{\"do\":\"required\",\"mask\":1,\"gpa\":\"0x0\",\"bytes\":1,\"flags\":9}",
            true,
        ),
        ("{\"do\":\"required\",\"mask\":1,\"gpa\":\"0x0\"}", false),
        (
            "{\"do\":\"error_range\",\"mask\":1,\"gpa\":\"0x0\",\"bytes\":1}",
            true,
        ),
        (
            "{\"do\":\"error_range\",\"mask\":1,\"gpa\":\"0x0\",\"bytes\":1,\"flags\":9}",
            false,
        ),
        ("{\"do\":\"id_block\",\"mask\":1,\"ld\":\"00\"}", false),
        ("{\"do\":\"id_block\",\"mask\":1}", false),
        (
            "{\"do\":\"Pages\",\"mask\":1,\"gpa\":\"0x1000\",\"file\":\"a\"}",
            false,
        ),
        ("{\"do\":7}", false),
        ("{\"mask\":1}", false),
        // The later of two words decides the form.
        (
            "{\"do\":\"pages\",\"mask\":1,\"gpa\":\"0x0\",\"area\":0,\"do\":\"insert\"}",
            true,
        ),
        ("[]", false),
    ] {
        let pieces = ["{\"platforms\":[],\"directives\":[", entry, ",7]}"];
        let item = if is_good { 1 } else { 0 };
        let want = field(ListPart::Directives, item);
        assert_eq!(rt; read(rt.alloc(), pieces)?, want, "{entry}");
    }
    Ok(())
}

#[test]
fn a_list_is_read(rt: HostRuntime) -> Result<(), Fail> {
    let text = "{\"platforms\":[{\"kind\":\"snp\",\"mask\":1,\"vtl\":2}],\
        \"policies\":[{\"mask\":1,\"policy\":\"0x3Fa\"}],\"directives\":[\
        {\"do\":\"pages\",\"mask\":7,\"gpa\":\"0x10000\",\"file\":\"made-36864\"},\
        {\"do\":\"zero\",\"mask\":1,\"gpa\":\"0x9e000\",\"count\":3,\"kind\":\"secrets\"}]}";
    let source = read_list(rt.alloc(), text.as_bytes())?;
    let platform = Header::Platform {
        mask: 1,
        highest_vtl: 2,
        kind: PlatformKind::SevSnp,
        version: 1,
        shared_gpa: 0,
    };
    let policy = Header::Policy {
        policy: 0x3FA,
        mask: 1,
    };
    assert!(rt; source.platforms() == [platform].as_slice());
    assert!(rt; source.policies() == [policy].as_slice());
    let run = PageRun {
        gpa: 0x10000,
        mask: 7,
        large: false,
        unmeasured: false,
        kind: PageKind::Normal,
    };
    let first = source.directives().first();
    assert!(rt;
        matches!(first, Some(Directive::Pages { run: found, file })
        if *found == run && file.as_str() == "made-36864")
    );
    let zeros = PageRun {
        gpa: 0x9E000,
        mask: 1,
        kind: PageKind::Secrets,
        ..run
    };
    let second = source.directives().get(1);
    assert!(rt;
        matches!(second, Some(Directive::Zeros { run: found, count })
        if *found == zeros && *count == 3)
    );
    Ok(())
}

/// Expands the list of these pieces over a shelf with four small files.
fn expanded(
    alloc: Global,
    pieces: [&str; 3],
) -> Result<Result<ComponentList, ExpandRefusal>, Fail> {
    let mut text = String::new(alloc);
    for piece in pieces {
        text.push_str(piece)?;
    }
    let bytes = text.as_str().as_bytes();
    if bytes.len() > 16_777_216 {
        return Err("too long".into());
    }
    let source = read_list(alloc, bytes)?;
    let mut shelf = MemShelf::new(alloc);
    let filled = vec![in alloc; 0xAA; 4097]?;
    shelf.put_file("empty", b"")?;
    shelf.put_file("one", b"\xAA")?;
    shelf.put_file("page", &filled[..4096])?;
    shelf.put_file("more", &filled)?;
    Ok(expand(alloc, &source, &mut shelf))
}

fn rule(item: u32, what: ReadWhat) -> Option<ExpandRefusal> {
    let part = ListPart::Directives;
    Some(ExpandRefusal::Rule { part, item, what })
}

#[test]
fn directives_that_are_refused(rt: HostRuntime) -> Result<(), Fail> {
    for (directives, want) in [
        (
            "{\"do\":\"area\",\"index\":0,\"bytes\":4096,\"file\":\"more\"}",
            rule(0, ReadWhat::Length),
        ),
        (
            "{\"do\":\"context\",\"mask\":1,\"gpa\":\"0x0\",\"vp\":0,\"file\":\"more\"}",
            rule(0, ReadWhat::Length),
        ),
        (
            "{\"do\":\"zero\",\"mask\":1,\"gpa\":\"0xfffffffffffff000\",\"count\":2}",
            rule(0, ReadWhat::Wrap),
        ),
        (
            "{\"do\":\"zero\",\"mask\":1,\"gpa\":\"0xfffffffffffff000\",\"count\":1}",
            None,
        ),
        (
            "{\"do\":\"pages\",\"mask\":1,\"gpa\":\"0x0\",\"file\":\"gone\"}",
            Some(ExpandRefusal::Read { item: 0 }),
        ),
        // A file that is not there comes before the rules on an earlier entry's components.
        (
            "{\"do\":\"zero\",\"mask\":1,\"gpa\":\"0x1\",\"count\":1},\
            {\"do\":\"pages\",\"mask\":1,\"gpa\":\"0x0\",\"file\":\"gone\"}",
            Some(ExpandRefusal::Read { item: 1 }),
        ),
        (
            "{\"do\":\"zero\",\"mask\":1,\"gpa\":\"0x0\",\"count\":3},\
            {\"do\":\"zero\",\"mask\":1,\"gpa\":\"0x1\",\"count\":1}",
            rule(1, ReadWhat::Align),
        ),
        (
            "{\"do\":\"zero\",\"mask\":1,\"gpa\":\"0x0\",\"count\":8193,\"large\":true}",
            rule(0, ReadWhat::TooManyPages),
        ),
        (
            "{\"do\":\"zero\",\"mask\":1,\"gpa\":\"0x0\",\"count\":8192,\"large\":true},\
            {\"do\":\"zero\",\"mask\":1,\"gpa\":\"0x0\",\"count\":1}",
            rule(1, ReadWhat::TooManyPages),
        ),
        (
            "{\"do\":\"zero\",\"mask\":1,\"gpa\":\"0x0\",\"count\":1,\"large\":true,\"kind\":\"cpuid\"}",
            rule(0, ReadWhat::DataType),
        ),
        (
            "{\"do\":\"area\",\"index\":0,\"bytes\":4294967295,\"file\":\"one\"}",
            Some(ExpandRefusal::TooLarge { item: 0 }),
        ),
        (
            "{\"do\":\"area\",\"index\":0,\"bytes\":4294967295}",
            rule(0, ReadWhat::AreaSize),
        ),
        (
            "{\"do\":\"insert\",\"mask\":1,\"gpa\":\"0x0\",\"area\":0}",
            rule(0, ReadWhat::AreaUnknown),
        ),
        // An empty file gives no page, so nothing is asked of its address.
        (
            "{\"do\":\"pages\",\"mask\":1,\"gpa\":\"0x1\",\"file\":\"empty\"}",
            None,
        ),
    ] {
        let pieces = [
            "{\"platforms\":[{\"kind\":\"snp\",\"mask\":1}],\
            \"policies\":[{\"mask\":1,\"policy\":\"0x0\"}],\"directives\":[",
            directives,
            "]}",
        ];
        assert_eq!(rt; expanded(rt.alloc(), pieces)?.err(), want, "{directives}");
    }
    Ok(())
}

#[test]
fn headers_that_are_refused(rt: HostRuntime) -> Result<(), Fail> {
    let part = ListPart::Platforms;
    for (platforms, item, what) in [
        ("", 0, ReadWhat::NoPlatform),
        ("{\"kind\":\"snp\",\"mask\":3}", 0, ReadWhat::Mask),
        (
            "{\"kind\":\"snp\",\"mask\":1},{\"kind\":\"tdx\",\"mask\":1}",
            1,
            ReadWhat::Mask,
        ),
    ] {
        let pieces = ["{\"platforms\":[", platforms, "],\"directives\":[]}"];
        let want = Some(ExpandRefusal::Rule { part, item, what });
        assert_eq!(rt; expanded(rt.alloc(), pieces)?.err(), want, "{platforms}");
    }
    Ok(())
}

/// The data of component `k`, where they are bytes.
fn bytes_at(list: &ComponentList, k: u32) -> Option<&[u8]> {
    match &list.component(k)?.content {
        Content::Bytes(blob) => Some(blob.bytes()),
        _ => None,
    }
}

#[test]
fn files_fill_pages_and_areas(rt: HostRuntime) -> Result<(), Fail> {
    let pieces = [
        "{\"platforms\":[{\"kind\":\"snp\",\"mask\":1}],\"directives\":[",
        "{\"do\":\"area\",\"index\":0,\"bytes\":8192,\"file\":\"more\"},\
        {\"do\":\"pages\",\"mask\":1,\"gpa\":\"0x1000\",\"file\":\"more\"},\
        {\"do\":\"zero\",\"mask\":1,\"gpa\":\"0x8000\",\"count\":1}",
        "]}",
    ];
    let list = expanded(rt.alloc(), pieces)??;
    assert_eq!(rt; list.len(), 5);
    assert!(rt; list.component(5).is_none());
    for (k, size, at, want) in [
        (1, 8192, 4096, 0xAA),
        (1, 8192, 4097, 0),
        (2, 4096, 4095, 0xAA),
        (3, 4096, 0, 0xAA),
        (3, 4096, 1, 0),
    ] {
        let bytes = bytes_at(&list, k).ok_or("no bytes")?;
        assert_eq!(rt; bytes.len(), size, "{k}");
        assert_eq!(rt; bytes.get(at).copied(), Some(want), "{k} {at}");
    }
    let second = list.component(3).ok_or("no page")?;
    assert!(rt;
        matches!(
            second.header,
            Header::Page {
                gpa: 0x2000,
                mask: 1,
                ..
            }
        )
    );
    let last = list.component(4).ok_or("no zeros")?;
    assert!(rt; matches!(last.content, Content::Zero));
    assert!(rt; list == expanded(rt.alloc(), pieces)??);
    assert_eq!(rt; list.version(), 1);
    assert!(rt; list != expanded(rt.alloc(), pieces)??.with_version(2));
    let other = expanded(rt.alloc(), pieces)??.with_version(2);
    let same = ComponentList::of_valid(list.into_parts()).with_version(2);
    assert!(rt; other == same);
    Ok(())
}

/// SEV-SNP under mask 1, area 0 of 4,096 zeros, and area 1 of 8,192 bytes at file offset 96, which
/// are what follows the section in version 1, and begin 8 bytes before its end in version 2.
const SECTION: &[u8] = b"\x01\0\0\0\x10\0\0\0\x01\0\0\0\0\x02\x01\0\0\0\0\0\0\0\0\0\
    \x01\x03\0\0\x10\0\0\0\0\x10\0\0\0\0\0\0\0\0\0\0\0\0\0\0\
    \x01\x03\0\0\x10\0\0\0\0\x20\0\0\0\0\0\0\x01\0\0\0\x60\0\0\0";

/// An image with that section and 8,192 bytes behind it: `fields` are those of the fixed header up
/// to the checksum, `added` what version 2 has behind it.
fn image(alloc: Global, fields: &[u8], added: &[u8]) -> Result<Vec<u8>, Fail> {
    let mut file = Vec::new(alloc);
    file.extend_from_slice(fields)?;
    let state = crc_more(crc_more(crc_begin(), &file), &[0; 4]);
    let sum = crc_end(crc_more(crc_more(state, added), SECTION));
    file.extend_from_slice(&sum.to_le_bytes())?;
    file.extend_from_slice(added)?;
    file.extend_from_slice(SECTION)?;
    file.extend_from_slice(&[0x11; 8192])?;
    Ok(file)
}

#[test]
fn the_list_of_an_image(rt: HostRuntime) -> Result<(), Fail> {
    for (version, fields, added) in [
        (
            1,
            b"IGVM\x01\0\0\0\x18\0\0\0\x48\0\0\0\x60\x20\0\0",
            b"".as_slice(),
        ),
        (
            2,
            b"IGVM\x02\0\0\0\x20\0\0\0\x48\0\0\0\x68\x20\0\0",
            b"\0\0\0\0\0\x10\0\0".as_slice(),
        ),
    ] {
        let file = image(rt.alloc(), fields, added)?;
        assert!(rt; file.len() < 65536);
        let view = open_image(&file).ok().ok_or("refused")?;
        let list = components_of(rt.alloc(), &view).ok().ok_or("no memory")?;
        assert_eq!(rt; list.version(), version);
        assert_eq!(rt; list.len(), 3);
        let area = Header::Area {
            bytes: 8192,
            area: 1,
            offset: 0,
        };
        let last = list.component(2).ok_or("no area")?;
        assert!(rt; last.header == area);
        let bytes = bytes_at(&list, 2).ok_or("no bytes")?;
        assert_eq!(rt; bytes.len(), 8192);
        assert_eq!(rt; bytes.get(8183).copied(), Some(0x11));
        let first = list.component(1).ok_or("no area")?;
        assert!(rt; matches!(first.content, Content::Zero));
    }
    Ok(())
}
