//! Images of lists, against bytes and checksums that a program in Python made of the same lists
//! with zlib.

use crate::{BuildRefusal, Image, build};
use byteorder::{ByteOrder, LittleEndian};
use component_list::{Blob, Content, components_of};
use igvm_headers::{Header, PageKind, ParamKind, PlatformKind, crc32};
use igvm_image::open_image;
use std::alloc::Global;
use std::test::Fail;

mod parts;

use parts::{Parts, bytes_of, filled, snp};

fn number_at(image: &[u8], at: usize) -> Option<u32> {
    let number = image.get(at..)?.get(..4)?;
    Some(LittleEndian::read_u32(number))
}

/// What is kept of an image: its size, and the checksum of all its bytes.
fn sum_of(alloc: Global, parts: Parts) -> Result<(usize, u32), Fail> {
    let image = build(alloc, &parts.list()?)?;
    Ok((image.len(), crc32(image.as_slice())))
}

#[test]
fn builds_the_smallest(rt: HostRuntime) -> Result<(), Fail> {
    let image = build(rt.alloc(), &snp(rt.alloc())?.list()?)?;
    let want = b"IGVM\x01\0\0\0\x18\0\0\0\x18\0\0\0\x30\0\0\0\xe5\xd3\xab\x67\
        \x01\0\0\0\x10\0\0\0\x01\0\0\0\0\x02\x01\0\0\0\0\0\0\0\0\0";
    assert_eq!(rt; image.as_slice(), want.as_slice());
    let image = build(rt.alloc(), &snp(rt.alloc())?.list()?.with_version(2))?;
    let want = b"IGVM\x02\0\0\0\x20\0\0\0\x18\0\0\0\x38\0\0\0\x3f\x26\x3a\xfa\
        \0\0\0\0\0\x10\0\0\
        \x01\0\0\0\x10\0\0\0\x01\0\0\0\0\x02\x01\0\0\0\0\0\0\0\0\0";
    assert_eq!(rt; image.as_slice(), want.as_slice());
    Ok(())
}

#[test]
fn stores_equal_contents_once(rt: HostRuntime) -> Result<(), Fail> {
    let alloc = rt.alloc();
    for (count, second, size, sum) in [
        (4096, 112, 4_208, 0xFE55_D038),
        (1, 4_208, 8_304, 0x3C88_DAEF),
    ] {
        let mut bytes = filled(alloc, 0xAA, count)?;
        bytes.resize(4096, 0)?;
        let mut parts = snp(alloc)?;
        parts.page(
            0x1000,
            1,
            PageKind::Normal,
            bytes_of(filled(alloc, 0xAA, 4096)?),
        )?;
        parts.page(0x2000, 1, PageKind::Normal, bytes_of(bytes))?;
        let image = build(alloc, &parts.list()?)?;
        assert_eq!(rt; number_at(image.as_slice(), 68), Some(112));
        assert_eq!(rt; number_at(image.as_slice(), 100), Some(second));
        assert_eq!(rt; image.len(), size);
        assert_eq!(rt; crc32(image.as_slice()), sum);
    }
    Ok(())
}

/// An area, a page and a context share their bytes; a page of 2 MB never shares with one of 4 KB.
#[test]
fn shares_across_kinds(rt: HostRuntime) -> Result<(), Fail> {
    let alloc = rt.alloc();
    let mut parts = snp(alloc)?;
    parts.area(7, bytes_of(filled(alloc, 0xAA, 4096)?))?;
    parts.page(
        0x1000,
        1,
        PageKind::Normal,
        bytes_of(filled(alloc, 0xAA, 4096)?),
    )?;
    parts.page(
        0x2000,
        1,
        PageKind::Normal,
        bytes_of(filled(alloc, 0, 4096)?),
    )?;
    parts.context(bytes_of(filled(alloc, 0xAA, 4096)?))?;
    parts.large_page(0x20_0000, bytes_of(filled(alloc, 0xAA, 2_097_152)?))?;
    parts.page(0x3000, 1, PageKind::Normal, Content::Zero)?;
    assert_eq!(rt; sum_of(alloc, parts)?, (2_105_576, 0x12B6_A1E7));
    Ok(())
}

#[test]
fn stores_nothing_of_zeros(rt: HostRuntime) -> Result<(), Fail> {
    let alloc = rt.alloc();
    let mut parts = snp(alloc)?;
    parts.page(0x1000, 1, PageKind::Normal, Content::Zero)?;
    assert_eq!(rt; sum_of(alloc, parts)?, (80, 0xD5DD_04E5));
    Ok(())
}

#[test]
fn pads_what_is_carried(rt: HostRuntime) -> Result<(), Fail> {
    let alloc = rt.alloc();
    let mut parts = snp(alloc)?;
    let header = Header::Carried {
        kind: 0x8000_0399,
        length: 5,
    };
    let tail = Blob::of_vec(Vec::from_slice(alloc, b"abcde")?);
    parts.push_with(header, tail, Content::Nothing)?;
    parts.page(
        0x1000,
        1,
        PageKind::Normal,
        bytes_of(filled(alloc, 0xAA, 4096)?),
    )?;
    assert_eq!(rt; sum_of(alloc, parts)?, (4_192, 0xE05A_6BB0));
    Ok(())
}

/// A list as an owner has one: platforms, a policy, areas and parameters, nine pages and more.
fn realistic(alloc: Global) -> Result<Parts, Fail> {
    let mut parts = Parts::new(alloc);
    parts.platform(1, PlatformKind::SevSnp, 2)?;
    parts.platform(2, PlatformKind::Tdx, 0)?;
    parts.platform(4, PlatformKind::Native, 0)?;
    let policy = Header::Policy {
        policy: 0x3_0000,
        mask: 1,
    };
    parts.push(policy, Content::Nothing)?;
    parts.area(0, Content::Zero)?;
    parts.area(1, Content::Zero)?;
    parts.param(ParamKind::MemoryMap, 0, 0)?;
    parts.param(ParamKind::VpCount, 0, 2048)?;
    parts.param(ParamKind::CommandLine, 1, 0)?;
    let required = Header::Required {
        gpa: 0,
        mask: 7,
        bytes: 16_777_216,
        flags: 0,
    };
    parts.push(required, Content::Nothing)?;
    push_placed(alloc, &mut parts)?;
    Ok(parts)
}

/// Its pages, inserts and context.
fn push_placed(alloc: Global, parts: &mut Parts) -> Result<(), Fail> {
    for k in 0..9u8 {
        let bytes = bytes_of(filled(alloc, k + 1, 4096)?);
        parts.page(0x10000 + 4096 * u64::from(k), 7, PageKind::Normal, bytes)?;
    }
    parts.page(0x9E000, 1, PageKind::Secrets, Content::Zero)?;
    parts.page(0x9F000, 1, PageKind::Cpuid, Content::Zero)?;
    parts.insert(0x1A000, 0)?;
    parts.insert(0x1B000, 1)?;
    let mut context = filled(alloc, 0x5A, 1648)?;
    context.resize(4096, 0)?;
    parts.context(bytes_of(context))
}

#[test]
fn builds_a_realistic_list(rt: HostRuntime) -> Result<(), Fail> {
    let alloc = rt.alloc();
    for (version, offset_at, front, size, sum) in [
        (1, 268, 680, 41_640, 0x691B_D8C0),
        (2, 276, 688, 41_648, 0xB0C4_7B3C),
    ] {
        if version != 1 && version != 2 {
            return Err(Fail::new("another version"));
        }
        let list = realistic(alloc)?.list()?.with_version(version);
        let pieces = Image::of(alloc, &list)?;
        assert_eq!(rt; pieces.len(), size);
        assert_eq!(rt; pieces.front().len(), front);
        assert_eq!(rt; pieces.contents().len(), 10);
        let image = build(alloc, &list)?;
        assert_eq!(rt; number_at(image.as_slice(), offset_at), Some(front as u32));
        assert_eq!(rt; image.len() as u64, size);
        assert_eq!(rt; crc32(image.as_slice()), sum);
        let view = open_image(image.as_slice()).ok().ok_or("refused")?;
        let read = components_of(alloc, &view).ok().ok_or("no memory")?;
        assert!(rt; read == list);
    }
    Ok(())
}

#[test]
fn stores_many_equal_pages_once(rt: HostRuntime) -> Result<(), Fail> {
    let alloc = rt.alloc();
    let mut parts = snp(alloc)?;
    for k in 0..20_000u64 {
        let bytes = bytes_of(filled(alloc, 0x77, 4096)?);
        parts.page(4096 * k, 1, PageKind::Normal, bytes)?;
    }
    assert_eq!(rt; sum_of(alloc, parts)?, (644_144, 0x7BA2_42F7));
    Ok(())
}

/// Pages that differ in their last bytes alone, so many that to compare pairs would not end here.
#[test]
fn tells_pages_apart_by_their_last_bytes(rt: HostRuntime) -> Result<(), Fail> {
    let alloc = rt.alloc();
    let mut parts = snp(alloc)?;
    for k in 0..65_536u64 {
        let mut bytes = filled(alloc, 0x77, 4096)?;
        bytes.truncate(4088);
        bytes.extend_from_slice(&k.to_le_bytes())?;
        parts.page(4096 * k, 1, PageKind::Normal, bytes_of(bytes))?;
    }
    let image = build(alloc, &parts.list()?)?;
    assert_eq!(rt; image.len(), 270_532_656);
    assert_eq!(rt; number_at(image.as_slice(), 68), Some(2_097_200));
    assert_eq!(rt; number_at(image.as_slice(), 2_097_188), Some(270_528_560));
    Ok(())
}

#[test]
fn refuses_what_is_past_the_limit(rt: HostRuntime) -> Result<(), Fail> {
    let alloc = rt.alloc();
    let mut parts = snp(alloc)?;
    for k in 0..256u64 {
        let mut bytes = Vec::from_slice(alloc, &k.to_le_bytes())?;
        bytes.resize(2_097_152, 0)?;
        parts.large_page(0x20_0000 * k, bytes_of(bytes))?;
    }
    let refusal = build(alloc, &parts.list()?).err();
    assert_eq!(rt;
        refusal,
        Some(BuildRefusal::TooLarge { bytes: 536_879_152 })
    );
    Ok(())
}
