//! Images as tables: the first rule that each breaks, or what a view of it answers.
ghost use Rattle.std.specs.Prelude.{◌+◌, ◌≤◌};

use super::*;
use igvm_headers::{
    FixedHeader, Header, PlatformKind, ReadFault, ReadWhat, crc_begin, crc_end, crc_more,
};
use std::alloc::{AllocError, Global};
use std::process::Abort;
use std::test::Fail;

/// The fixed header with zlib's checksum, and one platform.
const SMALLEST: &[u8] = b"IGVM\x01\0\0\0\x18\0\0\0\x18\0\0\0\x30\0\0\0\xE5\xD3\xAB\x67\
    \x01\0\0\0\x10\0\0\0\x01\0\0\0\0\x02\x01\0\0\0\0\0\0\0\0\0";

/// The same in version 2, whose fixed header has 32 bytes, with zlib's checksum.
const SMALLEST_OF_VERSION_2: [u8; 56] =
    *b"IGVM\x02\0\0\0\x20\0\0\0\x18\0\0\0\x38\0\0\0\x3F\x26\x3A\xFA\0\0\0\0\0\x10\0\0\
    \x01\0\0\0\x10\0\0\0\x01\0\0\0\0\x02\x01\0\0\0\0\0\0\0\0\0";

/// zlib's checksum over its first 24 bytes, with zeros for the checksum, and the section: 8 bytes too few.
const CHECKSUM_OF_24: [u8; 4] = *b"\xAB\x2C\xEC\x46";

/// No header.
const NONE: &[u8] = b"";

/// A header of the greatest length that can be written.
const LENGTH_AT_LAST: &[u8] = b"\x01\0\0\0\xFF\xFF\xFF\xFF\x01\0\0\0\0\x02\x01\0";

/// SEV-SNP under mask 1.
const PLATFORM: &[u8] = b"\x01\0\0\0\x10\0\0\0\x01\0\0\0\0\x02\x01\0\0\0\0\0\0\0\0\0";

/// SEV-SNP under mask 2.
const SECOND_PLATFORM: &[u8] = b"\x01\0\0\0\x10\0\0\0\x02\0\0\0\0\x02\x01\0\0\0\0\0\0\0\0\0";

/// SEV-SNP under mask 3.
const TWO_BITS: &[u8] = b"\x01\0\0\0\x10\0\0\0\x03\0\0\0\0\x02\x01\0\0\0\0\0\0\0\0\0";

/// A platform of type 6.
const PLATFORM_TYPE_6: &[u8] = b"\x01\0\0\0\x10\0\0\0\x01\0\0\0\0\x06\x01\0\0\0\0\0\0\0\0\0";

/// A guest policy.
const POLICY: &[u8] = b"\x01\x01\0\0\x10\0\0\0\0\0\x03\0\0\0\0\0\x01\0\0\0\0\0\0\0";

/// A header of type 0x399.
const UNKNOWN: &[u8] = b"\x99\x03\0\0\0\0\0\0";

/// A header of type 0x80000399 with 4 bytes.
const CARRIED: &[u8] = b"\x99\x03\0\x80\x04\0\0\0\x01\x02\x03\x04\0\0\0\0";

/// A zero page at 0x1000.
const PAGE: &[u8] = b"\x02\x03\0\0\x18\0\0\0\0\x10\0\0\0\0\0\0\x01\0\0\0\0\0\0\0\0\0\0\0\0\0\0\0";

/// The same with its data at file offset 80.
const PAGE_AT_80: &[u8] =
    b"\x02\x03\0\0\x18\0\0\0\0\x10\0\0\0\0\0\0\x01\0\0\0\x50\0\0\0\0\0\0\0\0\0\0\0";

/// The same at the last file offset of 32 bits.
const PAGE_AT_LAST: &[u8] =
    b"\x02\x03\0\0\x18\0\0\0\0\x10\0\0\0\0\0\0\x01\0\0\0\xFF\xFF\xFF\xFF\0\0\0\0\0\0\0\0";

/// A page at the last address.
const PAGE_TOP: &[u8] =
    b"\x02\x03\0\0\x18\0\0\0\xFF\xFF\xFF\xFF\xFF\xFF\xFF\xFF\x01\0\0\0\0\0\0\0\0\0\0\0\0\0\0\0";

/// A page with flag bit 2.
const FLAG_2: &[u8] =
    b"\x02\x03\0\0\x18\0\0\0\0\x10\0\0\0\0\0\0\x01\0\0\0\0\0\0\0\x04\0\0\0\0\0\0\0";

/// A 2 MB page at 0x1000.
const LARGE_AT_4K: &[u8] =
    b"\x02\x03\0\0\x18\0\0\0\0\x10\0\0\0\0\0\0\x01\0\0\0\0\0\0\0\x01\0\0\0\0\0\0\0";

/// A 2 MB page of secrets.
const LARGE_SECRETS: &[u8] =
    b"\x02\x03\0\0\x18\0\0\0\0\0\x20\0\0\0\0\0\x01\0\0\0\0\0\0\0\x01\0\0\0\x01\0\0\0";

/// Area 0 of 4,096 zeros.
const AREA: &[u8] = b"\x01\x03\0\0\x10\0\0\0\0\x10\0\0\0\0\0\0\0\0\0\0\0\0\0\0";

/// Area 0 of 8,192 zeros.
const AREA_8192: &[u8] = b"\x01\x03\0\0\x10\0\0\0\0\x20\0\0\0\0\0\0\0\0\0\0\0\0\0\0";

/// Area 0 of 4,097 bytes.
const AREA_4097: &[u8] = b"\x01\x03\0\0\x10\0\0\0\x01\x10\0\0\0\0\0\0\0\0\0\0\0\0\0\0";

/// Area 0 of no bytes.
const AREA_0: &[u8] = b"\x01\x03\0\0\x10\0\0\0\0\0\0\0\0\0\0\0\0\0\0\0\0\0\0\0";

/// Area 5 inserted at 0x4000.
const INSERT_5: &[u8] = b"\x03\x03\0\0\x10\0\0\0\0\x40\0\0\0\0\0\0\x01\0\0\0\x05\0\0\0";

/// Area 0 inserted at the last page.
const INSERT_TOP: &[u8] = b"\x03\x03\0\0\x10\0\0\0\0\xF0\xFF\xFF\xFF\xFF\xFF\xFF\x01\0\0\0\0\0\0\0";

/// The context of processor 0, zeros, of 20 bytes with no padding.
const CONTEXT: &[u8] =
    b"\x04\x03\0\0\x14\0\0\0\0\xF0\xFF\xFF\xFF\xFF\0\0\x01\0\0\0\0\0\0\0\0\0\0\0";

/// The same of 22 bytes.
const CONTEXT_22: &[u8] =
    b"\x04\x03\0\0\x16\0\0\0\0\xF0\xFF\xFF\xFF\xFF\0\0\x01\0\0\0\0\0\0\0\0\0\0\0\0\0";

/// The same of 24 bytes.
const CONTEXT_24: &[u8] =
    b"\x04\x03\0\0\x18\0\0\0\0\xF0\xFF\xFF\xFF\xFF\0\0\x01\0\0\0\0\0\0\0\0\0\0\0\0\0\0\0";

/// The context with its data at file offset 76.
const CONTEXT_AT_76: &[u8] =
    b"\x04\x03\0\0\x14\0\0\0\0\xF0\xFF\xFF\xFF\xFF\0\0\x01\0\0\0\x4C\0\0\0\0\0\0\0";

/// The same at 77.
const CONTEXT_AT_77: &[u8] =
    b"\x04\x03\0\0\x14\0\0\0\0\xF0\xFF\xFF\xFF\xFF\0\0\x01\0\0\0\x4D\0\0\0\0\0\0\0";

/// A file of this section behind the fixed header, and the total size with so many bytes of data.
fn image(alloc: Global, section: &[u8], data: u32) -> Result<Vec<u8>, AllocError> {
    let size = u32::try_from(section.len()).unwrap_or(0);
    let total = size.saturating_add(24).saturating_add(data);
    let mut file = Vec::new(alloc);
    file.extend_from_slice(b"IGVM\x01\0\0\0\x18\0\0\0")?;
    file.extend_from_slice(&size.to_le_bytes())?;
    file.extend_from_slice(&total.to_le_bytes())?;
    let state = crc_more(crc_more(crc_begin(), &file), &[0; 4]);
    file.extend_from_slice(&crc_end(crc_more(state, section)).to_le_bytes())?;
    file.extend_from_slice(section)?;
    Ok(file)
}

fn fault_of(rt: &impl Abort, file: &[u8]) -> Option<ReadFault> {
    assert!(rt; file.len() <= 536_870_912);
    open_image(file).err()
}

/// The smallest image of version 2 with other bytes from a place on.
fn changed<const N: usize>(at: usize, bytes: [u8; N]) -> [u8; 56]
    requires { at + N ≤ 56 }
{
    let mut file = SMALLEST_OF_VERSION_2;
    file[at..at + N].copy_from_slice(&bytes);
    file
}

#[test]
fn names_the_rule_of_the_fixed_header_of_version_2(rt: HostRuntime) {
    assert_eq!(rt; fault_of(&rt, &SMALLEST_OF_VERSION_2), None);
    for (file, at, what) in [
        (&SMALLEST_OF_VERSION_2[..23], 23, ReadWhat::TooShort),
        (&SMALLEST_OF_VERSION_2[..24], 24, ReadWhat::TooShort),
        (&SMALLEST_OF_VERSION_2[..31], 31, ReadWhat::TooShort),
        (&SMALLEST_OF_VERSION_2[..32], 16, ReadWhat::TotalSize),
        (&SMALLEST_OF_VERSION_2[..55], 16, ReadWhat::TotalSize),
        (&changed(4, [0])[..], 4, ReadWhat::Version),
        (&changed(4, [3])[..], 4, ReadWhat::Version),
        (&changed(24, [1])[..], 24, ReadWhat::Aarch64),
        (&changed(24, [2])[..], 24, ReadWhat::Architecture),
        (&changed(28, [0, 0, 1])[..], 28, ReadWhat::PageSize),
        (&changed(16, [31])[..], 16, ReadWhat::TotalSize),
        (&changed(16, [24])[..], 16, ReadWhat::TotalSize),
        (&changed(8, [24])[..], 8, ReadWhat::Section),
        (&changed(8, [31])[..], 8, ReadWhat::Section),
        (&changed(8, [33])[..], 8, ReadWhat::Section),
        (&changed(20, CHECKSUM_OF_24)[..], 20, ReadWhat::Checksum),
    ] {
        assert_eq!(rt; fault_of(&rt, file), Some(ReadFault { at, what }));
    }
}

#[test]
fn names_the_rule_of_the_fixed_header(rt: HostRuntime) {
    let zeros = [0; 24];
    for (file, at, what) in [
        (&zeros[..0], 0, ReadWhat::TooShort),
        (&SMALLEST[..23], 23, ReadWhat::TooShort),
        (&zeros[..], 0, ReadWhat::Magic),
        (
            &b"IGVM\x09\0\0\0\0\0\0\0\0\0\0\0\0\0\0\0\0\0\0\0"[..],
            4,
            ReadWhat::Version,
        ),
        (&SMALLEST[..47], 16, ReadWhat::TotalSize),
        (
            &b"IGVM\x01\0\0\0\x18\0\0\0\x18\0\0\0\xFF\xFF\xFF\xFF\0\0\0\0"[..],
            16,
            ReadWhat::TotalSize,
        ),
        (
            &b"IGVM\x01\0\0\0\x18\0\0\0\xFF\xFF\xFF\xFF\x18\0\0\0\0\0\0\0"[..],
            8,
            ReadWhat::Section,
        ),
        (
            &b"IGVM\x01\0\0\0\xE8\xFF\xFF\xFF\x18\0\0\0\x18\0\0\0\0\0\0\0"[..],
            8,
            ReadWhat::Section,
        ),
        (
            &b"IGVM\x01\0\0\0\x18\0\0\0\0\0\0\0\x18\0\0\0\0\0\0\0"[..],
            20,
            ReadWhat::Checksum,
        ),
    ] {
        assert_eq!(rt; fault_of(&rt, file), Some(ReadFault { at, what }));
    }
    assert_eq!(rt; fault_of(&rt, SMALLEST), None);
}

/// Judges the file of these headers in a row, with no data.
fn judge(
    rt: &impl Abort,
    alloc: Global,
    headers: &[&[u8]],
) -> Result<Option<ReadFault>, AllocError> {
    let section = headers.concat(alloc)?;
    let file = image(alloc, &section, 0)?;
    Ok(fault_of(rt, &file))
}

#[test]
fn names_the_first_rule_of_a_header(rt: HostRuntime) -> Result<(), Fail> {
    for (first, second, third, at, what) in [
        (NONE, NONE, NONE, 24, ReadWhat::NoPlatform),
        (CARRIED, NONE, NONE, 24, ReadWhat::NoPlatform),
        (&PLATFORM[..23], NONE, NONE, 24, ReadWhat::HeaderCut),
        (LENGTH_AT_LAST, NONE, NONE, 24, ReadWhat::HeaderCut),
        (PLATFORM, &CONTEXT[..27], NONE, 48, ReadWhat::HeaderCut),
        (
            PLATFORM,
            UNKNOWN,
            NONE,
            48,
            ReadWhat::UnknownType { kind: 0x399 },
        ),
        (PLATFORM, CONTEXT_22, NONE, 48, ReadWhat::Length),
        (PLATFORM, FLAG_2, NONE, 48, ReadWhat::Flags { bit: 2 }),
        (PLATFORM, LARGE_SECRETS, NONE, 48, ReadWhat::DataType),
        (PLATFORM_TYPE_6, NONE, NONE, 24, ReadWhat::PlatformType),
        (PLATFORM, POLICY, SECOND_PLATFORM, 72, ReadWhat::Order),
        (TWO_BITS, NONE, NONE, 24, ReadWhat::Mask),
        (PLATFORM, PLATFORM, NONE, 48, ReadWhat::Mask),
        (PLATFORM, LARGE_AT_4K, NONE, 48, ReadWhat::Align),
        (PLATFORM, PAGE_TOP, NONE, 48, ReadWhat::Align),
        (PLATFORM, AREA, AREA_8192, 72, ReadWhat::AreaRepeated),
        (PLATFORM, INSERT_5, NONE, 48, ReadWhat::AreaUnknown),
        (PLATFORM, AREA_4097, NONE, 48, ReadWhat::AreaSize),
        (PLATFORM, AREA_0, NONE, 48, ReadWhat::AreaSize),
        (PLATFORM, AREA_8192, INSERT_TOP, 72, ReadWhat::Wrap),
        (PLATFORM, PAGE_AT_80, NONE, 48, ReadWhat::DataOutside),
        (PLATFORM, PAGE_AT_LAST, NONE, 48, ReadWhat::DataOutside),
        (PLATFORM, CONTEXT_AT_77, NONE, 48, ReadWhat::DataOutside),
    ] {
        let fault = judge(&rt, rt.alloc(), &[first, second, third])?;
        assert_eq!(rt; fault, Some(ReadFault { at, what }));
    }
    Ok(())
}

#[test]
fn accepts_what_breaks_no_rule(rt: HostRuntime) -> Result<(), Fail> {
    for (first, second, third) in [
        (PLATFORM, PAGE, NONE),
        (PLATFORM, CONTEXT, NONE),
        (PLATFORM, CONTEXT, &[0; 2]),
        (PLATFORM, CONTEXT, &[0; 4]),
        (PLATFORM, CONTEXT_24, NONE),
        (PLATFORM, CONTEXT_AT_76, NONE),
        (PLATFORM, CARRIED, NONE),
        (CARRIED, PLATFORM, POLICY),
        (PLATFORM, SECOND_PLATFORM, POLICY),
        (PLATFORM, AREA, INSERT_TOP),
    ] {
        assert_eq!(rt; judge(&rt, rt.alloc(), &[first, second, third])?, None);
    }
    Ok(())
}

#[test]
fn cuts_a_section(rt: HostRuntime) -> Result<(), Fail> {
    let section = [PLATFORM, CARRIED].concat(rt.alloc())?;
    for (size, want) in [
        (0, Some((24, ReadWhat::NoPlatform))),
        (23, Some((24, ReadWhat::HeaderCut))),
        (24, None),
        (31, Some((48, ReadWhat::HeaderCut))),
        (35, Some((48, ReadWhat::HeaderCut))),
        (36, None),
        (39, None),
        (40, None),
    ] {
        let (front, rest) = section.split_at(usize::min(size, section.len()));
        let mut file = image(rt.alloc(), front, 40 - size as u32)?;
        file.extend_from_slice(rest)?;
        file.extend_from_slice(b"trail")?;
        let want = want.map(|(at, what)| ReadFault { at, what });
        assert_eq!(rt; fault_of(&rt, &file), want, "at {size}");
    }
    Ok(())
}

/// One platform, and areas of 4,096 bytes with the indices from 0 on.
fn with_areas(alloc: Global, count: u32) -> Result<Vec<u8>, AllocError> {
    let mut section = PLATFORM.to_vec(alloc)?;
    for area in 0..count {
        section.extend_from_slice(&AREA[..16])?;
        section.extend_from_slice(&area.to_le_bytes())?;
        section.extend_from_slice(&[0; 4])?;
    }
    image(alloc, &section, 0)
}

/// One platform, and 2 MB pages of zeros at address 0.
fn with_large_pages(alloc: Global, count: u32) -> Result<Vec<u8>, AllocError> {
    let mut section = PLATFORM.to_vec(alloc)?;
    for _ in 0..count {
        section.extend_from_slice(
            b"\x02\x03\0\0\x18\0\0\0\0\0\0\0\0\0\0\0\
            \x01\0\0\0\0\0\0\0\x01\0\0\0\0\0\0\0",
        )?;
    }
    image(alloc, &section, 0)
}

#[test]
fn keeps_the_limits(rt: HostRuntime) -> Result<(), Fail> {
    let areas = with_areas(rt.alloc(), 256)?;
    assert_eq!(rt; fault_of(&rt, &areas), None);
    let areas = with_areas(rt.alloc(), 257)?;
    let what = ReadWhat::AreaLimit;
    assert_eq!(rt; fault_of(&rt, &areas), Some(ReadFault { at: 6192, what }));

    let pages = with_large_pages(rt.alloc(), 8192)?;
    assert_eq!(rt; fault_of(&rt, &pages), None);
    let pages = with_large_pages(rt.alloc(), 8193)?;
    let what = ReadWhat::TooManyPages;
    assert_eq!(rt; pages.len(), 262_224);
    assert_eq!(rt;
        fault_of(&rt, &pages),
        Some(ReadFault { at: 262_192, what })
    );
    Ok(())
}

/// An area of zeros, a page of data, and a context of which two bytes stand in the file.
fn viewed(alloc: Global) -> Result<Vec<u8>, AllocError> {
    let headers = [
        PLATFORM,
        b"\x01\x03\0\0\x10\0\0\0\0\x20\0\0\0\0\0\0\x07\0\0\0\0\0\0\0",
        b"\x02\x03\0\0\x18\0\0\0\0\x10\0\0\0\0\0\0\x01\0\0\0\x84\0\0\0\0\0\0\0\0\0\0\0",
        b"\x04\x03\0\0\x14\0\0\0\0\x20\0\0\0\0\0\0\x01\0\0\0\x82\x10\0\0\0\0\0\0",
    ];
    let mut file = image(alloc, &headers.concat(alloc)?, 4096)?;
    file.extend_from_slice(&[0xAB; 4096])?;
    file.extend_from_slice(b"behind the total size")?;
    Ok(file)
}

#[test]
fn views_an_accepted_file(rt: HostRuntime) -> Result<(), Fail> {
    let file = viewed(rt.alloc())?;
    assert!(rt; file.len() <= 536_870_912);
    let view = open_image(&file).ok().ok_or("refused")?;
    assert_eq!(rt;
        (
            view.fixed().var_offset,
            view.fixed().var_size,
            view.fixed().total
        ),
        (24, 108, 4228)
    );
    assert_eq!(rt; view.header_count(), 4);
    assert_eq!(rt; view.platforms().first_of(PlatformKind::SevSnp), Some(0));
    assert_eq!(rt;
        (view.area_bytes(7), view.area_bytes(0)),
        (Some(8192), None)
    );

    let mut headers = view.headers();
    for (index, at, length, pages, zero, byte) in [
        (0, 24, 16, 0, true, None),
        (1, 48, 16, 2, true, Some(0)),
        (2, 72, 24, 1, false, Some(0xAB)),
        (3, 104, 20, 1, false, Some(0xAB)),
    ] {
        let placed = headers.next().ok_or("none")?;
        assert_eq!(rt;
            (placed.index, placed.at, placed.raw.len()),
            (index, at, length)
        );
        assert_eq!(rt;
            (placed.content.pages(), placed.content.is_zero()),
            (pages, zero)
        );
        assert_eq!(rt; first_byte(&placed, 1), byte);
    }
    assert!(rt; headers.next().is_none());
    Ok(())
}

/// A byte of the first page of a header's data.
fn first_byte(placed: &Placed<'_>, i: usize) -> Option<u8> {
    if placed.content.pages() == 0 || i >= 4096 {
        return None;
    }
    Some(placed.content.page(0).byte(i))
}
