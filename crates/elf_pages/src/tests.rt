//! Files as tables: the first rule that each breaks, or its pages and their bytes.
use super::*;
use std::alloc::{AllocError, Global};
use std::process::Abort;
use std::test::Fail;

/// A program header at 64 with 4 bytes of the file at 120, at address 0x100FFE, and 0x1004 bytes in memory.
/// The virtual address is another one.
const ONE_SEGMENT: [u8; 124] = *b"\x7FELF\x02\x01\x01\0\0\0\0\0\0\0\0\0\x02\0\x3E\0\x01\0\0\0\
    \0\0\0\0\0\0\0\0\x40\0\0\0\0\0\0\0\0\0\0\0\0\0\0\0\0\0\0\0\x40\0\x38\0\x01\0\0\0\0\0\0\0\
    \x01\0\0\0\x07\0\0\0\x78\0\0\0\0\0\0\0\xFE\x4F\0\x80\xFF\xFF\xFF\xFF\xFE\x0F\x10\0\0\0\0\0\
    \x04\0\0\0\0\0\0\0\x04\x10\0\0\0\0\0\0\0\x10\0\0\0\0\0\0\xDE\xAD\xBE\xEF";

/// The first rule that a file breaks, and its item.
fn fault_of(rt: &impl Abort, file: &[u8]) -> Option<(u32, ElfWhat)> {
    assert!(rt; file.len() <= 536_870_912);
    let fault = open_elf(file).err()?;
    Some((fault.item, fault.what))
}

#[test]
fn gives_pages_and_bytes(rt: HostRuntime) -> Result<(), Fail> {
    let view = open_elf(&ONE_SEGMENT).ok().ok_or("refused")?;
    assert_eq!(rt; view.pages(), 3);
    for k in 0..view.pages() {
        let mut out = [7; 4096];
        view.fill(k, &mut out);
        let others = out[2..4094].iter().all(|byte| *byte == 0);
        let ends = [out[0], out[1], out[4094], out[4095]];
        let (gpa, filled, want) = match k {
            0 => (0x10_0000, true, [0, 0, 0xDE, 0xAD]),
            1 => (0x10_1000, true, [0xBE, 0xEF, 0, 0]),
            _ => (0x10_2000, false, [0; 4]),
        };
        assert_eq!(rt; (view.gpa(k), view.filled(k)), (gpa, filled));
        assert_eq!(rt; (ends, others), (want, true), "page {k}");
    }
    Ok(())
}

/// The file above with two of its bytes changed, each given by its place.
fn changed(first: (usize, u8), second: (usize, u8)) -> [u8; 124] {
    let mut file = ONE_SEGMENT;
    for (place, byte) in [first, second] {
        if place < 124 {
            file[place] = byte;
        }
    }
    file
}

#[test]
fn names_the_rule_of_the_file_header(rt: HostRuntime) {
    for (size, first, second, item, what) in [
        (0, (0, 0x7F), (0, 0x7F), 0, ElfWhat::TooShort),
        (63, (0, 0), (4, 1), 0, ElfWhat::TooShort),
        (124, (3, 0), (4, 1), 0, ElfWhat::Magic),
        (124, (4, 1), (18, 183), 0, ElfWhat::Class),
        (124, (5, 2), (18, 183), 0, ElfWhat::Class),
        (124, (18, 183), (18, 183), 0, ElfWhat::Machine),
        (124, (19, 1), (54, 55), 0, ElfWhat::Machine),
        (124, (54, 55), (96, 5), 0, ElfWhat::Table),
        (124, (54, 57), (96, 5), 0, ElfWhat::Table),
        // The program header ends at the end of the file, and one byte after it.
        (124, (32, 68), (32, 68), 0, ElfWhat::Empty),
        (124, (32, 69), (32, 69), 0, ElfWhat::Table),
        (119, (18, 62), (18, 62), 0, ElfWhat::Table),
        (124, (39, 0xFF), (56, 1), 0, ElfWhat::Table),
        (124, (56, 2), (96, 5), 0, ElfWhat::Table),
        // No program header: neither their size nor their offset is looked at.
        (124, (56, 0), (54, 55), 0, ElfWhat::Empty),
        (64, (56, 0), (39, 0xFF), 0, ElfWhat::Empty),
        (124, (64, 2), (96, 5), 0, ElfWhat::Empty),
        (124, (96, 5), (96, 5), 0, ElfWhat::Outside),
        (123, (18, 62), (18, 62), 0, ElfWhat::Outside),
    ] {
        let file = changed(first, second);
        let front = &file[..usize::min(size, 124)];
        assert_eq!(rt;
            fault_of(&rt, front),
            Some((item, what)),
            "{first:?} {second:?}"
        );
    }
    // A table that wraps at 2^64.
    let mut file = ONE_SEGMENT;
    file[32..40].fill(0xFF);
    assert_eq!(rt; fault_of(&rt, &file), Some((0, ElfWhat::Table)));
}

/// A program header's type, offset, address, bytes in the file and bytes in memory.
type Header = [u64; 5];

/// Not loadable.
const OTHER: Header = [6, 0, 0, 0, 4096];

/// Loadable, but for having no bytes in memory: it would break every rule.
const NOTHING: Header = [1, u64::MAX, u64::MAX, 5, 0];

/// A file of these program headers after a gap, and of data. All virtual addresses are 0x7000.
fn elf(alloc: Global, gap: &[u8], headers: &[Header], data: &[u8]) -> Result<Vec<u8>, AllocError> {
    let mut file = ONE_SEGMENT[..32].to_vec(alloc)?;
    let start = (gap.len() as u64).saturating_add(64);
    file.extend_from_slice(&start.to_le_bytes())?;
    file.extend_from_slice(&ONE_SEGMENT[40..56])?;
    file.extend_from_slice(&u16::try_from(headers.len()).unwrap_or(0).to_le_bytes())?;
    file.extend_from_slice(&ONE_SEGMENT[58..64])?;
    file.extend_from_slice(gap)?;
    for [kind, offset, address, file_bytes, memory_bytes] in headers {
        for field in [
            *kind,
            *offset,
            0x7000,
            *address,
            *file_bytes,
            *memory_bytes,
            1,
        ] {
            file.extend_from_slice(&field.to_le_bytes())?;
        }
    }
    file.extend_from_slice(data)?;
    Ok(file)
}

#[test]
fn names_the_first_segment_at_fault(rt: HostRuntime) -> Result<(), Fail> {
    let end = 1 << 52;
    // Three program headers, and 4 bytes of data at 232.
    for (headers, item, what) in [
        ([OTHER, NOTHING, [1, 233, end, 5, 4]], 2, ElfWhat::Sizes),
        ([[1, 233, end, 4, 4], OTHER, OTHER], 0, ElfWhat::Outside),
        ([[1, 232, end, 5, 5], OTHER, OTHER], 0, ElfWhat::Outside),
        (
            [[1, u64::MAX - 3, 0, 4, 4], OTHER, OTHER],
            0,
            ElfWhat::Outside,
        ),
        (
            [[1, 0, 0, u64::MAX, u64::MAX], OTHER, OTHER],
            0,
            ElfWhat::Outside,
        ),
        (
            [[1, 0, 0, 0, end], [1, 0, end, 0, 1], OTHER],
            1,
            ElfWhat::Wrap,
        ),
        ([[1, 0, 1, 0, end], OTHER, OTHER], 0, ElfWhat::Wrap),
        ([[1, 0, u64::MAX, 0, 1], OTHER, OTHER], 0, ElfWhat::Wrap),
        ([[1, 0, 2, 0, u64::MAX], OTHER, OTHER], 0, ElfWhat::Wrap),
        (
            [[1, 0, 8, 0, 8], [1, 0, 15, 0, 1], OTHER],
            1,
            ElfWhat::Overlap,
        ),
        (
            [[1, 0, 8, 0, 8], [1, 0, 1, 0, 8], OTHER],
            1,
            ElfWhat::Overlap,
        ),
        (
            [[1, 0, 8, 0, 8], [1, 0, 8, 0, 8], OTHER],
            1,
            ElfWhat::Overlap,
        ),
        (
            [[1, 0, 8, 0, 1], [1, 0, 0, 0, 64], OTHER],
            1,
            ElfWhat::Overlap,
        ),
        (
            [[1, 0, 0, 0, 64], OTHER, [1, 0, 8, 0, 1]],
            2,
            ElfWhat::Overlap,
        ),
        // Overlaps the first, with another between in the file, and one between in memory.
        (
            [[1, 0, 8, 0, 8], [1, 0, 64, 0, 8], [1, 0, 15, 0, 2]],
            2,
            ElfWhat::Overlap,
        ),
        (
            [[1, 0, 8, 0, 8], [1, 0, 64, 0, 8], [1, 0, 32, 0, 33]],
            2,
            ElfWhat::Overlap,
        ),
        // The first program header that breaks a rule decides, whichever rule it is.
        (
            [[1, 0, 8, 0, 8], [1, 0, 8, 0, 8], [1, 0, 8, 9, 8]],
            1,
            ElfWhat::Overlap,
        ),
        (
            [[1, 0, 0, 0, end], [1, 0, 8, 9, 8], OTHER],
            1,
            ElfWhat::Sizes,
        ),
        ([OTHER, NOTHING, OTHER], 0, ElfWhat::Empty),
    ] {
        let file = elf(rt.alloc(), b"", &headers, b"data")?;
        assert_eq!(rt; fault_of(&rt, &file), Some((item, what)), "{headers:?}");
    }
    Ok(())
}

/// How many pages a file has, and the addresses of the first and the last; None where it is refused.
fn pages_of(rt: &impl Abort, file: &[u8]) -> Option<(u32, u64, u64)> {
    assert!(rt; file.len() <= 536_870_912);
    let view = open_elf(file).ok()?;
    let count = view.pages();
    if count == 0 {
        return None;
    }
    Some((count, view.gpa(0), view.gpa(count - 1)))
}

#[test]
fn counts_pages(rt: HostRuntime) -> Result<(), Fail> {
    let end = 1 << 52;
    for (headers, count, first, last) in [
        ([[1, 0, 0, 0, 1], OTHER, NOTHING], 1, 0, 0),
        ([[1, 0, 4095, 0, 2], OTHER, NOTHING], 2, 0, 4096),
        ([[1, 0, 4096, 0, 4096], OTHER, OTHER], 1, 4096, 4096),
        // Its bytes in the file end where the file does; with none, the offset may be anything.
        ([[1, 232, 0, 4, 4], OTHER, OTHER], 1, 0, 0),
        ([[1, u64::MAX, 0, 0, 4], OTHER, OTHER], 1, 0, 0),
        (
            [[1, 0, end - 1, 0, 1], OTHER, OTHER],
            1,
            end - 4096,
            end - 4096,
        ),
        // Out of order, touching, in one page, with a gap of pages.
        (
            [[1, 0, 0x3000, 0, 1], [1, 0, 0x1000, 0, 1], OTHER],
            2,
            0x1000,
            0x3000,
        ),
        (
            [[1, 0, 0x1000, 0, 8], [1, 0, 0x1008, 0, 0xFF8], OTHER],
            1,
            0x1000,
            0x1000,
        ),
        (
            [[1, 0, 0x1FFF, 0, 2], [1, 0, 0x1000, 0, 1], OTHER],
            2,
            0x1000,
            0x2000,
        ),
        (
            [
                [1, 0, 0x9000, 0, 1],
                [1, 0, 1, 0, 1],
                [1, 0, 0x5800, 0, 0x800],
            ],
            3,
            0,
            0x9000,
        ),
        // As many pages as there may be.
        (
            [[1, 0, 0, 0, 0x2000_0000], OTHER, OTHER],
            131_072,
            0,
            0x1FFF_F000,
        ),
        (
            [[1, 0, end - 1, 0, 1], [1, 0, 0, 0, 0x1FFF_F000], OTHER],
            131_072,
            0,
            end - 4096,
        ),
    ] {
        let file = elf(rt.alloc(), b"", &headers, b"data")?;
        assert_eq!(rt;
            pages_of(&rt, &file),
            Some((count, first, last)),
            "{headers:?}"
        );
    }
    for headers in [
        [[1, 0, 0, 0, 0x2000_0001], OTHER, OTHER],
        [[1, 0, end - 1, 0, 1], [1, 0, 0, 0, 0x1FFF_F001], OTHER],
        [[1, 0, 0, 0, end], OTHER, OTHER],
    ] {
        let file = elf(rt.alloc(), b"", &headers, b"data")?;
        assert_eq!(rt; fault_of(&rt, &file), Some((0, ElfWhat::TooLarge)));
    }
    Ok(())
}

/// `count` loadable segments of one byte each, a page apart and each later one lower, and a last program
/// header. Some others stand between.
fn with_segments(alloc: Global, count: u64, last: Header) -> Result<Vec<u8>, AllocError> {
    let mut headers = Vec::new(alloc);
    headers.push(OTHER)?;
    for k in 0..count {
        headers.push([1, 0, u64::saturating_sub(200, k).saturating_mul(4096), 0, 1])?;
    }
    headers.push(OTHER)?;
    headers.push(last)?;
    elf(alloc, b"", &headers, b"")
}

#[test]
fn keeps_the_limit_of_segments(rt: HostRuntime) -> Result<(), Fail> {
    // Breaks every other rule on a segment.
    let worst = [1, u64::MAX, u64::MAX, 9, 8];
    for (count, last, fault) in [
        (63, worst, Some((65, ElfWhat::Sizes))),
        (64, worst, Some((66, ElfWhat::TooMany))),
        (65, worst, Some((65, ElfWhat::TooMany))),
        (63, [1, 0, 0, 0, 1], None),
        (64, OTHER, None),
    ] {
        let file = with_segments(rt.alloc(), count, last)?;
        assert_eq!(rt; fault_of(&rt, &file), fault, "{count} segments");
    }
    let file = with_segments(rt.alloc(), 64, NOTHING)?;
    assert_eq!(rt; pages_of(&rt, &file), Some((64, 137 * 4096, 200 * 4096)));
    Ok(())
}

/// The bytes of a page that aren't 0, each with its place in the page.
fn bytes_of(alloc: Global, page: &[u8]) -> Result<Vec<(usize, u8)>, AllocError> {
    let mut bytes = Vec::new(alloc);
    for (place, byte) in page.iter().enumerate() {
        if *byte != 0 {
            bytes.push((place, *byte))?;
        }
    }
    Ok(bytes)
}

#[test]
fn joins_segments_in_a_page(rt: HostRuntime) -> Result<(), Fail> {
    // The data are at 64 + 1 + 5 * 56 = 345, after program headers at an odd offset.
    let headers = [
        [1, 347, 0x5FFE, 4, 4],
        [1, 346, 0x5010, 2, 0x20],
        OTHER,
        [1, 345, 0x2004, 1, 0x1000],
        [1, 345, 0x5030, 1, 1],
    ];
    let file = elf(rt.alloc(), b"\xAA", &headers, b"ABCDEF")?;
    assert!(rt; file.len() <= 536_870_912);
    let view = open_elf(&file).ok().ok_or("refused")?;
    assert_eq!(rt; view.pages(), 4);
    for k in 0..view.pages() {
        let mut out = [7; 4096];
        view.fill(k, &mut out);
        let bytes = bytes_of(rt.alloc(), &out)?;
        let (gpa, want): (u64, &[(usize, u8)]) = match k {
            0 => (0x2000, &[(4, b'A')]),
            1 => (0x3000, &[]),
            2 => (
                0x5000,
                &[
                    (0x10, b'B'),
                    (0x11, b'C'),
                    (0x30, b'A'),
                    (0xFFE, b'C'),
                    (0xFFF, b'D'),
                ],
            ),
            _ => (0x6000, &[(0, b'E'), (1, b'F')]),
        };
        assert_eq!(rt; (view.gpa(k), view.filled(k)), (gpa, k != 1));
        assert_eq!(rt; bytes.as_slice(), want);
    }
    Ok(())
}
