//! Headers and their bytes, written by hand from the table of records; numbers at their limits.
ghost use Rattle.std.specs.Prelude.{IsTrue};
ghost use Rattle.igvm_headers.specs.SpellingConditions.{TailFits, LargeIsNormal, KindIsCarried};
ghost use Rattle.igvm_headers.specs.declared.header.Header.TheVariants.{Carried};

use super::*;
use crate::{Digest, PageKind, ParamKind, PlatformKind};
use std::test::*;

// What stands in front of a header, which is to be kept.
const FRONT: &[u8] = b"\x07\x08\x09";

const NONE: &[u8] = b"";

// What a caller owes, which each row of a table is asked for.
fn is_spellable(h: &Header, tail: &[u8]) -> bool
    ensures tail { IsTrue result → TailFits h.now tail.now }
    ensures large { IsTrue result → LargeIsNormal h.now }
    ensures kind { IsTrue result → KindIsCarried h.now }
{
    match *h {
        Header::Page { large, kind, .. } => tail.is_empty() && (!large || kind == PageKind::Normal),
        Header::IdBlock { .. } => tail.len() == 592,
        Header::Carried { kind, length } => tail.len() == length as usize && is_carried(kind),
        _ => tail.is_empty(),
    }
}

fn is_carried(kind: u32) -> bool
    ensures { IsTrue result → KindIsCarried (Carried kind 0) }
{
    kind == 0x102 || kind == 0x103 || kind == 0x311 || kind >= 0x8000_0000
}

#[test]
fn encodes_each_record(rt: HostRuntime) -> Result<(), Fail> {
    let cases: [(Header, &[u8]); 8] = [
        (
            Header::Platform {
                mask: 1,
                highest_vtl: 0,
                kind: PlatformKind::SevSnp,
                version: 1,
                shared_gpa: 0,
            },
            b"\x01\0\0\0\x10\0\0\0\x01\0\0\0\0\x02\x01\0\0\0\0\0\0\0\0\0",
        ),
        (
            Header::Platform {
                mask: 0x0403_0201,
                highest_vtl: 255,
                kind: PlatformKind::SevEs,
                version: 0x0706,
                shared_gpa: 0x0F0E_0D0C_0B0A_0908,
            },
            b"\x01\0\0\0\x10\0\0\0\x01\x02\x03\x04\xFF\x05\x06\x07\x08\x09\x0A\x0B\x0C\x0D\x0E\x0F",
        ),
        (
            Header::Policy {
                policy: 0xFFFF_FFFF_FFFF_FFFF,
                mask: 0x8000_0000,
            },
            b"\x01\x01\0\0\x10\0\0\0\xFF\xFF\xFF\xFF\xFF\xFF\xFF\xFF\0\0\0\x80\0\0\0\0",
        ),
        (
            Header::Area {
                bytes: 0x0102_0304_0506_0708,
                area: 0xFFFF_FFFF,
                offset: 680,
            },
            b"\x01\x03\0\0\x10\0\0\0\x08\x07\x06\x05\x04\x03\x02\x01\xFF\xFF\xFF\xFF\xA8\x02\0\0",
        ),
        (
            Header::Insert {
                gpa: 0x4000,
                mask: 3,
                area: 255,
            },
            b"\x03\x03\0\0\x10\0\0\0\0\x40\0\0\0\0\0\0\x03\0\0\0\xFF\0\0\0",
        ),
        (
            Header::Context {
                gpa: 0xFFFF_FFFF_F000,
                mask: 1,
                offset: 0x0102_0304,
                vp: 0xFFFE,
            },
            b"\x04\x03\0\0\x14\0\0\0\0\xF0\xFF\xFF\xFF\xFF\0\0\x01\0\0\0\
            \x04\x03\x02\x01\xFE\xFF\0\0\0\0\0\0",
        ),
        (
            Header::Required {
                gpa: 0,
                mask: 7,
                bytes: 0x100_0000,
                flags: 0x0102_0304,
            },
            b"\x05\x03\0\0\x18\0\0\0\0\0\0\0\0\0\0\0\x07\0\0\0\0\0\0\x01\x04\x03\x02\x01\0\0\0\0",
        ),
        (
            Header::ErrorRange {
                gpa: 0x2000,
                mask: 16,
                bytes: 0xFFFF_FFFF,
            },
            b"\x0D\x03\0\0\x10\0\0\0\0\x20\0\0\0\0\0\0\x10\0\0\0\xFF\xFF\xFF\xFF",
        ),
    ];
    for (header, want) in cases {
        let mut out = Vec::from_slice(rt.alloc(), FRONT)?;
        assert!(rt; is_spellable(&header, NONE));
        assert_eq!(rt; encode_header(&header, NONE, &mut out), Ok(()));
        let mut whole = Vec::from_slice(rt.alloc(), FRONT)?;
        whole.extend_from_slice(want)?;
        assert_eq!(rt; out.as_slice(), whole.as_slice(), "{header:?}");
    }
    Ok(())
}

// A page up to its flags.
const PAGE: &[u8] = b"\x02\x03\0\0\x18\0\0\0\0\0\xE0\xFF\xFF\xFF\xFF\xFF\x01\0\0\0\xA1\xA2\xA3\xA4";

#[test]
fn encodes_pages(rt: HostRuntime) -> Result<(), Fail> {
    let cases: [(bool, bool, PageKind, &[u8]); 6] = [
        (false, false, PageKind::Normal, b"\0\0\0\0\0\0\0\0"),
        (true, false, PageKind::Normal, b"\x01\0\0\0\0\0\0\0"),
        (true, true, PageKind::Normal, b"\x03\0\0\0\0\0\0\0"),
        (false, true, PageKind::Secrets, b"\x02\0\0\0\x01\0\0\0"),
        (false, false, PageKind::Cpuid, b"\0\0\0\0\x02\0\0\0"),
        (false, true, PageKind::CpuidXf, b"\x02\0\0\0\x03\0\0\0"),
    ];
    for (large, unmeasured, kind, want) in cases {
        let header = Header::Page {
            gpa: 0xFFFF_FFFF_FFE0_0000,
            mask: 1,
            offset: 0xA4A3_A2A1,
            large,
            unmeasured,
            kind,
        };
        let mut out = Vec::new(rt.alloc());
        assert!(rt; is_spellable(&header, NONE));
        assert_eq!(rt; encode_header(&header, NONE, &mut out), Ok(()));
        let mut whole = Vec::from_slice(rt.alloc(), PAGE)?;
        whole.extend_from_slice(want)?;
        assert_eq!(rt; out.as_slice(), whole.as_slice());
    }
    Ok(())
}

#[test]
fn encodes_each_parameter(rt: HostRuntime) -> Result<(), Fail> {
    for (kind, low) in [
        (ParamKind::VpCount, 0x07),
        (ParamKind::Srat, 0x08),
        (ParamKind::Madt, 0x09),
        (ParamKind::MmioRanges, 0x0A),
        (ParamKind::MemoryMap, 0x0C),
        (ParamKind::CommandLine, 0x0E),
        (ParamKind::Slit, 0x0F),
        (ParamKind::Pptt, 0x10),
        (ParamKind::DeviceTree, 0x12),
        (ParamKind::EnvironmentInfo, 0x13),
    ] {
        let header = Header::Param {
            kind,
            area: 0x0403_0201,
            byte_offset: 0xFFFF_FF00,
        };
        let mut out = Vec::new(rt.alloc());
        assert_eq!(rt; encode_header(&header, NONE, &mut out), Ok(()));
        let want = [low, 3, 0, 0, 8, 0, 0, 0, 1, 2, 3, 4, 0, 255, 255, 255];
        assert_eq!(rt; out.as_slice(), want.as_slice());
    }
    Ok(())
}

#[test]
fn encodes_what_is_carried(rt: HostRuntime) -> Result<(), Fail> {
    let cases: [(u32, &[u8], &[u8]); 5] = [
        (
            0x8000_0399,
            b"\x01\x02\x03\x04",
            b"\x99\x03\0\x80\x04\0\0\0\x01\x02\x03\x04\0\0\0\0",
        ),
        (0x102, b"", b"\x02\x01\0\0\0\0\0\0"),
        (0x103, b"\xFF", b"\x03\x01\0\0\x01\0\0\0\xFF\0\0\0\0\0\0\0"),
        (0x311, b"12345678", b"\x11\x03\0\0\x08\0\0\x0012345678"),
        (
            0xFFFF_FFFF,
            b"123456789",
            b"\xFF\xFF\xFF\xFF\x09\0\0\x00123456789\0\0\0\0\0\0\0",
        ),
    ];
    for (kind, tail, want) in cases {
        let header = Header::Carried {
            kind,
            length: tail.len() as u32,
        };
        let mut out = Vec::new(rt.alloc());
        assert!(rt; is_spellable(&header, tail));
        assert_eq!(rt; encode_header(&header, tail, &mut out), Ok(()));
        assert_eq!(rt; out.as_slice(), want, "type {kind}");
    }
    Ok(())
}

// An ID block up to its keys and signatures.
const ID_BLOCK: &[u8] = b"\x0B\x03\0\0\xB8\x02\0\0\x01\x02\x03\x04\x01\0\0\0\
    llllllllllllllllllllllllllllllllllllllllllllllll\
    ffffffffffffffffiiiiiiiiiiiiiiii\
    \x05\x06\x07\x08\x09\x0A\x0B\x0C\x01\0\0\0\xFF\xFF\xFF\xFF";

#[test]
fn encodes_an_id_block(rt: HostRuntime) -> Result<(), Fail> {
    let header = Header::IdBlock {
        mask: 0x0403_0201,
        author_enabled: 1,
        ld: Digest::of_bytes([b'l'; 48]),
        family_id: [b'f'; 16],
        image_id: [b'i'; 16],
        version: 0x0807_0605,
        guest_svn: 0x0C0B_0A09,
        id_algorithm: 1,
        author_algorithm: 0xFFFF_FFFF,
    };
    let mut out = Vec::new(rt.alloc());
    assert_eq!(rt; encode_header(&header, &[b'k'; 592], &mut out), Ok(()));
    let mut whole = Vec::from_slice(rt.alloc(), ID_BLOCK)?;
    whole.extend_from_slice(&[b'k'; 592])?;
    assert_eq!(rt; out.as_slice(), whole.as_slice());
    Ok(())
}
