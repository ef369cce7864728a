//! Contents whose byte i is i, so that a field's value tells its place and the order of its bytes.
use super::*;
use crate::{Digest, PageKind, PlatformKind};

// The fields that most records begin with.
const FIRST: u64 = 0x0706_0504_0302_0100;

const SECOND: u32 = 0x0B0A_0908;

const THIRD: u32 = 0x0F0E_0D0C;

fn counting<const N: usize>() -> [u8; N] {
    let mut bytes = [0; N];
    for (place, byte) in bytes.iter_mut().enumerate() {
        *byte = (place % 256) as u8;
    }
    bytes
}

fn page_content(flags: u32, data_type: u16) -> [u8; 24] {
    let [a, b, c, d] = flags.to_le_bytes();
    let [e, f] = data_type.to_le_bytes();
    [
        0, 1, 2, 3, 4, 5, 6, 7, 8, 9, 10, 11, 12, 13, 14, 15, a, b, c, d, e, f, 22, 23,
    ]
}

fn page_header(large: bool, unmeasured: bool, kind: PageKind) -> Header {
    Header::Page {
        gpa: FIRST,
        mask: SECOND,
        offset: THIRD,
        large,
        unmeasured,
        kind,
    }
}

fn context_header() -> Header {
    Header::Context {
        gpa: FIRST,
        mask: SECOND,
        offset: THIRD,
        vp: 0x1110,
    }
}

fn required_header() -> Header {
    Header::Required {
        gpa: FIRST,
        mask: SECOND,
        bytes: THIRD,
        flags: 0x1312_1110,
    }
}

fn platform_header() -> Header {
    Header::Platform {
        mask: 0x0302_0100,
        highest_vtl: 4,
        kind: PlatformKind::SevEs,
        version: 0x0706,
        shared_gpa: 0x0F0E_0D0C_0B0A_0908,
    }
}

#[test]
fn decodes_each_record(rt: HostRuntime) {
    for (kind, length, want) in [
        (0x001, 16, platform_header()),
        (
            0x101,
            16,
            Header::Policy {
                policy: FIRST,
                mask: SECOND,
            },
        ),
        (
            0x301,
            16,
            Header::Area {
                bytes: FIRST,
                area: SECOND,
                offset: THIRD,
            },
        ),
        (
            0x303,
            16,
            Header::Insert {
                gpa: FIRST,
                mask: SECOND,
                area: THIRD,
            },
        ),
        (0x304, 20, context_header()),
        (0x304, 24, context_header()),
        (0x305, 24, required_header()),
        (
            0x30D,
            16,
            Header::ErrorRange {
                gpa: FIRST,
                mask: SECOND,
                bytes: THIRD,
            },
        ),
    ] {
        assert!(rt; length <= 24);
        let bytes = counting::<24>();
        assert_eq!(rt;
            decode_header(kind, &bytes[..length]),
            Ok(want),
            "type {kind}"
        );
    }
}

#[test]
fn carries_any_length(rt: HostRuntime) {
    for (kind, length) in [(0x102, 0), (0x103, 5), (0x311, 24), (0x8000_0399, 4)] {
        assert!(rt; length <= 24);
        let bytes = counting::<24>();
        let want = Header::Carried {
            kind,
            length: length as u32,
        };
        assert_eq!(rt;
            decode_header(kind, &bytes[..length]),
            Ok(want),
            "type {kind}"
        );
    }
}

#[test]
fn decodes_each_parameter(rt: HostRuntime) {
    for (type_number, kind) in [
        (0x307, ParamKind::VpCount),
        (0x308, ParamKind::Srat),
        (0x309, ParamKind::Madt),
        (0x30A, ParamKind::MmioRanges),
        (0x30C, ParamKind::MemoryMap),
        (0x30E, ParamKind::CommandLine),
        (0x30F, ParamKind::Slit),
        (0x310, ParamKind::Pptt),
        (0x312, ParamKind::DeviceTree),
        (0x313, ParamKind::EnvironmentInfo),
    ] {
        let want = Header::Param {
            kind,
            area: 0x0302_0100,
            byte_offset: 0x0706_0504,
        };
        assert_eq!(rt; decode_header(type_number, &counting::<8>()), Ok(want));
    }
}

#[test]
fn decodes_an_id_block(rt: HostRuntime) {
    let bytes = counting::<696>();
    let want = Header::IdBlock {
        mask: 0x0302_0100,
        author_enabled: 4,
        ld: Digest::of_bytes([
            8, 9, 10, 11, 12, 13, 14, 15, 16, 17, 18, 19, 20, 21, 22, 23, 24, 25, 26, 27, 28, 29,
            30, 31, 32, 33, 34, 35, 36, 37, 38, 39, 40, 41, 42, 43, 44, 45, 46, 47, 48, 49, 50, 51,
            52, 53, 54, 55,
        ]),
        family_id: [
            56, 57, 58, 59, 60, 61, 62, 63, 64, 65, 66, 67, 68, 69, 70, 71,
        ],
        image_id: [
            72, 73, 74, 75, 76, 77, 78, 79, 80, 81, 82, 83, 84, 85, 86, 87,
        ],
        version: 0x5B5A_5958,
        guest_svn: 0x5F5E_5D5C,
        id_algorithm: 0x6362_6160,
        author_algorithm: 0x6766_6564,
    };
    assert_eq!(rt; decode_header(0x30B, &bytes), Ok(want));
    assert_eq!(rt; decode_header(0x30B, &bytes[1..]), Err(HeaderFault::Length));
}

#[test]
fn decodes_pages(rt: HostRuntime) {
    for (flags, data_type, want) in [
        (0, 0, Ok(page_header(false, false, PageKind::Normal))),
        (1, 0, Ok(page_header(true, false, PageKind::Normal))),
        (2, 1, Ok(page_header(false, true, PageKind::Secrets))),
        (2, 2, Ok(page_header(false, true, PageKind::Cpuid))),
        (0, 3, Ok(page_header(false, false, PageKind::CpuidXf))),
        (3, 0, Ok(page_header(true, true, PageKind::Normal))),
        (4, 0, Err(HeaderFault::Flags { bit: 2 })),
        (0x8000_0000, 4, Err(HeaderFault::Flags { bit: 31 })),
        (0x8000_0021, 1, Err(HeaderFault::Flags { bit: 5 })),
        (0, 4, Err(HeaderFault::DataType)),
        (1, 1, Err(HeaderFault::DataType)),
    ] {
        let content = page_content(flags, data_type);
        assert_eq!(rt;
            decode_header(0x302, &content),
            want,
            "flags {flags} type {data_type}"
        );
    }
}

#[test]
fn refuses_other_types_and_lengths(rt: HostRuntime) {
    for kind in [
        0,
        0x2,
        0x100,
        0x104,
        0x300,
        0x306,
        0x314,
        0x399,
        0x7FFF_FFFF,
    ] {
        assert_eq!(rt;
            decode_header(kind, &[]),
            Err(HeaderFault::UnknownType { kind })
        );
    }
    for (kind, length) in [
        (0x001, 15),
        (0x101, 12),
        (0x301, 17),
        (0x302, 20),
        (0x303, 24),
        (0x304, 22),
        (0x305, 16),
        (0x307, 9),
        (0x30B, 24),
        (0x30D, 0),
        (0x313, 7),
    ] {
        assert!(rt; length <= 24);
        let bytes: [u8; 24] = counting();
        assert_eq!(rt;
            decode_header(kind, &bytes[..length]),
            Err(HeaderFault::Length),
            "type {kind}"
        );
    }
    let mut platform: [u8; 16] = counting();
    platform[5] = 6;
    assert_eq!(rt;
        decode_header(0x001, &platform),
        Err(HeaderFault::PlatformType)
    );
}
