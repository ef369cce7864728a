//! Each call on one image, whose digests are those of Python's hashlib.
use crate::alike::igvm_measured_alike;
use crate::check::igvm_check;
use crate::digests::{LaunchDigest, SevDigest, igvm_measure, igvm_sev_measure};
use crate::fault::Fault;
use crate::headers::{HeaderFields, igvm_header};
use crate::pages::{PagesFields, igvm_pages};
use crate::platform::PlatformFields;
use crate::platforms::{igvm_first_platform, igvm_platform, igvm_platform_count};
use crate::texts::igvm_rule_text;

/// SEV-SNP, TDX and SEV under masks 1, 2 and 4, a page of zeros at 0x1000 for all, and for SEV a context, of which
/// the file has four bytes; with zlib's checksum.
const IMAGE: &[u8] = b"\
        \x49\x47\x56\x4d\x01\x00\x00\x00\x18\x00\x00\x00\x88\x00\x00\x00\xa4\x00\x00\x00\x51\x2c\x33\xce\
        \x01\x00\x00\x00\x10\x00\x00\x00\x01\x00\x00\x00\x00\x02\x01\x00\x00\x00\x00\x00\x00\x00\x00\x00\
        \x01\x00\x00\x00\x10\x00\x00\x00\x02\x00\x00\x00\x00\x03\x01\x00\x00\x00\x00\x00\x00\x00\x00\x00\
        \x01\x00\x00\x00\x10\x00\x00\x00\x04\x00\x00\x00\x00\x04\x01\x00\x00\x00\x00\x00\x00\x00\x00\x00\
        \x02\x03\x00\x00\x18\x00\x00\x00\x00\x10\x00\x00\x00\x00\x00\x00\x07\x00\x00\x00\x00\x00\x00\x00\
        \x00\x00\x00\x00\x00\x00\x00\x00\x04\x03\x00\x00\x14\x00\x00\x00\x00\xf0\xff\xff\xff\xff\x00\x00\
        \x04\x00\x00\x00\xa0\x00\x00\x00\x00\x00\x00\x00\x00\x00\x00\x00\x56\x4d\x53\x41";

/// The same, cut.
const BROKEN: &[u8] = b"IGVM\x01\0\0\0";

const SNP: [u8; 48] = *b"\
        \xe6\xe4\xd7\x89\x04\xd9\xd6\xb3\x3c\x0c\xbf\xd1\x21\x99\x8f\xd2\xd1\x17\x44\xda\xe6\x06\xb3\xae\
        \xe3\x5e\x2a\x45\xd6\x86\x9b\x60\xb3\x5c\x63\x92\x8a\x92\x32\xbe\xf7\x2d\x6b\xe3\x86\xf4\x8e\xc6";

/// The page as a ZERO page.
const SNP_NATIVE_ZERO: [u8; 48] = *b"\
        \x4b\xd4\x14\x79\x76\xa1\xe7\x55\x4c\x1c\x77\x8a\x78\x1a\xff\xc1\xc6\x72\xf1\x96\x5a\x72\x7b\xa1\
        \x60\x84\x98\x9b\x7e\x35\x60\x44\xa2\x8b\xbe\x58\x5a\x2f\x75\xda\xc9\x35\x6f\xa5\xab\x78\xf0\x61";

const TDX: [u8; 48] = *b"\
        \xca\x76\xd5\x54\x13\x28\xaf\xef\x8b\xc9\x36\x42\x61\xc5\x15\xae\xbe\xf9\x04\x12\xeb\xc5\x6c\xa0\
        \xc2\x26\x0e\xc5\x31\xa1\x44\x62\xcf\xc0\xc1\x1d\xe6\x1d\x84\x29\x2d\xdf\x8c\xa8\x71\xda\x1f\xf1";

const SEV: [u8; 32] = *b"\
        \xad\x7f\xac\xb2\x58\x6f\xc6\xe9\x66\xc0\x04\xd7\xd1\xd1\x6b\x02\x4f\x58\x05\xff\x7c\xb4\x7c\x7a\
        \x85\xda\xbd\x8b\x48\x89\x2c\xa7";

const NO_HEADER: HeaderFields = HeaderFields {
    at: 9,
    content_at: 9,
    length: 9,
    next: 9,
    number: 9,
    kind: 9,
};

const NO_PAGES: PagesFields = PagesFields {
    gpa: 9,
    count: 9,
    data_at: 9,
    data_size: 9,
};

const NO_PLATFORM: PlatformFields = PlatformFields {
    shared_gpa: 9,
    number: 9,
    mask: 9,
    kind: 9,
    version: 9,
    highest_vtl: 9,
};

#[test]
fn judges_files(rt: HostRuntime) {
    let old = Fault {
        at: 9,
        rule: 9,
        number: 9,
    };
    let too_short = Fault {
        at: 8,
        rule: 1,
        number: 0,
    };
    for (file, status, wanted) in [(IMAGE, 0, old), (BROKEN, 1, too_short)] {
        let mut fault = old;
        assert_eq!(rt; igvm_check(file, &mut fault), status);
        assert_eq!(rt; fault, wanted);
    }
}

#[test]
fn spells_rules(rt: HostRuntime) {
    for (rule, size, wanted) in [
        (1, 9, b"too short\0......"),
        (11, 13, b"unknown type \0.."),
        (26, 11, b"no platform\0...."),
        (27, 0, b"\0..............."),
    ] {
        let mut text = *b"................";
        assert_eq!(rt; igvm_rule_text(rule, &mut text), size);
        assert_eq!(rt; text, *wanted);
    }
    let mut text = *b".........";
    assert_eq!(rt; igvm_rule_text(1, &mut text), 9);
    assert_eq!(rt; text, *b".........");
}

#[test]
fn finds_platforms(rt: HostRuntime) {
    let mut count = 9;
    assert_eq!(rt; igvm_platform_count(IMAGE, &mut count), 0);
    assert_eq!(rt; count, 3);
    for (kind, status, number) in [(2, 0, 0), (3, 0, 1), (4, 0, 2), (5, 3, 9), (6, 8, 9)] {
        let mut first = 9;
        assert_eq!(rt; igvm_first_platform(IMAGE, kind, &mut first), status);
        assert_eq!(rt; first, number);
    }
    let tdx = PlatformFields {
        shared_gpa: 0,
        number: 1,
        mask: 2,
        kind: 3,
        version: 1,
        highest_vtl: 0,
    };
    for (number, status, wanted) in [(1, 0, tdx), (3, 3, NO_PLATFORM)] {
        let mut platform = NO_PLATFORM;
        assert_eq!(rt; igvm_platform(IMAGE, number, &mut platform), status);
        assert_eq!(rt; platform, wanted);
    }
}

#[test]
fn measures(rt: HostRuntime) {
    let old = [9; 48];
    for (file, platform, options, status, wanted) in [
        (IMAGE, 0, 0, 0, SNP),
        (IMAGE, 0, 1, 0, SNP_NATIVE_ZERO),
        (IMAGE, 1, 0, 0, TDX),
        (IMAGE, 1, 1, 0, TDX),
        (IMAGE, 2, 0, 4, old),
        (IMAGE, 3, 0, 3, old),
        (IMAGE, 0, 2, 8, old),
        (BROKEN, 0, 0, 1, old),
    ] {
        let mut digest = LaunchDigest { bytes: old };
        assert_eq!(rt; igvm_measure(file, platform, options, &mut digest), status);
        assert_eq!(rt; digest.bytes, wanted);
    }
    for (platform, status, wanted) in [(2, 0, SEV), (0, 4, [9; 32])] {
        let mut digest = SevDigest { bytes: [9; 32] };
        assert_eq!(rt; igvm_sev_measure(IMAGE, platform, &mut digest), status);
        assert_eq!(rt; digest.bytes, wanted);
    }
}

#[test]
fn compares_images(rt: HostRuntime) {
    for (first, second, status, wanted) in [
        (0, 0, 0, 1),
        (0, 1, 5, 9),
        (2, 2, 4, 9),
        (0, 3, 3, 9),
    ] {
        let mut alike = 9;
        assert_eq!(rt;
            igvm_measured_alike(IMAGE, first, IMAGE, second, 0, &mut alike),
            status
        );
        assert_eq!(rt; alike, wanted);
    }
}

#[test]
fn walks_over_headers(rt: HostRuntime) {
    for (at, status, kind, length, next, number) in [
        (0, 0, 1, 16, 48, 0),
        (24, 0, 1, 16, 48, 0),
        (48, 0, 1, 16, 72, 1),
        (72, 0, 1, 16, 96, 2),
        (96, 0, 0x302, 24, 128, 3),
        (128, 0, 0x304, 20, 0, 4),
        (25, 6, 9, 9, 9, 9),
        (160, 6, 9, 9, 9, 9),
    ] {
        let mut header = NO_HEADER;
        assert_eq!(rt; igvm_header(IMAGE, at, &mut header), status);
        assert_eq!(rt;
            (header.kind, header.length, header.next, header.number),
            (kind, length, next, number)
        );
    }
}

#[test]
fn finds_pages(rt: HostRuntime) {
    let zero = PagesFields {
        gpa: 0x1000,
        count: 1,
        data_at: 0,
        data_size: 0,
    };
    let context = PagesFields {
        gpa: 0xFFFF_FFFF_F000,
        count: 1,
        data_at: 160,
        data_size: 4,
    };
    for (at, status, wanted) in [
        (96, 0, zero),
        (128, 0, context),
        (0, 7, NO_PAGES),
        (97, 6, NO_PAGES),
    ] {
        let mut pages = NO_PAGES;
        assert_eq!(rt; igvm_pages(IMAGE, at, &mut pages), status);
        assert_eq!(rt; pages, wanted);
    }
}
