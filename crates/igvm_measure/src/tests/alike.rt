//! Pairs of images that differ in one thing each.
ghost use Rattle.std.specs.Prelude.{◌≡◌, ◌⊎◌};

use super::images::{digest, image, pattern, platform};
use crate::measured_alike;
use igvm_headers::{Options, PlatformKind};
use igvm_image::open_image;
use platform_masks::Platform;
use std::alloc::{AllocError, Global};
use std::process::Abort;
use std::test::Fail;

/// What stands in an image: a header, or `count` pages without data in a row. Flag 2 of a page says that it
/// isn't measured; its kind is the data type.
#[derive(Clone, Copy)]
enum Part {
    Policy(u64),
    Area(u64),
    Page {
        gpa: u64,
        mask: u32,
        offset: u32,
        flags: u32,
        kind: u16,
    },
    Insert(u64),
    Context {
        gpa: u64,
        offset: u32,
        vp: u16,
    },
    Pages {
        gpa: u64,
        count: u32,
    },
}

/// Where the data begin: a page, the same with its first byte gone, and a page of zeros.
const DATA: u32 = 0x8000;

const PAGE: Part = Part::Page {
    gpa: 0x1000,
    mask: 3,
    offset: 0x8000,
    flags: 0,
    kind: 0,
};

const OTHER_BYTES: Part = Part::Page {
    gpa: 0x1000,
    mask: 3,
    offset: 0x8001,
    flags: 0,
    kind: 0,
};

const MOVED: Part = Part::Page {
    gpa: 0x2000,
    mask: 3,
    offset: 0x8000,
    flags: 0,
    kind: 0,
};

const FOR_TDX: Part = Part::Page {
    gpa: 0x1000,
    mask: 2,
    offset: 0x8000,
    flags: 0,
    kind: 0,
};

const UNMEASURED: Part = Part::Page {
    gpa: 0x1000,
    mask: 3,
    offset: 0x8000,
    flags: 2,
    kind: 0,
};

const OTHER_UNMEASURED: Part = Part::Page {
    gpa: 0x1000,
    mask: 3,
    offset: 0x8001,
    flags: 2,
    kind: 0,
};

const SECRETS: Part = Part::Page {
    gpa: 0x1000,
    mask: 3,
    offset: 0,
    flags: 0,
    kind: 1,
};

const CPUID: Part = Part::Page {
    gpa: 0x1000,
    mask: 3,
    offset: 0,
    flags: 0,
    kind: 2,
};

const WITHOUT_DATA: Part = Part::Page {
    gpa: 0x1000,
    mask: 3,
    offset: 0,
    flags: 0,
    kind: 0,
};

const ZEROS: Part = Part::Page {
    gpa: 0x1000,
    mask: 3,
    offset: 0xA000,
    flags: 0,
    kind: 0,
};

const LARGE: Part = Part::Page {
    gpa: 0x200000,
    mask: 3,
    offset: 0,
    flags: 1,
    kind: 0,
};

const SMALL: Part = Part::Pages {
    gpa: 0x200000,
    count: 512,
};

const ONE_LESS: Part = Part::Pages {
    gpa: 0x200000,
    count: 511,
};

const CONTEXT: Part = Part::Context {
    gpa: 0xFFFF_FFFF_F000,
    offset: 0x8000,
    vp: 0,
};

const OTHER_VP: Part = Part::Context {
    gpa: 0xFFFF_FFFF_F000,
    offset: 0x8000,
    vp: 1,
};

const MOVED_CONTEXT: Part = Part::Context {
    gpa: 0xFFFF_FFFF_E000,
    offset: 0x8000,
    vp: 0,
};

const OTHER_STATE: Part = Part::Context {
    gpa: 0xFFFF_FFFF_F000,
    offset: 0x8001,
    vp: 0,
};

/// Two images, and whether they measure the same pages: on SEV-SNP, there with zero pages of the firmware,
/// and on TDX.
#[derive(Drop)]
struct Pair {
    name: &'static str,
    one: &'static [Part],
    other: &'static [Part],
    snp: bool,
    native: bool,
    tdx: bool,
}

const PAIRS: [Pair; 19] = [
    Pair {
        name: "the same page",
        one: &[PAGE],
        other: &[PAGE],
        snp: true,
        native: true,
        tdx: true,
    },
    Pair {
        name: "the bytes of a measured page",
        one: &[PAGE],
        other: &[OTHER_BYTES],
        snp: false,
        native: false,
        tdx: false,
    },
    Pair {
        name: "the bytes of an unmeasured page",
        one: &[UNMEASURED],
        other: &[OTHER_UNMEASURED],
        snp: true,
        native: true,
        tdx: true,
    },
    Pair {
        name: "the order of two pages",
        one: &[PAGE, MOVED],
        other: &[MOVED, PAGE],
        snp: false,
        native: false,
        tdx: false,
    },
    Pair {
        name: "the unmeasured flag",
        one: &[PAGE],
        other: &[UNMEASURED],
        snp: false,
        native: false,
        tdx: false,
    },
    Pair {
        name: "a kind of page that TDX doesn't tell",
        one: &[SECRETS],
        other: &[CPUID],
        snp: false,
        native: false,
        tdx: true,
    },
    Pair {
        name: "an address",
        one: &[PAGE],
        other: &[MOVED],
        snp: false,
        native: false,
        tdx: false,
    },
    Pair {
        name: "a page more at the end",
        one: &[PAGE],
        other: &[PAGE, MOVED],
        snp: false,
        native: false,
        tdx: false,
    },
    Pair {
        name: "no page",
        one: &[],
        other: &[PAGE],
        snp: false,
        native: false,
        tdx: false,
    },
    Pair {
        name: "the number of a virtual processor",
        one: &[CONTEXT],
        other: &[OTHER_VP],
        snp: true,
        native: true,
        tdx: true,
    },
    Pair {
        name: "the address of a context",
        one: &[CONTEXT],
        other: &[MOVED_CONTEXT],
        snp: false,
        native: false,
        tdx: true,
    },
    Pair {
        name: "the state of a context",
        one: &[CONTEXT],
        other: &[OTHER_STATE],
        snp: false,
        native: false,
        tdx: true,
    },
    Pair {
        name: "no context",
        one: &[],
        other: &[CONTEXT],
        snp: false,
        native: false,
        tdx: true,
    },
    Pair {
        name: "a policy",
        one: &[Part::Policy(1), PAGE],
        other: &[Part::Policy(2), PAGE],
        snp: true,
        native: true,
        tdx: true,
    },
    Pair {
        name: "a mask that takes a page off SEV-SNP",
        one: &[PAGE],
        other: &[FOR_TDX],
        snp: false,
        native: false,
        tdx: true,
    },
    Pair {
        name: "a 2 MB page and 512 small ones",
        one: &[LARGE],
        other: &[SMALL],
        snp: true,
        native: true,
        tdx: true,
    },
    Pair {
        name: "a 2 MB page and 511 small ones",
        one: &[LARGE],
        other: &[ONE_LESS],
        snp: false,
        native: false,
        tdx: false,
    },
    Pair {
        name: "zeros in the file and none",
        one: &[ZEROS],
        other: &[WITHOUT_DATA],
        snp: true,
        native: false,
        tdx: true,
    },
    Pair {
        name: "an area put where an unmeasured page is",
        one: &[Part::Area(4096), Part::Insert(0x1000)],
        other: &[UNMEASURED],
        snp: true,
        native: true,
        tdx: true,
    },
];

/// Appends the header of a page.
fn put_page(
    out: &mut Vec<u8>,
    gpa: u64,
    mask: u32,
    offset: u32,
    flags: u32,
    kind: u16,
) -> Result<(), AllocError> {
    out.extend_from_slice(b"\x02\x03\0\0\x18\0\0\0")?;
    out.extend_from_slice(&gpa.to_le_bytes())?;
    out.extend_from_slice(&mask.to_le_bytes())?;
    out.extend_from_slice(&offset.to_le_bytes())?;
    out.extend_from_slice(&flags.to_le_bytes())?;
    out.extend_from_slice(&u32::from(kind).to_le_bytes())
}

/// Appends the headers of `count` pages in a row.
fn put_pages(out: &mut Vec<u8>, gpa: u64, count: u32) -> Result<(), AllocError> {
    for k in 0..count {
        put_page(out, gpa.saturating_add(4096 * u64::from(k)), 3, 0, 0, 0)?;
    }
    Ok(())
}

/// Appends the header of a context.
fn put_context(out: &mut Vec<u8>, gpa: u64, offset: u32, vp: u16) -> Result<(), AllocError> {
    out.extend_from_slice(b"\x04\x03\0\0\x14\0\0\0")?;
    out.extend_from_slice(&gpa.to_le_bytes())?;
    out.extend_from_slice(&3u32.to_le_bytes())?;
    out.extend_from_slice(&offset.to_le_bytes())?;
    out.extend_from_slice(&u32::from(vp).to_le_bytes())?;
    out.extend_from_slice(&[0; 4])
}

/// Appends the headers of a part.
fn put_part(out: &mut Vec<u8>, part: Part) -> Result<(), AllocError> {
    match part {
        Part::Policy(policy) => {
            out.extend_from_slice(b"\x01\x01\0\0\x10\0\0\0")?;
            out.extend_from_slice(&policy.to_le_bytes())?;
            out.extend_from_slice(b"\x03\0\0\0\0\0\0\0")
        }
        Part::Area(bytes) => {
            out.extend_from_slice(b"\x01\x03\0\0\x10\0\0\0")?;
            out.extend_from_slice(&bytes.to_le_bytes())?;
            out.extend_from_slice(&[0; 8])
        }
        Part::Page {
            gpa,
            mask,
            offset,
            flags,
            kind,
        } => put_page(out, gpa, mask, offset, flags, kind),
        Part::Insert(gpa) => {
            out.extend_from_slice(b"\x03\x03\0\0\x10\0\0\0")?;
            out.extend_from_slice(&gpa.to_le_bytes())?;
            out.extend_from_slice(b"\x03\0\0\0\0\0\0\0")
        }
        Part::Context { gpa, offset, vp } => put_context(out, gpa, offset, vp),
        Part::Pages { gpa, count } => put_pages(out, gpa, count),
    }
}

/// The image of these parts.
fn file_of(alloc: Global, parts: &[Part]) -> Result<Vec<u8>, AllocError> {
    let mut headers = Vec::new(alloc);
    for part in parts {
        put_part(&mut headers, *part)?;
    }
    let mut data = pattern(alloc, 0x2000)?;
    data.extend_from_slice(&[0; 4096])?;
    image(alloc, &headers, DATA as usize, &data)
}

/// The two files measure the same pages for a platform of both. Their digests are the same exactly there.
fn assert_alike(
    rt: &impl Abort,
    files: (&[u8], &[u8]),
    platform: Platform,
    options: Options,
    want: bool,
    name: &str,
)
    requires { (platform.kind ≡ PlatformKind.SevSnp) ⊎ (platform.kind ≡ PlatformKind.Tdx) }
{
    let (one, other) = files;
    let same = digest(rt, one, platform, options) == digest(rt, other, platform, options);
    assert_eq!(rt; same, want, "digests: {name}");
    assert!(rt; one.len() <= 536_870_912 && other.len() <= 536_870_912);
    let first = open_image(one).expect(rt, "a file that breaks no rule");
    let second = open_image(other).expect(rt, "a file that breaks no rule");
    let there = measured_alike(&first, platform, &second, platform, options);
    let back = measured_alike(&second, platform, &first, platform, options);
    assert_eq!(rt; (there, back), (want, want), "pages: {name}");
}

#[test]
fn compares_images(rt: HostRuntime) -> Result<(), Fail> {
    let snp = platform(1, PlatformKind::SevSnp);
    let tdx = platform(2, PlatformKind::Tdx);
    let plain = Options::plain();
    let native = Options { native_zero: true };
    for pair in &PAIRS {
        let one = file_of(rt.alloc(), pair.one)?;
        let other = file_of(rt.alloc(), pair.other)?;
        assert_alike(&rt, (&one, &other), snp, plain, pair.snp, pair.name);
        assert_alike(&rt, (&one, &other), snp, native, pair.native, pair.name);
        assert_alike(&rt, (&one, &other), tdx, plain, pair.tdx, pair.name);
        assert_alike(&rt, (&one, &other), tdx, native, pair.tdx, pair.name);
    }
    Ok(())
}
