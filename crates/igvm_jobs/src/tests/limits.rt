//! The limits on files, areas and pages, and files that are not there.
use super::{must_run, numbered, shelf_of, words_of};
use crate::status::Status;
use igvm_outside::{MadeShelf, MemShelf};
use std::test::Fail;

/// The bytes before areas, for 256 and for 257 of them: the fixed header, and a TDX platform.
const BEFORE_256_AREAS: &str = "4947564d0100000018000000181800003018000034dc6310\
        010000001000000001000000000301000000000000000000";

const BEFORE_257_AREAS: &str = "4947564d01000000180000003018000048180000f6a89dad\
        010000001000000001000000000301000000000000000000";

/// The same before 2 MB pages of zeros at address 0.
const BEFORE_8192_PAGES: &str = "4947564d01000000180000001800040030000400a9cd2783\
        010000001000000001000000000301000000000000000000";

const BEFORE_8193_PAGES: &str = "4947564d01000000180000003800040050000400ea2ff22c\
        010000001000000001000000000301000000000000000000";

/// The bytes of an area of 4,096 zeros before and behind its index.
const AREA: (&[u8], &[u8]) = (b"\x01\x03\0\0\x10\0\0\0\0\x10\0\0\0\0\0\0", b"\0\0\0\0");

/// The bytes of a 2 MB page of zeros at address 0 before and behind its mask.
const PAGE: (&[u8], &[u8]) = (
    b"\x02\x03\0\0\x18\0\0\0\0\0\0\0\0\0\0\0",
    b"\0\0\0\0\x01\0\0\0\0\0\0\0",
);

#[test]
fn keeps_the_limits_of_an_image(rt: HostRuntime) -> Result<(), Fail> {
    let alloc = rt.alloc();
    let no_platform = (Status::Platform, "", "igvm: no platform snp\n");
    let areas = (
        Status::File,
        "",
        "igvm: file refused at 6192: too many areas\n",
    );
    let pages = (
        Status::File,
        "",
        "igvm: file refused at 262192: too many pages\n",
    );
    let words = words_of(alloc, "measure FILE --platform snp")?;
    for (start, header, count, want) in [
        (BEFORE_256_AREAS, AREA, 256, no_platform),
        (BEFORE_257_AREAS, AREA, 257, areas),
        (BEFORE_8192_PAGES, PAGE, 8192, no_platform),
        (BEFORE_8193_PAGES, PAGE, 8193, pages),
    ] {
        let mut shelf = shelf_of(alloc, &numbered(alloc, start, header, count)?)?;
        must_run(&rt, start, alloc, &words, &mut shelf, want);
    }
    Ok(())
}

#[test]
fn refuses_what_is_missing(rt: HostRuntime) -> Result<(), Fail> {
    let magic = (Status::File, "", "igvm: file refused at 0: magic\n");
    let outside = (Status::Outside, "", "igvm: outside fault: shelf\n");
    for (text, want) in [
        ("print made-24", magic),
        ("measure made-24 --platform 0", magic),
        ("print FILE", outside),
        ("measure FILE --platform tdx", outside),
    ] {
        let words = words_of(rt.alloc(), text)?;
        let mut shelf = MadeShelf::new(MemShelf::new(rt.alloc()));
        must_run(&rt, text, rt.alloc(), &words, &mut shelf, want);
    }
    Ok(())
}

// Each job that reads a file of a byte too many has a test of its own, since reading takes seconds.
#[test]
fn prints_no_long_file(rt: HostRuntime) -> Result<(), Fail> {
    let words = words_of(rt.alloc(), "print made-536870913")?;
    let mut shelf = MadeShelf::new(MemShelf::new(rt.alloc()));
    let want = (Status::Limit, "", "igvm: limit: file\n");
    must_run(&rt, "print", rt.alloc(), &words, &mut shelf, want);
    Ok(())
}

#[test]
fn measures_no_long_file(rt: HostRuntime) -> Result<(), Fail> {
    let words = words_of(rt.alloc(), "measure made-536870913 --platform snp")?;
    let mut shelf = MadeShelf::new(MemShelf::new(rt.alloc()));
    let want = (Status::Limit, "", "igvm: limit: file\n");
    must_run(&rt, "measure", rt.alloc(), &words, &mut shelf, want);
    Ok(())
}
