//! Images made of images. Their bytes are from a program in Python, with zlib and hashlib.
use super::{must_run, words_of};
use igvm_jobs::Status;
use igvm_outside::{MemShelf, read_all};
use std::alloc::Global;
use std::test::Fail;

/// One SEV-SNP platform, of mask 1.
const SNP: &str = "4947564d01000000180000001800000030000000e5d3ab67\
        010000001000000001000000000201000000000000000000";

/// The same, and a page of zeros.
const PAGE: &str = "4947564d010000001800000038000000500000005c30ae5e\
        010000001000000001000000000201000000000000000000\
        0203000018000000001000000000000001000000000000000000000000000000";

/// An SEV-SNP and a TDX platform, and a page of zeros for both.
const BOTH: &str = "4947564d01000000180000005000000068000000a9846376\
        010000001000000001000000000201000000000000000000\
        010000001000000002000000000301000000000000000000\
        0203000018000000001000000000000003000000000000000000000000000000";

/// The front of an image of one SEV-SNP platform, a page of zeros and an ID block, up to the digest that
/// the block wants. That is zeros here, and so is all behind it.
const UNSEALED: &str = "4947564d0100000018000000f8020000100300008d80b1b0\
        010000001000000001000000000201000000000000000000\
        0203000018000000001000000000000001000000000000000000000000000000\
        0b030000b80200000100000000000000";

/// The sealed image, up to and with the digest that its block wants then; all behind it is zeros.
const SEALED: &str = "4947564d0100000018000000f80200001003000011771387\
        010000001000000001000000000201000000000000000000\
        0203000018000000001000000000000001000000000000000000000000000000\
        0b030000b80200000100000000000000\
        e6e4d78904d9d6b33c0cbfd121998fd2d11744dae606b3aee35e2a45d6869b60b35c63928a9232bef72d6be386f48ec6";

/// What is made: the words, the name of the file that is written, the line, and the image.
static MADE: [(&str, &str, &str, &str); 6] = [
    (
        "join SNP SNP OUT",
        "OUT",
        "built 72 bytes\n",
        "4947564d010000001800000030000000480000001b2fd48f\
        010000001000000001000000000201000000000000000000\
        010000001000000002000000000201000000000000000000",
    ),
    (
        "join SNP PAGE OUT",
        "OUT",
        "built 104 bytes\n",
        "4947564d01000000180000005000000068000000c3e3189f\
        010000001000000001000000000201000000000000000000\
        010000001000000002000000000201000000000000000000\
        0203000018000000001000000000000002000000000000000000000000000000",
    ),
    (
        "join PAGE SNP PAGE",
        "PAGE",
        "built 104 bytes\n",
        "4947564d010000001800000050000000680000003157d0b6\
        010000001000000001000000000201000000000000000000\
        010000001000000002000000000201000000000000000000\
        0203000018000000001000000000000001000000000000000000000000000000",
    ),
    (
        "strip BOTH OUT --platform tdx",
        "OUT",
        "built 80 bytes\n",
        "4947564d010000001800000038000000500000003147a776\
        010000001000000002000000000301000000000000000000\
        0203000018000000001000000000000002000000000000000000000000000000",
    ),
    (
        "strip BOTH OUT --platform 0",
        "OUT",
        "built 80 bytes\n",
        PAGE,
    ),
    (
        "strip SNP SNP --platform snp",
        "SNP",
        "built 48 bytes\n",
        SNP,
    ),
];

/// The images that are read.
pub fn put_images(alloc: Global, shelf: &mut MemShelf) -> Result<(), Fail> {
    for (name, file) in [("SNP", SNP), ("PAGE", PAGE), ("BOTH", BOTH)] {
        shelf.put_file(name, &hex::decode(alloc, file)?)?;
    }
    shelf.put_file("BLOCK", &with_zeros(alloc, UNSEALED)?)?;
    Ok(())
}

fn shelf_of(alloc: Global) -> Result<MemShelf, Fail> {
    let mut shelf = MemShelf::new(alloc);
    put_images(alloc, &mut shelf)?;
    Ok(shelf)
}

/// The image of an ID block, from its front.
fn with_zeros(alloc: Global, front: &str) -> Result<Vec<u8>, Fail> {
    let mut file = hex::decode(alloc, front)?;
    file.resize(784, 0)?;
    Ok(file)
}

#[test]
fn makes_images_of_images(rt: HostRuntime) -> Result<(), Fail> {
    for (text, target, line, image) in &MADE {
        let words = words_of(rt.alloc(), text)?;
        let mut shelf = shelf_of(rt.alloc())?;
        let want = (Status::Done, *line, "");
        must_run(&rt, text, rt.alloc(), &words, &mut shelf, want);
        let got = read_all(rt.alloc(), &mut shelf, target, 1000)?;
        let image = hex::decode(rt.alloc(), image)?;
        assert_eq!(rt; got.as_slice(), image.as_slice(), "{text}");
    }
    Ok(())
}

/// What is measured of the joined image: the page counts for the second platform alone.
static MEASURED: [(&str, &str); 2] = [
    (
        "measure OUT --platform 0",
        "000000000000000000000000000000000000000000000000\
        000000000000000000000000000000000000000000000000\n",
    ),
    (
        "measure OUT --platform 1",
        "e6e4d78904d9d6b33c0cbfd121998fd2d11744dae606b3ae\
        e35e2a45d6869b60b35c63928a9232bef72d6be386f48ec6\n",
    ),
];

#[test]
fn keeps_digests(rt: HostRuntime) -> Result<(), Fail> {
    let mut shelf = shelf_of(rt.alloc())?;
    let join = words_of(rt.alloc(), "join SNP PAGE OUT")?;
    let built = (Status::Done, "built 104 bytes\n", "");
    must_run(&rt, "join", rt.alloc(), &join, &mut shelf, built);
    for (text, digest) in &MEASURED {
        let words = words_of(rt.alloc(), text)?;
        let want = (Status::Done, *digest, "");
        must_run(&rt, text, rt.alloc(), &words, &mut shelf, want);
    }
    Ok(())
}

#[test]
fn seals_an_image(rt: HostRuntime) -> Result<(), Fail> {
    let seal = words_of(rt.alloc(), "seal BLOCK OUT --platform snp")?;
    let mut shelf = shelf_of(rt.alloc())?;
    let built = (Status::Done, "built 784 bytes\n", "");
    must_run(&rt, "seal", rt.alloc(), &seal, &mut shelf, built);
    let image = read_all(rt.alloc(), &mut shelf, "OUT", 784)?;
    let want = with_zeros(rt.alloc(), SEALED)?;
    assert_eq!(rt; image.as_slice(), want.as_slice());
    Ok(())
}

/// Why nothing is made.
static REFUSED: [(&str, Status, &str); 7] = [
    (
        "strip SNP OUT --platform 1",
        Status::Platform,
        "igvm: no platform 1\n",
    ),
    (
        "strip SNP OUT --platform tdx",
        Status::Platform,
        "igvm: no platform tdx\n",
    ),
    (
        "seal BOTH OUT --platform tdx",
        Status::Platform,
        "igvm: no seal for tdx\n",
    ),
    (
        "seal PAGE OUT --platform snp",
        Status::Platform,
        "igvm: no id block\n",
    ),
    (
        "seal HOST OUT --platform snp",
        Status::File,
        "igvm: file refused at 2: too short\n",
    ),
    (
        "join HOST NONE OUT",
        Status::File,
        "igvm: file refused at 2: too short\n",
    ),
    (
        "join SNP NONE OUT",
        Status::Outside,
        "igvm: outside fault: shelf\n",
    ),
];

#[test]
fn says_why_nothing_is_made(rt: HostRuntime) -> Result<(), Fail> {
    for (text, status, line) in &REFUSED {
        let words = words_of(rt.alloc(), text)?;
        let mut shelf = shelf_of(rt.alloc())?;
        shelf.put_file("HOST", b"{}")?;
        let want = (*status, "", *line);
        must_run(&rt, text, rt.alloc(), &words, &mut shelf, want);
        assert!(rt;
            read_all(rt.alloc(), &mut shelf, "OUT", 1000).is_err(),
            "{text}"
        );
    }
    Ok(())
}

/// Images of 2, 4, 8, 16 and 17 platforms, one after the other, and one of 32; 33 are too many.
static JOINED: [(&str, Status, &str, &str); 7] = [
    ("join SNP SNP TWO", Status::Done, "built 72 bytes\n", ""),
    ("join TWO TWO FOUR", Status::Done, "built 120 bytes\n", ""),
    (
        "join FOUR FOUR EIGHT",
        Status::Done,
        "built 216 bytes\n",
        "",
    ),
    (
        "join EIGHT EIGHT SIXTEEN",
        Status::Done,
        "built 408 bytes\n",
        "",
    ),
    (
        "join SIXTEEN SNP MORE",
        Status::Done,
        "built 432 bytes\n",
        "",
    ),
    (
        "join SIXTEEN SIXTEEN OUT",
        Status::Done,
        "built 792 bytes\n",
        "",
    ),
    (
        "join SIXTEEN MORE OUT",
        Status::Limit,
        "",
        "igvm: limit: platforms\n",
    ),
];

#[test]
fn counts_the_platforms(rt: HostRuntime) -> Result<(), Fail> {
    let mut shelf = shelf_of(rt.alloc())?;
    for (text, status, out, err) in &JOINED {
        let words = words_of(rt.alloc(), text)?;
        let want = (*status, *out, *err);
        must_run(&rt, text, rt.alloc(), &words, &mut shelf, want);
    }
    Ok(())
}
