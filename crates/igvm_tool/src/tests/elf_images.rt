//! Images of lists and ELF files. Their bytes and digests are from a program in Python, with zlib and
//! hashlib.
use super::{must_run, words_of};
use igvm_headers::Memory;
use igvm_jobs::Status;
use igvm_outside::{MemShelf, read_all};
use std::alloc::Global;
use std::process::Abort;
use std::test::Fail;

pub const PLATFORM: &str = r#"{"platforms":[{"kind":"snp","mask":1}],"directives":[]}"#;

/// An ELF file with one segment of 4 bytes, and of 4,100 in memory, from 0x100FFE on.
pub const ELF: &str = "7f454c46020100000000000000000000\
        02003e000000000000000000000000004000000000000000\
        000000000000000000000000400038000100000000000000\
        010000000000000078000000000000000000000000000000\
        fe0f100000000000040000000000000004100000000000000000000000000000\
        deadbeef";

/// The fixed header of the image, its platform, and its three pages.
const FRONT: &str = "4947564d0100000018000000780000009020000083f8a8b8\
        010000001000000001000000000201000000000000000000\
        0203000018000000000010000000000001000000900000000000000000000000\
        0203000018000000001010000000000001000000901000000000000000000000\
        0203000018000000002010000000000001000000000000000000000000000000";

const DIGEST: &str = "\
    f4da74bbe3b0c5fa04a7527d0e3949990be7f7955e719543\
    ca385a27de38b0152874ba47a6bc31df4823e5733189c303\n";

/// A list, and an ELF file written in hexadecimal digits.
pub fn shelf_with(alloc: Global, list: &str, elf: &[u8]) -> Result<MemShelf, Memory> {
    let mut shelf = MemShelf::new(alloc);
    shelf.put_file("LIST", list.as_bytes())?;
    shelf.put_file("ELF", elf)?;
    Ok(shelf)
}

/// The file with one byte changed.
fn changed(rt: &impl Abort, alloc: Global, at: usize, byte: u8) -> Result<Vec<u8>, Fail> {
    let mut elf = hex::decode(alloc, ELF)?;
    assert!(rt; at < elf.len());
    elf[at] = byte;
    Ok(elf)
}

#[test]
fn adds_the_pages(rt: HostRuntime) -> Result<(), Fail> {
    let build = words_of(rt.alloc(), "build-elf LIST ELF 1 OUT")?;
    let mut shelf = shelf_with(rt.alloc(), PLATFORM, &hex::decode(rt.alloc(), ELF)?)?;
    let built = (Status::Done, "built 8336 bytes\n", "");
    must_run(&rt, "build", rt.alloc(), &build, &mut shelf, built);
    let image = read_all(rt.alloc(), &mut shelf, "OUT", 8336)?;
    let mut want = hex::decode(rt.alloc(), FRONT)?;
    want.resize(144 + 4094, 0)?;
    want.extend_from_slice(&[0xDE, 0xAD, 0xBE, 0xEF])?;
    want.resize(8336, 0)?;
    assert_eq!(rt; image.as_slice(), want.as_slice());
    let measure = words_of(rt.alloc(), "measure OUT --platform snp")?;
    let measured = (Status::Done, DIGEST, "");
    must_run(&rt, "measure", rt.alloc(), &measure, &mut shelf, measured);
    Ok(())
}

#[test]
fn keeps_the_version(rt: HostRuntime) -> Result<(), Fail> {
    let list = r#"{"version":2,"platforms":[{"kind":"snp","mask":1}],"directives":[]}"#;
    let build = words_of(rt.alloc(), "build-elf LIST ELF 0 OUT")?;
    let mut shelf = shelf_with(rt.alloc(), list, &hex::decode(rt.alloc(), ELF)?)?;
    let built = (Status::Done, "built 8344 bytes\n", "");
    must_run(&rt, "build", rt.alloc(), &build, &mut shelf, built);
    let image = read_all(rt.alloc(), &mut shelf, "OUT", 8344)?;
    assert!(rt; image.as_slice().starts_with(b"IGVM\x02\0\0\0"));
    Ok(())
}

/// Where a byte is changed, to what, and the line that refuses the file.
static REFUSED: [(usize, u8, &str); 4] = [
    (0, 0, "igvm: elf refused at 0: magic\n"),
    (18, 183, "igvm: elf refused at 0: machine\n"),
    (96, 5, "igvm: elf refused at 0: outside\n"),
    (64, 2, "igvm: elf refused at 0: empty\n"),
];

#[test]
fn refuses_files(rt: HostRuntime) -> Result<(), Fail> {
    let build = words_of(rt.alloc(), "build-elf LIST ELF 1 OUT")?;
    for (at, byte, line) in &REFUSED {
        let elf = changed(&rt, rt.alloc(), *at, *byte)?;
        let mut shelf = shelf_with(rt.alloc(), PLATFORM, &elf)?;
        let want = (Status::File, "", *line);
        must_run(&rt, line, rt.alloc(), &build, &mut shelf, want);
    }
    Ok(())
}

/// 4,194,302 pages of zeros: three more are one too many.
const MANY: &str = r#"{"platforms":[{"kind":"snp","mask":1}],"directives":[
    {"do":"zero","mask":1,"gpa":"0x0","count":8191,"large":true},
    {"do":"zero","mask":1,"gpa":"0x0","count":510}]}"#;

#[test]
fn counts_the_pages(rt: HostRuntime) -> Result<(), Fail> {
    let build = words_of(rt.alloc(), "build-elf LIST ELF 1 OUT")?;
    let mut shelf = shelf_with(rt.alloc(), MANY, &hex::decode(rt.alloc(), ELF)?)?;
    let want = (Status::Limit, "", "igvm: limit: pages\n");
    must_run(&rt, "pages", rt.alloc(), &build, &mut shelf, want);
    Ok(())
}

// LIST is read and refused before ELF is, which is not there.
#[test]
fn reads_the_list_first(rt: HostRuntime) -> Result<(), Fail> {
    let build = words_of(rt.alloc(), "build-elf LIST ELF 1 OUT")?;
    let mut shelf = MemShelf::new(rt.alloc());
    shelf.put_file("LIST", b"")?;
    let want = (Status::Json, "", "igvm: json refused\n");
    must_run(&rt, "list", rt.alloc(), &build, &mut shelf, want);
    Ok(())
}
