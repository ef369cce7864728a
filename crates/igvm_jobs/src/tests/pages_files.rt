//! The pages file of a load.
use super::load_images::{AREA, CONTEXT, EMPTY, PAGE, SECRETS, TWO};
use super::loads::{MEMORY, VALUES};
use super::{run, words_of};
use crate::status::Status;
use igvm_outside::{MemShelf, MemSink, read_all};
use launch_platform::MemLaunch;
use std::alloc::Global;
use std::test::Fail;

/// FILE, HOST, the words behind `--platform`, and OUT: the bytes that each record begins with, where zeros
/// follow to its end. None where OUT is not there.
static LOADS: [(&str, &str, &str, Option<&[&str]>); 6] = [
    (EMPTY, MEMORY, "snp --image OUT", Some(&[])),
    (
        PAGE,
        MEMORY,
        "snp --image OUT",
        Some(&["0010000000000000000000000000000000"]),
    ),
    (
        PAGE,
        MEMORY,
        "snp --native-zero --image OUT",
        Some(&["0010000000000000040000000000000000"]),
    ),
    (
        AREA,
        VALUES,
        "snp --image OUT",
        Some(&["0030000000000000010000000000000061625859"]),
    ),
    (
        SECRETS,
        VALUES,
        "snp --image OUT",
        Some(&[
            "0010000000000000000000000000000000",
            "0020000000000000020000000000000001",
            "0030000000000000030000000000000003",
            "0040000000000000010000000000000061626364",
        ]),
    ),
    (TWO, MEMORY, "0 --image OUT", None),
];

/// A pages file whose records begin so.
fn records(alloc: Global, fronts: &[&str]) -> Result<Vec<u8>, Fail> {
    let mut file = Vec::new(alloc);
    for front in fronts {
        let front = hex::decode(alloc, front)?;
        file.extend_from_slice(&front)?;
        file.resize(file.len() + (4112 - usize::min(front.len(), 4112)), 0)?;
    }
    Ok(file)
}

/// What OUT holds after a load, where it is there.
fn image_of(
    alloc: Global,
    file: &[u8],
    host: &str,
    asked: &str,
) -> Result<(Status, Option<Vec<u8>>), Fail> {
    let text = format!(in alloc; "load FILE HOST --platform {asked}")?;
    let words = words_of(alloc, text.as_str())?;
    let mut shelf = MemShelf::new(alloc);
    shelf.put_file("FILE", file)?;
    shelf.put_file("HOST", host.as_bytes())?;
    shelf.set_piece(1000);
    let mut out = MemSink::new(alloc);
    let mut err = MemSink::new(alloc);
    let mut machine = MemLaunch::new(alloc);
    let status = run(alloc, &words, &mut shelf, &mut out, &mut err, &mut machine);
    Ok((status, read_all(alloc, &mut shelf, "OUT", 100_000).ok()))
}

#[test]
fn writes_pages_files(rt: HostRuntime) -> Result<(), Fail> {
    for (image, host, asked, want) in &LOADS {
        let file = hex::decode(rt.alloc(), image)?;
        let (status, written) = image_of(rt.alloc(), &file, host, asked)?;
        match want {
            Some(fronts) => {
                assert_eq!(rt; status, Status::Done, "{asked}");
                assert_eq!(rt; written, Some(records(rt.alloc(), fronts)?), "{asked}");
            }
            None => {
                assert_eq!(rt; status, Status::NotFit, "{asked}");
                assert!(rt; written.is_none(), "{asked}");
            }
        }
    }
    Ok(())
}

/// A context's data end with the file, and zeros follow.
#[test]
fn writes_a_context(rt: HostRuntime) -> Result<(), Fail> {
    let file = hex::decode(rt.alloc(), CONTEXT)?;
    let (status, written) = image_of(rt.alloc(), &file, MEMORY, "snp --image OUT")?;
    assert_eq!(rt; status, Status::Done);
    let want = records(rt.alloc(), &["00f0ffffffff00000500030000000000"])?;
    assert_eq!(rt; written, Some(want));
    Ok(())
}

/// OUT may be FILE or HOST, which were read before.
#[test]
fn writes_over_what_was_read(rt: HostRuntime) -> Result<(), Fail> {
    let file = hex::decode(rt.alloc(), PAGE)?;
    for name in ["FILE", "HOST"] {
        let text = format!(in rt.alloc(); "load FILE HOST --platform snp --image {name}")?;
        let words = words_of(rt.alloc(), text.as_str())?;
        let mut shelf = MemShelf::new(rt.alloc());
        shelf.put_file("FILE", &file)?;
        shelf.put_file("HOST", MEMORY.as_bytes())?;
        let mut out = MemSink::new(rt.alloc());
        let mut err = MemSink::new(rt.alloc());
        let mut machine = MemLaunch::new(rt.alloc());
        let status = run(
            rt.alloc(),
            &words,
            &mut shelf,
            &mut out,
            &mut err,
            &mut machine,
        );
        assert_eq!(rt; status, Status::Done, "{name}");
        let written = read_all(rt.alloc(), &mut shelf, name, 100_000).ok();
        let want = records(rt.alloc(), &["0010000000000000000000000000000000"])?;
        assert_eq!(rt; written, Some(want), "{name}");
    }
    Ok(())
}
