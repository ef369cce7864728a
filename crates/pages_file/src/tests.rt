//! The file of a small launch beside records written by hand, and what each failing call leaves.
use super::*;
use igvm_headers::{PageView, PlatformKind, Tag};
use igvm_outside::{MemShelf, read_all};
use launch_platform::{Launch, MemLaunch};
use std::alloc::Global;
use std::test::Fail;

// A launch on SEV-SNP with a page of zeros by this tag, a page that was placed alone, and a context.
fn launch_by(alloc: Global, tag: Tag) -> Result<MemLaunch, Fail> {
    let mut machine = MemLaunch::new(alloc);
    machine.start(PlatformKind::SevSnp, 2, 1)?;
    let slot = machine.place(0x1000, PageView::zero())?;
    machine.add(slot, tag)?;
    machine.place(0x1_2345_6000, PageView::of_bytes(b"alone"))?;
    machine.context(3, 0xFFFF_FFFF_F000, PageView::of_bytes(b"state"))?;
    machine.finish(None)?;
    Ok(machine)
}

// These bytes stand at a place.
fn stand_at(file: &[u8], place: usize, bytes: &[u8]) -> bool {
    match file.get(place..) {
        Some(rest) => rest.starts_with(bytes),
        None => false,
    }
}

#[test]
fn records_are_written_in_order(rt: HostRuntime) -> Result<(), Fail> {
    for (tag, kind) in [
        (Tag::Normal, 0),
        (Tag::Unmeasured, 1),
        (Tag::Secrets, 2),
        (Tag::Cpuid, 3),
        (Tag::Zero, 4),
    ] {
        let machine = launch_by(rt.alloc(), tag)?;
        let mut shelf = MemShelf::new(rt.alloc());
        shelf.put_file("other", b"other")?;
        shelf.set_piece(1000);
        write_pages(&mut shelf, "pages", &machine)?;

        let file = read_all(rt.alloc(), &mut shelf, "pages", 65_536)?;
        let first = [0, 0x10, 0, 0, 0, 0, 0, 0, kind, 0, 0, 0, 0, 0, 0, 0, 0];
        let second = b"\0\x60\x45\x23\x01\0\0\0\xff\0\0\0\0\0\0\0alone\0";
        let third = b"\0\xf0\xff\xff\xff\xff\0\0\x05\0\x03\0\0\0\0\0state\0";
        assert_eq!(rt; file.len(), 12_336);
        assert!(rt; stand_at(&file, 0, &first), "by {kind}");
        assert!(rt; stand_at(&file, 4112, second), "by {kind}");
        assert!(rt; stand_at(&file, 8224, third), "by {kind}");
        let other = read_all(rt.alloc(), &mut shelf, "other", 9)?;
        assert_eq!(rt; other.as_slice(), b"other".as_slice());
    }
    // A law: nothing runs.
    pages_file_size();
    Ok(())
}

// The calls are create, a write for each record, and close. There was a file of four bytes.
#[test]
fn a_fault_leaves_a_front(rt: HostRuntime) -> Result<(), Fail> {
    let machine = launch_by(rt.alloc(), Tag::Normal)?;
    for (failing, want) in [
        (0, 12_336),
        (1, 4),
        (2, 0),
        (3, 4112),
        (4, 8224),
        (5, 12_336),
    ] {
        let mut shelf = MemShelf::new(rt.alloc());
        shelf.put_file("pages", b"past")?;
        shelf.fail_call(failing)?;
        let is_whole = write_pages(&mut shelf, "pages", &machine).is_ok();
        let file = read_all(rt.alloc(), &mut shelf, "pages", 65_536)?;
        assert_eq!(rt; is_whole, failing == 0, "at {failing}");
        assert_eq!(rt; file.len(), want, "at {failing}");
    }
    Ok(())
}
