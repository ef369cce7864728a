//! Each call once on its happy path, at few slots and at many, and the memory that dropping gives back.
use super::*;
use std::fs;
use std::test::Fail;

// With its one allocation refused this test fails, and with a later one refused it passes.
#[test]
fn takes_one_block(rt: HostRuntime) -> Result<(), Fail> {
    let mut region = GuestRegion::new(rt.alloc(), 3)?;
    assert_eq!(rt; region.page(0), [0u8; 4096].as_slice());
    assert_eq!(rt; region.page(1), [0u8; 4096].as_slice());
    assert_eq!(rt; region.page(2), [0u8; 4096].as_slice());
    region.write(2, PageView::of_bytes([0xAA; 4096].as_slice()));
    assert_eq!(rt; region.slots(), 3);
    let mut out = [0u8; 4096];
    region.copy_out(2, &mut out);
    assert_eq!(rt; out, [0xAA; 4096]);
    Ok(())
}

#[test]
fn keeps_pages_apart(rt: HostRuntime) -> Result<(), Fail> {
    let none = GuestRegion::new(rt.alloc(), 0)?;
    assert_eq!(rt; none.slots(), 0);

    let mut region = GuestRegion::new(rt.alloc(), 2)?;
    assert_eq!(rt; region.slots(), 2);
    assert_eq!(rt; region.page(0), [0u8; 4096].as_slice());
    assert_eq!(rt; region.page(1), [0u8; 4096].as_slice());

    region.write(0, PageView::of_bytes([0xAA; 4096].as_slice()));
    assert_eq!(rt; region.page(0), [0xAA; 4096].as_slice());
    assert_eq!(rt; region.page(1), [0u8; 4096].as_slice());

    region.write(1, PageView::of_bytes([0x55; 4096].as_slice()));
    region.write(1, PageView::of_bytes([1, 2, 3].as_slice()));
    let mut out = [0xFFu8; 4096];
    region.copy_out(1, &mut out);
    assert_eq!(rt; &out[..3], [1, 2, 3].as_slice());
    assert_eq!(rt; &out[3..], [0; 4093].as_slice());
    region.copy_out(0, &mut out);
    assert_eq!(rt; out, [0xAA; 4096]);
    Ok(())
}

#[test]
fn makes_many_slots(rt: HostRuntime) -> Result<(), Fail> {
    let mut region = GuestRegion::new(rt.alloc(), 65_536)?;
    assert_eq!(rt; region.slots(), 65_536);
    assert_eq!(rt; region.page(65_535), [0u8; 4096].as_slice());
    region.write(65_535, PageView::of_bytes([0xAA; 4096].as_slice()));
    assert_eq!(rt; region.slots(), 65_536);
    assert_eq!(rt; region.page(65_534), [0u8; 4096].as_slice());
    assert_eq!(rt; region.page(65_535), [0xAA; 4096].as_slice());
    Ok(())
}

// How much memory the system counts for this process, in pages of 4,096 bytes: the first number of
// Linux's `statm`.
fn memory_pages(rt: HostRuntime) -> Result<u64, Fail> {
    let counts = fs::read_to_string(&rt, "/proc/self/statm")?;
    let size = counts.as_str().split(' ').next().ok_or("no count")?;
    Ok(size.parse::<u64>()?)
}

// Regions of 64 MB, one after the other. If they were kept they would take 1 GB; half of that is
// left to a runtime that gives memory back late.
#[test]
fn gives_its_memory_back(rt: HostRuntime) -> Result<(), Fail> {
    let before = memory_pages(rt)?;
    for _ in 0..16 {
        let region = GuestRegion::new(rt.alloc(), 16_384)?;
        assert_eq!(rt; region.slots(), 16_384);
    }
    let after = memory_pages(rt)?;
    assert!(rt;
        after.saturating_sub(before) < 131_072,
        "from {before} to {after}"
    );
    Ok(())
}
