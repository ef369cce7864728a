//! Each field at its offset: AMD64 Architecture Programmer's Manual, volume 2, appendix B.
use super::{page_of, text_of};
use std::alloc::Global;
use std::process::Abort;
use std::test::Fail;

/// A page that is 0 but for these bytes.
fn page_with(offset: usize, bytes: &[u8]) -> Option<[u8; 4096]> {
    let mut page = [0; 4096];
    page.get_mut(offset..)?
        .get_mut(..bytes.len())?
        .copy_from_slice(bytes);
    Some(page)
}

/// The text has a page with these bytes alone, and is the text of that page.
fn must_have(
    rt: &impl Abort,
    alloc: Global,
    text: &str,
    offset: usize,
    bytes: &[u8],
) -> Result<(), Fail> {
    let page = page_of(alloc, text)?;
    let want = page_with(offset, bytes).ok_or("outside")?;
    assert!(rt; page.as_slice() == want.as_slice(), "{text}");
    let back = text_of(alloc, &page)?;
    assert_eq!(rt; back.as_slice(), text.as_bytes());
    Ok(())
}

#[test]
fn segments(rt: HostRuntime) -> Result<(), Fail> {
    for (name, offset) in [
        ("es", 0x000),
        ("cs", 0x010),
        ("ss", 0x020),
        ("ds", 0x030),
        ("fs", 0x040),
        ("gs", 0x050),
        ("gdtr", 0x060),
        ("ldtr", 0x070),
        ("idtr", 0x080),
        ("tr", 0x090),
    ] {
        let text = format!(in rt.alloc();
            "{{\"{name}\":{{\"attributes\":17459,\"base\":\"0x10ffeeddccbbaa99\",\"limit\":2289526357,\"selector\":8721}}}}"
        )?;
        let bytes = b"\x11\x22\x33\x44\x55\x66\x77\x88\x99\xaa\xbb\xcc\xdd\xee\xff\x10".as_slice();
        must_have(&rt, rt.alloc(), text.as_str(), offset, bytes)?;
    }
    Ok(())
}

#[test]
fn numbers(rt: HostRuntime) -> Result<(), Fail> {
    for (name, offset) in [
        ("efer", 0x0D0),
        ("cr4", 0x148),
        ("cr3", 0x150),
        ("cr0", 0x158),
        ("dr7", 0x160),
        ("dr6", 0x168),
        ("rflags", 0x170),
        ("rip", 0x178),
        ("rsp", 0x1D8),
        ("rax", 0x1F8),
        ("g_pat", 0x268),
        ("sev_features", 0x3B0),
        ("xcr0", 0x3E8),
    ] {
        let text = format!(in rt.alloc(); "{{\"{name}\":\"0x8877665544332211\"}}")?;
        let bytes = b"\x11\x22\x33\x44\x55\x66\x77\x88".as_slice();
        must_have(&rt, rt.alloc(), text.as_str(), offset, bytes)?;
    }
    Ok(())
}
