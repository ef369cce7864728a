//! The option `native_zero`: which pages the firmware fills with zeros.
use super::digests::*;
use super::host::{Host, MEMORY, is_padded};
use super::images::*;
use crate::LoadAnswer;
use igvm_headers::{Digest, Options, Tag};
use launch_platform::Launch;
use std::test::Fail;

#[test]
fn the_file_offset_decides(rt: HostRuntime) -> Result<(), Fail> {
    let host = Host::new(rt.alloc(), &[MEMORY])?;
    for (header, number, native_zero, digest, tag) in [
        (PAGE, 0, false, SNP_PAGE, Tag::Normal),
        (PAGE, 0, true, SNP_ZERO, Tag::Zero),
        (PAGE, 1, false, TDX_PAGE, Tag::Normal),
        (PAGE, 1, true, TDX_PAGE, Tag::Normal),
        // These zeros stand in the file.
        (PAGE_DATA, 0, false, SNP_PAGE, Tag::Normal),
        (PAGE_DATA, 0, true, SNP_PAGE, Tag::Normal),
        (UNMEASURED, 0, true, SNP_UNMEASURED, Tag::Unmeasured),
    ] {
        let headers = [SNP, TDX, header].concat(rt.alloc())?;
        let file = image(rt.alloc(), &headers, &page_of(rt.alloc(), 0)?)?;
        let outcome = host.load_with(&rt, &file, number, Options { native_zero })?;
        let digest = Digest::of_bytes(digest);
        assert_eq!(rt; outcome.answer, Ok(Ok(LoadAnswer::Loaded(digest))));
        let entry = outcome.machine.entry(0).ok_or("no entry")?;
        assert_eq!(rt; entry.tag, Some(tag));
        assert!(rt; is_padded(entry.page, NONE));
    }
    Ok(())
}
