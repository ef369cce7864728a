//! What images come to that fit, and images at the limits of a load.
use super::host::Host;
use super::images::*;
use crate::{Checked, IdWanted, Why};
use igvm_headers::Digest;
use std::test::Fail;

/// 4 GB.
const MEMORY: u64 = 0x1_0000_0000;

#[test]
fn counts_what_fits(rt: HostRuntime) -> Result<(), Fail> {
    let host = Host::new(rt.alloc(), MEMORY)?;
    let headers = [
        PLATFORMS,
        AREA_8192,
        PAGE_1,
        LARGE,
        INSERT,
        CONTEXT_1,
        CONTEXT_2,
        ID_BLOCK_1,
        ID_BLOCK_REST,
    ]
    .concat(rt.alloc())?;
    let id = IdWanted {
        index: 8,
        wanted: Digest::of_bytes([0x2A; 48]),
    };
    let snp = Checked {
        pages: 515,
        contexts: 2,
        area_bytes: 8192,
        id: Some(id),
    };
    let tdx = Checked {
        pages: 514,
        contexts: 0,
        area_bytes: 8192,
        id: None,
    };
    assert_eq!(rt; host.on_snp(&rt, &headers)?, Ok(snp));
    assert_eq!(rt; host.on_tdx(&rt, &headers)?, Ok(tdx));
    Ok(())
}

#[test]
fn places_as_many_pages_as_a_load_may(rt: HostRuntime) -> Result<(), Fail> {
    let host = Host::new(rt.alloc(), MEMORY)?;
    let mut headers = with_large_pages(rt.alloc(), 1024)?;
    assert_eq!(rt; host.snp_misfit(&rt, &headers)?, None);
    headers.extend_from_slice(AREA)?;
    headers.extend_from_slice(INSERT_2_GB)?;
    assert_eq!(rt;
        host.snp_misfit(&rt, &headers)?,
        Some((1026, Why::TooManyPages))
    );
    let headers = with_large_pages(rt.alloc(), 1025)?;
    assert_eq!(rt;
        host.snp_misfit(&rt, &headers)?,
        Some((1025, Why::TooManyPages))
    );
    Ok(())
}

// A body that compares pages by pairs doesn't end in time.
#[test]
fn finds_a_page_among_all(rt: HostRuntime) -> Result<(), Fail> {
    let host = Host::new(rt.alloc(), MEMORY)?;
    let mut headers = with_falling_pages(rt.alloc(), 524_288)?;
    assert_eq!(rt; host.snp_misfit(&rt, &headers)?, None);
    headers.extend_from_slice(PAGE_BELOW_2_GB)?;
    assert_eq!(rt;
        host.snp_misfit(&rt, &headers)?,
        Some((524_289, Why::Repeated))
    );
    Ok(())
}
