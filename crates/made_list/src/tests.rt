//! Small lists and their images, against numbers that a program in Python made of the same lists
//! with zlib.

use crate::{make_list, trial_host, trial_plan};
use component_list::Content;
use igvm_headers::{Header, ParamKind, crc32};
use image_builder::build;
use std::test::Fail;

#[test]
fn makes_a_list_of_four_pages(rt: HostRuntime) -> Result<(), Fail> {
    let list = make_list(rt.alloc(), 4)?;
    assert_eq!(rt; list.len(), 15);
    for (place, begin, last) in [
        (7, [0, 0, 0, 0, 4, 5], 79),
        (8, [1, 0, 0, 0, 5, 6], 80),
        (10, [3, 0, 0, 0, 7, 8], 82),
    ] {
        let page = list.component(place).ok_or("no component")?;
        assert!(rt;
            matches!(
                page.header,
                Header::Page {
                    unmeasured: false,
                    ..
                }
            )
        );
        let Content::Bytes(bytes) = &page.content else {
            return Err(Fail::new("no bytes"));
        };
        assert_eq!(rt; bytes.bytes().get(..6), Some(begin.as_slice()));
        assert_eq!(rt; bytes.bytes().last(), Some(&last));
    }
    Ok(())
}

/// Of each image the size, and the checksum of all its bytes.
#[test]
fn makes_lists_that_are_built(rt: HostRuntime) -> Result<(), Fail> {
    for (n, size, sum) in [
        (1, 8_536, 0xA4CE_854E),
        (4, 20_920, 0xA4D1_410B),
        (7, 33_304, 0x4D37_F92D),
    ] {
        if n < 1 || n > 100_000 {
            return Err(Fail::new("another number of pages"));
        }
        let image = build(rt.alloc(), &make_list(rt.alloc(), n)?)?;
        assert_eq!(rt; image.len(), size);
        assert_eq!(rt; crc32(image.as_slice()), sum);
    }
    Ok(())
}

#[test]
fn makes_a_host(rt: HostRuntime) -> Result<(), Fail> {
    let plan = trial_plan(rt.alloc())?;
    assert!(rt; plan.covers(0, 0x1_0000_0000));
    assert!(rt; !plan.covers(0, 0x1_0000_0001));
    let host = trial_host(rt.alloc())?;
    assert_eq!(rt;
        host.value(ParamKind::CommandLine),
        b"console=ttyS0".as_slice()
    );
    assert!(rt; host.secrets().is_empty());
    Ok(())
}
