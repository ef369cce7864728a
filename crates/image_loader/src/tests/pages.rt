//! Single pages, large pages and a context: what stands in the machine, and its digest.
use super::digests::*;
use super::host::{Host, MEMORY, is_padded, rows_of};
use super::images::*;
use crate::LoadAnswer;
use crate::laws::{commands_agree, commands_place};
use igvm_headers::{Digest, Tag};
use launch_platform::{Launch, Phase};
use std::test::Fail;

#[test]
fn places_and_measures_a_page(rt: HostRuntime) -> Result<(), Fail> {
    commands_agree();
    commands_place();
    let host = Host::new(rt.alloc(), &[MEMORY])?;
    let data = pattern(rt.alloc())?;
    for (header, number, digest, tag, extended) in [
        (NONE, 0, SNP_NOTHING, None, false),
        (NONE, 1, TDX_NOTHING, None, false),
        (PAGE, 0, SNP_PAGE, Some(Tag::Normal), false),
        (PAGE, 1, TDX_PAGE, Some(Tag::Normal), true),
        (PAGE_DATA, 0, SNP_DATA, Some(Tag::Normal), false),
        (PAGE_DATA, 1, TDX_DATA, Some(Tag::Normal), true),
        (UNMEASURED, 0, SNP_UNMEASURED, Some(Tag::Unmeasured), false),
        (UNMEASURED, 1, TDX_UNMEASURED, Some(Tag::Unmeasured), false),
        // For the other platform alone.
        (PAGE_2, 0, SNP_NOTHING, None, false),
        (PAGE_1, 1, TDX_NOTHING, None, false),
        (CONTEXT_1, 1, TDX_NOTHING, None, false),
    ] {
        let headers = [SNP, TDX, header].concat(rt.alloc())?;
        let file = image(rt.alloc(), &headers, &data)?;
        let outcome = host.load(&rt, &file, number)?;
        let digest = Digest::of_bytes(digest);
        assert_eq!(rt; outcome.answer, Ok(Ok(LoadAnswer::Loaded(digest))));
        let machine = outcome.machine;
        assert!(rt; machine.phase() == Phase::Done && machine.digest() == Some(digest));
        assert_eq!(rt; machine.entries(), u32::from(tag.is_some()));
        assert_eq!(rt; machine.contexts(), 0);
        if let Some(entry) = machine.entry(0) {
            let found = (entry.gpa, entry.tag, entry.extended);
            assert_eq!(rt; found, (0x1000, tag, extended));
            if header == PAGE_DATA {
                assert!(rt; is_first_page(entry.page));
            } else {
                assert!(rt; is_padded(entry.page, NONE));
            }
        }
    }
    Ok(())
}

#[test]
fn places_a_large_page_in_512(rt: HostRuntime) -> Result<(), Fail> {
    let host = Host::new(rt.alloc(), &[MEMORY])?;
    let headers = [SNP, TDX, LARGE].concat(rt.alloc())?;
    let file = image(rt.alloc(), &headers, NONE)?;
    for (number, digest, extended) in [(0, SNP_LARGE, false), (1, TDX_LARGE, true)] {
        let outcome = host.load(&rt, &file, number)?;
        let digest = Digest::of_bytes(digest);
        assert_eq!(rt; outcome.answer, Ok(Ok(LoadAnswer::Loaded(digest))));
        let mut want = Vec::new(rt.alloc());
        for k in 0..512 {
            want.push((0x200000 + 4096 * k, Some(Tag::Normal), extended))?;
        }
        assert_eq!(rt; rows_of(rt.alloc(), &outcome.machine)?, want);
    }
    Ok(())
}

#[test]
fn adds_a_context_past_the_plan(rt: HostRuntime) -> Result<(), Fail> {
    let host = Host::new(rt.alloc(), &[MEMORY])?;
    let headers = [SNP, CONTEXT].concat(rt.alloc())?;
    let file = image(rt.alloc(), &headers, NONE)?;
    let outcome = host.load(&rt, &file, 0)?;
    let digest = Digest::of_bytes(SNP_CONTEXT);
    assert_eq!(rt; outcome.answer, Ok(Ok(LoadAnswer::Loaded(digest))));
    let machine = outcome.machine;
    assert!(rt; machine.entries() == 0 && machine.contexts() == 1);
    let context = machine.context_at(0).ok_or("no context")?;
    assert!(rt; context.vp == 0 && context.gpa == 0xFFFF_FFFF_F000);
    assert!(rt; is_padded(context.page, NONE));
    Ok(())
}
