//! Images that `prepare` refuses, beside such as it just doesn't. After a refusal the machine is idle.
use super::host::{Host, MEMORY};
use super::images::*;
use crate::PrepareRefusal;
use directive_rules::Why;
use host_set::PlanRange;
use igvm_headers::PlatformKind;
use launch_platform::{Launch, Phase};
use std::process::Abort;
use std::test::Fail;

/// Guest memory from 0 to 0x2000.
const SMALL: PlanRange = PlanRange {
    start: 0,
    bytes: 0x2000,
};

/// The first page of it.
const FIRST: PlanRange = PlanRange {
    start: 0,
    bytes: 0x1000,
};

/// What follows it, up to 4 MB.
const REST: PlanRange = PlanRange {
    start: 0x1000,
    bytes: 0x3FF000,
};

/// The misfit of these headers, with zeros as data, for a platform; or how many pages and contexts stand in the
/// machine.
fn judged(
    rt: &impl Abort,
    host: &Host,
    headers: &[u8],
    number: u32,
) -> Result<Result<(u32, u32), (u32, Why)>, Fail> {
    let file = image(host.alloc, headers, &page_of(host.alloc, 0)?)?;
    let outcome = host.load(rt, &file, number)?;
    let machine = outcome.machine;
    match outcome.answer {
        Ok(_) => Ok(Ok((machine.entries(), machine.contexts()))),
        Err(PrepareRefusal::Misfit(misfit)) => {
            assert!(rt; machine.phase() == Phase::Idle && machine.entries() == 0);
            Ok(Err((misfit.index, misfit.why)))
        }
        Err(_) => Err("refused".into()),
    }
}

#[test]
fn judges_by_masks(rt: HostRuntime) -> Result<(), Fail> {
    let host = Host::new(rt.alloc(), &[MEMORY])?;
    let repeated = Err((3, Why::Repeated));
    let gone = Err((4, Why::AreaGone));
    for (first, second, third, number, want) in [
        (PAGE_2, NONE, NONE, 0, Ok((0, 0))),
        (PAGE_2, NONE, NONE, 1, Ok((1, 0))),
        (PAGE_1, PAGE_2, NONE, 0, Ok((1, 0))),
        (PAGE_1, PAGE_2, NONE, 1, Ok((1, 0))),
        (PAGE_1, PAGE, NONE, 0, repeated),
        (PAGE_1, PAGE, NONE, 1, Ok((1, 0))),
        (AREA, INSERT_1, INSERT_2, 0, Ok((1, 0))),
        (AREA, INSERT_1, INSERT_2, 1, Ok((1, 0))),
        (AREA, INSERT_1, INSERT_5000, 0, gone),
        (AREA, INSERT_1, INSERT_5000, 1, Ok((1, 0))),
        (AREA, INSERT_1, COMMAND_LINE, 0, gone),
        (AREA, INSERT_1, COMMAND_LINE, 1, Ok((0, 0))),
    ] {
        let headers = [SNP, SNP_2, first, second, third].concat(rt.alloc())?;
        assert_eq!(rt; judged(&rt, &host, &headers, number)?, want);
    }
    Ok(())
}

#[test]
fn judges_by_the_plan(rt: HostRuntime) -> Result<(), Fail> {
    let outside = Err((1, Why::Outside));
    for (ranges, header, want) in [
        ([SMALL].as_slice(), PAGE, Ok((1, 0))),
        (&[SMALL], PAGE_2000, outside),
        (&[SMALL], PAGE_TOP, outside),
        (&[SMALL], LARGE_TOP, outside),
        (&[SMALL], CONTEXT, Ok((0, 1))),
        (&[FIRST, REST], LARGE, Ok((512, 0))),
        (&[FIRST, REST], REQUIRED, Ok((0, 0))),
        (&[FIRST], REQUIRED, outside),
    ] {
        let host = Host::new(rt.alloc(), ranges)?;
        let headers = [SNP, header].concat(rt.alloc())?;
        assert_eq!(rt; judged(&rt, &host, &headers, 0)?, want);
    }
    Ok(())
}

#[test]
fn judges_by_the_kind(rt: HostRuntime) -> Result<(), Fail> {
    let host = Host::new(rt.alloc(), &[MEMORY])?;
    let id_block = [ID_BLOCK, &[0; 48], ID_BLOCK_REST].concat(rt.alloc())?;
    for (header, want) in [
        (CONTEXT, Why::ContextNotHere),
        (SECRETS, Why::TypeNotHere),
        (id_block.as_slice(), Why::IdBlockNotHere),
    ] {
        let headers = [TDX, header].concat(rt.alloc())?;
        assert_eq!(rt; judged(&rt, &host, &headers, 0)?, Err((1, want)));
    }
    Ok(())
}

#[test]
fn judges_by_the_limits(rt: HostRuntime) -> Result<(), Fail> {
    let host = Host::new(
        rt.alloc(),
        &[PlanRange {
            start: 0,
            bytes: 0x1_0000_0000,
        }],
    )?;
    let pages = with_large_pages(rt.alloc(), 1025)?;
    assert_eq!(rt;
        judged(&rt, &host, &pages, 0)?,
        Err((1025, Why::TooManyPages))
    );
    let areas = [SNP, AREA_MOST, AREA].concat(rt.alloc())?;
    assert_eq!(rt;
        judged(&rt, &host, &areas, 0)?,
        Err((2, Why::AreasTooLarge))
    );
    let area = [SNP, AREA_MOST].concat(rt.alloc())?;
    assert_eq!(rt; judged(&rt, &host, &area, 0)?, Ok((0, 0)));
    Ok(())
}

#[test]
fn has_no_digest_for_other_kinds(rt: HostRuntime) -> Result<(), Fail> {
    let host = Host::new(rt.alloc(), &[MEMORY])?;
    // The page doesn't fit, which is not looked at.
    let headers = [SNP, NATIVE, PAGE_TOP].concat(rt.alloc())?;
    let file = image(rt.alloc(), &headers, NONE)?;
    let outcome = host.load(&rt, &file, 1)?;
    let kind = PlatformKind::Native;
    assert_eq!(rt; outcome.answer, Err(PrepareRefusal::NoDigest { kind }));
    assert!(rt; outcome.machine.phase() == Phase::Idle);
    Ok(())
}
