//! The rows of each type: the least image that meets a row, one that just doesn't, and images that meet
//! several. The answers are read off the table of rows by hand.
use super::host::Host;
use super::images::*;
use crate::Why;
use std::test::Fail;

/// What guest memory has in the tables: 256 MB.
const MEMORY: u64 = 0x1000_0000;

#[test]
fn names_the_first_misfit(rt: HostRuntime) -> Result<(), Fail> {
    let host = Host::new(rt.alloc(), MEMORY)?;
    for (first, second, third, index, why) in [
        (POLICY, POLICY, NONE, 3, Why::PolicyRepeated),
        (POLICY, POLICY, PAGE_OUTSIDE, 3, Why::PolicyRepeated),
        (AREA_MOST, AREA, NONE, 3, Why::AreasTooLarge),
        (AREA, AREA_MOST, NONE, 3, Why::AreasTooLarge),
        (AREA, COMMAND_LINE_4093, NONE, 3, Why::ValueTooLong),
        (AREA, MADT_4097, NONE, 3, Why::ValueTooLong),
        (AREA, MADT_LAST, NONE, 3, Why::ValueTooLong),
        (AREA, INSERT, COMMAND_LINE_4092, 4, Why::AreaGone),
        (AREA, INSERT, COMMAND_LINE_4093, 4, Why::AreaGone),
        (AREA, INSERT, INSERT_AGAIN, 4, Why::AreaGone),
        (AREA, INSERT, INSERT_OUTSIDE, 4, Why::AreaGone),
        (AREA, INSERT_OUTSIDE, NONE, 3, Why::Outside),
        (AREA, PAGE_3000, INSERT, 4, Why::Repeated),
        (AREA, INSERT, PAGE_3000, 4, Why::Repeated),
        (AREA_8192, INSERT, PAGE_4000, 4, Why::Repeated),
        (PAGE, PAGE, PAGE_OUTSIDE, 3, Why::Repeated),
        (PAGE, PAGE_2000, PAGE, 4, Why::Repeated),
        (LARGE, PAGE_IN_LARGE, NONE, 3, Why::Repeated),
        (PAGE_IN_LARGE, LARGE, NONE, 3, Why::Repeated),
        (PAGE_OUTSIDE, PAGE_OUTSIDE, NONE, 2, Why::Outside),
        (PAGE_TOP, NONE, NONE, 2, Why::Outside),
        (LARGE_TOP, NONE, NONE, 2, Why::Outside),
        (REQUIRED_LAST, NONE, NONE, 2, Why::Outside),
        (ERROR_RANGE_PAST, NONE, NONE, 2, Why::Outside),
    ] {
        let headers = [PLATFORMS, first, second, third].concat(rt.alloc())?;
        let want = Some((index, why));
        assert_eq!(rt; host.snp_misfit(&rt, &headers)?, want);
        assert_eq!(rt; host.tdx_misfit(&rt, &headers)?, want);
    }
    Ok(())
}

#[test]
fn lets_pass_what_fits(rt: HostRuntime) -> Result<(), Fail> {
    let host = Host::new(rt.alloc(), MEMORY)?;
    for (first, second, third) in [
        (NONE, NONE, NONE),
        (POLICY_1, POLICY_2, NONE),
        (AREA_MOST, NONE, NONE),
        (AREA_REST, AREA, NONE),
        (AREA, COMMAND_LINE_4092, INSERT),
        (AREA, MADT_4096, NONE),
        (AREA, INSERT_1, INSERT_2),
        (AREA_8192, INSERT, PAGE_5000),
        (PAGE, PAGE_2000, NONE),
        (PAGE_1, PAGE_2, NONE),
        (PAGE_END, NONE, NONE),
        (LARGE_END, NONE, NONE),
        (LARGE, PAGE_BEFORE_LARGE, PAGE_AFTER_LARGE),
        (REQUIRED_NONE, NONE, NONE),
        (REQUIRED, PAGE, NONE),
        (ERROR_RANGE, PAGE, NONE),
    ] {
        let headers = [PLATFORMS, first, second, third].concat(rt.alloc())?;
        assert_eq!(rt; host.snp_misfit(&rt, &headers)?, None);
        assert_eq!(rt; host.tdx_misfit(&rt, &headers)?, None);
    }
    Ok(())
}

#[test]
fn judges_by_the_platform(rt: HostRuntime) -> Result<(), Fail> {
    let host = Host::new(rt.alloc(), MEMORY)?;
    let typed = Some((2, Why::TypeNotHere));
    let context = Some((2, Why::ContextNotHere));
    for (first, second, third, snp, tdx) in [
        (SECRETS, NONE, NONE, None, typed),
        (CPUID, NONE, NONE, None, typed),
        (CPUID_XF, NONE, NONE, None, typed),
        (SECRETS_OUTSIDE, NONE, NONE, Some((2, Why::Outside)), typed),
        (CONTEXT_0, CONTEXT_1, CONTEXT_2, None, context),
        (
            CONTEXT_0,
            CONTEXT_1,
            CONTEXT_0,
            Some((4, Why::ContextRepeated)),
            context,
        ),
        (POLICY_1, POLICY, NONE, Some((3, Why::PolicyRepeated)), None),
        (PAGE_1, PAGE, NONE, Some((3, Why::Repeated)), None),
        (AREA, INSERT_1, MADT_4096, Some((4, Why::AreaGone)), None),
        (AREA, INSERT_2, INSERT, None, Some((4, Why::AreaGone))),
    ] {
        let headers = [PLATFORMS, first, second, third].concat(rt.alloc())?;
        assert_eq!(rt; host.snp_misfit(&rt, &headers)?, snp);
        assert_eq!(rt; host.tdx_misfit(&rt, &headers)?, tdx);
    }
    Ok(())
}

#[test]
fn judges_sev(rt: HostRuntime) -> Result<(), Fail> {
    let host = Host::new(rt.alloc(), MEMORY)?;
    let typed = Some((2, Why::TypeNotHere));
    let context = Some((2, Why::ContextNotHere));
    let again = Some((4, Why::ContextRepeated));
    let outside = Some((2, Why::Outside));
    for (first, second, third, sev_es, sev) in [
        (SECRETS, NONE, NONE, typed, typed),
        (CPUID, NONE, NONE, typed, typed),
        (CPUID_XF, NONE, NONE, typed, typed),
        (SECRETS_OUTSIDE, NONE, NONE, typed, typed),
        (PAGE_OUTSIDE, NONE, NONE, outside, outside),
        (PAGE, LARGE, NONE, None, None),
        (PAGE_UNMEASURED, NONE, NONE, None, None),
        (AREA, INSERT, PAGE, None, None),
        (CONTEXT_0, NONE, NONE, None, context),
        (CONTEXT_0, CONTEXT_1, CONTEXT_2, None, context),
        (CONTEXT_0, CONTEXT_1, CONTEXT_0, again, context),
        (CONTEXT_1, NONE, NONE, None, None),
    ] {
        let headers = [SEV_PLATFORMS, first, second, third].concat(rt.alloc())?;
        assert_eq!(rt; host.sev_es_misfit(&rt, &headers)?, sev_es);
        assert_eq!(rt; host.sev_misfit(&rt, &headers)?, sev);
    }
    Ok(())
}

#[test]
fn has_no_id_blocks_on_sev(rt: HostRuntime) -> Result<(), Fail> {
    let host = Host::new(rt.alloc(), MEMORY)?;
    let headers = [SEV_PLATFORMS, PAGE, ID_BLOCK, ID_BLOCK_REST].concat(rt.alloc())?;
    let want = Some((3, Why::IdBlockNotHere));
    assert_eq!(rt; host.sev_es_misfit(&rt, &headers)?, want);
    assert_eq!(rt; host.sev_misfit(&rt, &headers)?, want);
    Ok(())
}

#[test]
fn judges_id_blocks(rt: HostRuntime) -> Result<(), Fail> {
    let host = Host::new(rt.alloc(), MEMORY)?;
    let one = [PLATFORMS, PAGE, ID_BLOCK, ID_BLOCK_REST].concat(rt.alloc())?;
    assert_eq!(rt; host.snp_misfit(&rt, &one)?, None);
    assert_eq!(rt; host.tdx_misfit(&rt, &one)?, Some((3, Why::IdBlockNotHere)));
    let two = [one.as_slice(), ID_BLOCK, ID_BLOCK_REST].concat(rt.alloc())?;
    assert_eq!(rt;
        host.snp_misfit(&rt, &two)?,
        Some((4, Why::IdBlockRepeated))
    );
    assert_eq!(rt; host.tdx_misfit(&rt, &two)?, Some((3, Why::IdBlockNotHere)));
    Ok(())
}

#[test]
fn judges_by_the_memory(rt: HostRuntime) -> Result<(), Fail> {
    let host = Host::new(rt.alloc(), 0x2000)?;
    for (first, second, want) in [
        (PAGE, NONE, None),
        (PAGE_2000, NONE, Some((2, Why::Outside))),
        (PAGE, LARGE_0, Some((3, Why::Outside))),
        (REQUIRED, NONE, None),
        (ERROR_RANGE, NONE, None),
        (CONTEXT_0, NONE, None),
    ] {
        let headers = [PLATFORMS, first, second].concat(rt.alloc())?;
        assert_eq!(rt; host.snp_misfit(&rt, &headers)?, want);
    }
    Ok(())
}
