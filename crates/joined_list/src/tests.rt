//! Small lists joined, and lists that pass a limit together.
ghost use Rattle.std.specs.Prelude.{◌≤◌, IfOk, length};

use crate::{JoinRefusal, join};
use component_list::{Blob, Component, ComponentList, Content};
use igvm_headers::{Header, PageKind, ParamKind, PlatformKind};
use std::alloc::Global;
use std::test::Fail;

fn platform(mask: u32, kind: PlatformKind) -> Header {
    Header::Platform {
        mask,
        highest_vtl: 0,
        kind,
        version: 1,
        shared_gpa: 0,
    }
}

fn policy(mask: u32, policy: u64) -> Header {
    Header::Policy { policy, mask }
}

fn area(area: u32) -> Header {
    Header::Area {
        bytes: 0x1000,
        area,
        offset: 0,
    }
}

fn vp_count(area: u32) -> Header {
    Header::Param {
        kind: ParamKind::VpCount,
        area,
        byte_offset: 8,
    }
}

fn page(gpa: u64, mask: u32, large: bool) -> Header {
    Header::Page {
        gpa,
        mask,
        offset: 0,
        large,
        unmeasured: false,
        kind: PageKind::Normal,
    }
}

fn insert(gpa: u64, mask: u32, area: u32) -> Header {
    Header::Insert { gpa, mask, area }
}

/// A list of components with these headers, whose data are zeros: few enough that two are joined.
fn list(alloc: Global, headers: &[Header]) -> Result<ComponentList, Fail>
    ensures { IfOk result (λ list. length list.parts ≤ 10000) }
{
    let mut parts = Vec::new(alloc);
    for header in headers {
        let content = match header.data_size() {
            Some(_) => Content::Zero,
            None => Content::Nothing,
        };
        parts.push(Component {
            header: header.with_offset(0),
            tail: Blob::of_vec(Vec::new(alloc)),
            content,
        })?;
    }
    if parts.len() > 10_000 {
        return Err(Fail::new("too many components"));
    }
    Ok(ComponentList::from_parts(parts)?)
}

/// A list has these headers.
fn has_headers(list: &ComponentList, headers: &[Header]) -> bool {
    list.components().len() == headers.len()
        && list
            .components()
            .iter()
            .zip(headers)
            .all(|(component, header)| component.header == *header)
}

#[test]
fn joins_by_turns(rt: HostRuntime) -> Result<(), Fail> {
    let alloc = rt.alloc();
    let first = [
        platform(1, PlatformKind::SevSnp),
        policy(1, 0x30000),
        area(0),
        insert(0x1000, 1, 0),
        // Under a bit that no platform has.
        page(0x2000, 5, false),
    ];
    let second = [
        platform(1, PlatformKind::Tdx),
        policy(1, 7),
        area(0),
        vp_count(0),
        insert(0x1000, 1, 0),
        page(0x2000, 3, false),
    ];
    let joined = join(
        alloc,
        list(alloc, &first)?.with_version(2),
        list(alloc, &second)?,
    )?;
    assert_eq!(rt; joined.version(), 2);
    let expected = [
        platform(1, PlatformKind::SevSnp),
        platform(2, PlatformKind::Tdx),
        policy(1, 0x30000),
        policy(2, 7),
        area(0),
        insert(0x1000, 1, 0),
        page(0x2000, 1, false),
        area(1),
        vp_count(1),
        insert(0x1000, 2, 1),
        page(0x2000, 2, false),
    ];
    assert!(rt; has_headers(&joined, &expected));
    Ok(())
}

#[test]
fn takes_the_least_free_numbers(rt: HostRuntime) -> Result<(), Fail> {
    let alloc = rt.alloc();
    let first = [platform(2, PlatformKind::SevSnp), area(0), area(2)];
    let second = [
        platform(8, PlatformKind::Tdx),
        platform(2, PlatformKind::Native),
        area(7),
        area(0),
        insert(0x1000, 8, 7),
        insert(0x2000, 10, 0),
    ];
    let joined = join(alloc, list(alloc, &first)?, list(alloc, &second)?)?;
    let expected = [
        platform(2, PlatformKind::SevSnp),
        platform(1, PlatformKind::Tdx),
        platform(4, PlatformKind::Native),
        area(0),
        area(2),
        area(1),
        area(3),
        insert(0x1000, 1, 1),
        insert(0x2000, 5, 3),
    ];
    assert!(rt; has_headers(&joined, &expected));
    Ok(())
}

/// A list of so many platforms.
fn platforms(alloc: Global, count: u32) -> Result<ComponentList, Fail>
    ensures { IfOk result (λ list. length list.parts ≤ 10000) }
{
    let mut headers = Vec::new(alloc);
    for bit in 0..count.min(32) {
        headers.push(platform(1 << bit, PlatformKind::SevSnp))?;
    }
    list(alloc, headers.as_slice())
}

/// A list of one platform and so many areas.
fn areas(alloc: Global, count: u32) -> Result<ComponentList, Fail>
    ensures { IfOk result (λ list. length list.parts ≤ 10000) }
{
    let mut headers = vec![in alloc; platform(1, PlatformKind::SevSnp)]?;
    for index in 0..count {
        headers.push(area(index))?;
    }
    list(alloc, headers.as_slice())
}

/// A list of one platform and so many large pages, each of 512 that are small.
fn large_pages(alloc: Global, count: u32) -> Result<ComponentList, Fail>
    ensures { IfOk result (λ list. length list.parts ≤ 10000) }
{
    let mut headers = vec![in alloc; platform(1, PlatformKind::SevSnp)]?;
    for k in 0..count {
        headers.push(page(0x20_0000 * u64::from(k), 1, true))?;
    }
    list(alloc, headers.as_slice())
}

#[test]
fn refuses_what_passes_a_limit(rt: HostRuntime) -> Result<(), Fail> {
    let alloc = rt.alloc();
    let joined = join(alloc, platforms(alloc, 16)?, platforms(alloc, 16)?)?;
    assert_eq!(rt; joined.len(), 32);
    let refusal = join(alloc, platforms(alloc, 17)?, platforms(alloc, 16)?).err();
    assert_eq!(rt; refusal, Some(JoinRefusal::TooManyPlatforms));
    let joined = join(alloc, areas(alloc, 128)?, areas(alloc, 128)?)?;
    assert_eq!(rt; joined.len(), 258);
    let refusal = join(alloc, areas(alloc, 129)?, areas(alloc, 128)?).err();
    assert_eq!(rt; refusal, Some(JoinRefusal::TooManyAreas));
    let joined = join(alloc, large_pages(alloc, 8191)?, large_pages(alloc, 1)?)?;
    assert_eq!(rt; joined.len(), 8194);
    let refusal = join(alloc, large_pages(alloc, 8191)?, large_pages(alloc, 2)?).err();
    assert_eq!(rt; refusal, Some(JoinRefusal::TooManyPages));
    Ok(())
}
