//! The bytes of pages: what the last value that covers a byte says, else the file; and what the host has.
use super::host::{Host, MEMORY, is_padded};
use super::images::*;
use crate::PrepareRefusal;
use directive_rules::{Misfit, Why};
use igvm_headers::{ParamKind, Tag};
use launch_platform::Launch;
use std::test::Fail;

#[test]
fn areas_have_the_last_values(rt: HostRuntime) -> Result<(), Fail> {
    let mut host = Host::new(rt.alloc(), &[MEMORY])?;
    host.values.set(ParamKind::CommandLine, b"abcd")?;
    host.values.set(ParamKind::Madt, b"XY")?;
    for (first, second, front) in [
        (NONE, NONE, NONE),
        (COMMAND_LINE, NONE, b"abcd"),
        (MADT_2, NONE, b"\0\0XY"),
        // They overlap.
        (COMMAND_LINE, MADT_2, b"abXY"),
        (MADT_2, COMMAND_LINE, b"abcd"),
        (COMMAND_LINE, COMMAND_LINE_8, b"abcd\0\0\0\0abcd"),
    ] {
        let headers = [SNP, TDX, AREA, first, second, INSERT].concat(rt.alloc())?;
        let file = image(rt.alloc(), &headers, NONE)?;
        for number in 0..2 {
            let machine = host.load(&rt, &file, number)?.machine;
            assert_eq!(rt; machine.entries(), 1);
            let entry = machine.entry(0).ok_or("no entry")?;
            assert!(rt; entry.gpa == 0x3000 && entry.tag == Some(Tag::Unmeasured));
            assert!(rt; is_padded(entry.page, front));
        }
    }
    Ok(())
}

#[test]
fn values_lie_over_the_data(rt: HostRuntime) -> Result<(), Fail> {
    let mut host = Host::new(rt.alloc(), &[MEMORY])?;
    host.values.set(ParamKind::CommandLine, b"\x22\x22")?;
    let headers = [SNP, AREA_DATA, COMMAND_LINE_8, INSERT].concat(rt.alloc())?;
    let file = image(rt.alloc(), &headers, &page_of(rt.alloc(), 0x11)?)?;
    let machine = host.load(&rt, &file, 0)?.machine;
    let entry = machine.entry(0).ok_or("no entry")?;
    assert_eq!(rt; entry.tag, Some(Tag::Unmeasured));
    assert!(rt; is_covered_at_8(entry.page));
    Ok(())
}

/// A page is bytes 0x11, but two bytes 0x22 from 8 on.
fn is_covered_at_8(page: &[u8]) -> bool {
    page.iter().enumerate().all(|(j, byte)| *byte == if j == 8 || j == 9 { 0x22 } else { 0x11 })
}

/// It is the first page of the data, but two bytes 0x22 from 16 on.
fn is_covered_at_16(page: &[u8]) -> bool {
    page.iter().enumerate().all(|(j, byte)| *byte
        == if j == 16 || j == 17 {
            0x22
        } else {
            pattern_byte(j)
        })
}

/// Of two pages, the second begins where the first ends.
#[test]
fn areas_go_on_over_pages(rt: HostRuntime) -> Result<(), Fail> {
    let mut host = Host::new(rt.alloc(), &[MEMORY])?;
    host.values.set(ParamKind::CommandLine, b"\x22\x22")?;
    let file = image(rt.alloc(), MANY, &pattern(rt.alloc())?)?;
    for (number, first, second) in [(0, 6, 7), (1, 3, 4)] {
        let machine = host.load(&rt, &file, number)?.machine;
        let entry = machine.entry(first).ok_or("no entry")?;
        assert!(rt; is_covered_at_16(entry.page));
        let entry = machine.entry(second).ok_or("no entry")?;
        assert!(rt; is_second_page(entry.page));
    }
    Ok(())
}

#[test]
fn values_fit_up_to_the_end(rt: HostRuntime) -> Result<(), Fail> {
    let mut host = Host::new(rt.alloc(), &[MEMORY])?;
    host.values.set(ParamKind::VpCount, b"\x04\0\0\0")?;
    for (param, byte) in [
        (VP_COUNT_4092, Some(4)),
        (VP_COUNT_4093, None),
        // An empty value.
        (COMMAND_LINE_4096, Some(0)),
        (COMMAND_LINE_4097, None),
    ] {
        let headers = [SNP, AREA, param, INSERT].concat(rt.alloc())?;
        let file = image(rt.alloc(), &headers, NONE)?;
        let outcome = host.load(&rt, &file, 0)?;
        if byte.is_some() {
            assert_eq!(rt; outcome.machine.entries(), 1);
            let entry = outcome.machine.entry(0).ok_or("no entry")?;
            assert_eq!(rt; entry.page.get(4092).copied(), byte);
            assert!(rt; is_padded(entry.page, NONE) == (byte == Some(0)));
        } else {
            let why = Why::ValueTooLong;
            let refusal = PrepareRefusal::Misfit(Misfit { index: 2, why });
            assert_eq!(rt; outcome.answer, Err(refusal));
        }
    }
    Ok(())
}

#[test]
fn typed_pages_have_no_data_of_the_file(rt: HostRuntime) -> Result<(), Fail> {
    let mut host = Host::new(rt.alloc(), &[MEMORY])?;
    host.values.set_secrets(b"\x01\x02")?;
    host.values.set_cpuid(b"\x03")?;
    for (header, tag, front) in [
        (SECRETS, Tag::Secrets, b"\x01\x02".as_slice()),
        (CPUID_XF, Tag::Cpuid, b"\x03"),
    ] {
        let headers = [SNP, header].concat(rt.alloc())?;
        let file = image(rt.alloc(), &headers, &page_of(rt.alloc(), 0x11)?)?;
        let machine = host.load(&rt, &file, 0)?.machine;
        let entry = machine.entry(0).ok_or("no entry")?;
        assert!(rt; entry.tag == Some(tag) && is_padded(entry.page, front));
    }
    Ok(())
}
