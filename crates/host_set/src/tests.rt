//! Descriptions that are read and refused, plans, and values that are set.
use super::*;
use igvm_headers::ParamKind;
use std::alloc::{AllocError, Global};
use std::test::Fail;

/// Why a text is refused.
fn refusal(alloc: Global, text: &str) -> Option<HostRefusal> {
    read_host(alloc, text.as_bytes()).err()
}

/// The refusal of an item.
fn field(part: HostPart, item: u32) -> Option<HostRefusal> {
    Some(HostRefusal::Field { part, item })
}

#[test]
fn refuses_what_is_no_json(rt: HostRuntime) {
    for text in [
        "",
        "[",
        r#"{"memory":[]"#,
        r#"{"memory":[]} x"#,
        r#"{"memory":[],}"#,
        r#"{"memory":1e400,"memory":[]}"#,
        r#"{"memory":"\ud800"}"#,
        "{'memory':[]}",
    ] {
        assert_eq!(rt;
            refusal(rt.alloc(), text),
            Some(HostRefusal::NotJson),
            "{text}"
        );
    }
    let latin = read_host(rt.alloc(), b"{\"memory\":\"\xe9\"}").err();
    assert_eq!(rt; latin, Some(HostRefusal::NotJson));
}

#[test]
fn names_the_top(rt: HostRuntime) {
    for text in [
        "[]",
        "null",
        "7",
        "{}",
        r#"{"values":{}}"#,
        r#"{"memory":[],"other":0}"#,
        r#"{"Memory":[]}"#,
        r#"{"memory":[{"start":"0x0","bytes":"0x1000"}],"":null}"#,
    ] {
        assert_eq!(rt;
            refusal(rt.alloc(), text),
            field(HostPart::Top, 0),
            "{text}"
        );
    }
}

// What stands at `memory`, and the item.
#[test]
fn names_the_first_bad_range(rt: HostRuntime) -> Result<(), Fail> {
    for (memory, item) in [
        ("null", 0),
        ("{}", 0),
        (r#""0x0""#, 0),
        ("[]", 0),
        ("[[]]", 0),
        ("[{}]", 0),
        (r#"[{"start":"0x0"}]"#, 0),
        (r#"[{"bytes":"0x1000"}]"#, 0),
        (r#"[{"start":"0x0","bytes":"0x1000","kind":0}]"#, 0),
        (r#"[{"start":0,"bytes":"0x1000"}]"#, 0),
        (r#"[{"start":"0","bytes":"0x1000"}]"#, 0),
        (r#"[{"start":"0x","bytes":"0x1000"}]"#, 0),
        (r#"[{"start":"0X0","bytes":"0x1000"}]"#, 0),
        (r#"[{"start":"0x+0","bytes":"0x1000"}]"#, 0),
        (r#"[{"start":"0xg","bytes":"0x1000"}]"#, 0),
        (r#"[{"start":"0x00000000000000000","bytes":"0x1000"}]"#, 0),
        (r#"[{"start":"0x0","bytes":"0x10"}]"#, 0),
        (r#"[{"start":"0x800","bytes":"0x1000"}]"#, 0),
        (r#"[{"start":"0x0","bytes":"0x0"}]"#, 0),
        (r#"[{"start":"0xfffffffffffff000","bytes":"0x1000"}]"#, 0),
        (r#"[{"start":"0x0","bytes":"0x10000000001000"}]"#, 0),
        (r#"[{"start":"0x1000","bytes":"0x10000000000000"}]"#, 0),
        (
            r#"[{"start":"0x0","bytes":"0x2000"},{"start":"0x1000","bytes":"0x1000"}]"#,
            1,
        ),
        (
            r#"[{"start":"0x1000","bytes":"0x1000"},{"start":"0x0","bytes":"0x1000"}]"#,
            1,
        ),
        (
            r#"[{"start":"0x0","bytes":"0x1000"},{"start":"0x0","bytes":"0x10"},0]"#,
            1,
        ),
        (
            r#"[{"start":"0x0","bytes":"0x1000"},0,{"start":"0x0","bytes":"0x10"}]"#,
            1,
        ),
    ] {
        let text = format!(in rt.alloc(); "{{\"values\":0,\"memory\":{memory}}}")?;
        assert_eq!(rt;
            refusal(rt.alloc(), &text),
            field(HostPart::Memory, item),
            "{memory}"
        );
    }
    Ok(())
}

// What stands beside `memory`, the part and the item.
#[test]
fn names_the_first_bad_value(rt: HostRuntime) -> Result<(), Fail> {
    for (rest, part, item) in [
        (r#""values":null,"secrets":0"#, HostPart::Values, 0),
        (r#""values":[]"#, HostPart::Values, 0),
        (r#""values":{"vp_count":4}"#, HostPart::Values, 0),
        (r#""values":{"srat":"0"}"#, HostPart::Values, 1),
        (r#""values":{"madt":"0g"}"#, HostPart::Values, 2),
        (r#""values":{"mmio_ranges":"0x00"}"#, HostPart::Values, 3),
        (r#""values":{"memory_map":null}"#, HostPart::Values, 4),
        (r#""values":{"command_line":[]}"#, HostPart::Values, 5),
        (r#""values":{"slit":" "}"#, HostPart::Values, 6),
        (r#""values":{"pptt":"123"}"#, HostPart::Values, 7),
        (r#""values":{"device_tree":{}}"#, HostPart::Values, 8),
        (r#""values":{"environment_info":true}"#, HostPart::Values, 9),
        (
            r#""values":{"acpi":"00"},"secrets":0"#,
            HostPart::Values,
            10,
        ),
        (
            r#""values":{"slit":0,"acpi":0,"madt":0}"#,
            HostPart::Values,
            2,
        ),
        (r#""secrets":"0","cpuid":0"#, HostPart::Secrets, 0),
        (r#""cpuid":0,"secrets":null"#, HostPart::Secrets, 0),
        (r#""cpuid":"xx""#, HostPart::Cpuid, 0),
    ] {
        let memory = r#""memory":[{"start":"0x0","bytes":"0x1000"}]"#;
        let text = format!(in rt.alloc(); "{{{rest},{memory}}}")?;
        assert_eq!(rt; refusal(rt.alloc(), &text), field(part, item), "{rest}");
    }
    Ok(())
}

#[test]
fn reads_a_description(rt: HostRuntime) -> Result<(), Fail> {
    let text = r#"{"secrets":"7a4B","cpuid":"",
        "values":{"madt":0,"command_line":"616263","madt":"7F"},
        "memory":0,"memory":[{"start":"0x000000000000000","bytes":"0xA000"},
        {"bytes":"0x1000","start":"0xffffffffff000"}]}"#;
    let (plan, host) = read_host(rt.alloc(), text.as_bytes())
        .ok()
        .ok_or("refused")?;
    assert!(rt; plan.covers(0, 0xA000) && plan.covers(0xF_FFFF_FFFF_F000, 0x1000));
    assert!(rt; !plan.covers(0, 0xA001) && !plan.covers(0x10_0000_0000_0000, 1));
    for (found, want) in [
        (host.value(ParamKind::CommandLine), "abc"),
        (host.value(ParamKind::Madt), "\x7f"),
        (host.value(ParamKind::Srat), ""),
        (host.secrets(), "\x7aK"),
        (host.cpuid(), ""),
    ] {
        assert_eq!(rt; found, want.as_bytes());
    }
    Ok(())
}

/// A description of so many ranges of a page.
fn with_ranges(alloc: Global, count: u32) -> Result<String, AllocError> {
    let mut text = String::from_str(alloc, r#"{"memory":["#)?;
    for k in 0..count {
        let comma = if k == 0 { "" } else { "," };
        let range = format!(in alloc; "{comma}{{\"start\":\"0x{k:x}000\",\"bytes\":\"0x1000\"}}")?;
        text.push_str(&range)?;
    }
    text.push_str("]}")?;
    Ok(text)
}

/// A text with a piece so many times between a front and a back.
fn repeated(
    alloc: Global,
    front: &str,
    piece: &str,
    count: u32,
    back: &str,
) -> Result<String, AllocError> {
    let mut text = String::from_str(alloc, front)?;
    for _ in 0..count {
        text.push_str(piece)?;
    }
    text.push_str(back)?;
    Ok(text)
}

#[test]
fn keeps_the_limits(rt: HostRuntime) -> Result<(), Fail> {
    let alloc = rt.alloc();
    for (count, want) in [(1, None), (64, None), (65, field(HostPart::Memory, 64))] {
        let text = with_ranges(alloc, count)?;
        assert_eq!(rt; refusal(alloc, &text), want, "{count} ranges");
    }

    let memory = r#""memory":[{"start":"0x0","bytes":"0x1000"}]}"#;
    for (front, bytes, back, want) in [
        (r#"{"values":{"device_tree":""#, 1_048_576, r#""},"#, None),
        (
            r#"{"values":{"device_tree":""#,
            1_048_577,
            r#""},"#,
            field(HostPart::Values, 8),
        ),
        (r#"{"secrets":""#, 4096, r#"","#, None),
        (
            r#"{"secrets":""#,
            4097,
            r#"","#,
            field(HostPart::Secrets, 0),
        ),
        (r#"{"cpuid":""#, 4096, r#"","#, None),
        (r#"{"cpuid":""#, 4097, r#"","#, field(HostPart::Cpuid, 0)),
    ] {
        let mut text = repeated(alloc, front, "5a", bytes, back)?;
        text.push_str(memory)?;
        assert_eq!(rt; refusal(alloc, &text), want, "{bytes} bytes");
    }

    // The object is one level, and 127 are read.
    for (count, want) in [
        (126, field(HostPart::Memory, 0)),
        (127, Some(HostRefusal::NotJson)),
    ] {
        let front = repeated(alloc, r#"{"memory":"#, "[", count, "")?;
        let text = repeated(alloc, &front, "]", count, "}")?;
        assert_eq!(rt; refusal(alloc, &text), want, "{count} arrays");
    }
    Ok(())
}

/// The ranges of a plan.
fn ranges_of(alloc: Global, ranges: &[(u64, u64)]) -> Result<Vec<PlanRange>, AllocError> {
    let mut list = Vec::new(alloc);
    for (start, bytes) in ranges {
        list.push(PlanRange {
            start: *start,
            bytes: *bytes,
        })
        .map_err(|_| AllocError)?;
    }
    Ok(list)
}

#[test]
fn refuses_the_first_bad_range(rt: HostRuntime) -> Result<(), Fail> {
    const PAGE: u64 = 4096;
    const END: u64 = 1 << 52;
    let tables: [(&[(u64, u64)], Option<u32>); 9] = [
        (&[], Some(0)),
        (&[(0, PAGE)], None),
        (&[(0, END)], None),
        (&[(END - PAGE, PAGE)], None),
        (&[(END, PAGE)], Some(0)),
        (&[(0, PAGE), (PAGE, PAGE)], None),
        (&[(0, 2 * PAGE), (PAGE, PAGE)], Some(1)),
        (&[(0, PAGE), (PAGE, 0), (0, 1)], Some(1)),
        (&[(0, PAGE), (PAGE, PAGE), (u64::MAX - 4095, PAGE)], Some(2)),
    ];
    for (ranges, item) in tables {
        let plan = MemoryPlan::from_ranges(ranges_of(rt.alloc(), ranges)?);
        assert_eq!(rt; plan.err().map(|bad| bad.item), item);
    }
    Ok(())
}

// Where bytes begin, how many there are, and whether they are covered.
#[test]
fn covers_what_lies_in_ranges(rt: HostRuntime) -> Result<(), Fail> {
    let one = MemoryPlan::from_ranges(ranges_of(rt.alloc(), &[(0, 0x2000)])?);
    let one = one.ok().ok_or("refused")?;
    for (gpa, bytes, want) in [
        (0x1000, 0x1000, true),
        (0x2000, 0x1000, false),
        (0x1FFF, 1, true),
        (0x1FFF, 2, false),
        (0xFFFF_FFFF_FFFF_F000, 0x1000, false),
        (0xFFFF_FFFF_FFE0_0000, 0x20_0000, false),
        (u64::MAX, 0, true),
        (u64::MAX, 1, false),
        (0, u64::MAX, false),
    ] {
        assert_eq!(rt; one.covers(gpa, bytes), want, "{bytes} bytes from {gpa}");
    }
    let ranges = ranges_of(
        rt.alloc(),
        &[(0, 0x1000), (0x1000, 0x40_0000), (0x50_0000, 0x1000)],
    )?;
    let more = MemoryPlan::from_ranges(ranges).ok().ok_or("refused")?;
    for (gpa, bytes, want) in [
        (0x20_0000, 0x20_0000, true),
        (0, 0x2000, true),
        (0, 0x40_1000, true),
        (0, 0x40_1001, false),
        (0x40_1000, 1, false),
        (0x40_0FFF, 0x10_0001, false),
        (0x50_0000, 0x1000, true),
        (0x4F_FFFF, 2, false),
    ] {
        assert_eq!(rt; more.covers(gpa, bytes), want, "{bytes} bytes from {gpa}");
    }
    Ok(())
}

#[test]
fn sets_one_value(rt: HostRuntime) -> Result<(), Fail> {
    let mut host = HostSet::empty(rt.alloc());
    assert!(rt; host.set(ParamKind::CommandLine, b"abc").is_ok());
    assert!(rt; host.set_secrets(b"\x01\x02").is_ok());
    assert!(rt; host.set_cpuid(b"\x03").is_ok());
    for (kind, want) in [
        (ParamKind::VpCount, b"".as_slice()),
        (ParamKind::Srat, b""),
        (ParamKind::Madt, b""),
        (ParamKind::MmioRanges, b""),
        (ParamKind::MemoryMap, b""),
        (ParamKind::CommandLine, b"abc"),
        (ParamKind::Slit, b""),
        (ParamKind::Pptt, b""),
        (ParamKind::DeviceTree, b""),
        (ParamKind::EnvironmentInfo, b""),
    ] {
        assert_eq!(rt; host.value(kind), want, "{kind:?}");
    }
    assert_eq!(rt; host.secrets(), "\x01\x02".as_bytes());
    assert_eq!(rt; host.cpuid(), "\x03".as_bytes());
    Ok(())
}
