//! Each command on each platform with each reader after it, digests as Python's hashlib has them, and each command
//! failing in turn.
ghost use Rattle.std.specs.Prelude.{◌≡◌};
ghost use Rattle.sev_chain.specs.SevBytes.{HasSevDigest};

use super::*;
use igvm_headers::{PageView, PlatformKind};
use launch_platform::Phase;
use sev_chain::Digest32;
use std::alloc::Global;
use std::test::Fail;

// The bytes 0 to 255, 16 times over.
fn counting() -> [u8; 4096] {
    let mut bytes = [0; 4096];
    for (i, byte) in bytes.iter_mut().enumerate() {
        *byte = (i % 256) as u8;
    }
    bytes
}

#[test]
fn sev_measures_pages(rt: HostRuntime) -> Result<(), Fail> {
    // SHA-256 of `igvm`, padded with zeros to 4,096 bytes, and of the counting page.
    let want = b"\
        \x5e\x7e\x38\x29\xcd\x74\x61\x8d\x26\x5e\xa0\xf3\x6b\x8d\xa1\x8e\xc9\x1c\x26\x2f\x30\x83\x02\x04\
        \x3b\x2b\xdf\x02\xe2\xe8\x55\xb4";
    let counting = counting();
    let mut machine = SevMemLaunch::new(rt.alloc());
    assert!(rt; machine.phase() == Phase::Idle && machine.digest().is_none());
    assert!(rt; machine.entries() == 0 && machine.entry(0).is_none());

    machine.start(PlatformKind::Sev, 3, 0)?;
    let first = machine.place(0x1000, PageView::of_bytes(b"igvm"))?;
    machine.update(first)?;
    let unmeasured = machine.place(0x3000, PageView::of_bytes(b"not measured"))?;
    let second = machine.place(0x2000, PageView::of_bytes(&counting))?;
    machine.update(second)?;
    assert!(rt; first == 0 && unmeasured == 1 && second == 2);
    assert!(rt; machine.phase() == Phase::Loading && machine.digest().is_none());

    let digest = machine.finish()?;
    assert_eq!(rt; digest.bytes(), want.as_slice());
    assert!(rt; machine.phase() == Phase::Done && machine.digest() == Some(digest));
    assert!(rt; machine.entries() == 3 && machine.entry(3).is_none());
    assert!(rt; machine.contexts() == 0 && machine.context_at(0).is_none());

    let entry = machine.entry(unmeasured).ok_or("no entry")?;
    assert!(rt; entry.gpa == 0x3000 && !entry.measured);
    assert!(rt; entry.page.starts_with(b"not measured\0"));
    let entry = machine.entry(second).ok_or("no entry")?;
    assert!(rt; entry.gpa == 0x2000 && entry.measured);
    assert_eq!(rt; entry.page, counting.as_slice());
    Ok(())
}

#[test]
fn sev_es_measures_contexts(rt: HostRuntime) -> Result<(), Fail> {
    // SHA-256 of the counting page, and of `igvm`, `state` and `second`, each padded with zeros to
    // 4,096 bytes.
    let want = b"\
        \x2b\xe3\x83\x9c\x8a\x60\xc5\xa6\xa0\xd1\x30\x28\x75\xf3\x15\x59\x2d\xd3\x4a\x49\xda\x13\x36\x85\
        \xd9\x43\xac\xc4\x13\x31\x5c\x6f";
    let counting = counting();
    let mut machine = SevMemLaunch::new(rt.alloc());
    machine.start(PlatformKind::SevEs, 2, 2)?;
    let first = machine.place(0x1000, PageView::of_bytes(b"igvm"))?;
    let second = machine.place(0x2000, PageView::of_bytes(&counting))?;
    machine.update(second)?;
    machine.update(first)?;
    machine.context(0, 0xFFFF_FFFF_F000, PageView::of_bytes(b"state"))?;
    machine.context(7, 0, PageView::of_bytes(b"second"))?;

    let digest = machine.finish()?;
    assert_eq!(rt; digest.bytes(), want.as_slice());
    assert!(rt; machine.phase() == Phase::Done && machine.digest() == Some(digest));
    assert!(rt; machine.entries() == 2 && machine.contexts() == 2);
    assert!(rt; machine.context_at(2).is_none());
    let context = machine.context_at(0).ok_or("no context")?;
    assert!(rt; context.vp == 0 && context.gpa == 0xFFFF_FFFF_F000);
    assert!(rt; context.page.starts_with(b"state\0"));
    let context = machine.context_at(1).ok_or("no context")?;
    assert!(rt; context.vp == 7 && context.gpa == 0);
    assert!(rt; context.page.starts_with(b"second\0"));
    Ok(())
}

// The commands of a launch with one page, and with one context on SEV-ES, up to the first that
// fails.
fn launch<L: SevLaunch>(machine: &mut L, kind: PlatformKind) -> Option<Digest32>
    requires idle { (L.state machine.old).phase ≡ Phase.Idle }
    requires kind { HasSevDigest kind }
{
    machine.start(kind, 1, 1).ok()?;
    let Ok(slot) = machine.place(0x1000, PageView::of_bytes(b"igvm")) else {
        return None;
    };
    let Ok(()) = machine.update(slot) else {
        return None;
    };
    if kind == PlatformKind::SevEs {
        let page = PageView::of_bytes(b"state");
        machine.context(0, 0xFFFF_FFFF_F000, page).ok()?;
    }
    machine.finish().ok()
}

// SHA-256 of `igvm`, padded with zeros to 4,096 bytes.
fn sev_digest() -> Digest32 {
    Digest32::of_bytes(
        *b"\
        \xf1\x5b\xb3\xb3\x0b\xe4\xb3\x07\x33\x92\xa5\x4a\x1f\xe5\x4c\x88\xd0\xac\x01\xd1\x5a\x18\x49\x30\
        \x24\x70\x82\x52\xac\x15\x45\x07",
    )
}

// SHA-256 of `igvm` and of `state`, each padded with zeros to 4,096 bytes.
fn sev_es_digest() -> Digest32 {
    Digest32::of_bytes(
        *b"\
        \x2d\xb3\xf9\x8e\xaf\x8d\x4e\xfd\xf6\x69\x28\x58\xec\xee\xfe\xf9\x1e\x5a\x63\xc1\xb0\xbe\x4e\x7f\
        \x35\x9b\x1d\x0e\x04\x70\x6e\xa7",
    )
}

// What a launch leaves whose command of a number fails: how far it came, how many entries it has,
// whether the first is measured, how many contexts it has, and its digest.
fn left_by(
    alloc: Global,
    kind: PlatformKind,
    number: u64,
) -> Result<(Phase, u32, bool, u32, Option<Digest32>), Fail>
    requires { HasSevDigest kind }
{
    let mut calls = Vec::new(alloc);
    calls.push(number)?;
    let mut machine = FailingSevLaunch::new(SevMemLaunch::new(alloc), calls);
    let _ = launch(&mut machine, kind);
    let is_measured = match machine.entry(0) {
        Some(entry) => entry.measured,
        None => false,
    };
    Ok((
        machine.phase(),
        machine.entries(),
        is_measured,
        machine.contexts(),
        machine.digest(),
    ))
}

#[test]
fn each_command_fails_in_turn(rt: HostRuntime) -> Result<(), Fail> {
    for (number, phase, entries, is_measured) in [
        (1, Phase::Idle, 0, false),
        (2, Phase::Loading, 0, false),
        (3, Phase::Loading, 1, false),
        (4, Phase::Loading, 1, true),
        (5, Phase::Done, 1, true),
        (0, Phase::Done, 1, true),
    ] {
        let digest = (phase == Phase::Done).then_some(sev_digest());
        assert_eq!(rt;
            left_by(rt.alloc(), PlatformKind::Sev, number)?,
            (phase, entries, is_measured, 0, digest),
            "on SEV at {number}"
        );
    }
    for (number, phase, entries, is_measured, contexts) in [
        (1, Phase::Idle, 0, false, 0),
        (2, Phase::Loading, 0, false, 0),
        (3, Phase::Loading, 1, false, 0),
        (4, Phase::Loading, 1, true, 0),
        (5, Phase::Loading, 1, true, 1),
        (6, Phase::Done, 1, true, 1),
        (0, Phase::Done, 1, true, 1),
    ] {
        let digest = (phase == Phase::Done).then_some(sev_es_digest());
        assert_eq!(rt;
            left_by(rt.alloc(), PlatformKind::SevEs, number)?,
            (phase, entries, is_measured, contexts, digest),
            "on SEV-ES at {number}"
        );
    }
    Ok(())
}
