//! Each command on each platform with each reader after it, digests as Python's hashlib has them, and each command
//! failing in turn.
ghost use Rattle.std.specs.Prelude.{◌≡◌, None};
ghost use Rattle.launch_platform.specs.Machine.{HasDigest};

use super::*;
use igvm_headers::{Digest, PageView, PlatformKind, Tag};
use std::alloc::Global;
use std::test::Fail;

#[test]
fn snp_takes_each_tag(rt: HostRuntime) -> Result<(), Fail> {
    let want = b"\
        \x93\xab\x20\x76\x1d\xbe\x50\x54\x51\xd9\xad\x4a\xc4\xdd\xe2\x6c\xe3\x58\x8b\x70\x98\xd1\x59\xd3\
        \x80\xd3\x6b\x73\xc9\xc0\x2f\x61\xad\x46\x01\xf9\x69\x03\x39\x03\xc6\xdf\x7c\x28\x2a\x6f\x1a\xf3";
    let mut machine = MemLaunch::new(rt.alloc());
    assert!(rt; machine.phase() == Phase::Idle && machine.digest().is_none());

    machine.start(PlatformKind::SevSnp, 5, 1)?;
    let normal = machine.place(0x1000, PageView::of_bytes(b"igvm"))?;
    let zero = machine.place(0x2000, PageView::zero())?;
    let unmeasured = machine.place(0x3000, PageView::of_bytes(b"not measured"))?;
    let cpuid = machine.place(0x4000, PageView::of_bytes(b"of the host"))?;
    let secrets = machine.place(0x5000, PageView::of_bytes(b"of the host"))?;
    machine.add(normal, Tag::Normal)?;
    machine.add(zero, Tag::Zero)?;
    machine.add(unmeasured, Tag::Unmeasured)?;
    machine.add(secrets, Tag::Secrets)?;
    machine.add(cpuid, Tag::Cpuid)?;
    machine.context(0, 0xFFFF_FFFF_F000, PageView::of_bytes(b"state"))?;
    assert!(rt; machine.phase() == Phase::Loading && machine.digest().is_none());

    let digest = machine.finish(None)?;
    assert_eq!(rt; digest.bytes(), want.as_slice());
    assert!(rt; machine.phase() == Phase::Done && machine.digest() == Some(digest));
    assert!(rt; machine.entries() == 5 && machine.entry(5).is_none());
    assert!(rt; machine.contexts() == 1 && machine.context_at(1).is_none());

    let entry = machine.entry(3).ok_or("no entry")?;
    assert!(rt; entry.gpa == 0x4000 && entry.tag == Some(Tag::Cpuid) && !entry.extended);
    assert!(rt; entry.page.starts_with(b"of the host\0"));
    let context = machine.context_at(0).ok_or("no context")?;
    assert!(rt; context.vp == 0 && context.gpa == 0xFFFF_FFFF_F000);
    assert!(rt; context.page.starts_with(b"state\0"));
    Ok(())
}

#[test]
fn tdx_measures_chunks(rt: HostRuntime) -> Result<(), Fail> {
    let want = b"\
        \x8d\x3e\xe4\xb1\xdd\x28\xd3\x45\x3c\x0d\xd1\x65\xfe\xc4\x54\xd8\x5c\xdf\xce\x00\xec\xb6\x21\xc5\
        \xd8\xc4\x04\x52\x83\xc6\xc5\xca\x53\x9b\x2a\xb1\x99\x05\xa7\x39\x60\x59\x99\xc0\x85\xe3\xa5\x76";
    let mut counting = [0; 4096];
    for (i, byte) in counting.iter_mut().enumerate() {
        *byte = (i % 256) as u8;
    }
    let mut machine = MemLaunch::new(rt.alloc());
    machine.start(PlatformKind::Tdx, 3, 0)?;
    let first = machine.place(0x1000, PageView::of_bytes(b"igvm"))?;
    machine.add(first, Tag::Normal)?;
    machine.extend(first)?;
    let unmeasured = machine.place(0x3000, PageView::of_bytes(b"not measured"))?;
    machine.add(unmeasured, Tag::Unmeasured)?;
    let second = machine.place(0x2000, PageView::of_bytes(&counting))?;
    machine.add(second, Tag::Normal)?;
    machine.extend(second)?;

    let digest = machine.finish(None)?;
    assert_eq!(rt; digest.bytes(), want.as_slice());
    assert!(rt; machine.phase() == Phase::Done && machine.digest() == Some(digest));
    let entry = machine.entry(2).ok_or("no entry")?;
    assert!(rt; entry.gpa == 0x2000 && entry.tag == Some(Tag::Normal) && entry.extended);
    assert_eq!(rt; entry.page, counting.as_slice());
    let entry = machine.entry(1).ok_or("no entry")?;
    assert!(rt; entry.tag == Some(Tag::Unmeasured) && !entry.extended);
    Ok(())
}

// The five commands of a launch with one page, up to the first that fails.
fn launch<L: Launch>(machine: &mut L, kind: PlatformKind, wanted: Option<Digest>) -> Option<Digest>
    requires idle { (L.state machine.old).phase ≡ Phase.Idle }
    requires kind { HasDigest kind }
    requires wanted { kind ≡ PlatformKind.Tdx → wanted ≡ None }
{
    machine.start(kind, 1, 1).ok()?;
    let Ok(slot) = machine.place(0x1000, PageView::of_bytes(b"igvm")) else {
        return None;
    };
    let Ok(()) = machine.add(slot, Tag::Normal) else {
        return None;
    };
    if kind == PlatformKind::SevSnp {
        let page = PageView::of_bytes(b"state");
        machine.context(0, 0xFFFF_FFFF_F000, page).ok()?;
    } else {
        machine.extend(slot).ok()?;
    }
    machine.finish(wanted).ok()
}

fn snp_digest() -> Digest {
    Digest::of_bytes(
        *b"\
        \x67\x2d\x1a\xac\x3f\x79\x09\xbb\xba\x58\xce\x75\x5f\x88\xf7\xbc\xf5\xad\x10\xbf\x6a\xb9\xb9\xb7\
        \x65\x46\x2d\xf4\x28\xad\xc5\x9b\x73\x3a\x67\xfc\x42\x3a\x3a\xe5\xd2\x7f\x59\x0b\xb2\xa6\xe2\x30",
    )
}

fn tdx_digest() -> Digest {
    Digest::of_bytes(
        *b"\
        \xb7\x41\x3c\x4d\x3d\x50\x3c\xc7\x6a\xbd\xcb\x7c\xe4\x52\x19\x41\xa8\x87\xf3\xf6\x08\x8b\xf5\xce\
        \x8d\xbc\x7f\xd2\x58\x6c\x59\x3a\xb9\x1a\xba\x93\x47\xbe\xd5\xa6\xd9\x83\x4a\x8a\x92\x6f\x10\x69",
    )
}

#[test]
fn another_digest_is_refused(rt: HostRuntime) {
    let other = Digest::of_bytes([0; 48]);
    for (wanted, phase) in [
        (None, Phase::Done),
        (Some(snp_digest()), Phase::Done),
        (Some(other), Phase::Refused),
    ] {
        let mut machine = MemLaunch::new(rt.alloc());
        let digest = launch(&mut machine, PlatformKind::SevSnp, wanted);
        assert!(rt; machine.phase() == phase && digest.is_some() == (phase == Phase::Done));
        assert!(rt; machine.digest() == Some(snp_digest()) && machine.entries() == 1);
    }
}

// What a launch leaves whose command of a number fails: how far it came, its tag if it has an
// entry, whether the page's bytes, or a context, were measured by a command of their own, and its
// digest.
fn left_by(
    alloc: Global,
    kind: PlatformKind,
    number: u64,
) -> Result<(Phase, u32, Option<Tag>, bool, Option<Digest>), Fail>
    requires { HasDigest kind }
{
    let mut calls = Vec::new(alloc);
    calls.push(number)?;
    let mut machine = FailingLaunch::new(MemLaunch::new(alloc), calls);
    let _ = launch(&mut machine, kind, None);
    let (tag, extended) = match machine.entry(0) {
        Some(entry) => (entry.tag, entry.extended),
        None => (None, false),
    };
    let is_measured = extended || machine.contexts() == 1;
    Ok((
        machine.phase(),
        machine.entries(),
        tag,
        is_measured,
        machine.digest(),
    ))
}

#[test]
fn each_command_fails_in_turn(rt: HostRuntime) -> Result<(), Fail> {
    for (number, phase, entries, tag, is_measured) in [
        (1, Phase::Idle, 0, None, false),
        (2, Phase::Loading, 0, None, false),
        (3, Phase::Loading, 1, None, false),
        (4, Phase::Loading, 1, Some(Tag::Normal), false),
        (5, Phase::Loading, 1, Some(Tag::Normal), true),
        (6, Phase::Done, 1, Some(Tag::Normal), true),
        (0, Phase::Done, 1, Some(Tag::Normal), true),
    ] {
        let is_done = phase == Phase::Done;
        let snp = if is_done { Some(snp_digest()) } else { None };
        let tdx = if is_done { Some(tdx_digest()) } else { None };
        assert_eq!(rt;
            left_by(rt.alloc(), PlatformKind::SevSnp, number)?,
            (phase, entries, tag, is_measured, snp),
            "on SEV-SNP at {number}"
        );
        assert_eq!(rt;
            left_by(rt.alloc(), PlatformKind::Tdx, number)?,
            (phase, entries, tag, is_measured, tdx),
            "on TDX at {number}"
        );
    }
    Ok(())
}
