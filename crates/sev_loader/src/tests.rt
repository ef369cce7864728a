//! Made images, loaded into SEV and SEV-ES machines: what stands in the machine then, with its digest, as Python's
//! hashlib has it of the bytes that count; images that don't fit; and each command failing in turn.
ghost use Rattle.std.specs.Prelude.{◌≡◌};

use crate::{SevAnswer, SevRefusal, sev_load};
use directive_rules::{Misfit, Why};
use host_set::{HostSet, MemoryPlan, PlanRange};
use igvm_headers::PlatformKind;
use igvm_image::open_image;
use launch_platform::Phase;
use sev_chain::Digest32;
use sev_platform::{FailingSevLaunch, SevLaunch, SevMemLaunch};
use std::alloc::{AllocError, Global};
use std::process::Abort;
use std::test::Fail;

/// Platforms of the kinds SEV, SEV-ES and SEV-SNP under masks 1, 2 and 4. For the first two a page of the
/// data at 0x1000, one unmeasured at 0x2000, an area of zeros inserted at 0x3000, for SEV-ES a context of
/// zeros, and a page of zeros at 0x4000; 4,096 bytes `a` follow.
const WHOLE: &[u8] = b"\
    \x49\x47\x56\x4d\x01\x00\x00\x00\x18\x00\x00\x00\xf8\x00\x00\x00\x10\x11\x00\x00\x5a\x97\xcc\x3f\
    \x01\x00\x00\x00\x10\x00\x00\x00\x01\x00\x00\x00\x00\x04\x01\x00\x00\x00\x00\x00\x00\x00\x00\x00\
    \x01\x00\x00\x00\x10\x00\x00\x00\x02\x00\x00\x00\x00\x05\x01\x00\x00\x00\x00\x00\x00\x00\x00\x00\
    \x01\x00\x00\x00\x10\x00\x00\x00\x04\x00\x00\x00\x00\x02\x01\x00\x00\x00\x00\x00\x00\x00\x00\x00\
    \x02\x03\x00\x00\x18\x00\x00\x00\x00\x10\x00\x00\x00\x00\x00\x00\x03\x00\x00\x00\x10\x01\x00\x00\
    \x00\x00\x00\x00\x00\x00\x00\x00\x02\x03\x00\x00\x18\x00\x00\x00\x00\x20\x00\x00\x00\x00\x00\x00\
    \x03\x00\x00\x00\x10\x01\x00\x00\x02\x00\x00\x00\x00\x00\x00\x00\x01\x03\x00\x00\x10\x00\x00\x00\
    \x00\x10\x00\x00\x00\x00\x00\x00\x00\x00\x00\x00\x00\x00\x00\x00\x03\x03\x00\x00\x10\x00\x00\x00\
    \x00\x30\x00\x00\x00\x00\x00\x00\x03\x00\x00\x00\x00\x00\x00\x00\x04\x03\x00\x00\x14\x00\x00\x00\
    \x00\xf0\xff\xff\xff\xff\x00\x00\x02\x00\x00\x00\x00\x00\x00\x00\x00\x00\x00\x00\x00\x00\x00\x00\
    \x02\x03\x00\x00\x18\x00\x00\x00\x00\x40\x00\x00\x00\x00\x00\x00\x03\x00\x00\x00\x00\x00\x00\x00\
    \x00\x00\x00\x00\x00\x00\x00\x00";

/// The same platforms, a page of zeros at 0x1000, and a context of zeros for both.
const CONTEXT: &[u8] = b"\
    \x49\x47\x56\x4d\x01\x00\x00\x00\x18\x00\x00\x00\x88\x00\x00\x00\xa0\x00\x00\x00\x6f\xb8\xfd\x81\
    \x01\x00\x00\x00\x10\x00\x00\x00\x01\x00\x00\x00\x00\x04\x01\x00\x00\x00\x00\x00\x00\x00\x00\x00\
    \x01\x00\x00\x00\x10\x00\x00\x00\x02\x00\x00\x00\x00\x05\x01\x00\x00\x00\x00\x00\x00\x00\x00\x00\
    \x01\x00\x00\x00\x10\x00\x00\x00\x04\x00\x00\x00\x00\x02\x01\x00\x00\x00\x00\x00\x00\x00\x00\x00\
    \x02\x03\x00\x00\x18\x00\x00\x00\x00\x10\x00\x00\x00\x00\x00\x00\x03\x00\x00\x00\x00\x00\x00\x00\
    \x00\x00\x00\x00\x00\x00\x00\x00\x04\x03\x00\x00\x14\x00\x00\x00\x00\x20\x00\x00\x00\x00\x00\x00\
    \x03\x00\x00\x00\x00\x00\x00\x00\x01\x00\x00\x00\x00\x00\x00\x00";

/// SHA-256 of 4,096 bytes `a` and 4,096 zeros.
const ON_SEV: &[u8; 32] = b"\
    \x16\xd2\xec\x3e\xa2\x73\x98\x3d\x2f\xd3\x87\x6e\x45\x5e\x67\xde\x16\x0c\x0e\xc8\x6d\x1b\x84\x3a\
    \x5b\x8f\xfb\x8b\xac\xa8\x36\xdf";

/// SHA-256 of 4,096 bytes `a` and 8,192 zeros.
const ON_SEV_ES: &[u8; 32] = b"\
    \x09\xef\x8a\x6e\x49\xbc\xfe\x83\xa5\xed\xd3\x6e\xde\x7d\x5a\xc3\xfb\x87\x3a\xd6\x48\xbf\x19\xc8\
    \x74\x4a\xec\xa5\x3c\x8a\xc5\x40";

/// Guest memory from 0 on.
const fn memory(bytes: u64) -> PlanRange {
    PlanRange { start: 0, bytes }
}

/// An image with its data.
fn file_of(alloc: Global, headers: &[u8], data: u32) -> Result<Vec<u8>, AllocError> {
    let mut file = Vec::new(alloc);
    file.extend_from_slice(headers)?;
    for _ in 0..data {
        file.push(b'a')?;
    }
    Ok(file)
}

/// What the platform of a number comes to in a machine, with so much guest memory and no values.
fn load_into<M: SevLaunch>(
    rt: &impl Abort,
    alloc: Global,
    file: &[u8],
    number: u32,
    bytes: u64,
    machine: &mut M,
) -> Result<Result<SevAnswer, SevRefusal>, Fail>
    requires { (M.state machine.old).phase ≡ Phase.Idle }
{
    assert!(rt; file.len() <= 536_870_912);
    let ranges = [memory(bytes)].to_vec(alloc)?;
    let plan = MemoryPlan::from_ranges(ranges).ok().ok_or("refused")?;
    let host = HostSet::empty(alloc);
    let view = open_image(file).expect(rt, "a file that breaks no rule");
    let platform = view.platforms().by_number(number).ok_or("no platform")?;
    Ok(sev_load(alloc, &view, platform, &plan, &host, machine))
}

#[test]
fn loads_on_both_kinds(rt: HostRuntime) -> Result<(), Fail> {
    let file = file_of(rt.alloc(), WHOLE, 4096)?;
    for (number, contexts, want) in [(0, 0, ON_SEV), (1, 1, ON_SEV_ES)] {
        let mut machine = SevMemLaunch::new(rt.alloc());
        let answer = load_into(&rt, rt.alloc(), &file, number, 0x8000, &mut machine)?;
        let digest = Digest32::of_bytes(*want);
        assert_eq!(rt; answer, Ok(SevAnswer::Loaded(digest)), "platform {number}");
        assert!(rt; machine.phase() == Phase::Done && machine.digest() == Some(digest));
        assert_eq!(rt; (machine.entries(), machine.contexts()), (4, contexts));
        for (k, gpa, byte, measured) in [
            (0, 0x1000, b'a', true),
            (1, 0x2000, b'a', false),
            (2, 0x3000, 0, false),
            (3, 0x4000, 0, true),
        ] {
            let entry = machine.entry(k).ok_or("no entry")?;
            assert!(rt; entry.gpa == gpa && entry.measured == measured, "entry {k}");
            assert!(rt; entry.page.iter().all(|found| *found == byte), "entry {k}");
        }
    }
    Ok(())
}

/// The answer that names a header.
fn misfit(index: u32, why: Why) -> Result<SevAnswer, SevRefusal> {
    Ok(SevAnswer::DoesNotFit(Misfit { index, why }))
}

#[test]
fn names_what_does_not_fit(rt: HostRuntime) -> Result<(), Fail> {
    let kind = PlatformKind::SevSnp;
    for (headers, data, number, bytes, want) in [
        (CONTEXT, 0, 0, 0x8000, misfit(4, Why::ContextNotHere)),
        (WHOLE, 4096, 0, 0x2000, misfit(4, Why::Outside)),
        (WHOLE, 4096, 1, 0x4000, misfit(8, Why::Outside)),
        (CONTEXT, 0, 2, 0x1000, Err(SevRefusal::NoDigest { kind })),
    ] {
        let file = file_of(rt.alloc(), headers, data)?;
        let mut machine = SevMemLaunch::new(rt.alloc());
        let answer = load_into(&rt, rt.alloc(), &file, number, bytes, &mut machine)?;
        assert_eq!(rt; answer, want, "platform {number}, {bytes} bytes");
        assert!(rt; machine.phase() == Phase::Idle && machine.entries() == 0);
    }
    Ok(())
}

/// The command of each number fails once, of the nine that load the image on SEV-ES.
#[test]
fn each_command_fails_in_turn(rt: HostRuntime) -> Result<(), Fail> {
    let file = file_of(rt.alloc(), WHOLE, 4096)?;
    for (command, want) in [
        (1, (Phase::Idle, 0, 0, false)),
        (2, (Phase::Loading, 0, 0, false)),
        (3, (Phase::Loading, 1, 0, false)),
        (4, (Phase::Loading, 1, 0, true)),
        (5, (Phase::Loading, 2, 0, false)),
        (6, (Phase::Loading, 3, 0, false)),
        (7, (Phase::Loading, 3, 1, false)),
        (8, (Phase::Loading, 4, 1, false)),
        (9, (Phase::Loading, 4, 1, true)),
        (10, (Phase::Done, 4, 1, true)),
    ] {
        let mut calls = Vec::new(rt.alloc());
        calls.push(command)?;
        let mut machine = FailingSevLaunch::new(SevMemLaunch::new(rt.alloc()), calls);
        let answer = load_into(&rt, rt.alloc(), &file, 1, 0x8000, &mut machine)?;
        if want.0 == Phase::Done {
            assert!(rt; matches!(answer, Ok(SevAnswer::Loaded(_))));
        } else {
            assert_eq!(rt; answer, Err(SevRefusal::Launch));
        }
        let last = match machine.entry(machine.entries().saturating_sub(1)) {
            Some(entry) => entry.measured,
            None => false,
        };
        let found = (machine.phase(), machine.entries(), machine.contexts(), last);
        assert_eq!(rt; found, want, "command {command}");
    }
    Ok(())
}
