//! Each command of a load failing in turn: the answer, and what stands in the machine then.
use super::host::{Answer, Host, MEMORY};
use super::images::*;
use crate::{ExecuteRefusal, LoadAnswer};
use igvm_headers::{Options, Tag};
use launch_platform::{FailingLaunch, Launch, MemLaunch, Phase};
use std::process::Abort;
use std::test::Fail;

/// What stands in a machine: how far it came, how many pages and contexts, the tag of the last page, and
/// whether it was extended.
type Standing = (Phase, u32, u32, Option<Tag>, bool);

/// What stands in a machine.
fn standing(machine: &FailingLaunch) -> Standing {
    let count = machine.entries();
    let (tag, extended) = match machine.entry(count.saturating_sub(1)) {
        Some(entry) => (entry.tag, entry.extended),
        None => (None, false),
    };
    (machine.phase(), count, machine.contexts(), tag, extended)
}

/// What a load comes to whose command of a number fails, and what stands in the machine then.
fn left_by(
    rt: &impl Abort,
    host: &Host,
    file: &[u8],
    number: u32,
    command: u64,
) -> Result<(Answer, Standing), Fail> {
    let mut calls = Vec::new(host.alloc);
    calls.push(command)?;
    let mut machine = FailingLaunch::new(MemLaunch::new(host.alloc), calls);
    let answer = host.load_into(rt, file, number, Options::plain(), &mut machine)?;
    Ok((answer, standing(&machine)))
}

#[test]
fn each_command_fails_in_turn(rt: HostRuntime) -> Result<(), Fail> {
    let host = Host::new(rt.alloc(), &[MEMORY])?;
    let normal = Some(Tag::Normal);
    for (header, number, command, want) in [
        (NONE, 0, 1, (Phase::Idle, 0, 0, None, false)),
        (NONE, 0, 2, (Phase::Loading, 0, 0, None, false)),
        (NONE, 0, 3, (Phase::Loading, 1, 0, None, false)),
        (NONE, 0, 4, (Phase::Loading, 1, 0, normal, false)),
        (NONE, 0, 5, (Phase::Done, 1, 0, normal, false)),
        (NONE, 1, 1, (Phase::Idle, 0, 0, None, false)),
        (NONE, 1, 2, (Phase::Loading, 0, 0, None, false)),
        (NONE, 1, 3, (Phase::Loading, 1, 0, None, false)),
        (NONE, 1, 4, (Phase::Loading, 1, 0, normal, false)),
        (NONE, 1, 5, (Phase::Loading, 1, 0, normal, true)),
        (NONE, 1, 6, (Phase::Done, 1, 0, normal, true)),
        (PAGE_2000, 0, 4, (Phase::Loading, 1, 0, normal, false)),
        (PAGE_2000, 0, 5, (Phase::Loading, 2, 0, None, false)),
        (PAGE_2000, 1, 5, (Phase::Loading, 1, 0, normal, true)),
        (PAGE_2000, 1, 7, (Phase::Loading, 2, 0, normal, false)),
        (CONTEXT_1, 0, 4, (Phase::Loading, 1, 0, normal, false)),
        (CONTEXT_1, 0, 5, (Phase::Loading, 1, 1, normal, false)),
        (CONTEXT_1, 0, 6, (Phase::Done, 1, 1, normal, false)),
    ] {
        let headers = [SNP, TDX, PAGE, header].concat(rt.alloc())?;
        let file = image(rt.alloc(), &headers, NONE)?;
        let (answer, found) = left_by(&rt, &host, &file, number, command)?;
        assert_eq!(rt; found, want, "platform {number}, command {command}");
        if want.0 == Phase::Done {
            assert!(rt; matches!(answer, Ok(Ok(LoadAnswer::Loaded(_)))));
        } else {
            assert_eq!(rt; answer, Ok(Err(ExecuteRefusal::Launch)));
        }
    }
    Ok(())
}
