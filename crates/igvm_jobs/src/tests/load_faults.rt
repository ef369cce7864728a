//! Loads whose machine, shelf or output fails at each call in turn: what is answered, and what every object
//! holds then.
use super::load_images::{PAGE, TDX_PAGE, TWO};
use super::loads::MEMORY;
use super::{failing_sink, run, words_of};
use crate::status::Status;
use igvm_headers::Tag;
use igvm_outside::{MemShelf, MemSink, read_all};
use igvm_words::Words;
use launch_platform::{FailingLaunch, Launch, MemLaunch, Phase};
use std::alloc::Global;
use std::test::Fail;

const LOADED: &str = "loaded 1 pages, 0 contexts\n\
    digest e6e4d78904d9d6b33c0cbfd121998fd2d11744dae606b3aee35e2a45d6869b60b35c63928a9232bef72d6be386f48ec6\n";

/// The number of the call that fails, of each object: 0 where none does.
#[derive(Clone, Copy)]
pub struct Failing {
    pub machine: u64,
    pub shelf: u64,
    pub out: u64,
}

pub const NONE: Failing = Failing {
    machine: 0,
    shelf: 0,
    out: 0,
};

/// How a job ended, and what it left.
#[derive(Drop)]
pub struct Left {
    pub status: Status,
    pub out: MemSink,
    pub err: MemSink,
    pub machine: FailingLaunch,
    pub is_written: bool,
    /// What OUT holds, nothing where it is not there.
    pub written: Vec<u8>,
}

/// A load of an image on 256 MB.
fn left_by(alloc: Global, image: &str, asked: &str, failing: Failing) -> Result<Left, Fail> {
    let text = format!(in alloc; "load FILE HOST --platform {asked}")?;
    let words = words_of(alloc, text.as_str())?;
    let mut shelf = MemShelf::new(alloc);
    shelf.put_file("FILE", &hex::decode(alloc, image)?)?;
    shelf.put_file("HOST", MEMORY.as_bytes())?;
    left_of(alloc, &words, shelf, failing)
}

/// What these words leave of a shelf. It gives and takes 1,000 bytes a call, and the output 8.
pub fn left_of(
    alloc: Global,
    words: &Words,
    mut shelf: MemShelf,
    failing: Failing,
) -> Result<Left, Fail> {
    shelf.set_piece(1000);
    shelf.fail_call(failing.shelf)?;
    let mut out = failing_sink(alloc, 8, failing.out)?;
    let mut err = MemSink::new(alloc);
    let mut calls = Vec::new(alloc);
    calls.push(failing.machine)?;
    let mut machine = FailingLaunch::new(MemLaunch::new(alloc), calls);
    let status = run(alloc, words, &mut shelf, &mut out, &mut err, &mut machine);
    let (is_written, written) = match read_all(alloc, &mut shelf, "OUT", 100_000) {
        Ok(written) => (true, written),
        Err(_) => (false, Vec::new(alloc)),
    };
    Ok(Left {
        status,
        out,
        err,
        machine,
        is_written,
        written,
    })
}

/// The phase of a machine, how many pages it holds, and how the first of them entered the launch.
type Standing = (Phase, u32, Option<(Option<Tag>, bool)>);

fn standing(machine: &FailingLaunch) -> Standing {
    let first = machine.entry(0).map(|entry| (entry.tag, entry.extended));
    (machine.phase(), machine.entries(), first)
}

/// An image, the command that fails, the status, and how the machine stands then.
static STOPS: [(&str, u64, Status, Standing); 11] = [
    (PAGE, 1, Status::Outside, (Phase::Idle, 0, None)),
    (PAGE, 2, Status::Outside, (Phase::Loading, 0, None)),
    (
        PAGE,
        3,
        Status::Outside,
        (Phase::Loading, 1, Some((None, false))),
    ),
    (
        PAGE,
        4,
        Status::Outside,
        (Phase::Loading, 1, Some((Some(Tag::Normal), false))),
    ),
    (
        PAGE,
        5,
        Status::Done,
        (Phase::Done, 1, Some((Some(Tag::Normal), false))),
    ),
    (TDX_PAGE, 1, Status::Outside, (Phase::Idle, 0, None)),
    (TDX_PAGE, 2, Status::Outside, (Phase::Loading, 0, None)),
    (
        TDX_PAGE,
        3,
        Status::Outside,
        (Phase::Loading, 1, Some((None, false))),
    ),
    (
        TDX_PAGE,
        4,
        Status::Outside,
        (Phase::Loading, 1, Some((Some(Tag::Normal), false))),
    ),
    (
        TDX_PAGE,
        5,
        Status::Outside,
        (Phase::Loading, 1, Some((Some(Tag::Normal), true))),
    ),
    (
        TDX_PAGE,
        6,
        Status::Done,
        (Phase::Done, 1, Some((Some(Tag::Normal), true))),
    ),
];

#[test]
fn each_command_may_fail(rt: HostRuntime) -> Result<(), Fail> {
    for (image, call, status, want) in &STOPS {
        let failing = Failing {
            machine: *call,
            ..NONE
        };
        let left = left_by(rt.alloc(), image, "0 --image OUT", failing)?;
        assert_eq!(rt; left.status, *status, "{call}");
        assert_eq!(rt; standing(&left.machine), *want, "{call}");
        if *status == Status::Outside {
            let machine = "igvm: outside fault: machine\n";
            assert_eq!(rt; left.err.bytes(), machine.as_bytes(), "{call}");
            assert!(rt; left.out.bytes().is_empty(), "{call}");
            assert!(rt; !left.is_written, "{call}");
        }
    }
    Ok(())
}

// FILE and HOST are opened, give their bytes and are at their end: six calls. Then OUT is created, takes 4,112
// bytes in five pieces and is closed.
#[test]
fn each_call_of_the_shelf_may_fail(rt: HostRuntime) -> Result<(), Fail> {
    let whole = left_by(rt.alloc(), PAGE, "snp --image OUT", NONE)?;
    assert_eq!(rt; whole.status, Status::Done);
    assert_eq!(rt; whole.out.bytes(), LOADED.as_bytes());
    assert_eq!(rt; whole.written.len(), 4112);
    for call in 1u64..14 {
        let failing = Failing {
            shelf: call,
            ..NONE
        };
        let left = left_by(rt.alloc(), PAGE, "snp --image OUT", failing)?;
        assert_eq!(rt; left.status, Status::Outside, "{call}");
        let shelf = "igvm: outside fault: shelf\n";
        assert_eq!(rt; left.err.bytes(), shelf.as_bytes(), "{call}");
        assert!(rt; left.out.bytes().is_empty(), "{call}");
        let phase = if call < 7 { Phase::Idle } else { Phase::Done };
        assert_eq!(rt; left.machine.phase(), phase, "{call}");
        let front = left.written.as_slice();
        let moved = 1000 * (u64::max(call, 8) - 8) as usize;
        assert_eq!(rt; left.is_written, call > 7, "{call}");
        assert_eq!(rt; front.len(), usize::min(moved, 4112), "{call}");
        assert!(rt; whole.written.as_slice().starts_with(front), "{call}");
    }
    Ok(())
}

/// An image, the words behind `--platform`, the text that is put, the phase, and whether OUT is there.
static PUTS: [(&str, &str, &str, Phase, bool); 2] = [
    (PAGE, "snp --image OUT", LOADED, Phase::Done, true),
    (
        TWO,
        "0 --image OUT",
        "does not fit: header 3: repeated\n",
        Phase::Idle,
        false,
    ),
];

#[test]
fn each_put_may_fail(rt: HostRuntime) -> Result<(), Fail> {
    for (image, asked, text, phase, is_written) in &PUTS {
        let puts = text.len().div_ceil(8) as u64;
        for call in 1..puts + 1 {
            let failing = Failing { out: call, ..NONE };
            let left = left_by(rt.alloc(), image, asked, failing)?;
            let put = left.out.bytes();
            assert_eq!(rt; left.status, Status::Outside, "{asked}, {call}");
            assert!(rt; text.as_bytes().starts_with(put), "{asked}, {call}");
            assert_eq!(rt; put.len() as u64, 8 * (call - 1), "{asked}, {call}");
            let output = "igvm: outside fault: output\n";
            assert_eq!(rt; left.err.bytes(), output.as_bytes(), "{asked}, {call}");
            assert_eq!(rt; left.machine.phase(), *phase, "{asked}, {call}");
            assert_eq!(rt; left.is_written, *is_written, "{asked}, {call}");
        }
    }
    Ok(())
}
