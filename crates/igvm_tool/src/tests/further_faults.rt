//! Further commands whose shelf or output fails at each call in turn: what is answered, and what OUT holds
//! then. The shelf gives and takes 1,000 bytes a call, and the output 8.
use super::elf_images::{ELF, PLATFORM, shelf_with};
use super::operations::put_images;
use super::sev_digests::SEV;
use super::words_of;
use crate::running::run_all;
use igvm_jobs::Status;
use igvm_outside::{MemShelf, MemSink, read_all};
use launch_platform::{Launch, MemLaunch, Phase};
use sev_platform::{SevLaunch, SevMemLaunch};
use std::alloc::Global;
use std::test::Fail;

/// A job: its words, how many calls of the shelf read and how many write, and the text that is put.
static JOBS: [(&str, u64, u64, &str); 8] = [
    (
        "sev-measure SEV --platform sev",
        3,
        0,
        "e3b0c44298fc1c149afbf4c8996fb92427ae41e4649b934ca495991b7852b855\n",
    ),
    (
        "sev-load SEV HOST --platform 0",
        6,
        0,
        "loaded 0 pages, 0 contexts\n\
        digest e3b0c44298fc1c149afbf4c8996fb92427ae41e4649b934ca495991b7852b855\n",
    ),
    ("vmsa-build JSON OUT", 3, 7, "built 4096 bytes\n"),
    ("vmsa-print PAGE", 7, 0, r#"{"rip":"0xfff0"}"#),
    ("build-elf LIST ELF 1 OUT", 6, 13, "built 8336 bytes\n"),
    ("strip SNP OUT --platform 0", 3, 3, "built 48 bytes\n"),
    ("join SNP SNP OUT", 6, 3, "built 72 bytes\n"),
    ("seal BLOCK OUT --platform snp", 3, 3, "built 784 bytes\n"),
];

/// The files of all of them. OUT is not there.
fn shelf_of(alloc: Global) -> Result<MemShelf, Fail> {
    let mut shelf = shelf_with(alloc, PLATFORM, &hex::decode(alloc, ELF)?)?;
    put_images(alloc, &mut shelf)?;
    shelf.put_file("SEV", &hex::decode(alloc, SEV)?)?;
    shelf.put_file("HOST", br#"{"memory":[{"start":"0x0","bytes":"0x1000"}]}"#)?;
    shelf.put_file("JSON", br#"{"rip":"0xfff0"}"#)?;
    let mut page = Vec::new(alloc);
    page.resize(4096, 0)?;
    page[0x178] = 0xF0;
    page[0x179] = 0xFF;
    shelf.put_file("PAGE", page.as_slice())?;
    Ok(shelf)
}

/// What a job left.
#[derive(Drop)]
struct Left {
    status: Status,
    out: MemSink,
    err: MemSink,
    phase: Phase,
    /// That of the SEV machine.
    sev_phase: Phase,
    is_written: bool,
    /// What OUT holds, nothing where it is not there.
    written: Vec<u8>,
}

/// What words leave where these calls of the shelf, the output and the error output fail; 0 is none.
fn left_by(alloc: Global, text: &str, calls: (u64, u64, u64)) -> Result<Left, Fail> {
    let words = words_of(alloc, text)?;
    let mut shelf = shelf_of(alloc)?;
    shelf.set_piece(1000);
    shelf.fail_call(calls.0)?;
    let mut out = MemSink::new(alloc);
    out.set_piece(8);
    out.fail_call(calls.1)?;
    let mut err = MemSink::new(alloc);
    err.set_piece(8);
    err.fail_call(calls.2)?;
    let mut machine = MemLaunch::new(alloc);
    let mut sev = SevMemLaunch::new(alloc);
    let status = run_all(
        alloc,
        &words,
        &mut shelf,
        &mut out,
        &mut err,
        &mut machine,
        &mut sev,
    );
    let phase = machine.phase();
    let sev_phase = sev.phase();
    let (is_written, written) = match read_all(alloc, &mut shelf, "OUT", 100_000) {
        Ok(written) => (true, written),
        Err(_) => (false, Vec::new(alloc)),
    };
    Ok(Left {
        status,
        out,
        err,
        phase,
        sev_phase,
        is_written,
        written,
    })
}

#[test]
fn each_call_of_the_shelf_may_fail(rt: HostRuntime) -> Result<(), Fail> {
    for (text, reads, writes, _) in &JOBS {
        let whole = left_by(rt.alloc(), text, (0, 0, 0))?;
        let mut before = 0;
        for call in 1..*reads + *writes + 1 {
            let left = left_by(rt.alloc(), text, (call, 0, 0))?;
            assert_eq!(rt; left.status, Status::Outside, "{text}, {call}");
            assert_eq!(rt;
                left.err.bytes(),
                b"igvm: outside fault: shelf\n".as_slice(),
                "{text}, {call}"
            );
            assert!(rt; left.out.bytes().is_empty(), "{text}, {call}");
            assert_eq!(rt; left.phase, Phase::Idle, "{text}, {call}");
            assert_eq!(rt; left.sev_phase, Phase::Idle, "{text}, {call}");
            assert_eq!(rt; left.is_written, call > *reads + 1, "{text}, {call}");
            let front = left.written.as_slice();
            assert!(rt;
                whole.written.as_slice().starts_with(front),
                "{text}, {call}"
            );
            assert!(rt; before <= front.len(), "{text}, {call}");
            before = front.len();
        }
        assert_eq!(rt; before, whole.written.len(), "{text}");
    }
    Ok(())
}

#[test]
fn each_put_may_fail(rt: HostRuntime) -> Result<(), Fail> {
    for (text, _, _, put) in &JOBS {
        let whole = left_by(rt.alloc(), text, (0, 0, 0))?;
        assert_eq!(rt; whole.status, Status::Done, "{text}");
        assert_eq!(rt; whole.out.bytes(), put.as_bytes(), "{text}");
        for call in 1..put.len().div_ceil(8) as u64 + 1 {
            let left = left_by(rt.alloc(), text, (0, call, 0))?;
            assert_eq!(rt; left.status, Status::Outside, "{text}, {call}");
            assert_eq!(rt;
                left.err.bytes(),
                b"igvm: outside fault: output\n".as_slice(),
                "{text}, {call}"
            );
            assert!(rt;
                put.as_bytes().starts_with(left.out.bytes()),
                "{text}, {call}"
            );
            assert_eq!(rt;
                left.out.bytes().len() as u64,
                8 * (call - 1),
                "{text}, {call}"
            );
            assert_eq!(rt; left.sev_phase, whole.sev_phase, "{text}, {call}");
            assert_eq!(rt;
                left.written.as_slice(),
                whole.written.as_slice(),
                "{text}, {call}"
            );
        }
    }
    Ok(())
}

// The line is refused, and its front stays.
#[test]
fn a_failing_error_output_changes_no_status(rt: HostRuntime) -> Result<(), Fail> {
    for (text, _, _, _) in &JOBS {
        let left = left_by(rt.alloc(), text, (1, 0, 2))?;
        assert_eq!(rt; left.status, Status::Outside, "{text}");
        assert_eq!(rt; left.err.bytes(), b"igvm: ou".as_slice(), "{text}");
    }
    Ok(())
}
