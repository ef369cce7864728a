//! Worked examples by their words, over shelves, outputs and machines in memory. An image is written in
//! hexadecimal digits; its checksum is from Python's `zlib`, its digests are from `hashlib`.
ghost use Rattle.std.specs.Prelude.{◌≡◌};

mod built_images;
mod faults;
mod limits;
mod listings;
mod load_faults;
mod load_images;
mod loads;
mod long_listings;
mod made_images;
mod native_zero;
mod page_bytes;
mod pages_files;
mod platforms;
mod refused_files;
mod refused_lists;
mod snp_digests;
mod tdx_digests;

use crate::running::run_job;
use crate::status::Status;
use igvm_headers::Memory;
use igvm_outside::{MemShelf, MemSink, Shelf, Sink};
use igvm_words::{Words, job_of};
use launch_platform::{Launch, MemLaunch, Phase};
use std::alloc::Global;
use std::process::Abort;
use std::test::Fail;

/// Words that stand between single spaces.
fn words_of(alloc: Global, text: &str) -> Result<Words, Memory> {
    let mut words = Words::new(alloc);
    for word in text.split(' ') {
        words.push(word)?;
    }
    Ok(words)
}

/// Does the job of these words, which mean one.
fn run<S: Shelf, O: Sink, E: Sink, L: Launch>(
    alloc: Global,
    words: &Words,
    shelf: &mut S,
    out: &mut O,
    err: &mut E,
    machine: &mut L,
) -> Status
    requires { (L.state machine.old).phase ≡ Phase.Idle }
{
    match job_of(words) {
        Some(job) => run_job(alloc, job, shelf, out, err, machine),
        None => Status::Usage,
    }
}

/// A shelf whose one file, FILE, has these bytes.
fn shelf_of(alloc: Global, file: &[u8]) -> Result<MemShelf, Memory> {
    let mut shelf = MemShelf::new(alloc);
    shelf.put_file("FILE", file)?;
    Ok(shelf)
}

/// Runs words over a shelf. The status, the output and the error output must be these.
fn must_run<S: Shelf>(
    rt: &impl Abort,
    name: &str,
    alloc: Global,
    words: &Words,
    shelf: &mut S,
    want: (Status, &str, &str),
) {
    let mut out = MemSink::new(alloc);
    let mut err = MemSink::new(alloc);
    let mut machine = MemLaunch::new(alloc);
    let status = run(alloc, words, shelf, &mut out, &mut err, &mut machine);
    assert_eq!(rt; status, want.0, "{name}");
    assert_eq!(rt; out.bytes(), want.1.as_bytes(), "{name}");
    assert_eq!(rt; err.bytes(), want.2.as_bytes(), "{name}");
}

/// An output that takes pieces of this size, and fails at one call, or at none where that is 0.
fn failing_sink(alloc: Global, piece: usize, call: u64) -> Result<MemSink, Memory> {
    let mut sink = MemSink::new(alloc);
    sink.set_piece(usize::max(piece, 1));
    sink.fail_call(call)?;
    Ok(sink)
}

/// How a run ended, and what it put.
#[derive(Drop)]
struct Ran {
    status: Status,
    out: MemSink,
    err: MemSink,
}

fn run_with(
    alloc: Global,
    words: &Words,
    shelf: &mut MemShelf,
    mut out: MemSink,
    mut err: MemSink,
) -> Ran {
    let mut machine = MemLaunch::new(alloc);
    let status = run(alloc, words, shelf, &mut out, &mut err, &mut machine);
    Ran { status, out, err }
}

/// The start of a file, and headers that have the numbers from 0 on between the same bytes.
fn numbered(
    alloc: Global,
    start: &str,
    header: (&[u8], &[u8]),
    count: u32,
) -> Result<Vec<u8>, Fail> {
    let mut file = hex::decode(alloc, start)?;
    for number in 0..count {
        file.extend_from_slice(header.0)?;
        file.extend_from_slice(&number.to_le_bytes())?;
        file.extend_from_slice(header.1)?;
    }
    Ok(file)
}
