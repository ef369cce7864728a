//! Worked examples through `run_all`, over shelves, outputs and machines in memory.
mod elf_images;
mod further_faults;
mod operations;
mod sev_digests;
mod sev_loads;
mod usage;
mod vmsa_pages;

use crate::running::run_all;
use igvm_headers::Memory;
use igvm_jobs::Status;
use igvm_outside::{MemShelf, MemSink};
use igvm_words::Words;
use launch_platform::{Launch, MemLaunch, Phase};
use sev_platform::{SevLaunch, SevMemLaunch};
use std::alloc::Global;
use std::process::Abort;

/// Words that stand between single spaces.
fn words_of(alloc: Global, text: &str) -> Result<Words, Memory> {
    let mut words = Words::new(alloc);
    for word in text.split(' ') {
        words.push(word)?;
    }
    Ok(words)
}

/// Runs words over a shelf. The status, the output and the error output must be these, and both machines
/// are idle.
fn must_run(
    rt: &impl Abort,
    name: &str,
    alloc: Global,
    words: &Words,
    shelf: &mut MemShelf,
    want: (Status, &str, &str),
) {
    let mut out = MemSink::new(alloc);
    let mut err = MemSink::new(alloc);
    let mut machine = MemLaunch::new(alloc);
    let mut sev = SevMemLaunch::new(alloc);
    let status = run_all(
        alloc,
        words,
        shelf,
        &mut out,
        &mut err,
        &mut machine,
        &mut sev,
    );
    assert_eq!(rt; status, want.0, "{name}");
    assert_eq!(rt; out.bytes(), want.1.as_bytes(), "{name}");
    assert_eq!(rt; err.bytes(), want.2.as_bytes(), "{name}");
    assert_eq!(rt; machine.phase(), Phase::Idle, "{name}");
    assert_eq!(rt; sev.phase(), Phase::Idle, "{name}");
}
