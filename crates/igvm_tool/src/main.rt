//! Builds, prints, measures, loads and makes IGVM images, and what goes into them: docs/PROGRAM.md.
#![tactic(auto)]

mod elf_building;
mod elf_texts;
mod further;
mod laws;
mod running;
mod sev_loading;
mod sev_measuring;
#[cfg(test)]
mod tests;
mod texts;
mod vmsa_building;
mod vmsa_printing;

use igvm_headers::Memory;
use igvm_jobs::{Refusal, Status, finish};
use igvm_outside::{StdShelf, StdSink};
use igvm_words::Words;
use launch_platform::MemLaunch;
use running::run_all;
use sev_platform::SevMemLaunch;
use std::process::ExitCode;
use std::{env, io};

/// The words behind the program's name. Where one is not text there are none, which is usage.
fn given_words(rt: HostRuntime) -> Result<Words, Memory> {
    let mut words = Words::new(rt.alloc());
    let given = match env::args(&rt) {
        Ok(given) => given,
        Err(error) if error.kind() == io::ErrorKind::OutOfMemory => return Err(Memory),
        Err(_) => return Ok(words),
    };
    'words: for word in given.skip(1) {
        words.push(word.as_str())?;
    }
    Ok(words)
}

fn status_of(rt: HostRuntime) -> Status {
    let mut err = StdSink::error(rt);
    let words = match given_words(rt) {
        Ok(words) => words,
        Err(Memory) => return finish(&mut err, &Err(Refusal::Memory)),
    };
    let mut shelf = StdShelf::new(rt);
    let mut out = StdSink::output(rt);
    let mut machine = MemLaunch::new(rt.alloc());
    let mut sev = SevMemLaunch::new(rt.alloc());
    run_all(
        rt.alloc(),
        &words,
        &mut shelf,
        &mut out,
        &mut err,
        &mut machine,
        &mut sev,
    )
}

fn main(rt: HostRuntime) -> ExitCode {
    ExitCode::from(status_of(rt).code())
}
