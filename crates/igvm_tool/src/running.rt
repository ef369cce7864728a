//! All that the program does, over any shelf, outputs and launch machines.
ghost use Rattle.std.specs.Prelude.{◌≡◌};
ghost use Rattle.igvm_words.specs.Words.{job_of};
ghost use Rattle.further_words.specs.FurtherWords.{any_job_of};
ghost use Rattle.igvm_jobs.specs.Clauses.{KeepsPromises};
ghost use Rattle.igvm_tool.specs.AllJobs.{words_task, KeepsAll};

use crate::further::do_further;
use crate::texts::USAGE;
use further_words::further_of;
use igvm_jobs::{Status, finish, put_text, run_job};
use igvm_outside::{Shelf, Sink};
use igvm_words::{Words, job_of};
use launch_platform::{Launch, Phase};
use sev_platform::SevLaunch;
use std::alloc::Global;

/// Does the job that the words mean, whichever command it is of, or puts the usage text where they mean
/// none. Both machines must be idle.
pub fn run_all<S: Shelf, O: Sink, E: Sink, L: Launch, M: SevLaunch>(
    alloc: Global,
    words: &Words,
    shelf: &mut S,
    out: &mut O,
    err: &mut E,
    machine: &mut L,
    sev: &mut M,
) -> Status
    requires idle { (L.state machine.old).phase ≡ Phase.Idle }
    requires sev_idle { (M.state sev.old).phase ≡ Phase.Idle }
    ensures { KeepsAll S.Shelf O.Sink E.Sink L.Launch M.SevLaunch (any_job_of words.now) result
        shelf.old shelf.new out.old out.new err.old err.new machine.old machine.new sev.old sev.new }
{
    match further_of(words) {
        Some(job) => {
            let end = do_further(alloc, job, shelf, out, sev);
            finish(err, &end)
        }
        None => run(alloc, words, shelf, out, err, machine),
    }
}

/// Does the job that the words mean, of the five first commands, or puts the usage text where they mean
/// none. The machine must be idle.
pub fn run<S: Shelf, O: Sink, E: Sink, L: Launch>(
    alloc: Global,
    words: &Words,
    shelf: &mut S,
    out: &mut O,
    err: &mut E,
    machine: &mut L,
) -> Status
    requires { (L.state machine.old).phase ≡ Phase.Idle }
    ensures { KeepsPromises S.Shelf O.Sink E.Sink L.Launch (words_task (job_of words.now)) result
        shelf.old shelf.new out.old out.new err.old err.new machine.old machine.new }
{
    match job_of(words) {
        Some(job) => run_job(alloc, job, shelf, out, err, machine),
        None => {
            put_text(err, USAGE);
            Status::Usage
        }
    }
}
