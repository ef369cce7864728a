//! A job, done over any shelf, outputs and launch machine.
ghost use Rattle.std.specs.Prelude.{◌≡◌};
ghost use Rattle.igvm_words.specs.WordsOfJob.{IsJob};
ghost use Rattle.igvm_words.specs.JobView.{job_view};
ghost use Rattle.igvm_jobs.specs.Jobs.{task_of};
ghost use Rattle.igvm_jobs.specs.Endings.{EndsOn};
ghost use Rattle.igvm_jobs.specs.Clauses.{KeepsPromises};

use crate::building::build_file;
use crate::loading::load_file;
use crate::making::make_file;
use crate::measuring::put_digest;
use crate::printing::put_listing;
use crate::refusal::{Ended, Refusal, finish};
use crate::status::Status;
use igvm_outside::{Shelf, Sink};
use igvm_words::Job;
use launch_platform::{Launch, Phase};
use std::alloc::Global;

/// Does a job that words can ask for, and puts its line where it is refused. The machine must be idle.
pub fn run_job<S: Shelf, O: Sink, E: Sink, L: Launch>(
    alloc: Global,
    job: Job<'_>,
    shelf: &mut S,
    out: &mut O,
    err: &mut E,
    machine: &mut L,
) -> Status
    requires idle { (L.state machine.old).phase ≡ Phase.Idle }
    requires possible { IsJob (job_view job) }
    ensures { KeepsPromises S.Shelf O.Sink E.Sink L.Launch (task_of (job_view job.entry)) result
        shelf.old shelf.new out.old out.new err.old err.new machine.old machine.new }
{
    let end = do_job(alloc, job, shelf, out, machine);
    finish(err, &end)
}

/// Does a job.
fn do_job<S: Shelf, O: Sink, L: Launch>(
    alloc: Global,
    job: Job<'_>,
    shelf: &mut S,
    out: &mut O,
    machine: &mut L,
) -> Result<Ended, Refusal>
    requires idle { (L.state machine.old).phase ≡ Phase.Idle }
    requires possible { IsJob (job_view job) }
    ensures { EndsOn S.Shelf O.Sink L.Launch (task_of (job_view job.entry)) result
        shelf.old shelf.new out.old out.new machine.old machine.new }
{
    match job {
        Job::Build { list, target } => build_file(alloc, list, target, shelf, out),
        Job::Print { file } => put_listing(alloc, file, shelf, out),
        Job::Measure(words) => put_digest(alloc, words, shelf, out),
        Job::Load(words) => load_file(alloc, words, shelf, out, machine),
        Job::Make { count, target } => make_file(alloc, count, target, shelf, out, machine),
    }
}
