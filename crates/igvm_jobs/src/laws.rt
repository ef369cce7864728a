//! What holds of all that is promised of a job: laws, functions that do nothing.
ghost use Rattle.std.specs.Prelude.{ℕ, List, IfSome};
ghost use Rattle.platform_masks.specs.declared.platform.Platform.{Platform};
ghost use Rattle.host_set.specs.declared.range.PlanRange.{PlanRange};
ghost use Rattle.host_set.specs.Hosts.{HostValues};
ghost use Rattle.igvm_outside.specs.Files.{Files};
ghost use Rattle.igvm_words.specs.Words.{Job, MeasureWords, LoadWords};
ghost use Rattle.igvm_jobs.specs.declared.status.Status as status;
ghost use Rattle.igvm_jobs.specs.Jobs.{task_of};
ghost use Rattle.igvm_jobs.specs.PrintJob.{print_task};
ghost use Rattle.igvm_jobs.specs.MeasureJob.{measure_task};
ghost use Rattle.igvm_jobs.specs.BuildJob.{build_task};
ghost use Rattle.igvm_jobs.specs.LoadJob.{load_task};
ghost use Rattle.igvm_jobs.specs.MakeJob.{make_task};
ghost use Rattle.igvm_jobs.specs.Clauses.{KeepsPromises, Gains, IsPut};
ghost use Rattle.igvm_jobs.specs.Headline.{IsAsked, Agree};
ghost use Rattle.igvm_jobs.specs.JobAnswers.{FollowsFiles, PrintAnswers, MeasureAnswers, BuildAnswers, LoadAnswers, LoadIsTold, MakeAnswers};

use crate::status::Status;
use igvm_outside::{Shelf, Sink};
use launch_platform::Launch;

/// Where the files are told, all that is promised of a job holds of what it gives over them.
pub fn told_files_decide<S: Shelf, O: Sink, E: Sink, L: Launch>()
    ensures { (job : Job) (status : status.Status)
        (shelf shelf' : S) (out out' : O) (err err' : E) (machine machine' : L)
        → KeepsPromises S.Shelf O.Sink E.Sink L.Launch (task_of job) status
        shelf shelf' out out' err err' machine machine'
        → IfSome (S.told shelf)
        (FollowsFiles S.Shelf O.Sink E.Sink L.Launch (task_of job) status shelf shelf' out out'
        err err' machine machine') }
{}

/// Whatever is told, `print` answers for some bytes of FILE, as many as it gave.
pub fn print_answers<S: Shelf, O: Sink, E: Sink, L: Launch>()
    ensures { (file : List ℕ) (status : status.Status)
        (shelf shelf' : S) (out out' : O) (err err' : E) (machine machine' : L)
        → KeepsPromises S.Shelf O.Sink E.Sink L.Launch (print_task file) status
        shelf shelf' out out' err err' machine machine'
        → PrintAnswers status (S.given shelf')
        (λ text. Gains O.Sink text out out') (λ text. IsPut E.Sink text err err') }
{}

/// Whatever is told, `measure` answers for some bytes of FILE, as many as it gave.
pub fn measure_answers<S: Shelf, O: Sink, E: Sink, L: Launch>()
    ensures { (words : MeasureWords) (status : status.Status)
        (shelf shelf' : S) (out out' : O) (err err' : E) (machine machine' : L)
        → KeepsPromises S.Shelf O.Sink E.Sink L.Launch (measure_task words) status
        shelf shelf' out out' err err' machine machine'
        → MeasureAnswers words status (S.given shelf')
        (λ text. Gains O.Sink text out out') (λ text. IsPut E.Sink text err err') }
{}

/// Whatever is told, `build` writes the image of some components, or says in one of its texts why not.
pub fn build_answers<S: Shelf, O: Sink, E: Sink, L: Launch>()
    ensures { (list target : List ℕ) (status : status.Status)
        (shelf shelf' : S) (out out' : O) (err err' : E) (machine machine' : L)
        → KeepsPromises S.Shelf O.Sink E.Sink L.Launch (build_task list target) status
        shelf shelf' out out' err err' machine machine'
        → BuildAnswers target status (S.given shelf') (S.told shelf) (S.told shelf')
        (λ text. Gains O.Sink text out out') (λ text. IsPut E.Sink text err err') }
{}

/// Whatever is told, `load` refuses FILE, P or HOST; or it judges some image that has a digest, on the host that some
/// text describes, as long as HOST gave: it names the first misfit, or is done where there is none, and puts that digest.
pub fn load_answers<S: Shelf, O: Sink, E: Sink, L: Launch>()
    ensures { (words : LoadWords) (status : status.Status)
        (shelf shelf' : S) (out out' : O) (err err' : E) (machine machine' : L)
        → KeepsPromises S.Shelf O.Sink E.Sink L.Launch (load_task words) status
        shelf shelf' out out' err err' machine machine'
        → LoadAnswers words status (S.given shelf')
        (λ text. Gains O.Sink text out out') (λ text. IsPut E.Sink text err err') }
{}

/// Whatever is told, a `load` that is done has told what its machine then holds.
pub fn load_is_told<S: Shelf, O: Sink, E: Sink, L: Launch>()
    ensures { (words : LoadWords) (shelf shelf' : S) (out out' : O) (err err' : E) (machine machine' : L)
        → KeepsPromises S.Shelf O.Sink E.Sink L.Launch (load_task words) Status.Done
        shelf shelf' out out' err err' machine machine'
        → LoadIsTold O.Sink L.Launch out out' machine' }
{}

/// Whatever is told, `make` writes the image of so many pages and puts what came out, or the outside or
/// memory failed.
pub fn make_answers<S: Shelf, O: Sink, E: Sink, L: Launch>()
    ensures { (count : ℕ) (target : List ℕ) (status : status.Status)
        (shelf shelf' : S) (out out' : O) (err err' : E) (machine machine' : L)
        → KeepsPromises S.Shelf O.Sink E.Sink L.Launch (make_task count target) status
        shelf shelf' out out' err err' machine machine'
        → MakeAnswers count target status (S.told shelf) (S.told shelf')
        (λ text. Gains O.Sink text out out') }
{}

/// The headline. For each accepted file, each platform of it that has a digest, every host description that is
/// read, and the same options: `load` is done exactly where the image has no misfit, and then puts the digest
/// that `measure` puts; else it names the first misfit.
pub fn load_agrees_with_measure()
    ensures { (files : Files) (words : LoadWords) (bytes : List ℕ) (platform : Platform)
        (plan : List PlanRange) (host : HostValues)
        → IsAsked files words bytes platform plan host
        → Agree files words bytes platform plan host }
{}
