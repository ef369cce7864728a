//! The further commands, of which `sev-load` alone sends commands to a launch machine.
ghost use Rattle.std.specs.Prelude.{◌≡◌};
ghost use Rattle.further_words.specs.FurtherView.{further_view};
ghost use Rattle.igvm_tool.specs.SevEndings.{FurtherEnds};

use crate::elf_building::build_elf_file;
use crate::sev_loading::sev_load_file;
use crate::sev_measuring::put_sev_digest;
use crate::vmsa_building::build_vmsa_file;
use crate::vmsa_printing::put_vmsa_text;
use further_words::FurtherJob;
use igvm_jobs::{Ended, Refusal};
use igvm_outside::{Shelf, Sink};
use launch_platform::Phase;
use operation_jobs::{join_files, seal_file, strip_file};
use sev_platform::SevLaunch;
use std::alloc::Global;

/// Does the job of a further command. The machine must be idle.
pub fn do_further<S: Shelf, O: Sink, M: SevLaunch>(
    alloc: Global,
    job: FurtherJob<'_>,
    shelf: &mut S,
    out: &mut O,
    sev: &mut M,
) -> Result<Ended, Refusal>
    requires { (M.state sev.old).phase ≡ Phase.Idle }
    ensures { FurtherEnds S.Shelf O.Sink M.SevLaunch (further_view job.entry) result
        shelf.old shelf.new out.old out.new sev.old sev.new }
{
    match job {
        FurtherJob::SevMeasure { file, wanted } => put_sev_digest(alloc, file, wanted, shelf, out),
        FurtherJob::SevLoad(words) => sev_load_file(alloc, words, shelf, out, sev),
        FurtherJob::VmsaBuild { json, target } => build_vmsa_file(alloc, json, target, shelf, out),
        FurtherJob::VmsaPrint { file } => put_vmsa_text(alloc, file, shelf, out),
        FurtherJob::BuildElf(words) => build_elf_file(alloc, words, shelf, out),
        FurtherJob::Strip(words) => strip_file(alloc, words, shelf, out),
        FurtherJob::Join(words) => join_files(alloc, words, shelf, out),
        FurtherJob::Seal(words) => seal_file(alloc, words, shelf, out),
    }
}
