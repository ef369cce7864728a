//! `sev-load FILE HOST --platform P`: an image launched on a host as a SEV or SEV-ES guest.
ghost use Rattle.std.specs.Prelude.{◌≡◌, ◌≤◌, ◌+◌, ◌++◌, ℕ, List, Some, length, IfOk, IfErr};
ghost use Rattle.directive_rules.specs.FirstMisfit.{first_misfit};
ghost use Rattle.image_loader.specs.Loads.{Load};
ghost use Rattle.sev_chain.specs.SevBytes.{HasSevDigest, sev_digest_of};
ghost use Rattle.sev_loader.specs.SevPlaced.{sev_load_of};
ghost use Rattle.sev_loader.specs.SevLoading.{HoldsSevImage};
ghost use Rattle.igvm_words.specs.JobView.{choice_view};
ghost use Rattle.further_words.specs.FurtherView.{sev_load_view};
ghost use Rattle.igvm_jobs.specs.Texts.{load_text};
ghost use Rattle.igvm_jobs.specs.Outcome.{Outcome};
ghost use Rattle.igvm_jobs.specs.MeasureJob.{wanted_platform};
ghost use Rattle.igvm_jobs.specs.LoadJob.{Setting};
ghost use Rattle.igvm_jobs.specs.Refusals.{Refuses};
ghost use Rattle.igvm_tool.specs.SevLoadJob.{sev_loaded, sev_checked, sev_set, sev_load_task};
ghost use Rattle.igvm_tool.specs.SevEndings.{EndsOnSev, SevLaunchEnds};

use further_words::SevLoadWords;
use host_set::{HostSet, MemoryPlan};
use igvm_headers::PlatformKind;
use igvm_image::ImageView;
use igvm_jobs::{
    Ended, Refusal, described, judge, no_digest_text, no_platform_text, push_loaded, put_end,
    put_misfit, read_description, read_image, wanted_platform,
};
use igvm_outside::{Shelf, Sink, reads_compose};
use igvm_words::PlatformChoice;
use launch_platform::Phase;
use line_buffer::LineBuffer;
use platform_masks::Platform;
use sev_loader::{SevAnswer, SevRefusal, sev_load};
use sev_platform::SevLaunch;
use std::alloc::Global;

/// Launches the image of a file on the host of another, and puts what the machine says of itself when it
/// is done, or why the image does not fit; or says why there is no launch. The machine must be idle.
pub fn sev_load_file<S: Shelf, O: Sink, M: SevLaunch>(
    alloc: Global,
    words: SevLoadWords<'_>,
    shelf: &mut S,
    out: &mut O,
    sev: &mut M,
) -> Result<Ended, Refusal>
    requires { (M.state sev.old).phase ≡ Phase.Idle }
    ensures { EndsOnSev S.Shelf O.Sink M.SevLaunch (sev_load_task (sev_load_view words.entry)) result
        shelf.old shelf.new out.old out.new sev.old sev.new }
{
    // A law: nothing runs.
    reads_compose::<S>();
    let bytes = read_image(alloc, words.file, shelf)?;
    let view = judge(alloc, bytes.as_slice())?;
    let platform = sev_platform(alloc, &view, words.wanted)?;
    let text = read_description(alloc, words.host, shelf)?;
    let (plan, host) = described(alloc, text.as_slice())?;
    let asked = SevLaunching {
        view: &view,
        platform,
        plan: &plan,
        host: &host,
    };
    launch(alloc, &asked, out, sev)
}

/// The platform that is asked for, where the image has it and it is a SEV or SEV-ES one.
#[tactic(auto, unfolding(crate::specs::SevLoadJob::sev_set))]
fn sev_platform(
    alloc: Global,
    view: &ImageView<'_>,
    wanted: PlatformChoice,
) -> Result<Platform, Refusal>
    ensures found { IfOk result (λ platform.
        wanted_platform view.now (choice_view wanted) ≡ Some platform) }
    ensures digest { IfOk result (λ platform. HasSevDigest platform.kind) }
    ensures refused { (next : Setting → Outcome)
        → IfErr result (Refuses (sev_set (choice_view wanted) next view.now)) }
{
    let Some(platform) = wanted_platform(view, wanted) else {
        return Err(Refusal::Platform(no_platform_text(alloc, wanted)?));
    };
    let kind = platform.kind;
    match kind {
        PlatformKind::Sev | PlatformKind::SevEs => Ok(platform),
        _ => Err(Refusal::Platform(no_digest_text(alloc, kind)?)),
    }
}

/// What is launched, and where.
#[derive(Drop)]
struct SevLaunching<'a> {
    view: &'a ImageView<'a>,
    platform: Platform,
    plan: &'a MemoryPlan,
    host: &'a HostSet,
}

/// Launches an image on a machine that is idle, and puts how the launch ended.
fn launch<O: Sink, M: SevLaunch>(
    alloc: Global,
    asked: &SevLaunching<'_>,
    out: &mut O,
    sev: &mut M,
) -> Result<Ended, Refusal>
    requires idle { (M.state sev.old).phase ≡ Phase.Idle }
    requires digest { HasSevDigest asked.now.platform.kind }
    ensures { (digest : List ℕ) → sev_digest_of asked.now.view.now asked.now.platform ≡ Some digest
        → SevLaunchEnds O.Sink M.SevLaunch
        (sev_checked (sev_load_of asked.now.view.now asked.now.platform asked.now.host.now) digest
        (first_misfit asked.now.view.now asked.now.platform asked.now.plan.now asked.now.host.now))
        result out.old out.new sev.old sev.new }
{
    match sev_load(
        alloc,
        asked.view,
        asked.platform,
        asked.plan,
        asked.host,
        sev,
    ) {
        Ok(SevAnswer::Loaded(_)) => put_loaded(out, sev),
        Ok(SevAnswer::DoesNotFit(misfit)) => put_misfit(out, &misfit),
        Err(SevRefusal::NoDigest { .. }) => unreachable!(),
        Err(SevRefusal::Launch) => Err(Refusal::Machine),
        Err(SevRefusal::Memory) => Err(Refusal::Memory),
    }
}

/// Puts what a machine that is done says of itself.
fn put_loaded<O: Sink, M: SevLaunch>(out: &mut O, sev: &M) -> Result<Ended, Refusal>
    ensures { (load : Load) (digest : List ℕ) (before : M) → HoldsSevImage load (M.state sev.now)
        → (M.state sev.now).digest ≡ Some digest
        → SevLaunchEnds O.Sink M.SevLaunch (sev_loaded load digest) result out.old out.new before sev.now }
{
    let mut text = LineBuffer::new();
    push_machine(&mut text, sev);
    put_end(out, Ended::Done, text.bytes())
}

/// Adds what a machine that is done says of itself: how many pages and contexts it holds, and its digest.
fn push_machine<M: SevLaunch>(text: &mut LineBuffer, sev: &M)
    requires { length text.old + 512 ≤ 16384 }
    ensures { (digest : List ℕ) → (M.state sev.now).digest ≡ Some digest
        → text.new ≡ text.old ++ load_text (length (M.state sev.now).entries)
        (length (M.state sev.now).contexts) digest }
{
    if let Some(digest) = sev.digest() {
        push_loaded(text, sev.entries(), sev.contexts(), digest.bytes());
    }
}
