//! `load FILE HOST --platform P [--native-zero] [--image OUT]`: an image launched on a host.
ghost use Rattle.std.specs.Prelude.{◌≡◌, Some, IfOk, IfErr};
ghost use Rattle.launch_platform.specs.Machine.{HasDigest};
ghost use Rattle.igvm_words.specs.JobView.{choice_view, load_view};
ghost use Rattle.igvm_jobs.specs.Outcome.{Outcome};
ghost use Rattle.igvm_jobs.specs.MeasureJob.{wanted_platform};
ghost use Rattle.igvm_jobs.specs.LoadJob.{Setting, set, load_task};
ghost use Rattle.igvm_jobs.specs.Refusals.{Refuses};
ghost use Rattle.igvm_jobs.specs.Endings.{EndsOn};

use crate::host_file::{described, read_description};
use crate::image_file::{judge, read_image};
use crate::launching::{Launching, launch};
use crate::measuring::wanted_platform;
use crate::refusal::{Ended, Refusal};
use crate::texts::{no_digest_text, no_platform_text};
use igvm_headers::PlatformKind;
use igvm_image::ImageView;
use igvm_outside::{Shelf, Sink, reads_compose};
use igvm_words::LoadWords;
use launch_platform::{Launch, Phase};
use platform_masks::Platform;
use std::alloc::Global;

/// Launches the image of a file on the host of another, and puts how the launch ended, or says why there
/// is none.
pub fn load_file<S: Shelf, O: Sink, L: Launch>(
    alloc: Global,
    words: LoadWords<'_>,
    shelf: &mut S,
    out: &mut O,
    machine: &mut L,
) -> Result<Ended, Refusal>
    requires { (L.state machine.old).phase ≡ Phase.Idle }
    ensures { EndsOn S.Shelf O.Sink L.Launch (load_task (load_view words.entry)) result
        shelf.old shelf.new out.old out.new machine.old machine.new }
{
    // A law: nothing runs.
    reads_compose::<S>();
    let bytes = read_image(alloc, words.file, shelf)?;
    let view = judge(alloc, bytes.as_slice())?;
    let platform = launched_platform(alloc, &view, &words)?;
    let text = read_description(alloc, words.host, shelf)?;
    let (plan, host) = described(alloc, text.as_slice())?;
    let asked = Launching {
        view: &view,
        platform,
        options: words.options,
        plan: &plan,
        host: &host,
        image: words.image,
    };
    launch(alloc, &asked, shelf, out, machine)
}

/// The platform that is asked for, where the image has it and its kind has a launch digest.
#[tactic(auto, unfolding(crate::specs::LoadJob::set))]
fn launched_platform(
    alloc: Global,
    view: &ImageView<'_>,
    words: &LoadWords<'_>,
) -> Result<Platform, Refusal>
    ensures found { IfOk result (λ platform.
        wanted_platform view.now (choice_view words.now.wanted) ≡ Some platform) }
    ensures digest { IfOk result (λ platform. HasDigest platform.kind) }
    ensures refused { (next : Setting → Outcome)
        → IfErr result (Refuses (set (load_view words.now) next view.now)) }
{
    let Some(platform) = wanted_platform(view, words.wanted) else {
        return Err(Refusal::Platform(no_platform_text(alloc, words.wanted)?));
    };
    let kind = platform.kind;
    match kind {
        PlatformKind::SevSnp | PlatformKind::Tdx => Ok(platform),
        _ => Err(Refusal::Platform(no_digest_text(alloc, kind)?)),
    }
}
