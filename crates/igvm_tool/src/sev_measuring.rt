//! `sev-measure FILE --platform P`: the launch digest of a file's image for a SEV or SEV-ES platform.
ghost use Rattle.std.specs.Prelude.{◌≡◌, IfOk, IfErr};
ghost use Rattle.igvm_words.specs.JobView.{choice_view};
ghost use Rattle.igvm_jobs.specs.Texts.{digest_text};
ghost use Rattle.igvm_jobs.specs.Outcome.{done};
ghost use Rattle.igvm_jobs.specs.Refusals.{Refuses};
ghost use Rattle.igvm_jobs.specs.Endings.{Ends};
ghost use Rattle.igvm_tool.specs.SevMeasureJob.{sev_measured, sev_measured_for, sev_measure_task};

use igvm_image::ImageView;
use igvm_jobs::{
    Ended, Refusal, judge, no_digest_text, no_platform_text, put_end, read_image, wanted_platform,
};
use igvm_outside::{Shelf, Sink};
use igvm_words::PlatformChoice;
use platform_masks::Platform;
use sev_chain::{Digest32, sev_measure};
use std::alloc::Global;

/// Puts the line of the SEV or SEV-ES digest of a file's image, or says why not.
pub fn put_sev_digest<S: Shelf, O: Sink>(
    alloc: Global,
    file: &str,
    wanted: PlatformChoice,
    shelf: &mut S,
    out: &mut O,
) -> Result<Ended, Refusal>
    ensures { Ends S.Shelf O.Sink (sev_measure_task file.now (choice_view wanted)) result
        shelf.old shelf.new out.old out.new }
{
    let bytes = read_image(alloc, file, shelf)?;
    let view = judge(alloc, bytes.as_slice())?;
    let digest = image_digest(alloc, &view, wanted)?;
    put_end(out, Ended::Done, &digest_line(&digest))
}

/// The digest of an accepted image, or why there is none.
#[tactic(auto, unfolding(crate::specs::SevMeasureJob::sev_measured))]
fn image_digest(
    alloc: Global,
    view: &ImageView<'_>,
    wanted: PlatformChoice,
) -> Result<Digest32, Refusal>
    ensures done { IfOk result (λ digest.
        sev_measured (choice_view wanted) view.now ≡ done (digest_text digest)) }
    ensures refused { IfErr result (Refuses (sev_measured (choice_view wanted) view.now)) }
{
    match wanted_platform(view, wanted) {
        Some(platform) => platform_digest(alloc, view, platform),
        None => Err(Refusal::Platform(no_platform_text(alloc, wanted)?)),
    }
}

/// The digest of an image for a platform, where it is a SEV or SEV-ES one.
fn platform_digest(
    alloc: Global,
    view: &ImageView<'_>,
    platform: Platform,
) -> Result<Digest32, Refusal>
    ensures done { IfOk result (λ digest.
        sev_measured_for view.now platform ≡ done (digest_text digest)) }
    ensures refused { IfErr result (Refuses (sev_measured_for view.now platform)) }
{
    match sev_measure(view, platform) {
        Ok(digest) => Ok(digest),
        Err(no_digest) => Err(Refusal::Platform(no_digest_text(alloc, no_digest.kind)?)),
    }
}

/// The line of a digest: 64 digits and a newline.
fn digest_line(digest: &Digest32) -> [u8; 65]
    ensures { result ≡ digest_text digest.now }
{
    let mut line = [b'\n'; 65];
    let _ = hex::encode_to_slice(digest.bytes(), &mut line[..64]);
    line
}
