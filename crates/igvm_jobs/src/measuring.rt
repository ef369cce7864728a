//! `measure FILE --platform P [--native-zero]`: the launch digest of a file's image.
ghost use Rattle.std.specs.Prelude.{◌≡◌, IfOk, IfErr};
ghost use Rattle.igvm_words.specs.JobView.{choice_view, measure_view};
ghost use Rattle.igvm_jobs.specs.Texts.{digest_text};
ghost use Rattle.igvm_jobs.specs.Outcome.{done};
ghost use Rattle.igvm_jobs.specs.MeasureJob.{measured, measured_for, measure_task, wanted_platform, first_platform};
ghost use Rattle.igvm_jobs.specs.Refusals.{Refuses};
ghost use Rattle.igvm_jobs.specs.Endings.{Ends};

use crate::image_file::{judge, read_image};
use crate::refusal::{Ended, Refusal, put_end};
use crate::texts::{digest_text, no_digest_text, no_platform_text};
use igvm_headers::{Digest, Options, PlatformKind};
use igvm_image::ImageView;
use igvm_measure::measure_image;
use igvm_outside::{Shelf, Sink};
use igvm_words::{MeasureWords, PlatformChoice};
use platform_masks::Platform;
use std::alloc::Global;

/// Puts the digest's line of a file's image, or says why not.
pub fn put_digest<S: Shelf, O: Sink>(
    alloc: Global,
    words: MeasureWords<'_>,
    shelf: &mut S,
    out: &mut O,
) -> Result<Ended, Refusal>
    ensures { Ends S.Shelf O.Sink (measure_task (measure_view words.entry)) result
        shelf.old shelf.new out.old out.new }
{
    let bytes = read_image(alloc, words.file, shelf)?;
    let view = judge(alloc, bytes.as_slice())?;
    let digest = image_digest(alloc, &view, words.wanted, words.options)?;
    put_end(out, Ended::Done, &digest_text(&digest))
}

/// The digest of an accepted image, or why there is none.
#[tactic(auto, unfolding(crate::specs::MeasureJob::measured))]
fn image_digest(
    alloc: Global,
    view: &ImageView<'_>,
    wanted: PlatformChoice,
    options: Options,
) -> Result<Digest, Refusal>
    ensures done { IfOk result (λ digest.
        measured (choice_view wanted) options view.now ≡ done (digest_text digest)) }
    ensures refused { IfErr result (Refuses (measured (choice_view wanted) options view.now)) }
{
    match wanted_platform(view, wanted) {
        Some(platform) => platform_digest(alloc, view, platform, options),
        None => Err(Refusal::Platform(no_platform_text(alloc, wanted)?)),
    }
}

/// The platform that is asked for, where the image has it.
#[tactic(auto, unfolding(crate::specs::MeasureJob::wanted_platform))]
pub fn wanted_platform(view: &ImageView<'_>, wanted: PlatformChoice) -> Option<Platform>
    ensures { result ≡ wanted_platform view.now (choice_view wanted) }
{
    match wanted {
        PlatformChoice::First(kind) => first_platform(view, kind),
        PlatformChoice::Numbered(number) => view.platforms().by_number(number),
    }
}

/// The first platform of a kind.
#[tactic(auto, unfolding(crate::specs::MeasureJob::first_platform))]
fn first_platform(view: &ImageView<'_>, kind: PlatformKind) -> Option<Platform>
    ensures { result ≡ first_platform view.now kind }
{
    let platforms = view.platforms();
    match platforms.first_of(kind) {
        Some(number) => platforms.by_number(number),
        None => None,
    }
}

/// The digest of an image for a platform, where its kind has one.
#[tactic(auto, unfolding(crate::specs::MeasureJob::platform_digest))]
fn platform_digest(
    alloc: Global,
    view: &ImageView<'_>,
    platform: Platform,
    options: Options,
) -> Result<Digest, Refusal>
    ensures done { IfOk result (λ digest.
        measured_for view.now options platform ≡ done (digest_text digest)) }
    ensures refused { IfErr result (Refuses (measured_for view.now options platform)) }
{
    match measure_image(view, platform, options) {
        Ok(digest) => Ok(digest),
        Err(no_digest) => Err(Refusal::Platform(no_digest_text(alloc, no_digest.kind)?)),
    }
}
