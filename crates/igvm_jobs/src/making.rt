//! `make N OUT`: the image of N pages, which is written, measured and launched.
ghost use Rattle.std.specs.Prelude.{◌≡◌, ◌≤◌, IfOk, OnOk, IsErrOf, IsSome, None, Some, length};
ghost use Rattle.std.specs.List.{slice_get};
ghost use Rattle.igvm_headers.specs.FaultCounts.{Rose};
ghost use Rattle.platform_masks.specs.Platforms.{platforms_of};
ghost use Rattle.igvm_image.specs.Headers.{IsAccepted, headers_of};
ghost use Rattle.directive_rules.specs.FirstMisfit.{first_misfit};
ghost use Rattle.igvm_measure.specs.Digests.{digest_of, snp_digest, tdx_digest};
ghost use Rattle.igvm_measure.specs.WantedDigest.{bad_digest};
ghost use Rattle.launch_platform.specs.Machine.{HasDigest};
ghost use Rattle.image_loader.specs.Loads.{load_of};
ghost use Rattle.image_loader.specs.Loading.{HoldsImage, IsStopped};
ghost use Rattle.made_list.specs.MadeImage.{snp_platform, tdx_platform, trial_host, trial_plan};
ghost use Rattle.igvm_jobs.specs.MakeJob.{made_image, make_task, plain};
ghost use Rattle.igvm_jobs.specs.Texts.{make_text};
ghost use Rattle.igvm_jobs.specs.Endings.{EndsOn, PutsEnd};

use crate::launch_texts::{Made, push_made};
use crate::refusal::{Ended, Refusal, put_end};
use igvm_headers::{Digest, Memory, Options};
use igvm_image::{ImageView, open_image};
use igvm_measure::measure_image;
use igvm_outside::{Shelf, Sink, write_file};
use image_builder::{BuildRefusal, build};
use image_loader::{ExecuteRefusal, LoadAnswer, PrepareRefusal, execute, prepare};
use launch_platform::{Launch, Phase};
use line_buffer::LineBuffer;
use made_list::{
    made_image_fits, made_image_has_its_platforms, made_image_has_its_size,
    made_image_wants_no_digest, make_list, trial_host, trial_plan,
};
use platform_masks::Platform;
use std::alloc::Global;

/// Makes the image of so many pages, writes it, measures it for both kinds of platforms, launches it
/// for SEV-SNP, and puts what came out. All memory is taken before the machine starts.
pub fn make_file<S: Shelf, O: Sink, L: Launch>(
    alloc: Global,
    count: u32,
    target: &str,
    shelf: &mut S,
    out: &mut O,
    machine: &mut L,
) -> Result<Ended, Refusal>
    requires some { 1 ≤ count }
    requires few { count ≤ 100000 }
    requires idle { (L.state machine.old).phase ≡ Phase.Idle }
    ensures { EndsOn S.Shelf O.Sink L.Launch (make_task count target.now) result
        shelf.old shelf.new out.old out.new machine.old machine.new }
{
    let Ok(bytes) = made_bytes(alloc, count) else {
        return Err(Refusal::Memory);
    };
    let Ok(()) = write_file(shelf, target, bytes.as_slice()) else {
        return Err(Refusal::Shelf);
    };
    // Laws: nothing runs.
    made_image_has_its_size();
    made_image_has_its_platforms();
    made_image_fits();
    made_image_wants_no_digest();
    let view = made_view(bytes.as_slice());
    let digests = measured(&view);
    match launch_made(alloc, &view, machine) {
        Ok(()) => {
            let made = Made {
                count,
                bytes: bytes.len() as u64,
                snp: digests.snp,
                pages: machine.entries(),
                contexts: machine.contexts(),
                tdx: digests.tdx,
            };
            put_made(out, &made)
        }
        Err(ExecuteRefusal::Launch) => Err(Refusal::Machine),
        Err(ExecuteRefusal::Memory) => Err(Refusal::Memory),
    }
}

/// The bytes of the image of so many pages.
fn made_bytes(alloc: Global, count: u32) -> Result<Vec<u8>, Memory>
    requires some { 1 ≤ count }
    requires few { count ≤ 100000 }
    ensures { IfOk result (λ bytes. bytes.items ≡ made_image count) }
{
    // A law: nothing runs.
    made_image_has_its_size();
    let list = make_list(alloc, count)?;
    match build(alloc, &list) {
        Ok(bytes) => Ok(bytes),
        Err(BuildRefusal::TooLarge { .. }) => unreachable!(),
        Err(BuildRefusal::Memory) => Err(Memory),
    }
}

/// The image of bytes that are accepted.
fn made_view(bytes: &[u8]) -> ImageView<'_>
    requires within { length bytes.now ≤ 536870912 }
    requires accepted { IsAccepted bytes.now }
    ensures { result ≡ bytes.now }
{
    match open_image(bytes) {
        Ok(view) => view,
        Err(_) => unreachable!(),
    }
}

/// The launch digests of an image.
#[derive(Clone, Copy)]
struct Digests {
    snp: Digest,
    tdx: Digest,
}

/// The digests of an image for the platforms of number 0 and 1.
fn measured(view: &ImageView<'_>) -> Digests
    requires snp { slice_get (platforms_of (headers_of view.now)) 0 ≡ Some snp_platform }
    requires tdx { slice_get (platforms_of (headers_of view.now)) 1 ≡ Some tdx_platform }
    ensures snp { result.snp ≡ snp_digest plain view.now snp_platform.mask }
    ensures tdx { result.tdx ≡ tdx_digest view.now tdx_platform.mask }
{
    Digests {
        snp: digest_for(view, numbered(view, 0)),
        tdx: digest_for(view, numbered(view, 1)),
    }
}

/// The platform of a number, which the image has.
fn numbered(view: &ImageView<'_>, number: u32) -> Platform
    requires { IsSome (slice_get (platforms_of (headers_of view.now)) number) }
    ensures { slice_get (platforms_of (headers_of view.now)) number ≡ Some result }
{
    match view.platforms().by_number(number) {
        Some(platform) => platform,
        None => unreachable!(),
    }
}

/// The digest of an image for a platform, whose kind has one.
fn digest_for(view: &ImageView<'_>, platform: Platform) -> Digest
    requires { HasDigest platform.kind }
    ensures { digest_of view.now platform plain ≡ Some result }
{
    match measure_image(view, platform, Options::plain()) {
        Ok(digest) => digest,
        Err(_) => unreachable!(),
    }
}

/// Launches an image on the host for trials, for its platform of number 0, on a machine that is idle.
fn launch_made<L: Launch>(
    alloc: Global,
    view: &ImageView<'_>,
    machine: &mut L,
) -> Result<(), ExecuteRefusal>
    requires idle { (L.state machine.old).phase ≡ Phase.Idle }
    requires snp { slice_get (platforms_of (headers_of view.now)) 0 ≡ Some snp_platform }
    requires fits { first_misfit view.now snp_platform trial_plan trial_host ≡ None }
    requires unwanted { bad_digest view.now snp_platform plain ≡ None }
    ensures holds { OnOk result
        (HoldsImage (load_of view.now snp_platform plain trial_host) (L.state machine.new)) }
    ensures done { OnOk result ((L.state machine.new).phase ≡ Phase.Done) }
    ensures stopped { IsErrOf result ExecuteRefusal.Launch → IsStopped L.Launch
        (load_of view.now snp_platform plain trial_host) machine.old machine.new }
    ensures cause { IsErrOf result ExecuteRefusal.Launch
        → Rose (L.faults machine.old) (L.faults machine.new) }
    ensures idle { IsErrOf result ExecuteRefusal.Memory
        → L.state machine.new ≡ L.state machine.old }
{
    let (Ok(plan), Ok(host)) = (trial_plan(alloc), trial_host(alloc)) else {
        return Err(ExecuteRefusal::Memory);
    };
    let platform = numbered(view, 0);
    match prepare(alloc, view, platform, Options::plain(), &plan, &host) {
        Ok(prepared) => match execute(prepared, machine)? {
            LoadAnswer::Loaded(_) => Ok(()),
            LoadAnswer::DoesNotFit(_) => unreachable!(),
        },
        Err(PrepareRefusal::Memory) => Err(ExecuteRefusal::Memory),
        Err(_) => unreachable!(),
    }
}

/// Puts what became of an image that was made.
fn put_made<O: Sink>(out: &mut O, made: &Made) -> Result<Ended, Refusal>
    ensures { PutsEnd O.Sink Ended.Done (make_text made.now.count made.now.bytes made.now.snp
        made.now.pages made.now.contexts made.now.tdx) result out.old out.new }
{
    let mut text = LineBuffer::new();
    push_made(&mut text, made);
    put_end(out, Ended::Done, text.bytes())
}
