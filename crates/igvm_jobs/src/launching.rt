//! An image launched on a host that is described: what is put says how the launch ended.
ghost use Rattle.std.specs.Prelude.{◌≡◌, ℕ, ◌≤◌, ◌+◌, ◌++◌, List, Some, length, IfSome, IfNone, IsOk};
ghost use Rattle.std.specs.Option.{option_map};
ghost use Rattle.directive_rules.specs.FirstMisfit.{first_misfit};
ghost use Rattle.igvm_measure.specs.Digests.{digest_of};
ghost use Rattle.launch_platform.specs.Machine.{HasDigest};
ghost use Rattle.image_loader.specs.Loads.{Load, load_of};
ghost use Rattle.image_loader.specs.Loading.{HoldsImage};
ghost use Rattle.igvm_outside.specs.ShelfCalls.{Writes};
ghost use Rattle.pages_file.specs.PagesFile.{pages_file};
ghost use Rattle.igvm_jobs.specs.Texts.{load_text, misfit_text};
ghost use Rattle.igvm_jobs.specs.LoadJob.{checked_outcome, loaded};
ghost use Rattle.igvm_jobs.specs.Endings.{LaunchEnds, PutsEnd};

use crate::launch_texts::{push_loaded, push_misfit};
use crate::refusal::{Ended, Refusal, put_end};
use directive_rules::Misfit;
use host_set::{HostSet, MemoryPlan};
use igvm_headers::{Failed, Options};
use igvm_image::ImageView;
use igvm_outside::{Shelf, Sink};
use image_loader::{ExecuteRefusal, LoadAnswer, PrepareRefusal, execute, prepare};
use launch_platform::{Launch, Phase};
use line_buffer::LineBuffer;
use pages_file::write_pages;
use platform_masks::Platform;
use std::alloc::Global;

/// What is launched, where, and the name of the pages file that is wanted, if one is.
#[derive(Drop)]
pub struct Launching<'a> {
    pub view: &'a ImageView<'a>,
    pub platform: Platform,
    pub options: Options,
    pub plan: &'a MemoryPlan,
    pub host: &'a HostSet,
    pub image: Option<&'a str>,
}

/// Launches an image on a machine that is idle, writes the pages file that is wanted, and puts how the
/// launch ended. It takes no memory once the machine has started.
pub fn launch<S: Shelf, O: Sink, L: Launch>(
    alloc: Global,
    asked: &Launching<'_>,
    shelf: &mut S,
    out: &mut O,
    machine: &mut L,
) -> Result<Ended, Refusal>
    requires idle { (L.state machine.old).phase ≡ Phase.Idle }
    requires digest { HasDigest asked.now.platform.kind }
    ensures { (digest : List ℕ)
        → digest_of asked.now.view.now asked.now.platform asked.now.options ≡ Some digest
        → LaunchEnds S.Shelf O.Sink L.Launch
        (checked_outcome (option_map (λ name. name.now) asked.now.image)
        (load_of asked.now.view.now asked.now.platform asked.now.options asked.now.host.now) digest
        (first_misfit asked.now.view.now asked.now.platform asked.now.plan.now asked.now.host.now))
        result shelf.old shelf.new out.old out.new machine.old machine.new }
{
    let prepared = match prepare(
        alloc,
        asked.view,
        asked.platform,
        asked.options,
        asked.plan,
        asked.host,
    ) {
        Ok(prepared) => prepared,
        Err(PrepareRefusal::Misfit(misfit)) => return put_misfit(out, &misfit),
        Err(PrepareRefusal::NoDigest { .. }) => unreachable!(),
        Err(PrepareRefusal::Memory) => return Err(Refusal::Memory),
    };
    match execute(prepared, machine) {
        Ok(LoadAnswer::Loaded(_)) => put_loaded(asked.image, shelf, out, machine),
        Ok(LoadAnswer::DoesNotFit(misfit)) => put_misfit(out, &misfit),
        Err(ExecuteRefusal::Launch) => Err(Refusal::Machine),
        Err(ExecuteRefusal::Memory) => Err(Refusal::Memory),
    }
}

/// Writes the pages file of a machine that is done, where one is wanted, and puts what the machine says
/// of itself.
fn put_loaded<S: Shelf, O: Sink, L: Launch>(
    image: Option<&str>,
    shelf: &mut S,
    out: &mut O,
    machine: &L,
) -> Result<Ended, Refusal>
    requires done { (L.state machine.now).phase ≡ Phase.Done }
    ensures { (load : Load) (digest : List ℕ) (before : L)
        → HoldsImage load (L.state machine.now) → (L.state machine.now).digest ≡ Some digest
        → LaunchEnds S.Shelf O.Sink L.Launch
        (loaded (option_map (λ name. name.now) image.entry) load digest)
        result shelf.old shelf.new out.old out.new before machine.now }
{
    let mut text = LineBuffer::new();
    push_machine(&mut text, machine);
    match write_wanted(image, shelf, machine) {
        Ok(()) => put_end(out, Ended::Done, text.bytes()),
        Err(_) => Err(Refusal::Shelf),
    }
}

/// Writes the pages file of a machine, where one is wanted.
fn write_wanted<S: Shelf, L: Launch>(
    image: Option<&str>,
    shelf: &mut S,
    machine: &L,
) -> Result<(), Failed>
    ensures written { IfSome image.entry (λ name. Writes S.Shelf name.now
        (pages_file (L.state machine.now).entries (L.state machine.now).contexts)
        result shelf.old shelf.new) }
    ensures unwanted { IfNone image.entry (IsOk result × (shelf.new ≡ shelf.old)) }
{
    match image {
        Some(name) => write_pages(shelf, name, machine),
        None => Ok(()),
    }
}

/// Adds what a machine that is done says of itself.
fn push_machine<L: Launch>(text: &mut LineBuffer, machine: &L)
    requires { length text.old + 512 ≤ 16384 }
    ensures { (digest : List ℕ) → (L.state machine.now).digest ≡ Some digest
        → text.new ≡ text.old ++ load_text (length (L.state machine.now).entries)
        (length (L.state machine.now).contexts) digest }
{
    if let Some(digest) = machine.digest() {
        push_loaded(text, machine.entries(), machine.contexts(), digest.bytes());
    }
}

/// Puts why an image does not fit.
pub fn put_misfit<O: Sink>(out: &mut O, misfit: &Misfit) -> Result<Ended, Refusal>
    ensures { PutsEnd O.Sink Ended.NotFit (misfit_text misfit.now) result out.old out.new }
{
    let mut text = LineBuffer::new();
    push_misfit(&mut text, misfit);
    put_end(out, Ended::NotFit, text.bytes())
}
