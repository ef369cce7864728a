//! The last step of a job that writes a file.
ghost use Rattle.std.specs.Prelude.{◌≡◌, ℕ, List, length, IfOk, IfErr};
ghost use Rattle.igvm_jobs.specs.Texts.{built_text};
ghost use Rattle.igvm_jobs.specs.Outcome.{done_writing};
ghost use Rattle.igvm_jobs.specs.BuildJob.{parts_outcome};
ghost use Rattle.igvm_jobs.specs.Refusals.{Refuses};
ghost use Rattle.igvm_jobs.specs.Endings.{WriteEnds};

use crate::refusal::{Ended, LimitOf, Refusal, put_end};
use crate::texts::built_text;
use component_list::ComponentList;
use igvm_outside::{Shelf, Sink, write_file, write_pieces};
use image_builder::{BuildRefusal, Image};
use std::alloc::Global;

/// Writes a file, and puts the text of a job that is done then.
pub fn write_whole<S: Shelf, O: Sink>(
    target: &str,
    bytes: &[u8],
    text: &[u8],
    shelf: &mut S,
    out: &mut O,
) -> Result<Ended, Refusal>
    ensures { WriteEnds S.Shelf O.Sink (done_writing target.now bytes.now text.now) result
        shelf.old shelf.new out.old out.new }
{
    let Ok(()) = write_file(shelf, target, bytes) else {
        return Err(Refusal::Shelf);
    };
    put_end(out, Ended::Done, text)
}

/// Writes the image of a list's components and puts how many bytes it has, or says why not. Nothing
/// takes memory once the writing has begun.
pub fn write_image<S: Shelf, O: Sink>(
    alloc: Global,
    parts: &ComponentList,
    target: &str,
    shelf: &mut S,
    out: &mut O,
) -> Result<Ended, Refusal>
    ensures { WriteEnds S.Shelf O.Sink (parts_outcome target.now parts.now) result
        shelf.old shelf.new out.old out.new }
{
    let image = build_parts(alloc, parts)?;
    let line = built_text(alloc, image.len())?;
    match write_pieces(shelf, target, image.front(), image.contents()) {
        Ok(()) => put_end(out, Ended::Done, line.as_bytes()),
        Err(_) => Err(Refusal::Shelf),
    }
}

/// The image of a list's components, or why there is none.
#[tactic(auto, unfolding(crate::specs::BuildJob::parts_outcome))]
fn build_parts<'a>(alloc: Global, parts: &'a ComponentList) -> Result<Image<'a>, Refusal>
    ensures built { IfOk result (λ image. (target : List ℕ) → parts_outcome target parts.now
        ≡ done_writing target image (built_text (length image))) }
    ensures refused { (target : List ℕ) → IfErr result (Refuses (parts_outcome target parts.now)) }
{
    match Image::of(alloc, parts) {
        Ok(image) => Ok(image),
        Err(BuildRefusal::TooLarge { .. }) => Err(Refusal::Limit(LimitOf::Image)),
        Err(BuildRefusal::Memory) => Err(Refusal::Memory),
    }
}
