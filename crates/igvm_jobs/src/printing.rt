//! `print FILE`: the listing of a file's image.
ghost use Rattle.std.specs.Prelude.{◌≡◌};
ghost use Rattle.igvm_jobs.specs.Outcome.{done};
ghost use Rattle.igvm_jobs.specs.PrintJob.{listed, print_task};
ghost use Rattle.igvm_jobs.specs.Endings.{Ends, PutsEnd};

use crate::image_file::{judge, read_image};
use crate::refusal::{Ended, Refusal};
use dump_text::print_image;
use igvm_image::ImageView;
use igvm_outside::{Shelf, Sink};
use std::alloc::Global;

/// Puts the listing of a file's image, or says why not.
pub fn put_listing<S: Shelf, O: Sink>(
    alloc: Global,
    file: &str,
    shelf: &mut S,
    out: &mut O,
) -> Result<Ended, Refusal>
    ensures { Ends S.Shelf O.Sink (print_task file.now) result
        shelf.old shelf.new out.old out.new }
{
    let bytes = read_image(alloc, file, shelf)?;
    let view = judge(alloc, bytes.as_slice())?;
    list_image(&view, out)
}

/// Puts the listing of an accepted image.
#[tactic(auto, unfolding(crate::specs::PrintJob::listed))]
fn list_image<O: Sink>(view: &ImageView<'_>, out: &mut O) -> Result<Ended, Refusal>
    ensures text { listed view.now ≡ done (listed view.now).out }
    ensures put { PutsEnd O.Sink Ended.Done (listed view.now).out result out.old out.new }
{
    match print_image(view, out) {
        Ok(()) => Ok(Ended::Done),
        Err(_) => Err(Refusal::Output),
    }
}
