//! `build LIST OUT`: the image of a component list.
ghost use Rattle.igvm_jobs.specs.BuildJob.{build_task};
ghost use Rattle.igvm_jobs.specs.Endings.{Ends};

use crate::list_file::read_parts;
use crate::refusal::{Ended, Refusal};
use crate::writing::write_image;
use igvm_outside::{Shelf, Sink};
use std::alloc::Global;

/// Writes the image of a list and puts how many bytes it has, or says why not.
pub fn build_file<S: Shelf, O: Sink>(
    alloc: Global,
    list: &str,
    target: &str,
    shelf: &mut S,
    out: &mut O,
) -> Result<Ended, Refusal>
    ensures { Ends S.Shelf O.Sink (build_task list.now target.now) result
        shelf.old shelf.new out.old out.new }
{
    let parts = read_parts(alloc, list, shelf)?;
    write_image(alloc, &parts, target, shelf, out)
}
