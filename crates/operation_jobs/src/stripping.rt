//! `strip FILE OUT --platform P`: an image stripped to one platform.
ghost use Rattle.std.specs.Prelude.{◌≡◌, IfErr, IfOk, OnOk};
ghost use Rattle.component_list.specs.ImageList.{list_of};
ghost use Rattle.component_list.specs.Lists.{IsList};
ghost use Rattle.further_words.specs.FurtherView.{strip_view};
ghost use Rattle.igvm_jobs.specs.BuildJob.{parts_outcome};
ghost use Rattle.igvm_jobs.specs.Endings.{Ends};
ghost use Rattle.igvm_jobs.specs.Refusals.{Refuses};
ghost use Rattle.operation_jobs.specs.StripJob.{strip_task, stripped_outcome};

use crate::stored_data::list_within;
use component_list::ComponentList;
use further_words::StripWords;
use igvm_image::ImageView;
use igvm_jobs::{
    Ended, Refusal, judge, no_platform_text, read_image, wanted_platform, write_image,
};
use igvm_outside::{Shelf, Sink};
use image_ops::strip;
use std::alloc::Global;

/// Writes the image of a file's list that is stripped to one platform, and puts how many bytes it has, or
/// says why not.
pub fn strip_file<S: Shelf, O: Sink>(
    alloc: Global,
    words: StripWords<'_>,
    shelf: &mut S,
    out: &mut O,
) -> Result<Ended, Refusal>
    ensures { Ends S.Shelf O.Sink (strip_task (strip_view words.entry)) result
        shelf.old shelf.new out.old out.new }
{
    let bytes = read_image(alloc, words.file, shelf)?;
    let view = judge(alloc, bytes.as_slice())?;
    let list = stripped_list(alloc, &view, words)?;
    write_image(alloc, &list, words.target, shelf, out)
}

/// The list of an accepted image, stripped to the platform that is asked for, or why there is none.
fn stripped_list(
    alloc: Global,
    view: &ImageView<'_>,
    words: StripWords<'_>,
) -> Result<ComponentList, Refusal>
    ensures list { IfOk result (λ list. stripped_outcome (strip_view words.entry) view.now
        ≡ parts_outcome words.entry.target.now list) }
    ensures valid { OnOk result (IsList (list_of view.now)) }
    ensures refused { IfErr result (Refuses (stripped_outcome (strip_view words.entry) view.now)) }
{
    let Some(platform) = wanted_platform(view, words.wanted) else {
        return Err(Refusal::Platform(no_platform_text(alloc, words.wanted)?));
    };
    let list = list_within(alloc, view)?;
    Ok(strip(list, platform.number))
}
