//! `join FILE FILE OUT`: one image of two.
ghost use Rattle.std.specs.Prelude.{◌≡◌, ◌≤◌, ℕ, List, IfErr, IfOk, OnOk, length};
ghost use Rattle.component_list.specs.ImageList.{list_of};
ghost use Rattle.component_list.specs.Lists.{IsList};
ghost use Rattle.further_words.specs.FurtherView.{join_view};
ghost use Rattle.igvm_jobs.specs.BuildJob.{parts_outcome};
ghost use Rattle.igvm_jobs.specs.Endings.{Ends};
ghost use Rattle.igvm_jobs.specs.ImageFiles.{file_limit};
ghost use Rattle.igvm_jobs.specs.Refusals.{Refuses};
ghost use Rattle.operation_jobs.specs.JoinJob.{join_task, joined_outcome};

use crate::stored_data::{copied_list, is_within};
use component_list::ComponentList;
use further_words::JoinWords;
use igvm_image::ImageView;
use igvm_jobs::{Ended, LimitOf, Refusal, judge, read_image, write_image};
use igvm_outside::{Shelf, Sink, reads_compose};
use image_ops::{JoinRefusal, join};
use std::alloc::Global;

/// Writes the image of two files' lists that are joined, and puts how many bytes it has, or says why not.
pub fn join_files<S: Shelf, O: Sink>(
    alloc: Global,
    words: JoinWords<'_>,
    shelf: &mut S,
    out: &mut O,
) -> Result<Ended, Refusal>
    ensures { Ends S.Shelf O.Sink (join_task (join_view words.entry)) result
        shelf.old shelf.new out.old out.new }
{
    // A law: nothing runs.
    reads_compose::<S>();
    let first = read_image(alloc, words.first, shelf)?;
    let first_view = judge(alloc, first.as_slice())?;
    let second = read_image(alloc, words.second, shelf)?;
    let second_view = judge(alloc, second.as_slice())?;
    let list = joined_list(alloc, &first_view, &second_view)?;
    write_image(alloc, &list, words.target, shelf, out)
}

/// One list of the headers of two accepted images, or why there is none.
fn joined_list(
    alloc: Global,
    first: &ImageView<'_>,
    second: &ImageView<'_>,
) -> Result<ComponentList, Refusal>
    requires first { length first.now ≤ file_limit }
    requires second { length second.now ≤ file_limit }
    ensures list { (target : List ℕ) → IfOk result (λ list.
        joined_outcome target first.now second.now ≡ parts_outcome target list) }
    ensures valid { OnOk result (IsList (list_of first.now) × IsList (list_of second.now)) }
    ensures refused { (target : List ℕ)
        → IfErr result (Refuses (joined_outcome target first.now second.now)) }
{
    if !(is_within(first) && is_within(second)) {
        return Err(Refusal::Limit(LimitOf::Data));
    }
    let first = copied_list(alloc, first)?;
    let second = copied_list(alloc, second)?;
    match join(alloc, first, second) {
        Ok(list) => Ok(list),
        Err(JoinRefusal::TooManyPlatforms) => Err(Refusal::Limit(LimitOf::Platforms)),
        Err(JoinRefusal::TooManyAreas) => Err(Refusal::Limit(LimitOf::Areas)),
        Err(JoinRefusal::TooManyPages) => Err(Refusal::Limit(LimitOf::Pages)),
        Err(JoinRefusal::Memory) => Err(Refusal::Memory),
    }
}
