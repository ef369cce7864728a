//! `seal FILE OUT --platform P [--native-zero]`: an image whose ID blocks want its launch digest.
ghost use Rattle.std.specs.Prelude.{◌≡◌, IfErr, IfOk, OnOk};
ghost use Rattle.component_list.specs.ImageList.{list_of};
ghost use Rattle.component_list.specs.Lists.{IsList};
ghost use Rattle.further_words.specs.FurtherView.{seal_view};
ghost use Rattle.igvm_jobs.specs.BuildJob.{parts_outcome};
ghost use Rattle.igvm_jobs.specs.Endings.{Ends};
ghost use Rattle.igvm_jobs.specs.Refusals.{Refuses};
ghost use Rattle.operation_jobs.specs.SealJob.{seal_task, sealed_outcome};

use crate::stored_data::list_within;
use crate::texts::{no_id_block_text, no_seal_text};
use component_list::ComponentList;
use further_words::SealWords;
use igvm_headers::{PlatformKind, spelled_is_a_piece};
use igvm_image::ImageView;
use igvm_jobs::{
    Ended, LimitOf, Refusal, judge, no_platform_text, read_image, wanted_platform, write_image,
};
use igvm_outside::{Shelf, Sink};
use image_builder::{built_is_read_back, layout_has_its_size};
use image_ops::{SealRefusal, seal};
use launch_likeness::one_list_one_launch;
use std::alloc::Global;

/// Writes the image of a file's list that is sealed for one platform, and puts how many bytes it has, or
/// says why not.
pub fn seal_file<S: Shelf, O: Sink>(
    alloc: Global,
    words: SealWords<'_>,
    shelf: &mut S,
    out: &mut O,
) -> Result<Ended, Refusal>
    ensures { Ends S.Shelf O.Sink (seal_task (seal_view words.entry)) result
        shelf.old shelf.new out.old out.new }
{
    let bytes = read_image(alloc, words.file, shelf)?;
    let view = judge(alloc, bytes.as_slice())?;
    let list = sealed_list(alloc, &view, words)?;
    write_image(alloc, &list, words.target, shelf, out)
}

/// The list of an accepted image, sealed for the platform that is asked for, or why there is none.
fn sealed_list(
    alloc: Global,
    view: &ImageView<'_>,
    words: SealWords<'_>,
) -> Result<ComponentList, Refusal>
    ensures list { IfOk result (λ list. sealed_outcome (seal_view words.entry) view.now
        ≡ parts_outcome words.entry.target.now list) }
    ensures valid { OnOk result (IsList (list_of view.now)) }
    ensures refused { IfErr result (Refuses (sealed_outcome (seal_view words.entry) view.now)) }
{
    let Some(platform) = wanted_platform(view, words.wanted) else {
        return Err(Refusal::Platform(no_platform_text(alloc, words.wanted)?));
    };
    if platform.kind != PlatformKind::SevSnp {
        return Err(Refusal::Platform(no_seal_text(alloc, platform.kind)?));
    }
    let list = list_within(alloc, view)?;
    // Laws: nothing runs.
    built_is_read_back();
    layout_has_its_size();
    spelled_is_a_piece();
    one_list_one_launch();
    match seal(alloc, list, platform.number, words.options) {
        Ok(list) => Ok(list),
        Err(SealRefusal::NoIdBlock) => Err(Refusal::Platform(no_id_block_text(alloc)?)),
        Err(SealRefusal::TooLarge { .. }) => Err(Refusal::Limit(LimitOf::Image)),
        Err(SealRefusal::Memory) => Err(Refusal::Memory),
    }
}
