//! The builder's image in one place.
ghost use Rattle.std.specs.Prelude.{◌≡◌, ◌≤◌, ◌++◌, length, IfOk, IfErr, OnOk};
ghost use Rattle.std.specs.List.{concat};
ghost use Rattle.igvm_outside.specs.JoinedBytes.{lent};
ghost use Rattle.igvm_image.specs.Headers.{IsAccepted};
ghost use Rattle.component_list.specs.ImageList.{list_of};
ghost use Rattle.image_builder.specs.Layout.{layout};
ghost use Rattle.image_builder.specs.Refusals.{IsTooLarge};

use crate::image::Image;
use crate::refusal::BuildRefusal;
use crate::writing::append;
use component_list::ComponentList;
use igvm_headers::Memory;
use std::alloc::Global;

/// The bytes of a list's image. A list that is too large takes no memory for them.
pub fn build(alloc: Global, list: &ComponentList) -> Result<Vec<u8>, BuildRefusal>
    ensures image { IfOk result (λ image. image.items ≡ layout list.now) }
    ensures accepted { IfOk result (λ image. IsAccepted image.items) }
    ensures list { IfOk result (λ image. list_of image.items ≡ list.now) }
    ensures within { OnOk result (length (layout list.now) ≤ 536870912) }
    ensures too_large { IfErr result (IsTooLarge (length (layout list.now))) }
{
    let image = Image::of(alloc, list)?;
    match join(alloc, &image) {
        Ok(bytes) => Ok(bytes),
        Err(Memory) => Err(BuildRefusal::Memory),
    }
}

/// The bytes of an image, its contents copied.
fn join(alloc: Global, image: &Image) -> Result<Vec<u8>, Memory>
    ensures { IfOk result (λ bytes. bytes.items ≡ image.now) }
{
    let mut bytes = Vec::with_capacity(alloc, image.len() as usize)?;
    append(image.front(), &mut bytes)?;
    append_all(image.contents(), &mut bytes)?;
    Ok(bytes)
}

/// The contents one behind the other.
fn append_all(contents: &[&[u8]], bytes: &mut Vec<u8>) -> Result<(), Memory>
    ensures { OnOk result (bytes.new.items ≡ bytes.old.items ++ concat (lent contents.now)) }
{
    'contents: for content in contents {
        append(*content, bytes)?;
    }
    Ok(())
}
