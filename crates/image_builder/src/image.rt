//! An image in pieces: docs/FORMAT.md says in words what the builder writes.
ghost use Rattle.std.specs.Prelude.{◌≡◌, ◌≤◌, length, IfOk, IfErr, OnOk};
ghost use Rattle.std.specs.List.{AllByRecursion};
ghost use Rattle.igvm_headers.specs.SpellingConditions.{IsSpellable};
ghost use Rattle.igvm_outside.specs.JoinedBytes.{lent, joined};
ghost use Rattle.igvm_image.specs.Headers.{IsAccepted};
ghost use Rattle.component_list.specs.ImageList.{list_of};
ghost use Rattle.image_builder.specs.ImagePieces.{front_of};
ghost use Rattle.image_builder.specs.Layout.{layout, layout_size};
ghost use Rattle.image_builder.specs.Plans.{IsPlan, in_version};
ghost use Rattle.image_builder.specs.Refusals.{IsTooLarge};

use crate::laws::layout_has_its_size;
use crate::plan::Plan;
use crate::read_back::built_is_read_back;
use crate::refusal::BuildRefusal;
use crate::spellable::note_spellable;
use crate::writing::write_front;
use component_list::{Component, ComponentList};
use igvm_headers::Memory;
use std::alloc::Global;
use std::marker::Model;

/// The bytes that an image has at most.
const IMAGE_LIMIT: u64 = 536_870_912;

/// An image in the pieces that it is written in: what stands before the data, and the contents, lent
/// from the list. Contracts see the bytes of all, joined.
#[derive(Drop)]
pub struct Image<'a> {
    front: Vec<u8>,
    contents: Vec<&'a [u8]>,
    bytes: u64,
}

impl<'a> Model for Image<'a> {
    ghost use Rattle.std.specs.Prelude.{ℕ, List};
    ghost use Rattle.igvm_outside.specs.JoinedBytes.{lent, joined};
    ghost use Rattle.image_builder.specs.ImagePieces.{IsInPieces};

    ghost Value = { List ℕ };

    ghost view = { λ i. joined i.front.items (lent i.contents.items) };

    ghost invariant = { λ i. IsInPieces i.front.items (lent i.contents.items) i.bytes };
}

impl<'a> Image<'a> {
    /// The image of a list, in which equal contents stand once. Sizes are summed before anything is
    /// written, so a list that is too large takes no memory for its image.
    pub fn of(alloc: Global, list: &'a ComponentList) -> Result<Image<'a>, BuildRefusal>
        ensures image { IfOk result (λ image. image ≡ layout list.now) }
        ensures accepted { IfOk result IsAccepted }
        ensures list { IfOk result (λ image. list_of image ≡ list.now) }
        ensures within { OnOk result (length (layout list.now) ≤ 536870912) }
        ensures too_large { IfErr result (IsTooLarge (length (layout list.now))) }
    {
        let version = list.version();
        let parts = list.components();
        // Laws: nothing runs.
        note_spellable(parts);
        layout_has_its_size();
        built_is_read_back();
        let Ok(plan) = Plan::of(alloc, version, parts) else {
            return Err(BuildRefusal::Memory);
        };
        let bytes = plan.contents.end();
        if bytes > IMAGE_LIMIT {
            return Err(BuildRefusal::TooLarge { bytes });
        }
        match Image::planned(alloc, parts, plan) {
            Ok(image) => Ok(image),
            Err(Memory) => Err(BuildRefusal::Memory),
        }
    }

    /// The image of these components, as it is planned.
    fn planned(alloc: Global, parts: &[Component], plan: Plan<'a>) -> Result<Image<'a>, Memory>
        requires each { AllByRecursion (λ c. IsSpellable c.header c.tail) parts.now }
        requires planned { IsPlan plan.section plan.offsets.items plan.contents
            (in_version plan.version parts.now) }
        requires within { layout_size (in_version plan.version parts.now) ≤ 536870912 }
        ensures { IfOk result (λ image. image
            ≡ layout (in_version plan.entry.version parts.now)) }
    {
        // A law: nothing runs.
        layout_has_its_size();
        let front = write_front(alloc, parts, &plan)?;
        let bytes = plan.contents.end();
        Ok(Image {
            front,
            contents: plan.contents.into_kept(),
            bytes,
        })
    }

    /// How many bytes the image has.
    pub fn len(&self) -> u64
        ensures { result ≡ length self.now }
    {
        self.bytes
    }

    /// What stands before the data: the fixed header and the headers.
    pub fn front(&self) -> &[u8]
        ensures { result.now ≡ front_of self.now }
    {
        self.front.as_slice()
    }

    /// The contents, which stand behind the front, one behind the other.
    pub fn contents(&self) -> &[&'a [u8]]
        ensures { joined (front_of self.now) (lent result.now) ≡ self.now }
    {
        self.contents.as_slice()
    }
}
