//! What the limits on two lists and the new numbers ask of each list.
ghost use Rattle.std.specs.Prelude.{◌≡◌, ◌≤◌, ◌++◌, ℕ, List, map, IfErr, IfOk, OnOk};
ghost use Rattle.std.specs.Option.{option_to_list};
ghost use Rattle.platform_masks.specs.Platforms.{platform_of};
ghost use Rattle.igvm_image.specs.Areas.{area_entry};
ghost use Rattle.component_list.specs.Lists.{IsValid};
ghost use Rattle.component_list.specs.declared.component.Component.{Component};

use crate::refusal::JoinRefusal;
use component_list::{Component, first_fault_of_a_list};
use igvm_headers::{Header, Memory};
use igvm_image::SeenHeaders;
use std::alloc::Global;

/// The most platforms of an image, each with a bit of a mask to itself.
const MOST_PLATFORMS: usize = 32;

/// The most parameter areas that an image may declare.
const MOST_AREAS: usize = 256;

/// The most pages of 4,096 bytes that the headers of an image may name.
const MOST_PAGES: u64 = 4_194_304;

/// The masks of a list's platforms and the indices of the areas that it declares, in its order, and how
/// many pages of 4,096 bytes its headers name.
#[derive(Drop)]
pub(crate) struct Numbers {
    pub(crate) masks: Vec<u32>,
    pub(crate) areas: Vec<u32>,
    pages: u64,
    ghost few: { pages ≤ 4194304 },
}

impl Numbers {
    ghost use Rattle.joined_list.specs.JoinRefusals.{IsJoinRefusal};
    ghost use Rattle.joined_list.specs.Joined.{FitTogether};
    ghost use Rattle.joined_list.specs.ListNumbers.{AreNumbersOf};

    /// The numbers of a list's components.
    pub(crate) fn of(alloc: Global, parts: &[Component]) -> Result<Numbers, Memory>
        requires { IsValid parts.now }
        ensures { IfOk result (λ numbers. AreNumbersOf parts.now numbers) }
    {
        // A law: nothing runs.
        first_fault_of_a_list();
        let mut seen = SeenHeaders::new();
        let mut numbers = Numbers {
            masks: Vec::new(alloc),
            areas: Vec::new(alloc),
            pages: 0,
        };
        'parts: for component in parts {
            numbers.pages += seen.placed_pages(&component.header);
            seen.push(&component.header);
            numbers.declare(&component.header)?;
        }
        Ok(numbers)
    }

    /// Takes in the mask of the platform, or the index of the area, that a header declares.
    fn declare(&mut self, header: &Header) -> Result<(), Memory>
        ensures masks { OnOk result ((number : ℕ) → self.new.masks.items
            ≡ self.old.masks.items ++ map (λ p. p.mask) (platform_of number header.now)) }
        ensures areas { OnOk result (self.new.areas.items
            ≡ self.old.areas.items ++ map (λ a. a.area) (option_to_list (area_entry header.now))) }
        ensures pages { self.new.pages ≡ self.old.pages }
    {
        match header {
            Header::Platform { mask, .. } => self.masks.push(*mask)?,
            Header::Area { area, .. } => self.areas.push(*area)?,
            _ => {}
        }
        Ok(())
    }

    /// Whether two lists of these numbers are within the limits of one, or the first limit that they pass.
    pub(crate) fn fit_together(&self, second: &Numbers) -> Result<(), JoinRefusal>
        ensures together { (a b : List Component) → AreNumbersOf a self.now → AreNumbersOf b second.now
            → OnOk result (FitTogether a b) }
        ensures refused { (a b : List Component) → AreNumbersOf a self.now → AreNumbersOf b second.now
            → IfErr result (IsJoinRefusal a b) }
    {
        if self.masks.len() + second.masks.len() > MOST_PLATFORMS {
            return Err(JoinRefusal::TooManyPlatforms);
        }
        if self.areas.len() + second.areas.len() > MOST_AREAS {
            return Err(JoinRefusal::TooManyAreas);
        }
        if self.pages + second.pages > MOST_PAGES {
            return Err(JoinRefusal::TooManyPages);
        }
        Ok(())
    }
}
