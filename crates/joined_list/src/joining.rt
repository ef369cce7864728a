//! Two component lists joined into one.
ghost use Rattle.std.specs.Prelude.{◌≡◌, ◌+◌, ◌<◌, ◌≤◌, ◌^◌, ℕ, List, Some, IfErr, IfOk, OnOk, length, slice_get};
ghost use Rattle.component_list.specs.ImageList.{list_of};
ghost use Rattle.component_list.specs.Lists.{IsValid};
ghost use Rattle.image_builder.specs.Layout.{layout, layout_size};
ghost use Rattle.joined_list.specs.JoinRefusals.{IsJoinRefusal};
ghost use Rattle.joined_list.specs.Joined.{FitTogether, joined, joined_parts};
ghost use Rattle.joined_list.specs.NewNumbers.{mask_by, second_masks};
ghost use Rattle.launch_likeness.specs.LaunchedAlike.{KeepsLaunch, WantAlike};
ghost use Rattle.list_changes.specs.ListPlatforms.{platforms_in, renumbered};
ghost use Rattle.platform_masks.specs.declared.platform.Platform.{Platform};

use crate::numbers::Numbers;
use crate::parts::{by_turns, cut};
use crate::refusal::JoinRefusal;
use crate::renaming::{renamed_first, renamed_second};
use component_list::{Component, ComponentList};
use image_builder::built_is_read_back;
use std::alloc::Global;

/// One list of the headers of two, in the first's version. The platforms of the second come behind those
/// of the first, under bits that no platform of the first has; the areas of the second have indices that no
/// area of the first has. Each list is cut behind its last platform, and behind the last header of
/// initialization after that; the parts stand by turns, those of the first list before those of the second.
/// The lists have fewer than 2^32 components together.
///
/// Each platform of either list's image is launched alike by the joined list's image, and an ID block of it
/// wants another digest where one did. Whether it fits a host can differ, since areas count on every
/// platform.
pub fn join(
    alloc: Global,
    first: ComponentList,
    second: ComponentList,
) -> Result<ComponentList, JoinRefusal>
    requires { length first.parts + length second.parts < 2 ^ 32 }
    ensures list { IfOk result (λ list. list ≡ joined first second) }
    ensures together { OnOk result (FitTogether first.parts second.parts) }
    ensures refused { IfErr result (IsJoinRefusal first.parts second.parts) }
    ensures first { (file : List ℕ) (n : ℕ) (p : Platform) → list_of file ≡ first
        → slice_get (platforms_in first.parts) n ≡ Some p
        → IfOk result (λ list. layout_size list ≤ 536870912 → KeepsLaunch file p list n p.mask) }
    ensures second { (file : List ℕ) (n : ℕ) (p : Platform) → list_of file ≡ second
        → slice_get (platforms_in second.parts) n ≡ Some p
        → IfOk result (λ list. layout_size list ≤ 536870912
        → KeepsLaunch file p list (length (platforms_in first.parts) + n)
        (mask_by (second_masks first.parts second.parts) p.mask)) }
    ensures first_wants { (file : List ℕ) (n : ℕ) (p : Platform) → list_of file ≡ first
        → slice_get (platforms_in first.parts) n ≡ Some p
        → IfOk result (λ list. layout_size list ≤ 536870912
        → WantAlike file p (layout list) (renumbered n p.mask p)) }
    ensures second_wants { (file : List ℕ) (n : ℕ) (p : Platform) → list_of file ≡ second
        → slice_get (platforms_in second.parts) n ≡ Some p
        → IfOk result (λ list. layout_size list ≤ 536870912
        → WantAlike file p (layout list) (renumbered (length (platforms_in first.parts) + n)
        (mask_by (second_masks first.parts second.parts) p.mask) p)) }
{
    // A law: nothing runs.
    built_is_read_back();
    let version = first.version();
    let parts = join_parts(alloc, first.into_parts(), second.into_parts())?;
    Ok(ComponentList::of_valid(parts).with_version(version))
}

/// The components of two lists, joined.
fn join_parts(
    alloc: Global,
    first: Vec<Component>,
    second: Vec<Component>,
) -> Result<Vec<Component>, JoinRefusal>
    requires first { IsValid first.items }
    requires second { IsValid second.items }
    ensures parts { IfOk result (λ parts. parts.items ≡ joined_parts first.items second.items) }
    ensures together { OnOk result (FitTogether first.items second.items) }
    ensures refused { IfErr result (IsJoinRefusal first.items second.items) }
{
    let first_numbers = Numbers::of(alloc, first.as_slice())?;
    let second_numbers = Numbers::of(alloc, second.as_slice())?;
    first_numbers.fit_together(&second_numbers)?;
    let first = renamed_first(alloc, first, &first_numbers)?;
    let second = renamed_second(alloc, second, &second_numbers, &first_numbers)?;
    let parts = by_turns(cut(first)?, cut(second)?)?;
    Ok(parts)
}
