//! Components under new numbers.
ghost use Rattle.std.specs.Prelude.{◌≡◌, IfOk, List, map};
ghost use Rattle.component_list.specs.declared.component.Component.{Component};
ghost use Rattle.list_changes.specs.Changes.{changed, changed_part, same};
ghost use Rattle.joined_list.specs.Joined.{of_first, of_second};
ghost use Rattle.joined_list.specs.ListNumbers.{AreNumbersOf};
ghost use Rattle.joined_list.specs.NewNumbers.{area_by, mask_by};

use crate::moves::{Move, area_by, free_areas, free_masks, mask_by, same_masks};
use crate::numbers::Numbers;
use component_list::Component;
use igvm_headers::{Header, Memory};
use list_changes::{with_area, with_mask};
use std::alloc::Global;

/// The first list's components: each mask keeps the bits of the list's platforms alone.
pub(crate) fn renamed_first(
    alloc: Global,
    mut list: Vec<Component>,
    numbers: &Numbers,
) -> Result<Vec<Component>, Memory>
    requires { AreNumbersOf list.items numbers.now }
    ensures { IfOk result (λ renamed. renamed.items ≡ map (of_first list.items) list.items) }
{
    let masks = same_masks(alloc, numbers.masks.as_slice())?;
    rename(list.as_mut_slice(), masks.as_slice(), &[]);
    Ok(list)
}

/// The second list's components, with masks and areas that the first list leaves free.
pub(crate) fn renamed_second(
    alloc: Global,
    mut list: Vec<Component>,
    numbers: &Numbers,
    taken: &Numbers,
) -> Result<Vec<Component>, Memory>
    requires { AreNumbersOf list.items numbers.now }
    ensures { (first : List Component) → AreNumbersOf first taken.now
        → IfOk result (λ renamed. renamed.items ≡ map (of_second first list.items) list.items) }
{
    let masks = free_masks(alloc, numbers.masks.as_slice(), taken.masks.as_slice())?;
    let areas = free_areas(alloc, numbers.areas.as_slice(), taken.areas.as_slice())?;
    rename(list.as_mut_slice(), masks.as_slice(), areas.as_slice());
    Ok(list)
}

/// Gives each component its new mask and the new index of its area, where it has them.
fn rename(parts: &mut [Component], masks: &[Move], areas: &[Move])
    ensures { parts.new ≡ map (changed_part (mask_by masks.now) (area_by areas.now)) parts.old }
{
    'parts: for component in parts.iter_mut() {
        let header = with_new_mask(&component.header, masks);
        component.header = with_new_area(&header, areas);
    }
}

/// A header with its new mask, where it has one.
fn with_new_mask(header: &Header, masks: &[Move]) -> Header
    ensures { result ≡ changed (mask_by masks.now) same header.now }
{
    match header.mask() {
        Some(mask) => with_mask(*header, mask_by(masks, mask)),
        None => *header,
    }
}

/// A header with the new index of its area, where it has one.
fn with_new_area(header: &Header, areas: &[Move]) -> Header
    ensures { result ≡ changed same (area_by areas.now) header.now }
{
    match header {
        Header::Area { area, .. } | Header::Insert { area, .. } | Header::Param { area, .. } => {
            with_area(*header, area_by(areas, *area))
        }
        _ => *header,
    }
}
