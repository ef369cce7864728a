//! A list stripped to one platform.
ghost use Rattle.std.specs.Prelude.{◌≡◌, ◌≤◌, ◌<◌, [], ◌∷◌, ℕ, List, Some, filter, length, map, slice_get};
ghost use Rattle.component_list.specs.ImageList.{list_of};
ghost use Rattle.image_builder.specs.Layout.{layout, layout_size};
ghost use Rattle.image_ops.specs.Stripped.{masked, stays, stripped};
ghost use Rattle.launch_likeness.specs.LaunchedAlike.{FitAlike, KeepsLaunch, WantAlike};
ghost use Rattle.list_changes.specs.ListPlatforms.{platforms_in, renumbered};
ghost use Rattle.platform_masks.specs.declared.platform.Platform.{Platform};

use component_list::{Component, ComponentList};
use igvm_headers::Header;
use image_builder::built_is_read_back;
use list_changes::{mask_at, with_mask};
use platform_masks::applies;

/// What counts for one platform of a list alone: the platform of this number, each header that shares
/// a bit with its mask, with that mask, and each header that has none. The list has such a platform.
/// It takes no memory.
///
/// Each image of the list and the image of the stripped one launch the platform alike, fit the same
/// hosts, and want the same digest: so a load of the one is Loaded where one of the other is.
pub fn strip(list: ComponentList, platform: u32) -> ComponentList
    requires { platform < length (platforms_in list.parts) }
    ensures list { (p : Platform) → slice_get (platforms_in list.parts) platform ≡ Some p
        → result ≡ stripped p.mask list }
    ensures alone { (p : Platform) → slice_get (platforms_in list.parts) platform ≡ Some p
        → platforms_in result.parts ≡ renumbered 0 p.mask p ∷ [] }
    ensures launch { (file : List ℕ) (p : Platform) → list_of file ≡ list
        → slice_get (platforms_in list.parts) platform ≡ Some p → layout_size result ≤ 536870912
        → KeepsLaunch file p result 0 p.mask }
    ensures fits { (file : List ℕ) (p : Platform) → list_of file ≡ list
        → slice_get (platforms_in list.parts) platform ≡ Some p → layout_size result ≤ 536870912
        → FitAlike file p (layout result) (renumbered 0 p.mask p) }
    ensures wants { (file : List ℕ) (p : Platform) → list_of file ≡ list
        → slice_get (platforms_in list.parts) platform ≡ Some p → layout_size result ≤ 536870912
        → WantAlike file p (layout result) (renumbered 0 p.mask p) }
{
    let version = list.version();
    let mask = mask_at(list.components(), platform);
    let mut parts = list.into_parts();
    leave(&mut parts, mask);
    give_mask(&mut parts, mask);
    // A law: nothing runs.
    built_is_read_back();
    ComponentList::of_valid(parts).with_version(version)
}

/// The components that stay.
fn leave(parts: &mut Vec<Component>, mask: u32)
    ensures { parts.new.items ≡ filter (λ c. stays mask c.header) parts.old.items }
{
    parts.retain(|c| stays(&c.header, mask));
}

/// A header without a mask stays, and each other that shares a bit with this mask.
fn stays(header: &Header, mask: u32) -> bool
    ensures { result ≡ stays mask header.now }
{
    match header {
        Header::Area { .. } | Header::Param { .. } | Header::Carried { .. } => true,
        _ => applies(header, mask),
    }
}

/// Gives each header that has a mask this one.
fn give_mask(parts: &mut Vec<Component>, mask: u32)
    ensures { parts.new.items ≡ map (masked mask) parts.old.items }
{
    'parts: for component in parts.iter_mut() {
        component.header = with_mask(component.header, mask);
    }
}
