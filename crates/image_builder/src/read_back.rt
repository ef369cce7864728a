//! What holds of every layout that is read again, as the contract of a function that does nothing.
ghost use Rattle.std.specs.Prelude.{◌≡◌, ◌≤◌};
ghost use Rattle.component_list.specs.Lists.{ImageParts, IsList};
ghost use Rattle.component_list.specs.ImageList.{list_of};
ghost use Rattle.igvm_image.specs.Headers.{IsAccepted};
ghost use Rattle.image_builder.specs.Layout.{layout, layout_size};

use component_list::offsets_do_not_count;
use igvm_headers::{fields_are_bytes, offset_keeps, spelled_is_a_piece, spelled_is_read};
use igvm_image::laws::one_split;

/// What is built is accepted, and its list is the list that it was built from: its version, and each
/// component.
pub fn built_is_read_back()
    ensures accepted { (list : ImageParts) → IsList list → layout_size list ≤ 536870912
        → IsAccepted (layout list) }
    ensures list { (list : ImageParts) → IsList list → layout_size list ≤ 536870912
        → list_of (layout list) ≡ list }
{
    // Laws: nothing runs.
    spelled_is_read();
    spelled_is_a_piece();
    offset_keeps();
    fields_are_bytes();
    one_split();
    offsets_do_not_count();
}
