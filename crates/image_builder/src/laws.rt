//! What holds of every layout, each law as the contract of a function that does nothing.
ghost use Rattle.std.specs.Prelude.{◌≡◌, ◌+◌, ◌++◌, ℕ, List, [], ◌∷◌, Some, None, length, take, sum_by};
ghost use Rattle.igvm_headers.specs.Fixed.{fixed_size};
ghost use Rattle.component_list.specs.declared.component.Component.{Component};
ghost use Rattle.component_list.specs.declared.component.Content.TheVariants.{Bytes};
ghost use Rattle.component_list.specs.Lists.{ImageParts};
ghost use Rattle.image_builder.specs.FirstUse.{bytes_at, bytes_in, IsFirst, IsNew};
ghost use Rattle.image_builder.specs.Layout.{data_start, kept_contents, layout, layout_size, offset_among, section, section_size};

use igvm_headers::{offset_keeps, spelled_is_a_piece};

/// A layout and its section have as many bytes as their sizes say: where data stand changes nothing
/// of how many bytes a header takes.
pub fn layout_has_its_size()
    ensures section { (list : ImageParts) → length (section list) ≡ section_size list.parts }
    ensures layout { (list : ImageParts) → length (layout list) ≡ layout_size list }
{
    // Laws: nothing runs.
    spelled_is_a_piece();
    offset_keeps();
}

/// The data are each content once, in the order of first use; and a content stands after the fixed
/// header, the section, and the data before the first component that has it.
pub fn each_content_stands_once()
    ensures nothing { (parts : List Component) (c : Component) → bytes_in c.content ≡ None
        → kept_contents (parts ++ c ∷ []) ≡ kept_contents parts }
    ensures again { (parts : List Component) (c : Component) (bytes : List ℕ) (k : ℕ)
        → bytes_in c.content ≡ Some bytes → bytes_at parts k ≡ Some bytes
        → kept_contents (parts ++ c ∷ []) ≡ kept_contents parts }
    ensures first { (parts : List Component) (c : Component) (bytes : List ℕ)
        → bytes_in c.content ≡ Some bytes → IsNew parts bytes
        → kept_contents (parts ++ c ∷ []) ≡ kept_contents parts ++ bytes ∷ [] }
    ensures offset { (list : ImageParts) (bytes : List ℕ) (place : ℕ)
        → IsFirst list.parts bytes place
        → offset_among (data_start list) (kept_contents list.parts) (Bytes bytes)
        ≡ fixed_size list.version + section_size list.parts
        + sum_by length (kept_contents (take place list.parts)) }
{}
