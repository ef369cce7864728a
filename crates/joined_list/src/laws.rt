//! What holds of every two lists, each law as the contract of a function that does nothing.
ghost use Rattle.std.specs.Prelude.{◌≡◌, ◌≤◌, ℕ, List, Some, slice_get};
ghost use Rattle.component_list.specs.declared.component.Component.{Component};
ghost use Rattle.joined_list.specs.InWords.{AreParts, TakesLeastBit, TakesLeastIndex};
ghost use Rattle.joined_list.specs.Joined.{all_areas, all_platforms};
ghost use Rattle.joined_list.specs.NewNumbers.{areas_in, second_areas, second_masks};
ghost use Rattle.joined_list.specs.Parts.{first_part, second_part, third_part};
ghost use Rattle.list_changes.specs.ListPlatforms.{masks_in};

/// Where a list is cut: behind its last platform, and behind the last header of initialization after that.
pub fn three_parts()
    ensures { (parts : List Component)
        → AreParts parts (first_part parts) (second_part parts) (third_part parts) }
{}

/// The platforms and areas of a second list get the least bits and indices that are free, in their order,
/// where both lists have no more of them than one may.
pub fn least_new_numbers()
    ensures masks { (a b : List Component) (j old : ℕ) → all_platforms a b ≤ 32
        → slice_get (masks_in b) j ≡ Some old → TakesLeastBit (masks_in a) (second_masks a b) j old }
    ensures areas { (a b : List Component) (j old : ℕ) → all_areas a b ≤ 256
        → slice_get (areas_in b) j ≡ Some old
        → TakesLeastIndex (areas_in a) (second_areas a b) j old }
{}
