//! What holds of every two images, each law as the contract of a function that does nothing.
ghost use Rattle.std.specs.Prelude.{◌≡◌, ℕ, List};
ghost use Rattle.platform_masks.specs.Platforms.{platforms_of};
ghost use Rattle.platform_masks.specs.declared.platform.Platform.{Platform};
ghost use Rattle.igvm_image.specs.Headers.{headers_of};
ghost use Rattle.component_list.specs.ImageList.{list_of};
ghost use Rattle.list_changes.specs.ListPlatforms.{platforms_in};
ghost use Rattle.launch_likeness.specs.LaunchedAlike.{AreLaunchedAlike, FitAlike, WantAlike};

/// Images of the same components are launched alike, wherever their data stand and whatever their
/// version is, fit the same hosts, and want the same digest: so does the image that an image's list is
/// built into.
pub fn one_list_one_launch()
    ensures launch { (file other : List ℕ) (p : Platform)
        → (list_of other).parts ≡ (list_of file).parts → AreLaunchedAlike file p other p }
    ensures fits { (file other : List ℕ) (p : Platform)
        → (list_of other).parts ≡ (list_of file).parts → FitAlike file p other p }
    ensures wants { (file other : List ℕ) (p : Platform)
        → (list_of other).parts ≡ (list_of file).parts → WantAlike file p other p }
{}

/// The platforms of an image are those of its list, in the same order: so a platform that a view of the
/// image has by its number is there in the list.
pub fn platforms_of_a_list()
    ensures { (file : List ℕ)
        → platforms_of (headers_of file) ≡ platforms_in (list_of file).parts }
{}
