//! What holds of every made list, each law as the contract of a function that does nothing.
ghost use Rattle.std.specs.Prelude.{◌≡◌, ◌≤◌, ◌+◌, ◌*◌, ℕ, length, None, Some};
ghost use Rattle.std.specs.List.{slice_get};
ghost use Rattle.component_list.specs.Lists.{IsList};
ghost use Rattle.image_builder.specs.Layout.{layout, layout_size};
ghost use Rattle.igvm_image.specs.Headers.{IsAccepted, headers_of};
ghost use Rattle.platform_masks.specs.Platforms.{platforms_of};
ghost use Rattle.directive_rules.specs.FirstMisfit.{first_misfit};
ghost use Rattle.igvm_headers.specs.declared.options.Options.{Options};
ghost use Rattle.igvm_measure.specs.WantedDigest.{bad_digest, wanted_id};
ghost use Rattle.made_list.specs.MadeList.{made_list};
ghost use Rattle.made_list.specs.MadeImage.{made_platforms, snp_platform, tdx_platform, trial_host, trial_plan};

use component_list::offsets_do_not_count;
use image_builder::{built_is_read_back, layout_has_its_size};

/// A made list breaks no rule of lists.
pub fn made_list_is_a_list()
    ensures { (n : ℕ) → 1 ≤ n → n ≤ 100000 → IsList (made_list n) }
{}

/// How many bytes the image of a made list has: 4,408, and 4,128 for each page, since no page has
/// the bytes of another. That is within the limit of what is built.
pub fn made_image_has_its_size()
    ensures planned { (n : ℕ) → 1 ≤ n → n ≤ 100000
        → layout_size (made_list n) ≡ 4408 + 4128 * n }
    ensures built { (n : ℕ) → 1 ≤ n → n ≤ 100000
        → length (layout (made_list n)) ≡ 4408 + 4128 * n }
{
    // A law: nothing runs.
    layout_has_its_size();
}

/// The image of a made list is accepted, and has its three platforms: that of SEV-SNP is number 0, and
/// that of TDX number 1.
pub fn made_image_has_its_platforms()
    ensures accepted { (n : ℕ) → 1 ≤ n → n ≤ 100000 → IsAccepted (layout (made_list n)) }
    ensures platforms { (n : ℕ) → 1 ≤ n → n ≤ 100000
        → platforms_of (headers_of (layout (made_list n))) ≡ made_platforms }
    ensures snp { (n : ℕ) → 1 ≤ n → n ≤ 100000
        → slice_get (platforms_of (headers_of (layout (made_list n)))) 0 ≡ Some snp_platform }
    ensures tdx { (n : ℕ) → 1 ≤ n → n ≤ 100000
        → slice_get (platforms_of (headers_of (layout (made_list n)))) 1 ≡ Some tdx_platform }
{
    // Laws: nothing runs.
    built_is_read_back();
    offsets_do_not_count();
}

/// The image of a made list fits a host with 4 GB of memory and a command line, on SEV-SNP.
pub fn made_image_fits()
    ensures { (n : ℕ) → 1 ≤ n → n ≤ 100000
        → first_misfit (layout (made_list n)) snp_platform trial_plan trial_host ≡ None }
{
    // Laws: nothing runs.
    built_is_read_back();
    offsets_do_not_count();
}

/// The image of a made list has no ID block: on SEV-SNP no digest is wanted, and none is a bad one, by
/// any options.
pub fn made_image_wants_no_digest()
    ensures wanted { (n : ℕ) → 1 ≤ n → n ≤ 100000
        → wanted_id (layout (made_list n)) snp_platform ≡ None }
    ensures bad { (n : ℕ) (options : Options) → 1 ≤ n → n ≤ 100000
        → bad_digest (layout (made_list n)) snp_platform options ≡ None }
{
    // Laws: nothing runs.
    built_is_read_back();
    offsets_do_not_count();
}
