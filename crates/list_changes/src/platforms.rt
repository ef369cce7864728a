//! The platforms of a list of components.
ghost use Rattle.std.specs.Prelude.{◌≡◌, ◌<◌, Some, length, slice_get};
ghost use Rattle.igvm_image.specs.RulesInWords.{platform_mask};
ghost use Rattle.list_changes.specs.ListPlatforms.{platforms_in};
ghost use Rattle.platform_masks.specs.declared.platform.Platform.{Platform};

use component_list::Component;
use igvm_headers::Header;

/// The mask of the platform of this number, counted from 0 in the order of their headers. The list
/// has a platform of that number.
pub fn mask_at(parts: &[Component], number: u32) -> u32
    requires { number < length (platforms_in parts.now) }
    ensures { (p : Platform) → slice_get (platforms_in parts.now) number ≡ Some p
        → result ≡ p.mask }
{
    let mut left = number;
    'parts: for component in parts {
        if let Some(mask) = own_mask(&component.header) {
            if left == 0 {
                return mask;
            }
            left -= 1;
        }
    }
    0
}

/// The mask of a platform's header.
fn own_mask(header: &Header) -> Option<u32>
    ensures { result ≡ platform_mask header.now }
{
    match header {
        Header::Platform { mask, .. } => Some(*mask),
        _ => None,
    }
}
