//! How many bytes headers take in a section (`igvm_defs`, IGVM_VHS_VARIABLE_HEADER).
ghost use Rattle.std.specs.Prelude.{◌≡◌, ◌<◌, ◌≤◌};
ghost use Rattle.std.specs.List.{AllByRecursion};
ghost use Rattle.igvm_headers.specs.SpellingConditions.{IsSpellable};
ghost use Rattle.image_builder.specs.ContentIndex.{saturated};
ghost use Rattle.image_builder.specs.Layout.{spelled_size, section_size};

use component_list::Component;
use igvm_headers::{spelled_is_a_piece, spelled_is_read};

/// The bytes of all headers, or 2^64 - 1 where they are more.
#[tactic(auto, unfolding(crate::specs::Layout::section_size))]
pub(crate) fn section_size(parts: &[Component]) -> u64
    requires { AllByRecursion (λ c. IsSpellable c.header c.tail) parts.now }
    ensures { result ≡ saturated (section_size parts.now) }
{
    let mut size: u64 = 0;
    'parts: for component in parts {
        size = size.saturating_add(spelled_size(component));
    }
    size
}

/// The bytes of a header: type and length, the content, and zeros up to a multiple of 8.
fn spelled_size(component: &Component) -> u64
    requires { IsSpellable component.now.header component.now.tail }
    ensures { result ≡ spelled_size component.now }
{
    // Laws: nothing runs.
    spelled_is_read();
    spelled_is_a_piece();
    let size = 8 + u64::from(component.header.content_size());
    (size + 7) / 8 * 8
}
