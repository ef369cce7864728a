//! How many pages components name.
ghost use Rattle.std.specs.Prelude.{◌≡◌, ◌≤◌};
ghost use Rattle.component_list.specs.Lists.{IsValid};
ghost use Rattle.elf_list.specs.ElfParts.{pages_named};

use component_list::{Component, first_fault_of_a_list};
use igvm_image::SeenHeaders;

/// How many pages of 4,096 bytes the headers of a list's components name together.
pub(crate) fn pages_named(parts: &[Component]) -> u64
    requires { IsValid parts.now }
    ensures count { result ≡ pages_named parts.now }
    ensures few { result ≤ 4194304 }
{
    // A law: nothing runs.
    first_fault_of_a_list();
    let mut seen = SeenHeaders::new();
    let mut named = 0;
    'parts: for component in parts {
        named += seen.placed_pages(&component.header);
        seen.push(&component.header);
    }
    named
}
