//! Why a component list is not read, or not expanded.
ghost use Rattle.std.specs.Prelude.{◌≡◌};
ghost use Rattle.component_list.specs.declared.refusal.ListRefusal.TheVariants as list;

use igvm_headers::{Memory, ReadWhat};
use std::alloc::AllocFailed;

/// A part of a component list's JSON.
#[derive(Clone, Copy, Debug, PartialEq, Eq)]
pub enum ListPart {
    Top,
    Platforms,
    Policies,
    Directives,
}

/// Why a component list is not read.
#[derive(Clone, Copy, Debug, PartialEq, Eq)]
pub enum ListRefusal {
    /// The text is no JSON.
    NotJson,
    /// The first entry that has not its form, by its part and its place in it.
    Field { part: ListPart, item: u32 },
    /// Memory ran out.
    Memory,
}

impl From<Memory> for ListRefusal {
    ghost from_gives = { λ _ refusal. refusal ≡ list.Memory };

    fn from(_e: Memory) -> ListRefusal {
        ListRefusal::Memory
    }
}

impl<T: Drop> From<AllocFailed<T>> for ListRefusal {
    ghost from_gives = { λ _ refusal. refusal ≡ list.Memory };

    fn from(_e: AllocFailed<T>) -> ListRefusal {
        ListRefusal::Memory
    }
}

/// Why a component list is not expanded. An item is the place of an entry in its part.
#[derive(Clone, Copy, Debug, PartialEq, Eq)]
pub enum ExpandRefusal {
    /// The file of a directive could not be read.
    Read {
        item: u32,
    },
    /// The file of a directive gave more than 536,870,912 bytes.
    TooLong {
        item: u32,
    },
    /// With a directive the contents pass 1,073,741,824 bytes.
    TooLarge {
        item: u32,
    },
    /// An entry breaks a rule of docs/LIST.md.
    Rule {
        part: ListPart,
        item: u32,
        what: ReadWhat,
    },
    /// Memory ran out.
    Memory,
}
