//! Why a host description is refused.

/// A part of a host description: the whole of it, or what stands at one of its keys.
#[derive(Clone, Copy, Debug, PartialEq, Eq)]
pub enum HostPart {
    Top,
    Memory,
    Values,
    Secrets,
    Cpuid,
}

/// The text is no JSON, or its first fault, or memory is wanting. `item` counts from 0: it is the
/// number of a range under `memory` and that of a parameter under `values`.
#[derive(Clone, Copy, Debug, PartialEq, Eq)]
pub enum HostRefusal {
    NotJson,
    Field { part: HostPart, item: u32 },
    Memory,
}
