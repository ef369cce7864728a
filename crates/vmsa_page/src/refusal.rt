//! Why a JSON text describes no VMSA.

/// The text is no JSON, or its first fault, or memory is wanting.
#[derive(Clone, Copy, Debug, PartialEq, Eq)]
pub enum VmsaRefusal {
    /// The bytes are not UTF-8, or not one JSON text.
    NotJson,
    /// The first place that fails: 0 is the text as a whole, 1 to 10 are the segments and 11 to 23
    /// the numbers in the order of their offsets in the page, and 24 is `other`.
    Field { place: u32 },
    /// Memory ran out.
    Memory,
}
