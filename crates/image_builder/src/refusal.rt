//! Why a list is not built.

/// Why there is no image of a list.
#[derive(Clone, Copy, Debug, PartialEq, Eq)]
pub enum BuildRefusal {
    /// The image would have more than 536,870,912 bytes. `bytes` is their number, or 2^64 - 1 where
    /// it is more.
    TooLarge { bytes: u64 },
    /// Want of memory.
    Memory,
}
