//! What a SEV machine lends of its entries.

/// A page that was placed.
#[derive(Drop)]
pub struct SevEntry<'a> {
    /// Its guest physical address, a multiple of 4,096.
    pub gpa: u64,
    /// Its 4,096 bytes.
    pub page: &'a [u8],
    /// Its bytes are measured.
    pub measured: bool,
}
