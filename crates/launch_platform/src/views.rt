//! What a launch machine lends of its entries and contexts.

use igvm_headers::Tag;

/// A page that was placed.
#[derive(Drop)]
pub struct EntryView<'a> {
    /// Its guest physical address, a multiple of 4,096.
    pub gpa: u64,
    /// Its 4,096 bytes.
    pub page: &'a [u8],
    /// How it entered the launch, if it was added.
    pub tag: Option<Tag>,
    /// Its bytes were measured by `extend`.
    pub extended: bool,
}

/// The state that a virtual processor begins with.
#[derive(Drop)]
pub struct ContextView<'a> {
    /// The processor's index.
    pub vp: u16,
    /// The guest physical address of its save area.
    pub gpa: u64,
    /// The 4,096 bytes of its save area.
    pub page: &'a [u8],
}
