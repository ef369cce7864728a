//! How a page enters a launch.

/// What a page is to the launch that it is added to.
#[derive(Clone, Copy, Debug, PartialEq, Eq)]
pub enum Tag {
    /// Its bytes are measured.
    Normal,
    /// Zeros that the firmware makes; its place and that are measured.
    Zero,
    /// Its place alone is measured.
    Unmeasured,
    /// The SNP secrets page.
    Secrets,
    /// An SNP CPUID page.
    Cpuid,
}
