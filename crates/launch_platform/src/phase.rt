//! How far a launch has come (SEV-SNP Firmware ABI, guest states; Intel TDX Module, TD build).

/// How far a launch has come.
#[derive(Clone, Copy, Debug, PartialEq, Eq)]
pub enum Phase {
    /// Nothing has begun.
    Idle,
    /// Pages and contexts are put in and measured.
    Loading,
    /// It has ended with a digest.
    Done,
    /// It has ended with another digest than the one that was wanted.
    Refused,
}
