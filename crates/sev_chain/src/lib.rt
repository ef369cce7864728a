//! The launch digest of SEV and SEV-ES guests, from the file alone.
#![tactic(auto)]

mod digest;
mod hashing;
pub mod laws;
mod measure;
#[cfg(test)]
mod tests;

pub use digest::Digest32;
pub use measure::sev_measure;
