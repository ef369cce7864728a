//! Loads images into SEV and SEV-ES machines.
#![tactic(auto)]

mod answers;
pub mod laws;
mod loading;
mod sev_carrier;
#[cfg(test)]
mod tests;

pub use answers::{SevAnswer, SevRefusal};
pub use loading::sev_load;
