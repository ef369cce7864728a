//! The launch digest of an image, from the file alone, and what it stands for.
#![tactic(auto)]

mod alike;
pub mod laws;
mod measure;
mod page_digests;
mod page_row;
mod run;
mod same;
mod snp;
mod tdx;
#[cfg(test)]
mod tests;
mod walk;

pub use alike::measured_alike;
pub use measure::{NoDigest, measure_image};
