//! Two component lists joined into one.
#![tactic(auto)]

mod joining;
mod laws;
mod moves;
mod numbers;
mod parts;
mod refusal;
mod renaming;
#[cfg(test)]
mod tests;

pub use joining::join;
pub use laws::{least_new_numbers, three_parts};
pub use refusal::JoinRefusal;
