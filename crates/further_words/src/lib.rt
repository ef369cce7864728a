//! The words of the further commands, and the job that they mean: docs/PROGRAM.md.
#![tactic(auto)]

mod job;
mod laws;
mod sev_choice;
#[cfg(test)]
mod tests;

pub use job::{ElfWords, FurtherJob, JoinWords, SealWords, SevLoadWords, StripWords, further_of};
pub use laws::{words_mean_one_job, words_of_a_further_job};
