//! The words that the program is given, and the job that they mean: docs/PROGRAM.md.
#![tactic(auto)]

mod job;
mod laws;
mod number;
mod platform_choice;
#[cfg(test)]
mod tests;
mod words;

pub use job::{Job, LoadWords, MeasureWords, job_of, measure_options};
pub use laws::words_of_a_job;
pub use number::number_of;
pub use platform_choice::{PlatformChoice, choice_of};
pub use words::{Words, is_file_name, is_text};
