//! The pages file: what a launch machine holds, as a file.
#![tactic(auto)]

mod kind;
mod laws;
mod record;
mod writing;

pub use laws::pages_file_size;
pub use writing::write_pages;

#[cfg(test)]
mod tests;
