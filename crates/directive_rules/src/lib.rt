//! The rules of directive headers: what they place, how it enters a launch, and the first that a host
//! can't carry out.
#![tactic(auto)]

mod additions;
mod earlier_headers;
mod first_misfit;
pub mod laws;
mod misfit;
mod page_ranges;
mod pages;
mod rows;
mod tags;
#[cfg(test)]
mod tests;

pub use first_misfit::check;
pub use misfit::{CheckRefusal, Checked, IdWanted, Misfit, Why};
pub use pages::page_count;
pub use tags::tag_of;
