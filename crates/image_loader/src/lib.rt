//! Carries the directives of an image out on a launch machine.
#![tactic(auto)]

mod answers;
mod area_laws;
mod carrier;
mod ending;
mod headers;
mod judged;
mod launch_carrier;
pub mod laws;
mod loading;
mod page_laws;
mod pages;
mod prepared;
mod source;
mod step_laws;
#[cfg(test)]
mod tests;

pub use answers::{ExecuteRefusal, LoadAnswer, PrepareRefusal};
pub use carrier::Carrier;
pub use judged::{Judged, carry, judge};
pub use loading::execute;
pub use prepared::{Prepared, prepare};
