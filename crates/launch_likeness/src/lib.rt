//! When platforms of two images are launched alike: the same pages, contexts and launch digest.
#![tactic(auto)]

mod laws;

pub use laws::{one_list_one_launch, platforms_of_a_list};
