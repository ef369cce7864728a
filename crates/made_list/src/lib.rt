//! A list of any number of pages, for trials of the whole program.
#![tactic(auto)]

mod context;
mod head;
mod laws;
mod making;
mod page;
mod pages;
mod part;
mod tail;
#[cfg(test)]
mod tests;
mod trial;

pub use laws::{
    made_image_fits, made_image_has_its_platforms, made_image_has_its_size,
    made_image_wants_no_digest, made_list_is_a_list,
};
pub use making::make_list;
pub use trial::{trial_host, trial_plan};
