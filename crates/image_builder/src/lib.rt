//! Images of component lists: the bytes that a builder writes.
#![tactic(auto)]

mod contents;
mod fixed_header;
mod image;
mod joined_image;
mod laws;
mod plan;
mod read_back;
mod refusal;
mod sizes;
mod spellable;
#[cfg(test)]
mod tests;
mod writing;

pub use image::Image;
pub use joined_image::build;
pub use laws::{each_content_stands_once, layout_has_its_size};
pub use read_back::built_is_read_back;
pub use refusal::BuildRefusal;
