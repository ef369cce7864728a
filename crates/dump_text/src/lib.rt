//! The listing of an image, put on an output.
#![tactic(auto)]

mod header_texts;
mod lines;
mod printing;
#[cfg(test)]
mod tests;

pub use printing::print_image;
