//! Lines of text, put together without memory and put on an output many at a time.
#![tactic(auto)]

mod buffer;
mod fields;
#[cfg(test)]
mod tests;

pub use buffer::LineBuffer;
