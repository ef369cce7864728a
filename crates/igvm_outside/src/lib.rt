//! Files and outputs as traits, so that what stands above is proved over each of them.
#![tactic(auto)]

mod fakes;
mod file_writing;
mod laws;
mod putting;
mod read_refusal;
mod reading;
mod shelf;
mod sink;
mod std_shelf;
mod std_sink;

pub use fakes::{MadeShelf, MemShelf, MemSink};
pub use file_writing::{write_file, write_piece, write_pieces};
pub use laws::{reads_compose, writes_compose};
pub use putting::put_all;
pub use read_refusal::ReadRefusal;
pub use reading::read_all;
pub use shelf::Shelf;
pub use sink::Sink;
pub use std_shelf::StdShelf;
pub use std_sink::StdSink;

#[cfg(test)]
mod tests;
