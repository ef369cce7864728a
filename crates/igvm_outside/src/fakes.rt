//! Shelves and an output in memory, and how they are made to fail.
mod fake_script;
mod made_files;
mod made_shelf;
mod mem_files;
mod mem_shelf;
mod mem_sink;

pub use made_shelf::MadeShelf;
pub use mem_shelf::MemShelf;
pub use mem_sink::MemSink;
