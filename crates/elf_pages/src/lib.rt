//! The guest pages that an ELF-64 file fills, and their bytes.
#![tactic(auto)]

mod fault;
mod file_rules;
mod laws;
mod numbers;
mod page_bytes;
mod page_walk;
mod program_headers;
mod segment;
mod segment_rules;
mod segment_table;
#[cfg(test)]
mod tests;
mod view;

pub use fault::{ElfFault, ElfWhat};
pub use laws::{
    accepted_files, bytes_are_the_segments, filled_pages, first_header_decides,
    overlap_is_a_shared_byte, pages_are_those_touched,
};
pub use segment::Segment;
pub use view::{ElfView, open_elf};
