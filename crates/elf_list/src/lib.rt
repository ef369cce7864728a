//! The pages of an ELF file, put into a component list.
#![tactic(auto)]

mod adding;
mod laws;
mod page;
mod page_count;
mod pages;
mod refusal;
#[cfg(test)]
mod tests;

pub use adding::add_elf_pages;
pub use laws::{elf_bytes_are_placed, list_with_elf_pages_is_a_list};
pub use refusal::ElfListRefusal;
