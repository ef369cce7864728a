//! Component lists of IGVM images: from parts, from their JSON, and from images.
#![tactic(auto)]

mod blob;
mod component;
mod directive_sizes;
mod directives;
mod entry_of_component;
mod expanding;
mod field_ranges;
mod fields;
mod header_entries;
mod id_block;
mod image_list;
mod laws;
mod list;
mod list_fault;
mod list_rules;
mod page_run;
mod pages;
mod parts;
mod progress;
mod reading;
mod refusal;
mod slices;
mod source;
#[cfg(test)]
mod tests;

pub use blob::Blob;
pub use component::{Component, Content};
pub use expanding::expand;
pub use image_list::components_of;
pub use laws::{
    data_are_a_slice, equality_is_exact, expansion_in_words, first_fault_of_a_list,
    image_lists_are_valid, offsets_do_not_count,
};
pub use list::ComponentList;
pub use list_fault::ListFault;
pub use reading::read_list;
pub use refusal::{ExpandRefusal, ListPart, ListRefusal};
pub use source::{Directive, FileName, ListSource, PageRun};
