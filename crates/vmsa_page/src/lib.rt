//! VMSA pages, the initial register state of a virtual processor, as named registers and as JSON.
#![tactic(auto)]

mod fields;
mod json_reader;
mod json_writer;
mod laws;
mod numbers_json;
mod other_byte;
mod others_json;
mod others_text;
mod page_reader;
mod page_writer;
mod refusal;
mod segment;
mod segment_text;
mod segments_json;
#[cfg(test)]
mod tests;
mod value_text;
mod vmsa;

pub use json_reader::read_vmsa_json;
pub use json_writer::vmsa_text;
pub use laws::{page_reads_back, text_is_short, text_reads_back, vmsa_reads_back};
pub use other_byte::OtherByte;
pub use page_reader::read_page;
pub use page_writer::write_page;
pub use refusal::VmsaRefusal;
pub use segment::Segment;
pub use vmsa::Vmsa;
