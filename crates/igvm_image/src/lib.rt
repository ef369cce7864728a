//! The reader of IGVM files, and views of what it accepted, lent from the file.
#![tactic(auto)]

mod area_table;
mod data_view;
mod file_rules;
mod header_rules;
mod headers;
pub mod laws;
mod one_bit;
mod piece;
mod seen_headers;
#[cfg(test)]
mod tests;
mod view;

pub use area_table::AreaEntry;
pub use data_view::DataView;
pub use headers::{Headers, Placed};
pub use seen_headers::SeenHeaders;
pub use view::{ImageView, open_image};
