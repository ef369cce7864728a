//! Changes of the headers of component lists: other masks, other area indices.
#![tactic(auto)]

mod headers;
mod platforms;

pub use headers::{with_area, with_mask};
pub use platforms::mask_at;
