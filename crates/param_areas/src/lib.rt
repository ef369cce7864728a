//! Parameter areas of a load: reserved at once, declared, set, lent page by page, and taken.
#![tactic(auto)]

mod area_buffer;
mod areas;
mod laws;
mod slot;
#[cfg(test)]
mod tests;

pub use areas::Areas;
pub use laws::{last_value_stands, told_is_shown};
