//! JSON (RFC 8259) as the texts of this repository use it: from bytes to a value, and the forms
//! that values have.
#![tactic(auto)]

mod addresses;
mod keys;
mod laws;
mod numbers;
#[cfg(test)]
mod tests;
mod texts;

pub use addresses::address;
pub use keys::has_only;
pub use laws::plain_reads_back;
pub use numbers::{byte, short, word};
pub use texts::{JsonRefusal, json_of};
