//! The measurement of a TDX guest, record by record.
#![tactic(auto)]

mod chain;
mod chunks;
mod front;
#[cfg(test)]
mod tests;

pub use chain::TdxChain;
