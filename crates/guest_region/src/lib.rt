//! Guest memory: page slots of 4,096 bytes, kept in one block.
#![tactic(auto)]

mod block;
mod region;

pub use region::GuestRegion;
