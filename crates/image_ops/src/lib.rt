//! Operations on component lists: strip to one platform, join two, seal for a platform.
#![tactic(auto)]

mod sealing;
mod stripping;

pub use joined_list::{JoinRefusal, join};
pub use sealing::{SealRefusal, seal};
pub use stripping::strip;
