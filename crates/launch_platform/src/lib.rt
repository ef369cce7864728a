//! Launch machines: a trait, one in memory, and one whose commands can be made to fail.
#![tactic(auto)]

mod chain;
mod command_faults;
mod ended_launch;
mod failing_launch;
mod guest_pages;
mod launch;
mod laws;
mod mem_launch;
mod phase;
mod refusals;
mod running_launch;
mod views;

pub use command_faults::CommandFaults;
pub use failing_launch::FailingLaunch;
pub use guest_pages::GuestPages;
pub use launch::Launch;
pub use laws::{entry_changes, pages_enter, records_join, tags_fit};
pub use mem_launch::MemLaunch;
pub use phase::Phase;
pub use refusals::{FinishRefusal, StartRefusal};
pub use views::{ContextView, EntryView};

#[cfg(test)]
mod tests;
