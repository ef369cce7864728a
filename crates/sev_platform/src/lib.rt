//! Launch machines of SEV and SEV-ES guests: a trait, one in memory, and one whose commands can be made to fail.
#![tactic(auto)]

mod ended_sev_launch;
mod failing_sev_launch;
mod running_sev_launch;
mod sev_entry;
mod sev_launch;
mod sev_mem_launch;

pub use failing_sev_launch::FailingSevLaunch;
pub use sev_entry::SevEntry;
pub use sev_launch::SevLaunch;
pub use sev_mem_launch::SevMemLaunch;

#[cfg(test)]
mod tests;
