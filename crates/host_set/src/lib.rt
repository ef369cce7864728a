//! What a host tells a loader: the memory that the guest may have, and the host's values.
#![tactic(auto)]

mod coverage;
mod fields;
mod host;
mod laws;
mod plan;
mod plan_json;
mod range;
mod reading;
mod refusal;
#[cfg(test)]
mod tests;
mod values_json;

pub use host::HostSet;
pub use laws::{covered_bytes, first_bad_range};
pub use plan::{BadRange, MemoryPlan};
pub use range::PlanRange;
pub use reading::read_host;
pub use refusal::{HostPart, HostRefusal};
