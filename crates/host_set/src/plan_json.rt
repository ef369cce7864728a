//! The memory plan of a host description.
ghost use Rattle.std.specs.Prelude.{◌≡◌, ◌≢◌, ◌≤◌, length, option_map, IfOk, IfErr};
ghost use Rattle.serde_json.specs.View.{view, items_view};
ghost use Rattle.host_set.specs.Descriptions.{front_ranges, plan_in, plan_of, range_of};

use crate::plan::MemoryPlan;
use crate::range::PlanRange;
use crate::refusal::{HostPart, HostRefusal};
use igvm_headers::Memory;
use json_forms::{address, has_only};
use serde_json::Value;
use std::alloc::Global;

/// The plan of an array of ranges.
pub(crate) fn plan_in(alloc: Global, found: Option<&Vec<Value>>) -> Result<MemoryPlan, HostRefusal>
    ensures read { IfOk result (λ plan.
        plan_in (option_map (λ entries. items_view entries.now.items) found.entry) ≡ Ok plan) }
    ensures refused { IfErr result (λ e. e ≢ HostRefusal.Memory
        → plan_in (option_map (λ entries. items_view entries.now.items) found.entry) ≡ Err e) }
{
    let Some(entries) = found else {
        return Err(bad_range(0));
    };
    match front_ranges(alloc, entries) {
        Ok(ranges) => plan_of(entries.len(), ranges),
        Err(_) => Err(HostRefusal::Memory),
    }
}

/// The plan of so many entries, of which the first are these ranges.
#[tactic(auto, unfolding(crate::specs::Descriptions::plan_of))]
fn plan_of(entries: usize, ranges: Vec<PlanRange>) -> Result<MemoryPlan, HostRefusal>
    requires { length ranges.items ≤ entries }
    ensures read { IfOk result (λ plan. plan_of entries ranges.items ≡ Ok plan) }
    ensures refused { IfErr result (λ e. plan_of entries ranges.items ≡ Err e) }
{
    let placed = ranges.len();
    match MemoryPlan::from_ranges(ranges) {
        Ok(plan) if placed == entries => Ok(plan),
        Ok(_) => Err(bad_range(placed as u32)),
        Err(bad) => Err(bad_range(bad.item)),
    }
}

/// The refusal of a range.
fn bad_range(item: u32) -> HostRefusal
    ensures { result ≡ HostRefusal.Field HostPart.Memory item }
{
    HostRefusal::Field {
        part: HostPart::Memory,
        item,
    }
}

/// The ranges from the front on, up to the first entry that is none.
fn front_ranges(alloc: Global, entries: &[Value]) -> Result<Vec<PlanRange>, Memory>
    ensures ranges { IfOk result (λ ranges.
        ranges.items ≡ front_ranges (items_view entries.now)) }
    ensures few { IfOk result (λ ranges. length ranges.items ≤ length entries.now) }
{
    let mut ranges = Vec::new(alloc);
    'steps: for entry in entries {
        let Some(range) = range_of(entry) else {
            return Ok(ranges);
        };
        if ranges.push(range).is_err() {
            return Err(Memory);
        }
    }
    Ok(ranges)
}

/// An object with the addresses `start` and `bytes`, and no other key.
#[tactic(auto, unfolding(crate::specs::Descriptions::range_of))]
fn range_of(json: &Value) -> Option<PlanRange>
    ensures { result ≡ range_of (view json.now) }
{
    if !has_only(json, &["start", "bytes"]) {
        return None;
    }
    let start = address(json.get("start")?)?;
    let bytes = address(json.get("bytes")?)?;
    Some(PlanRange { start, bytes })
}
