//! The memory that a guest may have.
ghost use Rattle.std.specs.Prelude.{◌≡◌, ◌↔◌, ◌≤◌, None, Some, IfOk, IfErr, IsTrue, length, take};
ghost use Rattle.host_set.specs.Plans.{Covers, bad_range, is_covered, placed_behind};

use crate::coverage::first_bare;
use crate::range::PlanRange;
use std::marker::Model;

/// The most ranges that a plan has.
const MOST_RANGES: usize = 64;

/// The number of the first range that breaks a rule, from 0 on. It is 0 of no ranges, and 64 where
/// 64 ranges keep the rules and more follow.
#[derive(Clone, Copy, Debug, PartialEq, Eq)]
pub struct BadRange {
    pub item: u32,
}

/// From 1 to 64 ranges of whole pages in rising order, which don't overlap and end at 2^52 at most.
/// Contracts see the list of ranges.
#[derive(Drop)]
pub struct MemoryPlan {
    ranges: Vec<PlanRange>,
}

impl Model for MemoryPlan {
    ghost use Rattle.std.specs.Prelude.{List};
    ghost use Rattle.host_set.specs.declared.range.PlanRange.{PlanRange};

    ghost Value = { List PlanRange };

    ghost use Rattle.host_set.specs.Plans.{ArePlaced};

    ghost view = { λ p. p.ranges.items };

    ghost invariant = { λ p. ArePlaced p.ranges.items };
}

impl MemoryPlan {
    /// The plan of these ranges.
    pub fn from_ranges(ranges: Vec<PlanRange>) -> Result<MemoryPlan, BadRange>
        ensures plan { IfOk result (λ plan. plan ≡ ranges.items) }
        ensures accepted { IfOk result (λ _. bad_range ranges.items ≡ None) }
        ensures refused { IfErr result (λ bad. bad_range ranges.items ≡ Some bad.item) }
    {
        match bad_range(ranges.as_slice()) {
            None => Ok(MemoryPlan { ranges }),
            Some(item) => Err(BadRange { item }),
        }
    }

    /// Every byte from `gpa` on, `bytes` of them, lies in some range.
    pub fn covers(&self, gpa: u64, bytes: u64) -> bool
        ensures exact { IsTrue result ↔ Covers self.now gpa bytes }
        ensures test { result ≡ is_covered self.now gpa bytes }
    {
        bytes <= first_bare(self.ranges.as_slice(), gpa) - gpa
    }
}

/// The number of the first range that breaks a rule.
#[tactic(auto, unfolding(crate::specs::Plans::bad_range))]
fn bad_range(ranges: &[PlanRange]) -> Option<u32>
    ensures { result ≡ bad_range ranges.now }
{
    let placed = placed_count(first_ranges(ranges));
    if placed > 0 && placed == ranges.len() {
        return None;
    }
    Some(placed as u32)
}

/// The first 64 ranges.
fn first_ranges(ranges: &[PlanRange]) -> &[PlanRange]
    ensures front { result.now ≡ take 64 ranges.now }
    ensures few { length result.now ≤ 64 }
{
    if ranges.len() <= MOST_RANGES {
        return ranges;
    }
    &ranges[..MOST_RANGES]
}

/// How many ranges from the front on keep the rules.
fn placed_count(ranges: &[PlanRange]) -> usize
    ensures count { result ≡ placed_behind 0 ranges.now }
    ensures few { result ≤ length ranges.now }
{
    let mut end = 0;
    'steps: for i in 0..ranges.len() {
        if !ranges[i].is_placed(end) {
            return i;
        }
        end = ranges[i].end();
    }
    ranges.len()
}
