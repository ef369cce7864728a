//! How far ranges go on from an address.
ghost use Rattle.std.specs.Prelude.{◌≡◌, ◌≤◌, ◌-◌, ◌<◌, ℕ, false, true};
ghost use Rattle.host_set.specs.Plans.{ArePlaced, is_in_some};

use crate::range::PlanRange;

/// The first address from `gpa` on that lies in no range.
pub(crate) fn first_bare(ranges: &[PlanRange], gpa: u64) -> u64
    requires { ArePlaced ranges.now }
    ensures behind { gpa ≤ result }
    ensures covered { (address : ℕ) → gpa ≤ address → address < result
        → is_in_some ranges.now address ≡ true }
    ensures bare { is_in_some ranges.now result ≡ false }
{
    let mut reached = gpa;
    'steps: for range in ranges {
        reached = range.past(reached);
    }
    reached
}
