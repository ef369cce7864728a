//! What the rules of a plan come to, and what it covers: each law is a function that does nothing.
ghost use Rattle.std.specs.Prelude.{◌≡◌, ◌↔◌, ℕ, List, None, Some, true};
ghost use Rattle.host_set.specs.declared.range.PlanRange.{PlanRange};
ghost use Rattle.host_set.specs.Plans.{bad_range, is_covered, Covers};
ghost use Rattle.host_set.specs.PlanRules.{IsFirstBad, IsPlan};

/// No range is bad exactly where 1 to 64 ranges are each placed behind the one before; else the bad
/// one is the first that isn't.
pub fn first_bad_range()
    ensures accepted { (ranges : List PlanRange) → (bad_range ranges ≡ None) ↔ IsPlan ranges }
    ensures first { (ranges : List PlanRange) (number : ℕ) → bad_range ranges ≡ Some number
        → IsFirstBad ranges number }
{}

/// Bytes are covered exactly where each of them lies in some range.
pub fn covered_bytes()
    ensures { (ranges : List PlanRange) (gpa bytes : ℕ)
        → ((is_covered ranges gpa bytes ≡ true) ↔ Covers ranges gpa bytes) }
{}
