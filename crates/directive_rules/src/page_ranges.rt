//! The pages that are taken, as ranges of their numbers.
ghost use Rattle.std.specs.Prelude.{◌≡◌, ◌<◌, ◌||◌, ℕ, Bool, false, OnOk};
ghost use Rattle.std.specs.List.{list_any};
ghost use Rattle.directive_rules.specs.PageRanges.{meets};

use igvm_headers::Memory;
use std::alloc::Global;
use std::collections::BTreeMap;
use std::marker::Model;

/// Ranges of page numbers of which no two have a number in common, by their starts. Contracts see the
/// list of pairs of a start and the number after the last.
#[derive(Drop)]
pub(crate) struct PageRanges {
    ranges: BTreeMap<u64, u64>,
}

impl Model for PageRanges {
    ghost use Rattle.std.specs.Prelude.{List, ℕ};

    ghost Value = { List (ℕ × ℕ) };

    ghost use Rattle.directive_rules.specs.PageRanges.{AreApart};

    ghost view = { λ r. r.ranges.entries };

    ghost invariant = { λ r. AreApart r.ranges };
}

impl PageRanges {
    /// No range. It takes no memory.
    pub(crate) fn new(alloc: Global) -> PageRanges
        ensures { (test : ℕ × ℕ → Bool) → list_any test result ≡ false }
    {
        PageRanges {
            ranges: BTreeMap::new(alloc),
        }
    }

    /// Some number from `start` on and before `end` is in a range.
    pub(crate) fn meets(&self, start: u64, end: u64) -> bool
        requires { start < end }
        ensures { result ≡ list_any (meets start end) self.now }
    {
        match self.ranges.range(..end).next_back() {
            Some((_, last)) => start < *last,
            None => false,
        }
    }

    /// Takes in the numbers from `start` on and before `end`, which are in no range yet.
    pub(crate) fn add(&mut self, start: u64, end: u64) -> Result<(), Memory>
        requires some { start < end }
        requires apart { list_any (meets start end) self.old ≡ false }
        ensures { OnOk result ((test : ℕ × ℕ → Bool)
            → list_any test self.new ≡ (list_any test self.old || test (start, end))) }
    {
        self.ranges.insert(start, end)?;
        Ok(())
    }
}
