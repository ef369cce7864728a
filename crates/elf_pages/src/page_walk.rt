//! The pages of sorted segments, by a walk from segment to segment.
ghost use Rattle.std.specs.Prelude.{◌≡◌, ◌<◌, ◌≤◌, ◌*◌, ℕ, length, slice_index, IfOk, IfErr, OnOk, None, Some};
ghost use Rattle.elf_pages.specs.Faults.{pages_fault};
ghost use Rattle.elf_pages.specs.Limits.{address_limit, page_limit};
ghost use Rattle.elf_pages.specs.Pages.{is_filled, pages_in};
ghost use Rattle.elf_pages.specs.SegmentTables.{AreSorted};

use crate::fault::ElfWhat;
use crate::segment::Segment;

/// The most pages that segments may take up.
const PAGE_LIMIT: u64 = 131_072;

/// How many pages the segments take up, or the rule on them that fails.
#[tactic(auto, unfolding(crate::specs::Faults::pages_fault))]
pub(crate) fn count_pages(segments: &[Segment]) -> Result<u32, ElfWhat>
    requires { (size : ℕ) × AreSorted size segments.now }
    ensures count { IfOk result (λ n. n ≡ length (pages_in segments.now)) }
    ensures few { IfOk result (λ n. n ≤ page_limit) }
    ensures accepted { OnOk result (pages_fault segments.now ≡ None) }
    ensures fault { IfErr result (λ what. pages_fault segments.now ≡ Some what) }
{
    if segments.is_empty() {
        return Err(ElfWhat::Empty);
    }
    let count = page_count(segments);
    if count > PAGE_LIMIT {
        return Err(ElfWhat::TooLarge);
    }
    Ok(count as u32)
}

/// How many pages hold a byte of some segment.
fn page_count(segments: &[Segment]) -> u64
    requires { (size : ℕ) × AreSorted size segments.now }
    ensures { result ≡ length (pages_in segments.now) }
{
    // Pages below `next` are counted.
    let mut next = 0;
    let mut counted = 0;
    'segments: for segment in segments {
        let from = segment.first_page_from(next);
        let end = segment.end_page_from(next);
        counted += end - from;
        next = end;
    }
    counted
}

/// The number of the page that is the `k`th of them, from 0 on.
pub(crate) fn page_number(segments: &[Segment], k: u64) -> u64
    requires sorted { (size : ℕ) × AreSorted size segments.now }
    requires within { k < length (pages_in segments.now) }
    ensures page { 4096 * result ≡ slice_index (pages_in segments.now) k }
    ensures low { result < 1099511627776 }
{
    let mut next = 0;
    let mut counted = 0;
    'segments: for segment in segments {
        let from = segment.first_page_from(next);
        let end = segment.end_page_from(next);
        if k - counted < end - from {
            return from + (k - counted);
        }
        counted += end - from;
        next = end;
    }
    unreachable!()
}

/// The page at an address holds a byte that some segment has in the file.
pub(crate) fn is_filled(segments: &[Segment], page: u64) -> bool
    requires sorted { (size : ℕ) × AreSorted size segments.now }
    requires low { page < address_limit }
    ensures { result ≡ is_filled segments.now page }
{
    segments.iter().any(|segment| segment.fills(page))
}
