//! The numbers of a run of pages.
ghost use Rattle.std.specs.Prelude.{◌≡◌, ◌*◌, ◌≤◌};
ghost use Rattle.igvm_headers.specs.Pages.{page_bytes};
ghost use Rattle.component_list.specs.Expansion.{pages_for, passes_end};

use crate::source::PageRun;
use igvm_headers::{LARGE_PAGE_SIZE, PAGE_SIZE};

/// The least number of pages that hold so many bytes.
pub(crate) fn pages_for(run: &PageRun, size: usize) -> u64
    requires { size ≤ 536870912 }
    ensures value { result ≡ pages_for run.now size }
    ensures within { result ≤ 131072 }
{
    if run.large {
        (size as u64 + (LARGE_PAGE_SIZE - 1)) / LARGE_PAGE_SIZE
    } else {
        (size as u64 + (PAGE_SIZE - 1)) / PAGE_SIZE
    }
}

/// So many pages from the run's address on pass the end of the address space.
pub(crate) fn passes_end(run: &PageRun, count: u64) -> bool
    requires { count ≤ 4294967296 }
    ensures { result ≡ passes_end run.now count }
{
    u128::from(run.gpa) + u128::from(place_of(run, count)) > 1 << 64
}

/// The bytes before page `k`.
pub(crate) fn place_of(run: &PageRun, k: u64) -> u64
    requires { k ≤ 4294967296 }
    ensures { result ≡ page_bytes run.now.large * k }
{
    if run.large {
        LARGE_PAGE_SIZE * k
    } else {
        PAGE_SIZE * k
    }
}
