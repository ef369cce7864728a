//! What is kept of the headers before one.
ghost use Rattle.std.specs.Prelude.{◌≤◌};

use crate::misfit::IdWanted;
use crate::page_ranges::PageRanges;
use std::collections::BTreeSet;

/// The most bytes that the areas of a load have together.
pub(crate) const MOST_AREA_BYTES: u64 = 67_108_864;

/// The most pages that a load places.
pub(crate) const MOST_PAGES: u64 = 524_288;

/// What the rows ask of the headers before one that count for the platform, which all fit.
#[derive(Drop)]
pub(crate) struct EarlierHeaders {
    /// One is a policy.
    pub(crate) policy: bool,
    /// How many bytes their areas have.
    pub(crate) area_bytes: u64,
    /// The areas that they put into the guest.
    pub(crate) gone: BTreeSet<u32>,
    /// The pages that they place.
    pub(crate) ranges: PageRanges,
    /// How many pages these are.
    pub(crate) pages: u64,
    /// The virtual processors that have a context.
    pub(crate) vps: BTreeSet<u16>,
    /// The ID block.
    pub(crate) id: Option<IdWanted>,
    ghost few_bytes: { area_bytes ≤ 67108864 },
    ghost few_pages: { pages ≤ 524288 },
}
