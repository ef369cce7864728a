//! One header more among those that are kept.
ghost use Rattle.std.specs.Prelude.{◌≡◌, ◌<◌, ◌+◌, ◌^◌, ◌++◌, nat_lt, ◌&&◌, ◌||◌, ℕ, Bool, List, [], false, true, OnOk, if◌then◌else◌, is_some};
ghost use Rattle.std.specs.Ordering.{nat_cmp};
ghost use Rattle.std.specs.Option.{option_to_list};
ghost use Rattle.std.specs.List.{list_any};
ghost use Rattle.std.specs.BTreeSet.{contains, btree_set_len};
ghost use Rattle.igvm_image.specs.Areas.{areas_of};
ghost use Rattle.igvm_image.specs.declared.area_table.AreaEntry as areas;
ghost use Rattle.igvm_image.specs.Headers.{headers_of};
ghost use Rattle.igvm_image.specs.PlacedView.{placed_view};
ghost use Rattle.igvm_image.specs.RulesInWords.{declared_bytes};
ghost use Rattle.directive_rules.specs.DirectiveFacts.{is_policy, is_context, is_context_of, is_id_block, inserts, wanted_by};
ghost use Rattle.directive_rules.specs.EarlierHeaders.{Summarizes, HasRoom, TakesIn, context_in, shares_in};

use crate::earlier_headers::EarlierHeaders;
use crate::misfit::IdWanted;
use crate::page_ranges::PageRanges;
use igvm_headers::{Header, Memory, PAGE_SIZE};
use igvm_image::{ImageView, Placed};
use std::alloc::Global;
use std::collections::BTreeSet;

impl EarlierHeaders {
    /// Before the first header. It takes no memory.
    pub(crate) fn new(alloc: Global) -> EarlierHeaders
        ensures { (areas : List areas.AreaEntry) → Summarizes result areas [] }
    {
        EarlierHeaders {
            policy: false,
            area_bytes: 0,
            gone: BTreeSet::new(alloc),
            ranges: PageRanges::new(alloc),
            pages: 0,
            vps: BTreeSet::new(alloc),
            id: None,
        }
    }

    /// Takes in one header more. After want of memory these are to be used no more.
    pub(crate) fn take(&mut self, view: &ImageView<'_>, placed: &Placed<'_>) -> Result<(), Memory>
        requires { HasRoom self.old (areas_of (headers_of view.now)) placed.now.header }
        ensures { OnOk result
            (TakesIn self.old self.new (areas_of (headers_of view.now)) (placed_view placed.now)) }
    {
        let header = &placed.header;
        let count = view.placed_pages(header);
        take_area(&mut self.gone, header)?;
        take_context(&mut self.vps, header)?;
        take_pages(&mut self.ranges, header.gpa() / PAGE_SIZE, count)?;
        self.policy = self.policy || is_policy(header);
        self.area_bytes += declared_bytes(header);
        self.pages += count;
        self.id = or_wanted(self.id, placed.index, header);
        Ok(())
    }
}

fn is_policy(header: &Header) -> bool
    ensures { result ≡ is_policy header.now }
{
    matches!(header, Header::Policy { .. })
}

/// The size in bytes of the area that a header declares, and 0 for other headers.
fn declared_bytes(header: &Header) -> u64
    ensures { result ≡ declared_bytes header.now }
{
    match *header {
        Header::Area { bytes, .. } => bytes,
        _ => 0,
    }
}

/// The ID block so far, or the header's.
fn or_wanted(id: Option<IdWanted>, index: u32, header: &Header) -> Option<IdWanted>
    requires { is_id_block header.now && is_some id ≡ false }
    ensures ids { option_to_list result
        ≡ option_to_list id ++ option_to_list (wanted_by index header.now) }
    ensures there { is_some result ≡ (is_some id || is_id_block header.now) }
{
    match header {
        Header::IdBlock { ld, .. } => Some(IdWanted { index, wanted: *ld }),
        _ => id,
    }
}

/// Takes in the area that a header puts into the guest.
fn take_area(gone: &mut BTreeSet<u32>, header: &Header) -> Result<(), Memory>
    ensures { OnOk result ((area : ℕ) → contains nat_cmp gone.new area
        ≡ (contains nat_cmp gone.old area || inserts area header.now)) }
{
    if let Header::Insert { area, .. } = header {
        gone.insert(*area)?;
    }
    Ok(())
}

/// Takes in the virtual processor that a header has the context of.
fn take_context(vps: &mut BTreeSet<u16>, header: &Header) -> Result<(), Memory>
    requires { context_in vps.old header.now ≡ false }
    ensures added { OnOk result ((vp : ℕ) → contains nat_cmp vps.new vp
        ≡ (contains nat_cmp vps.old vp || is_context_of vp header.now)) }
    ensures count { OnOk result (btree_set_len vps.new
        ≡ btree_set_len vps.old + (if is_context header.now then 1 else 0)) }
    ensures small { (vp : ℕ) → is_context_of vp header.now ≡ true → vp < 65536 }
{
    if let Header::Context { vp, .. } = header {
        vps.insert(*vp)?;
    }
    Ok(())
}

/// Takes in `count` pages from the number `first` on.
fn take_pages(ranges: &mut PageRanges, first: u64, count: u64) -> Result<(), Memory>
    requires apart { shares_in ranges.old first count ≡ false }
    requires fits { first + count < 2 ^ 64 }
    ensures { OnOk result ((test : ℕ × ℕ → Bool) → list_any test ranges.new
        ≡ (list_any test ranges.old || (nat_lt 0 count && test (first, first + count)))) }
{
    if count > 0 {
        ranges.add(first, first + count)?;
    }
    Ok(())
}
