//! A guest's memory as numbered slots, each of which holds one page of 4,096 bytes.
ghost use Rattle.std.specs.Prelude.{◌≡◌, ℕ, ◌<◌, ◌≤◌, List, Some, length, replicate, slice_get, slice_set, IfOk};
ghost use Rattle.std.specs.List.{All};

use crate::block::{Lease, RawBlock};
use igvm_headers::{Memory, PageView};
use std::alloc::Global;
use std::marker::Model;

/// The bytes of a page.
const PAGE: usize = 4096;

/// Page slots in one block of memory, numbered from 0. Contracts see a list of pages of 4,096 bytes each.
/// Dropping the region frees the block.
pub struct GuestRegion {
    alloc: Global,
    lease: Lease<Global>,
    block: RawBlock,
    slots: u32,
}

impl Model for GuestRegion {
    ghost use Rattle.std.specs.Prelude.{◌≡◌, ℕ, ◌*◌, ◌≤◌, List, length};
    ghost use Rattle.guest_region.specs.PagesOf.{pages_of};

    ghost Value = { List (List ℕ) };

    ghost view = { λ r. pages_of r.slots r.block.bytes };

    ghost use Rattle.guest_region.specs.RegionInvariant.{IsWhole};

    ghost invariant = { λ r. IsWhole r.alloc r.lease r.block r.slots };
}

impl GuestRegion {
    /// A region of `slots` slots, whose pages are all zero. It takes its memory in one piece, and no
    /// other call has an answer for want of memory.
    pub fn new(alloc: Global, slots: u32) -> Result<GuestRegion, Memory>
        requires { slots ≤ 589824 }
        ensures { IfOk result (λ region. region ≡ replicate slots (replicate 4096 0)) }
    {
        match RawBlock::zeroed(&alloc, slots as usize * PAGE) {
            Ok((block, lease)) => Ok(GuestRegion {
                alloc,
                lease,
                block,
                slots,
            }),
            Err(_) => Err(Memory),
        }
    }

    /// The number of slots.
    pub fn slots(&self) -> u32
        ensures count { result ≡ length self.now }
        ensures pages { All (λ page. length page ≡ 4096) self.now }
    {
        self.slots
    }

    /// Makes that slot the page; all others stay.
    pub fn write(&mut self, slot: u32, page: PageView)
        requires { slot < length self.old }
        ensures { self.new ≡ slice_set self.old slot page.entry }
    {
        page.fill(self.block.part_mut(slot as usize * PAGE, PAGE));
    }

    /// Lends the 4,096 bytes of that slot.
    pub fn page(&self, slot: u32) -> &[u8]
        requires { slot < length self.now }
        ensures page { slice_get self.now slot ≡ Some result.now }
        ensures bytes { length result.now ≡ 4096 }
    {
        self.block.part(slot as usize * PAGE, PAGE)
    }

    /// Copies the bytes of that slot into `out`.
    pub fn copy_out(&self, slot: u32, out: &mut [u8])
        requires within { slot < length self.now }
        requires bytes { length out.old ≡ 4096 }
        ensures { slice_get self.now slot ≡ Some out.new }
    {
        self.block.copy_out(slot as usize * PAGE, out);
    }
}

impl Drop for GuestRegion {
    fn drop(self) {
        let GuestRegion {
            alloc,
            lease,
            block,
            slots,
        } = self;
        block.free(&alloc, slots as usize * PAGE, lease);
    }
}

#[cfg(test)]
mod tests;
