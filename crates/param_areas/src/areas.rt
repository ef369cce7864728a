//! The parameter areas of one load (`igvm_defs`, IGVM_VHS_PARAMETER_AREA and IGVM_VHS_PARAMETER).
ghost use Rattle.std.specs.Prelude.{◌≡◌, ◌<◌, ◌≤◌, ◌+◌, ◌*◌, ℕ, List, [], ◌∷◌, ◌++◌, length, slice_index, IfOk};
ghost use Rattle.igvm_headers.specs.Numbers.{slice};
ghost use Rattle.param_areas.specs.AreaBytes.{IsNew, IsOpen, bytes_of, size_of_all, with_area, with_change, with_value, with_taken};
ghost use Rattle.param_areas.specs.AreaHistory.{Told, Shows, content_bytes, declared, told_change, told_value, told_taken, told_byte};

use crate::area_buffer::{write_pages, write_value};
use crate::slot::{Slot, mark_taken, slot_of};
use igvm_headers::Memory;
use igvm_image::DataView;
use std::alloc::Global;
use std::marker::Model;

/// At most 256 parameter areas in one buffer. Each has the bytes of its declared content, and over
/// them the values that were set since; it is open until it is taken.
#[derive(Drop)]
pub struct Areas {
    bytes: Vec<u8>,
    slots: [Slot; 256],
    count: usize,
    used: usize,
}

impl Model for Areas {
    ghost use Rattle.std.specs.Prelude.{take, vec_len};
    ghost use Rattle.param_areas.specs.AreaBytes.{Space};

    ghost Value = { Space };

    ghost use Rattle.param_areas.specs.Slots.{space_in, AreInBuffer};

    ghost view = { λ s. space_in (vec_len s.bytes) s.bytes.items (take s.count s.slots) };

    ghost invariant = { λ s. AreInBuffer (vec_len s.bytes) s.count s.used (take s.count s.slots) };
}

impl Areas {
    /// Room for areas of `total` bytes together. No later call takes memory.
    pub fn reserve(alloc: Global, total: u64) -> Result<Areas, Memory>
        requires { total ≤ 67108864 }
        ensures { IfOk result (λ areas. areas ≡ record { total = total; areas = [] }) }
    {
        let bytes = vec![in alloc; 0; total as usize].map_err(|_| Memory)?;
        let slot = Slot {
            area: 0,
            start: 0,
            size: 0,
            taken: false,
        };
        Ok(Areas {
            bytes,
            slots: [slot; 256],
            count: 0,
            used: 0,
        })
    }

    /// An area of `size` bytes, with the pages of `content`.
    pub fn declare(&mut self, area: u32, size: u64, content: DataView)
        requires new { IsNew self.old.areas area }
        requires few { length self.old.areas < 256 }
        requires size { size ≡ 4096 * content.pages }
        requires fits { size_of_all self.old.areas + size ≤ self.old.total }
        ensures added { self.new ≡ with_area self.old area (content_bytes content.entry) }
        ensures told { (told : List Told) → Shows self.old told
            → Shows self.new (told ++ declared area content.entry ∷ []) }
    {
        write_pages(self.bytes.as_mut_slice(), self.used, &content);
        self.slots[self.count] = Slot {
            area,
            start: self.used,
            size: size as usize,
            taken: false,
        };
        self.count += 1;
        self.used += size as usize;
    }

    /// A value over the bytes of an area from `offset` on.
    pub fn set(&mut self, area: u32, offset: u32, value: &[u8])
        requires open { IsOpen self.old.areas area }
        requires fits { offset + length value.now ≤ length (bytes_of self.old.areas area) }
        ensures changed { self.new ≡ with_change (with_value offset value.now) area self.old }
        ensures told { (told : List Told) → Shows self.old told
            → Shows self.new (told_change (told_value offset value.now) area told) }
    {
        let slot = slot_of(&self.slots[..self.count], area);
        write_value(
            self.bytes.as_mut_slice(),
            slot.start + offset as usize,
            value,
        );
    }

    /// The 4,096 bytes of page `k` of an area.
    pub fn page(&self, area: u32, k: u64) -> &[u8]
        requires open { IsOpen self.now.areas area }
        requires within { 4096 * k + 4096 ≤ length (bytes_of self.now.areas area) }
        ensures size { length result.now ≡ 4096 }
        ensures bytes { result.now ≡ slice (bytes_of self.now.areas area) (4096 * k) 4096 }
        ensures told { (told : List Told) → Shows self.now told → (j : ℕ) → j < 4096
            → slice_index result.now j ≡ told_byte told area (4096 * k + j) }
    {
        let slot = slot_of(&self.slots[..self.count], area);
        let place = slot.start + 4096 * k as usize;
        &self.bytes.as_slice()[place..place + 4096]
    }

    /// The area is used up: neither set nor lent from here on.
    pub fn take(&mut self, area: u32)
        requires { IsOpen self.old.areas area }
        ensures taken { self.new ≡ with_change with_taken area self.old }
        ensures told { (told : List Told) → Shows self.old told
            → Shows self.new (told_change told_taken area told) }
    {
        mark_taken(&mut self.slots[..self.count], area);
    }
}
