//! Where the parameter areas stand in the buffer (`igvm_defs`, IGVM_VHS_PARAMETER_AREA).
ghost use Rattle.std.specs.Prelude.{◌≡◌, ◌==◌, find, IsSome};
ghost use Rattle.param_areas.specs.AreaBytes.{change_first};
ghost use Rattle.param_areas.specs.Slots.{marked};

/// An area's index, the place of its first byte in the buffer, its size in bytes, and whether it is
/// taken.
#[derive(Clone, Copy)]
pub(crate) struct Slot {
    pub(crate) area: u32,
    pub(crate) start: usize,
    pub(crate) size: usize,
    pub(crate) taken: bool,
}

/// The slot of an area that is declared.
pub(crate) fn slot_of(slots: &[Slot], area: u32) -> Slot
    requires { IsSome (find (λ s. s.area == area) slots.now) }
    ensures { find (λ s. s.area == area) slots.now ≡ Some result }
{
    'slots: for i in 0..slots.len() {
        if slots[i].area == area {
            return slots[i];
        }
    }
    unreachable!()
}

/// Marks an area as taken.
pub(crate) fn mark_taken(slots: &mut [Slot], area: u32)
    ensures { slots.new ≡ change_first (λ s. s.area == area) marked slots.old }
{
    'slots: for i in 0..slots.len() {
        if slots[i].area == area {
            slots[i].taken = true;
            return;
        }
    }
}
