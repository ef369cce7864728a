//! Launch machines as a load sees them.
ghost use Rattle.launch_platform.specs.Machine.{HasDigest};

use crate::carrier::Carrier;
use igvm_headers::{Failed, PageView, Tag};
use launch_platform::Launch;

/// The commands of a load as those of a `Launch`.
pub(crate) struct LaunchCarrier;

impl<L: Launch> Carrier<L> for LaunchCarrier {
    ghost kinds = { HasDigest };

    ghost state = { λ machine. L.state machine };

    ghost spares = { λ machine. L.spares machine };

    ghost holds = { λ machine. L.holds machine };

    ghost faults = { λ machine. L.faults machine };

    fn place(machine: &mut L, gpa: u64, page: PageView<'_>) -> Result<u32, Failed> {
        machine.place(gpa, page)
    }

    fn add(machine: &mut L, slot: u32, tag: Tag) -> Result<(), Failed> {
        machine.add(slot, tag)
    }

    fn extend(machine: &mut L, slot: u32) -> Result<(), Failed> {
        machine.extend(slot)
    }

    fn context(machine: &mut L, vp: u16, gpa: u64, page: PageView<'_>) -> Result<(), Failed> {
        machine.context(vp, gpa, page)
    }
}
