//! SEV machines as a load sees them.
ghost use Rattle.std.specs.Prelude.{◌≡◌};
ghost use Rattle.sev_chain.specs.SevBytes.{HasSevDigest};
ghost use Rattle.sev_loader.specs.SevAsLaunch.{as_state, joined};

use igvm_headers::{Failed, PageView, Tag};
use image_loader::Carrier;
use launch_platform::records_join;
use sev_platform::SevLaunch;

/// The commands of a load as those of a `SevLaunch`: a page that is added is updated, and there is nothing
/// to extend.
pub(crate) struct SevCarrier;

impl<M: SevLaunch> Carrier<M> for SevCarrier {
    ghost kinds = { HasSevDigest };

    ghost state = { λ machine. as_state (M.state machine) };

    ghost spares = { λ machine. M.spares machine };

    ghost holds = { λ machine records. M.holds machine (joined records) };

    ghost faults = { λ machine. M.faults machine };

    fn place(machine: &mut M, gpa: u64, page: PageView<'_>) -> Result<u32, Failed> {
        machine.place(gpa, page)
    }

    fn add(machine: &mut M, slot: u32, tag: Tag) -> Result<(), Failed> {
        // A law: nothing runs.
        records_join();
        machine.update(slot)
    }

    /// It does nothing, and is never asked for: TDX alone has pages to extend.
    fn extend(machine: &mut M, slot: u32) -> Result<(), Failed>
        ensures { machine.new ≡ machine.old }
    {
        Ok(())
    }

    fn context(machine: &mut M, vp: u16, gpa: u64, page: PageView<'_>) -> Result<(), Failed> {
        // A law: nothing runs.
        records_join();
        machine.context(vp, gpa, page)
    }
}
