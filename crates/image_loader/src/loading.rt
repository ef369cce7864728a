//! A whole load.
ghost use Rattle.std.specs.Prelude.{◌≡◌, ◌≢◌, ◌≤◌, Err, OnOk, IfOk, IsErrOf};
ghost use Rattle.igvm_headers.specs.FaultCounts.{Rose};
ghost use Rattle.image_loader.specs.Loading.{HoldsImage, EndsBy, IsStopped};

use crate::ending::{begin, end};
use crate::judged::carry;
use crate::launch_carrier::LaunchCarrier;
use crate::laws::{commands_agree, commands_place, counts_suffice};
use crate::{ExecuteRefusal, LoadAnswer, Prepared};
use launch_platform::{Launch, Phase};

/// Loads an image that fits into an idle machine. Its memory is taken by the start of the launch, and none
/// after it.
pub fn execute<L: Launch>(
    prepared: Prepared<'_>,
    machine: &mut L,
) -> Result<LoadAnswer, ExecuteRefusal>
    requires { (L.state machine.old).phase ≡ Phase.Idle }
    ensures holds { OnOk result (HoldsImage prepared.entry (L.state machine.new)) }
    ensures ends { IfOk result (EndsBy prepared.entry (L.state machine.new)) }
    ensures stopped { IsErrOf result ExecuteRefusal.Launch
        → IsStopped L.Launch prepared.entry machine.old machine.new }
    ensures idle { IsErrOf result ExecuteRefusal.Memory
        → L.state machine.new ≡ L.state machine.old }
    ensures cause { IsErrOf result ExecuteRefusal.Launch
        → Rose (L.faults machine.old) (L.faults machine.new) }
    ensures no_fault { result ≢ Err ExecuteRefusal.Launch
        → L.faults machine.new ≡ L.faults machine.old }
    ensures counted { L.faults machine.old ≤ L.faults machine.new }
{
    // Laws: nothing runs.
    commands_agree();
    commands_place();
    counts_suffice();
    let judged = prepared.judged;
    let id = judged.wanted();
    match begin(
        machine,
        judged.platform().kind,
        judged.pages(),
        judged.contexts(),
    ) {
        Ok(()) => {}
        Err(refusal) => return Err(refusal),
    }
    match carry::<L, LaunchCarrier>(judged, machine) {
        Ok(()) => end(machine, id),
        Err(_) => Err(ExecuteRefusal::Launch),
    }
}
