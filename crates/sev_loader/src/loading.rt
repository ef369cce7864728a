//! A whole load of a SEV or SEV-ES guest.
ghost use Rattle.std.specs.Prelude.{◌≡◌, ◌≢◌, ◌≤◌, None, Err, IfOk, IfErr, IsErrOf};
ghost use Rattle.igvm_headers.specs.FaultCounts.{Rose};
ghost use Rattle.directive_rules.specs.FirstMisfit.{first_misfit};
ghost use Rattle.sev_chain.specs.SevBytes.{HasSevDigest};
ghost use Rattle.sev_loader.specs.SevPlaced.{sev_load_of};
ghost use Rattle.sev_loader.specs.SevLoading.{SevEndsBy, IsSevRefusal};

use crate::laws::commands_agree;
use crate::sev_carrier::SevCarrier;
use crate::{SevAnswer, SevRefusal};
use directive_rules::CheckRefusal;
use host_set::{HostSet, MemoryPlan};
use igvm_headers::{Options, PlatformKind};
use igvm_image::ImageView;
use image_loader::{Judged, carry, judge};
use launch_platform::{Phase, StartRefusal};
use platform_masks::Platform;
use sev_platform::SevLaunch;
use std::alloc::Global;

/// Loads an image for one of its SEV or SEV-ES platforms into an idle machine, where all its headers fit the
/// memory plan and the host's values. Memory is taken before the launch begins and by its start, and none
/// after it.
pub fn sev_load<M: SevLaunch>(
    alloc: Global,
    view: &ImageView<'_>,
    platform: Platform,
    plan: &MemoryPlan,
    host: &HostSet,
    machine: &mut M,
) -> Result<SevAnswer, SevRefusal>
    requires { (M.state machine.old).phase ≡ Phase.Idle }
    ensures ends { IfOk result (SevEndsBy M.SevLaunch (sev_load_of view.now platform host.now)
        (first_misfit view.now platform plan.now host.now) machine.old machine.new) }
    ensures refused { IfErr result (IsSevRefusal M.SevLaunch
        (sev_load_of view.now platform host.now)
        (first_misfit view.now platform plan.now host.now) machine.old machine.new) }
    ensures cause { IsErrOf result SevRefusal.Launch
        → Rose (M.faults machine.old) (M.faults machine.new) }
    ensures no_fault { result ≢ Err SevRefusal.Launch
        → M.faults machine.new ≡ M.faults machine.old }
    ensures counted { M.faults machine.old ≤ M.faults machine.new }
{
    let kind = platform.kind;
    match kind {
        PlatformKind::Sev | PlatformKind::SevEs => {}
        _ => return Err(SevRefusal::NoDigest { kind }),
    }
    let judged = match judge(alloc, view, platform, Options::plain(), plan, host) {
        Ok(judged) => judged,
        Err(CheckRefusal::Misfit(misfit)) => return Ok(SevAnswer::DoesNotFit(misfit)),
        Err(CheckRefusal::Memory) => return Err(SevRefusal::Memory),
    };
    launch(judged, kind, machine)
}

/// Launches an image that fits.
fn launch<M: SevLaunch>(
    judged: Judged<'_>,
    kind: PlatformKind,
    machine: &mut M,
) -> Result<SevAnswer, SevRefusal>
    requires idle { (M.state machine.old).phase ≡ Phase.Idle }
    requires kind { kind ≡ judged.platform.kind }
    requires sev { HasSevDigest judged.platform.kind }
    ensures ends { IfOk result (SevEndsBy M.SevLaunch judged.entry None machine.old machine.new) }
    ensures refused { IfErr result
        (IsSevRefusal M.SevLaunch judged.entry None machine.old machine.new) }
    ensures cause { IsErrOf result SevRefusal.Launch
        → Rose (M.faults machine.old) (M.faults machine.new) }
    ensures no_fault { result ≢ Err SevRefusal.Launch
        → M.faults machine.new ≡ M.faults machine.old }
    ensures counted { M.faults machine.old ≤ M.faults machine.new }
{
    // Laws: nothing runs.
    commands_agree();
    image_loader::laws::commands_place();
    match machine.start(kind, judged.pages(), judged.contexts()) {
        Ok(()) => {}
        Err(StartRefusal::Memory) => return Err(SevRefusal::Memory),
        Err(StartRefusal::Failed) => return Err(SevRefusal::Launch),
    }
    match carry::<M, SevCarrier>(judged, machine) {
        Ok(()) => {}
        Err(_) => return Err(SevRefusal::Launch),
    }
    match machine.finish() {
        Ok(digest) => Ok(SevAnswer::Loaded(digest)),
        Err(_) => Err(SevRefusal::Launch),
    }
}
