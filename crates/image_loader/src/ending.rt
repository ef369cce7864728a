//! The start and the end of a launch.
ghost use Rattle.std.specs.Prelude.{◌≡◌, ◌≢◌, ◌≤◌, List, [], None, Err, OnOk, OnErr, IsErrOf};
ghost use Rattle.igvm_headers.specs.FaultCounts.{Rose};
ghost use Rattle.launch_platform.specs.Machine.{HasDigest, LaunchRecord, launch_digest, started};
ghost use Rattle.image_loader.specs.Loading.{Concludes, IsWanted, answer_by, wanted_digest};

use crate::{ExecuteRefusal, LoadAnswer};
use directive_rules::{IdWanted, Misfit, Why};
use igvm_headers::{Digest, PlatformKind};
use launch_platform::{FinishRefusal, Launch, Phase, StartRefusal};

/// Begins a launch.
pub(crate) fn begin<L: Launch>(
    machine: &mut L,
    kind: PlatformKind,
    pages: u32,
    contexts: u32,
) -> Result<(), ExecuteRefusal>
    requires idle { (L.state machine.old).phase ≡ Phase.Idle }
    requires kind { HasDigest kind }
    requires pages { pages ≤ 524288 }
    requires contexts { contexts ≤ 65536 }
    ensures started { OnOk result (L.state machine.new ≡ started kind) }
    ensures empty { OnOk result (L.holds machine.new []) }
    ensures pages { OnOk result (pages ≤ (L.spares machine.new).pages) }
    ensures contexts { OnOk result (contexts ≤ (L.spares machine.new).contexts) }
    ensures idle { OnErr result (L.state machine.new ≡ L.state machine.old) }
    ensures cause { IsErrOf result ExecuteRefusal.Launch
        → Rose (L.faults machine.old) (L.faults machine.new) }
    ensures no_fault { result ≢ Err ExecuteRefusal.Launch
        → L.faults machine.new ≡ L.faults machine.old }
    ensures counted { L.faults machine.old ≤ L.faults machine.new }
{
    match machine.start(kind, pages, contexts) {
        Ok(()) => Ok(()),
        Err(StartRefusal::Memory) => Err(ExecuteRefusal::Memory),
        Err(StartRefusal::Failed) => Err(ExecuteRefusal::Launch),
    }
}

/// Ends a launch, where an ID block may want a digest.
pub(crate) fn end<L: Launch>(
    machine: &mut L,
    id: Option<IdWanted>,
) -> Result<LoadAnswer, ExecuteRefusal>
    requires loading { (L.state machine.old).phase ≡ Phase.Loading }
    requires wanted { (L.state machine.old).kind ≡ PlatformKind.Tdx → id ≡ None }
    ensures ends { (records : List LaunchRecord) → L.holds machine.old records
        → Concludes id (launch_digest (L.state machine.old).kind records)
        (L.state machine.old) (L.state machine.new) result }
    ensures held { (records : List LaunchRecord) → L.holds machine.old records
        → L.holds machine.new records }
    ensures cause { IsErrOf result ExecuteRefusal.Launch
        → Rose (L.faults machine.old) (L.faults machine.new) }
    ensures no_fault { result ≢ Err ExecuteRefusal.Launch
        → L.faults machine.new ≡ L.faults machine.old }
    ensures counted { L.faults machine.old ≤ L.faults machine.new }
{
    match machine.finish(wanted_of(&id)) {
        Ok(digest) => Ok(LoadAnswer::Loaded(digest)),
        Err(refusal) => refused(&id, &refusal),
    }
}

/// The digest that is wanted.
fn wanted_of(id: &Option<IdWanted>) -> Option<Digest>
    ensures { result ≡ wanted_digest id.now }
{
    match id {
        Some(id) => Some(id.wanted),
        None => None,
    }
}

/// What a refusal to end the launch is to a load.
fn refused(id: &Option<IdWanted>, refusal: &FinishRefusal) -> Result<LoadAnswer, ExecuteRefusal>
    requires { IsWanted id.now refusal.now }
    ensures { result ≡ answer_by id.now refusal.now }
{
    match refusal {
        FinishRefusal::BadDigest { found } => match id {
            Some(id) => Ok(LoadAnswer::DoesNotFit(Misfit {
                index: id.index,
                why: Why::BadDigest {
                    wanted: id.wanted,
                    found: *found,
                },
            })),
            None => unreachable!(),
        },
        FinishRefusal::Failed => Err(ExecuteRefusal::Launch),
    }
}
