//! A launch machine in memory (SEV-SNP Firmware ABI, SNP_LAUNCH_START, SNP_LAUNCH_UPDATE and SNP_LAUNCH_FINISH; Intel
//! TDX Module Base Architecture Specification, TDH.MEM.PAGE.ADD, TDH.MR.EXTEND and TDH.MR.FINALIZE).
ghost use Rattle.std.specs.Prelude.{◌≡◌, ◌≢◌, ◌<◌, ◌≤◌, ◌%◌, List, [], Ok, Err, None, false, length, OnOk, OnErr, IsOk, IsOkUnless};
ghost use Rattle.launch_platform.specs.Machine.{LaunchRecord, HasDigest, launch_digest, started, is_placed, has_context};
ghost use Rattle.launch_platform.specs.Commands.{Place, Add, Extend, AddContext, CanAdd, CanExtend, Ends, Answers};

use crate::chain::Chain;
use crate::ended_launch::EndedLaunch;
use crate::guest_pages::GuestPages;
use crate::running_launch::RunningLaunch;
use crate::{ContextView, EntryView, FinishRefusal, Launch, Phase, StartRefusal};
use igvm_headers::{Digest, Failed, PageView, PlatformKind, Tag};
use std::alloc::Global;
use std::mem;

/// How far a launch has come, with what there is then.
#[derive(Drop)]
pub(crate) enum Stage {
    Idle,
    Running(RunningLaunch),
    Ended(EndedLaunch),
}

/// A launch machine in memory. All its pages lie in one block, and an entry's page is hashed there,
/// once. It never answers `Failed`.
#[derive(Drop)]
pub struct MemLaunch {
    alloc: Global,
    stage: Stage,
}

impl MemLaunch {
    ghost use Rattle.launch_platform.specs.MemMachine.{mem_state};

    /// A machine that is idle. `start` takes its memory from `alloc`.
    pub fn new(alloc: Global) -> MemLaunch
        ensures { (mem_state result).phase ≡ Phase.Idle }
    {
        MemLaunch {
            alloc,
            stage: Stage::Idle,
        }
    }
}

impl Launch for MemLaunch {
    ghost use Rattle.launch_platform.specs.MemMachine.{mem_state, mem_spares, MemHolds, IsMemStep};

    ghost state = { mem_state };

    ghost spares = { mem_spares };

    ghost holds = { MemHolds };

    ghost faults = { λ m. 0 };

    /// Takes one block for all pages, and one each for the rows of entries and of contexts.
    fn start(&mut self, kind: PlatformKind, pages: u32, contexts: u32) -> Result<(), StartRefusal>
        requires idle { (mem_state self.old).phase ≡ Phase.Idle }
        requires kind { HasDigest kind }
        requires pages { pages ≤ 524288 }
        requires contexts { contexts ≤ 65536 }
        ensures sure { IsOkUnless result StartRefusal.Memory }
        ensures started { OnOk result (mem_state self.new ≡ started kind) }
        ensures empty { OnOk result (MemHolds self.new []) }
        ensures pages { OnOk result ((mem_spares self.new).pages ≡ pages) }
        ensures contexts { OnOk result ((mem_spares self.new).contexts ≡ contexts) }
        ensures kept { OnErr result (self.new ≡ self.old) }
    {
        let pages = GuestPages::new(self.alloc, pages, contexts).map_err(|_| StartRefusal::Memory)?;
        let chain = Chain::new(kind);
        self.stage = Stage::Running(RunningLaunch { pages, chain });
        Ok(())
    }

    fn place(&mut self, gpa: u64, page: PageView<'_>) -> Result<u32, Failed>
        requires loading { (mem_state self.old).phase ≡ Phase.Loading }
        requires spare { 0 < (mem_spares self.old).pages }
        requires aligned { gpa % 4096 ≡ 0 }
        requires new { is_placed gpa (mem_state self.old).entries ≡ false }
        ensures sure { result ≡ Ok (length (mem_state self.old).entries) }
        ensures done { IsMemStep (Place gpa page.entry) self.old self.new }
    {
        let Stage::Running(launch) = &mut self.stage else {
            unreachable!()
        };
        Ok(launch.place(gpa, page))
    }

    fn add(&mut self, slot: u32, tag: Tag) -> Result<(), Failed>
        requires loading { (mem_state self.old).phase ≡ Phase.Loading }
        requires entry { CanAdd slot tag (mem_state self.old) }
        ensures sure { IsOk result }
        ensures done { IsMemStep (Add slot tag) self.old self.new }
    {
        let Stage::Running(launch) = &mut self.stage else {
            unreachable!()
        };
        launch.add(slot, tag);
        Ok(())
    }

    fn extend(&mut self, slot: u32) -> Result<(), Failed>
        requires loading { (mem_state self.old).phase ≡ Phase.Loading }
        requires kind { (mem_state self.old).kind ≡ PlatformKind.Tdx }
        requires entry { CanExtend slot (mem_state self.old) }
        ensures sure { IsOk result }
        ensures done { IsMemStep (Extend slot) self.old self.new }
    {
        let Stage::Running(launch) = &mut self.stage else {
            unreachable!()
        };
        launch.extend(slot);
        Ok(())
    }

    fn context(&mut self, vp: u16, gpa: u64, page: PageView<'_>) -> Result<(), Failed>
        requires loading { (mem_state self.old).phase ≡ Phase.Loading }
        requires kind { (mem_state self.old).kind ≡ PlatformKind.SevSnp }
        requires spare { 0 < (mem_spares self.old).contexts }
        requires new { has_context vp (mem_state self.old).contexts ≡ false }
        ensures sure { IsOk result }
        ensures done { IsMemStep (AddContext vp gpa page.entry) self.old self.new }
    {
        let Stage::Running(launch) = &mut self.stage else {
            unreachable!()
        };
        launch.add_context(vp, gpa, page);
        Ok(())
    }

    fn finish(&mut self, wanted: Option<Digest>) -> Result<Digest, FinishRefusal>
        requires loading { (mem_state self.old).phase ≡ Phase.Loading }
        requires wanted { (mem_state self.old).kind ≡ PlatformKind.Tdx → wanted ≡ None }
        ensures sure { result ≢ Err FinishRefusal.Failed }
        ensures ends { Ends wanted (mem_state self.old) (mem_state self.new) result }
        ensures digest { (records : List LaunchRecord) → MemHolds self.old records
            → Answers (launch_digest (mem_state self.old).kind records) result }
        ensures held { (records : List LaunchRecord) → MemHolds self.old records
            → MemHolds self.new records }
        ensures spares { mem_spares self.new ≡ mem_spares self.old }
    {
        let Stage::Running(launch) = mem::replace(&mut self.stage, Stage::Idle) else {
            unreachable!()
        };
        let ended = EndedLaunch::new(launch, wanted);
        let digest = ended.digest;
        let is_refused = ended.is_refused;
        self.stage = Stage::Ended(ended);
        if is_refused {
            return Err(FinishRefusal::BadDigest { found: digest });
        }
        Ok(digest)
    }

    fn phase(&self) -> Phase {
        match &self.stage {
            Stage::Idle => Phase::Idle,
            Stage::Running(_) => Phase::Loading,
            Stage::Ended(launch) => {
                if launch.is_refused {
                    Phase::Refused
                } else {
                    Phase::Done
                }
            }
        }
    }

    fn entries(&self) -> u32 {
        match &self.stage {
            Stage::Idle => 0,
            Stage::Running(launch) => launch.pages.entries(),
            Stage::Ended(launch) => launch.pages.entries(),
        }
    }

    fn contexts(&self) -> u32 {
        match &self.stage {
            Stage::Idle => 0,
            Stage::Running(launch) => launch.pages.contexts(),
            Stage::Ended(launch) => launch.pages.contexts(),
        }
    }

    fn entry(&self, k: u32) -> Option<EntryView<'_>> {
        match &self.stage {
            Stage::Idle => None,
            Stage::Running(launch) => launch.pages.entry(k),
            Stage::Ended(launch) => launch.pages.entry(k),
        }
    }

    fn context_at(&self, k: u32) -> Option<ContextView<'_>> {
        match &self.stage {
            Stage::Idle => None,
            Stage::Running(launch) => launch.pages.context_at(k),
            Stage::Ended(launch) => launch.pages.context_at(k),
        }
    }

    fn digest(&self) -> Option<Digest> {
        match &self.stage {
            Stage::Ended(launch) => Some(launch.digest),
            _ => None,
        }
    }
}
