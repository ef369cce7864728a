//! A SEV launch machine in memory (AMD SEV API, LAUNCH_START, LAUNCH_UPDATE_DATA, LAUNCH_UPDATE_VMSA, LAUNCH_MEASURE
//! and LAUNCH_FINISH).
ghost use Rattle.std.specs.Prelude.{◌≡◌, ◌<◌, ◌≤◌, ◌%◌, ℕ, List, [], Ok, false, length, map, IfOk, IfSome, OnOk, OnErr, IsOk, IsOkUnless, slice_get};
ghost use Rattle.std.specs.Option.{option_map};
ghost use Rattle.sha2.specs.Sha256.{sha256};
ghost use Rattle.launch_platform.specs.Machine.{has_context};
ghost use Rattle.sev_chain.specs.SevBytes.{HasSevDigest};
ghost use Rattle.sev_platform.specs.SevMachine.{sev_started, has_page};
ghost use Rattle.sev_platform.specs.SevCommands.{Place, Update, AddContext, CanUpdate, SevEnds};
ghost use Rattle.sev_platform.specs.SevViews.{page_in};
ghost use Rattle.sev_platform.specs.SevPages.{sev_page};

use crate::ended_sev_launch::EndedSevLaunch;
use crate::running_sev_launch::RunningSevLaunch;
use crate::{SevEntry, SevLaunch};
use igvm_headers::{Failed, PageView, PlatformKind};
use launch_platform::{ContextView, GuestPages, Phase, StartRefusal};
use sev_chain::Digest32;
use sha2::{Digest as _, Sha256};
use std::alloc::Global;
use std::mem;

/// How far a launch has come, with what there is then.
#[derive(Drop)]
pub(crate) enum Stage {
    Idle,
    Running(RunningSevLaunch),
    Ended(EndedSevLaunch),
}

/// A SEV launch machine in memory. All its pages lie in one block, and what is measured is hashed there,
/// once. It never answers `Failed`.
#[derive(Drop)]
pub struct SevMemLaunch {
    alloc: Global,
    stage: Stage,
}

impl SevMemLaunch {
    ghost use Rattle.sev_platform.specs.SevMemMachine.{sev_mem_state};

    /// A machine that is idle. `start` takes its memory from `alloc`.
    pub fn new(alloc: Global) -> SevMemLaunch
        ensures { (sev_mem_state result).phase ≡ Phase.Idle }
    {
        SevMemLaunch {
            alloc,
            stage: Stage::Idle,
        }
    }
}

impl SevLaunch for SevMemLaunch {
    ghost use Rattle.sev_platform.specs.SevMemMachine.{sev_mem_state, sev_mem_spares, SevMemHolds, IsSevMemStep};

    ghost state = { sev_mem_state };

    ghost spares = { sev_mem_spares };

    ghost holds = { SevMemHolds };

    ghost faults = { λ m. 0 };

    /// Takes one block for all pages, and one each for the rows of entries and of contexts.
    fn start(&mut self, kind: PlatformKind, pages: u32, contexts: u32) -> Result<(), StartRefusal>
        requires idle { (sev_mem_state self.old).phase ≡ Phase.Idle }
        requires kind { HasSevDigest kind }
        requires pages { pages ≤ 524288 }
        requires contexts { contexts ≤ 65536 }
        ensures sure { IsOkUnless result StartRefusal.Memory }
        ensures started { OnOk result (sev_mem_state self.new ≡ sev_started kind) }
        ensures empty { OnOk result (SevMemHolds self.new []) }
        ensures pages { OnOk result ((sev_mem_spares self.new).pages ≡ pages) }
        ensures contexts { OnOk result ((sev_mem_spares self.new).contexts ≡ contexts) }
        ensures kept { OnErr result (self.new ≡ self.old) }
    {
        let pages = GuestPages::new(self.alloc, pages, contexts).map_err(|_| StartRefusal::Memory)?;
        let hasher = Sha256::new();
        self.stage = Stage::Running(RunningSevLaunch {
            pages,
            kind,
            hasher,
        });
        Ok(())
    }

    fn place(&mut self, gpa: u64, page: PageView<'_>) -> Result<u32, Failed>
        requires loading { (sev_mem_state self.old).phase ≡ Phase.Loading }
        requires spare { 0 < (sev_mem_spares self.old).pages }
        requires aligned { gpa % 4096 ≡ 0 }
        requires new { has_page gpa (sev_mem_state self.old).entries ≡ false }
        ensures sure { result ≡ Ok (length (sev_mem_state self.old).entries) }
        ensures done { IsSevMemStep (Place gpa page.entry) self.old self.new }
    {
        let Stage::Running(launch) = &mut self.stage else {
            unreachable!()
        };
        Ok(launch.place(gpa, page))
    }

    fn update(&mut self, slot: u32) -> Result<(), Failed>
        requires loading { (sev_mem_state self.old).phase ≡ Phase.Loading }
        requires entry { CanUpdate slot (sev_mem_state self.old) }
        ensures sure { IsOk result }
        ensures done { IsSevMemStep (Update slot) self.old self.new }
    {
        let Stage::Running(launch) = &mut self.stage else {
            unreachable!()
        };
        launch.update(slot);
        Ok(())
    }

    fn context(&mut self, vp: u16, gpa: u64, page: PageView<'_>) -> Result<(), Failed>
        requires loading { (sev_mem_state self.old).phase ≡ Phase.Loading }
        requires kind { (sev_mem_state self.old).kind ≡ PlatformKind.SevEs }
        requires spare { 0 < (sev_mem_spares self.old).contexts }
        requires new { has_context vp (sev_mem_state self.old).contexts ≡ false }
        ensures sure { IsOk result }
        ensures done { IsSevMemStep (AddContext vp gpa page.entry) self.old self.new }
    {
        let Stage::Running(launch) = &mut self.stage else {
            unreachable!()
        };
        launch.add_context(vp, gpa, page);
        Ok(())
    }

    fn finish(&mut self) -> Result<Digest32, Failed>
        requires loading { (sev_mem_state self.old).phase ≡ Phase.Loading }
        ensures sure { IsOk result }
        ensures ends { SevEnds (sev_mem_state self.old) (sev_mem_state self.new) result }
        ensures digest { (bytes : List ℕ) → SevMemHolds self.old bytes
            → IfOk result (λ digest. digest ≡ sha256 bytes) }
        ensures held { (bytes : List ℕ) → SevMemHolds self.old bytes → SevMemHolds self.new bytes }
        ensures spares { sev_mem_spares self.new ≡ sev_mem_spares self.old }
    {
        let Stage::Running(launch) = mem::replace(&mut self.stage, Stage::Idle) else {
            unreachable!()
        };
        let ended = EndedSevLaunch::new(launch);
        let digest = ended.digest;
        self.stage = Stage::Ended(ended);
        Ok(digest)
    }

    fn phase(&self) -> Phase {
        match &self.stage {
            Stage::Idle => Phase::Idle,
            Stage::Running(_) => Phase::Loading,
            Stage::Ended(_) => Phase::Done,
        }
    }

    fn entries(&self) -> u32 {
        match &self.stage {
            Stage::Idle => 0,
            Stage::Running(launch) => launch.pages.entries(),
            Stage::Ended(launch) => launch.pages.entries(),
        }
    }

    fn contexts(&self) -> u32 {
        match &self.stage {
            Stage::Idle => 0,
            Stage::Running(launch) => launch.pages.contexts(),
            Stage::Ended(launch) => launch.pages.contexts(),
        }
    }

    fn entry(&self, k: u32) -> Option<SevEntry<'_>> {
        match &self.stage {
            Stage::Idle => None,
            Stage::Running(launch) => sev_entry(&launch.pages, k),
            Stage::Ended(launch) => sev_entry(&launch.pages, k),
        }
    }

    fn context_at(&self, k: u32) -> Option<ContextView<'_>> {
        match &self.stage {
            Stage::Idle => None,
            Stage::Running(launch) => launch.pages.context_at(k),
            Stage::Ended(launch) => launch.pages.context_at(k),
        }
    }

    fn digest(&self) -> Option<Digest32> {
        match &self.stage {
            Stage::Ended(launch) => Some(launch.digest),
            _ => None,
        }
    }
}

/// Lends page `k`.
fn sev_entry(pages: &GuestPages, k: u32) -> Option<SevEntry<'_>>
    ensures value { option_map page_in result ≡ slice_get (map sev_page pages.now.entries) k }
    ensures whole { IfSome result (λ entry. length entry.page.now ≡ 4096) }
{
    match pages.entry(k) {
        Some(entry) => Some(SevEntry {
            gpa: entry.gpa,
            page: entry.page,
            measured: entry.tag.is_some(),
        }),
        None => None,
    }
}
