//! A SEV launch machine whose commands can be made to fail.
ghost use Rattle.std.specs.Prelude.{◌≡◌, ◌<◌, ◌≤◌, ◌%◌, ℕ, List, [], false, length, IfOk, OnOk, OnErr, IsErr, IsErrOf};
ghost use Rattle.sha2.specs.Sha256.{sha256};
ghost use Rattle.launch_platform.specs.Machine.{has_context};
ghost use Rattle.sev_chain.specs.SevBytes.{HasSevDigest};
ghost use Rattle.sev_platform.specs.SevMachine.{sev_started, has_page};
ghost use Rattle.sev_platform.specs.SevCommands.{Place, Update, AddContext, CanUpdate, SevEnds};

use crate::{SevEntry, SevLaunch, SevMemLaunch};
use igvm_headers::{Failed, PageView, PlatformKind};
use launch_platform::{CommandFaults, ContextView, Phase, StartRefusal};
use sev_chain::Digest32;

/// A SEV machine in memory, some of whose commands fail.
#[derive(Drop)]
pub struct FailingSevLaunch {
    inner: SevMemLaunch,
    faults: CommandFaults,
}

impl FailingSevLaunch {
    /// Lets the commands of these numbers fail; the first is number 1.
    pub fn new(inner: SevMemLaunch, calls: Vec<u64>) -> FailingSevLaunch
        ensures inner { result.inner ≡ inner }
        ensures faults { result.faults ≡ record { failing = calls.items; commands = 0 } }
    {
        FailingSevLaunch {
            inner,
            faults: CommandFaults::new(calls),
        }
    }
}

impl SevLaunch for FailingSevLaunch {
    ghost use Rattle.launch_platform.specs.FailingCommands.{fault_count, IsCounted};
    ghost use Rattle.sev_platform.specs.SevMemMachine.{sev_mem_state, sev_mem_spares, SevMemHolds, IsSevMemStep};

    ghost state = { λ m. sev_mem_state m.inner };

    ghost spares = { λ m. sev_mem_spares m.inner };

    ghost holds = { λ m. SevMemHolds m.inner };

    ghost faults = { λ m. fault_count m.faults };

    fn start(&mut self, kind: PlatformKind, pages: u32, contexts: u32) -> Result<(), StartRefusal>
        requires idle { (sev_mem_state self.old.inner).phase ≡ Phase.Idle }
        requires kind { HasSevDigest kind }
        requires pages { pages ≤ 524288 }
        requires contexts { contexts ≤ 65536 }
        ensures counted { IsCounted self.old.faults self.new.faults
            (IsErrOf result StartRefusal.Failed) }
        ensures started { OnOk result (sev_mem_state self.new.inner ≡ sev_started kind) }
        ensures empty { OnOk result (SevMemHolds self.new.inner []) }
        ensures pages { OnOk result ((sev_mem_spares self.new.inner).pages ≡ pages) }
        ensures contexts { OnOk result ((sev_mem_spares self.new.inner).contexts ≡ contexts) }
        ensures kept { OnErr result (self.new.inner ≡ self.old.inner) }
    {
        if self.faults.command().is_err() {
            return Err(StartRefusal::Failed);
        }
        self.inner.start(kind, pages, contexts)
    }

    fn place(&mut self, gpa: u64, page: PageView<'_>) -> Result<u32, Failed>
        requires loading { (sev_mem_state self.old.inner).phase ≡ Phase.Loading }
        requires spare { 0 < (sev_mem_spares self.old.inner).pages }
        requires aligned { gpa % 4096 ≡ 0 }
        requires new { has_page gpa (sev_mem_state self.old.inner).entries ≡ false }
        ensures counted { IsCounted self.old.faults self.new.faults (IsErr result) }
        ensures slot { IfOk result (λ slot. slot ≡ length (sev_mem_state self.old.inner).entries) }
        ensures done { OnOk result (IsSevMemStep (Place gpa page.entry) self.old.inner
            self.new.inner) }
        ensures kept { OnErr result (self.new.inner ≡ self.old.inner) }
    {
        self.faults.command()?;
        self.inner.place(gpa, page)
    }

    fn update(&mut self, slot: u32) -> Result<(), Failed>
        requires loading { (sev_mem_state self.old.inner).phase ≡ Phase.Loading }
        requires entry { CanUpdate slot (sev_mem_state self.old.inner) }
        ensures counted { IsCounted self.old.faults self.new.faults (IsErr result) }
        ensures done { OnOk result (IsSevMemStep (Update slot) self.old.inner self.new.inner) }
        ensures kept { OnErr result (self.new.inner ≡ self.old.inner) }
    {
        self.faults.command()?;
        self.inner.update(slot)
    }

    fn context(&mut self, vp: u16, gpa: u64, page: PageView<'_>) -> Result<(), Failed>
        requires loading { (sev_mem_state self.old.inner).phase ≡ Phase.Loading }
        requires kind { (sev_mem_state self.old.inner).kind ≡ PlatformKind.SevEs }
        requires spare { 0 < (sev_mem_spares self.old.inner).contexts }
        requires new { has_context vp (sev_mem_state self.old.inner).contexts ≡ false }
        ensures counted { IsCounted self.old.faults self.new.faults (IsErr result) }
        ensures done { OnOk result (IsSevMemStep (AddContext vp gpa page.entry) self.old.inner
            self.new.inner) }
        ensures kept { OnErr result (self.new.inner ≡ self.old.inner) }
    {
        self.faults.command()?;
        self.inner.context(vp, gpa, page)
    }

    fn finish(&mut self) -> Result<Digest32, Failed>
        requires loading { (sev_mem_state self.old.inner).phase ≡ Phase.Loading }
        ensures counted { IsCounted self.old.faults self.new.faults (IsErr result) }
        ensures ends { SevEnds (sev_mem_state self.old.inner) (sev_mem_state self.new.inner) result }
        ensures digest { (bytes : List ℕ) → SevMemHolds self.old.inner bytes
            → IfOk result (λ digest. digest ≡ sha256 bytes) }
        ensures held { (bytes : List ℕ) → SevMemHolds self.old.inner bytes
            → SevMemHolds self.new.inner bytes }
        ensures spares { sev_mem_spares self.new.inner ≡ sev_mem_spares self.old.inner }
    {
        self.faults.command()?;
        self.inner.finish()
    }

    fn phase(&self) -> Phase {
        self.inner.phase()
    }

    fn entries(&self) -> u32 {
        self.inner.entries()
    }

    fn contexts(&self) -> u32 {
        self.inner.contexts()
    }

    fn entry(&self, k: u32) -> Option<SevEntry<'_>> {
        self.inner.entry(k)
    }

    fn context_at(&self, k: u32) -> Option<ContextView<'_>> {
        self.inner.context_at(k)
    }

    fn digest(&self) -> Option<Digest32> {
        self.inner.digest()
    }
}
