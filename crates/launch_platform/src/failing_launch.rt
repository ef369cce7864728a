//! A launch machine whose commands can be made to fail.
ghost use Rattle.std.specs.Prelude.{◌≡◌, ◌<◌, ◌≤◌, ◌%◌, List, [], None, false, length, IfOk, OnOk, OnErr, IsErr, IsErrOf};
ghost use Rattle.launch_platform.specs.Machine.{LaunchRecord, HasDigest, launch_digest, started, is_placed, has_context};
ghost use Rattle.launch_platform.specs.Commands.{Place, Add, Extend, AddContext, CanAdd, CanExtend, Ends, Answers};

use crate::{
    CommandFaults, ContextView, EntryView, FinishRefusal, Launch, MemLaunch, Phase, StartRefusal,
};
use igvm_headers::{Digest, Failed, PageView, PlatformKind, Tag};

/// A machine in memory, some of whose commands fail.
#[derive(Drop)]
pub struct FailingLaunch {
    inner: MemLaunch,
    faults: CommandFaults,
}

impl FailingLaunch {
    /// Lets the commands of these numbers fail; the first is number 1.
    pub fn new(inner: MemLaunch, calls: Vec<u64>) -> FailingLaunch
        ensures inner { result.inner ≡ inner }
        ensures faults { result.faults ≡ record { failing = calls.items; commands = 0 } }
    {
        FailingLaunch {
            inner,
            faults: CommandFaults::new(calls),
        }
    }
}

impl Launch for FailingLaunch {
    ghost use Rattle.launch_platform.specs.MemMachine.{mem_state, mem_spares, MemHolds, IsMemStep};
    ghost use Rattle.launch_platform.specs.FailingCommands.{fault_count, IsCounted};

    ghost state = { λ m. mem_state m.inner };

    ghost spares = { λ m. mem_spares m.inner };

    ghost holds = { λ m. MemHolds m.inner };

    ghost faults = { λ m. fault_count m.faults };

    fn start(&mut self, kind: PlatformKind, pages: u32, contexts: u32) -> Result<(), StartRefusal>
        requires idle { (mem_state self.old.inner).phase ≡ Phase.Idle }
        requires kind { HasDigest kind }
        requires pages { pages ≤ 524288 }
        requires contexts { contexts ≤ 65536 }
        ensures counted { IsCounted self.old.faults self.new.faults (IsErrOf result StartRefusal.Failed) }
        ensures started { OnOk result (mem_state self.new.inner ≡ started kind) }
        ensures empty { OnOk result (MemHolds self.new.inner []) }
        ensures pages { OnOk result ((mem_spares self.new.inner).pages ≡ pages) }
        ensures contexts { OnOk result ((mem_spares self.new.inner).contexts ≡ contexts) }
        ensures kept { OnErr result (self.new.inner ≡ self.old.inner) }
    {
        if self.faults.command().is_err() {
            return Err(StartRefusal::Failed);
        }
        self.inner.start(kind, pages, contexts)
    }

    fn place(&mut self, gpa: u64, page: PageView<'_>) -> Result<u32, Failed>
        requires loading { (mem_state self.old.inner).phase ≡ Phase.Loading }
        requires spare { 0 < (mem_spares self.old.inner).pages }
        requires aligned { gpa % 4096 ≡ 0 }
        requires new { is_placed gpa (mem_state self.old.inner).entries ≡ false }
        ensures counted { IsCounted self.old.faults self.new.faults (IsErr result) }
        ensures slot { IfOk result (λ slot. slot ≡ length (mem_state self.old.inner).entries) }
        ensures done { OnOk result (IsMemStep (Place gpa page.entry) self.old.inner
            self.new.inner) }
        ensures kept { OnErr result (self.new.inner ≡ self.old.inner) }
    {
        self.faults.command()?;
        self.inner.place(gpa, page)
    }

    fn add(&mut self, slot: u32, tag: Tag) -> Result<(), Failed>
        requires loading { (mem_state self.old.inner).phase ≡ Phase.Loading }
        requires entry { CanAdd slot tag (mem_state self.old.inner) }
        ensures counted { IsCounted self.old.faults self.new.faults (IsErr result) }
        ensures done { OnOk result (IsMemStep (Add slot tag) self.old.inner self.new.inner) }
        ensures kept { OnErr result (self.new.inner ≡ self.old.inner) }
    {
        self.faults.command()?;
        self.inner.add(slot, tag)
    }

    fn extend(&mut self, slot: u32) -> Result<(), Failed>
        requires loading { (mem_state self.old.inner).phase ≡ Phase.Loading }
        requires kind { (mem_state self.old.inner).kind ≡ PlatformKind.Tdx }
        requires entry { CanExtend slot (mem_state self.old.inner) }
        ensures counted { IsCounted self.old.faults self.new.faults (IsErr result) }
        ensures done { OnOk result (IsMemStep (Extend slot) self.old.inner self.new.inner) }
        ensures kept { OnErr result (self.new.inner ≡ self.old.inner) }
    {
        self.faults.command()?;
        self.inner.extend(slot)
    }

    fn context(&mut self, vp: u16, gpa: u64, page: PageView<'_>) -> Result<(), Failed>
        requires loading { (mem_state self.old.inner).phase ≡ Phase.Loading }
        requires kind { (mem_state self.old.inner).kind ≡ PlatformKind.SevSnp }
        requires spare { 0 < (mem_spares self.old.inner).contexts }
        requires new { has_context vp (mem_state self.old.inner).contexts ≡ false }
        ensures counted { IsCounted self.old.faults self.new.faults (IsErr result) }
        ensures done { OnOk result (IsMemStep (AddContext vp gpa page.entry) self.old.inner
            self.new.inner) }
        ensures kept { OnErr result (self.new.inner ≡ self.old.inner) }
    {
        self.faults.command()?;
        self.inner.context(vp, gpa, page)
    }

    fn finish(&mut self, wanted: Option<Digest>) -> Result<Digest, FinishRefusal>
        requires loading { (mem_state self.old.inner).phase ≡ Phase.Loading }
        requires wanted { (mem_state self.old.inner).kind ≡ PlatformKind.Tdx → wanted ≡ None }
        ensures counted { IsCounted self.old.faults self.new.faults (IsErrOf result FinishRefusal.Failed) }
        ensures ends { Ends wanted (mem_state self.old.inner) (mem_state self.new.inner) result }
        ensures digest { (records : List LaunchRecord) → MemHolds self.old.inner records
            → Answers (launch_digest (mem_state self.old.inner).kind records) result }
        ensures held { (records : List LaunchRecord) → MemHolds self.old.inner records
            → MemHolds self.new.inner records }
        ensures spares { mem_spares self.new.inner ≡ mem_spares self.old.inner }
    {
        if self.faults.command().is_err() {
            return Err(FinishRefusal::Failed);
        }
        self.inner.finish(wanted)
    }

    fn phase(&self) -> Phase {
        self.inner.phase()
    }

    fn entries(&self) -> u32 {
        self.inner.entries()
    }

    fn contexts(&self) -> u32 {
        self.inner.contexts()
    }

    fn entry(&self, k: u32) -> Option<EntryView<'_>> {
        self.inner.entry(k)
    }

    fn context_at(&self, k: u32) -> Option<ContextView<'_>> {
        self.inner.context_at(k)
    }

    fn digest(&self) -> Option<Digest> {
        self.inner.digest()
    }
}
