//! The launch machine (SEV-SNP Firmware ABI, SNP_LAUNCH_START, SNP_LAUNCH_UPDATE and SNP_LAUNCH_FINISH; Intel TDX
//! Module Base Architecture Specification, TDH.MEM.PAGE.ADD, TDH.MR.EXTEND and TDH.MR.FINALIZE).
ghost use Rattle.std.specs.Prelude.{◌≡◌, ◌≢◌, ◌↔◌, ℕ, ◌<◌, ◌≤◌, ◌%◌, List, [], Err, None, false, length, IfOk, IfSome, OnOk, OnErr, IsErrOf, IsSome, slice_get};
ghost use Rattle.std.specs.Option.{option_map};
ghost use Rattle.igvm_headers.specs.FaultCounts.{Rose, HasCause};
ghost use Rattle.launch_platform.specs.Machine.{State, Spares, LaunchRecord, HasDigest, HasEnded, launch_digest, started, is_placed, has_context};
ghost use Rattle.launch_platform.specs.Commands.{Place, Add, Extend, AddContext, IsStep, IsAsBefore, CanAdd, CanExtend, Ends, Answers};
ghost use Rattle.launch_platform.specs.Views.{entry_in, context_in};

use crate::{ContextView, EntryView, FinishRefusal, Phase, StartRefusal};
use igvm_headers::{Digest, Failed, PageView, PlatformKind, Tag};

/// A launch machine: pages and contexts are put into a guest, are measured, and give its digest. A
/// command that answers `Failed` changes nothing but the count of faults.
pub trait Launch {
    /// Its kind, phase, entries and contexts, and its digest once it has ended.
    ghost state: { Self → State };

    /// How many more pages and contexts it has room for.
    ghost spares: { Self → Spares };

    /// It may have measured these records. A machine with a running hash keeps no list of them, and
    /// holds each list that its hash may come from.
    ghost holds: { Self → List LaunchRecord → Type 0 };

    /// How often a command has failed: a `u64` that never falls and stops at its last value. Any
    /// other answer leaves it.
    ghost faults: { Self → ℕ };

    /// Begins a launch (SNP_LAUNCH_START) with room for `pages` pages and `contexts` contexts. No
    /// other command has an answer for want of memory.
    fn start(&mut self, kind: PlatformKind, pages: u32, contexts: u32) -> Result<(), StartRefusal>
        requires idle { (state self.old).phase ≡ Phase.Idle }
        requires kind { HasDigest kind }
        requires pages { pages ≤ 524288 }
        requires contexts { contexts ≤ 65536 }
        ensures started { OnOk result (state self.new ≡ started kind) }
        ensures empty { OnOk result (holds self.new []) }
        ensures pages { OnOk result (pages ≤ (spares self.new).pages) }
        ensures contexts { OnOk result (contexts ≤ (spares self.new).contexts) }
        ensures kept { OnErr result (IsAsBefore (state self.old) (state self.new)
            (spares self.old) (spares self.new) (holds self.old) (holds self.new)) }
        ensures cause { IsErrOf result StartRefusal.Failed
            → Rose (faults self.old) (faults self.new) }
        ensures no_fault { result ≢ Err StartRefusal.Failed → faults self.new ≡ faults self.old }
        ensures counted { faults self.old ≤ faults self.new };

    /// Puts a page at an address, and answers its number: 0 for the first. It is not yet part of
    /// the launch.
    fn place(&mut self, gpa: u64, page: PageView<'_>) -> Result<u32, Failed>
        requires loading { (state self.old).phase ≡ Phase.Loading }
        requires spare { 0 < (spares self.old).pages }
        requires aligned { gpa % 4096 ≡ 0 }
        requires new { is_placed gpa (state self.old).entries ≡ false }
        ensures slot { IfOk result (λ slot. slot ≡ length (state self.old).entries) }
        ensures done { OnOk result (IsStep (Place gpa page.entry) (state self.old) (state self.new)
            (spares self.old) (spares self.new) (holds self.old) (holds self.new)) }
        ensures kept { OnErr result (IsAsBefore (state self.old) (state self.new)
            (spares self.old) (spares self.new) (holds self.old) (holds self.new)) }
        ensures cause { HasCause (faults self.old) (faults self.new) result }
        ensures no_fault { OnOk result (faults self.new ≡ faults self.old) }
        ensures counted { faults self.old ≤ faults self.new };

    /// Adds a placed page to the launch by a tag (SNP_LAUNCH_UPDATE, TDH.MEM.PAGE.ADD).
    fn add(&mut self, slot: u32, tag: Tag) -> Result<(), Failed>
        requires loading { (state self.old).phase ≡ Phase.Loading }
        requires entry { CanAdd slot tag (state self.old) }
        ensures done { OnOk result (IsStep (Add slot tag) (state self.old) (state self.new)
            (spares self.old) (spares self.new) (holds self.old) (holds self.new)) }
        ensures kept { OnErr result (IsAsBefore (state self.old) (state self.new)
            (spares self.old) (spares self.new) (holds self.old) (holds self.new)) }
        ensures cause { HasCause (faults self.old) (faults self.new) result }
        ensures no_fault { OnOk result (faults self.new ≡ faults self.old) }
        ensures counted { faults self.old ≤ faults self.new };

    /// Measures the bytes of a page that was added on TDX: its 16 chunks of 256 bytes, in rising
    /// order (TDH.MR.EXTEND).
    fn extend(&mut self, slot: u32) -> Result<(), Failed>
        requires loading { (state self.old).phase ≡ Phase.Loading }
        requires kind { (state self.old).kind ≡ PlatformKind.Tdx }
        requires entry { CanExtend slot (state self.old) }
        ensures done { OnOk result (IsStep (Extend slot) (state self.old) (state self.new)
            (spares self.old) (spares self.new) (holds self.old) (holds self.new)) }
        ensures kept { OnErr result (IsAsBefore (state self.old) (state self.new)
            (spares self.old) (spares self.new) (holds self.old) (holds self.new)) }
        ensures cause { HasCause (faults self.old) (faults self.new) result }
        ensures no_fault { OnOk result (faults self.new ≡ faults self.old) }
        ensures counted { faults self.old ≤ faults self.new };

    /// Adds the state of a virtual processor on SEV-SNP: its save area, at any address
    /// (SNP_LAUNCH_UPDATE with page type VMSA).
    fn context(&mut self, vp: u16, gpa: u64, page: PageView<'_>) -> Result<(), Failed>
        requires loading { (state self.old).phase ≡ Phase.Loading }
        requires kind { (state self.old).kind ≡ PlatformKind.SevSnp }
        requires spare { 0 < (spares self.old).contexts }
        requires new { has_context vp (state self.old).contexts ≡ false }
        ensures done { OnOk result (IsStep (AddContext vp gpa page.entry) (state self.old)
            (state self.new) (spares self.old) (spares self.new) (holds self.old)
            (holds self.new)) }
        ensures kept { OnErr result (IsAsBefore (state self.old) (state self.new)
            (spares self.old) (spares self.new) (holds self.old) (holds self.new)) }
        ensures cause { HasCause (faults self.old) (faults self.new) result }
        ensures no_fault { OnOk result (faults self.new ≡ faults self.old) }
        ensures counted { faults self.old ≤ faults self.new };

    /// Ends the launch, and answers its digest (SNP_LAUNCH_FINISH, TDH.MR.FINALIZE). Where another
    /// one is wanted, as by an ID block of SEV-SNP, the launch is refused.
    fn finish(&mut self, wanted: Option<Digest>) -> Result<Digest, FinishRefusal>
        requires loading { (state self.old).phase ≡ Phase.Loading }
        requires wanted { (state self.old).kind ≡ PlatformKind.Tdx → wanted ≡ None }
        ensures ends { Ends wanted (state self.old) (state self.new) result }
        ensures digest { (records : List LaunchRecord) → holds self.old records
            → Answers (launch_digest (state self.old).kind records) result }
        ensures held { (records : List LaunchRecord) → holds self.old records
            → holds self.new records }
        ensures spares { spares self.new ≡ spares self.old }
        ensures cause { IsErrOf result FinishRefusal.Failed
            → Rose (faults self.old) (faults self.new) }
        ensures no_fault { result ≢ Err FinishRefusal.Failed → faults self.new ≡ faults self.old }
        ensures counted { faults self.old ≤ faults self.new };

    /// How far the launch has come.
    fn phase(&self) -> Phase
        ensures { result ≡ (state self.now).phase };

    /// How many pages were placed.
    fn entries(&self) -> u32
        ensures { result ≡ length (state self.now).entries };

    /// How many contexts were added.
    fn contexts(&self) -> u32
        ensures { result ≡ length (state self.now).contexts };

    /// Page `k` of those placed, in their order. None past the last.
    fn entry(&self, k: u32) -> Option<EntryView<'_>>
        ensures value { option_map entry_in result ≡ slice_get (state self.now).entries k }
        ensures whole { IfSome result (λ entry. length entry.page.now ≡ 4096) };

    /// Context `k` of those added, in their order. None past the last.
    fn context_at(&self, k: u32) -> Option<ContextView<'_>>
        ensures value { option_map context_in result ≡ slice_get (state self.now).contexts k }
        ensures whole { IfSome result (λ context. length context.page.now ≡ 4096) };

    /// The digest, once the launch has ended: that of the records.
    fn digest(&self) -> Option<Digest>
        ensures value { result ≡ (state self.now).digest }
        ensures ended { IsSome result ↔ HasEnded (state self.now).phase }
        ensures measured { (records : List LaunchRecord) → holds self.now records
            → IfSome result (λ digest. digest ≡ launch_digest (state self.now).kind records) };
}
