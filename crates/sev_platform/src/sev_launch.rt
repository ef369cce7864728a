//! The launch machine of SEV and SEV-ES guests (AMD SEV API, LAUNCH_START, LAUNCH_UPDATE_DATA,
//! LAUNCH_UPDATE_VMSA, LAUNCH_MEASURE and LAUNCH_FINISH).
ghost use Rattle.std.specs.Prelude.{◌≡◌, ◌≢◌, ◌↔◌, ℕ, ◌<◌, ◌≤◌, ◌%◌, List, [], Err, false, length, IfOk, IfSome, OnOk, OnErr, IsErrOf, IsSome, slice_get};
ghost use Rattle.std.specs.Option.{option_map};
ghost use Rattle.sha2.specs.Sha256.{sha256};
ghost use Rattle.igvm_headers.specs.FaultCounts.{Rose, HasCause};
ghost use Rattle.launch_platform.specs.Machine.{Spares, has_context};
ghost use Rattle.launch_platform.specs.Views.{context_in};
ghost use Rattle.sev_chain.specs.SevBytes.{HasSevDigest};
ghost use Rattle.sev_platform.specs.SevMachine.{SevState, sev_started, has_page};
ghost use Rattle.sev_platform.specs.SevCommands.{Place, Update, AddContext, IsSevStep, IsSevAsBefore, CanUpdate, SevEnds};
ghost use Rattle.sev_platform.specs.SevViews.{page_in};

use crate::SevEntry;
use igvm_headers::{Failed, PageView, PlatformKind};
use launch_platform::{ContextView, Phase, StartRefusal};
use sev_chain::Digest32;

/// A launch machine of SEV and SEV-ES guests: pages and contexts are put into a guest, those that count are
/// measured, and the launch has a digest in the end. A command that answers `Failed` changes nothing but
/// the count of faults.
pub trait SevLaunch {
    /// Its kind, phase, entries and contexts, and its digest once it has ended.
    ghost state: { Self → SevState };

    /// How many more pages and contexts it has room for.
    ghost spares: { Self → Spares };

    /// It may have measured these bytes. A machine with a running hash keeps no list of them, and holds
    /// each list that its hash may come from.
    ghost holds: { Self → List ℕ → Type 0 };

    /// How often a command has failed: a `u64` that never falls and stops at its last value. Any other
    /// answer leaves it.
    ghost faults: { Self → ℕ };

    /// Begins a launch (LAUNCH_START) with room for `pages` pages and `contexts` contexts. No other command
    /// has an answer for want of memory.
    fn start(&mut self, kind: PlatformKind, pages: u32, contexts: u32) -> Result<(), StartRefusal>
        requires idle { (state self.old).phase ≡ Phase.Idle }
        requires kind { HasSevDigest kind }
        requires pages { pages ≤ 524288 }
        requires contexts { contexts ≤ 65536 }
        ensures started { OnOk result (state self.new ≡ sev_started kind) }
        ensures empty { OnOk result (holds self.new []) }
        ensures pages { OnOk result (pages ≤ (spares self.new).pages) }
        ensures contexts { OnOk result (contexts ≤ (spares self.new).contexts) }
        ensures kept { OnErr result (IsSevAsBefore (state self.old) (state self.new)
            (spares self.old) (spares self.new) (holds self.old) (holds self.new)) }
        ensures cause { IsErrOf result StartRefusal.Failed
            → Rose (faults self.old) (faults self.new) }
        ensures no_fault { result ≢ Err StartRefusal.Failed → faults self.new ≡ faults self.old }
        ensures counted { faults self.old ≤ faults self.new };

    /// Puts a page at an address, and answers its number: 0 for the first. It is in the guest, and not
    /// measured.
    fn place(&mut self, gpa: u64, page: PageView<'_>) -> Result<u32, Failed>
        requires loading { (state self.old).phase ≡ Phase.Loading }
        requires spare { 0 < (spares self.old).pages }
        requires aligned { gpa % 4096 ≡ 0 }
        requires new { has_page gpa (state self.old).entries ≡ false }
        ensures slot { IfOk result (λ slot. slot ≡ length (state self.old).entries) }
        ensures done { OnOk result (IsSevStep (Place gpa page.entry) (state self.old)
            (state self.new) (spares self.old) (spares self.new) (holds self.old)
            (holds self.new)) }
        ensures kept { OnErr result (IsSevAsBefore (state self.old) (state self.new)
            (spares self.old) (spares self.new) (holds self.old) (holds self.new)) }
        ensures cause { HasCause (faults self.old) (faults self.new) result }
        ensures no_fault { OnOk result (faults self.new ≡ faults self.old) }
        ensures counted { faults self.old ≤ faults self.new };

    /// Measures the bytes of a placed page (LAUNCH_UPDATE_DATA).
    fn update(&mut self, slot: u32) -> Result<(), Failed>
        requires loading { (state self.old).phase ≡ Phase.Loading }
        requires entry { CanUpdate slot (state self.old) }
        ensures done { OnOk result (IsSevStep (Update slot) (state self.old) (state self.new)
            (spares self.old) (spares self.new) (holds self.old) (holds self.new)) }
        ensures kept { OnErr result (IsSevAsBefore (state self.old) (state self.new)
            (spares self.old) (spares self.new) (holds self.old) (holds self.new)) }
        ensures cause { HasCause (faults self.old) (faults self.new) result }
        ensures no_fault { OnOk result (faults self.new ≡ faults self.old) }
        ensures counted { faults self.old ≤ faults self.new };

    /// Adds the state of a virtual processor on SEV-ES, and measures its bytes: its save area, at any
    /// address (LAUNCH_UPDATE_VMSA).
    fn context(&mut self, vp: u16, gpa: u64, page: PageView<'_>) -> Result<(), Failed>
        requires loading { (state self.old).phase ≡ Phase.Loading }
        requires kind { (state self.old).kind ≡ PlatformKind.SevEs }
        requires spare { 0 < (spares self.old).contexts }
        requires new { has_context vp (state self.old).contexts ≡ false }
        ensures done { OnOk result (IsSevStep (AddContext vp gpa page.entry) (state self.old)
            (state self.new) (spares self.old) (spares self.new) (holds self.old)
            (holds self.new)) }
        ensures kept { OnErr result (IsSevAsBefore (state self.old) (state self.new)
            (spares self.old) (spares self.new) (holds self.old) (holds self.new)) }
        ensures cause { HasCause (faults self.old) (faults self.new) result }
        ensures no_fault { OnOk result (faults self.new ≡ faults self.old) }
        ensures counted { faults self.old ≤ faults self.new };

    /// Ends the launch, and answers the SHA-256 of the bytes that were measured (LAUNCH_MEASURE,
    /// LAUNCH_FINISH).
    fn finish(&mut self) -> Result<Digest32, Failed>
        requires loading { (state self.old).phase ≡ Phase.Loading }
        ensures ends { SevEnds (state self.old) (state self.new) result }
        ensures digest { (bytes : List ℕ) → holds self.old bytes
            → IfOk result (λ digest. digest ≡ sha256 bytes) }
        ensures held { (bytes : List ℕ) → holds self.old bytes → holds self.new bytes }
        ensures spares { spares self.new ≡ spares self.old }
        ensures cause { HasCause (faults self.old) (faults self.new) result }
        ensures no_fault { OnOk result (faults self.new ≡ faults self.old) }
        ensures counted { faults self.old ≤ faults self.new };

    /// How far the launch has come.
    fn phase(&self) -> Phase
        ensures { result ≡ (state self.now).phase };

    /// How many pages were placed.
    fn entries(&self) -> u32
        ensures { result ≡ length (state self.now).entries };

    /// How many contexts were added.
    fn contexts(&self) -> u32
        ensures { result ≡ length (state self.now).contexts };

    /// Page `k` of those placed, in their order. None past the last.
    fn entry(&self, k: u32) -> Option<SevEntry<'_>>
        ensures value { option_map page_in result ≡ slice_get (state self.now).entries k }
        ensures whole { IfSome result (λ entry. length entry.page.now ≡ 4096) };

    /// Context `k` of those added, in their order. None past the last.
    fn context_at(&self, k: u32) -> Option<ContextView<'_>>
        ensures value { option_map context_in result ≡ slice_get (state self.now).contexts k }
        ensures whole { IfSome result (λ context. length context.page.now ≡ 4096) };

    /// The digest, once the launch has ended: the SHA-256 of the bytes that were measured.
    fn digest(&self) -> Option<Digest32>
        ensures value { result ≡ (state self.now).digest }
        ensures ended { IsSome result ↔ ((state self.now).phase ≡ Phase.Done) }
        ensures measured { (bytes : List ℕ) → holds self.now bytes
            → IfSome result (λ digest. digest ≡ sha256 bytes) };
}
