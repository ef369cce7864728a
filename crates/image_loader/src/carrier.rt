//! What carries commands out: machines of one make, as a load sees them.
ghost use Rattle.std.specs.Prelude.{◌≡◌, ℕ, ◌<◌, ◌≤◌, ◌%◌, List, true, false, length, IfOk, OnOk, OnErr};
ghost use Rattle.igvm_headers.specs.FaultCounts.{HasCause};
ghost use Rattle.igvm_headers.specs.declared.platform_kind.PlatformKind.{PlatformKind};
ghost use Rattle.directive_rules.specs.MisfitRows.{has_contexts};
ghost use Rattle.launch_platform.specs.Machine.{State, Spares, LaunchRecord, is_placed, has_context};
ghost use Rattle.launch_platform.specs.Commands.{Place, Add, Extend, AddContext, IsStep, IsAsBefore, CanAdd, CanExtend};

use igvm_headers::{Failed, PageView, PlatformKind, Tag};
use launch_platform::Phase;

/// The commands of a load, on machines `M` of one make: the four between the start of a launch and its
/// end. A command that answers `Failed` changes nothing but the count of faults.
pub trait Carrier<M> {
    /// The kinds of platform that such a machine launches.
    ghost kinds: { PlatformKind → Type 0 };

    /// Its kind, phase, entries and contexts.
    ghost state: { M → State };

    /// How many more pages and contexts it has room for.
    ghost spares: { M → Spares };

    /// It may have measured these records.
    ghost holds: { M → List LaunchRecord → Type 0 };

    /// How often a command has failed.
    ghost faults: { M → ℕ };

    /// Puts a page at an address, and answers its number: 0 for the first.
    fn place(machine: &mut M, gpa: u64, page: PageView<'_>) -> Result<u32, Failed>
        requires kind { kinds (state machine.old).kind }
        requires loading { (state machine.old).phase ≡ Phase.Loading }
        requires spare { 0 < (spares machine.old).pages }
        requires aligned { gpa % 4096 ≡ 0 }
        requires new { is_placed gpa (state machine.old).entries ≡ false }
        ensures slot { IfOk result (λ slot. slot ≡ length (state machine.old).entries) }
        ensures done { OnOk result (IsStep (Place gpa page.entry) (state machine.old)
            (state machine.new) (spares machine.old) (spares machine.new) (holds machine.old)
            (holds machine.new)) }
        ensures kept { OnErr result (IsAsBefore (state machine.old) (state machine.new)
            (spares machine.old) (spares machine.new) (holds machine.old) (holds machine.new)) }
        ensures cause { HasCause (faults machine.old) (faults machine.new) result }
        ensures no_fault { OnOk result (faults machine.new ≡ faults machine.old) }
        ensures counted { faults machine.old ≤ faults machine.new };

    /// Adds a placed page to the launch by a tag.
    fn add(machine: &mut M, slot: u32, tag: Tag) -> Result<(), Failed>
        requires kind { kinds (state machine.old).kind }
        requires loading { (state machine.old).phase ≡ Phase.Loading }
        requires entry { CanAdd slot tag (state machine.old) }
        ensures done { OnOk result (IsStep (Add slot tag) (state machine.old) (state machine.new)
            (spares machine.old) (spares machine.new) (holds machine.old) (holds machine.new)) }
        ensures kept { OnErr result (IsAsBefore (state machine.old) (state machine.new)
            (spares machine.old) (spares machine.new) (holds machine.old) (holds machine.new)) }
        ensures cause { HasCause (faults machine.old) (faults machine.new) result }
        ensures no_fault { OnOk result (faults machine.new ≡ faults machine.old) }
        ensures counted { faults machine.old ≤ faults machine.new };

    /// Measures the bytes of a page that was added on TDX.
    fn extend(machine: &mut M, slot: u32) -> Result<(), Failed>
        requires kind { kinds (state machine.old).kind }
        requires loading { (state machine.old).phase ≡ Phase.Loading }
        requires tdx { (state machine.old).kind ≡ PlatformKind.Tdx }
        requires entry { CanExtend slot (state machine.old) }
        ensures done { OnOk result (IsStep (Extend slot) (state machine.old) (state machine.new)
            (spares machine.old) (spares machine.new) (holds machine.old) (holds machine.new)) }
        ensures kept { OnErr result (IsAsBefore (state machine.old) (state machine.new)
            (spares machine.old) (spares machine.new) (holds machine.old) (holds machine.new)) }
        ensures cause { HasCause (faults machine.old) (faults machine.new) result }
        ensures no_fault { OnOk result (faults machine.new ≡ faults machine.old) }
        ensures counted { faults machine.old ≤ faults machine.new };

    /// Adds the state of a virtual processor, where the platform has contexts.
    fn context(machine: &mut M, vp: u16, gpa: u64, page: PageView<'_>) -> Result<(), Failed>
        requires kind { kinds (state machine.old).kind }
        requires loading { (state machine.old).phase ≡ Phase.Loading }
        requires contexts { has_contexts (state machine.old).kind ≡ true }
        requires spare { 0 < (spares machine.old).contexts }
        requires new { has_context vp (state machine.old).contexts ≡ false }
        ensures done { OnOk result (IsStep (AddContext vp gpa page.entry) (state machine.old)
            (state machine.new) (spares machine.old) (spares machine.new) (holds machine.old)
            (holds machine.new)) }
        ensures kept { OnErr result (IsAsBefore (state machine.old) (state machine.new)
            (spares machine.old) (spares machine.new) (holds machine.old) (holds machine.new)) }
        ensures cause { HasCause (faults machine.old) (faults machine.new) result }
        ensures no_fault { OnOk result (faults machine.new ≡ faults machine.old) }
        ensures counted { faults machine.old ≤ faults machine.new };
}
