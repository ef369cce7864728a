//! A launch that has begun and not yet ended: its pages, and its running digest.
ghost use Rattle.std.specs.Prelude.{◌≡◌, ◌<◌, ◌%◌, length};
ghost use Rattle.launch_platform.specs.Commands.{Place, Add, Extend, AddContext, CanAdd, CanExtend};
ghost use Rattle.launch_platform.specs.Chains.{kind_of};
ghost use Rattle.launch_platform.specs.MemMachine.{running_state, IsRunningStep};

use crate::chain::Chain;
use crate::guest_pages::GuestPages;
use igvm_headers::{PageView, PlatformKind, Tag};

/// A launch that has begun.
#[derive(Drop)]
pub(crate) struct RunningLaunch {
    pub(crate) pages: GuestPages,
    pub(crate) chain: Chain,
}

impl RunningLaunch {
    /// Places an entry, and answers its number. Nothing is measured.
    pub(crate) fn place(&mut self, gpa: u64, page: PageView<'_>) -> u32
        requires spare { 0 < self.old.pages.spares.pages }
        requires aligned { gpa % 4096 ≡ 0 }
        ensures slot { result ≡ length self.old.pages.entries }
        ensures done { IsRunningStep (Place gpa page.entry) self.old self.new }
    {
        self.pages.place(gpa, page)
    }

    /// Adds an entry.
    pub(crate) fn add(&mut self, slot: u32, tag: Tag)
        requires { CanAdd slot tag (running_state self.old) }
        ensures { IsRunningStep (Add slot tag) self.old self.new }
    {
        match self.pages.entry(slot) {
            Some(entry) => self.chain.add(tag, entry),
            None => unreachable!(),
        }
        self.pages.tag(slot, tag);
    }

    /// Measures the bytes of an entry.
    pub(crate) fn extend(&mut self, slot: u32)
        requires kind { kind_of self.old.chain ≡ PlatformKind.Tdx }
        requires entry { CanExtend slot (running_state self.old) }
        ensures { IsRunningStep (Extend slot) self.old self.new }
    {
        match self.pages.entry(slot) {
            Some(entry) => self.chain.extend(entry),
            None => unreachable!(),
        }
        self.pages.extend(slot);
    }

    /// Adds the state of a virtual processor.
    pub(crate) fn add_context(&mut self, vp: u16, gpa: u64, page: PageView<'_>)
        requires kind { kind_of self.old.chain ≡ PlatformKind.SevSnp }
        requires spare { 0 < self.old.pages.spares.contexts }
        ensures { IsRunningStep (AddContext vp gpa page.entry) self.old self.new }
    {
        self.chain.add_context(gpa, &page);
        self.pages.add_context(vp, gpa, page);
    }
}
