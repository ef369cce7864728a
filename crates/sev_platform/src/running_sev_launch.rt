//! A SEV launch that has begun and not yet ended: its pages, and its running hash.
ghost use Rattle.std.specs.Prelude.{◌≡◌, ◌<◌, ◌%◌, length};
ghost use Rattle.sev_platform.specs.SevCommands.{Place, Update, AddContext, CanUpdate};
ghost use Rattle.sev_platform.specs.SevMemMachine.{running_state, IsRunningStep};

use igvm_headers::{PageView, PlatformKind, Tag};
use launch_platform::GuestPages;
use sha2::{Digest as _, Sha256};

/// A launch that has begun. A page that is measured has the tag `Normal`.
#[derive(Drop)]
pub(crate) struct RunningSevLaunch {
    pub(crate) pages: GuestPages,
    pub(crate) kind: PlatformKind,
    pub(crate) hasher: Sha256,
}

impl RunningSevLaunch {
    /// Places a page, and answers its number. Nothing is measured.
    pub(crate) fn place(&mut self, gpa: u64, page: PageView<'_>) -> u32
        requires spare { 0 < self.old.pages.spares.pages }
        requires aligned { gpa % 4096 ≡ 0 }
        ensures slot { result ≡ length self.old.pages.entries }
        ensures done { IsRunningStep (Place gpa page.entry) self.old self.new }
    {
        self.pages.place(gpa, page)
    }

    /// Measures a page where it lies.
    pub(crate) fn update(&mut self, slot: u32)
        requires { CanUpdate slot (running_state self.old) }
        ensures { IsRunningStep (Update slot) self.old self.new }
    {
        match self.pages.entry(slot) {
            Some(entry) => self.hasher.update(entry.page),
            None => unreachable!(),
        }
        self.pages.tag(slot, Tag::Normal);
    }

    /// Adds the state of a virtual processor, and measures it where it lies.
    pub(crate) fn add_context(&mut self, vp: u16, gpa: u64, page: PageView<'_>)
        requires { 0 < self.old.pages.spares.contexts }
        ensures { IsRunningStep (AddContext vp gpa page.entry) self.old self.new }
    {
        let added = self.pages.contexts();
        self.pages.add_context(vp, gpa, page);
        match self.pages.context_at(added) {
            Some(context) => self.hasher.update(context.page),
            None => unreachable!(),
        }
    }
}
