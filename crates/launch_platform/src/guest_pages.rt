//! Entries and contexts of a launch. All their pages lie in one region: those of the entries, then those of the
//! contexts.
ghost use Rattle.std.specs.Prelude.{◌≡◌, ◌<◌, ◌≤◌, ◌-◌, ◌%◌, ◌++◌, [], ◌∷◌, length, IfOk, IfSome, slice_get};
ghost use Rattle.std.specs.Option.{option_map};
ghost use Rattle.launch_platform.specs.Commands.{change_at, new_entry, tagged, extended, context_of};
ghost use Rattle.launch_platform.specs.Views.{entry_in, context_in};

use crate::{ContextView, EntryView};
use guest_region::GuestRegion;
use igvm_headers::{Memory, PageView, Tag};
use std::alloc::Global;
use std::marker::Model;

/// What an entry has beside its page.
#[derive(Clone, Copy)]
pub(crate) struct EntryRow {
    gpa: u64,
    tag: Option<Tag>,
    extended: bool,
}

/// What a context has beside its page.
#[derive(Clone, Copy)]
pub(crate) struct ContextRow {
    vp: u16,
    gpa: u64,
}

/// The pages of a guest: entries, each with the address, the 4,096 bytes, the tag and the mark of a
/// placed page, and contexts, each with a virtual processor's index and the address and 4,096 bytes
/// of its save area. There is room for at most 524,288 entries and 65,536 contexts. Nothing is
/// measured here, so a launch machine of any make may keep its pages in it. No call but `new` takes
/// memory.
#[derive(Drop)]
pub struct GuestPages {
    region: GuestRegion,
    entry_slots: u32,
    context_slots: u32,
    entries: Vec<EntryRow>,
    contexts: Vec<ContextRow>,
}

impl Model for GuestPages {
    ghost use Rattle.std.specs.Prelude.{vec_capacity};
    ghost use Rattle.launch_platform.specs.GuestPages.{PagesView, view_in, AreRoomy};

    ghost Value = { PagesView };

    ghost view = { λ p. view_in p.entry_slots p.context_slots p.entries.items p.contexts.items
        p.region };

    ghost invariant = { λ p. AreRoomy p.entry_slots p.context_slots (vec_capacity p.entries)
        (vec_capacity p.contexts) p.entries.items p.contexts.items p.region };
}

impl GuestPages {
    /// No entry and no context, with room for `pages` entries, up to 524,288, and `contexts`
    /// contexts, up to 65,536. `Memory` where there isn't memory for these.
    pub fn new(alloc: Global, pages: u32, contexts: u32) -> Result<GuestPages, Memory>
        requires pages { pages ≤ 524288 }
        requires contexts { contexts ≤ 65536 }
        ensures { IfOk result (λ made. made ≡ record {
          entries = [];
          contexts = [];
          spares = record { pages = pages; contexts = contexts };
        }) }
    {
        let entry_rows = Vec::with_capacity(alloc, pages as usize)?;
        let context_rows = Vec::with_capacity(alloc, contexts as usize)?;
        let region = GuestRegion::new(alloc, pages + contexts)?;
        Ok(GuestPages {
            region,
            entry_slots: pages,
            context_slots: contexts,
            entries: entry_rows,
            contexts: context_rows,
        })
    }

    /// Puts one more entry behind the others, and answers its number: 0 for the first. Its address
    /// is a multiple of 4,096, and it has no tag and isn't extended. Past the bytes of `page` its
    /// 4,096 bytes are zeros.
    pub fn place(&mut self, gpa: u64, page: PageView<'_>) -> u32
        requires spare { 0 < self.old.spares.pages }
        requires aligned { gpa % 4096 ≡ 0 }
        ensures slot { result ≡ length self.old.entries }
        ensures placed { self.new ≡ record self.old {
          entries = self.old.entries ++ new_entry gpa page.entry ∷ [];
          spares = record self.old.spares { pages = self.old.spares.pages - 1 };
        } }
    {
        let slot = self.entries.len() as u32;
        self.region.write(slot, page);
        self.entries.push_reserved(EntryRow {
            gpa,
            tag: None,
            extended: false,
        });
        slot
    }

    /// Gives the entry of this number a tag. All else stays.
    pub fn tag(&mut self, slot: u32, tag: Tag)
        requires { slot < length self.old.entries }
        ensures { self.new ≡ record self.old {
          entries = change_at slot (tagged tag) self.old.entries;
        } }
    {
        self.entries[slot as usize].tag = Some(tag);
    }

    /// Marks the entry of this number as extended. All else stays.
    pub fn extend(&mut self, slot: u32)
        requires { slot < length self.old.entries }
        ensures { self.new ≡ record self.old {
          entries = change_at slot extended self.old.entries;
        } }
    {
        self.entries[slot as usize].extended = true;
    }

    /// Puts one more context behind the others: that of the virtual processor `vp`, with its save
    /// area's address, which may be any. Past the bytes of `page` its 4,096 bytes are zeros.
    pub fn add_context(&mut self, vp: u16, gpa: u64, page: PageView<'_>)
        requires { 0 < self.old.spares.contexts }
        ensures { self.new ≡ record self.old {
          contexts = self.old.contexts ++ context_of vp gpa page.entry ∷ [];
          spares = record self.old.spares { contexts = self.old.spares.contexts - 1 };
        } }
    {
        let slot = self.entry_slots + self.contexts.len() as u32;
        self.region.write(slot, page);
        self.contexts.push_reserved(ContextRow { vp, gpa });
    }

    /// How many entries there are, up to 524,288.
    pub fn entries(&self) -> u32
        ensures { result ≡ length self.now.entries }
    {
        self.entries.len() as u32
    }

    /// How many contexts there are, up to 65,536.
    pub fn contexts(&self) -> u32
        ensures { result ≡ length self.now.contexts }
    {
        self.contexts.len() as u32
    }

    /// Lends entry `k`, with its 4,096 bytes; the first is number 0. None past the last.
    pub fn entry(&self, k: u32) -> Option<EntryView<'_>>
        ensures entry { option_map entry_in result ≡ slice_get self.now.entries k }
        ensures whole { IfSome result (λ entry. length entry.page.now ≡ 4096) }
        ensures aligned { IfSome result (λ entry. entry.gpa % 4096 ≡ 0) }
    {
        if k as usize >= self.entries.len() {
            return None;
        }
        let row = self.entries[k as usize];
        Some(EntryView {
            gpa: row.gpa,
            page: self.region.page(k),
            tag: row.tag,
            extended: row.extended,
        })
    }

    /// Lends context `k`, with its 4,096 bytes; the first is number 0. None past the last.
    pub fn context_at(&self, k: u32) -> Option<ContextView<'_>>
        ensures context { option_map context_in result ≡ slice_get self.now.contexts k }
        ensures whole { IfSome result (λ context. length context.page.now ≡ 4096) }
    {
        if k as usize >= self.contexts.len() {
            return None;
        }
        let row = self.contexts[k as usize];
        Some(ContextView {
            vp: row.vp,
            gpa: row.gpa,
            page: self.region.page(self.entry_slots + k),
        })
    }
}
