//! The components of a list as far as its directives are expanded.
ghost use Rattle.std.specs.Prelude.{◌≡◌, ◌≢◌, ◌≤◌, ◌<◌, ◌^◌, length, Ok, Err, option_map, OnOk, IfOk, IfErr};
ghost use Rattle.std.specs.List.{AllByRecursion};
ghost use Rattle.igvm_headers.specs.HeaderFacts.{data_offset};
ghost use Rattle.component_list.specs.Expansion.{added, begun, bytes_or_none, judged, IsOfDirective, IsRule};

use crate::component::Component;
use crate::directive_sizes::{breaks_end, breaks_size, content_bytes, lent, pages_named};
use crate::entry_of_component::origin;
use crate::list::ComponentList;
use crate::parts::{push_headers, push_parts};
use crate::refusal::{ExpandRefusal, ListPart};
use crate::source::{Directive, ListSource};
use igvm_headers::{Memory, ReadWhat};
use std::alloc::Global;
use std::marker::Model;

/// The most pages of 4 KB that `pages` and `zero` name.
const MOST_PAGES: u64 = 4_194_304;

/// The most bytes of all contents.
const MOST_BYTES: u64 = 1_073_741_824;

/// What is expanded so far.
#[derive(Drop)]
pub(crate) struct Progress {
    parts: Vec<Component>,
    ends: Vec<u32>,
    pages: u64,
    bytes: u64,
}

impl Model for Progress {
    ghost use Rattle.component_list.specs.Expansion.{Progress};

    ghost Value = { Progress };

    ghost view = { λ p. record {
      parts = p.parts.items;
      ends = p.ends.items;
      pages = p.pages;
      bytes = p.bytes;
    } };
}

impl Progress {
    /// Before the first directive.
    pub(crate) fn begin(alloc: Global, source: &ListSource) -> Result<Progress, Memory>
        ensures { IfOk result (λ p. p ≡ begun source.now) }
    {
        let mut parts = Vec::new(alloc);
        push_headers(alloc, &mut parts, source.platforms())?;
        push_headers(alloc, &mut parts, source.policies())?;
        Ok(Progress {
            parts,
            ends: Vec::new(alloc),
            pages: 0,
            bytes: 0,
        })
    }

    /// Behind the last directive: the list, or the first rule that a component breaks, at the entry
    /// that it came from.
    #[tactic(auto, unfolding(crate::specs::Expansion::judged))]
    pub(crate) fn finish(self, source: &ListSource) -> Result<ComponentList, ExpandRefusal>
        requires few { length self.parts < 2 ^ 32 }
        requires starts { AllByRecursion (λ c. data_offset c.header ≡ 0) self.parts }
        requires ends { length self.ends ≤ 16777216 }
        ensures list { IfOk result (λ list. judged source.now self ≡ Ok list) }
        ensures refused { IfErr result (λ e. judged source.now self ≡ Err e) }
        ensures rule { IfErr result (λ e. IsRule e) }
    {
        let Progress { parts, ends, .. } = self;
        match ComponentList::from_parts(parts) {
            Ok(list) => Ok(list.with_version(source.version())),
            Err(fault) => {
                let entry = origin(source, ends.as_slice(), fault.place);
                Err(ExpandRefusal::Rule {
                    part: entry.part,
                    item: entry.item,
                    what: fault.what,
                })
            }
        }
    }

    /// One directive more, with the bytes of its file, or the first of its rules that fails.
    #[tactic(auto, unfolding(crate::specs::Expansion::added))]
    pub(crate) fn add(
        &mut self,
        alloc: Global,
        item: u32,
        directive: &Directive,
        file: Option<Vec<u8>>,
    ) -> Result<(), ExpandRefusal>
        requires pages { self.old.pages ≤ 4194304 }
        requires bytes { self.old.bytes ≤ 1073741824 }
        requires few { length self.old.parts ≤ 1073741824 }
        requires short { length (bytes_or_none (option_map (λ v. v.items) file)) ≤ 536870912 }
        ensures added { OnOk result (added item directive.now (option_map (λ v. v.items) file)
            self.old ≡ Ok self.new) }
        ensures refused { IfErr result (λ e. e ≢ ExpandRefusal.Memory
            → added item directive.now (option_map (λ v. v.items) file) self.old ≡ Err e) }
        ensures which { IfErr result (IsOfDirective item) }
    {
        let bytes = lent(&file);
        if breaks_size(directive, bytes) {
            return Err(rule(item, ReadWhat::Length));
        }
        if breaks_end(directive, bytes) {
            return Err(rule(item, ReadWhat::Wrap));
        }
        let pages = self.pages + pages_named(directive, bytes);
        if pages > MOST_PAGES {
            return Err(rule(item, ReadWhat::TooManyPages));
        }
        let size = self.bytes + content_bytes(directive, bytes);
        if size > MOST_BYTES {
            return Err(ExpandRefusal::TooLarge { item });
        }
        let Ok(()) = push_parts(alloc, &mut self.parts, directive, file) else {
            return Err(ExpandRefusal::Memory);
        };
        if self.ends.push(self.parts.len() as u32).is_err() {
            return Err(ExpandRefusal::Memory);
        }
        self.pages = pages;
        self.bytes = size;
        Ok(())
    }
}

/// The refusal of a directive by a rule.
fn rule(item: u32, what: ReadWhat) -> ExpandRefusal
    ensures { result ≡ ExpandRefusal.Rule ListPart.Directives item what }
{
    ExpandRefusal::Rule {
        part: ListPart::Directives,
        item,
        what,
    }
}
