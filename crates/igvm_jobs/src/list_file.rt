//! The components of a list's file: its text is read whole, and then by docs/LIST.md.
ghost use Rattle.std.specs.Prelude.{◌≡◌, ℕ, List, ◌≤◌, length, IfOk, IfErr, IfSome, OnOk};
ghost use Rattle.std.specs.FinMap as map;
ghost use Rattle.igvm_outside.specs.Files.{IsUnwritten};
ghost use Rattle.igvm_outside.specs.ShelfCalls.{IsRead, OnlyReads};
ghost use Rattle.component_list.specs.Lists.{ImageParts};
ghost use Rattle.igvm_jobs.specs.Outcome.{Outcome};
ghost use Rattle.igvm_jobs.specs.ListFiles.{text_outcome, list_outcome, list_limit, list_part};
ghost use Rattle.igvm_jobs.specs.ImageFiles.{file_limit};
ghost use Rattle.igvm_jobs.specs.ListRefusals.{IsOfList, IsOfExpansion};
ghost use Rattle.igvm_jobs.specs.Endings.{Stops};

use crate::file_reading::read_file;
use crate::refusal::{LimitOf, Refusal, line_refusal};
use crate::texts::{entry_text, field_text, not_json_text, part_text};
use component_list::{ComponentList, ExpandRefusal, ListRefusal, expand, read_list};
use igvm_outside::{Shelf, reads_compose};
use std::alloc::Global;

/// The most bytes that the text of a component list may have.
const LIST_LIMIT: u64 = 16_777_216;

/// The components of a list's file, or why there are none.
pub fn read_parts<S: Shelf>(
    alloc: Global,
    list: &str,
    shelf: &mut S,
) -> Result<ComponentList, Refusal>
    ensures parts { IfOk result (λ parts. IfSome (S.told shelf.old) (λ files. (next : ImageParts → Outcome)
        → list_outcome files next (map.get files list.now) ≡ next parts)) }
    ensures given { OnOk result (S.given shelf.new ≤ file_limit) }
    ensures refused { (next : ImageParts → Outcome) → IfErr result (λ refusal.
        Stops S.Shelf (list_part list.now next) refusal shelf.old shelf.new) }
    ensures only_reads { OnlyReads S.Shelf shelf.old shelf.new }
    ensures unwritten { IsUnwritten (S.state shelf.new) }
{
    // A law: nothing runs.
    reads_compose::<S>();
    let text = read_text(alloc, list, shelf)?;
    text_parts(alloc, text.as_slice(), shelf)
}

/// The text of a list's file, or why there is none.
fn read_text<S: Shelf>(alloc: Global, list: &str, shelf: &mut S) -> Result<Vec<u8>, Refusal>
    ensures read { IfOk result (λ bytes.
        IsRead S.Shelf list.now list_limit bytes.items shelf.old shelf.new) }
    ensures refused { (next : ImageParts → Outcome) → IfErr result (λ refusal.
        Stops S.Shelf (list_part list.now next) refusal shelf.old shelf.new) }
    ensures only_reads { OnlyReads S.Shelf shelf.old shelf.new }
    ensures unwritten { IsUnwritten (S.state shelf.new) }
{
    read_file(alloc, shelf, list, LIST_LIMIT, LimitOf::List)
}

/// The components of a list's text, which was read before, or why there are none.
#[tactic(auto, unfolding(crate::specs::ListFiles::text_outcome))]
fn text_parts<S: Shelf>(
    alloc: Global,
    bytes: &[u8],
    shelf: &mut S,
) -> Result<ComponentList, Refusal>
    requires { length bytes.now ≤ list_limit }
    ensures parts { IfOk result (λ parts. IfSome (S.told shelf.old) (λ files. (next : ImageParts → Outcome)
        → text_outcome files next bytes.now ≡ next parts)) }
    ensures given { S.given shelf.old ≤ file_limit
        → OnOk result (S.given shelf.new ≤ file_limit) }
    ensures refused { (list : List ℕ) (next : ImageParts → Outcome) (before : S)
        → IsRead S.Shelf list list_limit bytes.now before shelf.old
        → IfErr result (λ refusal.
        Stops S.Shelf (list_part list next) refusal before shelf.new) }
    ensures only_reads { OnlyReads S.Shelf shelf.old shelf.new }
{
    let source = match read_list(alloc, bytes) {
        Ok(source) => source,
        Err(refusal) => return Err(list_refusal(alloc, refusal)),
    };
    match expand(alloc, &source, shelf) {
        Ok(parts) => Ok(parts),
        Err(refusal) => Err(expand_refusal(alloc, refusal)),
    }
}

/// What a list that is not read gives.
fn list_refusal(alloc: Global, refusal: ListRefusal) -> Refusal
    ensures { IsOfList refusal result }
{
    match refusal {
        ListRefusal::NotJson => line_refusal(not_json_text(alloc)),
        ListRefusal::Field { part, item } => line_refusal(field_text(alloc, part_text(part), item)),
        ListRefusal::Memory => Refusal::Memory,
    }
}

/// What a list that is not expanded gives.
fn expand_refusal(alloc: Global, refusal: ExpandRefusal) -> Refusal
    ensures { IsOfExpansion refusal result }
{
    match refusal {
        ExpandRefusal::Read { .. } => Refusal::Shelf,
        ExpandRefusal::TooLong { .. } => Refusal::Limit(LimitOf::Blob),
        ExpandRefusal::TooLarge { .. } => Refusal::Limit(LimitOf::Data),
        ExpandRefusal::Rule { part, item, what } => line_refusal(entry_text(
            alloc, part, item, what,
        )),
        ExpandRefusal::Memory => Refusal::Memory,
    }
}
