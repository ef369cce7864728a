//! The components of a list, with the files that it names.
ghost use Rattle.std.specs.Prelude.{◌≡◌, ◌≢◌, ◌≤◌, ◌<◌, ◌⊎◌, ℕ, List, [], ◌∷◌, true, false, length, take, is_some, option_map, Some, Ok, Err, IfSome, IfOk, IfErr, OnOk};
ghost use Rattle.igvm_headers.specs.FaultCounts.{Rose};
ghost use Rattle.igvm_outside.specs.Files.{NeverFalls, IsUnwritten};
ghost use Rattle.component_list.specs.Lists.{IsValid};
ghost use Rattle.component_list.specs.Expansion.{bytes_or_none, expand_of, file_of, given_by, names_file, FollowsFiles, IsReached, ReadHasCause, IsGivenRight};

use crate::list::ComponentList;
use crate::progress::Progress;
use crate::refusal::ExpandRefusal;
use crate::source::{Directive, ListSource};
use igvm_outside::{ReadRefusal, Shelf, read_all};
use std::alloc::Global;

/// The most bytes of a file that a list names.
const FILE_LIMIT: u64 = 536_870_912;

/// The components of a list: its files are read in the order of its directives, and the first
/// refusal stands.
#[tactic(auto, unfolding(crate::specs::Expansion::expand_of))]
pub fn expand<S: Shelf>(
    alloc: Global,
    source: &ListSource,
    shelf: &mut S,
) -> Result<ComponentList, ExpandRefusal>
    ensures list { IfOk result (λ list. IfSome (S.told shelf.old)
        (λ files. expand_of source.now files ≡ Ok list)) }
    ensures refused { IfErr result (λ e. FollowsFiles e → IfSome (S.told shelf.old)
        (λ files. expand_of source.now files ≡ Err e)) }

    // A file that is not read has its cause, and the directives before its own expand; one that is
    // too long is known by what it gave.
    ensures cause { IfErr result (λ e. ReadHasCause source.now.directives
        (S.read_faults shelf.old) (S.read_faults shelf.new) e) }
    ensures reached { IfErr result (λ e. IfSome (S.told shelf.old)
        (λ files. IsReached source.now files e)) }
    ensures given { IfErr result (λ e.
        IsGivenRight source.now.directives (S.given shelf.new) e) }
    ensures short { OnOk result (names_file source.now.directives ≡ true
        → S.given shelf.new ≤ 536870912) }
    ensures no_file { names_file source.now.directives ≡ false
        → S.given shelf.new ≡ S.given shelf.old }

    // The files stay, no count falls, and nothing is left being written.
    ensures kept { S.told shelf.new ≡ S.told shelf.old }
    ensures reads { NeverFalls (S.read_faults shelf.old) (S.read_faults shelf.new) }
    ensures writes { NeverFalls (S.write_faults shelf.old) (S.write_faults shelf.new) }
    ensures unwritten { IsUnwritten (S.state shelf.old) → IsUnwritten (S.state shelf.new) }
{
    let Ok(mut progress) = Progress::begin(alloc, source) else {
        return Err(ExpandRefusal::Memory);
    };
    let directives = source.directives();
    'directives: for (item, directive) in directives.iter().enumerate() {
        let item = item as u32;
        let file = match read_file(alloc, shelf, item, directive) {
            Ok(file) => file,
            Err(refusal) => return Err(refusal),
        };
        match progress.add(alloc, item, directive, file) {
            Ok(()) => {}
            Err(refusal) => return Err(refusal),
        }
    }
    progress.finish(source)
}

/// The file of a directive, where it names one.
fn read_file<S: Shelf>(
    alloc: Global,
    shelf: &mut S,
    item: u32,
    directive: &Directive,
) -> Result<Option<Vec<u8>>, ExpandRefusal>
    ensures file { IfOk result (λ file. IfSome (S.told shelf.old) (λ files.
        given_by files item (file_of directive.now) ≡ Ok (option_map (λ v. v.items) file))) }
    ensures refused { IfErr result (λ e. FollowsFiles e → IfSome (S.told shelf.old)
        (λ files. given_by files item (file_of directive.now) ≡ Err e)) }
    ensures few { IfOk result (λ file.
        length (bytes_or_none (option_map (λ v. v.items) file)) ≤ 536870912) }
    ensures cause { IfErr result (λ e. e ≡ ExpandRefusal.Read item → (name : List ℕ)
        × (file_of directive.now ≡ Some name)
        × Rose (S.read_faults shelf.old name) (S.read_faults shelf.new name)) }
    ensures which { IfErr result (λ e. (e ≡ ExpandRefusal.Read item)
        ⊎ ((e ≡ ExpandRefusal.TooLong item) ⊎ (e ≡ ExpandRefusal.Memory))) }
    ensures too_long { IfErr result (λ e. e ≡ ExpandRefusal.TooLong item
        → 536870912 < S.given shelf.new) }
    ensures short { OnOk result (is_some (file_of directive.now) ≡ true
        → S.given shelf.new ≤ 536870912) }
    ensures same { is_some (file_of directive.now) ≡ false
        → S.given shelf.new ≡ S.given shelf.old }
    ensures kept { S.told shelf.new ≡ S.told shelf.old }
    ensures reads { NeverFalls (S.read_faults shelf.old) (S.read_faults shelf.new) }
    ensures writes { NeverFalls (S.write_faults shelf.old) (S.write_faults shelf.new) }
    ensures unwritten { IsUnwritten (S.state shelf.old) → IsUnwritten (S.state shelf.new) }
{
    let Some(name) = name_of(directive) else {
        return Ok(None);
    };
    match read_all(alloc, shelf, name, FILE_LIMIT) {
        Ok(bytes) => Ok(Some(bytes)),
        Err(ReadRefusal::TooLong) => Err(ExpandRefusal::TooLong { item }),
        Err(ReadRefusal::Failed) => Err(ExpandRefusal::Read { item }),
        Err(ReadRefusal::Memory) => Err(ExpandRefusal::Memory),
    }
}

/// The name of a directive's file, where it names one.
fn name_of(directive: &Directive) -> Option<&str>
    ensures { option_map (λ name. name.now) result ≡ file_of directive.now }
{
    match directive {
        Directive::Pages { file, .. } => Some(file.as_str()),
        Directive::Area { file, .. } | Directive::Context { file, .. } => match file {
            None => None,
            Some(name) => Some(name.as_str()),
        },
        _ => None,
    }
}
