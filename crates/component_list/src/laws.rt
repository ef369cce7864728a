//! What holds of every list, each law as the contract of a function that does nothing.
ghost use Rattle.std.specs.Prelude.{◌≡◌, ℕ, ◌+◌, ◌*◌, ◌≤◌, ◌==◌, ◌↔◌, ◌⊎◌, Err, List, IsTrue, None, Some, false, true, length, map};
ghost use Rattle.igvm_headers.specs.Fixed.{is_version};
ghost use Rattle.igvm_headers.specs.declared.header.Header.{Header};
ghost use Rattle.igvm_image.specs.HeaderRules.{Seen, seen_of, rule_fault, breaks_data};
ghost use Rattle.igvm_headers.specs.Numbers.{slice};
ghost use Rattle.igvm_image.specs.Data.{Data};
ghost use Rattle.igvm_image.specs.Headers.{IsAccepted};
ghost use Rattle.component_list.specs.declared.component.Component.{Component};
ghost use Rattle.igvm_headers.specs.HeaderFacts.{with_offset};
ghost use Rattle.component_list.specs.Lists.{ImageParts, list_fault};
ghost use Rattle.igvm_outside.specs.Files.{Files};
ghost use Rattle.component_list.specs.declared.refusal.ExpandRefusal.{ExpandRefusal};
ghost use Rattle.component_list.specs.declared.source.Directive.{Directive};
ghost use Rattle.component_list.specs.Source.{Source};
ghost use Rattle.component_list.specs.Expansion.{expand_of, judged};
ghost use Rattle.component_list.specs.FirstRefusal.{progress_at, ArePassed, IsFirstRefusal};
ghost use Rattle.component_list.specs.FirstFault.{IsFirstFault, KeepsRules};
ghost use Rattle.component_list.specs.declared.list_fault.ListFault.{ListFault};
ghost use Rattle.component_list.specs.ImageList.{data_bytes, list_of};

use crate::component::Component;
use crate::list::ComponentList;
use igvm_headers::{equal_headers_are_one, what_is_read};

/// Where a header's data stand in the file changes nothing of what the rules ask of the headers
/// before one, and of the rules only the one on data outside the file.
pub fn offsets_do_not_count()
    ensures seen { (at : ℕ) (hs : List Header) → seen_of (map (with_offset at) hs) ≡ seen_of hs }
    ensures rules { (total other at : ℕ) (seen : Seen) (h : Header)
        → rule_fault total seen h ≡ None → breaks_data other (with_offset at h) ≡ false
        → rule_fault other seen (with_offset at h) ≡ None }
    ensures inside { (total : ℕ) (h : Header) → breaks_data total (with_offset 0 h) ≡ false }
{}

/// The list of an accepted file has a version that is known, and breaks no rule.
pub fn image_lists_are_valid()
    ensures version { (file : List ℕ) → IsAccepted file → is_version (list_of file).version ≡ true }
    ensures parts { (file : List ℕ) → IsAccepted file → list_fault (list_of file).parts ≡ None }
{
    what_is_read();
}

/// The first fault of a list: that of the first component that breaks a rule behind those before it,
/// else the lack of a platform. There is none exactly where all is kept.
pub fn first_fault_of_a_list()
    ensures fault { (parts : List Component) (fault : ListFault)
        → (list_fault parts ≡ Some fault) ↔ IsFirstFault parts fault }
    ensures none { (parts : List Component) → (list_fault parts ≡ None) ↔ KeepsRules parts }
{}

/// Where each directive passes, the components are those of all in order, judged together; else the
/// first that doesn't is refused by the first of its steps that fails. One of the two holds.
pub fn expansion_in_words()
    ensures passed { (source : Source) (files : Files)
        → ArePassed files source.directives (length source.directives)
        → expand_of source files
        ≡ judged source (progress_at source files (length source.directives)) }
    ensures refused { (source : Source) (files : Files) (e : ExpandRefusal)
        → IsFirstRefusal files source.directives e → expand_of source files ≡ Err e }
    ensures either { (files : Files) (ds : List Directive) → ArePassed files ds (length ds)
        ⊎ ((e : ExpandRefusal) × IsFirstRefusal files ds e) }
{}

/// Data that lie within a file's body are its bytes from their file offset on.
pub fn data_are_a_slice()
    ensures { (d : Data) → (d.offset == 0) ≡ false → d.offset + 4096 * d.pages ≤ length d.body
        → data_bytes d ≡ slice d.body d.offset (4096 * d.pages) }
{}

/// Components are equal exactly where they are one, and so are lists of them.
pub fn equality_is_exact()
    ensures components { (a b : Component) → IsTrue (⟦<Component as PartialEq>⟧.eq a b) ↔ (a ≡ b) }
    ensures lists { (a b : ImageParts)
        → IsTrue (⟦<ComponentList as PartialEq>⟧.eq a b) ↔ (a ≡ b) }
{
    equal_headers_are_one();
}
