//! What the rules on a list say of each header that is written.
ghost use Rattle.std.specs.List.{AllByRecursion};
ghost use Rattle.component_list.specs.Lists.{IsValid};
ghost use Rattle.igvm_headers.specs.SpellingConditions.{IsSpellable};

use component_list::Component;

/// Each header of a valid list has a spelling that is read again.
pub(crate) fn note_spellable(parts: &[Component])
    requires { IsValid parts.now }
    ensures { AllByRecursion (λ c. IsSpellable c.header c.tail) parts.now }
{}
