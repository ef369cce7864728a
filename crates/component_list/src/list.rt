//! A list of components that breaks no rule.
ghost use Rattle.std.specs.Prelude.{◌≡◌, ◌↔◌, ◌<◌, ◌^◌, ◌==◌, ◌&&◌, IsTrue, true, Some, length, slice_get, OnOk, IfOk, IfErr};
ghost use Rattle.std.specs.Option.{option_map};
ghost use Rattle.std.specs.List.{AllByRecursion};
ghost use Rattle.std.specs.Cmp.Lexicographic.{pointwise, lists_per, lists_equiv};
ghost use Rattle.igvm_headers.specs.HeaderFacts.{data_offset};
ghost use Rattle.std.specs.Cmp.{on_per, and_per, on_equiv, and_equiv, nat_eq_equiv, partial_equiv_from_equiv};
ghost use Rattle.igvm_headers.specs.Fixed.{is_version};
ghost use Rattle.component_list.specs.Lists.{list_fault, IsValid};

use crate::component::Component;
use crate::list_fault::ListFault;
use crate::list_rules::judge;
use igvm_headers::equal_headers_are_one;
use std::marker::Model;

/// The components of an image in file order, and the version of the format that it is written in:
/// contracts see both. The components break no rule of docs/LIST.md, and the version is 1 or 2.
#[derive(Drop)]
pub struct ComponentList {
    version: u32,
    parts: Vec<Component>,
}

impl Model for ComponentList {
    ghost use Rattle.component_list.specs.Lists.{ImageParts, IsList};

    ghost Value = { ImageParts };

    ghost view = { λ l. record { version = l.version; parts = l.parts.items } };

    ghost invariant = { λ l. IsList (record { version = l.version; parts = l.parts.items }) };
}

impl ComponentList {
    /// The list of these components, of version 1, or the first rule that one of them breaks. It
    /// takes no memory.
    pub fn from_parts(parts: Vec<Component>) -> Result<ComponentList, ListFault>
        requires few { length parts.items < 2 ^ 32 }
        requires offsets { AllByRecursion (λ c. data_offset c.header ≡ 0) parts.items }
        ensures list { IfOk result (λ list. list ≡ record { version = 1; parts = parts.items }) }
        ensures valid { OnOk result (IsValid parts.items) }
        ensures fault { IfErr result (λ e. list_fault parts.items ≡ Some e) }
    {
        match judge(parts.as_slice()) {
            Ok(()) => Ok(ComponentList::of_valid(parts)),
            Err(fault) => Err(fault),
        }
    }

    /// The list of components that are known to break no rule, of version 1. It takes no memory.
    pub fn of_valid(parts: Vec<Component>) -> ComponentList
        requires { IsValid parts.items }
        ensures { result ≡ record { version = 1; parts = parts.items } }
    {
        ComponentList { version: 1, parts }
    }

    /// The version of the format, 1 or 2.
    pub fn version(&self) -> u32
        ensures value { result ≡ self.now.version }
        ensures known { is_version result ≡ true }
    {
        self.version
    }

    /// The same components in a version of the format, 1 or 2. It takes no memory.
    pub fn with_version(self, version: u32) -> ComponentList
        requires { is_version version ≡ true }
        ensures { result ≡ record { version = version; parts = self.parts } }
    {
        let parts = self.into_parts();
        ComponentList { version, parts }
    }

    /// The components. It takes no memory.
    pub fn into_parts(self) -> Vec<Component>
        ensures parts { result.items ≡ self.parts }
        ensures valid { IsValid self.parts }
    {
        self.parts
    }

    /// How many components there are.
    pub fn len(&self) -> u32
        ensures { result ≡ length self.now.parts }
    {
        self.components().len() as u32
    }

    /// Component `k`, counted from 0, or None past the end.
    pub fn component(&self, k: u32) -> Option<&Component>
        ensures { option_map (λ c. c.now) result ≡ slice_get self.now.parts k }
    {
        self.components().get(k as usize)
    }

    /// All components in order.
    pub fn components(&self) -> &[Component]
        ensures value { result.now ≡ self.now.parts }
        ensures valid { IsValid self.now.parts }
    {
        self.parts.as_slice()
    }
}

impl PartialEq for ComponentList {
    ghost use Rattle.component_list.specs.contracts.component.ComponentPartialEq.TheImpl.Laws.{laws-law};

    ghost eq = { λ a b. (a.version == b.version)
        && pointwise ⟦<Component as PartialEq>⟧.eq a.parts b.parts };

    ghost laws = { and_per (on_per (λ l. l.version) (partial_equiv_from_equiv nat_eq_equiv))
        (on_per (λ l. l.parts) (lists_per laws-law)) };

    fn eq(&self, other: &ComponentList) -> bool
        ensures answer { result ≡ ((self.now.version == other.now.version)
            && pointwise ⟦<Component as PartialEq>⟧.eq self.now.parts other.now.parts) }
        ensures exact { IsTrue result ↔ (self.now ≡ other.now) }
    {
        // A law: nothing runs.
        equal_headers_are_one();
        self.version == other.version && self.components() == other.components()
    }
}

impl Eq for ComponentList {
    ghost use Rattle.component_list.specs.contracts.component.ComponentEq.TheImpl.Laws.{laws-law};

    ghost laws = { and_equiv (on_equiv (λ l. l.version) nat_eq_equiv)
        (on_equiv (λ l. l.parts) (lists_equiv laws-law)) };
}
