//! The list as a whole.
ghost use Rattle.std.specs.Prelude.{◌≡◌, ◌≤◌, IfOk};
ghost use Rattle.made_list.specs.MadeList.{made_list};

use crate::head::push_head;
use crate::pages::push_pages;
use crate::tail::push_tail;
use component_list::ComponentList;
use igvm_headers::Memory;
use std::alloc::Global;

/// The list of `n` pages of 4,096 bytes, with 11 components beside them.
#[tactic(auto, unfolding(crate::specs::MadeList::made_parts))]
pub fn make_list(alloc: Global, n: u32) -> Result<ComponentList, Memory>
    requires some { 1 ≤ n }
    requires few { n ≤ 100000 }
    ensures { IfOk result (λ list. list ≡ made_list n) }
{
    let mut parts = Vec::new(alloc);
    push_head(alloc, &mut parts, n)?;
    push_pages(alloc, &mut parts, n)?;
    push_tail(alloc, &mut parts)?;
    Ok(ComponentList::of_valid(parts))
}
