//! What stands behind the pages.
ghost use Rattle.std.specs.Prelude.{◌≡◌, ◌++◌, [], ◌∷◌, OnOk, false};
ghost use Rattle.igvm_headers.specs.declared.header.Header.TheVariants.{Page};
ghost use Rattle.component_list.specs.declared.component.Content.TheVariants.{Zero};
ghost use Rattle.made_list.specs.MadeList.{made_tail, part};

use crate::context::context_bytes;
use crate::part::push_part;
use component_list::{Blob, Component, Content};
use igvm_headers::{Header, Memory, PageKind};
use std::alloc::Global;

/// The pages of secrets and of CPUID, the area and the context, behind the parts.
#[tactic(auto, unfolding(crate::specs::MadeList::made_tail))]
pub(crate) fn push_tail(alloc: Global, parts: &mut Vec<Component>) -> Result<(), Memory>
    ensures { OnOk result (parts.new.items ≡ parts.old.items ++ made_tail) }
{
    push_host_page(alloc, parts, 0xF_1000, PageKind::Secrets)?;
    push_host_page(alloc, parts, 0xF_2000, PageKind::Cpuid)?;
    let insert = Header::Insert {
        gpa: 0xF_0000,
        mask: 3,
        area: 0,
    };
    push_part(alloc, parts, insert, Content::Nothing)?;
    let context = Header::Context {
        gpa: 0xFFFF_FFFF_F000,
        mask: 1,
        offset: 0,
        vp: 0,
    };
    let bytes = context_bytes(alloc)?;
    push_part(alloc, parts, context, Content::Bytes(Blob::of_vec(bytes)))
}

/// A page that the host fills, behind the parts.
fn push_host_page(
    alloc: Global,
    parts: &mut Vec<Component>,
    gpa: u64,
    kind: PageKind,
) -> Result<(), Memory>
    ensures { OnOk result (parts.new.items
        ≡ parts.old.items ++ part (Page gpa 1 0 false false kind) Zero ∷ []) }
{
    let header = Header::Page {
        gpa,
        mask: 1,
        offset: 0,
        large: false,
        unmeasured: false,
        kind,
    };
    push_part(alloc, parts, header, Content::Zero)
}
