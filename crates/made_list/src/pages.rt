//! The pages.
ghost use Rattle.std.specs.Prelude.{◌≡◌, ◌≤◌, ◌<◌, ◌++◌, [], ◌∷◌, OnOk};
ghost use Rattle.made_list.specs.MadeList.{made_page, made_pages};

use crate::page::page_bytes;
use crate::part::push_part;
use component_list::{Blob, Component, Content};
use igvm_headers::{Header, Memory, PageKind};
use std::alloc::Global;

/// Pages 0 to `n` - 1, behind the parts.
pub(crate) fn push_pages(alloc: Global, parts: &mut Vec<Component>, n: u32) -> Result<(), Memory>
    requires { n ≤ 100000 }
    ensures { OnOk result (parts.new.items ≡ parts.old.items ++ made_pages n) }
{
    'pages: for k in 0..n {
        push_page(alloc, parts, k)?;
    }
    Ok(())
}

/// Page `k`, behind the parts.
#[tactic(auto, unfolding(crate::specs::MadeList::made_page))]
fn push_page(alloc: Global, parts: &mut Vec<Component>, k: u32) -> Result<(), Memory>
    requires { k < 100000 }
    ensures { OnOk result (parts.new.items ≡ parts.old.items ++ made_page k ∷ []) }
{
    let header = Header::Page {
        gpa: 0x10_0000 + 4096 * u64::from(k),
        mask: 7,
        offset: 0,
        large: false,
        unmeasured: k % 5 == 4,
        kind: PageKind::Normal,
    };
    let bytes = page_bytes(alloc, k)?;
    push_part(alloc, parts, header, Content::Bytes(Blob::of_vec(bytes)))
}
