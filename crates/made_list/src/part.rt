//! One component more.
ghost use Rattle.std.specs.Prelude.{◌≡◌, ◌++◌, [], ◌∷◌, OnOk};
ghost use Rattle.made_list.specs.MadeList.{part};

use component_list::{Blob, Component, Content};
use igvm_headers::{Header, Memory};
use std::alloc::Global;

/// A header with its data, of which nothing is carried unread, behind the parts.
pub(crate) fn push_part(
    alloc: Global,
    parts: &mut Vec<Component>,
    header: Header,
    content: Content,
) -> Result<(), Memory>
    ensures { OnOk result (parts.new.items ≡ parts.old.items ++ part header content ∷ []) }
{
    parts.push(Component {
        header,
        tail: Blob::of_vec(Vec::new(alloc)),
        content,
    })?;
    Ok(())
}
