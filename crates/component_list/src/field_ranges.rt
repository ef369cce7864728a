//! What the types of a component say of its numbers, as facts that a caller sees.
ghost use Rattle.std.specs.Prelude.{◌≡◌};
ghost use Rattle.igvm_headers.specs.HeaderFacts.{data_offset};
ghost use Rattle.igvm_headers.specs.SpellingConditions.{ListsAreBytes};
ghost use Rattle.component_list.specs.Ranges.{HoldsBytes, IsComponent};

use crate::blob::note_bytes;
use crate::component::{Component, Content};
use igvm_headers::{Header, numbers_fit};

/// A component at file offset 0 has numbers that fit their fields, and bytes.
pub(crate) fn note_component(component: &Component)
    requires { data_offset component.now.header ≡ 0 }
    ensures { IsComponent component.now }
{
    numbers_fit(component.header);
    note_lists(component.header);
    note_bytes(component.tail.bytes());
    note_content(&component.content);
}

fn note_content(content: &Content)
    ensures { HoldsBytes content.now }
{
    if let Content::Bytes(blob) = content {
        note_bytes(blob.bytes());
    }
}

/// The three lists of an ID block are bytes.
fn note_lists(header: Header)
    ensures { ListsAreBytes header }
{
    if let Header::IdBlock {
        ld,
        family_id,
        image_id,
        ..
    } = header
    {
        note_bytes(ld.bytes());
        note_bytes(&family_id);
        note_bytes(&image_id);
    }
}
