//! The list of an image.
ghost use Rattle.std.specs.Prelude.{◌≡◌, OnOk, IfOk};
ghost use Rattle.igvm_headers.specs.HeaderFacts.{data_offset, header_tail};
ghost use Rattle.component_list.specs.ImageList.{data_bytes, stored, content_of, component_of, list_of};
ghost use Rattle.component_list.specs.Lists.{IsList};
ghost use Rattle.component_list.specs.Ranges.{IsComponent};
ghost use Rattle.igvm_image.specs.PlacedView.{placed_view};

use crate::blob::Blob;
use crate::component::{Component, Content};
use crate::field_ranges::note_component;
use crate::list::ComponentList;
use crate::slices::behind;
use igvm_headers::{Header, Memory, PAGE_SIZE, what_is_read};
use igvm_image::{DataView, ImageView, Placed};
use std::alloc::Global;

/// The fields of an ID block in front of the bytes that are carried unread.
const ID_BLOCK_FIELDS: usize = 104;

/// The list of an accepted image: each header with file offset 0, and its data, which are zeros
/// where the file does not hold them.
#[tactic(auto, using(crate::proofs::ImageLists::image_version_known))]
pub fn components_of(alloc: Global, view: &ImageView) -> Result<ComponentList, Memory>
    ensures list { IfOk result (λ list. list ≡ list_of view.now) }
    ensures valid { OnOk result (IsList (list_of view.now)) }
{
    // A law: nothing runs.
    what_is_read();
    // A file that is viewed is accepted.
    let fixed = view.fixed();
    let mut parts = Vec::new(alloc);
    'headers: for placed in view.headers() {
        let component = component_of(alloc, &placed)?;
        // A law: nothing runs.
        note_component(&component);
        parts.push(component)?;
    }
    Ok(ComponentList::of_valid(parts).with_version(fixed.version))
}

/// The component of a header.
fn component_of(alloc: Global, placed: &Placed<'_>) -> Result<Component, Memory>
    ensures component { IfOk result (λ c. c ≡ component_of (placed_view placed.now)) }
    ensures offset { IfOk result (λ c. data_offset c.header ≡ 0) }
{
    let tail = tail_of(alloc, &placed.header, placed.raw)?;
    let content = content_of(alloc, &placed.header, &placed.content)?;
    Ok(Component {
        header: placed.header.with_offset(0),
        tail,
        content,
    })
}

/// What a header's record carries unread, of its content in the file.
fn tail_of(alloc: Global, header: &Header, raw: &[u8]) -> Result<Blob, Memory>
    ensures { IfOk result (λ blob. blob ≡ header_tail header.now raw.now) }
{
    let mut bytes = Vec::new(alloc);
    bytes.extend_from_slice(carried_bytes(header, raw))?;
    Ok(Blob::of_vec(bytes))
}

/// The same, lent.
fn carried_bytes<'a>(header: &Header, raw: &'a [u8]) -> &'a [u8]
    ensures { result.now ≡ header_tail header.now raw.now }
{
    match header {
        Header::IdBlock { .. } => behind(raw, ID_BLOCK_FIELDS),
        Header::Carried { .. } => raw,
        _ => &[],
    }
}

/// A header's data, where it has any.
fn content_of(alloc: Global, header: &Header, view: &DataView<'_>) -> Result<Content, Memory>
    ensures { IfOk result (λ content. content ≡ content_of header.now view.now) }
{
    match header.data_size() {
        Some(_) => stored(alloc, header.data_offset(), view),
        None => Ok(Content::Nothing),
    }
}

/// Data at a file offset.
fn stored(alloc: Global, offset: u32, view: &DataView<'_>) -> Result<Content, Memory>
    ensures { IfOk result (λ content. content ≡ stored offset view.now) }
{
    if offset == 0 {
        return Ok(Content::Zero);
    }
    let bytes = data_bytes(alloc, view)?;
    Ok(Content::Bytes(Blob::of_vec(bytes)))
}

/// All bytes of the data, page by page.
fn data_bytes(alloc: Global, view: &DataView<'_>) -> Result<Vec<u8>, Memory>
    ensures { IfOk result (λ bytes. bytes.items ≡ data_bytes view.now) }
{
    let size = (view.pages() as usize).saturating_mul(PAGE_SIZE as usize);
    let mut bytes = Vec::with_capacity(alloc, size)?;
    let mut page = [0; PAGE_SIZE as usize];
    'pages: for k in 0..view.pages() {
        view.page(k).fill(&mut page);
        bytes.extend_from_slice(&page)?;
    }
    Ok(bytes)
}
