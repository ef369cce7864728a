//! The rules on the components of a list, in their order: docs/LIST.md has them in words.
ghost use Rattle.std.specs.Prelude.{◌≡◌, ◌<◌, ◌≤◌, ◌^◌, Some, None, length, if◌then◌else◌, OnOk, IfErr};
ghost use Rattle.std.specs.List.{AllByRecursion};
ghost use Rattle.component_list.specs.Components.{is_unknown, carried_kind, fills, is_nothing, fits_content, breaks_length, breaks_data_type};
ghost use Rattle.igvm_headers.specs.HeaderFacts.{data_offset};
ghost use Rattle.component_list.specs.Ranges.{IsComponent};
ghost use Rattle.component_list.specs.Lists.{component_fault, list_fault, IsValid};

use crate::component::{Component, Content};
use crate::field_ranges::note_component;
use crate::list_fault::ListFault;
use igvm_headers::{Header, PageKind, ReadWhat, is_carried};
use igvm_image::SeenHeaders;

/// The first fault of a list of components.
pub(crate) fn judge(parts: &[Component]) -> Result<(), ListFault>
    requires few { length parts.now < 2 ^ 32 }
    requires offsets { AllByRecursion (λ c. data_offset c.header ≡ 0) parts.now }
    ensures valid { OnOk result (IsValid parts.now) }
    ensures fault { IfErr result (λ e. list_fault parts.now ≡ Some e) }
{
    let mut seen = SeenHeaders::new();
    'parts: for (place, component) in parts.iter().enumerate() {
        // A law: nothing runs.
        note_component(component);
        if let Some(what) = component_fault(&seen, component) {
            let place = place as u32;
            return Err(ListFault { place, what });
        }
        seen.push(&component.header);
    }
    if seen.platforms().count() == 0 {
        let place = parts.len() as u32;
        let what = ReadWhat::NoPlatform;
        return Err(ListFault { place, what });
    }
    Ok(())
}

/// The first rule that a component breaks behind those seen.
#[tactic(auto, unfolding(crate::specs::Lists::component_fault))]
fn component_fault(seen: &SeenHeaders, component: &Component) -> Option<ReadWhat>
    ensures { result ≡ component_fault seen.now component.now }
{
    if let Some(kind) = unknown_kind(&component.header) {
        return Some(ReadWhat::UnknownType { kind });
    }
    if breaks_length(component) {
        return Some(ReadWhat::Length);
    }
    if breaks_data_type(&component.header) {
        return Some(ReadWhat::DataType);
    }
    // Data at file offset 0 lie inside whatever the total size.
    seen.rule_fault(0, &component.header)
}

/// The type of a header that is neither known nor carried unread.
fn unknown_kind(header: &Header) -> Option<u32>
    ensures { result
        ≡ (if is_unknown header.now then Some (carried_kind header.now) else None) }
{
    match header {
        Header::Carried { kind, .. } => if is_carried(*kind) { None } else { Some(*kind) },
        _ => None,
    }
}

/// The tail or the content has another size than the header's.
fn breaks_length(component: &Component) -> bool
    ensures { result ≡ breaks_length component.now }
{
    component.tail.bytes().len() != component.header.tail_size() as usize
        || !fits_content(&component.header, &component.content)
}

/// The content is of the header's size, or there is none where the header has no data.
fn fits_content(header: &Header, content: &Content) -> bool
    ensures { result ≡ fits_content header.now content.now }
{
    match header.data_size() {
        Some(size) => fills(size, content),
        None => is_nothing(content),
    }
}

/// Data of this size are all zeros, or exactly so many bytes.
fn fills(size: u64, content: &Content) -> bool
    ensures { result ≡ fills size content.now }
{
    match content {
        Content::Nothing => false,
        Content::Zero => true,
        Content::Bytes(blob) => blob.bytes().len() as u64 == size,
    }
}

fn is_nothing(content: &Content) -> bool
    ensures { result ≡ is_nothing content.now }
{
    matches!(content, Content::Nothing)
}

/// A 2 MB page is not a normal one.
fn breaks_data_type(header: &Header) -> bool
    ensures { result ≡ breaks_data_type header.now }
{
    match header {
        Header::Page { large, kind, .. } => *large && !matches!(kind, PageKind::Normal),
        _ => false,
    }
}
