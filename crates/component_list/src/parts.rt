//! The components of a directive.
ghost use Rattle.std.specs.Prelude.{◌≡◌, ◌≤◌, ◌+◌, ◌++◌, [], ◌∷◌, length, map, false, option_map, OnOk, IfOk};
ghost use Rattle.component_list.specs.Expansion.{breaks_end, breaks_size, bytes_or_none, filled, is_longer, pages_named, parts_of, plain_part};

use crate::blob::Blob;
use crate::component::{Component, Content};
use crate::pages::{padded, push_pieces, push_zeros};
use crate::source::Directive;
use igvm_headers::{Header, Memory, PAGE_SIZE};
use std::alloc::Global;

/// Headers without data, behind the parts.
pub(crate) fn push_headers(
    alloc: Global,
    parts: &mut Vec<Component>,
    headers: &[Header],
) -> Result<(), Memory>
    ensures { OnOk result (parts.new.items ≡ parts.old.items ++ map plain_part headers.now) }
{
    'headers: for header in headers {
        let tail = Blob::of_vec(Vec::new(alloc));
        push_part(parts, header.with_offset(0), tail, Content::Nothing)?;
    }
    Ok(())
}

/// The components of a directive, behind the parts.
#[tactic(auto, using(crate::proofs::Added::parts_few))]
pub(crate) fn push_parts(
    alloc: Global,
    parts: &mut Vec<Component>,
    directive: &Directive,
    file: Option<Vec<u8>>,
) -> Result<(), Memory>
    requires short { length (bytes_or_none (option_map (λ v. v.items) file)) ≤ 536870912 }
    requires size { breaks_size directive.now (option_map (λ v. v.items) file) ≡ false }
    requires end { breaks_end directive.now (option_map (λ v. v.items) file) ≡ false }
    ensures pushed { OnOk result (parts.new.items ≡ parts.old.items
        ++ parts_of directive.now (option_map (λ v. v.items) file)) }
    ensures few { length (parts_of directive.now (option_map (λ v. v.items) file))
        ≤ 1 + pages_named directive.now (option_map (λ v. v.items) file) }
{
    match directive {
        Directive::Pages { run, .. } => push_pieces(alloc, parts, run, or_empty(alloc, file)),
        Directive::Zeros { run, count } => push_zeros(alloc, parts, run, *count),
        Directive::Area { area, bytes, .. } => {
            let content = filled(u64::from(*bytes), file)?;
            let header = Header::Area {
                bytes: u64::from(*bytes),
                area: *area,
                offset: 0,
            };
            push_part(parts, header, Blob::of_vec(Vec::new(alloc)), content)
        }
        Directive::Context { gpa, mask, vp, .. } => {
            let content = filled(PAGE_SIZE, file)?;
            let header = Header::Context {
                gpa: *gpa,
                mask: *mask,
                offset: 0,
                vp: *vp,
            };
            push_part(parts, header, Blob::of_vec(Vec::new(alloc)), content)
        }
        Directive::Plain { header, tail } => {
            let tail = copied(alloc, tail)?;
            push_part(parts, header.with_offset(0), tail, Content::Nothing)
        }
    }
}

fn push_part(
    parts: &mut Vec<Component>,
    header: Header,
    tail: Blob,
    content: Content,
) -> Result<(), Memory>
    ensures { OnOk result (parts.new.items ≡ parts.old.items
        ++ record { header = header; tail = tail; content = content } ∷ []) }
{
    parts.push(Component {
        header,
        tail,
        content,
    })?;
    Ok(())
}

/// The same bytes once more.
fn copied(alloc: Global, blob: &Blob) -> Result<Blob, Memory>
    ensures { IfOk result (λ copy. copy ≡ blob.now) }
{
    let mut bytes = Vec::new(alloc);
    bytes.extend_from_slice(blob.bytes())?;
    Ok(Blob::of_vec(bytes))
}

/// The bytes of a file, where there is one.
fn or_empty(alloc: Global, file: Option<Vec<u8>>) -> Vec<u8>
    ensures { result.items ≡ bytes_or_none (option_map (λ v. v.items) file) }
{
    match file {
        None => Vec::new(alloc),
        Some(bytes) => bytes,
    }
}

/// Data of a size: zeros, or a file's bytes, which are not copied.
fn filled(size: u64, file: Option<Vec<u8>>) -> Result<Content, Memory>
    requires { is_longer size (option_map (λ v. v.items) file) ≡ false }
    ensures { IfOk result (λ content. content ≡ filled size (option_map (λ v. v.items) file)) }
{
    match file {
        None => Ok(Content::Zero),
        Some(bytes) => {
            let blob = padded(bytes, size as usize)?;
            Ok(Content::Bytes(blob))
        }
    }
}
