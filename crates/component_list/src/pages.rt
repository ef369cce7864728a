//! The pages of a run, with the bytes that fill them.
ghost use Rattle.std.specs.Prelude.{◌≡◌, ◌+◌, ◌*◌, ◌≤◌, ◌<◌, ◌^◌, ◌++◌, length, false, OnOk, IfOk};
ghost use Rattle.std.specs.Rc.{rc_slice_items};
ghost use Rattle.igvm_headers.specs.Numbers.{slice};
ghost use Rattle.igvm_headers.specs.Pages.{page_bytes};
ghost use Rattle.component_list.specs.Expansion.{pages_for, padded, page_at, page_parts, piece_of, all_zero, passes_end};

use crate::blob::Blob;
use crate::component::{Component, Content};
use crate::page_run::{pages_for, place_of};
use crate::slices::{behind, front};
use crate::source::PageRun;
use igvm_headers::{Header, Memory, page_bytes};
use std::alloc::Global;
use std::rc::RcSlice;

/// Page `k` of a run. It takes no memory.
#[tactic(auto, unfolding(crate::specs::Expansion::page_at))]
fn page_at(alloc: Global, run: &PageRun, k: u64, content: Content) -> Component
    requires few { k ≤ 4294967296 }
    requires room { run.now.gpa + page_bytes run.now.large * k < 2 ^ 64 }
    ensures { result ≡ page_at run.now k content }
{
    Component {
        header: Header::Page {
            gpa: run.gpa + place_of(run, k),
            mask: run.mask,
            offset: 0,
            large: run.large,
            unmeasured: run.unmeasured,
            kind: run.kind,
        },
        tail: Blob::of_vec(Vec::new(alloc)),
        content,
    }
}

/// So many pages of zeros, behind the parts.
pub(crate) fn push_zeros(
    alloc: Global,
    parts: &mut Vec<Component>,
    run: &PageRun,
    count: u32,
) -> Result<(), Memory>
    requires { passes_end run.now count ≡ false }
    ensures { OnOk result (parts.new.items
        ≡ parts.old.items ++ page_parts run.now all_zero count) }
{
    'pages: for k in 0..count {
        let part = page_at(alloc, run, u64::from(k), Content::Zero);
        parts.push(part)?;
    }
    Ok(())
}

/// The pages that a file fills, behind the parts. They share its bytes, which stay where they
/// lie.
pub(crate) fn push_pieces(
    alloc: Global,
    parts: &mut Vec<Component>,
    run: &PageRun,
    bytes: Vec<u8>,
) -> Result<(), Memory>
    requires short { length bytes.items ≤ 536870912 }
    requires end { passes_end run.now (pages_for run.now (length bytes.items)) ≡ false }
    ensures { OnOk result (parts.new.items ≡ parts.old.items
        ++ page_parts run.now (piece_of (page_bytes run.now.large) bytes.items)
        (pages_for run.now (length bytes.items))) }
{
    let count = pages_for(run, bytes.len());
    let file = RcSlice::from_vec(bytes)?;
    'pages: for k in 0..count {
        let content = piece_of(alloc, run, &file, k)?;
        let part = page_at(alloc, run, k, content);
        parts.push(part)?;
    }
    Ok(())
}

/// Page `k` of a file: a piece of it, or a copy where the file ends within the page.
#[tactic(auto, unfolding(crate::specs::Expansion::piece_of))]
fn piece_of(alloc: Global, run: &PageRun, file: &RcSlice<u8>, k: u64) -> Result<Content, Memory>
    requires { k ≤ 4294967296 }
    ensures { IfOk result (λ content. content
        ≡ piece_of (page_bytes run.now.large) (rc_slice_items file.now) k) }
{
    let size = page_bytes(run.large) as usize;
    let at = place_of(run, k) as usize;
    let piece = front(behind(file.as_slice(), at), size);
    let blob = if piece.len() < size {
        padded_copy(alloc, piece, size)?
    } else {
        lent_piece(file, at, size)?
    };
    Ok(Content::Bytes(blob))
}

/// So many bytes of a file from a place on.
#[tactic(auto, unfolding(crate::specs::Expansion::padded))]
fn lent_piece(file: &RcSlice<u8>, at: usize, size: usize) -> Result<Blob, Memory>
    requires { length (slice (rc_slice_items file.now) at size) ≡ size }
    ensures { IfOk result (λ blob. blob ≡ padded size (slice (rc_slice_items file.now) at size)) }
{
    Ok(Blob::of_piece(file.clone()?, at, size))
}

/// A copy of these bytes, followed by zeros up to a size.
fn padded_copy(alloc: Global, bytes: &[u8], size: usize) -> Result<Blob, Memory>
    requires { length bytes.now ≤ size }
    ensures { IfOk result (λ blob. blob ≡ padded size bytes.now) }
{
    let mut copy = Vec::with_capacity(alloc, size)?;
    copy.extend_from_slice(bytes)?;
    padded(copy, size)
}

/// These bytes, followed by zeros up to a size.
#[tactic(auto, unfolding(crate::specs::Expansion::padded))]
pub(crate) fn padded(mut bytes: Vec<u8>, size: usize) -> Result<Blob, Memory>
    requires { length bytes.items ≤ size }
    ensures { IfOk result (λ blob. blob ≡ padded size bytes.items) }
{
    bytes.resize(size, 0)?;
    Ok(Blob::of_vec(bytes))
}
