//! VMSAs from pages: AMD64 Architecture Programmer's Manual, volume 2, appendix B, VMSA layout.
ghost use Rattle.std.specs.Prelude.{◌≡◌, ◌≤◌, ◌<◌, ◌+◌, ◌^◌, All, length, map, slice_index, ◌++◌, IfOk, OnOk};
ghost use Rattle.byteorder.specs.Endian.{little_from};
ghost use Rattle.vmsa_page.specs.Fields.{field_of, numbers, segments};
ghost use Rattle.vmsa_page.specs.Vmsas.{IsVmsa};
ghost use Rattle.vmsa_page.specs.Pages.{other_here, others_from, segment_of, vmsa_of};

use crate::fields::{Field, is_named, numbers, segments};
use crate::other_byte::OtherByte;
use crate::segment::Segment;
use crate::vmsa::Vmsa;
use igvm_headers::Memory;
use std::alloc::Global;

/// The VMSA of a page of 4,096 bytes. Where the page ends early, zeros follow.
#[tactic(auto, unfolding(crate::specs::Pages::vmsa_of))]
pub fn read_page(alloc: Global, page: &[u8]) -> Result<Vmsa, Memory>
    requires { length page.now ≤ 4096 }
    ensures read { IfOk result (λ vmsa. vmsa ≡ vmsa_of page.now) }
    ensures valid { IfOk result IsVmsa }
{
    note_bytes(page);
    let other = others_of(alloc, page)?;
    Ok(Vmsa::from_parts(segments_of(page), numbers_of(page), other))
}

/// Numbers of 8 bits are below 256: nothing runs.
fn note_bytes(page: &[u8])
    ensures { All (λ byte. byte < 256) page.now }
{}

/// The segments, each as its field holds it.
fn segments_of(page: &[u8]) -> [Segment; 10]
    ensures { result ≡ map (segment_of page.now) segments }
{
    let fields = segments();
    let mut found = [Segment::ZERO; 10];
    'steps: for place in 0..10 {
        found[place] = segment_of(page, fields[place]);
    }
    found
}

/// The numbers, each as its field holds it.
fn numbers_of(page: &[u8]) -> [u64; 13]
    ensures { result ≡ map (λ f. little_from f.offset 8 page.now) numbers }
{
    let fields = numbers();
    let mut found = [0; 13];
    'steps: for place in 0..13 {
        found[place] = number_of(page, fields[place]);
    }
    found
}

/// The segment that a field holds.
fn segment_of(page: &[u8], field: Field) -> Segment
    requires { field.offset < 4096 }
    ensures { result ≡ segment_of page.now (field_of field) }
{
    Segment {
        selector: number_at(page, field.offset, 2) as u16,
        attributes: number_at(page, field.offset + 2, 2) as u16,
        limit: number_at(page, field.offset + 4, 4) as u32,
        base: number_at(page, field.offset + 8, 8),
    }
}

/// The number that a field holds.
fn number_of(page: &[u8], field: Field) -> u64
    requires { field.offset < 4096 }
    ensures { result ≡ little_from field.offset 8 page.now }
{
    number_at(page, field.offset, 8)
}

/// The number that `width` bytes hold from a place on, the lowest first.
fn number_at(page: &[u8], at: usize, width: usize) -> u64
    requires place { at + width < 18446744073709551616 }
    requires width { width ≤ 8 }
    ensures value { result ≡ little_from at width page.now }
    ensures bound { result < 256 ^ width }
{
    let mut number = 0;
    let mut left = width;
    'steps: while left > 0 {
        left -= 1;
        number = number * 256 + u64::from(byte_at(page, at + left));
    }
    number
}

/// The byte at a place, or 0 behind the end.
fn byte_at(page: &[u8], at: usize) -> u8
    ensures { result ≡ slice_index page.now at }
{
    page.get(at).copied().unwrap_or(0)
}

/// The bytes outside the named fields that are not 0.
fn others_of(alloc: Global, page: &[u8]) -> Result<Vec<OtherByte>, Memory>
    requires { length page.now ≤ 4096 }
    ensures { IfOk result (λ others. others.items ≡ others_from 0 page.now) }
{
    let mut others = Vec::new(alloc);
    'steps: for (at, byte) in page.iter().enumerate() {
        push_other(at, *byte, &mut others)?;
    }
    Ok(others)
}

/// A byte and its place, where it is not 0 and outside the named fields.
fn push_other(at: usize, byte: u8, others: &mut Vec<OtherByte>) -> Result<(), Memory>
    requires { at < 4096 }
    ensures { OnOk result (others.new.items ≡ others.old.items ++ other_here at byte) }
{
    if byte == 0 || is_named(at) {
        return Ok(());
    }
    let other = OtherByte {
        at: at as u16,
        byte,
    };
    match others.push(other) {
        Ok(()) => Ok(()),
        Err(_) => Err(Memory),
    }
}
