//! What stands before the data of an image, written in one pass but for the checksum, which stands
//! before what it covers.
ghost use Rattle.std.specs.Prelude.{◌≡◌, ◌≤◌, ◌+◌, ◌++◌, ◌<◌, ◌^◌, length, take, drop, replicate, IfOk, OnOk};
ghost use Rattle.std.specs.List.{AllByRecursion};
ghost use Rattle.byteorder.specs.Endian.{little_bytes};
ghost use Rattle.igvm_headers.specs.Checksum.{crc};
ghost use Rattle.igvm_headers.specs.Spelling.{spelled};
ghost use Rattle.igvm_headers.specs.SpellingConditions.{IsSpellable};
ghost use Rattle.igvm_headers.specs.HeaderFacts.{with_offset};
ghost use Rattle.image_builder.specs.Layout.{section, data_bytes, layout, layout_size};
ghost use Rattle.image_builder.specs.Plans.{IsPlan, in_version};

use crate::fixed_header::write_fixed;
use crate::plan::Plan;
use component_list::Component;
use igvm_headers::{Memory, crc32, encode_header};
use std::alloc::Global;

/// Where the checksum stands.
const CHECKSUM_AT: usize = 20;

/// The front of the image of these components, as it is planned: the fixed header and the headers.
pub(crate) fn write_front(
    alloc: Global,
    parts: &[Component],
    plan: &Plan,
) -> Result<Vec<u8>, Memory>
    requires each { AllByRecursion (λ c. IsSpellable c.header c.tail) parts.now }
    requires planned { IsPlan plan.now.section plan.now.offsets.items plan.now.contents
        (in_version plan.now.version parts.now) }
    requires within { layout_size (in_version plan.now.version parts.now) ≤ 536870912 }
    ensures { IfOk result (λ front. front.items ++ data_bytes parts.now
        ≡ layout (in_version plan.now.version parts.now)) }
{
    let mut image = Vec::with_capacity(alloc, plan.contents.start() as usize)?;
    let total = plan.contents.end();
    write_fixed(plan.version, plan.section as u32, total as u32, &mut image)?;
    write_headers(parts, plan, &mut image)?;
    write_checksum(&mut image);
    Ok(image)
}

/// The headers in order, each with the file offset of its data.
fn write_headers(parts: &[Component], plan: &Plan, image: &mut Vec<u8>) -> Result<(), Memory>
    requires each { AllByRecursion (λ c. IsSpellable c.header c.tail) parts.now }
    requires planned { IsPlan plan.now.section plan.now.offsets.items plan.now.contents
        (in_version plan.now.version parts.now) }
    requires within { layout_size (in_version plan.now.version parts.now) ≤ 536870912 }
    ensures { OnOk result (image.new.items
        ≡ image.old.items ++ section (in_version plan.now.version parts.now)) }
{
    let offsets = plan.offsets.as_slice();
    'parts: for (place, component) in parts.iter().enumerate() {
        write_header(component, offsets[place] as u32, image)?;
    }
    Ok(())
}

/// One header, with data that stand there.
fn write_header(component: &Component, offset: u32, image: &mut Vec<u8>) -> Result<(), Memory>
    requires { IsSpellable component.now.header component.now.tail }
    ensures { OnOk result (image.new.items ≡ image.old.items
        ++ spelled (with_offset offset component.now.header) component.now.tail) }
{
    let header = component.header.with_offset(offset);
    encode_header(&header, component.tail.bytes(), image)
}

/// The checksum of all that is written, put into its place.
fn write_checksum(image: &mut Vec<u8>)
    requires { 24 ≤ length image.old.items }
    ensures { image.new.items
        ≡ take 20 image.old.items ++ little_bytes 4 (crc image.old.items)
        ++ drop 24 image.old.items }
{
    let checksum = crc32(image.as_slice()).to_le_bytes();
    put(&checksum, CHECKSUM_AT, image.as_mut_slice());
}

/// These bytes in the place of as many.
fn put(bytes: &[u8], at: usize, image: &mut [u8])
    requires { at + length bytes.now ≤ length image.old }
    ensures { image.new
        ≡ take at image.old ++ bytes.now ++ drop (at + length bytes.now) image.old }
{
    let end = at + bytes.len();
    image[at..end].copy_from_slice(bytes);
}

/// These bytes behind those that are written.
pub(crate) fn append(bytes: &[u8], image: &mut Vec<u8>) -> Result<(), Memory>
    ensures { OnOk result (image.new.items ≡ image.old.items ++ bytes.now) }
{
    image.extend_from_slice(bytes)?;
    Ok(())
}
