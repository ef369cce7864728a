//! Areas of an image, and a table of random values beside a plain model.
ghost use Rattle.std.specs.Prelude.{◌≡◌, ◌<◌, ◌≤◌, ◌+◌, ◌*◌, IfOk, length};
ghost use Rattle.param_areas.specs.AreaBytes.{IsOpen, bytes_of};

use super::*;
use igvm_headers::{Memory, crc_begin, crc_end, crc_more};
use igvm_image::{DataView, open_image};
use std::alloc::{AllocError, Global};
use std::test::Fail;

/// SEV-SNP under mask 1, area 0 of 4,096 zeros, and area 1 of 8,192 bytes at file offset 96.
const SECTION: &[u8] = b"\x01\0\0\0\x10\0\0\0\x01\0\0\0\0\x02\x01\0\0\0\0\0\0\0\0\0\
    \x01\x03\0\0\x10\0\0\0\0\x10\0\0\0\0\0\0\0\0\0\0\0\0\0\0\
    \x01\x03\0\0\x10\0\0\0\0\x20\0\0\0\0\0\0\x01\0\0\0\x60\0\0\0";

/// The file of that section, whose data are bytes 0x11.
fn image(alloc: Global) -> Result<Vec<u8>, AllocError> {
    let mut file = Vec::new(alloc);
    file.extend_from_slice(b"IGVM\x01\0\0\0\x18\0\0\0\x48\0\0\0\x60\x20\0\0")?;
    let state = crc_more(crc_more(crc_begin(), &file), &[0; 4]);
    file.extend_from_slice(&crc_end(crc_more(state, SECTION)).to_le_bytes())?;
    file.extend_from_slice(SECTION)?;
    file.extend_from_slice(&[0x11; 8192])?;
    Ok(file)
}

/// Areas 0 and 1 with these contents.
#[tactic(auto, using(crate::proofs::Histories::length_content_bytes))]
fn areas_of(alloc: Global, zeros: DataView<'_>, ones: DataView<'_>) -> Result<Areas, Memory>
    requires small { zeros.pages ≡ 1 }
    requires large { ones.pages ≡ 2 }
    ensures open_0 { IfOk result (λ areas. IsOpen areas.areas 0) }
    ensures open_1 { IfOk result (λ areas. IsOpen areas.areas 1) }
    ensures size_0 { IfOk result (λ areas. length (bytes_of areas.areas 0) ≡ 4096) }
    ensures size_1 { IfOk result (λ areas. length (bytes_of areas.areas 1) ≡ 8192) }
{
    let mut areas = Areas::reserve(alloc, 12288)?;
    areas.declare(0, 4096, zeros);
    areas.declare(1, 8192, ones);
    Ok(areas)
}

/// A value in area 0, of 4,096 bytes, or area 1, of 8,192.
#[tactic(auto, using(crate::proofs::Kept::set_keeps_open, crate::proofs::Kept::set_keeps_size))]
fn put(areas: &mut Areas, area: u32, offset: u32, value: &[u8])
    requires open_0 { IsOpen areas.old.areas 0 }
    requires open_1 { IsOpen areas.old.areas 1 }
    requires size_0 { length (bytes_of areas.old.areas 0) ≡ 4096 }
    requires size_1 { length (bytes_of areas.old.areas 1) ≡ 8192 }
    requires area { area < 2 }
    requires fits { offset + length value.now ≤ 4096 * (area + 1) }
    ensures open_0 { IsOpen areas.new.areas 0 }
    ensures open_1 { IsOpen areas.new.areas 1 }
    ensures size_0 { length (bytes_of areas.new.areas 0) ≡ 4096 }
    ensures size_1 { length (bytes_of areas.new.areas 1) ≡ 8192 }
{
    if area == 0 {
        areas.set(0, offset, value);
    } else {
        areas.set(1, offset, value);
    }
}

/// All pages of both areas are those of the model.
fn are_same(areas: &Areas, first: &[u8], second: &[u8]) -> bool
    requires open_0 { IsOpen areas.now.areas 0 }
    requires open_1 { IsOpen areas.now.areas 1 }
    requires size_0 { length (bytes_of areas.now.areas 0) ≡ 4096 }
    requires size_1 { length (bytes_of areas.now.areas 1) ≡ 8192 }
    requires first { length first.now ≡ 4096 }
    requires second { length second.now ≡ 8192 }
{
    let (front, back) = second.split_at(4096);
    areas.page(0, 0) == first && areas.page(1, 0) == front && areas.page(1, 1) == back
}

/// The last page of area 1 is that of the model, after area 0 is taken.
#[tactic(auto, using(crate::proofs::Kept::take_keeps_open, crate::proofs::Kept::take_keeps_bytes))]
fn is_kept(areas: &mut Areas, second: &[u8]) -> bool
    requires open_0 { IsOpen areas.old.areas 0 }
    requires open_1 { IsOpen areas.old.areas 1 }
    requires size_1 { length (bytes_of areas.old.areas 1) ≡ 8192 }
    requires second { length second.now ≡ 8192 }
{
    areas.take(0);
    areas.page(1, 1) == &second[4096..]
}

#[test]
fn lends_the_last_value_set(rt: HostRuntime) -> Result<(), Fail> {
    let file = image(rt.alloc())?;
    assert!(rt; file.len() < 65536);
    let view = open_image(&file).ok().ok_or("refused")?;
    let mut headers = view.headers();
    headers.next().ok_or("no platform")?;
    let zeros = headers.next().ok_or("no area")?.content;
    let data = headers.next().ok_or("no second area")?.content;
    assert!(rt; zeros.pages() == 1 && data.pages() == 2);
    let mut areas = areas_of(rt.alloc(), zeros, data).ok().ok_or("no memory")?;

    put(&mut areas, 0, 0, b"abcd");
    put(&mut areas, 0, 2, b"XY");
    put(&mut areas, 1, 8, b"\x22\x22");
    let mut first = [0; 4096];
    first[..4].copy_from_slice(b"abXY");
    let mut second = [0x11; 8192];
    second[8..10].fill(0x22);
    assert!(rt; are_same(&areas, &first, &second));

    // Spans that overlap, up to either end, from a linear congruential generator.
    let mut state = 1u32;
    'rounds: for round in 0..300u32 {
        state = state.wrapping_mul(1_664_525).wrapping_add(1_013_904_223);
        let area = state >> 31;
        let size = 4096 * (area + 1);
        let offset = (state >> 8) % size;
        let length = ((state >> 4) % 48).min(size - offset);
        let value = &[(round % 256) as u8; 48][..length as usize];
        put(&mut areas, area, offset, value);
        if area == 0 {
            first[offset as usize..(offset + length) as usize].copy_from_slice(value);
        } else {
            second[offset as usize..(offset + length) as usize].copy_from_slice(value);
        }
        assert!(rt; are_same(&areas, &first, &second), "round {round}");
    }

    assert!(rt; is_kept(&mut areas, &second));
    Ok(())
}

#[test]
fn reserves_nothing_and_all(rt: HostRuntime) {
    for total in [0, 1, 4096, 67_108_864] {
        assert!(rt; Areas::reserve(rt.alloc(), total).is_ok());
    }
}
