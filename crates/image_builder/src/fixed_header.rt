//! The fixed header (`igvm_defs`, IGVM_FIXED_HEADER) of an image, of format versions 1 and 2.
ghost use Rattle.std.specs.Prelude.{◌≡◌, ◌≤◌, ◌++◌, replicate, OnOk};
ghost use Rattle.igvm_headers.specs.Fixed.{fixed_size};
ghost use Rattle.image_builder.specs.Layout.{fixed_front, fixed_rest};

use crate::writing::append;
use igvm_headers::Memory;

/// The size in bytes of the fixed header of a version: 32 in version 2, and else 24.
pub(crate) fn fixed_size(version: u32) -> u32
    ensures value { result ≡ fixed_size version }
    ensures within { result ≤ 32 }
{
    if version == 2 { 32 } else { 24 }
}

/// Appends the fixed header of an image whose section and whole have these sizes, with zeros for its
/// checksum.
pub(crate) fn write_fixed(
    version: u32,
    section: u32,
    total: u32,
    image: &mut Vec<u8>,
) -> Result<(), Memory>
    ensures { OnOk result (image.new.items ≡ image.old.items
        ++ (fixed_front version section total ++ replicate 4 0 ++ fixed_rest version)) }
{
    write_numbers(version, section, total, image)?;
    append(&[0; 4], image)?;
    append(fixed_rest(version), image)
}

/// Appends what stands before the checksum.
fn write_numbers(version: u32, section: u32, total: u32, image: &mut Vec<u8>) -> Result<(), Memory>
    ensures { OnOk result (image.new.items
        ≡ image.old.items ++ fixed_front version section total) }
{
    append(b"IGVM", image)?;
    append(&version.to_le_bytes(), image)?;
    append(&fixed_size(version).to_le_bytes(), image)?;
    append(&section.to_le_bytes(), image)?;
    append(&total.to_le_bytes(), image)
}

/// What stands after the checksum: in version 2 the architecture X64, which is 0, and pages of 4,096
/// bytes.
fn fixed_rest(version: u32) -> &'static [u8]
    ensures { result.now ≡ fixed_rest version }
{
    if version == 2 {
        b"\0\0\0\0\0\x10\0\0"
    } else {
        b""
    }
}
