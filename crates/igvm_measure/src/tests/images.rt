//! Made images: three platforms, further headers, and data behind them.
ghost use Rattle.std.specs.Prelude.{◌≡◌};

use crate::{NoDigest, measure_image};
use igvm_headers::{Digest, Options, PlatformKind, crc_begin, crc_end, crc_more};
use igvm_image::open_image;
use platform_masks::Platform;
use std::alloc::{AllocError, Global};
use std::process::Abort;

/// SEV-SNP under mask 1, TDX under mask 2, and a platform with no digest under mask 4.
const PLATFORMS: &[u8] = b"\
        \x01\x00\x00\x00\x10\x00\x00\x00\x01\x00\x00\x00\x00\x02\x01\x00\x00\x00\x00\x00\x00\x00\x00\x00\
        \x01\x00\x00\x00\x10\x00\x00\x00\x02\x00\x00\x00\x00\x03\x01\x00\x00\x00\x00\x00\x00\x00\x00\x00\
        \x01\x00\x00\x00\x10\x00\x00\x00\x04\x00\x00\x00\x00\x00\x01\x00\x00\x00\x00\x00\x00\x00\x00\x00";

/// The file of these headers behind the platforms. The data follow them, from file offset `at` on where
/// that is farther out.
pub(crate) fn image(
    alloc: Global,
    headers: &[u8],
    at: usize,
    data: &[u8],
) -> Result<Vec<u8>, AllocError> {
    let mut section = Vec::new(alloc);
    section.extend_from_slice(PLATFORMS)?;
    section.extend_from_slice(headers)?;
    let size = number(section.len());
    let gap = at.saturating_sub(section.len().saturating_add(24));
    let behind = number(gap).saturating_add(number(data.len()));
    let total = size.saturating_add(24).saturating_add(behind);
    let mut file = Vec::new(alloc);
    file.extend_from_slice(b"IGVM\x01\0\0\0\x18\0\0\0")?;
    file.extend_from_slice(&size.to_le_bytes())?;
    file.extend_from_slice(&total.to_le_bytes())?;
    let state = crc_more(crc_more(crc_begin(), &file), &[0; 4]);
    file.extend_from_slice(&crc_end(crc_more(state, &section)).to_le_bytes())?;
    file.extend_from_slice(&section)?;
    for _ in 0..gap {
        file.push(0)?;
    }
    file.extend_from_slice(data)?;
    Ok(file)
}

/// A number of a small file.
fn number(n: usize) -> u32 {
    u32::try_from(n).unwrap_or(0)
}

/// `count` bytes of data: byte j is the rest of j by 251.
pub(crate) fn pattern(alloc: Global, count: u32) -> Result<Vec<u8>, AllocError> {
    let mut data = Vec::new(alloc);
    for j in 0..count {
        data.push((j % 251) as u8)?;
    }
    Ok(data)
}

/// A platform of a kind under a mask.
pub(crate) fn platform(mask: u32, kind: PlatformKind) -> Platform
    ensures { result.kind ≡ kind }
{
    Platform {
        number: 0,
        mask,
        kind,
        highest_vtl: 0,
        version: 1,
        shared_gpa: 0,
    }
}

/// The digest of a file for a platform.
pub(crate) fn digest(
    rt: &impl Abort,
    file: &[u8],
    platform: Platform,
    options: Options,
) -> Result<Digest, NoDigest> {
    assert!(rt; file.len() <= 536_870_912);
    let view = open_image(file).expect(rt, "a file that breaks no rule");
    measure_image(&view, platform, options)
}
