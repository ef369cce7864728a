//! Made images: two platforms and further headers, whose data are zeros.
use igvm_headers::{crc_begin, crc_end, crc_more};
use std::alloc::{AllocError, Global};

/// No header.
pub(crate) const NONE: &[u8] = b"";

/// SEV-SNP under mask 1 and TDX under mask 2. The headers below are for both, under mask 3, unless they say
/// otherwise.
pub(crate) const PLATFORMS: &[u8] = b"\
    \x01\0\0\0\x10\0\0\0\x01\0\0\0\0\x02\x01\0\0\0\0\0\0\0\0\0\
    \x01\0\0\0\x10\0\0\0\x02\0\0\0\0\x03\x01\0\0\0\0\0\0\0\0\0";

/// SEV-ES under mask 1 and SEV under mask 2.
pub(crate) const SEV_PLATFORMS: &[u8] = b"\
    \x01\0\0\0\x10\0\0\0\x01\0\0\0\0\x05\x01\0\0\0\0\0\0\0\0\0\
    \x01\0\0\0\x10\0\0\0\x02\0\0\0\0\x04\x01\0\0\0\0\0\0\0\0\0";

/// A policy.
pub(crate) const POLICY: &[u8] = b"\x01\x01\0\0\x10\0\0\0\0\0\x03\0\0\0\0\0\x03\0\0\0\0\0\0\0";

/// A policy under mask 1.
pub(crate) const POLICY_1: &[u8] = b"\x01\x01\0\0\x10\0\0\0\0\0\x03\0\0\0\0\0\x01\0\0\0\0\0\0\0";

/// A policy under mask 2.
pub(crate) const POLICY_2: &[u8] = b"\x01\x01\0\0\x10\0\0\0\0\0\x03\0\0\0\0\0\x02\0\0\0\0\0\0\0";

/// Area 0 of 4,096 bytes.
pub(crate) const AREA: &[u8] = b"\x01\x03\0\0\x10\0\0\0\0\x10\0\0\0\0\0\0\0\0\0\0\0\0\0\0";

/// Area 0 of 8,192 bytes.
pub(crate) const AREA_8192: &[u8] = b"\x01\x03\0\0\x10\0\0\0\0\x20\0\0\0\0\0\0\0\0\0\0\0\0\0\0";

/// Area 1 of 67,108,864 bytes.
pub(crate) const AREA_MOST: &[u8] = b"\x01\x03\0\0\x10\0\0\0\0\0\0\x04\0\0\0\0\x01\0\0\0\0\0\0\0";

/// Area 1 of 4,096 bytes less.
pub(crate) const AREA_REST: &[u8] =
    b"\x01\x03\0\0\x10\0\0\0\0\xF0\xFF\x03\0\0\0\0\x01\0\0\0\0\0\0\0";

/// The command line at byte 4,092 of area 0.
pub(crate) const COMMAND_LINE_4092: &[u8] = b"\x0E\x03\0\0\x08\0\0\0\0\0\0\0\xFC\x0F\0\0";

/// The command line at byte 4,093.
pub(crate) const COMMAND_LINE_4093: &[u8] = b"\x0E\x03\0\0\x08\0\0\0\0\0\0\0\xFD\x0F\0\0";

/// The MADT, which is empty, at byte 4,096 of area 0.
pub(crate) const MADT_4096: &[u8] = b"\x09\x03\0\0\x08\0\0\0\0\0\0\0\0\x10\0\0";

/// The MADT at byte 4,097.
pub(crate) const MADT_4097: &[u8] = b"\x09\x03\0\0\x08\0\0\0\0\0\0\0\x01\x10\0\0";

/// The MADT at the last byte offset of 32 bits.
pub(crate) const MADT_LAST: &[u8] = b"\x09\x03\0\0\x08\0\0\0\0\0\0\0\xFF\xFF\xFF\xFF";

/// Area 0 at 0x3000.
pub(crate) const INSERT: &[u8] = b"\x03\x03\0\0\x10\0\0\0\0\x30\0\0\0\0\0\0\x03\0\0\0\0\0\0\0";

/// Area 0 at 0x3000 under mask 1.
pub(crate) const INSERT_1: &[u8] = b"\x03\x03\0\0\x10\0\0\0\0\x30\0\0\0\0\0\0\x01\0\0\0\0\0\0\0";

/// Area 0 at 0x3000 under mask 2.
pub(crate) const INSERT_2: &[u8] = b"\x03\x03\0\0\x10\0\0\0\0\x30\0\0\0\0\0\0\x02\0\0\0\0\0\0\0";

/// Area 0 at 0x5000.
pub(crate) const INSERT_AGAIN: &[u8] =
    b"\x03\x03\0\0\x10\0\0\0\0\x50\0\0\0\0\0\0\x03\0\0\0\0\0\0\0";

/// Area 0 at 256 MB.
pub(crate) const INSERT_OUTSIDE: &[u8] =
    b"\x03\x03\0\0\x10\0\0\0\0\0\0\x10\0\0\0\0\x03\0\0\0\0\0\0\0";

/// Area 0 at 2 GB.
pub(crate) const INSERT_2_GB: &[u8] = b"\x03\x03\0\0\x10\0\0\0\0\0\0\x80\0\0\0\0\x03\0\0\0\0\0\0\0";

/// A page at 0x1000.
pub(crate) const PAGE: &[u8] =
    b"\x02\x03\0\0\x18\0\0\0\0\x10\0\0\0\0\0\0\x03\0\0\0\0\0\0\0\0\0\0\0\0\0\0\0";

/// A page at 0x1000 under mask 1.
pub(crate) const PAGE_1: &[u8] =
    b"\x02\x03\0\0\x18\0\0\0\0\x10\0\0\0\0\0\0\x01\0\0\0\0\0\0\0\0\0\0\0\0\0\0\0";

/// A page at 0x1000 under mask 2.
pub(crate) const PAGE_2: &[u8] =
    b"\x02\x03\0\0\x18\0\0\0\0\x10\0\0\0\0\0\0\x02\0\0\0\0\0\0\0\0\0\0\0\0\0\0\0";

/// A page at 0x1000 that is not measured.
pub(crate) const PAGE_UNMEASURED: &[u8] =
    b"\x02\x03\0\0\x18\0\0\0\0\x10\0\0\0\0\0\0\x03\0\0\0\0\0\0\0\x02\0\0\0\0\0\0\0";

/// A page at 0x2000.
pub(crate) const PAGE_2000: &[u8] =
    b"\x02\x03\0\0\x18\0\0\0\0\x20\0\0\0\0\0\0\x03\0\0\0\0\0\0\0\0\0\0\0\0\0\0\0";

/// A page at 0x3000.
pub(crate) const PAGE_3000: &[u8] =
    b"\x02\x03\0\0\x18\0\0\0\0\x30\0\0\0\0\0\0\x03\0\0\0\0\0\0\0\0\0\0\0\0\0\0\0";

/// A page at 0x4000.
pub(crate) const PAGE_4000: &[u8] =
    b"\x02\x03\0\0\x18\0\0\0\0\x40\0\0\0\0\0\0\x03\0\0\0\0\0\0\0\0\0\0\0\0\0\0\0";

/// A page at 0x5000.
pub(crate) const PAGE_5000: &[u8] =
    b"\x02\x03\0\0\x18\0\0\0\0\x50\0\0\0\0\0\0\x03\0\0\0\0\0\0\0\0\0\0\0\0\0\0\0";

/// The last page below 256 MB.
pub(crate) const PAGE_END: &[u8] =
    b"\x02\x03\0\0\x18\0\0\0\0\xF0\xFF\x0F\0\0\0\0\x03\0\0\0\0\0\0\0\0\0\0\0\0\0\0\0";

/// The first page from there on.
pub(crate) const PAGE_OUTSIDE: &[u8] =
    b"\x02\x03\0\0\x18\0\0\0\0\0\0\x10\0\0\0\0\x03\0\0\0\0\0\0\0\0\0\0\0\0\0\0\0";

/// The last page of the address space.
pub(crate) const PAGE_TOP: &[u8] =
    b"\x02\x03\0\0\x18\0\0\0\0\xF0\xFF\xFF\xFF\xFF\xFF\xFF\x03\0\0\0\0\0\0\0\0\0\0\0\0\0\0\0";

/// The last page below 2 GB.
pub(crate) const PAGE_BELOW_2_GB: &[u8] =
    b"\x02\x03\0\0\x18\0\0\0\0\xF0\xFF\x7F\0\0\0\0\x03\0\0\0\0\0\0\0\0\0\0\0\0\0\0\0";

/// A page of secrets at 0x1000.
pub(crate) const SECRETS: &[u8] =
    b"\x02\x03\0\0\x18\0\0\0\0\x10\0\0\0\0\0\0\x03\0\0\0\0\0\0\0\0\0\0\0\x01\0\0\0";

/// A page of CPUID at 0x1000.
pub(crate) const CPUID: &[u8] =
    b"\x02\x03\0\0\x18\0\0\0\0\x10\0\0\0\0\0\0\x03\0\0\0\0\0\0\0\0\0\0\0\x02\0\0\0";

/// A page of CPUID with XSAVE features at 0x1000.
pub(crate) const CPUID_XF: &[u8] =
    b"\x02\x03\0\0\x18\0\0\0\0\x10\0\0\0\0\0\0\x03\0\0\0\0\0\0\0\0\0\0\0\x03\0\0\0";

/// A page of secrets at 256 MB.
pub(crate) const SECRETS_OUTSIDE: &[u8] =
    b"\x02\x03\0\0\x18\0\0\0\0\0\0\x10\0\0\0\0\x03\0\0\0\0\0\0\0\0\0\0\0\x01\0\0\0";

/// A 2 MB page at 0.
pub(crate) const LARGE_0: &[u8] =
    b"\x02\x03\0\0\x18\0\0\0\0\0\0\0\0\0\0\0\x03\0\0\0\0\0\0\0\x01\0\0\0\0\0\0\0";

/// A 2 MB page at 2 MB.
pub(crate) const LARGE: &[u8] =
    b"\x02\x03\0\0\x18\0\0\0\0\0\x20\0\0\0\0\0\x03\0\0\0\0\0\0\0\x01\0\0\0\0\0\0\0";

/// The last 2 MB page below 256 MB.
pub(crate) const LARGE_END: &[u8] =
    b"\x02\x03\0\0\x18\0\0\0\0\0\xE0\x0F\0\0\0\0\x03\0\0\0\0\0\0\0\x01\0\0\0\0\0\0\0";

/// The last 2 MB page of the address space.
pub(crate) const LARGE_TOP: &[u8] =
    b"\x02\x03\0\0\x18\0\0\0\0\0\xE0\xFF\xFF\xFF\xFF\xFF\x03\0\0\0\0\0\0\0\x01\0\0\0\0\0\0\0";

/// The page before that at 2 MB.
pub(crate) const PAGE_BEFORE_LARGE: &[u8] =
    b"\x02\x03\0\0\x18\0\0\0\0\xF0\x1F\0\0\0\0\0\x03\0\0\0\0\0\0\0\0\0\0\0\0\0\0\0";

/// The last page in it.
pub(crate) const PAGE_IN_LARGE: &[u8] =
    b"\x02\x03\0\0\x18\0\0\0\0\xF0\x3F\0\0\0\0\0\x03\0\0\0\0\0\0\0\0\0\0\0\0\0\0\0";

/// The page after it.
pub(crate) const PAGE_AFTER_LARGE: &[u8] =
    b"\x02\x03\0\0\x18\0\0\0\0\0\x40\0\0\0\0\0\x03\0\0\0\0\0\0\0\0\0\0\0\0\0\0\0";

/// The context of virtual processor 0.
pub(crate) const CONTEXT_0: &[u8] =
    b"\x04\x03\0\0\x14\0\0\0\0\xF0\xFF\xFF\xFF\xFF\0\0\x03\0\0\0\0\0\0\0\0\0\0\0\0\0\0\0";

/// The context of virtual processor 1 under mask 1.
pub(crate) const CONTEXT_1: &[u8] =
    b"\x04\x03\0\0\x14\0\0\0\0\xF0\xFF\xFF\xFF\xFF\0\0\x01\0\0\0\0\0\0\0\x01\0\0\0\0\0\0\0";

/// The context of virtual processor 2 under mask 1.
pub(crate) const CONTEXT_2: &[u8] =
    b"\x04\x03\0\0\x14\0\0\0\0\xF0\xFF\xFF\xFF\xFF\0\0\x01\0\0\0\0\0\0\0\x02\0\0\0\0\0\0\0";

/// The 8,192 bytes from 0 on are required.
pub(crate) const REQUIRED: &[u8] =
    b"\x05\x03\0\0\x18\0\0\0\0\0\0\0\0\0\0\0\x03\0\0\0\0\x20\0\0\0\0\0\0\0\0\0\0";

/// No byte is required, from the last address on.
pub(crate) const REQUIRED_NONE: &[u8] =
    b"\x05\x03\0\0\x18\0\0\0\xFF\xFF\xFF\xFF\xFF\xFF\xFF\xFF\x03\0\0\0\0\0\0\0\0\0\0\0\0\0\0\0";

/// The last byte of the address space is required.
pub(crate) const REQUIRED_LAST: &[u8] =
    b"\x05\x03\0\0\x18\0\0\0\xFF\xFF\xFF\xFF\xFF\xFF\xFF\xFF\x03\0\0\0\x01\0\0\0\0\0\0\0\0\0\0\0";

/// Errors are reported in the page at 0x1000.
pub(crate) const ERROR_RANGE: &[u8] =
    b"\x0D\x03\0\0\x10\0\0\0\0\x10\0\0\0\0\0\0\x03\0\0\0\0\x10\0\0";

/// They are reported past the address space.
pub(crate) const ERROR_RANGE_PAST: &[u8] =
    b"\x0D\x03\0\0\x10\0\0\0\xFF\xFF\xFF\xFF\xFF\xFF\xFF\xFF\x03\0\0\0\xFF\xFF\xFF\xFF";

/// An ID block up to the launch digest that it wants, 48 bytes 0x2A.
pub(crate) const ID_BLOCK: &[u8] = b"\
    \x0B\x03\0\0\xB8\x02\0\0\x03\0\0\0\0\0\0\0\x2A\x2A\x2A\x2A\x2A\x2A\x2A\x2A\x2A\x2A\x2A\
    \x2A\x2A\x2A\x2A\x2A\x2A\x2A\x2A\x2A\x2A\x2A\x2A\x2A\x2A\x2A\x2A\x2A\x2A\x2A\x2A\x2A\x2A\
    \x2A\x2A\x2A\x2A\x2A\x2A\x2A\x2A\x2A\x2A\x2A\x2A\x2A\x2A\x2A";

/// The same under mask 1.
pub(crate) const ID_BLOCK_1: &[u8] = b"\
    \x0B\x03\0\0\xB8\x02\0\0\x01\0\0\0\0\0\0\0\x2A\x2A\x2A\x2A\x2A\x2A\x2A\x2A\x2A\x2A\x2A\
    \x2A\x2A\x2A\x2A\x2A\x2A\x2A\x2A\x2A\x2A\x2A\x2A\x2A\x2A\x2A\x2A\x2A\x2A\x2A\x2A\x2A\x2A\
    \x2A\x2A\x2A\x2A\x2A\x2A\x2A\x2A\x2A\x2A\x2A\x2A\x2A\x2A\x2A";

/// What an ID block has after the launch digest that it wants: zeros.
pub(crate) const ID_BLOCK_REST: &[u8] = &[0; 640];

/// The file of these headers in a row.
pub(crate) fn image(alloc: Global, headers: &[u8]) -> Result<Vec<u8>, AllocError> {
    let size = u32::try_from(headers.len()).unwrap_or(0);
    let mut file = Vec::new(alloc);
    file.extend_from_slice(b"IGVM\x01\0\0\0\x18\0\0\0")?;
    file.extend_from_slice(&size.to_le_bytes())?;
    file.extend_from_slice(&size.saturating_add(24).to_le_bytes())?;
    let state = crc_more(crc_more(crc_begin(), &file), &[0; 4]);
    file.extend_from_slice(&crc_end(crc_more(state, headers)).to_le_bytes())?;
    file.extend_from_slice(headers)?;
    Ok(file)
}

/// One SEV-SNP platform, and so many 2 MB pages from address 0 on.
pub(crate) fn with_large_pages(alloc: Global, count: u32) -> Result<Vec<u8>, AllocError> {
    let mut headers = PLATFORMS[..24].to_vec(alloc)?;
    for k in 0..count {
        headers.extend_from_slice(&LARGE_0[..8])?;
        headers.extend_from_slice(&(u64::from(k) * 0x200000).to_le_bytes())?;
        headers.extend_from_slice(&LARGE_0[16..])?;
    }
    Ok(headers)
}

/// One SEV-SNP platform, and so many pages at falling addresses, the last of them 0.
pub(crate) fn with_falling_pages(alloc: Global, count: u32) -> Result<Vec<u8>, AllocError> {
    let mut headers = PLATFORMS[..24].to_vec(alloc)?;
    for k in 0..count {
        headers.extend_from_slice(&PAGE[..8])?;
        headers.extend_from_slice(&(u64::from(count - 1 - k) * 4096).to_le_bytes())?;
        headers.extend_from_slice(&PAGE[16..])?;
    }
    Ok(headers)
}
