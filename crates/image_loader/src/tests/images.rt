//! Made images: headers, and a file of them with data.
use igvm_headers::{crc_begin, crc_end, crc_more};
use std::alloc::{AllocError, Global};

/// No header, and no data.
pub(crate) const NONE: &[u8] = b"";

/// SEV-SNP under mask 1.
pub(crate) const SNP: &[u8] = b"\x01\0\0\0\x10\0\0\0\x01\0\0\0\0\x02\x01\0\0\0\0\0\0\0\0\0";

/// TDX under mask 2. The headers below are for both, under mask 3, unless they say otherwise.
pub(crate) const TDX: &[u8] = b"\x01\0\0\0\x10\0\0\0\x02\0\0\0\0\x03\x01\0\0\0\0\0\0\0\0\0";

/// SEV-SNP under mask 2.
pub(crate) const SNP_2: &[u8] = b"\x01\0\0\0\x10\0\0\0\x02\0\0\0\0\x02\x01\0\0\0\0\0\0\0\0\0";

/// A platform with no launch, under mask 4.
pub(crate) const NATIVE: &[u8] = b"\x01\0\0\0\x10\0\0\0\x04\0\0\0\0\0\x01\0\0\0\0\0\0\0\0\0";

/// SEV under mask 1.
pub(crate) const SEV: &[u8] = b"\x01\0\0\0\x10\0\0\0\x01\0\0\0\0\x04\x01\0\0\0\0\0\0\0\0\0";

/// SEV-ES under mask 2.
pub(crate) const SEV_ES: &[u8] = b"\x01\0\0\0\x10\0\0\0\x02\0\0\0\0\x05\x01\0\0\0\0\0\0\0\0\0";

/// A page of zeros at 0x1000.
pub(crate) const PAGE: &[u8] =
    b"\x02\x03\0\0\x18\0\0\0\0\x10\0\0\0\0\0\0\x03\0\0\0\0\0\0\0\0\0\0\0\0\0\0\0";

/// It under mask 1.
pub(crate) const PAGE_1: &[u8] =
    b"\x02\x03\0\0\x18\0\0\0\0\x10\0\0\0\0\0\0\x01\0\0\0\0\0\0\0\0\0\0\0\0\0\0\0";

/// It under mask 2.
pub(crate) const PAGE_2: &[u8] =
    b"\x02\x03\0\0\x18\0\0\0\0\x10\0\0\0\0\0\0\x02\0\0\0\0\0\0\0\0\0\0\0\0\0\0\0";

/// A page at 0x1000, of the data.
pub(crate) const PAGE_DATA: &[u8] =
    b"\x02\x03\0\0\x18\0\0\0\0\x10\0\0\0\0\0\0\x03\0\0\0\0\x10\0\0\0\0\0\0\0\0\0\0";

/// A page of zeros at 0x2000.
pub(crate) const PAGE_2000: &[u8] =
    b"\x02\x03\0\0\x18\0\0\0\0\x20\0\0\0\0\0\0\x03\0\0\0\0\0\0\0\0\0\0\0\0\0\0\0";

/// The last page of the address space.
pub(crate) const PAGE_TOP: &[u8] =
    b"\x02\x03\0\0\x18\0\0\0\0\xF0\xFF\xFF\xFF\xFF\xFF\xFF\x03\0\0\0\0\0\0\0\0\0\0\0\0\0\0\0";

/// An unmeasured page at 0x1000.
pub(crate) const UNMEASURED: &[u8] =
    b"\x02\x03\0\0\x18\0\0\0\0\x10\0\0\0\0\0\0\x03\0\0\0\0\0\0\0\x02\0\0\0\0\0\0\0";

/// A page of secrets at 0x1000, with data.
pub(crate) const SECRETS: &[u8] =
    b"\x02\x03\0\0\x18\0\0\0\0\x10\0\0\0\0\0\0\x03\0\0\0\0\x10\0\0\0\0\0\0\x01\0\0\0";

/// A page of CPUID with XSAVE features at 0x1000, with data.
pub(crate) const CPUID_XF: &[u8] =
    b"\x02\x03\0\0\x18\0\0\0\0\x10\0\0\0\0\0\0\x03\0\0\0\0\x10\0\0\0\0\0\0\x03\0\0\0";

/// A 2 MB page of zeros at 2 MB.
pub(crate) const LARGE: &[u8] =
    b"\x02\x03\0\0\x18\0\0\0\0\0\x20\0\0\0\0\0\x03\0\0\0\0\0\0\0\x01\0\0\0\0\0\0\0";

/// The last 2 MB page of the address space.
pub(crate) const LARGE_TOP: &[u8] =
    b"\x02\x03\0\0\x18\0\0\0\0\0\xE0\xFF\xFF\xFF\xFF\xFF\x03\0\0\0\0\0\0\0\x01\0\0\0\0\0\0\0";

/// Area 0 of 4,096 zeros.
pub(crate) const AREA: &[u8] = b"\x01\x03\0\0\x10\0\0\0\0\x10\0\0\0\0\0\0\0\0\0\0\0\0\0\0";

/// Area 0 of 4,096 bytes of the data.
pub(crate) const AREA_DATA: &[u8] = b"\x01\x03\0\0\x10\0\0\0\0\x10\0\0\0\0\0\0\0\0\0\0\0\x10\0\0";

/// Area 1 of 67,108,864 bytes.
pub(crate) const AREA_MOST: &[u8] = b"\x01\x03\0\0\x10\0\0\0\0\0\0\x04\0\0\0\0\x01\0\0\0\0\0\0\0";

/// The command line at byte 0 of area 0.
pub(crate) const COMMAND_LINE: &[u8] = b"\x0E\x03\0\0\x08\0\0\0\0\0\0\0\0\0\0\0";

/// It at byte 8.
pub(crate) const COMMAND_LINE_8: &[u8] = b"\x0E\x03\0\0\x08\0\0\0\0\0\0\0\x08\0\0\0";

/// It at byte 4,096.
pub(crate) const COMMAND_LINE_4096: &[u8] = b"\x0E\x03\0\0\x08\0\0\0\0\0\0\0\0\x10\0\0";

/// It at byte 4,097.
pub(crate) const COMMAND_LINE_4097: &[u8] = b"\x0E\x03\0\0\x08\0\0\0\0\0\0\0\x01\x10\0\0";

/// The MADT at byte 2.
pub(crate) const MADT_2: &[u8] = b"\x09\x03\0\0\x08\0\0\0\0\0\0\0\x02\0\0\0";

/// The count of processors at byte 4,092.
pub(crate) const VP_COUNT_4092: &[u8] = b"\x07\x03\0\0\x08\0\0\0\0\0\0\0\xFC\x0F\0\0";

/// It at byte 4,093.
pub(crate) const VP_COUNT_4093: &[u8] = b"\x07\x03\0\0\x08\0\0\0\0\0\0\0\xFD\x0F\0\0";

/// Area 0 at 0x3000.
pub(crate) const INSERT: &[u8] = b"\x03\x03\0\0\x10\0\0\0\0\x30\0\0\0\0\0\0\x03\0\0\0\0\0\0\0";

/// It under mask 1.
pub(crate) const INSERT_1: &[u8] = b"\x03\x03\0\0\x10\0\0\0\0\x30\0\0\0\0\0\0\x01\0\0\0\0\0\0\0";

/// It under mask 2.
pub(crate) const INSERT_2: &[u8] = b"\x03\x03\0\0\x10\0\0\0\0\x30\0\0\0\0\0\0\x02\0\0\0\0\0\0\0";

/// Area 0 at 0x5000.
pub(crate) const INSERT_5000: &[u8] = b"\x03\x03\0\0\x10\0\0\0\0\x50\0\0\0\0\0\0\x03\0\0\0\0\0\0\0";

/// The context of virtual processor 0, of zeros, past every plan.
pub(crate) const CONTEXT: &[u8] =
    b"\x04\x03\0\0\x14\0\0\0\0\xF0\xFF\xFF\xFF\xFF\0\0\x03\0\0\0\0\0\0\0\0\0\0\0\0\0\0\0";

/// It under mask 1.
pub(crate) const CONTEXT_1: &[u8] =
    b"\x04\x03\0\0\x14\0\0\0\0\xF0\xFF\xFF\xFF\xFF\0\0\x01\0\0\0\0\0\0\0\0\0\0\0\0\0\0\0";

/// The 8,192 bytes from 0 on are required.
pub(crate) const REQUIRED: &[u8] =
    b"\x05\x03\0\0\x18\0\0\0\0\0\0\0\0\0\0\0\x03\0\0\0\0\x20\0\0\0\0\0\0\0\0\0\0";

/// SEV-SNP with a normal page at 0x1000, secrets at 0x2000, CPUID at 0x3000, and area 0 at 0x4000 with the command
/// line at its byte 0. All data are zeros.
pub(crate) const KINDS: &[u8] = b"\
    \x01\0\0\0\x10\0\0\0\x01\0\0\0\0\x02\x01\0\0\0\0\0\0\0\0\0\
    \x02\x03\0\0\x18\0\0\0\0\x10\0\0\0\0\0\0\x01\0\0\0\0\0\0\0\0\0\0\0\0\0\0\0\
    \x02\x03\0\0\x18\0\0\0\0\x20\0\0\0\0\0\0\x01\0\0\0\0\0\0\0\0\0\0\0\x01\0\0\0\
    \x02\x03\0\0\x18\0\0\0\0\x30\0\0\0\0\0\0\x01\0\0\0\0\0\0\0\0\0\0\0\x02\0\0\0\
    \x01\x03\0\0\x10\0\0\0\0\x10\0\0\0\0\0\0\0\0\0\0\0\0\0\0\
    \x0E\x03\0\0\x08\0\0\0\0\0\0\0\0\0\0\0\
    \x03\x03\0\0\x10\0\0\0\0\x40\0\0\0\0\0\0\x01\0\0\0\0\0\0\0";

/// SEV-SNP and TDX with headers of most types. Both have a page at 0x1000 of the first half of the data, an
/// unmeasured one at 0x2000 of the second, and at 0x8000 area 0 of all data with the command line at its byte 16.
/// SEV-SNP alone has a page of zeros at 0x3000, secrets at 0x5000, CPUID at 0x6000 and 0x7000, and the context of
/// processor 3 of the second half; TDX alone a page at 0x4000 of the second half.
pub(crate) const MANY: &[u8] = b"\
    \x01\0\0\0\x10\0\0\0\x01\0\0\0\0\x02\x01\0\0\0\0\0\0\0\0\0\
    \x01\0\0\0\x10\0\0\0\x02\0\0\0\0\x03\x01\0\0\0\0\0\0\0\0\0\
    \x01\x01\0\0\x10\0\0\0\0\0\x03\0\0\0\0\0\x01\0\0\0\0\0\0\0\
    \x01\x03\0\0\x10\0\0\0\0\x20\0\0\0\0\0\0\0\0\0\0\0\x10\0\0\
    \x0E\x03\0\0\x08\0\0\0\0\0\0\0\x10\0\0\0\
    \x05\x03\0\0\x18\0\0\0\0\0\0\0\0\0\0\0\x03\0\0\0\0\xA0\0\0\0\0\0\0\0\0\0\0\
    \x02\x03\0\0\x18\0\0\0\0\x10\0\0\0\0\0\0\x03\0\0\0\0\x10\0\0\0\0\0\0\0\0\0\0\
    \x02\x03\0\0\x18\0\0\0\0\x20\0\0\0\0\0\0\x03\0\0\0\0\x20\0\0\x02\0\0\0\0\0\0\0\
    \x02\x03\0\0\x18\0\0\0\0\x30\0\0\0\0\0\0\x01\0\0\0\0\0\0\0\0\0\0\0\0\0\0\0\
    \x02\x03\0\0\x18\0\0\0\0\x40\0\0\0\0\0\0\x02\0\0\0\0\x20\0\0\0\0\0\0\0\0\0\0\
    \x02\x03\0\0\x18\0\0\0\0\x50\0\0\0\0\0\0\x01\0\0\0\0\x10\0\0\x02\0\0\0\x01\0\0\0\
    \x02\x03\0\0\x18\0\0\0\0\x60\0\0\0\0\0\0\x01\0\0\0\0\0\0\0\0\0\0\0\x02\0\0\0\
    \x02\x03\0\0\x18\0\0\0\0\x70\0\0\0\0\0\0\x01\0\0\0\0\0\0\0\0\0\0\0\x03\0\0\0\
    \x03\x03\0\0\x10\0\0\0\0\x80\0\0\0\0\0\0\x03\0\0\0\0\0\0\0\
    \x04\x03\0\0\x14\0\0\0\0\xF0\xFF\xFF\xFF\xFF\0\0\x01\0\0\0\0\x20\0\0\x03\0\0\0\0\0\0\0\
    \x0D\x03\0\0\x10\0\0\0\0\x10\0\0\0\0\0\0\x03\0\0\0\0\x10\0\0";

/// An ID block, up to the launch digest that it wants, which has 48 bytes.
pub(crate) const ID_BLOCK: &[u8] = b"\x0B\x03\0\0\xB8\x02\0\0\x03\0\0\0\0\0\0\0";

/// What an ID block has after the launch digest that it wants: zeros.
pub(crate) const ID_BLOCK_REST: &[u8] = &[0; 640];

/// The file of these headers in a row. Data, if there are any, stand from file offset 0x1000 on.
pub(crate) fn image(alloc: Global, headers: &[u8], data: &[u8]) -> Result<Vec<u8>, AllocError> {
    let size = number(headers.len());
    let end = size.saturating_add(24);
    let gap = if data.is_empty() {
        0
    } else {
        4096u32.saturating_sub(end)
    };
    let total = end.saturating_add(gap).saturating_add(number(data.len()));
    let mut file = Vec::new(alloc);
    file.extend_from_slice(b"IGVM\x01\0\0\0\x18\0\0\0")?;
    file.extend_from_slice(&size.to_le_bytes())?;
    file.extend_from_slice(&total.to_le_bytes())?;
    let state = crc_more(crc_more(crc_begin(), &file), &[0; 4]);
    file.extend_from_slice(&crc_end(crc_more(state, headers)).to_le_bytes())?;
    file.extend_from_slice(headers)?;
    for _ in 0..gap {
        file.push(0)?;
    }
    file.extend_from_slice(data)?;
    Ok(file)
}

/// A number of a small file.
fn number(n: usize) -> u32 {
    u32::try_from(n).unwrap_or(0)
}

/// Two pages of data: byte j is the rest of j by 251.
pub(crate) fn pattern(alloc: Global) -> Result<Vec<u8>, AllocError> {
    let mut data = Vec::new(alloc);
    for j in 0..8192 {
        data.push(pattern_byte(j))?;
    }
    Ok(data)
}

/// Byte `j` of them.
pub(crate) fn pattern_byte(j: usize) -> u8 {
    (j % 251) as u8
}

/// A page of the data.
pub(crate) fn is_first_page(page: &[u8]) -> bool {
    page.iter()
        .enumerate()
        .all(|(j, byte)| *byte == pattern_byte(j))
}

/// The other page.
pub(crate) fn is_second_page(page: &[u8]) -> bool {
    page.iter()
        .enumerate()
        .all(|(j, byte)| *byte == pattern_byte(j.saturating_add(4096)))
}

/// A page of one byte.
pub(crate) fn page_of(alloc: Global, byte: u8) -> Result<Vec<u8>, AllocError> {
    vec![in alloc; byte; 4096]
}

/// SEV-SNP, and so many 2 MB pages from address 0 on.
pub(crate) fn with_large_pages(alloc: Global, count: u32) -> Result<Vec<u8>, AllocError> {
    let mut headers = SNP.to_vec(alloc)?;
    for k in 0..count {
        headers.extend_from_slice(&LARGE[..8])?;
        headers.extend_from_slice(&(u64::from(k) * 0x200000).to_le_bytes())?;
        headers.extend_from_slice(&LARGE[16..])?;
    }
    Ok(headers)
}
