//! The reader: the rules of docs/FORMAT.md in their order.
ghost use Rattle.std.specs.Prelude.{◌≡◌, ◌<◌, ◌≤◌, ◌+◌, ◌^◌, [], length, None, Some, Ok, IfOk, IfErr, OnOk, ◌++◌, replicate, take, drop};
ghost use Rattle.igvm_headers.specs.Fixed.{fixed_form, fixed_size};
ghost use Rattle.igvm_headers.specs.Checksum.{crc};
ghost use Rattle.igvm_image.specs.HeaderRules.{seen_of};
ghost use Rattle.igvm_image.specs.FileFault.{what_of, judged, section_fault, section_of, checked_bytes, fields_fault, fault_of};
ghost use Rattle.igvm_image.specs.Headers.{decoded};
ghost use Rattle.igvm_image.specs.Pieces.{pieces};
ghost use Rattle.igvm_image.specs.PieceView.{piece_view};

use crate::piece::{Piece, split_piece};
use crate::seen_headers::SeenHeaders;
use igvm_headers::{
    FixedHeader, Header, HeaderFault, ReadFault, ReadWhat, crc_begin, crc_end, crc_more,
    decode_header, read_fixed,
};

/// What the headers of an accepted section are to a view.
#[derive(Drop)]
pub(crate) struct Contents {
    pub seen: SeenHeaders,
    pub count: u32,
}

/// A header's fault as the reader answers it.
fn what_of(fault: HeaderFault) -> ReadWhat
    ensures { result ≡ what_of fault }
{
    match fault {
        HeaderFault::UnknownType { kind } => ReadWhat::UnknownType { kind },
        HeaderFault::Length => ReadWhat::Length,
        HeaderFault::Flags { bit } => ReadWhat::Flags { bit },
        HeaderFault::DataType => ReadWhat::DataType,
        HeaderFault::PlatformType => ReadWhat::PlatformType,
    }
}

/// A header behind those seen, or the first rule that it breaks.
#[tactic(auto, unfolding(crate::specs::FileFault::judged))]
fn judged(seen: &SeenHeaders, total: u32, piece: &Piece<'_>) -> Result<Header, ReadWhat>
    requires { length piece.now.content.now < 2 ^ 32 }
    ensures { result ≡ judged total seen.now (piece_view piece.now).0 }
{
    let header = match decode_header(piece.kind, piece.content) {
        Ok(header) => header,
        Err(fault) => return Err(what_of(fault)),
    };
    match seen.rule_fault(total, &header) {
        None => Ok(header),
        Some(what) => Err(what),
    }
}

/// The first rule that fails on the fixed header's fields: the total size, the section, the checksum.
fn fields_fault(file: &[u8], fixed: &FixedHeader) -> Option<ReadFault>
    requires { fixed_size fixed.now.version ≤ length file.now }
    ensures { result ≡ fields_fault file.now fixed.now }
{
    let size = fixed.size();
    if fixed.total < size || file.len() < fixed.total as usize {
        let what = ReadWhat::TotalSize;
        return Some(ReadFault { at: 16, what });
    }
    let end = u64::from(fixed.var_offset) + u64::from(fixed.var_size);
    if fixed.var_offset < size || u64::from(fixed.total) < end {
        let what = ReadWhat::Section;
        return Some(ReadFault { at: 8, what });
    }
    let front = &file[..size as usize];
    if checksum(front, section_of(file, fixed)) != fixed.checksum {
        let what = ReadWhat::Checksum;
        return Some(ReadFault { at: 20, what });
    }
    None
}

/// The variable header section.
pub(crate) fn section_of<'a>(file: &'a [u8], fixed: &FixedHeader) -> &'a [u8]
    requires { fixed.now.var_offset + fixed.now.var_size ≤ length file.now }
    ensures value { result.now ≡ section_of file.now fixed.now }
    ensures size { length result.now ≡ fixed.now.var_size }
{
    let rest = &file[fixed.var_offset as usize..];
    &rest[..fixed.var_size as usize]
}

/// The file up to its total size: what lies behind is not read.
pub(crate) fn body_of<'a>(file: &'a [u8], fixed: &FixedHeader) -> &'a [u8]
    requires { fixed.now.total ≤ length file.now }
    ensures { result.now ≡ take fixed.now.total file.now }
{
    &file[..fixed.total as usize]
}

/// The checksum of the fixed header, with zeros for the checksum itself, and the section.
fn checksum(fixed: &[u8], section: &[u8]) -> u32
    requires { 24 ≤ length fixed.now }
    ensures { result ≡ crc (take 20 fixed.now ++ replicate 4 0 ++ drop 24 fixed.now ++ section.now) }
{
    let state = crc_more(crc_begin(), &fixed[..20]);
    let state = crc_more(state, &[0; 4]);
    let state = crc_more(state, &fixed[24..]);
    crc_end(crc_more(state, section))
}

/// Judges the headers of a section that stands at the file offset `start`, in a file of this total size.
pub(crate) fn read_section(section: &[u8], start: u32, total: u32) -> Result<Contents, ReadFault>
    requires { start + length section.now ≤ total }
    ensures accepted { OnOk result (section_fault total start section.now ≡ None) }
    ensures seen { IfOk result (λ c. c.seen ≡ seen_of (decoded (pieces section.now))) }
    ensures count { IfOk result (λ c. c.count ≡ length (decoded (pieces section.now))) }
    ensures fault { IfErr result (λ e. section_fault total start section.now ≡ Some e) }
{
    let mut seen = SeenHeaders::new();
    let mut count = 0;
    let mut rest = section;
    'headers: while let Some(piece) = split_piece(rest) {
        let at = start + (section.len() - rest.len()) as u32;
        let header = match judged(&seen, total, &piece) {
            Ok(header) => header,
            Err(what) => return Err(ReadFault { at, what }),
        };
        seen.push(&header);
        count += 1;
        rest = piece.rest;
    }
    if !rest.is_empty() {
        let at = start + (section.len() - rest.len()) as u32;
        let what = ReadWhat::HeaderCut;
        return Err(ReadFault { at, what });
    }
    if seen.platforms().count() == 0 {
        let what = ReadWhat::NoPlatform;
        return Err(ReadFault { at: start, what });
    }
    Ok(Contents { seen, count })
}

/// The fixed header of a file that keeps the rules on the whole file, or the first that it breaks.
#[tactic(auto, unfolding(crate::specs::FileFault::fault_of, igvm_headers::specs::Fixed::fixed_form))]
pub(crate) fn check_file(file: &[u8]) -> Result<FixedHeader, ReadFault>
    ensures fields { IfOk result (λ fixed. fixed_form file.now ≡ Ok fixed) }
    ensures kept { IfOk result (λ fixed. fields_fault file.now fixed ≡ None) }
    ensures section { IfOk result (λ fixed. fixed.var_offset + fixed.var_size ≤ fixed.total) }
    ensures total { IfOk result (λ fixed. fixed.total ≤ length file.now) }
    ensures fault { IfErr result (λ e. fault_of file.now ≡ Some e) }
{
    let fixed = read_fixed(file)?;
    match fields_fault(file, &fixed) {
        None => Ok(fixed),
        Some(fault) => Err(fault),
    }
}
