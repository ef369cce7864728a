//! The walk over the program headers (ELF-64 Object File Format, "Program header table").
ghost use Rattle.std.specs.Prelude.{◌≡◌, ◌+◌, ◌<◌, ◌≤◌, length, IfOk, IfErr, OnOk, None, Some};
ghost use Rattle.elf_pages.specs.FileHeader.{header_count, header_offset, table_offset};
ghost use Rattle.elf_pages.specs.Faults.{header_fault, headers_fault};
ghost use Rattle.elf_pages.specs.SegmentTables.{AreSorted, HasSame};
ghost use Rattle.elf_pages.specs.Segments.{segments_before, segments_of};

use crate::fault::ElfFault;
use crate::file_rules::HEADER_BYTES;
use crate::segment::{Segment, is_loadable};
use crate::segment_rules::segment_fault;
use crate::segment_table::{SegmentTable, place_of};

/// Puts the segment of program header `k`, where it is loadable, to those of the headers before it, or
/// answers the first rule that it breaks.
fn take_header(table: &mut SegmentTable, file: &[u8], start: usize, k: u16) -> Result<(), ElfFault>
    requires start { start ≡ table_offset file.now }
    requires within { header_offset file.now k + 56 ≤ length file.now }
    requires sorted { AreSorted (length file.now) table.old }
    requires same { HasSame file.now (segments_before file.now k) table.old }
    ensures sorted { OnOk result (AreSorted (length file.now) table.new) }
    ensures same { OnOk result (HasSame file.now (segments_before file.now (k + 1)) table.new) }
    ensures accepted { OnOk result (header_fault file.now k ≡ None) }
    ensures fault { IfErr result (λ e. header_fault file.now k ≡ Some e) }
{
    let at = start + HEADER_BYTES * usize::from(k);
    if !is_loadable(file, at) {
        return Ok(());
    }
    let segment = Segment::read(file, at);
    let segments = table.as_slice();
    if let Some(what) = segment_fault(segments, file.len() as u64, segment) {
        let item = u32::from(k);
        return Err(ElfFault { item, what });
    }
    let place = place_of(segments, segment);
    table.insert(place, segment);
    Ok(())
}

/// The loadable segments of the `count` program headers from `start` on, or the first fault of one.
pub(crate) fn read_headers(file: &[u8], start: usize, count: u16) -> Result<SegmentTable, ElfFault>
    requires start { start ≡ table_offset file.now }
    requires count { count ≡ header_count file.now }
    requires within { 0 < count → header_offset file.now count ≤ length file.now }
    ensures sorted { IfOk result (λ table. AreSorted (length file.now) table) }
    ensures same { IfOk result (λ table. HasSame file.now (segments_of file.now) table) }
    ensures accepted { OnOk result (headers_fault file.now (header_count file.now) ≡ None) }
    ensures fault { IfErr result (λ e. headers_fault file.now (header_count file.now) ≡ Some e) }
{
    let mut table = SegmentTable::new();
    'headers: for k in 0..count {
        take_header(&mut table, file, start, k)?;
    }
    Ok(table)
}
