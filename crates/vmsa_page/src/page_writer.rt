//! Pages from VMSAs: AMD64 Architecture Programmer's Manual, volume 2, appendix B, VMSA layout.
ghost use Rattle.std.specs.Prelude.{◌≡◌, ◌≤◌, ◌<◌, ◌+◌, length, map};
ghost use Rattle.std.specs.List.{AllByRecursion};
ghost use Rattle.byteorder.specs.Endian.{little_bytes};
ghost use Rattle.vmsa_page.specs.Fields.{numbers, segments};
ghost use Rattle.vmsa_page.specs.Pages.{byte_by, page_of, segment_bytes};
ghost use Rattle.vmsa_page.specs.Overlays.{IsOverlay, other_or, run_or};

use crate::fields::{numbers, segments};
use crate::other_byte::OtherByte;
use crate::segment::Segment;
use crate::vmsa::Vmsa;

/// Writes the page of a VMSA over all 4,096 bytes of `out`. It takes no memory.
pub fn write_page(vmsa: &Vmsa, out: &mut [u8])
    requires { length out.old ≡ 4096 }
    ensures { out.new ≡ page_of vmsa.now }
{
    clear(out);
    write_others(vmsa.other.as_slice(), out);
    write_numbers(&vmsa.numbers, out);
    write_segments(&vmsa.segments, out);
}

/// Writes zeros alone.
fn clear(out: &mut [u8])
    ensures { IsOverlay (λ _ _. 0) out.old out.new }
{
    out.fill(0);
}

// Each of the three goes from its last item to the first: so of two that write one byte the first
// stands, as it does in the definition of the page.

/// Writes the other bytes at their places.
fn write_others(others: &[OtherByte], out: &mut [u8])
    requires { AllByRecursion (λ o. o.at < length out.old) others.now }
    ensures { IsOverlay (other_or others.now) out.old out.new }
{
    let mut left = others.len();
    'steps: while left > 0 {
        left -= 1;
        let other = others[left];
        out[usize::from(other.at)] = other.byte;
    }
}

/// Writes the numbers at their places.
fn write_numbers(values: &[u64; 13], out: &mut [u8])
    requires { length out.old ≡ 4096 }
    ensures { IsOverlay (byte_by numbers (map (little_bytes 8) values.now)) out.old out.new }
{
    let fields = numbers();
    let mut left = 13;
    'steps: while left > 0 {
        left -= 1;
        put(fields[left].offset, &values[left].to_le_bytes(), out);
    }
}

/// Writes the segments at their places.
fn write_segments(values: &[Segment; 10], out: &mut [u8])
    requires { length out.old ≡ 4096 }
    ensures { IsOverlay (byte_by segments (map segment_bytes values.now)) out.old out.new }
{
    let fields = segments();
    let mut left = 10;
    'steps: while left > 0 {
        left -= 1;
        put(fields[left].offset, &values[left].to_le_bytes(), out);
    }
}

/// Writes bytes from a place on.
fn put(at: usize, bytes: &[u8], out: &mut [u8])
    requires { at + length bytes.now ≤ length out.old }
    ensures { IsOverlay (run_or at bytes.now) out.old out.new }
{
    let end = at + bytes.len();
    out[at..end].copy_from_slice(bytes);
}
