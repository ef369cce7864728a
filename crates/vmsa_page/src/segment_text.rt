//! A segment under its key.
ghost use Rattle.std.specs.Prelude.{◌++◌, OnOk, Some, codes};
ghost use Rattle.vmsa_page.specs.Texts.{address_data, number_data, segment_data, segment_part};
ghost use Rattle.vmsa_page.specs.Tokens.{Adds, data_tokens, part_tokens};

use crate::segment::Segment;
use crate::value_text::{write_address, write_decimal};
use json::Writer;
use std::alloc::{AllocError, Global};

/// A segment, under its key, unless it is all zeros.
pub(crate) fn write_segment(
    alloc: Global,
    key: &str,
    segment: Segment,
    out: &mut Writer,
) -> Result<(), AllocError>
    ensures { OnOk result (Adds out.old out.new (part_tokens key.now (segment_part segment))) }
{
    if segment.is_zero() {
        return Ok(());
    }
    write_keyed(alloc, key, segment, out)
}

/// A segment, under its key.
fn write_keyed(
    alloc: Global,
    key: &str,
    segment: Segment,
    out: &mut Writer,
) -> Result<(), AllocError>
    ensures { OnOk result (Adds out.old out.new
        (part_tokens key.now (Some (segment_data segment)))) }
{
    out.key(key)?;
    write_object(alloc, segment, out)
}

/// The object of a segment.
fn write_object(alloc: Global, segment: Segment, out: &mut Writer) -> Result<(), AllocError>
    ensures { OnOk result (Adds out.old out.new (data_tokens (segment_data segment))) }
{
    out.begin_object()?;
    write_first_keys(alloc, segment, out)?;
    write_last_keys(segment, out)?;
    out.end_object()
}

/// The first two keys of a segment.
fn write_first_keys(alloc: Global, segment: Segment, out: &mut Writer) -> Result<(), AllocError>
    ensures { OnOk result (Adds out.old out.new
        (part_tokens (codes "attributes") (Some (number_data segment.attributes))
        ++ part_tokens (codes "base") (Some (address_data segment.base)))) }
{
    write_decimal("attributes", u64::from(segment.attributes), out)?;
    write_address(alloc, "base", segment.base, out)
}

/// The last two keys of a segment.
fn write_last_keys(segment: Segment, out: &mut Writer) -> Result<(), AllocError>
    ensures { OnOk result (Adds out.old out.new
        (part_tokens (codes "limit") (Some (number_data segment.limit))
        ++ part_tokens (codes "selector") (Some (number_data segment.selector)))) }
{
    write_decimal("limit", u64::from(segment.limit), out)?;
    write_decimal("selector", u64::from(segment.selector), out)
}
