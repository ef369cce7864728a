//! The other bytes under their key.
ghost use Rattle.std.specs.Prelude.{OnOk, codes};
ghost use Rattle.json.specs.Tree.{items_tokens};
ghost use Rattle.serde_json.specs.Written.{items_outline};
ghost use Rattle.vmsa_page.specs.Texts.{other_data, other_items, other_part};
ghost use Rattle.vmsa_page.specs.Tokens.{Adds, data_tokens, part_tokens};

use crate::other_byte::OtherByte;
use crate::value_text::write_decimal;
use json::Writer;
use std::alloc::AllocError;

/// The other bytes, under their key, unless there are none.
pub(crate) fn write_others(others: &[OtherByte], out: &mut Writer) -> Result<(), AllocError>
    ensures { OnOk result (Adds out.old out.new
        (part_tokens (codes "other") (other_part others.now))) }
{
    if others.is_empty() {
        return Ok(());
    }
    out.key("other")?;
    out.begin_array()?;
    write_items(others, out)
}

/// The other bytes, and the end of their array.
fn write_items(others: &[OtherByte], out: &mut Writer) -> Result<(), AllocError>
    ensures { OnOk result (Adds out.old out.new
        (items_tokens (items_outline (other_items others.now)))) }
{
    'steps: for other in others {
        write_other(*other, out)?;
    }
    out.end_array()
}

/// Another byte, and its place.
fn write_other(other: OtherByte, out: &mut Writer) -> Result<(), AllocError>
    ensures { OnOk result (Adds out.old out.new (data_tokens (other_data other))) }
{
    out.begin_object()?;
    write_decimal("at", u64::from(other.at), out)?;
    write_decimal("byte", u64::from(other.byte), out)?;
    out.end_object()
}
