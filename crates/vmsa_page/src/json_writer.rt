//! VMSAs as JSON (RFC 8259): compact, with the keys of each object in rising order of their bytes.
ghost use Rattle.std.specs.Prelude.{◌≡◌, ◌<◌, IfOk, OnOk};
ghost use Rattle.json.specs.Tree.{members_tokens};
ghost use Rattle.serde_json.specs.Written.{members_outline};
ghost use Rattle.vmsa_page.specs.Fields.{key_name};
ghost use Rattle.vmsa_page.specs.Texts.{key_order, members_of, part_of, vmsa_json};
ghost use Rattle.vmsa_page.specs.Tokens.{Adds, part_tokens};

use crate::fields::field_name;
use crate::others_text::write_others;
use crate::segment_text::write_segment;
use crate::value_text::write_number;
use crate::vmsa::Vmsa;
use igvm_headers::Memory;
use json::Writer;
use std::alloc::{AllocError, Global};

/// The keys in rising order of their bytes, by number: 0 to 9 are the segments, 10 to 22 the
/// numbers, and 23 is `other`.
const KEY_ORDER: [usize; 24] = [
    13, 12, 11, 1, 15, 14, 3, 10, 0, 4, 20, 6, 5, 8, 7, 23, 19, 16, 17, 18, 21, 2, 9, 22,
];

/// The compact JSON of a VMSA, without a newline. Registers that are 0 are left out.
pub fn vmsa_text(alloc: Global, vmsa: &Vmsa) -> Result<Vec<u8>, Memory>
    ensures { IfOk result (λ text. text.items ≡ vmsa_json vmsa.now) }
{
    match object_text(alloc, vmsa) {
        Ok(text) => Ok(text),
        Err(_) => Err(Memory),
    }
}

/// The object of a VMSA as a text.
fn object_text(alloc: Global, vmsa: &Vmsa) -> Result<Vec<u8>, AllocError>
    ensures { IfOk result (λ text. text.items ≡ vmsa_json vmsa.now) }
{
    let mut out = Writer::new(Vec::new(alloc));
    out.begin_object()?;
    write_members(alloc, vmsa, &mut out)?;
    Ok(out.into_inner())
}

/// What stands at the keys, and the end of the object.
fn write_members(alloc: Global, vmsa: &Vmsa, out: &mut Writer) -> Result<(), AllocError>
    ensures { OnOk result (Adds out.old out.new
        (members_tokens (members_outline (members_of vmsa.now key_order)))) }
{
    'steps: for key in KEY_ORDER {
        write_member(alloc, vmsa, key, out)?;
    }
    out.end_object()
}

/// What stands at a key, unless that is zero.
#[tactic(auto, unfolding(crate::specs::Texts::part_of))]
fn write_member(alloc: Global, vmsa: &Vmsa, key: usize, out: &mut Writer) -> Result<(), AllocError>
    requires { key < 24 }
    ensures { OnOk result (Adds out.old out.new
        (part_tokens (key_name key) (part_of vmsa.now key))) }
{
    if key < 10 {
        return write_segment(alloc, field_name(key), vmsa.segments[key], out);
    }
    if key < 23 {
        return write_number(alloc, field_name(key), vmsa.numbers[key - 10], out);
    }
    write_others(vmsa.other.as_slice(), out)
}
