//! The other bytes of a VMSA in JSON.
ghost use Rattle.std.specs.Prelude.{◌≡◌, ◌≢◌, [], Some, option_map, ok_or, IfOk, IfErr, Err};
ghost use Rattle.json_forms.specs.Forms.{or_default};
ghost use Rattle.serde_json.specs.View.{items_view, view};
ghost use Rattle.vmsa_page.specs.Sources.{other_form, other_from, others_form, others_in};

use crate::other_byte::OtherByte;
use crate::refusal::VmsaRefusal;
use json_forms::{byte, has_only, short};
use serde_json::Value;
use std::alloc::Global;

/// The refusal of `other`.
const OTHER: VmsaRefusal = VmsaRefusal::Field { place: 24 };

/// The other bytes of what stands at `other`, which are none where it is missing.
pub(crate) fn others_at(alloc: Global, found: Option<&Value>) -> Result<Vec<OtherByte>, VmsaRefusal>
    ensures read { IfOk result (λ others.
        or_default others_form [] (option_map (λ json. view json.now) found.entry)
        ≡ Some others.items) }
    ensures refused { IfErr result (λ e. e ≢ VmsaRefusal.Memory
        → ok_or (or_default others_form [] (option_map (λ json. view json.now) found.entry))
        (VmsaRefusal.Field 24) ≡ Err e) }
{
    let Some(json) = found else {
        return Ok(Vec::new(alloc));
    };
    let Some(entries) = json.as_array() else {
        return Err(OTHER);
    };
    others_in(alloc, entries)
}

/// The other bytes of these entries, each of which stands behind the ones before.
fn others_in(alloc: Global, entries: &[Value]) -> Result<Vec<OtherByte>, VmsaRefusal>
    ensures read { IfOk result (λ others.
        others_in 0 (items_view entries.now) ≡ Some others.items) }
    ensures refused { IfErr result (λ e. e ≢ VmsaRefusal.Memory
        → ok_or (others_in 0 (items_view entries.now)) (VmsaRefusal.Field 24) ≡ Err e) }
{
    let mut others = Vec::new(alloc);
    let mut low = 0;
    'steps: for entry in entries {
        let Some(other) = other_from(low, entry) else {
            return Err(OTHER);
        };
        low = usize::from(other.at) + 1;
        if others.push(other).is_err() {
            return Err(VmsaRefusal::Memory);
        }
    }
    Ok(others)
}

/// Another byte, whose place is `low` or behind that.
fn other_from(low: usize, json: &Value) -> Option<OtherByte>
    ensures { result ≡ other_from low (view json.now) }
{
    let other = other_form(json)?;
    if other.is_placed(low) {
        Some(other)
    } else {
        None
    }
}

/// An object with exactly `at` and `byte`.
#[tactic(auto, unfolding(crate::specs::Sources::other_form))]
fn other_form(json: &Value) -> Option<OtherByte>
    ensures { result ≡ other_form (view json.now) }
{
    if !has_only(json, &["at", "byte"]) {
        return None;
    }
    let at = short(json.get("at")?)?;
    let byte = byte(json.get("byte")?)?;
    Some(OtherByte { at, byte })
}
