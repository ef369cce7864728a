//! The numbers of a VMSA in JSON, which are written as addresses.
ghost use Rattle.std.specs.Prelude.{◌≡◌, IfOk, IfErr, Ok, Err};
ghost use Rattle.json_forms.specs.Forms.{address, optional};
ghost use Rattle.serde_json.specs.View.{view};
ghost use Rattle.vmsa_page.specs.Fields.{numbers};
ghost use Rattle.vmsa_page.specs.Sources.{all_at};

use crate::fields::field_name;
use crate::refusal::VmsaRefusal;
use json_forms::address;
use serde_json::Value;

/// The numbers, or the place of the first that fails.
pub(crate) fn numbers_in(json: &Value) -> Result<[u64; 13], VmsaRefusal>
    ensures read { IfOk result (λ found. all_at address 0 (view json.now) 11 numbers ≡ Ok found) }
    ensures refused { IfErr result (λ e. all_at address 0 (view json.now) 11 numbers ≡ Err e) }
{
    let mut found = [0; 13];
    'steps: for place in 0..13 {
        let Some(number) = address_at(json, field_name(10 + place)) else {
            return Err(VmsaRefusal::Field {
                place: place as u32 + 11,
            });
        };
        found[place] = number;
    }
    Ok(found)
}

/// An address at a key, or 0 where it is missing.
pub(crate) fn address_at(json: &Value, key: &str) -> Option<u64>
    ensures { result ≡ optional address 0 key.now (view json.now) }
{
    match json.get(key) {
        Some(found) => address(found),
        None => Some(0),
    }
}
