//! From the bytes of a JSON text to its value.
ghost use Rattle.std.specs.Prelude.{◌≡◌, None, Some, IfOk, IfErr};
ghost use Rattle.serde_json.specs.View.{view};
ghost use Rattle.json_forms.specs.Texts.{json_of};

use serde_json::Value;
use std::alloc::Global;

/// Why a text has no value.
#[derive(Clone, Copy, Debug, PartialEq, Eq)]
pub enum JsonRefusal {
    /// The bytes are not UTF-8, or not one JSON text.
    NotJson,
    /// Memory ran out.
    Memory,
}

/// The value of a JSON text, as the kit's `serde_json` reads it: arrays and objects nest at most
/// 127 deep, and of two values at one key the later stands.
pub fn json_of(alloc: Global, bytes: &[u8]) -> Result<Value, JsonRefusal>
    ensures value { IfOk result (λ json. json_of bytes.now ≡ Some (view json)) }
    ensures refused { IfErr result (λ e. e ≡ JsonRefusal.NotJson → json_of bytes.now ≡ None) }
{
    match Value::from_slice(alloc, bytes) {
        Ok(json) => Ok(json),
        Err(e) => {
            if e.is_memory() {
                return Err(JsonRefusal::Memory);
            }
            Err(JsonRefusal::NotJson)
        }
    }
}
