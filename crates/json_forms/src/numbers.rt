//! Numbers written without sign, fraction and exponent.
ghost use Rattle.std.specs.Prelude.{◌≡◌};
ghost use Rattle.serde_json.specs.View.{view};
ghost use Rattle.json_forms.specs.Forms.{byte, short, word};

use serde_json::Value;

/// A number of 8 bits, written without sign, fraction and exponent.
pub fn byte(json: &Value) -> Option<u8>
    ensures { result ≡ byte (view json.now) }
{
    u8::try_from(json.as_u64()?).ok()
}

/// A number of 16 bits, written in the same way.
pub fn short(json: &Value) -> Option<u16>
    ensures { result ≡ short (view json.now) }
{
    u16::try_from(json.as_u64()?).ok()
}

/// A number of 32 bits, written in the same way.
pub fn word(json: &Value) -> Option<u32>
    ensures { result ≡ word (view json.now) }
{
    u32::try_from(json.as_u64()?).ok()
}
