//! Addresses: texts of `0x` and hexadecimal digits.
ghost use Rattle.std.specs.Prelude.{◌≡◌, ◌<◌, ◌≤◌, length, SomeIff};
ghost use Rattle.std.specs.Char.{digit_value};
ghost use Rattle.serde_json.specs.View.{view};
ghost use Rattle.json_forms.specs.Forms.{address, address_of, number_of};

use serde_json::Value;

/// An address: a text of `0x` and 1 to 16 hexadecimal digits of either case.
pub fn address(json: &Value) -> Option<u64>
    ensures { result ≡ address (view json.now) }
{
    address_of(json.as_str()?)
}

/// The number that a text of `0x` and 1 to 16 hexadecimal digits writes.
#[tactic(auto, unfolding(crate::specs::Forms::address_of))]
fn address_of(text: &str) -> Option<u64>
    ensures { result ≡ address_of text.now }
{
    let text = text.as_bytes();
    if text.len() <= 2 || text.len() > 18 || !text.starts_with(b"0x") {
        return None;
    }
    number_of(&text[2..])
}

/// The number that hexadecimal digits write.
#[tactic(auto, unfolding(crate::specs::Forms::number_of))]
fn number_of(digits: &[u8]) -> Option<u64>
    requires { length digits.now ≤ 16 }
    ensures { result ≡ number_of digits.now }
{
    let mut number = 0;
    'steps: for digit in digits {
        let Some(value) = digit_value(*digit) else {
            return None;
        };
        number = number * 16 + value;
    }
    Some(number)
}

/// The value of a hexadecimal digit.
fn digit_value(digit: u8) -> Option<u64>
    ensures { SomeIff result (digit_value digit < 16) (digit_value digit) }
{
    char::from(digit).to_digit(16).map(u64::from)
}
