//! Numbers under their keys, in decimal or as addresses.
ghost use Rattle.std.specs.Prelude.{◌≡◌, ◌<◌, IfOk, OnOk, Some, string_bytes};
ghost use Rattle.vmsa_page.specs.Texts.{address_data, address_text, number_data, number_part};
ghost use Rattle.vmsa_page.specs.Tokens.{Adds, part_tokens};

use json::Writer;
use std::alloc::{AllocError, Global};

/// A number as an address, under its key, unless it is 0.
pub(crate) fn write_number(
    alloc: Global,
    key: &str,
    number: u64,
    out: &mut Writer,
) -> Result<(), AllocError>
    ensures { OnOk result (Adds out.old out.new (part_tokens key.now (number_part number))) }
{
    if number == 0 {
        return Ok(());
    }
    write_address(alloc, key, number, out)
}

/// An address, under its key.
pub(crate) fn write_address(
    alloc: Global,
    key: &str,
    number: u64,
    out: &mut Writer,
) -> Result<(), AllocError>
    ensures { OnOk result (Adds out.old out.new
        (part_tokens key.now (Some (address_data number)))) }
{
    let text = address_text(alloc, number)?;
    out.key(key)?;
    out.string(text.as_str())
}

/// `0x`, and hexadecimal digits in lower case without leading zeros.
#[tactic(auto, unfolding(crate::specs::Texts::address_text))]
fn address_text(alloc: Global, number: u64) -> Result<String, AllocError>
    ensures { IfOk result (λ text. string_bytes text ≡ address_text number) }
{
    format!(in alloc; "0x{number:x}")
}

/// A number in decimal, under its key.
pub(crate) fn write_decimal(key: &str, number: u64, out: &mut Writer) -> Result<(), AllocError>
    requires { number < 18446744073709551616 }
    ensures { OnOk result (Adds out.old out.new (part_tokens key.now (Some (number_data number)))) }
{
    out.key(key)?;
    out.u64(number)
}
