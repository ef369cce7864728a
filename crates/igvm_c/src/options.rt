//! The options of a measurement as a number.
ghost use Rattle.std.specs.Prelude.{◌≡◌};
ghost use Rattle.igvm_c.specs.OptionBits.{options_of};

use crate::refusal::Refusal;
use igvm_headers::Options;

/// The options of a number: 1 is `native_zero`.
pub(crate) fn options_of(number: u32) -> Result<Options, Refusal>
    ensures { result ≡ options_of number }
{
    match number {
        0 => Ok(Options { native_zero: false }),
        1 => Ok(Options { native_zero: true }),
        _ => Err(Refusal::Unknown),
    }
}
