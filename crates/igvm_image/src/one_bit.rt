//! Masks of one bit, as each platform has one (`igvm_defs`, IGVM_VHS_SUPPORTED_PLATFORM).
ghost use Rattle.std.specs.Prelude.{◌≡◌};
ghost use Rattle.igvm_image.specs.HeaderRules.{is_one_bit};

/// A mask has exactly one bit.
#[tactic(auto, using(crate::proofs::OneBitLemmas::power_of_two_is_one_bit))]
pub(crate) fn is_one_bit(mask: u32) -> bool
    ensures { result ≡ is_one_bit mask }
{
    mask.is_power_of_two()
}
