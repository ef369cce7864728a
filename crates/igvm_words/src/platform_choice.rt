//! The platform that a word asks for.
ghost use Rattle.std.specs.Prelude.{◌≡◌};
ghost use Rattle.std.specs.Option.{option_map};
ghost use Rattle.igvm_words.specs.Words.{choice_of, is_text};
ghost use Rattle.igvm_words.specs.JobView.{choice_view};

use crate::number::number_of;
use crate::words::is_text;
use igvm_headers::PlatformKind;

/// The platform that is asked for.
#[derive(Clone, Copy)]
pub enum PlatformChoice {
    /// The first of a kind.
    First(PlatformKind),
    /// The one of a number.
    Numbered(u32),
}

/// The platform that a word asks for: `snp`, `tdx` or a number of 32 bits, as `number_of` reads it.
/// `None` for every other word.
#[tactic(auto, unfolding(crate::specs::Words::choice_of))]
pub fn choice_of(word: &str) -> Option<PlatformChoice>
    ensures { option_map choice_view result ≡ choice_of word.now }
{
    if is_text(word, "snp") {
        return Some(PlatformChoice::First(PlatformKind::SevSnp));
    }
    if is_text(word, "tdx") {
        return Some(PlatformChoice::First(PlatformKind::Tdx));
    }
    number_of(word).map(|number| PlatformChoice::Numbered(number))
}
