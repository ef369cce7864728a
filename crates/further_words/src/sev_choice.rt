//! The SEV or SEV-ES platform that a word asks for.
ghost use Rattle.std.specs.Prelude.{◌≡◌, IfSome};
ghost use Rattle.std.specs.Option.{option_map};
ghost use Rattle.igvm_words.specs.JobView.{choice_view};
ghost use Rattle.further_words.specs.FurtherWords.{sev_choice_of};
ghost use Rattle.further_words.specs.WordsOfFurther.{IsSevChoice};

use igvm_headers::PlatformKind;
use igvm_words::{PlatformChoice, is_text, number_of};

/// The platform that a word asks for: `sev`, `sev_es` or a number of 32 bits, as `number_of` reads it.
/// `None` for every other word.
#[tactic(auto, unfolding(crate::specs::FurtherWords::sev_choice_of))]
pub(crate) fn sev_choice_of(word: &str) -> Option<PlatformChoice>
    ensures meant { option_map choice_view result ≡ sev_choice_of word.now }
    ensures possible { IfSome result (λ wanted. IsSevChoice (choice_view wanted)) }
{
    if is_text(word, "sev") {
        return Some(PlatformChoice::First(PlatformKind::Sev));
    }
    if is_text(word, "sev_es") {
        return Some(PlatformChoice::First(PlatformKind::SevEs));
    }
    number_of(word).map(|number| PlatformChoice::Numbered(number))
}
