//! Numbers in words.
ghost use Rattle.std.specs.Prelude.{◌≡◌};
ghost use Rattle.std.specs.List.{list_all};
ghost use Rattle.std.specs.Char.{is_ascii_digit};
ghost use Rattle.igvm_words.specs.Words.{count_of, number_of, is_decimal};

/// The most pages that an image is made of.
const MOST_PAGES: u32 = 100_000;

/// The number of pages that a word is, from 1 to 100,000.
pub(crate) fn count_of(word: &str) -> Option<u32>
    ensures { result ≡ count_of word.now }
{
    let count = number_of(word)?;
    (1 <= count && count <= MOST_PAGES).then_some(count)
}

/// The number of 32 bits that a word is, in decimal digits with no sign and no leading zero. `None` for
/// every other word.
#[tactic(auto, using(crate::proofs::NumberLemmas::parsed, crate::proofs::NumberLemmas::other_word))]
pub fn number_of(word: &str) -> Option<u32>
    ensures { result ≡ number_of word.now }
{
    if is_decimal(word.as_bytes()) {
        word.parse().ok()
    } else {
        None
    }
}

/// Decimal digits without a leading zero.
fn is_decimal(word: &[u8]) -> bool
    ensures { result ≡ is_decimal word.now }
{
    match word {
        [] => false,
        [first, rest @ ..] => are_digits(word) && (*first != b'0' || rest.is_empty()),
    }
}

fn are_digits(word: &[u8]) -> bool
    ensures { result ≡ list_all is_ascii_digit word.now }
{
    word.iter().all(|byte| byte.is_ascii_digit())
}
