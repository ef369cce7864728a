//! `igvm_rule_text`: the words for a rule.
ghost use Rattle.std.specs.Prelude.{◌≡◌, length};
ghost use Rattle.igvm_c.specs.Texts.{rule_text, with_text};

use crate::rules::rule_of;
use rule_texts::rule_words;

/// Writes the words for the rule of a number and a zero byte into `text`, where both have room there, and
/// answers how many bytes the words have: 0 where there is no such rule.
#[unsafe(no_mangle)]
pub extern "C" fn igvm_rule_text(rule: u32, text: &mut [u8]) -> usize
    ensures size { result ≡ length (rule_text rule) }
    ensures text { text.new ≡ with_text (rule_text rule) text.old }
{
    let words = words_of(rule);
    put_text(words, text);
    words.len()
}

/// The words for the rule of a number.
fn words_of(rule: u32) -> &'static [u8]
    ensures { result.now ≡ rule_text rule }
{
    match rule_of(rule) {
        Some(what) => rule_words(what).as_bytes(),
        None => b"",
    }
}

/// Writes words and a zero byte, where both have room.
fn put_text(words: &[u8], text: &mut [u8])
    ensures { text.new ≡ with_text words.now text.old }
{
    if words.len() < text.len() {
        text[..words.len()].copy_from_slice(words);
        text[words.len()] = 0;
    }
}
