//! The words that the program was given.
ghost use Rattle.igvm_words.specs.JobView.{words_view};
ghost use Rattle.igvm_words.specs.Words.{is_text, is_file_name};
ghost use Rattle.std.specs.Prelude.{◌≡◌, [], ◌∷◌, ◌++◌, OnOk, OnErr};

use igvm_headers::Memory;
use std::alloc::Global;
use std::marker::Model;

/// Words in their order. Contracts see the list of their bytes.
#[derive(Drop)]
pub struct Words {
    alloc: Global,
    kept: Vec<String>,
}

impl Model for Words {
    ghost use Rattle.std.specs.Prelude.{List, ℕ, map, string_bytes};

    ghost Value = { List (List ℕ) };

    ghost view = { λ w. map (λ word. string_bytes word) w.kept.items };
}

impl Words {
    /// No words.
    pub fn new(alloc: Global) -> Words
        ensures { result ≡ [] }
    {
        Words {
            alloc,
            kept: Vec::new(alloc),
        }
    }

    /// Adds a word. After `Memory` all is as before.
    pub fn push(&mut self, word: &str) -> Result<(), Memory>
        ensures ok { OnOk result (self.new ≡ self.old ++ word.now ∷ []) }
        ensures err { OnErr result (self.new ≡ self.old) }
    {
        let Ok(word) = String::from_str(self.alloc, word) else {
            return Err(Memory);
        };
        match self.kept.push(word) {
            Ok(()) => Ok(()),
            Err(_) => Err(Memory),
        }
    }

    /// The words, lent.
    pub fn as_slice(&self) -> &[String]
        ensures { words_view result.now ≡ self.now }
    {
        self.kept.as_slice()
    }
}

/// Whether a word is this text, byte for byte.
pub fn is_text(word: &str, text: &str) -> bool
    ensures { result ≡ is_text word.now text.now }
{
    word == text
}

/// Whether a word can name a file: it is not empty and does not begin with `-`.
pub fn is_file_name(word: &str) -> bool
    ensures { result ≡ is_file_name word.now }
{
    match word.as_bytes() {
        [] => false,
        [first, ..] => *first != b'-',
    }
}
