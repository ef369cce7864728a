//! The words for the rules of the reader.
#![tactic(auto)]

mod texts;

pub use texts::rule_words;
