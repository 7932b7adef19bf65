//! What the words of a text are: raw words, indexed words, and where they stand in a row.
//!
//! The definitions are in `specs/`: in `it's 'ok'` the raw words are `it's` and `ok`. This crate
//! has the types that they are about, [`Span`] and [`PlacedWord`], and the laws that hold of them,
//! which a caller cites as `raw_words_are_exact();` and which cost nothing.
#![tactic(auto)]

mod laws;
mod placed;
mod span;

pub use laws::{raw_words_are_exact, raw_words_stand_apart, word_byte_has_one_word};
pub use placed::PlacedWord;
pub use span::Span;
