//! Cutting the texts of a row into words.
//!
//! `raw_words` gives the raw words of a text, `placed_words` those of a row, and `indexed_words`
//! those of a row that are indexed, each with its column and position, in order. They are iterators
//! that borrow what they read and take no memory.
//!
//! `raw_words(b"it's 'ok'")` gives the places of `it's` and of `ok`, and
//! `indexed_words(&settings, &texts)` the words that an index keeps of a row.
//!
//! A text is read once, 64 bytes at a time.
#![tactic(auto)]

mod block;
mod found;
mod indexable;
mod indexed;
mod laws;
mod lower;
mod marks;
mod placed;
mod raw;
mod words;

pub use indexable::is_indexable;
pub use indexed::IndexedWords;
pub use laws::{indexed_words_are_exact, placed_words_are_exact};
pub use lower::lowered;
pub use placed::PlacedWords;
pub use raw::{RawWords, has_word_byte, is_word_byte};
pub use words::{indexed_words, placed_words, raw_words};
