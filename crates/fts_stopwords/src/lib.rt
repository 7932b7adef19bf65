//! Stopwords: the words that are never indexed.
//!
//! `StopSet::Default` has the 36 words of the manual, and `set.contains(b"the")` says that `the` is
//! one of them. Source: MySQL 8.0 Reference Manual, "Full-Text Stopwords".
//!
//! A look-up costs one load of eight bytes and one comparison.
#![tactic(auto)]

ghost use Rattle.std.specs.Prelude.{◌≡◌, ◌≤◌, ◌↔◌, length, map, IsTrue, Contains};
ghost use Rattle.fts_words.specs.Byte.{lowered};
ghost use Rattle.fts_words.specs.RawWords.{bytes_of};
ghost use Rattle.fts_words.specs.Stopwords.{default_stopwords};
ghost use Rattle.fts_words.specs.Order.{is_among};
ghost use Rattle.fts_stopwords.specs.StopSet.{words_of};

mod number;

use crate::number::{is_stopword_number, last_number_of, number_of};
use fts_words::Span;

/// The default stopwords, in the order of InnoDB's list, in which `the` stands twice.
///
/// Source: MySQL 8.0 Reference Manual, "Full-Text Stopwords".
pub const DEFAULT: [&str; 36] = [
    "a", "about", "an", "are", "as", "at", "be", "by", "com", "de", "en", "for", "from", "how",
    "i", "in", "is", "it", "la", "of", "on", "or", "that", "the", "this", "to", "was", "what",
    "when", "where", "who", "will", "with", "und", "the", "www",
];

/// A set of stopwords.
#[derive(Debug, PartialEq, Eq, Drop)]
pub enum StopSet {
    /// No word.
    Empty,
    /// The words of `DEFAULT`.
    Default,
}

/// Whether a word of a text is a default stopword once its letters are lowered. It branches on
/// where the word starts, and not on what it is.
#[inline(always)]
fn is_default_at(text: &[u8], word: &Span) -> bool
    requires order { word.now.from ≤ word.now.to }
    requires within { word.now.to ≤ length text.now }
    ensures { result ≡ is_among default_stopwords (lowered (bytes_of text.now word.now)) }
{
    let len = word.to - word.from;
    if word.from >= text.len().saturating_sub(7) {
        return is_stopword_number(last_number_of(text, word.from, len));
    }
    is_stopword_number(number_of(text, word.from, len))
}

/// Whether no letter of a word is upper case.
fn is_lowered(word: &[u8]) -> bool
    ensures { IsTrue result ↔ (lowered word.now ≡ word.now) }
{
    !word.iter().any(u8::is_ascii_uppercase)
}

/// The rows of `DEFAULT`, each as text.
#[tactic(auto, unfolding(fts_words::specs::Stopwords::default_stopwords))]
pub fn default_words() -> &'static [&'static str]
    ensures { map (λ w. w.now) result.now ≡ default_stopwords }
{
    &DEFAULT
}

impl StopSet {
    /// Whether the word is in the set, byte by byte. It takes no memory.
    pub fn contains(&self, word: &[u8]) -> bool
        ensures member { IsTrue result ↔ Contains (words_of self.now) word.now }
        ensures listed { result ≡ is_among (words_of self.now) word.now }
    {
        self.contains_lowered(word) && is_lowered(word)
    }

    /// Whether the word is in the set once its letters are lowered. It takes no memory.
    fn contains_lowered(&self, word: &[u8]) -> bool
        ensures { result ≡ is_among (words_of self.now) (lowered word.now) }
    {
        let whole = Span {
            from: 0,
            to: word.len(),
        };
        self.contains_lowered_at(word, &whole)
    }

    /// Whether a word that stands in a text is in the set once its letters are lowered. It takes no
    /// memory.
    #[inline(always)]
    pub fn contains_lowered_at(&self, text: &[u8], word: &Span) -> bool
        requires order { word.now.from ≤ word.now.to }
        requires within { word.now.to ≤ length text.now }
        ensures { result ≡ is_among (words_of self.now) (lowered (bytes_of text.now word.now)) }
    {
        match self {
            StopSet::Empty => false,
            StopSet::Default => is_default_at(text, word),
        }
    }
}
