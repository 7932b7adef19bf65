ghost use Rattle.std.specs.Prelude.{◌≡◌, ◌+◌, ◌<◌, ℕ, List, length, slice_index, IfOk};
ghost use Rattle.fts_words.specs.RawWords.{raw_words_from};
ghost use Rattle.fts_meaning.specs.Token.{words_in};
ghost use Rattle.fts_query.specs.Ahead.{words_ahead, word_from};

use fts_token::{RawWords, lowered, raw_words};
use fts_types::Texts;
use fts_words::Span;
use std::alloc::{AllocError, Global};

/// The byte at a place, or 0 behind the end.
pub(crate) fn byte_at(text: &[u8], place: usize) -> u8
    ensures { result ≡ slice_index text.now place }
{
    if place < text.len() { text[place] } else { 0 }
}

/// The raw words of a text from a place on, the first of them at hand.
#[derive(Clone, Copy, Debug)]
pub(crate) struct WordsAhead<'a> {
    first: Option<Span>,
    rest: RawWords<'a>,
}

impl<'a> WordsAhead<'a> {
    /// All raw words of a text.
    pub(crate) fn new(text: &'a [u8]) -> Self
        ensures { words_ahead result ≡ raw_words_from text.now 0 }
    {
        let mut rest = raw_words(text);
        let first = rest.next();
        WordsAhead { first, rest }
    }

    /// The raw word that starts at a place, if one does; no word before the place is left. The
    /// words behind the place stay.
    pub(crate) fn take_at(&mut self, place: usize) -> Option<Span>
        ensures word { (text : List ℕ) → words_ahead self.old ≡ raw_words_from text place
            → place < length text → result ≡ word_from text place }
        ensures left { (text : List ℕ) → words_ahead self.old ≡ raw_words_from text place
            → place < length text → words_ahead self.new ≡ raw_words_from text (place + 1) }
    {
        let word = match self.first {
            None => return None,
            Some(word) => word,
        };
        if word.from != place {
            return None;
        }
        self.first = self.rest.next();
        Some(word)
    }
}

/// The raw words of a text with their letters lowered.
pub fn words_in(alloc: Global, text: &[u8]) -> Result<Texts, AllocError>
    ensures { IfOk result (λ words. words ≡ words_in text.now) }
{
    let mut words = Texts::new(alloc);
    let mut rest = raw_words(text);
    while let Some(word) = rest.next() {
        words.push(lowered(alloc, word.of(text))?)?;
    }
    Ok(words)
}
