ghost use Rattle.std.specs.Prelude.{◌≡◌, ◌≤◌, ◌<◌, ◌&&◌, not, [], ◌∷◌, length, drop};
ghost use Rattle.std.specs.Prelude.{slice_index_or};
ghost use Rattle.fts_words.specs.RawWords.{in_word, raw_words_from};
ghost use Rattle.fts_meaning.specs.Holds.{starts_with_words, stands_in, stand_together};
ghost use Rattle.fts_token.specs.Bounds.{is_inside};
ghost use Rattle.fts_token.specs.Left.{raw_words_left};
ghost use Rattle.fts_phrase.specs.Words.{lowered_words, begin_with_words, LieIn};

use crate::seek::word_place;
use crate::word::is_word;
use fts_token::{RawWords, has_word_byte, raw_words};
use fts_types::{RowTexts, Texts};
use fts_words::Span;

/// Whether the words of a text that are yet to be given begin with these words, from a place on.
fn follow(text: &[u8], rest: &RawWords<'_>, words: &Texts, from: usize) -> bool
    requires { LieIn text.now (raw_words_left rest.now) }
    ensures { result ≡ starts_with_words (lowered_words text.now (raw_words_left rest.now))
        (drop from words.now) }
{
    let mut ahead = *rest;
    for place in from..words.len() {
        match ahead.next() {
            None => return false,
            Some(found) => {
                if !is_word(text, &found, words.text(place)) {
                    return false;
                }
            }
        }
    }
    true
}

/// Whether the words stand one behind another from a word of the text on; the words behind it are
/// yet to be given.
fn stand_from(text: &[u8], first: &Span, rest: &RawWords<'_>, words: &Texts) -> bool
    requires order { first.now.from ≤ first.now.to }
    requires within { first.now.to ≤ length text.now }
    requires behind { LieIn text.now (raw_words_left rest.now) }
    ensures { result ≡ starts_with_words
        (lowered_words text.now (first.now ∷ raw_words_left rest.now)) words.now }
{
    if words.len() == 0 {
        return true;
    }
    if !is_word(text, first, words.text(0)) {
        return false;
    }
    follow(text, rest, words, 1)
}

/// Whether a place of a text belongs to a word.
fn is_in_word(text: &[u8], place: usize) -> bool
    requires { place < length text.now }
    ensures { result ≡ in_word text.now place }
{
    if has_word_byte(text, place) {
        return true;
    }
    if text[place] != b'\'' {
        return false;
    }
    if !has_word_byte(text, place.saturating_sub(1)) {
        return false;
    }
    has_word_byte(text, place + 1)
}

/// Whether the place before one belongs to a word.
fn is_inside(text: &[u8], place: usize) -> bool
    requires { place ≤ length text.now }
    ensures { result ≡ is_inside text.now place }
{
    if place == 0 {
        return false;
    }
    is_in_word(text, place - 1)
}

/// Whether no word goes on at a place, and the words stand one behind another from the first word
/// on that starts there or behind it.
fn stand_at(text: &[u8], place: usize, words: &Texts) -> bool
    requires { place ≤ length text.now }
    ensures { result ≡ (not (is_inside text.now place) && begin_with_words
        (lowered_words text.now (raw_words_from text.now place)) words.now) }
{
    if is_inside(text, place) {
        return false;
    }
    let (_, ahead) = text.split_at(place);
    let mut rest = raw_words(ahead);
    match rest.next() {
        Some(first) => stand_from(ahead, &first, &rest, words),
        None => false,
    }
}

/// The first of some words, or no bytes where there is none.
fn first_of(words: &Texts) -> &[u8]
    ensures { result.now ≡ slice_index_or words.now 0 [] }
{
    if words.len() == 0 {
        return &[];
    }
    words.text(0)
}

/// Whether the words stand one behind another in a text. Only the places are looked at on which the
/// first of them may begin.
fn text_has_phrase(text: &[u8], words: &Texts) -> bool
    ensures { result ≡ stands_in words.now text.now }
{
    let first = first_of(words);
    let mut at = 0;
    while let Some(place) = word_place(text, at, first) {
        if stand_at(text, place, words) {
            return true;
        }
        at = place + 1;
    }
    false
}

/// Whether some column has raw words, one behind another, that are these words once their letters
/// are lowered.
///
/// Source: MySQL 8.0 Reference Manual, "Boolean Full-Text Searches", and `docs/LANGUAGE.md`, "The
/// Boolean language".
pub fn phrase_holds(columns: &RowTexts, words: &Texts) -> bool
    ensures { result ≡ stand_together columns.now words.now }
{
    for column in 0..columns.len() {
        if text_has_phrase(columns.text(column), words) {
            return true;
        }
    }
    false
}
