ghost use Rattle.std.specs.Prelude.{◌≡◌, ◌≤◌, ◌<◌, ◌||◌, ◌==◌, ℕ, [], length, slice_index};
ghost use Rattle.std.specs.Prelude.{slice_index_or, nat_le, if◌then◌else◌};
ghost use Rattle.std.specs.List.{list_any, list_all};
ghost use Rattle.std.specs.Str.{bytes_eq};
ghost use Rattle.fts_words.specs.Byte.{lowered};
ghost use Rattle.fts_words.specs.RawWords.{bytes_of};
ghost use Rattle.fts_meaning.specs.Holds.{are_near_in, lie_near};
ghost use Rattle.fts_phrase.specs.Words.{window_start};

use crate::word::is_word;
use fts_token::raw_words;
use fts_types::{RowTexts, Texts};
use fts_words::Span;

/// Notes the number of a word of a text as the last one of each word that it is. Answers whether it
/// is one of them, or there are none.
fn note(text: &[u8], found: &Span, number: usize, words: &Texts, last: &mut [usize]) -> bool
    requires order { found.now.from ≤ found.now.to }
    requires within { found.now.to ≤ length text.now }
    requires long { length last.old ≡ length words.now }
    ensures last { (k : ℕ) → k < length words.now → slice_index last.new k
        ≡ (if bytes_eq (lowered (bytes_of text.now found.now)) (slice_index_or words.now k [])
        then number else slice_index last.old k) }
    ensures met { result ≡ ((length words.now == 0)
        || list_any (bytes_eq (lowered (bytes_of text.now found.now))) words.now) }
{
    let mut met = words.len() == 0;
    for place in 0..words.len() {
        if is_word(text, found, words.text(place)) {
            last[place] = number;
            met = true;
        }
    }
    met
}

/// Whether each word has stood within reach of the word with a number, and not behind it.
fn are_near(last: &[usize], number: usize, reach: u16) -> bool
    ensures { result ≡ list_all (nat_le (window_start number reach)) last.now }
{
    let start = number.saturating_sub(usize::from(reach)).max(1);
    last.iter().all(|&last| start <= last)
}

/// Whether the words lie near each other in a text.
#[tactic(auto, using(crate::proofs::Near::passing_all))]
fn text_has_distance(text: &[u8], words: &Texts, reach: u16, last: &mut [usize]) -> bool
    requires { length last.old ≡ length words.now }
    ensures { result ≡ are_near_in words.now reach text.now }
{
    last.fill(0);
    let mut number = 0;
    let mut rest = raw_words(text);
    while let Some(found) = rest.next() {
        number += 1;
        if note(text, &found, number, words, last) {
            if are_near(last, number, reach) {
                return true;
            }
        }
    }
    false
}

/// Whether some column has each of the words among `reach + 1` raw words that stand one behind
/// another, once their letters are lowered: so the largest of their word numbers less the smallest
/// is at most `reach`. One occurrence serves a word that is given twice.
///
/// `last` is a place to work in, with a number for each word; what it holds doesn't matter.
///
/// Source: MySQL 8.0 Reference Manual, "Boolean Full-Text Searches", and `docs/LANGUAGE.md`, "The
/// Boolean language".
pub fn distance_holds(columns: &RowTexts, words: &Texts, reach: u16, last: &mut [usize]) -> bool
    requires { length last.old ≡ length words.now }
    ensures { result ≡ lie_near columns.now words.now reach }
{
    for column in 0..columns.len() {
        if text_has_distance(columns.text(column), words, reach, last) {
            return true;
        }
    }
    false
}
