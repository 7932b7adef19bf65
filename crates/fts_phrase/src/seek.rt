//! The places of a text at which a word may stand, 64 of them at once.
ghost use Rattle.std.specs.Prelude.{◌≡◌, ℕ, ◌+◌, ◌<◌, ◌≤◌, length, slice_index, IsTrue, true};
ghost use Rattle.std.specs.Char.{to_ascii_lowercase};
ghost use Rattle.std.specs.Int.{bit_at};
ghost use Rattle.fts_phrase.specs.Words.{StandsAt, MayStandFirst};

use crate::word::is_lowered;
use std::simd::prelude::*;

/// How many places are looked at together.
const LANES: usize = 64;

/// The bit in which a letter differs from the same one in the other case.
const CASE: u8 = 0x20;

/// Which of 64 bytes may be one once their letters are lowered.
#[inline(always)]
fn letter_marks(text: &[u8], at: usize, letter: u8) -> u64
    requires { at + 64 ≤ length text.now }
    ensures { (j : ℕ) → j < 64 → to_ascii_lowercase (slice_index text.now (at + j)) ≡ letter
        → bit_at result j ≡ 1 }
{
    let bytes = u8x64::from_slice(&text[at..]) | u8x64::splat(CASE);
    bytes.simd_eq(u8x64::splat(letter | CASE)).to_bitmask()
}

/// At which of 64 places a word may stand, by its first and its last byte.
#[inline(always)]
fn word_marks(text: &[u8], at: usize, word: &[u8]) -> u64
    requires some { 0 < length word.now }
    requires within { at + length word.now + 63 ≤ length text.now }
    ensures { (j : ℕ) → j < 64 → StandsAt text.now word.now (at + j) → bit_at result j ≡ 1 }
{
    let last = word.len() - 1;
    letter_marks(text, at, word[0]) & letter_marks(text, at + last, word[last])
}

/// Whether a word may stand at a place, by its first byte.
fn may_stand(text: &[u8], place: usize, word: &[u8]) -> bool
    requires { place < length text.now }
    ensures { StandsAt text.now word.now place → IsTrue result }
{
    match word {
        [] => true,
        [first, ..] => text[place].to_ascii_lowercase() == *first,
    }
}

/// A place from one on at which a word may stand first, by the first bytes of what is left.
fn next_at_end(text: &[u8], at: usize, word: &[u8]) -> Option<usize>
    requires { at ≤ length text.now }
    ensures { MayStandFirst text.now word.now at result }
{
    for place in at..text.len() {
        if may_stand(text, place, word) {
            return Some(place);
        }
    }
    None
}

/// A place from one on at which a word may stand first, its letters in either case.
fn next_place(text: &[u8], at: usize, word: &[u8]) -> Option<usize>
    requires { at ≤ length text.now }
    ensures { MayStandFirst text.now word.now at result }
{
    if word.is_empty() {
        return next_at_end(text, at, word);
    }
    let mut from = at;
    while text.len() - from >= word.len() && text.len() - from - word.len() >= LANES {
        let marks = word_marks(text, from, word);
        if marks != 0 {
            return Some(from + marks.trailing_zeros() as usize);
        }
        from += LANES;
    }
    next_at_end(text, from, word)
}

/// Whether a word stands at a place.
fn stands(text: &[u8], place: usize, word: &[u8]) -> bool
    requires { place ≤ length text.now }
    ensures { StandsAt text.now word.now place → IsTrue result }
{
    if text.len() - place < word.len() {
        return false;
    }
    is_lowered(&text[place..place + word.len()], word)
}

/// The first place from one on at which a word stands, its letters in either case.
pub(crate) fn word_place(text: &[u8], at: usize, word: &[u8]) -> Option<usize>
    requires { at ≤ length text.now }
    ensures { MayStandFirst text.now word.now at result }
{
    let mut from = at;
    while let Some(place) = next_place(text, from, word) {
        if stands(text, place, word) {
            return Some(place);
        }
        from = place + 1;
    }
    None
}
