//! What a block of a text's places says of its words, many places at once: a bit each, from the
//! lowest on.
ghost use Rattle.std.specs.Prelude.{◌≡◌, ℕ, ◌+◌, ◌<◌, ◌≤◌, ◌||◌, ◌&&◌, length, slice_index};
ghost use Rattle.fts_words.specs.Byte.{word_at, apostrophe_at};
ghost use Rattle.fts_token.specs.Bits.{has_bit, differ, one_before, one_behind};
ghost use Rattle.fts_token.specs.Bounds.{is_inside, is_bound};

use crate::raw::has_word_byte;
use std::simd::prelude::*;

/// How many bytes are looked at together.
const LANES: usize = 64;

/// Which of 64 bytes are word bytes.
#[inline(always)]
fn word_marks(text: &[u8], at: usize) -> u64
    requires { at + 64 ≤ length text.now }
    ensures { (j : ℕ) → j < 64 → has_bit result j ≡ word_at text.now (at + j) }
{
    let bytes = u8x64::from_slice(&text[at..]);
    let from_a = (bytes | u8x64::splat(0x20)) - u8x64::splat(b'a');
    let from_0 = bytes - u8x64::splat(b'0');
    let others = from_0.simd_lt(u8x64::splat(10)) | bytes.simd_eq(u8x64::splat(b'_'));
    (from_a.simd_lt(u8x64::splat(26)) | others).to_bitmask()
}

/// Which of 64 bytes are apostrophes.
#[inline(always)]
fn apostrophe_marks(text: &[u8], at: usize) -> u64
    requires { at + 64 ≤ length text.now }
    ensures { (j : ℕ) → j < 64 → has_bit result j ≡ apostrophe_at text.now (at + j) }
{
    let bytes = u8x64::from_slice(&text[at..]);
    bytes.simd_eq(u8x64::splat(b'\'')).to_bitmask()
}

/// Adds to the word bytes the apostrophes between two of them. It is told of the places before the
/// first and behind the last whether they have word bytes.
#[inline(always)]
fn joined(words: u64, apostrophes: u64, before: bool, behind: bool) -> u64
    ensures { (j : ℕ) → j < 64 → has_bit result j ≡ (has_bit words j ||
        (has_bit apostrophes j && (one_before before (has_bit words) j && one_behind behind
        (has_bit words) j))) }
{
    let left = (words << 1) | u64::from(before);
    let right = (words >> 1) | (u64::from(behind) << 63);
    words | (apostrophes & (left & right))
}

/// Which of the places differ from the one before them. It is told of the place before the first.
#[inline(always)]
fn changes(marks: u64, before: bool) -> u64
    ensures { (j : ℕ) → j < 64 → has_bit result j
        ≡ differ (has_bit marks j) (one_before before (has_bit marks) j) }
{
    marks ^ ((marks << 1) | u64::from(before))
}

/// The last bytes of a text, filled up with zeros.
#[cold]
#[inline(never)]
fn padded(text: &[u8], at: usize) -> [u8; 64]
    requires within { at ≤ length text.now }
    requires few { length text.now < at + 64 }
    ensures len { length result ≡ 64 }
    ensures bytes { (k : ℕ) → slice_index result k ≡ slice_index text.now (at + k) }
{
    let mut last = [0; 64];
    let rest = &text[at..];
    last[..rest.len()].copy_from_slice(rest);
    last
}

/// Which of the 64 places from one on are bounds of words. It is told whether the place before
/// belongs to a word.
#[inline(never)]
pub(crate) fn bounds_at(text: &[u8], at: usize, inside: bool) -> u64
    requires within { at ≤ length text.now }
    requires inside { inside ≡ is_inside text.now at }
    ensures { (j : ℕ) → j < 64 → has_bit result j ≡ is_bound text.now (at + j) }
{
    // The place before an apostrophe has a word byte just if it belongs to a word.
    if text.len() - at < LANES {
        let last = padded(text, at);
        let words = word_marks(&last, 0);
        let apostrophes = apostrophe_marks(&last, 0);
        return changes(joined(words, apostrophes, inside, false), inside);
    }
    let words = word_marks(text, at);
    let apostrophes = apostrophe_marks(text, at);
    let behind = has_word_byte(text, at + LANES);
    changes(joined(words, apostrophes, inside, behind), inside)
}
