//! Words as numbers, so that a word is compared with a stopword at once.
ghost use Rattle.std.specs.Prelude.{◌≡◌, ℕ, ◌+◌, ◌≤◌, ◌<◌, length, slice_index};
ghost use Rattle.std.specs.Int.{w64, to_le_bytes};
ghost use Rattle.fts_stopwords.specs.Number.{is_stopword_number, place_of, number_at, numbers};
ghost use Rattle.fts_stopwords.specs.Number.{fronts, letter_at};

use std::simd::prelude::*;

/// A factor whose products with the numbers of the default stopwords differ in their highest six
/// bits.
const FACTOR: u64 = 0x2d4f_643f_0694_ca77;

/// The number of `about`.
const ABOUT: u64 = 0x74_756f_6261;

/// The number of `where`.
const WHERE: u64 = 0x65_7265_6877;

/// The bit of lower-case letters, in each of eight bytes.
const CASE_BITS: u64 = 0x2020_2020_2020_2020;

/// The number of the default stopword at each place, or that of `a` where no stopword is.
#[tactic(auto, unfolding(fts_words::specs::Stopwords::default_stopwords, crate::specs::Number::numbers))]
#[inline(always)]
fn numbers() -> &'static [u64]
    ensures { result.now ≡ numbers }
{
    &[
        0x726f, 0x6564, 0x61, 0x61, 0x657261, 0x61, 0x61, 0x726f66, 0x61, 0x7461, 0x61, 0x736177,
        0x616c, 0x73696874, 0x61, 0x7369, 0x61, 0x666f, 0x6e61, 0x61, 0x74616874, 0x656874, 0x61,
        0x61, 0x61, 0x61, 0x61, 0x776f68, 0x61, 0x61, 0x61, 0x61, 0x6c6c6977, WHERE, 0x61, 0x7469,
        0x777777, 0x69, 0x61, 0x61, 0x6d6f63, 0x68746977, 0x6562, 0x61, 0x6e69, 0x6d6f7266, 0x61,
        0x61, 0x6e6f, 0x6f6877, 0x61, 0x61, ABOUT, 0x7361, 0x74616877, 0x7962, 0x61, 0x61, 0x61,
        0x61, 0x6e656877, 0x6f74, 0x646e75, 0x6e65,
    ]
}

/// The place of the number of a word.
#[inline(always)]
fn place_of(number: u64) -> usize
    ensures value { result ≡ place_of number }
    ensures within { result < 64 }
{
    (number.wrapping_mul(FACTOR) >> 58) as usize
}

/// The number of a default stopword at a place.
#[inline(always)]
fn number_at(place: usize) -> u64
    requires { place < 64 }
    ensures { result ≡ number_at place }
{
    numbers()[place]
}

/// Whether a default stopword has this number.
#[tactic(auto, unfolding(fts_words::specs::Stopwords::default_stopwords))]
#[inline(always)]
pub(crate) fn is_stopword_number(number: u64) -> bool
    ensures { result ≡ is_stopword_number number }
{
    number_at(place_of(number)) == number
}

/// For each n up to 8, the number that has ones in its first n bytes.
#[inline(always)]
fn fronts() -> &'static [u64]
    ensures { result.now ≡ fronts }
{
    &[
        0,
        0xff,
        0xffff,
        0xff_ffff,
        0xffff_ffff,
        0xff_ffff_ffff,
        0xffff_ffff_ffff,
        0xff_ffff_ffff_ffff,
        0xffff_ffff_ffff_ffff,
    ]
}

/// Eight bytes of a text as a number, the first byte lowest.
#[inline(always)]
fn bytes_at(text: &[u8], from: usize) -> u64
    requires { from + 8 ≤ length text.now }
    ensures { (i : ℕ) → i < 8 → slice_index (to_le_bytes w64 result) i
        ≡ slice_index text.now (from + i) }
{
    u64::from_le_bytes(u8x8::from_slice(&text[from..]).to_array())
}

/// The first eight bytes of a word that stands in a text, each with the bit of lower-case letters
/// set, as a number.
#[inline(always)]
pub(crate) fn number_of(text: &[u8], from: usize, len: usize) -> u64
    requires { from + 8 ≤ length text.now }
    ensures { (i : ℕ) → i < 8 → slice_index (to_le_bytes w64 result) i
        ≡ letter_at text.now from len i }
{
    (bytes_at(text, from) | CASE_BITS) & fronts()[len.min(8)]
}

/// The same of a word that starts in the last seven bytes of a text, or at its end.
#[cold]
#[inline(never)]
pub(crate) fn last_number_of(text: &[u8], from: usize, len: usize) -> u64
    requires start { from ≤ length text.now }
    requires end { length text.now < from + 8 }
    ensures { (i : ℕ) → i < 8 → slice_index (to_le_bytes w64 result) i
        ≡ letter_at text.now from len i }
{
    let mut last = [0; 8];
    let rest = &text[from..];
    last[..rest.len()].copy_from_slice(rest);
    number_of(&last, 0, len)
}
