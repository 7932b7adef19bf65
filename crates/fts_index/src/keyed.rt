//! Words of a row that are ordered by a number first.
ghost use Rattle.std.specs.Prelude.{◌≡◌, true, slice_index};
ghost use Rattle.std.specs.Int.{w64, from_be_bytes};
ghost use Rattle.std.specs.Ordering.{ordering_then, nat_cmp};
ghost use Rattle.fts_words.specs.Order.{byte_order};
ghost use Rattle.fts_index.specs.Key.{are_bytes};

use std::cmp::Ordering;

/// An indexed word, and where it starts in its row. It borrows the word from the row's lowered
/// texts.
#[derive(Clone, Copy, Debug)]
pub(crate) struct Occurrence<'a> {
    pub word: &'a [u8],
    pub position: u32,
    // The word's first eight bytes as one number, so that most words are told apart at once.
    key: u64,
    ghost bytes: { are_bytes word.now ≡ true },
    ghost keyed: { key ≡ from_be_bytes w64 word.now },
}

/// A byte of a word, or 0 behind its end.
fn byte_at(word: &[u8], place: usize) -> u8
    ensures { result ≡ slice_index word.now place }
{
    match word.get(place) {
        Some(byte) => *byte,
        None => 0,
    }
}

/// The first eight bytes of a word as one number, zeros behind its end.
fn key_of(word: &[u8]) -> u64
    ensures bytes { are_bytes word.now ≡ true }
    ensures key { result ≡ from_be_bytes w64 word.now }
{
    u64::from_be_bytes([
        byte_at(word, 0),
        byte_at(word, 1),
        byte_at(word, 2),
        byte_at(word, 3),
        byte_at(word, 4),
        byte_at(word, 5),
        byte_at(word, 6),
        byte_at(word, 7),
    ])
}

/// How words with these keys are ordered, as their bytes.
fn compare_words(word: &[u8], key: u64, other: &[u8], other_key: u64) -> Ordering
    requires bytes { are_bytes word.now ≡ true }
    requires other_bytes { are_bytes other.now ≡ true }
    requires key { key ≡ from_be_bytes w64 word.now }
    requires other_key { other_key ≡ from_be_bytes w64 other.now }
    ensures { result ≡ byte_order word.now other.now }
{
    if key < other_key {
        return Ordering::Less;
    }
    if other_key < key {
        return Ordering::Greater;
    }
    word.cmp(&other)
}

impl<'a> Occurrence<'a> {
    /// The word at this position.
    pub(crate) fn new(word: &'a [u8], position: u32) -> Self
        ensures word { result.word.now ≡ word.now }
        ensures position { result.position ≡ position }
    {
        Occurrence {
            word,
            position,
            key: key_of(word),
        }
    }

    /// How it is ordered: by the bytes of its word, and then by its position.
    pub(crate) fn compare(&self, other: &Occurrence<'_>) -> Ordering
        ensures { result ≡ ordering_then (byte_order self.now.word.now other.now.word.now)
            (nat_cmp self.now.position other.now.position) }
    {
        compare_words(self.word, self.key, other.word, other.key).then(
            self.position.cmp(&other.position),
        )
    }
}
