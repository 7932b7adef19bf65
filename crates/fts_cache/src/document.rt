//! One document's words.
ghost use Rattle.std.specs.Prelude.{◌≡◌, ◌+◌, ◌*◌, ◌^◌, ◌<◌, ◌≤◌, ◌==◌, ◌++◌, [], ◌∷◌, length};
ghost use Rattle.std.specs.Prelude.{slice_get, slice_range, Some, IsTrue, ◌↔◌, OnOk, OnErr};
ghost use Rattle.fts_ilist.specs.Spelling.{ArePositions};
ghost use Rattle.fts_cache.specs.Document.{Document, document_size, EndsBefore};
ghost use Rattle.fts_cache.specs.Document.{CanPush, IsDocument};
ghost use Rattle.fts_cache.specs.Arena.{end_before, no_end};

use fts_ilist::LAST_POSITION;
use std::alloc::{AllocError, Global};
use std::marker::Model;

/// Where a word's bytes end among those of all words, and its positions among all positions.
#[derive(Debug, Clone, Copy)]
struct WordEnd {
    word: usize,
    positions: usize,
}

/// One document's words, in the order of their bytes, each with its positions, and the document's
/// size in the cache.
#[derive(Debug, Drop)]
pub struct DocWords {
    id: u64,
    // The bytes of all words, one word behind another.
    bytes: Vec<u8>,
    // The positions of all words, in the same order.
    positions: Vec<u32>,
    // For each word where its bytes and its positions end.
    ends: Vec<WordEnd>,
    // In the cache, by `document_size`.
    size: u32,
}

impl Model for DocWords {
    ghost use Rattle.fts_cache.specs.Document.{Document};
    ghost use Rattle.fts_cache.specs.Arena.{document_in, IsArena};

    ghost Value = { Document };

    ghost view = { λ d. document_in d.id d.ends.items d.bytes.items d.positions.items };

    ghost invariant = { λ d. IsArena d.id d.size d.ends.items d.bytes.items d.positions.items };
}

/// Where the words before a place end.
fn before(ends: &[WordEnd], place: usize) -> WordEnd
    requires { place ≤ length ends.now }
    ensures { result ≡ end_before no_end ends.now place }
{
    match place.checked_sub(1) {
        Some(last) => ends[last],
        None => WordEnd {
            word: 0,
            positions: 0,
        },
    }
}

/// The bytes between two places.
fn bytes_between(bytes: &[u8], start: usize, end: usize) -> &[u8]
    requires order { start ≤ end }
    requires within { end ≤ length bytes.now }
    ensures { result.now ≡ slice_range bytes.now start end }
{
    &bytes[start..end]
}

/// The positions between two places.
fn positions_between(positions: &[u32], start: usize, end: usize) -> &[u32]
    requires order { start ≤ end }
    requires within { end ≤ length positions.now }
    ensures { result.now ≡ slice_range positions.now start end }
{
    &positions[start..end]
}

/// Whether a word comes behind the last of the document's, if any.
fn is_behind(document: &DocWords, word: &[u8]) -> bool
    ensures { IsTrue result ↔ EndsBefore document.now.words word.now }
{
    let Some(last) = document.len().checked_sub(1) else {
        return true;
    };
    let (before, _) = document.word_at(last);
    before.cmp(&word).is_lt()
}

/// Whether these are positions of one word: at least one, ascending, at most 131,071.
fn are_positions(positions: &[u32]) -> bool
    ensures { IsTrue result ↔ ArePositions positions.now }
{
    let mut next = 0;
    for position in positions {
        if *position < next || *position > LAST_POSITION {
            return false;
        }
        next = *position + 1;
    }
    !positions.is_empty()
}

/// Whether a size stays below 2^32 with a word of this length at so many positions.
fn has_room(size: u32, len: usize, positions: usize) -> bool
    requires len { len < 2 ^ 63 }
    ensures { IsTrue result ↔ (size + positions * (len + 8) < 2 ^ 32) }
{
    match (positions as u64).checked_mul(len as u64 + 8) {
        Some(more) => more < 1 << 32 && u64::from(size) + more < 1 << 32,
        None => false,
    }
}

impl DocWords {
    /// A document without words. What it holds later lies in this allocator.
    pub fn new(alloc: Global, id: u64) -> Self
        requires positive { 0 < id }
        requires limit { id < 2 ^ 63 }
        ensures { result ≡ record { id = id; words = [] } }
    {
        DocWords {
            id,
            bytes: Vec::new(alloc),
            positions: Vec::new(alloc),
            ends: Vec::new(alloc),
            size: 16,
        }
    }

    /// The document's id, from 1 to 2^63 - 1.
    pub fn id(&self) -> u64
        ensures value { result ≡ self.now.id }
        ensures is { IsDocument self.now }
    {
        self.id
    }

    /// The document's size in the cache: 16, and for each occurrence of a word its length and 8.
    pub fn size(&self) -> u32
        ensures { result ≡ document_size self.now }
    {
        self.size
    }

    /// How many words it has.
    #[tactic(auto, using(crate::proofs::Arena::words_length))]
    pub fn len(&self) -> usize
        ensures { result ≡ length self.now.words }
    {
        self.ends.len()
    }

    /// Whether it has none.
    #[tactic(auto, using(crate::proofs::Arena::words_length))]
    pub fn is_empty(&self) -> bool
        ensures { result ≡ (length self.now.words == 0) }
    {
        self.ends.is_empty()
    }

    /// A word, by its place from 0, and its positions.
    pub fn word_at(&self, place: usize) -> (&[u8], &[u32])
        requires { place < length self.now.words }
        ensures value { slice_get self.now.words place
            ≡ Some (record { word = result.0.now; positions = result.1.now }) }
        ensures positions { ArePositions result.1.now }
        ensures few { length result.1.now ≤ 131072 }
    {
        let start = before(&self.ends, place);
        let end = self.ends[place];
        (
            bytes_between(&self.bytes, start.word, end.word),
            positions_between(&self.positions, start.positions, end.positions),
        )
    }

    /// Whether a word with these positions can be added behind the last: it comes behind the last
    /// word in the order of bytes, its positions are at least one, ascending and at most 131,071,
    /// and the size stays below 2^32.
    pub fn can_push(&self, word: &[u8], positions: &[u32]) -> bool
        ensures { IsTrue result ↔ CanPush self.now word.now positions.now }
    {
        if !is_behind(self, word) {
            return false;
        }
        if !are_positions(positions) {
            return false;
        }
        has_room(self.size, word.len(), positions.len())
    }

    /// Adds a word behind the last. Where there is no memory for it, the document stays as it was.
    pub fn push(&mut self, word: &[u8], positions: &[u32]) -> Result<(), AllocError>
        requires { CanPush self.old word.now positions.now }
        ensures ok { OnOk result (self.new
            ≡ record self.old {
              words = self.old.words ++ record
                  { word = word.now; positions = positions.now } ∷ [];
            }) }
        ensures err { OnErr result (self.new ≡ self.old) }
    {
        self.bytes.reserve(word.len())?;
        self.positions.reserve(positions.len())?;
        self.ends.reserve(1)?;
        let size = positions.len() as u32 * (word.len() as u32 + 8);
        self.bytes.extend_from_slice(word).unwrap();
        self.positions.extend_from_slice(positions).unwrap();
        self.ends
            .push(WordEnd {
                word: self.bytes.len(),
                positions: self.positions.len(),
            })
            .unwrap();
        self.size += size;
        Ok(())
    }
}
