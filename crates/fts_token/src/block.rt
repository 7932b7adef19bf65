//! The words of a text, from the bounds of words in a block of its places: the first place of each,
//! and the one behind it.
ghost use Rattle.std.specs.Prelude.{◌≡◌, ℕ, ◌+◌, ◌<◌, ◌≤◌, [], length, IsFalse, IfNone};
ghost use Rattle.std.specs.Prelude.{IfSome};
ghost use Rattle.fts_words.specs.RawWords.{raw_words_from};
ghost use Rattle.fts_token.specs.Bounds.{is_inside, is_bound, IsAhead, IsNextBound, IsFound};

use crate::marks::bounds_at;
use fts_words::Span;

/// How many places a block has.
const PLACES: usize = 64;

/// What is known of the 64 places of a text from `start` on: a bit for each that is a bound of a
/// word and is yet to be passed.
#[derive(Clone, Copy, Debug)]
pub(crate) struct Block {
    pub(crate) start: usize,
    pub(crate) bounds: u64,
}

impl Block {
    /// The first places of a text.
    #[inline(always)]
    pub(crate) fn first(text: &[u8]) -> Self
        ensures { IsAhead text.now 0 result.start result.bounds }
    {
        Block {
            start: 0,
            bounds: bounds_at(text, 0, false),
        }
    }

    /// The end of a text.
    #[inline(always)]
    pub(crate) fn last(text: &[u8]) -> Self
        ensures { IsAhead text.now (length text.now + 1) result.start result.bounds }
    {
        Block {
            start: text.len(),
            bounds: 0,
        }
    }
}

/// A bound, and what is known of the places behind it.
#[derive(Clone, Copy)]
struct Bound {
    place: usize,
    block: Block,
}

/// A word, and what is known of the places behind it.
#[derive(Clone, Copy)]
pub(crate) struct Found {
    pub(crate) word: Span,
    pub(crate) block: Block,
}

/// The block that has the next bound, or one without bounds at the text's end. It is told whether
/// the place before belongs to a word.
#[inline(always)]
fn with_bound(text: &[u8], at: usize, inside: bool, block: Block) -> Block
    requires inside { inside ≡ is_inside text.now at }
    requires ahead { IsAhead text.now at block.start block.bounds }
    ensures ahead { IsAhead text.now at result.start result.bounds }
    ensures none { result.bounds ≡ 0 → length text.now < result.start + 64 }
{
    let mut block = block;
    while block.bounds == 0 && text.len() - block.start >= PLACES {
        let start = block.start + PLACES;
        block = Block {
            start,
            bounds: bounds_at(text, start, inside),
        };
    }
    block
}

/// The lowest bound of a block that has one.
#[inline(always)]
fn lowest_bound(text: &[u8], at: usize, block: Block) -> Bound
    requires some { 0 < block.bounds }
    requires ahead { IsAhead text.now at block.start block.bounds }
    ensures { IsNextBound text.now at result.place result.block.start result.block.bounds }
{
    Bound {
        place: block.start + block.bounds.trailing_zeros() as usize,
        block: Block {
            start: block.start,
            bounds: block.bounds & (block.bounds - 1),
        },
    }
}

/// The first bound at a place or behind it. It is told whether the place before belongs to a word.
#[inline(always)]
fn next_bound(text: &[u8], at: usize, inside: bool, block: Block) -> Option<Bound>
    requires inside { inside ≡ is_inside text.now at }
    requires ahead { IsAhead text.now at block.start block.bounds }
    ensures none { IfNone result ((k : ℕ) → at ≤ k → k ≤ length text.now
        → IsFalse (is_bound text.now k)) }
    ensures some { IfSome result (λ bound. IsNextBound text.now at bound.place bound.block.start
        bound.block.bounds) }
{
    let block = with_bound(text, at, inside, block);
    if block.bounds == 0 {
        return None;
    }
    Some(lowest_bound(text, at, block))
}

/// The word that two bounds enclose, where the place before the first belongs to no word.
#[inline(always)]
fn between(text: &[u8], at: usize, start: Bound, behind: Bound) -> Found
    requires outside { IsFalse (is_inside text.now at) }
    requires start { IsNextBound text.now at start.place start.block.start start.block.bounds }
    requires behind { IsNextBound text.now (start.place + 1) behind.place behind.block.start
        behind.block.bounds }
    ensures { IsFound text.now at result.word result.block.start result.block.bounds }
{
    Found {
        word: Span {
            from: start.place,
            to: behind.place,
        },
        block: behind.block,
    }
}

/// The same as `first_word` where the block may end before the word does.
#[inline(always)]
fn later_word(text: &[u8], at: usize, block: Block) -> Option<Found>
    requires outside { IsFalse (is_inside text.now at) }
    requires ahead { IsAhead text.now at block.start block.bounds }
    ensures none { IfNone result (raw_words_from text.now at ≡ []) }
    ensures some { IfSome result (λ found. IsFound text.now at found.word found.block.start
        found.block.bounds) }
{
    let start = next_bound(text, at, false, block)?;
    let behind = next_bound(text, start.place + 1, true, start.block)?;
    Some(between(text, at, start, behind))
}

/// The first raw word that starts at a place or behind it, where the place before belongs to no
/// word.
#[inline(always)]
pub(crate) fn first_word(text: &[u8], at: usize, block: Block) -> Option<Found>
    requires outside { IsFalse (is_inside text.now at) }
    requires ahead { IsAhead text.now at block.start block.bounds }
    ensures none { IfNone result (raw_words_from text.now at ≡ []) }
    ensures some { IfSome result (λ found. IsFound text.now at found.word found.block.start
        found.block.bounds) }
{
    if block.bounds == 0 {
        return later_word(text, at, block);
    }
    let start = lowest_bound(text, at, block);
    if start.block.bounds == 0 {
        return later_word(text, at, block);
    }
    let behind = lowest_bound(text, start.place + 1, start.block);
    Some(between(text, at, start, behind))
}
