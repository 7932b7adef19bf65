ghost use Rattle.std.specs.Prelude.{◌≡◌, ◌+◌, ◌≤◌, length, IsFalse};
ghost use Rattle.fts_words.specs.Byte.{is_word_byte, word_at};
ghost use Rattle.fts_words.specs.RawWords.{raw_words};
ghost use Rattle.fts_token.specs.Bounds.{is_inside, IsAhead};

use crate::block::{Block, first_word};
use fts_words::Span;

/// Whether the byte is an ASCII letter, a digit or `_`.
#[inline(always)]
pub fn is_word_byte(byte: u8) -> bool
    ensures { result ≡ is_word_byte byte }
{
    // Without a branch, which the processor couldn't foresee.
    byte.is_ascii_alphanumeric() | (byte == b'_')
}

/// Whether the text has a word byte at a place. It has none behind its end.
#[inline(always)]
pub fn has_word_byte(text: &[u8], place: usize) -> bool
    ensures { result ≡ word_at text.now place }
{
    place < text.len() && is_word_byte(text[place])
}

/// The raw words of a text, from front to back. It borrows the text.
#[derive(Clone, Copy, Debug)]
pub struct RawWords<'a> {
    text: &'a [u8],
    at: usize,
    block: Block,
    ghost within: { at ≤ length text.now + 1 },
    ghost outside: { IsFalse (is_inside text.now at) },
    ghost ahead: { IsAhead text.now at block.start block.bounds },
}

impl<'a> RawWords<'a> {
    ghost use Rattle.fts_token.specs.Left.{raw_words_left};

    /// The raw words of a text, each as its span.
    pub(crate) fn new(text: &'a [u8]) -> Self
        ensures { raw_words_left result ≡ raw_words text.now }
    {
        RawWords {
            text,
            at: 0,
            block: Block::first(text),
        }
    }
}

impl Iterator for RawWords<'_> {
    ghost use Rattle.std.specs.Iterator.{YieldsFirst, item_count};
    ghost use Rattle.fts_token.specs.Left.{raw_words_left};

    type Item = Span;

    ghost next_gives = { YieldsFirst raw_words_left };

    ghost remaining = { item_count raw_words_left };

    #[inline(always)]
    fn next(&mut self) -> Option<Span> {
        let found = first_word(self.text, self.at, self.block)?;
        self.at = found.word.to + 1;
        self.block = found.block;
        Some(found.word)
    }
}
