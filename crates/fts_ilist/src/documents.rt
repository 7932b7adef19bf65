//! A document of a list, and its positions, read in place.
ghost use Rattle.std.specs.Prelude.{◌≡◌, ◌^◌, ◌<◌};
ghost use Rattle.std.specs.Iterator.{YieldsFirst, item_count};
ghost use Rattle.fts_ilist.specs.Spelling.{ArePositions};

use crate::number::front_number;
use std::iter::FusedIterator;
use std::marker::Model;

/// The positions of a document that are left, in ascending order, from 0.
#[derive(Drop)]
pub struct Positions<'a> {
    // Their bytes, up to the document's end or to the last byte.
    pub(crate) rest: &'a [u8],
    // The last position + 1, or 0 before the first.
    pub(crate) next: u32,
}

impl<'a> Model for Positions<'a> {
    ghost use Rattle.std.specs.Prelude.{ℕ, List};
    ghost use Rattle.fts_ilist.specs.Reading.{positions_in, IsPositionsTail};

    ghost Value = { List ℕ };

    ghost view = { λ p. positions_in p.next p.rest.now };

    ghost invariant = { λ p. IsPositionsTail p.next p.rest.now };
}

impl<'a> Iterator for Positions<'a> {
    type Item = u32;

    ghost next_gives = { YieldsFirst (λ rest. rest) };

    ghost remaining = { item_count (λ rest. rest) };

    #[inline]
    fn next(&mut self) -> Option<u32> {
        if self.rest.is_empty() {
            return None;
        }
        if self.rest[0] == 0 {
            return None;
        }
        let (increase, len) = front_number(self.rest);
        self.rest = &self.rest[len..];
        self.next += increase as u32;
        Some(self.next - 1)
    }
}

impl<'a> FusedIterator for Positions<'a> {}

/// A document of a list. It borrows the list's bytes, and its positions are read on demand alone.
#[derive(Drop)]
pub struct Document<'a> {
    pub(crate) id: u64,
    // The positions, without the document's end.
    pub(crate) encoded: &'a [u8],
}

impl<'a> Model for Document<'a> {
    ghost use Rattle.fts_ilist.specs.Spelling.{Posting};
    ghost use Rattle.fts_ilist.specs.Reading.{positions_in, IsDocument};

    ghost Value = { Posting };

    ghost view = { λ d. record { id = d.id; positions = positions_in 0 d.encoded.now } };

    ghost invariant = { λ d. IsDocument d.id d.encoded.now };
}

impl<'a> Document<'a> {
    /// The document's id, from 1 to 2^63 - 1.
    pub fn id(&self) -> u64
        ensures value { result ≡ self.now.id }
        ensures positive { 0 < result }
        ensures limit { result < 2 ^ 63 }
    {
        self.id
    }

    /// The document's positions, in ascending order.
    pub fn positions(&self) -> Positions<'a>
        ensures value { result ≡ self.now.positions }
        ensures ascending { ArePositions result }
    {
        Positions {
            rest: self.encoded,
            next: 0,
        }
    }
}
