ghost use Rattle.std.specs.Prelude.{◌≡◌, ℕ, ◌<◌, ◌↔◌, List, [], ◌∷◌, ◌++◌, ◌≤◌, length, map};
ghost use Rattle.std.specs.Prelude.{sum_by, IsTrue, OnOk, OnErr, IfErr, IfSome, IfNone, ◌^◌};
ghost use Rattle.std.specs.Prelude.{slice_index_or};

use std::alloc::{AllocFailed, Global};
use std::marker::Model;

/// A list of texts, each a row of bytes. Contracts see it as the list of their bytes.
#[derive(Debug, Drop)]
pub struct Texts {
    texts: Vec<Vec<u8>>,
}

/// Names of columns, or words.
pub type Names = Texts;

/// The texts of one row, one for each column.
pub type RowTexts = Texts;

impl Model for Texts {
    ghost Value = { List (List ℕ) };

    ghost view = { λ t. map (λ v. v.items) t.texts.items };
}

impl Texts {
    ghost use Rattle.fts_types.specs.Row.{IsRow};

    /// No texts, which will lie in the allocator's memory.
    pub fn new(alloc: Global) -> Self
        ensures { result ≡ [] }
    {
        Texts {
            texts: Vec::new(alloc),
        }
    }

    /// The texts of a list.
    pub fn from_vec(texts: Vec<Vec<u8>>) -> Self
        ensures { result ≡ map (λ v. v.items) texts.items }
    {
        Texts { texts }
    }

    /// The list that holds them.
    pub fn into_vec(self) -> Vec<Vec<u8>>
        ensures { self ≡ map (λ v. v.items) result.items }
    {
        let Texts { texts } = self;
        texts
    }

    /// The texts.
    pub fn as_slice(&self) -> &[Vec<u8>]
        ensures { self.now ≡ map (λ v. v.items) result.now }
    {
        &self.texts
    }

    /// How many texts there are.
    pub fn len(&self) -> usize
        ensures { result ≡ length self.now }
    {
        self.texts.len()
    }

    /// Whether there is none.
    pub fn is_empty(&self) -> bool
        ensures { IsTrue result ↔ (self.now ≡ []) }
    {
        self.texts.is_empty()
    }

    /// A text by its place, from 0.
    pub fn text(&self, place: usize) -> &[u8]
        requires { place < length self.now }
        ensures { result.now ≡ slice_index_or self.now place [] }
    {
        self.texts[place].as_slice()
    }

    /// How many bytes they have together, where a `usize` holds the number.
    pub fn size(&self) -> Option<usize>
        ensures size { IfSome result (λ size. size ≡ sum_by length self.now) }
        ensures none { IfNone result (2 ^ 64 ≤ sum_by length self.now) }
    {
        let mut size: usize = 0;
        for place in 0..self.len() {
            size = size.checked_add(self.text(place).len())?;
        }
        Some(size)
    }

    /// Whether these can be the texts of a row: 1 to 8 columns, of at most 65,535 bytes together.
    pub fn is_row(&self) -> bool
        ensures { IsTrue result ↔ IsRow self.now }
    {
        1 <= self.len() && self.len() <= 8 && self.has_room(65_535)
    }

    /// Whether they have at most so many bytes together.
    fn has_room(&self, limit: usize) -> bool
        ensures { IsTrue result ↔ (sum_by length self.now ≤ limit) }
    {
        let mut room = limit;
        for place in 0..self.len() {
            let len = self.text(place).len();
            if len > room {
                return false;
            }
            room -= len;
        }
        true
    }

    /// Adds a text at the end. Where memory is wanting, it gives the text back, and the list is as
    /// before.
    pub fn push(&mut self, text: Vec<u8>) -> Result<(), AllocFailed<Vec<u8>>>
        ensures ok { OnOk result (self.new ≡ self.old ++ text.items ∷ []) }
        ensures err { OnErr result (self.new ≡ self.old) }
        ensures back { IfErr result (λ failed. failed.value ≡ text) }
    {
        self.texts.push(text)
    }
}
