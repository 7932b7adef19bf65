ghost use Rattle.std.specs.Prelude.{◌≡◌, ◌∷◌, [], IfOk, Some, nat_eq, refl};
ghost use Rattle.std.specs.Hash.{same_Alike};
ghost use Rattle.std.specs.Cmp.Lexicographic.{pointwise, nat_list_cmp_total};
ghost use Rattle.std.specs.Cmp.Lexicographic.{bytes_decides, nat_list_eq_equiv};
ghost use Rattle.std.specs.Cmp.Lexicographic.{texts_ties, texts_po};
ghost use Rattle.std.specs.Cmp;
ghost use Rattle.std.specs.Cmp.{on_equiv, on_per};
ghost use Rattle.fts_words.specs.Order.{byte_order};

use indexmap::Equivalent;
use smallvec::SmallVec;
use std::alloc::{AllocError, Global};
use std::cmp::Ordering;
use std::hash::{Hash, Hasher};
use std::marker::Model;

/// How many bytes of a word stand in the value itself. Few words are longer.
const INLINE: usize = 16;

/// A word, as its bytes. Words are ordered byte by byte, and a word stands before each longer one
/// that begins with it. One of at most 16 bytes takes no memory beside its own.
#[derive(Debug, Drop)]
pub struct Word {
    bytes: SmallVec<u8, INLINE>,
}

impl Model for Word {
    ghost use Rattle.std.specs.Prelude.{ℕ, List};

    ghost Value = { List ℕ };

    ghost view = { λ w. w.bytes.items };
}

impl Word {
    /// The word of these bytes.
    pub fn from_vec(bytes: Vec<u8>) -> Self
        ensures { result ≡ bytes.items }
    {
        Word {
            bytes: SmallVec::from_vec(bytes),
        }
    }

    /// A copy of a word's bytes, in the allocator's memory.
    pub fn copied(alloc: Global, bytes: &[u8]) -> Result<Self, AllocError>
        ensures { IfOk result (λ word. word ≡ bytes.now) }
    {
        let bytes = SmallVec::from_slice(alloc, bytes)?;
        Ok(Word { bytes })
    }

    /// The word's bytes.
    pub fn as_bytes(&self) -> &[u8]
        ensures { result.now ≡ self.now }
    {
        self.bytes.as_slice()
    }
}

impl PartialEq for Word {
    ghost eq = { pointwise nat_eq };

    ghost laws = { Cmp.partial_equiv_from_equiv nat_list_eq_equiv };

    fn eq(&self, other: &Word) -> bool {
        self.as_bytes() == other.as_bytes()
    }
}

impl Eq for Word {
    ghost laws = { nat_list_eq_equiv };
}

impl PartialOrd for Word {
    ghost partial_cmp = { λ x y. Some (byte_order x y) };

    ghost laws = { texts_po };

    fn partial_cmp(&self, other: &Word) -> Option<Ordering> {
        Some(self.cmp(other))
    }
}

impl Ord for Word {
    ghost cmp = { byte_order };

    ghost total = { nat_list_cmp_total };

    ghost matches_partial_cmp = { λ x y. refl };

    ghost matches_eq = { texts_ties };

    fn cmp(&self, other: &Word) -> Ordering {
        self.as_bytes().cmp(other.as_bytes())
    }
}

impl Hash for Word {
    ghost hash_input = { λ w. w ∷ [] };

    ghost respects_eq = { (same_Alike (λ w. w ∷ []) bytes_decides).fed };

    fn hash<H: Hasher>(&self, state: &mut H) {
        state.write(self.as_bytes());
    }
}

/// The bytes of a word, by which a map is asked whose keys are words.
#[derive(Clone, Copy)]
pub struct WordBytes<'a> {
    pub bytes: &'a [u8],
}

impl<'a> PartialEq for WordBytes<'a> {
    ghost eq = { λ x y. pointwise nat_eq x.bytes.now y.bytes.now };

    ghost laws = { on_per (λ w. w.bytes.now) (Cmp.partial_equiv_from_equiv nat_list_eq_equiv) };

    fn eq(&self, other: &WordBytes<'a>) -> bool {
        self.bytes == other.bytes
    }
}

impl<'a> Eq for WordBytes<'a> {
    ghost laws = { on_equiv (λ w. w.bytes.now) nat_list_eq_equiv };
}

impl<'a> Hash for WordBytes<'a> {
    ghost hash_input = { λ w. w.bytes.now ∷ [] };

    ghost respects_eq = { λ x y.
        (same_Alike (λ w. w ∷ []) bytes_decides).fed x.bytes.now y.bytes.now };

    fn hash<H: Hasher>(&self, state: &mut H) {
        state.write(self.bytes);
    }
}

impl<'a> Equivalent<Word> for WordBytes<'a> {
    ghost equivalent = { λ q k. pointwise nat_eq q.bytes.now k };

    ghost respects_hash = { λ q. (same_Alike (λ w. w ∷ []) bytes_decides).fed q.bytes.now };

    ghost respects_eq = { λ q. nat_list_eq_equiv.congr q.bytes.now };

    fn equivalent(&self, key: &Word) -> bool {
        self.bytes == key.as_bytes()
    }
}
