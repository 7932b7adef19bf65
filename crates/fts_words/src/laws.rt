ghost use Rattle.std.specs.Prelude.{◌≡◌, ℕ, ◌<◌, ◌≤◌, ◌⊎◌, ◌↔◌, List, All, Contains};
ghost use Rattle.std.specs.Prelude.{IsTrue};
ghost use Rattle.fts_words.specs.declared.span.Span.{Span};
ghost use Rattle.fts_words.specs.Byte.{word_at};
ghost use Rattle.fts_words.specs.Word.{IsRawWord};
ghost use Rattle.fts_words.specs.Run.{IsAscending};
ghost use Rattle.fts_words.specs.RawWords.{raw_words};

/// Two raw words of a text are one and the same, or one ends before the other starts.
pub fn raw_words_stand_apart(text: &[u8])
    ensures { (a b c d : ℕ) → IsRawWord text.now a b → IsRawWord text.now c d →
        ((a ≡ c) × (b ≡ d)) ⊎ ((b < c) ⊎ (d < a)) }
{}

/// A word byte of a text lies in exactly one of its raw words.
pub fn word_byte_has_one_word(text: &[u8], place: usize)
    requires { IsTrue (word_at text.now place) }
    ensures some { (from : ℕ) × (to : ℕ) × IsRawWord text.now from to × (from ≤ place)
        × (place < to) }
    ensures one { (a b c d : ℕ) → IsRawWord text.now a b → a ≤ place → place < b →
        IsRawWord text.now c d → c ≤ place → place < d → (a ≡ c) × (b ≡ d) }
{}

/// The list of a text's raw words has each of them and nothing else, in ascending order, and is the
/// only such list.
pub fn raw_words_are_exact(text: &[u8])
    ensures each { All (λ word. IsRawWord text.now word.from word.to) (raw_words text.now) }
    ensures all { (word : Span) → IsRawWord text.now word.from word.to
        → Contains (raw_words text.now) word }
    ensures ascending { IsAscending (raw_words text.now) }
    ensures only { (spans : List Span) → IsAscending spans →
        ((word : Span) → Contains spans word ↔ IsRawWord text.now word.from word.to)
        → spans ≡ raw_words text.now }
{}
