ghost use Rattle.std.specs.Prelude.{◌≡◌, ◌≤◌, length};
ghost use Rattle.std.specs.Str.{bytes_eq};
ghost use Rattle.fts_words.specs.Byte.{lowered};
ghost use Rattle.fts_words.specs.RawWords.{bytes_of};

use fts_words::Span;

/// Whether the bytes are this word once their letters are lowered.
pub(crate) fn is_lowered(found: &[u8], word: &[u8]) -> bool
    ensures { result ≡ bytes_eq (lowered found.now) word.now }
{
    if found.len() != word.len() {
        return false;
    }
    for place in 0..found.len() {
        if found[place].to_ascii_lowercase() != word[place] {
            return false;
        }
    }
    true
}

/// Whether a word of a text is this one once its letters are lowered.
pub(crate) fn is_word(text: &[u8], found: &Span, word: &[u8]) -> bool
    requires order { found.now.from ≤ found.now.to }
    requires within { found.now.to ≤ length text.now }
    ensures { result ≡ bytes_eq (lowered (bytes_of text.now found.now)) word.now }
{
    is_lowered(found.of(text), word)
}
