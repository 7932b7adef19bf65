ghost use Rattle.std.specs.Prelude.{◌≡◌, ◌≤◌, ◌&&◌, length, nat_le};
ghost use Rattle.fts_words.specs.Byte.{lowered};
ghost use Rattle.fts_words.specs.RawWords.{bytes_of};
ghost use Rattle.fts_words.specs.Indexed.{is_indexable};
ghost use Rattle.fts_types.specs.Rules.{rules_of};
ghost use Rattle.fts_token.specs.Chosen.{rules_by};

use fts_stopwords::StopSet;
use fts_types::Settings;
use fts_words::Span;

/// What the settings say of which words are indexed. A loop over words can keep it in registers.
#[derive(Drop)]
pub(crate) struct Choice {
    pub(crate) min: usize,
    pub(crate) max: usize,
    pub(crate) stop_set: StopSet,
}

impl Choice {
    /// What the settings say.
    #[inline(always)]
    pub(crate) fn of(settings: &Settings) -> Self
        ensures { rules_by result ≡ rules_of settings.now }
    {
        let stop_set = if settings.stopword {
            StopSet::Default
        } else {
            StopSet::Empty
        };
        Choice {
            min: usize::from(settings.min),
            max: usize::from(settings.max),
            stop_set,
        }
    }

    /// Whether a length in bytes is one of an indexed word.
    #[inline(always)]
    fn is_size(&self, len: usize) -> bool
        ensures { result ≡ (nat_le self.now.min len && nat_le len self.now.max) }
    {
        (self.min <= len) & (len <= self.max)
    }

    /// Whether a word of a text can be an indexed word once its letters are lowered. Nothing
    /// branches on what the word is: the processor can't foresee such branches.
    #[inline(always)]
    pub(crate) fn has_at(&self, text: &[u8], word: &Span) -> bool
        requires order { word.now.from ≤ word.now.to }
        requires within { word.now.to ≤ length text.now }
        ensures { result ≡ is_indexable (rules_by self.now) (lowered (bytes_of text.now word.now)) }
    {
        let is_size = self.is_size(word.to - word.from);
        let is_stopword = self.stop_set.contains_lowered_at(text, word);
        is_size & !is_stopword
    }
}

/// Whether a lowered word can be an indexed word: its length is from `min` to `max`, and it is no
/// stopword where stopwords are on.
///
/// Source: MySQL 8.0 Reference Manual, "Fine-Tuning MySQL Full-Text Search" and "Full-Text
/// Stopwords".
pub fn is_indexable(settings: &Settings, word: &[u8]) -> bool
    ensures { result ≡ is_indexable (rules_of settings.now) word.now }
{
    let choice = Choice::of(settings);
    choice.is_size(word.len()) && !choice.stop_set.contains(word)
}
