ghost use Rattle.std.specs.Prelude.{◌≡◌};
ghost use Rattle.fts_words.specs.RawWords.{raw_words};
ghost use Rattle.fts_words.specs.Indexed.{placed_words, indexed_words};
ghost use Rattle.fts_types.specs.Row.{IsRow};
ghost use Rattle.fts_types.specs.Rules.{rules_of};
ghost use Rattle.fts_token.specs.Left.{raw_words_left, placed_words_left, indexed_words_left};

use crate::indexed::IndexedWords;
use crate::placed::PlacedWords;
use crate::raw::RawWords;
use fts_types::{RowTexts, Settings};

/// The raw words of a text: word bytes that may hold single apostrophes between them, as wide as
/// possible.
///
/// Source: MySQL 8.0 Reference Manual, "Natural Language Full-Text Searches".
pub fn raw_words(text: &[u8]) -> RawWords<'_>
    ensures { raw_words_left result ≡ raw_words text.now }
{
    RawWords::new(text)
}

/// The raw words of a row, each with its word number and its position. The row has 1 to 8 columns,
/// of at most 65,535 bytes together.
pub fn placed_words(columns: &RowTexts) -> PlacedWords<'_>
    requires { IsRow columns.now }
    ensures { placed_words_left result ≡ placed_words columns.now }
{
    PlacedWords::new(columns)
}

/// The indexed words of a row: those of its raw words that are indexable once their letters are
/// lowered. The row has 1 to 8 columns, of at most 65,535 bytes together.
///
/// Source: MySQL 8.0 Reference Manual, "Fine-Tuning MySQL Full-Text Search" and "Full-Text
/// Stopwords".
pub fn indexed_words<'a>(settings: &'a Settings, columns: &'a RowTexts) -> IndexedWords<'a>
    requires { IsRow columns.now }
    ensures { indexed_words_left result ≡ indexed_words (rules_of settings.now) columns.now }
{
    IndexedWords::new(settings, columns)
}
