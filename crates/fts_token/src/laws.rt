ghost use Rattle.std.specs.Prelude.{All, Contains};
ghost use Rattle.fts_words.specs.declared.placed.PlacedWord.{PlacedWord};
ghost use Rattle.fts_words.specs.Indexed.{IsPlaced, IsIndexedWord, PositionsAscend, placed_words};
ghost use Rattle.fts_words.specs.Indexed.{indexed_words};
ghost use Rattle.fts_types.specs.Rules.{rules_of};

use fts_types::{RowTexts, Settings};

/// The list of a row's raw words has each of them where it stands and nothing else, in ascending
/// order.
pub fn placed_words_are_exact(columns: &RowTexts)
    ensures each { All (IsPlaced columns.now) (placed_words columns.now) }
    ensures all { (word : PlacedWord) → IsPlaced columns.now word
        → Contains (placed_words columns.now) word }
    ensures ascending { PositionsAscend (placed_words columns.now) }
{}

/// The list of a row's indexed words has each of them and nothing else, in ascending order.
pub fn indexed_words_are_exact(settings: &Settings, columns: &RowTexts)
    ensures each { All (IsIndexedWord (rules_of settings.now) columns.now)
        (indexed_words (rules_of settings.now) columns.now) }
    ensures all { (word : PlacedWord) → IsIndexedWord (rules_of settings.now) columns.now word →
        Contains (indexed_words (rules_of settings.now) columns.now) word }
    ensures ascending { PositionsAscend (indexed_words (rules_of settings.now) columns.now) }
{}
