ghost use Rattle.std.specs.Prelude.{◌≡◌, IfOk, filter};
ghost use Rattle.fts_words.specs.Indexed.{word_of};
ghost use Rattle.fts_token.specs.Row.{LiesIn};
ghost use Rattle.fts_types.specs.Row.{IsRow};
ghost use Rattle.fts_types.specs.Rules.{rules_of};
ghost use Rattle.fts_query.specs.View.{operand_view};
ghost use Rattle.fts_words.specs.Indexed.{is_indexable};
ghost use Rattle.fts_meaning.specs.Holds.{some_indexed, operand_holds, stands_in, stand_together};
ghost use Rattle.fts_meaning.specs.Holds.{are_near_in, lie_near};
ghost use Rattle.fts_plain.specs.Words.{fits};

use crate::words::{fits, has_run, is_near, some_indexable};
use fts_query::{Operand, words_in};
use fts_token::{indexed_words, lowered};
use fts_types::{RowTexts, Settings, Texts};
use fts_words::PlacedWord;
use std::alloc::{AllocError, Global};

/// The bytes of a word of a row, with their letters lowered.
fn word_of(alloc: Global, columns: &RowTexts, found: &PlacedWord) -> Result<Vec<u8>, AllocError>
    requires { LiesIn columns.now found.now }
    ensures { IfOk result (λ bytes. bytes.items ≡ word_of columns.now found.now) }
{
    lowered(alloc, found.span.of(columns.text(found.column)))
}

/// Whether some indexed word of the row is a word, or begins with it.
#[tactic(auto, using(crate::proofs::Indexing::sought_found, crate::proofs::Indexing::sought_none))]
fn has_indexed(
    alloc: Global,
    settings: &Settings,
    columns: &RowTexts,
    word: &[u8],
    is_prefix: bool,
) -> Result<bool, AllocError>
    requires { IsRow columns.now }
    ensures { IfOk result (λ found. found
        ≡ some_indexed (rules_of settings.now) columns.now (fits is_prefix word.now)) }
{
    let mut rest = indexed_words(settings, columns);
    while let Some(found) = rest.next() {
        let bytes = word_of(alloc, columns, &found)?;
        if fits(is_prefix, word, bytes.as_slice()) {
            return Ok(true);
        }
    }
    Ok(false)
}

/// Whether the words stand one behind another in a text.
fn text_has_phrase(alloc: Global, text: &[u8], words: &Texts) -> Result<bool, AllocError>
    ensures { IfOk result (λ found. found ≡ stands_in words.now text.now) }
{
    let all = words_in(alloc, text)?;
    Ok(has_run(&all, words))
}

/// Whether the indexable words stand close together in a text.
fn text_has_distance(
    alloc: Global,
    settings: &Settings,
    text: &[u8],
    words: &Texts,
    number: u16,
) -> Result<bool, AllocError>
    ensures { IfOk result (λ found. found
        ≡ are_near_in (filter (is_indexable (rules_of settings.now)) words.now) number text.now) }
{
    let all = words_in(alloc, text)?;
    Ok(is_near(settings, &all, words, usize::from(number)))
}

/// Whether the words stand one behind another in some column.
fn has_phrase(alloc: Global, columns: &RowTexts, words: &Texts) -> Result<bool, AllocError>
    ensures { IfOk result (λ found. found ≡ stand_together columns.now words.now) }
{
    for column in 0..columns.len() {
        if text_has_phrase(alloc, columns.text(column), words)? {
            return Ok(true);
        }
    }
    Ok(false)
}

/// Whether the indexable words stand close together in some column.
fn has_distance(
    alloc: Global,
    settings: &Settings,
    columns: &RowTexts,
    words: &Texts,
    number: u16,
) -> Result<bool, AllocError>
    ensures { IfOk result (λ found. found
        ≡ lie_near columns.now (filter (is_indexable (rules_of settings.now)) words.now) number) }
{
    for column in 0..columns.len() {
        if text_has_distance(alloc, settings, columns.text(column), words, number)? {
            return Ok(true);
        }
    }
    Ok(false)
}

/// Whether an operand holds in a row.
pub(crate) fn operand_holds(
    alloc: Global,
    settings: &Settings,
    columns: &RowTexts,
    operand: &Operand,
) -> Result<bool, AllocError>
    requires { IsRow columns.now }
    ensures { IfOk result (λ holds. holds
        ≡ operand_holds (rules_of settings.now) columns.now (operand_view operand.now)) }
{
    match operand {
        Operand::Word(word) => has_indexed(alloc, settings, columns, word.as_slice(), false),
        Operand::Prefix(word) => has_indexed(alloc, settings, columns, word.as_slice(), true),
        Operand::Phrase(words) => {
            if !some_indexable(settings, words) {
                return Ok(false);
            }
            has_phrase(alloc, columns, words)
        }
        Operand::Distance(words, number) => {
            if !some_indexable(settings, words) {
                return Ok(false);
            }
            has_distance(alloc, settings, columns, words, *number)
        }
    }
}
