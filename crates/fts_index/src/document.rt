ghost use Rattle.std.specs.Prelude.{◌≡◌, ◌<◌, ◌^◌, length, map, IfOk, OnOk};
ghost use Rattle.std.specs.List.{take_while};
ghost use Rattle.fts_types.specs.Row.{IsRow, row_of};
ghost use Rattle.fts_types.specs.Rules.{rules_of};
ghost use Rattle.fts_index.specs.Occurrences.{is_of};
ghost use Rattle.fts_index.specs.Document.{HasWordsOf};

use crate::keyed::Occurrence;
use crate::occurrence::{lowered_texts, occurrences};
use fts_cache::DocWords;
use fts_types::{Row, Settings};
use std::alloc::{AllocError, Global};

/// How many of the occurrences from the front on are of the word.
fn run_len(word: &[u8], occurrences: &[Occurrence<'_>]) -> usize
    ensures { result ≡ length (take_while (is_of word.now) occurrences.now) }
{
    occurrences
        .iter()
        .take_while(|occurrence| occurrence.word == word)
        .count()
}

/// Puts the positions of occurrences in place of those before.
fn put_positions(places: &mut Vec<u32>, occurrences: &[Occurrence<'_>]) -> Result<(), AllocError>
    ensures { OnOk result (places.new.items ≡ map (λ o. o.position) occurrences.now) }
{
    places.clear();
    for occurrence in occurrences {
        places.push(occurrence.position)?;
    }
    Ok(())
}

/// The indexed words of a row, each with its positions.
///
/// It costs the row's bytes, and a sort of its indexed words.
pub(crate) fn document_words(
    alloc: Global,
    settings: &Settings,
    row: &Row,
) -> Result<DocWords, AllocError>
    requires texts { IsRow (row_of row.now).texts }
    requires positive { 0 < row.now.doc }
    requires limit { row.now.doc < 2 ^ 63 }
    ensures { IfOk result (λ document. HasWordsOf (rules_of settings.now) (row_of row.now)
        document) }
{
    let lower = lowered_texts(alloc, &row.texts)?;
    let all = occurrences(alloc, settings, &row.texts, &lower)?;
    let mut document = DocWords::new(alloc, row.doc);
    let mut places = Vec::new(alloc);
    let mut rest = all.as_slice();
    while let Some(first) = rest.first() {
        let (run, behind) = rest.split_at(run_len(first.word, rest));
        put_positions(&mut places, run)?;
        document.push(first.word, &places)?;
        rest = behind;
    }
    Ok(document)
}
