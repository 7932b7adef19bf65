ghost use Rattle.std.specs.Prelude.{◌≡◌, ◌≤◌, ◌<◌, ◌&&◌, ℕ, [], map, length, slice_index, IfOk};
ghost use Rattle.std.specs.Option.{option_map_or};
ghost use Rattle.fts_ids.specs.Ids.{has, Ascend};
ghost use Rattle.fts_meaning.specs.Holds.{stand_together, lie_near};
ghost use Rattle.fts_query.specs.Seen.{candidate_seen};
ghost use Rattle.fts_eval.specs.Says.{docs_of};
ghost use Rattle.fts_meaning.specs.View.{texts_at};

use fts_ids::IdList;
use fts_phrase::{distance_holds, phrase_holds};
use fts_query::Candidate;
use fts_types::{DocId, RowTexts, Texts};
use std::alloc::{AllocError, Global};

/// The rows from an id on: those below it are passed.
fn from_id(rows: &[Candidate], id: DocId) -> &[Candidate]
    requires { Ascend (docs_of rows.now) }
    ensures ascend { Ascend (docs_of result.now) }
    ensures kept { (later : ℕ) → id ≤ later
        → texts_at (map candidate_seen result.now) later
        ≡ texts_at (map candidate_seen rows.now) later }
    ensures passed { 0 < length result.now → id ≤ slice_index (docs_of result.now) 0 }
{
    let mut rest = rows;
    while let [first, others @ ..] = rest {
        if first.doc >= id {
            return rest;
        }
        rest = others;
    }
    rest
}

/// The texts of the row with an id, where none is below it.
fn texts_of(rows: &[Candidate], id: DocId) -> Option<&RowTexts>
    requires first { 0 < length rows.now → id ≤ slice_index (docs_of rows.now) 0 }
    requires ascend { Ascend (docs_of rows.now) }
    ensures { option_map_or (λ texts. texts.now) result []
        ≡ texts_at (map candidate_seen rows.now) id }
{
    match rows {
        [] => None,
        [first, ..] => {
            if first.doc != id {
                return None;
            }
            Some(&first.texts)
        }
    }
}

/// Whether the words stand together in the row with an id, where no row is below it.
fn row_has_phrase(rows: &[Candidate], id: DocId, words: &Texts) -> bool
    requires first { 0 < length rows.now → id ≤ slice_index (docs_of rows.now) 0 }
    requires ascend { Ascend (docs_of rows.now) }
    ensures { result ≡ stand_together (texts_at (map candidate_seen rows.now) id) words.now }
{
    match texts_of(rows, id) {
        None => false,
        Some(columns) => phrase_holds(columns, words),
    }
}

/// Whether the words lie near each other in the row with an id, where no row is below it.
fn row_has_distance(
    rows: &[Candidate],
    id: DocId,
    words: &Texts,
    reach: u16,
    last: &mut [usize],
) -> bool
    requires first { 0 < length rows.now → id ≤ slice_index (docs_of rows.now) 0 }
    requires ascend { Ascend (docs_of rows.now) }
    requires last { length last.old ≡ length words.now }
    ensures { result ≡ lie_near (texts_at (map candidate_seen rows.now) id) words.now reach }
{
    match texts_of(rows, id) {
        None => false,
        Some(columns) => distance_holds(columns, words, reach, last),
    }
}

/// The ids in whose rows the words stand together.
pub(crate) fn with_phrase(
    alloc: Global,
    texts: &[Candidate],
    ids: &IdList,
    words: &Texts,
) -> Result<IdList, AllocError>
    requires { Ascend (docs_of texts.now) }
    ensures { IfOk result (λ found. (id : ℕ) → has found id ≡ (has ids.now id
        && stand_together (texts_at (map candidate_seen texts.now) id) words.now)) }
{
    let mut found = Vec::new(alloc);
    let ids = ids.as_slice();
    let mut rest = texts;
    for id in ids {
        rest = from_id(rest, *id);
        if row_has_phrase(rest, *id, words) {
            found.push(*id)?;
        }
    }
    Ok(IdList::new(found))
}

/// The ids in whose rows the words lie near each other, with a place to work in.
fn within_distance(
    alloc: Global,
    texts: &[Candidate],
    ids: &IdList,
    words: &Texts,
    reach: u16,
    last: &mut [usize],
) -> Result<IdList, AllocError>
    requires ascend { Ascend (docs_of texts.now) }
    requires last { length last.old ≡ length words.now }
    ensures { IfOk result (λ found. (id : ℕ) → has found id ≡ (has ids.now id
        && lie_near (texts_at (map candidate_seen texts.now) id) words.now reach)) }
{
    let mut found = Vec::new(alloc);
    let ids = ids.as_slice();
    let mut rest = texts;
    for id in ids {
        rest = from_id(rest, *id);
        if row_has_distance(rest, *id, words, reach, last) {
            found.push(*id)?;
        }
    }
    Ok(IdList::new(found))
}

/// The ids in whose rows the words lie near each other.
pub(crate) fn with_distance(
    alloc: Global,
    texts: &[Candidate],
    ids: &IdList,
    words: &Texts,
    reach: u16,
) -> Result<IdList, AllocError>
    requires { Ascend (docs_of texts.now) }
    ensures { IfOk result (λ found. (id : ℕ) → has found id ≡ (has ids.now id
        && lie_near (texts_at (map candidate_seen texts.now) id) words.now reach)) }
{
    let mut last = zeros(alloc, words.len())?;
    within_distance(alloc, texts, ids, words, reach, last.as_mut_slice())
}

/// So many zeros.
fn zeros(alloc: Global, count: usize) -> Result<Vec<usize>, AllocError>
    ensures { IfOk result (λ zeros. length zeros.items ≡ count) }
{
    let mut zeros = Vec::new(alloc);
    zeros.resize(count, 0)?;
    Ok(zeros)
}
