//! Whether changes fit a table.
ghost use Rattle.std.specs.Prelude.{◌≡◌, ◌↔◌, ◌≤◌, ◌<◌, All, IsTrue, length, None};
ghost use Rattle.std.specs.Prelude.{slice_index_or};
ghost use Rattle.std.specs.List.{list_all};
ghost use Rattle.fts_commits.specs.Text.{is_text_byte};
ghost use Rattle.fts_commits.specs.Fits.{IsText, IsNewText, FitsColumns, FitsNumbers, FitsId};
ghost use Rattle.fts_commits.specs.Fits.{CanCommit};

use fts_commits::{Change, NewTexts, is_text_byte};
use fts_types::{DocId, RowTexts};

// A commit of these changes can be asked of a database whose table has so many columns.
pub(crate) fn can_commit(columns: usize, changes: &[Change]) -> bool
    requires some { 1 ≤ columns }
    requires few { columns ≤ 8 }
    ensures { IsTrue result ↔ CanCommit columns changes.now }
{
    if changes.is_empty() || changes.len() > 1_000 {
        return false;
    }
    all_fit(columns, changes)
}

// Each of the changes fits.
fn all_fit(columns: usize, changes: &[Change]) -> bool
    ensures { IsTrue result
        ↔ (All (FitsColumns columns) changes.now × All FitsNumbers changes.now) }
{
    for change in changes {
        if !fits(columns, change) {
            return false;
        }
    }
    true
}

// The change fits a table of so many columns.
fn fits(columns: usize, change: &Change) -> bool
    ensures { IsTrue result ↔ (FitsColumns columns change.now × FitsNumbers change.now) }
{
    match change {
        Change::Insert { key, doc, texts } => {
            let _key = *key;
            read_id(doc);
            are_texts(columns, texts.texts())
        }
        Change::Update { key, texts } => {
            let _key = *key;
            are_new_texts(columns, texts)
        }
        Change::Delete { key } => {
            let _key = *key;
            true
        }
    }
}

// A document id, if one is given, has eight bytes.
fn read_id(doc: &Option<DocId>)
    ensures { FitsId doc.now }
{
    match doc {
        Some(doc) => {
            let _doc = *doc;
        }
        None => {}
    }
}

// There are so many texts, each of bytes that a text may hold.
fn are_texts(columns: usize, texts: &RowTexts) -> bool
    ensures { IsTrue result ↔ ((length texts.now ≡ columns) × All IsText texts.now) }
{
    if texts.len() != columns {
        return false;
    }
    for place in 0..texts.len() {
        if !is_text(texts.text(place)) {
            return false;
        }
    }
    true
}

// There is a text for each of so many columns, or none where the old one is kept.
fn are_new_texts(columns: usize, texts: &NewTexts) -> bool
    ensures { IsTrue result ↔ ((length texts.now ≡ columns) × All IsNewText texts.now) }
{
    if texts.len() != columns {
        return false;
    }
    for place in 0..texts.len() {
        if !is_new_text(texts, place) {
            return false;
        }
    }
    true
}

// The new text of a column, if one is set, has bytes that a text may hold.
fn is_new_text(texts: &NewTexts, place: usize) -> bool
    requires { place < length texts.now }
    ensures { IsTrue result ↔ IsNewText (slice_index_or texts.now place None) }
{
    match texts.text(place) {
        Some(text) => is_text(text),
        None => true,
    }
}

// A text may hold each of the bytes.
fn is_text(text: &[u8]) -> bool
    ensures { result ≡ list_all is_text_byte text.now }
{
    text.iter().all(|&byte| is_text_byte(byte))
}
