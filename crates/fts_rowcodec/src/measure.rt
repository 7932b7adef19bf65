//! How many bytes payloads have.
ghost use Rattle.std.specs.Prelude.{◌≡◌, ◌<◌, ◌^◌, None, length, slice_index_or};
ghost use Rattle.std.specs.List.{flat_map};
ghost use Rattle.fts_types.specs.Settings.{AreSettings};
ghost use Rattle.fts_rowcodec.specs.Payload.{text_payload, doc_payload, new_payload};
ghost use Rattle.fts_rowcodec.specs.Payload.{change_payload, commit_payload, settings_payload};

use fts_commits::{Change, NewTexts};
use fts_types::{RowTexts, Settings};

/// How many bytes a kind and a key have.
const KEY: usize = 9;

/// The size of the texts of a row.
fn texts_size(texts: &RowTexts) -> usize
    requires { length (flat_map text_payload texts.now) < 2 ^ 32 }
    ensures { result ≡ length (flat_map text_payload texts.now) }
{
    match texts.size() {
        Some(size) => 2 * texts.len() + size,
        None => unreachable!(),
    }
}

/// The size of a document id that may be given.
fn doc_size(doc: Option<u64>) -> usize
    ensures { result ≡ length (doc_payload doc) }
{
    match doc {
        None => 1,
        Some(_) => 9,
    }
}

/// The size of the texts that an UPDATE sets.
fn new_texts_size(texts: &NewTexts) -> usize
    requires { length (flat_map new_payload texts.now) < 2 ^ 32 }
    ensures { result ≡ length (flat_map new_payload texts.now) }
{
    let mut size = 0;
    for place in 0..texts.len() {
        size += new_text_size(texts, place);
    }
    size
}

/// The size of the text that an UPDATE sets, or that the old one is kept.
fn new_text_size(texts: &NewTexts, place: usize) -> usize
    requires { place < length texts.now }
    ensures { result ≡ length (new_payload (slice_index_or texts.now place None)) }
{
    match texts.text(place) {
        None => 1,
        Some(text) => 3 + text.len(),
    }
}

/// The size of a change.
fn change_size(change: &Change) -> usize
    requires { length (change_payload change.now) < 2 ^ 32 }
    ensures { result ≡ length (change_payload change.now) }
{
    match change {
        Change::Insert { key: _, doc, texts } => KEY + doc_size(*doc) + texts_size(texts.texts()),
        Change::Update { key: _, texts } => KEY + new_texts_size(texts),
        Change::Delete { .. } => KEY,
    }
}

/// How many bytes the payload of a commit has.
pub fn commit_size(changes: &[Change]) -> usize
    requires { length (commit_payload changes.now) < 2 ^ 32 }
    ensures { result ≡ length (commit_payload changes.now) }
{
    let mut size = 3;
    for change in changes {
        size += change_size(change);
    }
    size
}

/// How many bytes the payload of settings has.
pub fn settings_size(settings: &Settings) -> usize
    requires { AreSettings settings.now }
    ensures { result ≡ length (settings_payload settings.now) }
{
    match settings.columns.size() {
        Some(size) => 15 + settings.columns.len() + size,
        None => unreachable!(),
    }
}
