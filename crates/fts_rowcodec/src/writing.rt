//! Writers at the head of a buffer: each says how many bytes it wrote. None takes memory.
ghost use Rattle.std.specs.Prelude.{◌<◌, ◌≤◌, ◌∷◌, [], All, None, slice_index_or, length};
ghost use Rattle.std.specs.List.{flat_map};
ghost use Rattle.std.specs.Int.{w64, to_be_bytes};
ghost use Rattle.fts_commits.specs.declared.change.Change.TheVariants.{Insert, Update};
ghost use Rattle.fts_rowcodec.specs.Payload.{FitsBytes, FitsText, FitsNewText, new_payload};
ghost use Rattle.fts_rowcodec.specs.Payload.{text_payload, doc_payload, change_payload};
ghost use Rattle.fts_rowcodec.specs.Payload.{column_payload, flag_payload, numbers_payload};
ghost use Rattle.fts_codec.specs.Writing.{Puts};

use fts_codec::{put_bytes, put_u8, put_u16, put_u32, put_u64};
use fts_commits::{Change, NewTexts};
use fts_types::{Names, RowTexts, Settings};

/// A column's name: its length in one byte, and its bytes.
fn put_column(buf: &mut [u8], name: &[u8]) -> usize
    requires short { length name.now ≤ 32 }
    requires room { length (column_payload name.now) ≤ length buf.old }
    ensures { Puts (column_payload name.now) buf.old buf.new result }
{
    let at = put_u8(buf, name.len() as u8);
    at + put_bytes(&mut buf[at..], name)
}

/// The names of columns.
pub(crate) fn put_columns(buf: &mut [u8], names: &Names) -> usize
    requires short { All (λ name. length name ≤ 32) names.now }
    requires room { length (flat_map column_payload names.now) ≤ length buf.old }
    ensures { Puts (flat_map column_payload names.now) buf.old buf.new result }
{
    let mut at = 0;
    for place in 0..names.len() {
        at += put_column(&mut buf[at..], names.text(place));
    }
    at
}

/// The sizes of words and the flag of stopwords, in one byte each.
fn put_sizes(buf: &mut [u8], settings: &Settings) -> usize
    requires { 3 ≤ length buf.old }
    ensures { Puts (settings.now.min ∷ settings.now.max ∷ flag_payload settings.now.stopword ∷ [])
        buf.old buf.new result }
{
    put_bytes(
        buf,
        &[settings.min, settings.max, u8::from(settings.stopword)],
    )
}

/// The numbers of the settings.
pub(crate) fn put_numbers(buf: &mut [u8], settings: &Settings) -> usize
    requires { 13 ≤ length buf.old }
    ensures { Puts (numbers_payload settings.now) buf.old buf.new result }
{
    let mut at = put_sizes(buf, settings);
    at += put_u16(&mut buf[at..], settings.optimize_words);
    at += put_u32(&mut buf[at..], settings.cache_bytes);
    at + put_u32(&mut buf[at..], settings.batch_docs)
}

/// A text: its length in two bytes, and its bytes.
fn put_text(buf: &mut [u8], text: &[u8]) -> usize
    requires fits { FitsText text.now }
    requires room { length (text_payload text.now) ≤ length buf.old }
    ensures { Puts (text_payload text.now) buf.old buf.new result }
{
    let at = put_u16(buf, text.len() as u16);
    at + put_bytes(&mut buf[at..], text)
}

/// The texts of a row.
fn put_texts(buf: &mut [u8], texts: &RowTexts) -> usize
    requires fits { All FitsText texts.now }
    requires room { length (flat_map text_payload texts.now) ≤ length buf.old }
    ensures { Puts (flat_map text_payload texts.now) buf.old buf.new result }
{
    let mut at = 0;
    for place in 0..texts.len() {
        at += put_text(&mut buf[at..], texts.text(place));
    }
    at
}

/// A document id, if one is given.
fn put_doc(buf: &mut [u8], doc: Option<u64>) -> usize
    requires { length (doc_payload doc) ≤ length buf.old }
    ensures { Puts (doc_payload doc) buf.old buf.new result }
{
    match doc {
        None => put_u8(buf, 0),
        Some(doc) => {
            let at = put_u8(buf, 1);
            at + put_u64(&mut buf[at..], doc)
        }
    }
}

/// A change's kind and key.
fn put_key(buf: &mut [u8], kind: u8, key: u64) -> usize
    requires { 9 ≤ length buf.old }
    ensures { Puts (kind ∷ to_be_bytes w64 key) buf.old buf.new result }
{
    let at = put_u8(buf, kind);
    at + put_u64(&mut buf[at..], key)
}

/// An INSERT.
fn put_insert(buf: &mut [u8], key: u64, doc: Option<u64>, texts: &RowTexts) -> usize
    requires fits { All FitsText texts.now }
    requires room { length (change_payload (Insert key doc texts.now)) ≤ length buf.old }
    ensures { Puts (change_payload (Insert key doc texts.now)) buf.old buf.new result }
{
    let mut at = put_key(buf, 1, key);
    at += put_doc(&mut buf[at..], doc);
    at + put_texts(&mut buf[at..], texts)
}

/// The text that an UPDATE sets, or that the old one is kept.
fn put_new_text(buf: &mut [u8], texts: &NewTexts, place: usize) -> usize
    requires in_place { place < length texts.now }
    requires fits { FitsNewText (slice_index_or texts.now place None) }
    requires room { length (new_payload (slice_index_or texts.now place None)) ≤ length buf.old }
    ensures { Puts (new_payload (slice_index_or texts.now place None)) buf.old buf.new result }
{
    match texts.text(place) {
        None => put_u8(buf, 0),
        Some(text) => {
            let at = put_u8(buf, 1);
            at + put_text(&mut buf[at..], text)
        }
    }
}

/// The texts that an UPDATE sets.
fn put_new_texts(buf: &mut [u8], texts: &NewTexts) -> usize
    requires fits { All FitsNewText texts.now }
    requires room { length (flat_map new_payload texts.now) ≤ length buf.old }
    ensures { Puts (flat_map new_payload texts.now) buf.old buf.new result }
{
    let mut at = 0;
    for place in 0..texts.len() {
        at += put_new_text(&mut buf[at..], texts, place);
    }
    at
}

/// An UPDATE.
fn put_update(buf: &mut [u8], key: u64, texts: &NewTexts) -> usize
    requires fits { All FitsNewText texts.now }
    requires room { length (change_payload (Update key texts.now)) ≤ length buf.old }
    ensures { Puts (change_payload (Update key texts.now)) buf.old buf.new result }
{
    let at = put_key(buf, 2, key);
    at + put_new_texts(&mut buf[at..], texts)
}

/// A change.
pub(crate) fn put_change(buf: &mut [u8], change: &Change) -> usize
    requires fits { FitsBytes change.now }
    requires room { length (change_payload change.now) ≤ length buf.old }
    ensures { Puts (change_payload change.now) buf.old buf.new result }
{
    match change {
        Change::Insert { key, doc, texts } => put_insert(buf, *key, *doc, texts.texts()),
        Change::Update { key, texts } => put_update(buf, *key, texts),
        Change::Delete { key } => put_key(buf, 3, *key),
    }
}
