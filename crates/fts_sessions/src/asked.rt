//! What a statement that changes rows asks for.
ghost use Rattle.std.specs.Prelude.{◌≡◌, ◌<◌, ◌+◌, [], map, drop, length, slice_index_or};
ghost use Rattle.std.specs.Prelude.{IfOk, IfSome, IfNone, Some, None, MatchOption};
ghost use Rattle.std.specs.List.{list_all, list_any};
ghost use Rattle.std.specs.Str.{str_eq_ignore_ascii_case};
ghost use Rattle.fts_commits.specs.declared.change.Change.TheVariants as change;
ghost use Rattle.fts_sql.specs.declared.statement.Statement.TheVariants.{Insert, Update, Delete};
ghost use Rattle.fts_sessions.specs.Conversation.{asked_change, fitting as the_fitting};
ghost use Rattle.fts_sessions.specs.Conversation.{unknown_name as the_unknown_name};
ghost use Rattle.fts_sessions.specs.Table.{is_text, texts_in};
ghost use Rattle.fts_sessions.specs.Table.{plain_insert, numbered_insert, named_insert};
ghost use Rattle.fts_sessions.specs.Table.{are_set_once as the_are_set_once};
ghost use Rattle.fts_sessions.specs.Table.{text_for as the_text_for, update_of as the_update_of};

use crate::names::{are_insert_columns, are_numbered_columns, first_unknown, is_listed, is_same};
use fts_commits::{Change, NewTexts};
use fts_schema::Reply;
use fts_sql::{Value, Values};
use fts_types::{DocId, Key, Names, RowTexts, SharedTexts, Text};
use std::alloc::{AllocError, Global};

/// The change that an INSERT asks for, or the reply that refuses it.
pub fn asked_insert(
    alloc: Global,
    columns: &Names,
    table: Text,
    names: &Names,
    values: Values,
) -> Result<Result<Change, Reply>, AllocError>
    ensures { IfOk result (λ asked.
        asked ≡ asked_change columns.now (Insert table names.now values)) }
{
    if let Some(reply) = unknown_name(alloc, columns, table, names)? {
        return Ok(Err(reply));
    }
    Ok(fitting(insert_of(alloc, columns, names, values)?))
}

/// The change that an UPDATE asks for, or the reply that refuses it.
pub fn asked_update(
    alloc: Global,
    columns: &Names,
    table: Text,
    names: &Names,
    texts: &RowTexts,
    key: Key,
) -> Result<Result<Change, Reply>, AllocError>
    ensures { IfOk result (λ asked.
        asked ≡ asked_change columns.now (Update table names.now texts.now key)) }
{
    if let Some(reply) = unknown_name(alloc, columns, table, names)? {
        return Ok(Err(reply));
    }
    Ok(fitting(update_of(alloc, columns, names, texts, key)?))
}

/// The change that a DELETE asks for, or the reply that refuses it.
pub fn asked_delete(
    alloc: Global,
    columns: &Names,
    table: Text,
    key: Key,
) -> Result<Result<Change, Reply>, AllocError>
    ensures { IfOk result (λ asked. asked ≡ asked_change columns.now (Delete table key)) }
{
    if let Some(reply) = unknown_name(alloc, columns, table, &Names::new(alloc))? {
        return Ok(Err(reply));
    }
    Ok(Ok(Change::Delete { key }))
}

// The change, if it fits the table.
fn fitting(change: Option<Change>) -> Result<Change, Reply>
    ensures { result ≡ the_fitting change }
{
    match change {
        Some(change) => Ok(change),
        None => Err(Reply::WrongColumns),
    }
}

/// The refusal of a statement whose table or a column is not there.
pub fn unknown_name(
    alloc: Global,
    columns: &Names,
    table: Text,
    names: &Names,
) -> Result<Option<Reply>, AllocError>
    ensures { IfOk result (λ reply. reply ≡ the_unknown_name columns.now table names.now) }
{
    if !is_same(table.as_slice(), b"docs") {
        return Ok(Some(Reply::NoSuchTable { name: table }));
    }
    match first_unknown(columns, names) {
        None => Ok(None),
        Some(place) => {
            let name = Text::new(Vec::from_slice(alloc, names.text(place))?);
            Ok(Some(Reply::NoSuchColumn { name }))
        }
    }
}

// ---- an INSERT

// The key of a row, and its document id where one is given.
#[derive(Clone, Copy)]
struct Numbers {
    key: Key,
    doc: Option<DocId>,
}

// The change that an INSERT of these values into columns of these names asks for, if they fit the
// table. It holds the texts of the values, which are moved and not copied.
fn insert_of(
    alloc: Global,
    columns: &Names,
    names: &Names,
    values: Values,
) -> Result<Option<Change>, AllocError>
    ensures { IfOk result (λ change. change ≡ named_insert columns.now names.now values) }
{
    let Some(numbers) = numbers_of(columns, names, values.as_slice()) else {
        return Ok(None);
    };
    let texts = SharedTexts::new(alloc, texts_of(alloc, values)?)?;
    let Numbers { key, doc } = numbers;
    Ok(Some(Change::Insert { key, doc, texts }))
}

// The numbers of an INSERT of these values into columns of these names, if they fit the table.
fn numbers_of(columns: &Names, names: &Names, values: &[Value]) -> Option<Numbers>
    ensures some { IfSome result (λ numbers. named_insert columns.now names.now values.now
        ≡ Some (change.Insert numbers.key numbers.doc (texts_in values.now))) }
    ensures none { IfNone result (named_insert columns.now names.now values.now ≡ None) }
{
    if are_insert_columns(columns, names) {
        return plain_numbers(columns.len(), values);
    }
    if are_numbered_columns(columns, names) {
        return given_numbers(columns.len(), values);
    }
    None
}

// The key of a row of so many columns, if the values are a number and a text for each of them.
fn plain_numbers(columns: usize, values: &[Value]) -> Option<Numbers>
    ensures some { IfSome result (λ numbers. plain_insert columns values.now
        ≡ Some (change.Insert numbers.key numbers.doc (texts_in values.now))) }
    ensures none { IfNone result (plain_insert columns values.now ≡ None) }
{
    let [Value::Number(key), texts @ ..] = values else {
        return None;
    };
    if texts.len() != columns || !are_texts(texts) {
        return None;
    }
    let (key, doc) = (*key, None);
    Some(Numbers { key, doc })
}

// Its key and its document id, if the values are two numbers and a text for each of the columns.
fn given_numbers(columns: usize, values: &[Value]) -> Option<Numbers>
    ensures some { IfSome result (λ numbers. numbered_insert columns values.now
        ≡ Some (change.Insert numbers.key numbers.doc (texts_in values.now))) }
    ensures none { IfNone result (numbered_insert columns values.now ≡ None) }
{
    let [Value::Number(key), Value::Number(doc), texts @ ..] = values else {
        return None;
    };
    if texts.len() != columns || !are_texts(texts) {
        return None;
    }
    let (key, doc) = (*key, Some(*doc));
    Some(Numbers { key, doc })
}

// Whether each value is a text.
fn are_texts(values: &[Value]) -> bool
    ensures { result ≡ list_all is_text values.now }
{
    values.iter().all(|value| matches!(value, Value::Text(_)))
}

// The texts among the values.
fn texts_of(alloc: Global, values: Values) -> Result<RowTexts, AllocError>
    ensures { IfOk result (λ texts. texts ≡ texts_in values) }
{
    let mut texts = RowTexts::new(alloc);
    for value in values.into_vec() {
        if let Value::Text(text) = value {
            texts.push(text.into_vec())?;
        }
    }
    Ok(texts)
}

// ---- an UPDATE

// The change that an UPDATE asks for which sets these texts for the columns of these names, if
// they fit the table. It costs the texts, and a comparison of each name with each column.
fn update_of(
    alloc: Global,
    columns: &Names,
    names: &Names,
    texts: &RowTexts,
    key: Key,
) -> Result<Option<Change>, AllocError>
    ensures { IfOk result
        (λ change. change ≡ the_update_of columns.now names.now texts.now key) }
{
    if !are_set_once(columns, names) {
        return Ok(None);
    }
    let texts = new_texts(alloc, columns, names, texts)?;
    Ok(Some(Change::Update { key, texts }))
}

// For each column the text that is set, if one is.
fn new_texts(
    alloc: Global,
    columns: &Names,
    names: &Names,
    texts: &RowTexts,
) -> Result<NewTexts, AllocError>
    ensures { IfOk result (λ news. news
        ≡ map (λ column. the_text_for column names.now texts.now) columns.now) }
{
    let mut news = Vec::new(alloc);
    for place in 0..columns.len() {
        let text = match text_for(columns.text(place), names, texts) {
            Some(text) => Some(Vec::from_slice(alloc, text)?),
            None => None,
        };
        news.push(text)?;
    }
    Ok(NewTexts::from_vec(news))
}

// The text that is set for a column, if one is.
fn text_for<'t>(column: &[u8], names: &Names, texts: &'t RowTexts) -> Option<&'t [u8]>
    ensures { MatchOption result (the_text_for column.now names.now texts.now ≡ None)
        (λ text. the_text_for column.now names.now texts.now ≡ Some text.now) }
{
    for place in 0..names.len() {
        if place >= texts.len() {
            return None;
        }
        if is_same(names.text(place), column) {
            return Some(texts.text(place));
        }
    }
    None
}

// Whether each name is that of a text column, and none comes twice.
fn are_set_once(columns: &Names, names: &Names) -> bool
    ensures { result ≡ the_are_set_once columns.now names.now }
{
    for place in 0..names.len() {
        if !is_listed(columns, names.text(place)) {
            return false;
        }
        if comes_again(names, place) {
            return false;
        }
    }
    true
}

// Whether the name at a place comes again behind it.
fn comes_again(names: &Names, place: usize) -> bool
    requires { place < length names.now }
    ensures { result ≡ list_any (λ other.
        str_eq_ignore_ascii_case (slice_index_or names.now place []) other)
        (drop (place + 1) names.now) }
{
    let count = names.len();
    for other in place + 1..count {
        if is_same(names.text(place), names.text(other)) {
            return true;
        }
    }
    false
}
