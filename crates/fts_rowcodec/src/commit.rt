//! The commits that payloads spell.
ghost use Rattle.std.specs.Prelude.{◌≡◌, ◌⊎◌, IfOk, IfErr, Ok, Err};
ghost use Rattle.std.specs.List.{list_all};
ghost use Rattle.std.specs.Int.{is_in_range};
ghost use Rattle.std.specs.Option.{option_map};
ghost use Rattle.fts_commits.specs.Commit.{Commit};
ghost use Rattle.fts_commits.specs.NewText.{new_text};
ghost use Rattle.fts_commits.specs.Text.{is_text_byte};
ghost use Rattle.fts_codec.specs.Fault.{Gives};
ghost use Rattle.fts_codec.specs.Fields.{many_at};
ghost use Rattle.fts_rowcodec.specs.DecodeError.{IsCause};
ghost use Rattle.fts_rowcodec.specs.Payload.{IsWritten, commit_payload};
ghost use Rattle.fts_rowcodec.specs.Reading.{text_at, doc_at, new_at, insert_at, update_at};
ghost use Rattle.fts_rowcodec.specs.Reading.{delete_at, change_at, count_at, commit_of};

use crate::error::DecodeError;
use fts_codec::{Fault, behind, bytes_at, u16_at, u64_at};
use fts_commits::{Change, Changes, NewTexts, is_text_byte};
use fts_types::{DocId, RowTexts, SharedTexts};
use std::alloc::{AllocError, Global};

/// Whether texts may hold each of the bytes.
fn has_text_bytes(text: &[u8]) -> bool
    ensures { result ≡ list_all is_text_byte text.now }
{
    text.iter().all(|&byte| is_text_byte(byte))
}

/// A text, behind its length of two bytes.
#[tactic(auto, unfolding(crate::specs::Reading::text_at))]
fn text_at(bytes: &[u8]) -> Result<(&[u8], &[u8]), Fault>
    ensures { Gives (λ x. (x.0.now, x.1.now)) result (text_at bytes.now) }
{
    let Some((size, rest)) = u16_at(bytes) else {
        return Err(Fault::at(bytes));
    };
    let Some((text, behind)) = bytes_at(rest, size as usize) else {
        return Err(Fault::at(rest));
    };
    if !has_text_bytes(text) {
        return Err(Fault::at(rest));
    }
    Ok((text, behind))
}

/// So many texts.
fn texts_at(alloc: Global, count: usize, bytes: &[u8]) -> Result<(RowTexts, &[u8]), Fault>
    ensures { Gives (λ x. (x.0, x.1.now)) result (many_at text_at count bytes.now) }
{
    let mut texts = RowTexts::new(alloc);
    let mut rest = bytes;
    for _ in 0..count {
        let (text, after) = text_at(rest)?;
        texts.push(Vec::from_slice(alloc, text)?)?;
        rest = after;
    }
    Ok((texts, rest))
}

/// A document id, if one is given.
#[tactic(auto, unfolding(crate::specs::Reading::doc_at))]
fn doc_at(bytes: &[u8]) -> Result<(Option<DocId>, &[u8]), Fault>
    ensures { Gives (λ x. (x.0, x.1.now)) result (doc_at bytes.now) }
{
    if let Some(rest) = behind(bytes, 0) {
        return Ok((None, rest));
    }
    let Some(doc_on) = behind(bytes, 1) else {
        return Err(Fault::at(bytes));
    };
    let Some((doc, rest)) = u64_at(doc_on) else {
        return Err(Fault::at(doc_on));
    };
    Ok((Some(doc), rest))
}

/// The text that an UPDATE sets, or that the old one is kept.
#[tactic(auto, unfolding(crate::specs::Reading::new_at))]
fn new_at(bytes: &[u8]) -> Result<(Option<&[u8]>, &[u8]), Fault>
    ensures { Gives (λ x. (option_map (λ text. text.now) x.0, x.1.now)) result
        (new_at bytes.now) }
{
    if let Some(rest) = behind(bytes, 0) {
        return Ok((None, rest));
    }
    let Some(text_on) = behind(bytes, 1) else {
        return Err(Fault::at(bytes));
    };
    let (text, rest) = text_at(text_on)?;
    Ok((Some(text), rest))
}

/// So many texts that an UPDATE sets or keeps.
fn news_at(alloc: Global, count: usize, bytes: &[u8]) -> Result<(NewTexts, &[u8]), Fault>
    ensures { Gives (λ x. (x.0, x.1.now)) result (many_at new_at count bytes.now) }
{
    let mut news = Vec::new(alloc);
    let mut rest = bytes;
    for _ in 0..count {
        let (text, after) = new_at(rest)?;
        news.push(copied(alloc, text)?)?;
        rest = after;
    }
    Ok((NewTexts::from_vec(news), rest))
}

/// A copy of a text, if there is one.
fn copied(alloc: Global, text: Option<&[u8]>) -> Result<Option<Vec<u8>>, AllocError>
    ensures { IfOk result (λ copy. new_text copy
        ≡ option_map (λ text. text.now) text.entry) }
{
    match text {
        Some(text) => Ok(Some(Vec::from_slice(alloc, text)?)),
        None => Ok(None),
    }
}

/// An INSERT into a row of so many columns.
#[tactic(auto, unfolding(crate::specs::Reading::insert_at))]
fn insert_at(alloc: Global, columns: usize, bytes: &[u8]) -> Result<(Change, &[u8]), Fault>
    ensures { Gives (λ x. (x.0, x.1.now)) result (insert_at columns bytes.now) }
{
    let Some((key, rest)) = u64_at(bytes) else {
        return Err(Fault::at(bytes));
    };
    let (doc, rest) = doc_at(rest)?;
    let (texts, rest) = texts_at(alloc, columns, rest)?;
    let texts = SharedTexts::new(alloc, texts)?;
    Ok((Change::Insert { key, doc, texts }, rest))
}

/// An UPDATE of a row of so many columns.
#[tactic(auto, unfolding(crate::specs::Reading::update_at))]
fn update_at(alloc: Global, columns: usize, bytes: &[u8]) -> Result<(Change, &[u8]), Fault>
    ensures { Gives (λ x. (x.0, x.1.now)) result (update_at columns bytes.now) }
{
    let Some((key, rest)) = u64_at(bytes) else {
        return Err(Fault::at(bytes));
    };
    let (texts, rest) = news_at(alloc, columns, rest)?;
    Ok((Change::Update { key, texts }, rest))
}

/// A DELETE.
#[tactic(auto, unfolding(crate::specs::Reading::delete_at))]
fn delete_at(bytes: &[u8]) -> Result<(Change, &[u8]), Fault>
    ensures { Gives (λ x. (x.0, x.1.now)) result (delete_at bytes.now) }
{
    let Some((key, rest)) = u64_at(bytes) else {
        return Err(Fault::at(bytes));
    };
    Ok((Change::Delete { key }, rest))
}

/// A change of a row of so many columns.
#[tactic(auto, unfolding(crate::specs::Reading::change_at))]
fn change_at(alloc: Global, columns: usize, bytes: &[u8]) -> Result<(Change, &[u8]), Fault>
    ensures { Gives (λ x. (x.0, x.1.now)) result (change_at columns bytes.now) }
{
    if let Some(rest) = behind(bytes, 1) {
        return insert_at(alloc, columns, rest);
    }
    if let Some(rest) = behind(bytes, 2) {
        return update_at(alloc, columns, rest);
    }
    let Some(rest) = behind(bytes, 3) else {
        return Err(Fault::at(bytes));
    };
    delete_at(rest)
}

/// So many changes.
fn changes_at(
    alloc: Global,
    columns: usize,
    count: u16,
    bytes: &[u8],
) -> Result<(Vec<Change>, &[u8]), Fault>
    ensures { Gives (λ x. (x.0.items, x.1.now)) result
        (many_at (change_at columns) count bytes.now) }
{
    let mut changes = Vec::new(alloc);
    let mut rest = bytes;
    for _ in 0..count {
        let (change, after) = change_at(alloc, columns, rest)?;
        changes.push(change)?;
        rest = after;
    }
    Ok((changes, rest))
}

/// The count of a commit's changes, 1 to 1,000.
#[tactic(auto, unfolding(crate::specs::Reading::count_at))]
fn count_at(bytes: &[u8]) -> Result<(u16, &[u8]), Fault>
    ensures { Gives (λ x. (x.0, x.1.now)) result (count_at bytes.now) }
{
    let Some(count_on) = behind(bytes, 1) else {
        return Err(Fault::at(bytes));
    };
    let Some((count, rest)) = u16_at(count_on) else {
        return Err(Fault::at(count_on));
    };
    if !is_count(count) {
        return Err(Fault::at(count_on));
    }
    Ok((count, rest))
}

/// Whether a commit may have so many changes.
fn is_count(count: u16) -> bool
    ensures { result ≡ is_in_range 1 1000 count }
{
    1 <= count && count <= 1000
}

/// The commit that the bytes spell, all of them.
#[tactic(auto, unfolding(crate::specs::Reading::commit_of))]
fn commit_in(alloc: Global, columns: usize, bytes: &[u8]) -> Result<Changes, Fault>
    ensures { Gives (λ changes. changes) result (commit_of columns bytes.now) }
{
    let (count, rest) = count_at(bytes)?;
    let (changes, rest) = changes_at(alloc, columns, count, rest)?;
    if !rest.is_empty() {
        return Err(Fault::at(rest));
    }
    Ok(Changes::from_vec(changes))
}

/// The changes in the payload of a commit of rows of so many columns.
///
/// # Errors
///
/// `Bad` exactly where the bytes are no such payload, with the place at which the first field
/// begins that can't stand there: a kind or a flag that is none; no changes or more than 1,000; a
/// number that is cut; a text that is cut, or holds a byte that no text holds; what stands behind
/// the last field.
/// `NoMemory` where there is none for the changes.
pub fn decode_commit(alloc: Global, columns: usize, bytes: &[u8]) -> Result<Changes, DecodeError>
    // What is read is spelled so.
    ensures commit { IfOk result (λ changes. IsWritten columns changes
        × (bytes.now ≡ commit_payload changes)) }
    // What is spelled so is read.
    ensures exact { (commit : Commit) → IsWritten columns commit → bytes.now ≡ commit_payload commit
        → (result ≡ Ok commit) ⊎ (result ≡ Err DecodeError.NoMemory) }
    // A refusal has its place.
    ensures cause { IfErr result (IsCause columns bytes.now) }
{
    match commit_in(alloc, columns, bytes) {
        Ok(changes) => Ok(changes),
        Err(Fault::NoMemory) => Err(DecodeError::NoMemory),
        Err(Fault::Bad { left }) => {
            let at = bytes.len() - left;
            Err(DecodeError::Bad { at })
        }
    }
}
