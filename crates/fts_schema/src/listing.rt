//! The text of a listing.
ghost use Rattle.std.specs.Prelude.{◌≡◌, decimal, map, IfOk, OnOk};
ghost use Rattle.fts_schema.specs.Listing.{group_front as the_group_front, document_rows};
ghost use Rattle.fts_schema.specs.Listing.{group_rows, word_rows, words_rows, config_rows};
ghost use Rattle.fts_schema.specs.Listing.{header_of as the_header_of, rows_of};
ghost use Rattle.fts_schema.specs.Listing.{switch_text as the_switch_text};
ghost use Rattle.fts_schema.specs.Listing.{checkpoint_text as the_checkpoint_text};
ghost use Rattle.fts_schema.specs.Listing.{listing_text as the_listing_text};
ghost use Rattle.fts_schema.specs.Rows.{Puts};
ghost use Rattle.fts_words.specs.Stopwords.{default_stopwords};

use crate::rows::{RowLines, push_field};
use fts_ilist::{Document, Node, WordNodes};
use fts_listing::{Config, Listing};
use fts_stopwords::default_words;
use fts_types::{DocId, Word};
use std::alloc::{AllocError, Global};

/// The text of a listing as of commit `number`: a line with the names of its columns, its rows, and
/// how many rows there are. It costs what it prints.
///
/// The only error is want of memory.
pub fn listing_text(alloc: Global, number: u64, listing: &Listing) -> Result<Vec<u8>, AllocError>
    ensures { IfOk result (λ text. text.items ≡ the_listing_text number listing.now) }
{
    let mut rows = RowLines::begun(alloc, header_of(listing))?;
    put_listing(&mut rows, alloc, listing)?;
    rows.closed(number)
}

// The names of a listing's columns.
fn header_of(listing: &Listing) -> &'static str
    ensures { result.now ≡ the_header_of listing.now }
{
    match listing {
        Listing::Words { .. } => "WORD|FIRST_DOC_ID|LAST_DOC_ID|DOC_COUNT|DOC_ID|POSITION",
        Listing::Ids { .. } => "DOC_ID",
        Listing::Config { .. } => "KEY|VALUE",
        Listing::Stopwords => "value",
    }
}

fn put_listing(rows: &mut RowLines, alloc: Global, listing: &Listing) -> Result<(), AllocError>
    ensures { OnOk result (Puts rows.old rows.new (rows_of listing.now)) }
{
    match listing {
        Listing::Words { words } => put_words(rows, alloc, words.as_slice()),
        Listing::Ids { ids } => put_ids(rows, ids.as_slice()),
        Listing::Config { config } => put_config(rows, config),
        Listing::Stopwords => put_stopwords(rows),
    }
}

fn put_words(rows: &mut RowLines, alloc: Global, words: &[WordNodes]) -> Result<(), AllocError>
    ensures { OnOk result (Puts rows.old rows.new (words_rows words.now)) }
{
    for word in words {
        put_word(rows, alloc, word)?;
    }
    Ok(())
}

fn put_word(rows: &mut RowLines, alloc: Global, word: &WordNodes) -> Result<(), AllocError>
    ensures { OnOk result (Puts rows.old rows.new (word_rows word.now)) }
{
    for group in word.nodes() {
        put_group(rows, alloc, word.word(), group)?;
    }
    Ok(())
}

fn put_group(
    rows: &mut RowLines,
    alloc: Global,
    word: &[u8],
    group: &Node,
) -> Result<(), AllocError>
    ensures { OnOk result (Puts rows.old rows.new (group_rows word.now group.now)) }
{
    let front = group_front(alloc, word, group)?;
    for document in group.cursor() {
        put_document(rows, &front, &document)?;
    }
    Ok(())
}

// What the rows of a group begin with.
fn group_front(alloc: Global, word: &[u8], group: &Node) -> Result<Vec<u8>, AllocError>
    ensures { IfOk result (λ front. front.items ≡ the_group_front word.now group.now) }
{
    let mut front = Vec::from_slice(alloc, word)?;
    front.push(b'|')?;
    push_field(&mut front, group.first())?;
    push_field(&mut front, group.last())?;
    push_field(&mut front, group.count() as u64)?;
    Ok(front)
}

fn put_document(rows: &mut RowLines, front: &[u8], document: &Document) -> Result<(), AllocError>
    ensures { OnOk result (Puts rows.old rows.new (document_rows front.now document.now)) }
{
    for position in document.positions() {
        rows.put_position(front, document.id(), u64::from(position))?;
    }
    Ok(())
}

fn put_ids(rows: &mut RowLines, ids: &[DocId]) -> Result<(), AllocError>
    ensures { OnOk result (Puts rows.old rows.new (map decimal ids.now)) }
{
    for id in ids {
        rows.put_id(*id)?;
    }
    Ok(())
}

fn put_config(rows: &mut RowLines, config: &Config) -> Result<(), AllocError>
    ensures { OnOk result (Puts rows.old rows.new (config_rows config.now)) }
{
    rows.put_number("max_token_size", u64::from(config.max))?;
    rows.put_number("min_token_size", u64::from(config.min))?;
    rows.put_key("optimize_word", checkpoint_text(&config.checkpoint))?;
    rows.put_number("synced_commit", config.flushed)?;
    rows.put_number("synced_doc_id", config.synced)?;
    rows.put_key("use_stopword", switch_text(config.stopword))
}

// The word that a pass worked on last, empty where there is none.
fn checkpoint_text(checkpoint: &Option<Word>) -> &[u8]
    ensures { result.now ≡ the_checkpoint_text checkpoint.now }
{
    match checkpoint {
        None => b"",
        Some(word) => word.as_bytes(),
    }
}

fn switch_text(on: bool) -> &'static [u8]
    ensures { result.now ≡ the_switch_text on }
{
    if on { b"1" } else { b"0" }
}

fn put_stopwords(rows: &mut RowLines) -> Result<(), AllocError>
    ensures { OnOk result (Puts rows.old rows.new default_stopwords) }
{
    put_texts(rows, default_words())
}

fn put_texts(rows: &mut RowLines, texts: &[&str]) -> Result<(), AllocError>
    ensures { OnOk result (Puts rows.old rows.new (map (λ text. text.now) texts.now)) }
{
    for text in texts {
        rows.put(text.as_bytes())?;
    }
    Ok(())
}
