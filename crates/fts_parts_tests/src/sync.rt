ghost use Rattle.std.specs.Prelude.{◌<◌, ◌^◌};

use fts_cache::{Cache, DocWords};
use fts_ilist::WordNodes;
use fts_lists::{DeleteList, Lists};
use fts_sync::batch;
use std::alloc::{AllocError, Global};
use std::test::Fail;

// A word, and what its one node has: the first and the last id, and the number of documents.
type Row = (&'static [u8], u64, u64, usize);

// A document with these words, in byte order, each at the place 7.
fn document(alloc: Global, id: u64, words: &[&[u8]]) -> Result<DocWords, Fail>
    requires positive { 0 < id }
    requires limit { id < 2 ^ 63 }
{
    let mut made = DocWords::new(alloc, id);
    for word in words {
        if !made.can_push(word, &[7]) {
            return Err(Fail::from("a word out of order"));
        }
        made.push(word, &[7])?;
    }
    Ok(made)
}

// Puts a document behind the others.
fn put(cache: &mut Cache, document: DocWords) -> Result<(), Fail> {
    let documents = [document];
    if cache.last() >= documents[0].id() {
        return Err(Fail::from("an id that is not behind"));
    }
    cache.reserve(&documents)?;
    cache.add(&documents[0]);
    Ok(())
}

// Three documents: 3 and 5 have a word in common, and 9 another one.
fn cached(alloc: Global) -> Result<Cache, Fail> {
    let mut cache = Cache::new(alloc);
    put(&mut cache, document(alloc, 3, &[b"apple", b"pie"])?)?;
    put(&mut cache, document(alloc, 5, &[b"apple", b"juice"])?)?;
    put(&mut cache, document(alloc, 9, &[b"kiwi"])?)?;
    Ok(cache)
}

// Lists with these ids in DELETED_CACHE.
fn dead(alloc: Global, ids: &[u64]) -> Result<Lists, AllocError> {
    let mut lists = Lists::new(alloc);
    for id in ids {
        lists.reserve(DeleteList::DeletedCache, 1)?;
        lists.add(DeleteList::DeletedCache, *id);
    }
    Ok(lists)
}

// Whether a word is this one, with its one node.
fn is_row(found: &WordNodes, row: &Row) -> bool {
    match found.nodes() {
        [node] => (found.word(), node.first(), node.last(), node.count()) == *row,
        _ => false,
    }
}

// Whether the words of a batch up to an id, without the dead documents, are these.
fn has_rows(
    alloc: Global,
    cache: &Cache,
    last: u64,
    dead_ids: &[u64],
    rows: &[Row],
) -> Result<bool, AllocError> {
    let nodes = batch(alloc, cache, last, &dead(alloc, dead_ids)?)?;
    if nodes.len() != rows.len() {
        return Ok(false);
    }
    for (found, row) in nodes.iter().zip(rows) {
        if !is_row(found, row) {
            return Ok(false);
        }
    }
    Ok(true)
}

#[test]
fn a_batch_has_the_words_of_its_documents(rt: HostRuntime) -> Result<(), Fail> {
    let cache = cached(rt.alloc())?;
    let rows: [Row; 3] = [(b"apple", 3, 5, 2), (b"juice", 5, 5, 1), (b"pie", 3, 3, 1)];
    assert!(rt; has_rows(rt.alloc(), &cache, 8, &[], &rows)?);
    Ok(())
}

#[test]
fn the_last_document_of_a_batch_is_the_one_with_its_id(rt: HostRuntime) -> Result<(), Fail> {
    let cache = cached(rt.alloc())?;
    let rows: [Row; 2] = [(b"apple", 3, 3, 1), (b"pie", 3, 3, 1)];
    assert!(rt; has_rows(rt.alloc(), &cache, 3, &[], &rows)?);
    assert!(rt; has_rows(rt.alloc(), &cache, 2, &[], &[])?);
    Ok(())
}

#[test]
fn a_dead_document_is_left_out_with_the_words_that_it_had_alone(
    rt: HostRuntime,
) -> Result<(), Fail> {
    let cache = cached(rt.alloc())?;
    let rows: [Row; 3] = [(b"apple", 5, 5, 1), (b"juice", 5, 5, 1), (b"kiwi", 9, 9, 1)];
    assert!(rt; has_rows(rt.alloc(), &cache, 9, &[3], &rows)?);
    assert!(rt; has_rows(rt.alloc(), &cache, 9, &[3, 5, 9], &[])?);
    Ok(())
}
