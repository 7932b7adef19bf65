ghost use Rattle.std.specs.Prelude.{◌<◌, ◌^◌, OnOk};
ghost use Rattle.fts_cache.specs.Cache.{HasRoom};

use fts_cache::{Cache, DocWords};
use fts_ilist::WordNodes;
use std::alloc::{AllocError, Global};
use std::test::Fail;

// A document with these words, each at the places given.
fn document(alloc: Global, id: u64, words: &[(&[u8], &[u32])]) -> Result<DocWords, Fail>
    requires positive { 0 < id }
    requires limit { id < 2 ^ 63 }
{
    let mut made = DocWords::new(alloc, id);
    for (word, positions) in words {
        if !made.can_push(word, positions) {
            return Err(Fail::from("a word out of order"));
        }
        made.push(word, positions)?;
    }
    Ok(made)
}

// Makes room for the documents. The cache has what it had, with or without memory.
fn make_room(cache: &mut Cache, documents: &[DocWords]) -> Result<(), Fail>
    ensures { OnOk result (HasRoom cache.new documents.now) }
{
    let held = (cache.size(), cache.len(), cache.last());
    let reserved = cache.reserve(documents);
    if (cache.size(), cache.len(), cache.last()) != held {
        return Err(Fail::from("a cache that is not as before"));
    }
    Ok(reserved?)
}

// Makes room for the documents and adds them.
fn add_all(cache: &mut Cache, documents: &[DocWords]) -> Result<(), Fail> {
    make_room(cache, documents)?;
    for document in documents {
        if cache.last() >= document.id() {
            return Err(Fail::from("an id that is not behind"));
        }
        cache.add(document);
    }
    Ok(())
}

// Whether the word's documents and their first positions are these.
fn has(cache: &Cache, word: &[u8], expected: &[(u64, u32)]) -> bool {
    let mut left = expected.iter().copied();
    for found in cache.postings(word) {
        let Some(first) = found.positions().next() else {
            return false;
        };
        if left.next() != Some((found.id(), first)) {
            return false;
        }
    }
    left.next().is_none()
}

// A cache of four documents, the last of them empty.
fn filled(alloc: Global) -> Result<Cache, Fail> {
    let mut cache = Cache::new(alloc);
    let documents = [
        document(alloc, 3, &[(b"apple", &[4, 20]), (b"pear", &[0])])?,
        document(alloc, 4, &[(b"apple", &[0]), (b"apples", &[6])])?,
        document(alloc, 900, &[(b"apply", &[7]), (b"pear", &[0, 9])])?,
        document(alloc, 901, &[])?,
    ];
    add_all(&mut cache, &documents)?;
    Ok(cache)
}

// Words with positions that can't be put behind `apple`: one that stands there, one before it, and
// faulty positions.
const REFUSED: &[(&[u8], &[u32])] = &[
    (b"apple", &[0]),
    (b"ape", &[0]),
    (b"pear", &[]),
    (b"pear", &[3, 3]),
    (b"pear", &[131_072]),
];

#[test]
fn a_word_out_of_order_is_refused(rt: HostRuntime) -> Result<(), Fail> {
    let made = document(rt.alloc(), 3, &[(b"apple", &[4])])?;
    for case in REFUSED {
        assert!(rt; !made.can_push(case.0, case.1), "{:?}", case);
    }
    assert!(rt; made.can_push(b"pear", &[131_071]));
    Ok(())
}

fn has_two_words(made: &DocWords) -> bool {
    if made.len() != 2 {
        return false;
    }
    (made.id(), made.size(), made.is_empty()) == (3, 54, false)
        && made.word_at(0) == (b"apple".as_slice(), [4, 20].as_slice())
}

#[test]
fn a_document_has_its_words(rt: HostRuntime) -> Result<(), Fail> {
    let made = document(rt.alloc(), 3, &[(b"apple", &[4, 20]), (b"pear", &[0])])?;
    assert!(rt; has_two_words(&made));
    assert!(rt; DocWords::new(rt.alloc(), 4).is_empty());
    Ok(())
}

// 16 a document, and for each occurrence the word's length and 8.
fn counts_its_words(cache: &mut Cache) -> bool {
    let all = cache.size();
    cache.drop_until(4);
    let rest = cache.size();
    cache.drop_until(950);
    all == 64 + (2 * 13 + 12) + (13 + 14) + (13 + 2 * 12)
        && rest == 32 + (13 + 2 * 12)
        && (cache.size(), cache.len(), cache.last()) == (0, 0, 950)
        && cache.is_empty()
}

#[test]
fn a_document_counts_16_and_its_words(rt: HostRuntime) -> Result<(), Fail> {
    let mut cache = filled(rt.alloc())?;
    assert!(rt; counts_its_words(&mut cache));
    Ok(())
}

#[test]
fn a_word_has_its_documents_until_they_are_dropped(rt: HostRuntime) -> Result<(), Fail> {
    let mut cache = filled(rt.alloc())?;
    assert!(rt; has(&cache, b"apple", &[(3, 4), (4, 0)]));
    assert!(rt; has(&cache, b"plum", &[]));
    cache.drop_until(4);
    assert!(rt; has(&cache, b"apple", &[]));
    assert!(rt; has(&cache, b"pear", &[(900, 0)]));
    Ok(())
}

// Whether the words that begin with the prefix are these.
fn begin_with(cache: &Cache, prefix: &[u8], expected: &[&[u8]]) -> Result<bool, AllocError> {
    Ok(cache.prefix(prefix)?.as_slice() == expected)
}

#[test]
fn a_prefix_finds_the_words_that_are_held(rt: HostRuntime) -> Result<(), Fail> {
    let mut cache = filled(rt.alloc())?;
    assert!(rt; begin_with(&cache, b"appl", &[b"apple", b"apples", b"apply"])?);
    cache.drop_until(4);
    assert!(rt; begin_with(&cache, b"", &[b"apply", b"pear"])?);
    Ok(())
}

// Whether a word is this one, with one node of so many documents.
fn is_node(found: &WordNodes, word: &[u8], count: usize) -> bool {
    match found.nodes() {
        [node] => found.word() == word && node.count() == count,
        _ => false,
    }
}

// Whether the words of the documents up to this one are these, each with so many of them.
fn leave(cache: &Cache, doc: u64, expected: &[(&[u8], usize)]) -> Result<bool, AllocError> {
    let found = cache.nodes_until(doc)?;
    if found.len() != expected.len() {
        return Ok(false);
    }
    for (word, other) in found.iter().zip(expected.iter()) {
        if !is_node(word, other.0, other.1) {
            return Ok(false);
        }
    }
    Ok(true)
}

#[test]
fn the_words_of_the_first_documents_are_told(rt: HostRuntime) -> Result<(), Fail> {
    let mut cache = filled(rt.alloc())?;
    assert!(rt; leave(&cache, 2, &[])?);
    assert!(rt; leave(&cache, 3, &[(b"apple", 1), (b"pear", 1)])?);
    assert!(rt; leave(&cache, 4, &[(b"apple", 2), (b"apples", 1), (b"pear", 1)])?);
    cache.drop_until(4);
    assert!(rt; leave(&cache, 899, &[])?);
    assert!(rt; leave(&cache, 900, &[(b"apply", 1), (b"pear", 1)])?);
    Ok(())
}

// A document of every third letter or so, which are noted beside its id.
fn letters(alloc: Global, id: u64, noted: &mut Vec<(u64, u8)>) -> Result<DocWords, Fail>
    requires positive { 0 < id }
    requires limit { id < 2 ^ 63 }
{
    let mut made = DocWords::new(alloc, id);
    for letter in b'a'..=b'y' {
        if (id % 7 * u64::from(letter)) % 7 < 3 {
            if !made.can_push(&[letter], &[5, 6]) {
                return Err(Fail::from("a letter out of order"));
            }
            made.push(&[letter], &[5, 6])?;
            noted.push((id, letter))?;
        }
    }
    Ok(made)
}

// Whether the letter's documents are the noted ones above an id.
fn has_noted(cache: &Cache, letter: u8, noted: &[(u64, u8)], above: u64) -> bool {
    let mut found = cache.postings(&[letter]);
    for (id, other) in noted {
        if *other == letter && *id > above {
            match found.next() {
                Some(document) if document.id() == *id => {}
                _ => return false,
            }
        }
    }
    found.next().is_none()
}

// Adds documents of the words `a` to `y`, which are noted, and drops them in batches. The last one
// that was dropped.
fn add_letters(alloc: Global, cache: &mut Cache, noted: &mut Vec<(u64, u8)>) -> Result<u64, Fail> {
    let mut dropped = 0;
    for id in 1..61_u64 {
        let made = letters(alloc, id, noted)?;
        add_all(cache, &[made])?;
        if id % 16 == 0 {
            dropped = id - 8;
            cache.drop_until(dropped);
        }
    }
    Ok(dropped)
}

// Documents of letters, beside a plain list of ids and letters.
#[test]
fn the_cache_is_as_a_plain_list(rt: HostRuntime) -> Result<(), Fail> {
    let mut cache = Cache::new(rt.alloc());
    let mut noted = Vec::new(rt.alloc());
    let dropped = add_letters(rt.alloc(), &mut cache, &mut noted)?;
    for letter in b'a'..=b'y' {
        assert!(rt; has_noted(&cache, letter, &noted, dropped));
    }
    Ok(())
}

// A document of a word of its own, and one that all of them have.
fn row(alloc: Global, id: u64) -> Result<DocWords, Fail>
    requires positive { 0 < id }
    requires limit { id < 2 ^ 63 }
{
    document(alloc, id, &[(&id.to_be_bytes(), &[7]), (b"pear", &[0])])
}

// Adds 400 documents, each of which leaves nine documents later. The most words that were held.
fn most_words(alloc: Global, cache: &mut Cache) -> Result<usize, Fail> {
    let mut most = 0;
    for id in 1..401_u64 {
        let made = row(alloc, id)?;
        add_all(cache, &[made])?;
        cache.drop_until(id.saturating_sub(9));
        most = most.max(cache.words_len());
    }
    Ok(most)
}

#[test]
fn the_cache_holds_at_most_twice_its_words(rt: HostRuntime) -> Result<(), Fail> {
    let mut cache = Cache::new(rt.alloc());
    assert!(rt; most_words(rt.alloc(), &mut cache)? <= 22);
    cache.drop_until(400);
    make_room(&mut cache, &[])?;
    assert!(rt; cache.words_len() == 0);
    Ok(())
}

#[test]
fn words_of_a_refused_plan_are_let_go_of(rt: HostRuntime) -> Result<(), Fail> {
    let alloc = rt.alloc();
    let mut cache = filled(alloc)?;
    make_room(&mut cache, &[row(alloc, 902)?, row(alloc, 903)?])?;
    assert!(rt; cache.words_len() == 6);
    make_room(&mut cache, &[])?;
    assert!(rt; cache.words_len() == 4);
    Ok(())
}
