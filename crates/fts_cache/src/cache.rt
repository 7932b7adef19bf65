//! The cache and its calls.
ghost use Rattle.std.specs.Prelude.{◌≡◌, ◌≢◌, ℕ, ◌+◌, ◌^◌, ◌<◌, ◌≤◌, ◌↔◌, ◌++◌, List, [], ◌∷◌};
ghost use Rattle.std.specs.Prelude.{length, max, map, sum_by, nat_eq, IfOk, IfSome, IfNone};
ghost use Rattle.std.specs.Prelude.{OnOk, IsTrue, Some, true};
ghost use Rattle.fts_ilist.specs.Spelling.{ArePostings};
ghost use Rattle.fts_ilist.specs.Queue.{postings_behind};
ghost use Rattle.fts_cache.specs.Document.{Document, document_size, document_postings};
ghost use Rattle.fts_cache.specs.Document.{bytes_of};
ghost use Rattle.fts_cache.specs.Cache.{CacheState, postings_of, cache_size};
ghost use Rattle.fts_cache.specs.Cache.{cached, cached_behind, SameContents, HasRoom, BeginsAbove};
ghost use Rattle.fts_cache.specs.Cache.{IdsAscend, room_of, room_left, HoldsFewOthers};
ghost use Rattle.fts_cache.specs.Words.{queue_in, AreBehind};
ghost use Rattle.fts_ilist.specs.Cursor.{postings_until};
ghost use Rattle.fts_cache.specs.Kept.{kept, NoteWords, NotesUntil};
ghost use Rattle.fts_cache.specs.Sorted.{IsAmong, AscendByBytes};
ghost use Rattle.std.specs.Map.{keys_of};
ghost use Rattle.fts_ilist.specs.Packing.{packed};
ghost use Rattle.std.specs.List.{IsDistinct, All, list_any};
ghost use Rattle.std.specs.List.Sorted.{IsStrictlySortedBy};
ghost use Rattle.std.specs.Str.{bytes_eq};
ghost use Rattle.fts_words.specs.Order.{begins_with, byte_order};

use crate::adding::{add_document, drop_all, drop_left, release_promised, reserve_documents};
use crate::document::DocWords;
use crate::words::Words;
use fts_ilist::{Cursor, Nodes};
use std::alloc::{AllocError, Global};
use std::collections::VecDeque;
use std::marker::Model;

/// A document in the cache.
#[derive(Debug, Drop)]
pub(crate) struct Cached {
    id: u64,
    size: u32,
    // Those of its words.
    numbers: Vec<u32>,
}

/// The words of documents that are not yet flushed, each word with its documents and their
/// positions.
#[derive(Drop)]
pub struct Cache {
    words: Words,
    // By ascending ids.
    documents: VecDeque<Cached>,
    // The numbers of the words of the documents that room was made for.
    promised: VecDeque<Vec<u32>>,
    // No document up to this id can come in.
    last: u64,
    // The sum of the documents' sizes.
    size: u64,
}

impl Model for Cache {
    ghost use Rattle.std.specs.Prelude.{◌-◌, map};
    ghost use Rattle.std.specs.VecDeque.{deque_len, deque_capacity};
    ghost use Rattle.fts_cache.specs.Cache.{CacheState};
    ghost use Rattle.fts_cache.specs.Kept.{kept, IsCache};

    ghost Value = { CacheState };

    ghost view = { λ c. record {
      documents = kept c.documents.items;
      last = c.last;
      spare = deque_capacity c.documents - deque_len c.documents;
      words = c.words;
      promised = map (λ n. n.items) c.promised.items;
    } };

    ghost invariant = { λ c. IsCache c.words c.documents.items c.last c.size };
}

/// The sum of a size and those of the documents, where it fits.
fn total_size(size: u64, documents: &[DocWords]) -> Option<u64>
    ensures { IfSome result (λ total. total ≡ size + sum_by document_size documents.now) }
{
    let mut total = size;
    for document in documents {
        total = total.checked_add(u64::from(document.size()))?;
    }
    Some(total)
}

/// Takes the first document out, where there is one and it is not above `doc`.
fn pop_until(documents: &mut VecDeque<Cached>, doc: u64) -> Option<Cached>
    ensures some { IfSome result (λ d. (documents.old.items ≡ d ∷ documents.new.items)
        × (d.id ≤ doc)) }
    ensures none { IfNone result ((documents.new.items ≡ documents.old.items)
        × BeginsAbove doc (kept documents.old.items)) }
{
    match documents.front() {
        Some(first) if first.id <= doc => documents.pop_front(),
        _ => None,
    }
}

/// How many numbers the documents up to `doc` note.
fn noted_len(documents: &VecDeque<Cached>, doc: u64) -> usize {
    let mut count = 0usize;
    for place in 0..documents.len() {
        let document = &documents[place];
        if document.id > doc {
            return count;
        }
        count = count.saturating_add(document.numbers.len());
    }
    count
}

/// Takes the documents up to `doc` out of all queues, where these are few beside the numbers that
/// the documents note, and tells whether it did.
fn drop_if_many(words: &mut Words, documents: &VecDeque<Cached>, doc: u64) -> bool
    requires noted { NoteWords words.old documents.now.items }
    ensures postings { (w : List ℕ) → postings_behind doc (queue_in words.new w).postings
        ≡ postings_behind doc (queue_in words.old w).postings }
    ensures last { (w : List ℕ) → (queue_in words.new w).last ≤ (queue_in words.old w).last }
    ensures noted { NoteWords words.new documents.now.items }
    ensures done { result ≡ true → AreBehind doc words.new }
{
    if words.places() > noted_len(documents, doc) {
        return false;
    }
    drop_all(words, doc);
    true
}

/// Takes the documents up to `doc` out, and out of the queues of their words. Returns the sum of
/// their sizes.
///
/// One walk takes them out of all queues, where they are many; else the first of them that has a
/// word takes all of them out of its queue. So a queue is moved once.
fn drop_documents(words: &mut Words, documents: &mut VecDeque<Cached>, doc: u64) -> u64
    requires ascend { IdsAscend (kept documents.old.items) }
    requires fits { sum_by (λ d. d.size) (kept documents.old.items) < 2 ^ 64 }
    requires noted { NoteWords words.old documents.old.items }
    ensures documents { kept documents.new.items ≡ cached_behind doc (kept documents.old.items) }
    ensures size { result + sum_by (λ d. d.size) (kept documents.new.items)
        ≡ sum_by (λ d. d.size) (kept documents.old.items) }
    ensures postings { (w : List ℕ) → (queue_in words.new w).postings
        ≡ postings_behind doc (queue_in words.old w).postings }
    ensures last { (w : List ℕ) → (queue_in words.new w).last ≤ (queue_in words.old w).last }
    ensures noted { NoteWords words.new documents.new.items }
{
    let done = drop_if_many(words, documents, doc);
    let mut size = 0;
    while let Some(first) = pop_until(documents, doc) {
        size += u64::from(first.size);
        drop_left(words, &first.numbers, doc, done);
    }
    size
}

/// Notes the numbers of a document's words behind the others.
fn note(numbers: &mut Vec<u32>, document: &Cached) -> Result<(), AllocError>
    ensures { OnOk result (numbers.new.items
        ≡ numbers.old.items ++ document.now.numbers.items) }
{
    numbers.extend_from_slice(&document.numbers)
}

/// The numbers of the words of the documents up to `doc`.
fn noted_until(
    alloc: Global,
    documents: &VecDeque<Cached>,
    doc: u64,
) -> Result<Vec<u32>, AllocError>
    requires { IdsAscend (kept documents.now.items) }
    ensures { IfOk result (λ numbers. NotesUntil doc documents.now.items numbers.items) }
{
    let mut numbers = Vec::new(alloc);
    for place in 0..documents.len() {
        let document = &documents[place];
        if document.id > doc {
            return Ok(numbers);
        }
        note(&mut numbers, document)?;
    }
    Ok(numbers)
}

/// The numbers of the words of the documents up to `doc`, each once.
fn leaving_numbers(
    alloc: Global,
    documents: &VecDeque<Cached>,
    doc: u64,
) -> Result<Vec<u32>, AllocError>
    requires { IdsAscend (kept documents.now.items) }
    ensures noted { IfOk result (λ numbers. NotesUntil doc documents.now.items numbers.items) }
    ensures distinct { IfOk result (λ numbers. IsDistinct nat_eq numbers.items) }
{
    let mut numbers = noted_until(alloc, documents, doc)?;
    numbers.sort_unstable();
    numbers.dedup();
    Ok(numbers)
}

/// Takes the numbers out that were promised first.
fn take_promise(promised: &mut VecDeque<Vec<u32>>) -> Vec<u32>
    requires { map (λ n. n.items) promised.old.items ≢ [] }
    ensures { map (λ n. n.items) promised.old.items
        ≡ result.items ∷ map (λ n. n.items) promised.new.items }
{
    promised.pop_front().unwrap()
}

impl Cache {
    /// A cache without documents. What it holds later lies in this allocator.
    pub fn new(alloc: Global) -> Self
        ensures documents { result.documents ≡ [] }
        ensures postings { (w : List ℕ) → postings_of result w ≡ [] }
        ensures last { result.last ≡ 0 }
    {
        Cache {
            words: Words::new(alloc),
            documents: VecDeque::new(alloc),
            promised: VecDeque::new(alloc),
            last: 0,
            size: 0,
        }
    }

    /// Makes room for the documents, so that `add` can take them, one after another, without
    /// memory. Room that an earlier call made and that nobody used is given up. Where there is no
    /// memory, the contents stay as they were.
    ///
    /// It looks each word up once, and notes its number for `add`. A word that the cache hasn't yet
    /// is entered without a document, and counts as absent. Words whose last document left are kept
    /// for those that have them again, and let go of where they may be more than half of all.
    pub fn reserve(&mut self, documents: &[DocWords]) -> Result<(), AllocError>
        ensures room { OnOk result (HasRoom self.new documents.now) }
        ensures held { OnOk result ((w : List ℕ)
            → room_of self.new w ≡ room_left self.old w + bytes_of w documents.now) }
        ensures few { OnOk result (HoldsFewOthers self.new) }
        ensures contents { SameContents self.old self.new }
    {
        // A size past 64 bits is one that no memory holds.
        let Some(_) = total_size(self.size, documents) else {
            return Err(AllocError);
        };
        self.documents.reserve(documents.len())?;
        release_promised(&mut self.words, &mut self.promised);
        self.promised.reserve(documents.len())?;
        reserve_documents(&mut self.words, &mut self.promised, documents)
    }

    /// Adds a document behind the last, within the room that `reserve` made. It takes no memory,
    /// and for each word and occurrence constant time, without a look-up.
    pub fn add(&mut self, document: &DocWords)
        requires above { self.old.last < document.now.id }
        requires room { HasRoom self.old (document.now ∷ []) }
        ensures documents { self.new.documents ≡ self.old.documents ++ cached document.now ∷ [] }
        ensures postings { (w : List ℕ)
            → postings_of self.new w ≡ postings_of self.old w ++ document_postings w document.now }
        ensures last { self.new.last ≡ document.now.id }
        ensures room { (more : List Document) → HasRoom self.old (document.now ∷ more)
            → HasRoom self.new more }
    {
        let (id, size) = (document.id(), document.size());
        let numbers = take_promise(&mut self.promised);
        add_document(&mut self.words, document, &numbers);
        self.documents
            .push_back(Cached { id, size, numbers })
            .unwrap();
        self.last = id;
        self.size += u64::from(size);
    }

    /// The documents that have the word, by ascending ids, with their positions. They are read in
    /// place. The word is found in constant time.
    pub fn postings(&self, word: &[u8]) -> Cursor<'_>
        ensures documents { result ≡ postings_of self.now word.now }
        ensures are { ArePostings result }
    {
        self.words.docs(word)
    }

    /// The words that begin so and that a document has, in the order of their bytes, each once.
    /// They lie in the cache's allocator.
    ///
    /// It takes logarithmic time, and a look-up for each word that begins so; some that left may
    /// still be among those, at most as many as there are places for words.
    pub fn prefix(&self, prefix: &[u8]) -> Result<Vec<&[u8]>, AllocError>
        ensures words { IfOk result
            (λ words. (w : List ℕ) → IsAmong w words.items
            ↔ (IsTrue (begins_with prefix.now w) × (postings_of self.now w ≢ []))) }
        ensures ascending { IfOk result (λ words. AscendByBytes words.items) }
    {
        self.words.prefix(prefix)
    }

    /// The words of the documents up to `doc`, in the order of their bytes, each once, with the
    /// nodes of its documents up to `doc`. They lie in the cache's allocator.
    ///
    /// It costs those documents' words and their postings, and a sort of the words, or a walk over
    /// the cache's words, where these are few beside them; no word is looked up.
    pub fn nodes_until<'n>(&self, doc: u64) -> Result<Nodes<'n>, AllocError>
        ensures words { IfOk result (λ nodes. (w : List ℕ)
            → IsTrue (list_any (bytes_eq w) (keys_of nodes.items))
            ↔ (postings_until doc (postings_of self.now w) ≢ [])) }
        ensures ascending { IfOk result
            (λ nodes. IsStrictlySortedBy byte_order (keys_of nodes.items)) }
        ensures nodes { IfOk result (λ nodes. All (λ e.
            e.1 ≡ packed (postings_until doc (postings_of self.now e.0))) nodes.items) }
    {
        if self.words.listed_len() / 2 <= noted_len(&self.documents, doc) {
            return self.words.leaving_in_order(doc);
        }
        let numbers = leaving_numbers(self.words.allocator(), &self.documents, doc)?;
        self.words.leaving(&numbers, doc)
    }

    /// Takes the documents up to `doc` out, with their words. Each document and each of its words
    /// takes constant time; a word that no document has any more takes logarithmic time, here or
    /// where it is let go of later.
    pub fn drop_until(&mut self, doc: u64)
        ensures documents { self.new.documents ≡ cached_behind doc self.old.documents }
        ensures postings { (w : List ℕ)
            → postings_of self.new w ≡ postings_behind doc (postings_of self.old w) }
        ensures last { self.new.last ≡ max self.old.last doc }
    {
        let size = drop_documents(&mut self.words, &mut self.documents, doc);
        self.size -= size;
        self.last = self.last.max(doc);
    }

    /// The cache's size, in the bytes that the setting counts: for each document 16, and for each
    /// occurrence of an indexed word in it the word's length and 8. It takes constant time.
    pub fn size(&self) -> u64
        ensures { result ≡ cache_size self.now }
    {
        self.size
    }

    /// The largest id that came in or that was dropped up to, or 0. A new document is above it.
    pub fn last(&self) -> u64
        ensures { result ≡ self.now.last }
    {
        self.last
    }

    /// How many words it holds: those of its documents, those that room was made for, and words
    /// whose documents left, which `reserve` leaves at most as many as the others.
    pub fn words_len(&self) -> usize
        ensures { result ≡ length self.now.words.numbers }
    {
        self.words.len()
    }

    /// How many documents it has.
    pub fn len(&self) -> usize
        ensures { result ≡ length self.now.documents }
    {
        self.documents.len()
    }

    /// Whether it has none.
    pub fn is_empty(&self) -> bool
        ensures { IsTrue result ↔ (self.now.documents ≡ []) }
    {
        self.documents.is_empty()
    }
}
