//! Documents that are put into the queues of their words, and taken out of them.
ghost use Rattle.std.specs.Prelude.{◌≡◌, ◌+◌, ◌<◌, ◌≤◌, ◌++◌, List, ℕ, [], ◌∷◌, map};
ghost use Rattle.std.specs.Prelude.{OnOk, true};
ghost use Rattle.fts_ilist.specs.Queue.{postings_behind};
ghost use Rattle.fts_cache.specs.Document.{bytes_in, bytes_of};
ghost use Rattle.fts_cache.specs.Words.{number_in, queue_in, left_of, AreNumbersOf, Grows};
ghost use Rattle.fts_cache.specs.Words.{AreBehind, IsLess, IsAdded, KeepsNumbers, GivesUp};
ghost use Rattle.fts_cache.specs.Words.{FewIdle};
ghost use Rattle.std.specs.List.{concat};
ghost use Rattle.fts_cache.specs.Cache.{AreNumbers};

use crate::document::DocWords;
use crate::words::Words;
use std::alloc::AllocError;
use std::collections::VecDeque;

/// Enters the words of a document, with room for it, and notes their numbers.
fn reserve_words(
    words: &mut Words,
    numbers: &mut Vec<u32>,
    document: &DocWords,
) -> Result<(), AllocError>
    requires numbers { numbers.old.items ≡ [] }
    requires few { FewIdle words.old }
    ensures room { OnOk result ((w : List ℕ)
        → (queue_in words.new w).room
        ≡ (queue_in words.old w).room + bytes_in w document.now.words) }
    ensures numbers { OnOk result (AreNumbersOf words.new document.now.words numbers.new.items) }
    ensures few { OnOk result (FewIdle words.new) }
    ensures grows { Grows words.old words.new }
{
    for place in 0..document.len() {
        let (word, positions) = document.word_at(place);
        let number = words.enter(word)?;
        numbers.push(number)?;
        words.reserve(number, positions.len())?;
    }
    Ok(())
}

/// Makes room for a document, and notes the numbers of its words behind those that were promised.
fn reserve_document(
    words: &mut Words,
    promised: &mut VecDeque<Vec<u32>>,
    document: &DocWords,
) -> Result<(), AllocError>
    requires { FewIdle words.old }
    ensures room { OnOk result ((w : List ℕ)
        → (queue_in words.new w).room
        ≡ (queue_in words.old w).room + bytes_in w document.now.words) }
    ensures numbers { OnOk result ((numbers : List ℕ)
        × AreNumbersOf words.new document.now.words numbers
        × (map (λ n. n.items) promised.new.items
        ≡ map (λ n. n.items) promised.old.items ++ numbers ∷ [])) }
    ensures few { OnOk result (FewIdle words.new) }
    ensures grows { Grows words.old words.new }
{
    let mut numbers = Vec::with_capacity(words.allocator(), document.len())?;
    let reserved = reserve_words(words, &mut numbers, document);
    // They are noted also where there was no memory, so that the words are let go of.
    promised.push_back(numbers)?;
    reserved
}

/// Makes room for the documents, where none is promised.
pub(crate) fn reserve_documents(
    words: &mut Words,
    promised: &mut VecDeque<Vec<u32>>,
    documents: &[DocWords],
) -> Result<(), AllocError>
    requires promised { map (λ n. n.items) promised.old.items ≡ [] }
    requires few { FewIdle words.old }
    ensures room { OnOk result ((w : List ℕ)
        → (queue_in words.new w).room
        ≡ (queue_in words.old w).room + bytes_of w documents.now) }
    ensures numbers { OnOk result (AreNumbers words.new documents.now
        (map (λ n. n.items) promised.new.items)) }
    ensures few { OnOk result (FewIdle words.new) }
    ensures grows { Grows words.old words.new }
{
    for document in documents {
        reserve_document(words, promised, document)?;
    }
    Ok(())
}

/// Gives up the room of the words with these numbers, and lets go of those without a document.
fn release_words(words: &mut Words, numbers: &[u32])
    ensures less { IsLess words.old words.new }
    ensures room { (w : List ℕ) → GivesUp numbers.now words.old words.new w }
{
    for number in numbers {
        words.release(*number);
    }
}

/// Gives up the room that was promised and not used. At most half of the words then have neither
/// documents nor room.
pub(crate) fn release_promised(words: &mut Words, promised: &mut VecDeque<Vec<u32>>)
    ensures less { IsLess words.old words.new }
    ensures room { (w : List ℕ) → GivesUp (concat (map (λ n. n.items) promised.old.items)) words.old
        words.new w }
    ensures few { FewIdle words.new }
    ensures promised { map (λ n. n.items) promised.new.items ≡ [] }
{
    release_all(words, promised);
    words.sweep();
}

/// Gives up the room that was promised and not used.
fn release_all(words: &mut Words, promised: &mut VecDeque<Vec<u32>>)
    ensures less { IsLess words.old words.new }
    ensures room { (w : List ℕ) → GivesUp (concat (map (λ n. n.items) promised.old.items)) words.old
        words.new w }
    ensures promised { map (λ n. n.items) promised.new.items ≡ [] }
{
    while let Some(numbers) = promised.pop_front() {
        release_words(words, &numbers);
    }
}

/// Puts a document into the queues of its words, which have these numbers, within their room.
pub(crate) fn add_document(words: &mut Words, document: &DocWords, numbers: &[u32])
    requires above { (w : List ℕ) → (queue_in words.old w).last < document.now.id }
    requires room { (w : List ℕ) → bytes_in w document.now.words ≤ (queue_in words.old w).room }
    requires numbers { AreNumbersOf words.old document.now.words numbers.now }
    ensures added { (w : List ℕ) → IsAdded document.now words.old words.new w }
    ensures numbers { words.new.numbers ≡ words.old.numbers }
{
    let id = document.id();
    for place in 0..document.len() {
        let (word, positions) = document.word_at(place);
        words.push(numbers[place], id, positions);
    }
}

/// Takes the documents up to `doc` out of the queues of the words with these numbers.
pub(crate) fn drop_words(words: &mut Words, numbers: &[u32], doc: u64)
    ensures postings { (w : List ℕ) → (queue_in words.new w).postings
        ≡ left_of doc numbers.now (number_in words.old w) (queue_in words.old w).postings }
    ensures numbers { KeepsNumbers words.new words.old }
    ensures last { (w : List ℕ) → (queue_in words.new w).last ≤ (queue_in words.old w).last }
{
    for number in numbers {
        words.drop_until(*number as usize, doc);
    }
}

/// Takes the documents up to `doc` out of all queues. It is a walk over all words.
pub(crate) fn drop_all(words: &mut Words, doc: u64)
    ensures postings { (w : List ℕ) → (queue_in words.new w).postings
        ≡ postings_behind doc (queue_in words.old w).postings }
    ensures numbers { KeepsNumbers words.new words.old }
    ensures last { (w : List ℕ) → (queue_in words.new w).last ≤ (queue_in words.old w).last }
{
    let places = words.places();
    for number in 0..places {
        words.drop_until(number, doc);
    }
}

/// Takes the documents up to `doc` out of the queues of the words with these numbers, unless that
/// was done.
pub(crate) fn drop_left(words: &mut Words, numbers: &[u32], doc: u64, done: bool)
    requires { done ≡ true → AreBehind doc words.old }
    ensures postings { (w : List ℕ) → (queue_in words.new w).postings
        ≡ left_of doc numbers.now (number_in words.old w) (queue_in words.old w).postings }
    ensures numbers { KeepsNumbers words.new words.old }
    ensures last { (w : List ℕ) → (queue_in words.new w).last ≤ (queue_in words.old w).last }
    ensures done { done ≡ true → AreBehind doc words.new }
{
    if done {
        return;
    }
    drop_words(words, numbers, doc);
}
