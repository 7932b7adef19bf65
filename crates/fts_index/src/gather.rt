//! What an index tells of the leaves of a query.
ghost use Rattle.std.specs.Prelude.{◌≡◌, ◌∷◌, ◌++◌, ◌+◌, ◌↔◌, ◌&&◌, ◌||◌, ℕ, not, IfOk, OnOk};
ghost use Rattle.std.specs.Prelude.{IsTrue, []};
ghost use Rattle.std.specs.Prelude.{map};
ghost use Rattle.std.specs.List.{list_any};
ghost use Rattle.fts_ids.specs.Ids.{has, Ascend, AscendFrom};
ghost use Rattle.fts_ilist.specs.Node.{NodesAfter};
ghost use Rattle.fts_ilist.specs.Packing.{joined};
ghost use Rattle.fts_lists.specs.State.{ids_of};
ghost use Rattle.fts_lists.specs.declared.lists.DeleteList.TheVariants.{Deleted, DeletedCache};
ghost use Rattle.fts_query.specs.Seen.{leaf_seen, leaves_seen};
ghost use Rattle.fts_index.specs.Gathered.{doc_ids, doc_has_words, AreAskedFor, AreTold, HasPrefix};
ghost use Rattle.fts_index.specs.Gathered.{is_needed, table_has, cache_has, doc_has};

use crate::index::Index;
use crate::walk::words_with;
use fts_ids::{IdList, both, union, united};
use fts_ilist::{Cursor, NodeSlice};
use fts_lists::{DeleteList, Lists};
use fts_query::Leaf;
use fts_types::{DocId, Word};
use std::alloc::{AllocError, Global};

/// What an index tells of leaves.
#[derive(Debug, Drop)]
pub struct Gathered {
    /// For each leaf the ids of the rows that it asks for, in the leaves' order.
    pub lists: Vec<IdList>,
    /// The rows that have the words of some phrase or distance.
    pub looked_into: IdList,
}

/// Puts the ids of documents behind others. Their positions are passed over.
fn push_ids(ids: &mut Vec<DocId>, mut documents: Cursor<'_>) -> Result<(), AllocError>
    ensures { OnOk result (ids.new.items ≡ ids.old.items ++ doc_ids documents.entry) }
{
    while let Some(id) = documents.doc() {
        ids.push(id)?;
        documents.advance();
    }
    Ok(())
}

/// How many documents nodes have.
fn count_of(nodes: NodeSlice<'_>) -> usize {
    let mut count: usize = 0;
    for node in nodes {
        count = count.saturating_add(node.count());
    }
    count
}

/// The ids of the documents of nodes, in a vector that was made for so many.
fn node_ids(alloc: Global, nodes: NodeSlice<'_>, room: usize) -> Result<Vec<DocId>, AllocError>
    requires { NodesAfter 0 nodes }
    ensures ascend { IfOk result (λ ids. Ascend ids.items) }
    ensures ids { IfOk result (λ ids. ids.items ≡ doc_ids (joined nodes.entry)) }
{
    let mut ids = Vec::with_capacity(alloc, room)?;
    for node in nodes {
        ids.reserve(node.count())?;
        node.cursor().put_ids(&mut ids);
    }
    Ok(ids)
}

/// The ids that are not in DELETED. It costs nothing where that is empty.
fn without_deleted(lists: &Lists, mut ids: Vec<DocId>) -> Vec<DocId>
    requires { Ascend ids.items }
    ensures ascend { Ascend result.items }
    ensures each { (id : ℕ) → has result.items id
        ≡ (has ids.items id && not (has (ids_of Deleted lists.now) id)) }
{
    if lists.is_empty(DeleteList::Deleted) {
        return ids;
    }
    lists.without_deleted(&mut ids);
    ids
}

/// The ids that are not in DELETED_CACHE. It costs nothing where that is empty.
fn without_dead(lists: &Lists, mut ids: Vec<DocId>) -> IdList
    requires { Ascend ids.items }
    ensures ascend { Ascend result }
    ensures each { (id : ℕ) → has result id
        ≡ (has ids.items id && not (has (ids_of DeletedCache lists.now) id)) }
{
    if lists.is_empty(DeleteList::DeletedCache) {
        return IdList::new(ids);
    }
    lists.without_dead(&mut ids);
    IdList::new(ids)
}

/// The ids of the documents that have the word in the tables and are not deleted, with room for so
/// many more.
fn table_ids(index: &Index, word: &[u8], more: usize) -> Result<IdList, AllocError>
    ensures ascend { IfOk result Ascend }
    ensures each { IfOk result (λ ids. (id : ℕ) → has ids id ≡ table_has index.now id word.now) }
{
    let room = count_of(index.tables.nodes_of(word)).saturating_add(more);
    let ids = node_ids(index.alloc, index.tables.nodes_of(word), room)?;
    Ok(without_dead(&index.lists, without_deleted(&index.lists, ids)))
}

/// The ids of the documents that have the word in the cache and did not die.
fn cache_ids(index: &Index, word: &[u8]) -> Result<IdList, AllocError>
    ensures ascend { IfOk result Ascend }
    ensures each { IfOk result (λ ids. (id : ℕ) → has ids id ≡ cache_has index.now id word.now) }
{
    let mut ids = Vec::new(index.alloc);
    push_ids(&mut ids, index.cache.postings(word))?;
    Ok(without_dead(&index.lists, ids))
}

/// Whether all ids stand before others.
fn stands_before(front: &[DocId], rest: &[DocId]) -> bool
    requires front { Ascend front.now }
    requires rest { Ascend rest.now }
    ensures { IsTrue result → (id : ℕ) → IsTrue (has front.now id) → AscendFrom (id + 1) rest.now }
{
    if front.is_empty() {
        return true;
    }
    let last = front[front.len() - 1];
    match rest {
        [] => true,
        [first, ..] => last < *first,
    }
}

/// Whether a list has no id.
fn has_none(ids: &IdList) -> bool
    ensures { IsTrue result ↔ (ids.now ≡ []) }
{
    ids.as_slice().is_empty()
}

/// The ids that one of two lists has. It costs nothing where the first is empty, and a copy of the
/// second where all of the first stand before its ids.
fn joined_ids(alloc: Global, front: IdList, rest: IdList) -> Result<IdList, AllocError>
    ensures ascend { IfOk result Ascend }
    ensures each { IfOk result (λ ids. (id : ℕ) → has ids id ≡ (has front id || has rest id)) }
{
    if has_none(&front) {
        return Ok(IdList::new(rest.into_vec()));
    }
    if stands_before(front.as_slice(), rest.as_slice()) {
        let mut ids = front.into_vec();
        ids.extend_from_slice(rest.as_slice())?;
        return Ok(IdList::new(ids));
    }
    Ok(IdList::new(union(alloc, front.as_slice(), rest.as_slice())?))
}

/// The ids of the documents that have the word. It costs them.
fn word_ids(index: &Index, word: &[u8]) -> Result<IdList, AllocError>
    ensures ascend { IfOk result Ascend }
    ensures each { IfOk result (λ ids. (id : ℕ) → has ids id ≡ doc_has index.now id word.now) }
{
    let cached = cache_ids(index, word)?;
    let flushed = table_ids(index, word, cached.as_slice().len())?;
    joined_ids(index.alloc, flushed, cached)
}

/// For each word of the tables that begins so the ids of its documents.
fn table_lists(index: &Index, prefix: &[u8]) -> Result<Vec<IdList>, AllocError>
    ensures { IfOk result (λ lists. (id : ℕ)
        → IsTrue (list_any (λ list. has list id) lists.items)
        ↔ HasPrefix (table_has index.now) id prefix.now) }
{
    let empty = Word::copied(index.alloc, b"")?;
    let mut lists = Vec::new(index.alloc);
    for entry in &words_with(index.alloc, &index.tables, prefix, &empty)? {
        lists.push(table_ids(index, entry.0.as_bytes(), 0)?)?;
    }
    Ok(lists)
}

/// For each word of the cache that begins so the ids of its documents.
fn cache_lists(index: &Index, prefix: &[u8]) -> Result<Vec<IdList>, AllocError>
    ensures { IfOk result (λ lists. (id : ℕ)
        → IsTrue (list_any (λ list. has list id) lists.items)
        ↔ HasPrefix (cache_has index.now) id prefix.now) }
{
    let mut lists = Vec::new(index.alloc);
    for word in &index.cache.prefix(prefix)? {
        lists.push(cache_ids(index, word)?)?;
    }
    Ok(lists)
}

/// The ids that some of the lists has.
fn any_of(alloc: Global, lists: &[IdList]) -> Result<IdList, AllocError>
    ensures ascend { IfOk result Ascend }
    ensures each { IfOk result (λ ids. (id : ℕ)
        → has ids id ≡ list_any (λ list. has list id) lists.now) }
{
    let mut all = Vec::new(alloc);
    for list in lists {
        all.push(list)?;
    }
    united(alloc, &all)
}

/// The ids of the documents that have a word that begins so.
fn prefix_ids(index: &Index, prefix: &[u8]) -> Result<IdList, AllocError>
    ensures ascend { IfOk result Ascend }
    ensures each { IfOk result (λ ids. (id : ℕ)
        → IsTrue (has ids id) ↔ HasPrefix (doc_has index.now) id prefix.now) }
{
    let flushed = any_of(index.alloc, &table_lists(index, prefix)?)?;
    let cached = any_of(index.alloc, &cache_lists(index, prefix)?)?;
    joined_ids(index.alloc, flushed, cached)
}

/// The ids of the documents that have the first word and each of the others.
fn each_of(index: &Index, first: &[u8], others: &[Vec<u8>]) -> Result<IdList, AllocError>
    ensures ascend { IfOk result Ascend }
    ensures each { IfOk result (λ ids. (id : ℕ)
        → has ids id
        ≡ doc_has_words (doc_has index.now) id (first.now ∷ map (λ w. w.items) others.now)) }
{
    let mut ids = word_ids(index, first)?;
    for word in others {
        ids = both(index.alloc, &ids, &word_ids(index, word)?)?;
    }
    Ok(ids)
}

/// The ids of the documents that have each of the words; none where there is no word.
fn words_ids(index: &Index, words: &[Vec<u8>]) -> Result<IdList, AllocError>
    ensures ascend { IfOk result Ascend }
    ensures each { IfOk result (λ ids. (id : ℕ)
        → has ids id ≡ doc_has_words (doc_has index.now) id (map (λ w. w.items) words.now)) }
{
    match words {
        [] => Ok(IdList::new(Vec::new(index.alloc))),
        [first, others @ ..] => each_of(index, first, others),
    }
}

/// The ids of the documents for which a leaf asks.
fn leaf_ids(index: &Index, leaf: &Leaf) -> Result<IdList, AllocError>
    ensures { IfOk result (λ ids. AreAskedFor (doc_has index.now) (leaf_seen leaf.now) ids) }
{
    match leaf {
        Leaf::Nothing => Ok(IdList::new(Vec::new(index.alloc))),
        Leaf::Word(word) => word_ids(index, word),
        Leaf::Prefix(prefix) => prefix_ids(index, prefix),
        Leaf::Words(words) => words_ids(index, words.as_slice()),
    }
}

/// For each leaf the ids of the documents for which it asks.
pub(crate) fn told(index: &Index, leaves: &[Leaf]) -> Result<Vec<IdList>, AllocError>
    ensures { IfOk result (λ lists.
        AreTold (doc_has index.now) (leaves_seen leaves.now) lists.items) }
{
    let mut lists = Vec::new(index.alloc);
    for leaf in leaves {
        lists.push(leaf_ids(index, leaf)?)?;
    }
    Ok(lists)
}

/// The ids of the documents for which a leaf asks that needs texts, by the ids of each leaf.
pub(crate) fn needed(alloc: Global, leaves: &[Leaf], lists: &[IdList]) -> Result<IdList, AllocError>
    ensures ascend { IfOk result Ascend }
    ensures each { IfOk result (λ ids. (id : ℕ)
        → has ids id ≡ is_needed (leaves_seen leaves.now) lists.now id) }
{
    let mut found = Vec::new(alloc);
    for (leaf, ids) in leaves.iter().zip(lists.iter()) {
        match leaf {
            Leaf::Words(_) => found.push(ids)?,
            _ => {}
        }
    }
    united(alloc, &found)
}
