//! The nodes of a batch.
ghost use Rattle.std.specs.Prelude.{◌≡◌, ◌≢◌, ◌<◌, ◌++◌, ◌∷◌, [], ℕ, List, not, IfOk, OnOk, filter};
ghost use Rattle.std.specs.List.{All};
ghost use Rattle.std.specs.List.Sorted.{IsStrictlySortedBy};
ghost use Rattle.std.specs.Map.{keys_of};
ghost use Rattle.fts_words.specs.Order.{byte_order};
ghost use Rattle.fts_ids.specs.Ids.{has};
ghost use Rattle.fts_lists.specs.State.{ids_of};
ghost use Rattle.fts_lists.specs.declared.lists.DeleteList.TheVariants.{DeletedCache};
ghost use Rattle.fts_ilist.specs.Spelling.{ArePostings, last_id};
ghost use Rattle.fts_ilist.specs.Node.{nodes_for};
ghost use Rattle.fts_ilist.specs.Packing.{packed, joined};
ghost use Rattle.fts_sync.specs.Leaving.{leaving, leaving_nodes, filled_word, filled_words};
ghost use Rattle.fts_sync.specs.Leaving.{some_dead, IsMade};

use fts_cache::Cache;
use fts_ilist::{Cursor, Document, Node, NodeGroup, Nodes, Packing, WordNodes};
use fts_lists::{DeleteList, Lists};
use fts_types::{DocId, Word};
use std::alloc::{AllocError, Global};

/// Whether a document died before it was flushed.
fn is_dead(document: &Document<'_>, lists: &Lists) -> bool
    ensures { result ≡ has (ids_of DeletedCache lists.now) document.now.id }
{
    lists.contains(DeleteList::DeletedCache, document.id())
}

/// Puts a document behind the others, unless it is dead.
fn put_alive(
    packing: &mut Packing,
    document: &Document<'_>,
    lists: &Lists,
) -> Result<(), AllocError>
    requires { last_id packing.old < document.now.id }
    ensures { OnOk result (packing.new
        ≡ packing.old ++ filter (λ p. not (has (ids_of DeletedCache lists.now) p.id))
        (document.now ∷ [])) }
{
    if is_dead(document, lists) {
        return Ok(());
    }
    packing.push(document)
}

/// The nodes of the documents up to an id that are not dead, each of which is looked up.
fn alive_until<'n>(
    alloc: Global,
    documents: Cursor<'_>,
    doc: DocId,
    lists: &Lists,
) -> Result<NodeGroup<'n>, AllocError>
    requires { ArePostings documents }
    ensures { IfOk result (λ nodes. nodes
        ≡ packed (leaving doc (ids_of DeletedCache lists.now) documents.entry)) }
{
    let mut packing = Packing::with_room(alloc, documents.bytes_left())?;
    for document in documents {
        if document.id() > doc {
            return packing.nodes();
        }
        put_alive(&mut packing, &document, lists)?;
    }
    packing.nodes()
}

/// Whether one of the documents is dead. Each is looked up.
fn has_dead(documents: Cursor<'_>, lists: &Lists) -> bool
    ensures { result ≡ some_dead (ids_of DeletedCache lists.now) documents.entry }
{
    for document in documents {
        if is_dead(&document, lists) {
            return true;
        }
    }
    false
}

/// Whether one of the nodes has a dead document.
fn have_dead(nodes: &[Node<'_>], lists: &Lists) -> bool
    ensures { result ≡ some_dead (ids_of DeletedCache lists.now) (joined nodes.now) }
{
    for node in nodes {
        if has_dead(node.cursor(), lists) {
            return true;
        }
    }
    false
}

/// Puts a word of the cache behind the others, with the nodes of its documents up to an id that are
/// not dead, where it has some. These are its nodes as they are, where nobody of them died.
fn put_word<'n>(
    nodes: &mut Nodes<'n>,
    word: WordNodes<'n>,
    cache: &Cache,
    doc: DocId,
    lists: &Lists,
) -> Result<(), AllocError>
    requires { IsMade cache.now doc word.0 word.1 }
    ensures { OnOk result (nodes.new.items ≡ nodes.old.items
        ++ filled_word word.entry.0 (leaving_nodes cache.now doc lists.now word.entry.0)) }
{
    if !have_dead(word.nodes(), lists) {
        nodes.push(word)?;
        return Ok(());
    }
    let alloc = *nodes.allocator();
    let alive = alive_until(alloc, cache.postings(word.word()), doc, lists)?;
    if alive.is_empty() {
        return Ok(());
    }
    let name = Word::copied(alloc, word.word())?;
    nodes.push(WordNodes::new(name, alive))?;
    Ok(())
}

/// The words of the cache, each with the nodes of its documents up to an id that are not dead. A
/// word without such a document is left out.
fn all_alive<'n>(
    alloc: Global,
    words: Nodes<'n>,
    cache: &Cache,
    doc: DocId,
    lists: &Lists,
) -> Result<Nodes<'n>, AllocError>
    requires { All (λ e. IsMade cache.now doc e.0 e.1) words.items }
    ensures { IfOk result (λ nodes. nodes.items
        ≡ filled_words (leaving_nodes cache.now doc lists.now) (keys_of words.entry.items)) }
{
    let mut nodes = Vec::with_capacity(alloc, words.len())?;
    for word in words {
        put_word(&mut nodes, word, cache, doc, lists)?;
    }
    Ok(nodes)
}

/// The words of a cache's documents up to `doc`, in byte order, each with the documents that are
/// not in DELETED_CACHE, packed into nodes. A word without such a document is left out.
///
/// It costs the words and the postings of the documents up to `doc`, and a sort of these words or a
/// walk over the cache's. Where somebody died since the last batch, each posting is looked up among
/// the dead, and each word of a dead document in the cache.
pub fn batch<'n>(
    alloc: Global,
    cache: &Cache,
    doc: DocId,
    lists: &Lists,
) -> Result<Nodes<'n>, AllocError>
    ensures ascending { IfOk result (λ nodes. IsStrictlySortedBy byte_order (keys_of nodes.items)) }
    ensures filled { IfOk result (λ nodes. All (λ word. word.1 ≢ []) nodes.items) }
    ensures exact { IfOk result (λ nodes. (word : List ℕ)
        → nodes_for word nodes.items ≡ leaving_nodes cache.now doc lists.now word) }
{
    let words = cache.nodes_until(doc)?;
    // Mostly nobody died since the last batch.
    if lists.is_empty(DeleteList::DeletedCache) {
        return Ok(words);
    }
    all_alive(alloc, words, cache, doc, lists)
}
