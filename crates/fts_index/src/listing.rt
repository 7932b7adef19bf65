//! What views of an index list.
ghost use Rattle.std.specs.Prelude.{◌≡◌, ◌≢◌, ◌||◌, [], ℕ, List, IfOk};
ghost use Rattle.std.specs.List.{AllByRecursion};
ghost use Rattle.fts_types.specs.Rules.{rules_of};
ghost use Rattle.fts_commits.specs.Turn.{Turn};
ghost use Rattle.fts_ilist.specs.Spelling.{ArePostings};
ghost use Rattle.fts_cache.specs.Cache.{postings_of};
ghost use Rattle.fts_aux.specs.Words.{IsListing};
ghost use Rattle.fts_aux.specs.Tables.{nodes};
ghost use Rattle.fts_entries.specs.Entry.{IndexState};
ghost use Rattle.fts_listing.specs.Listing.{one_group, IsListed};
ghost use Rattle.fts_ids.specs.Ids.{has, Ascend};
ghost use Rattle.fts_lists.specs.State.{ids_of};
ghost use Rattle.fts_lists.specs.declared.lists.DeleteList.TheVariants.{Deleted, DeletedCache};
ghost use Rattle.fts_index.specs.Index.{Represents};

use crate::index::Index;
use crate::sync::ascending;
use crate::walk::all_words;
use fts_aux::Tables;
use fts_cache::Cache;
use fts_ids::union;
use fts_ilist::{Cursor, Ilist, Node, NodeGroup, NodeSlice, Nodes, WordNodes};
use fts_listing::{Config, ListedWords, Listing, ListingKind};
use fts_lists::{DeleteList, Lists};
use fts_types::{DocIds, Settings, Word};
use std::alloc::{AllocError, Global};

/// The list of these documents.
fn list_of(alloc: Global, documents: Cursor<'_>) -> Result<Ilist, AllocError>
    requires { ArePostings documents }
    ensures { IfOk result (λ list. list ≡ documents.entry) }
{
    let mut list = Ilist::new(alloc);
    for document in documents {
        list.push_document(&document)?;
    }
    Ok(list)
}

/// A copy of nodes that are lent.
fn copied_nodes(alloc: Global, nodes: NodeSlice<'_>) -> Result<NodeGroup<'static>, AllocError>
    requires { AllByRecursion (λ docs. docs ≢ []) nodes }
    ensures { IfOk result (λ copied. copied ≡ nodes.entry) }
{
    let mut copied = NodeGroup::new(alloc);
    for node in nodes {
        copied.push(alloc, Node::new(list_of(alloc, node.cursor())?))?;
    }
    Ok(copied)
}

/// A word of the tables with its nodes.
fn table_word(alloc: Global, tables: &Tables, word: &Word) -> Result<WordNodes<'static>, AllocError>
    ensures { IfOk result (λ one. one ≡ (word.now, nodes tables.now word.now)) }
{
    let nodes = copied_nodes(alloc, tables.nodes_of(word.as_bytes()))?;
    Ok(WordNodes::new(Word::copied(alloc, word.as_bytes())?, nodes))
}

/// All words of the tables, with their nodes.
fn table_words(alloc: Global, tables: &Tables) -> Result<Nodes<'static>, AllocError>
    ensures { IfOk result (λ words. IsListing (nodes tables.now) [] words.items) }
{
    let empty = Word::copied(alloc, b"")?;
    let mut words = Vec::new(alloc);
    for entry in &all_words(alloc, tables, &empty)? {
        words.push(table_word(alloc, tables, entry.0)?)?;
    }
    Ok(words)
}

/// A word of the cache, with its documents as one group.
fn cached_word(alloc: Global, cache: &Cache, word: &[u8]) -> Result<WordNodes<'static>, AllocError>
    ensures { IfOk result (λ one. one ≡ (word.now, one_group (postings_of cache.now word.now))) }
{
    let list = list_of(alloc, cache.postings(word))?;
    let mut nodes = NodeGroup::new(alloc);
    if !list.is_empty() {
        nodes.push(alloc, Node::new(list))?;
    }
    Ok(WordNodes::new(Word::copied(alloc, word)?, nodes))
}

/// All words of the cache, each with its documents as one group.
fn cached_words(alloc: Global, cache: &Cache) -> Result<Nodes<'static>, AllocError>
    ensures { IfOk result (λ words. IsListing (λ word. one_group (postings_of cache.now word)) []
        words.items) }
{
    let mut words = Vec::new(alloc);
    for word in &cache.prefix(b"")? {
        words.push(cached_word(alloc, cache, word)?)?;
    }
    Ok(words)
}

/// The ids of DELETED and of DELETED_CACHE together.
fn deleted_ids(alloc: Global, lists: &Lists) -> Result<DocIds, AllocError>
    ensures ascend { IfOk result Ascend }
    ensures each { IfOk result (λ ids. (id : ℕ) → has ids id
        ≡ (has (ids_of Deleted lists.now) id || has (ids_of DeletedCache lists.now) id)) }
{
    let dead = ascending(lists.ids(alloc, DeleteList::DeletedCache)?);
    Ok(DocIds::new(union(alloc, lists.deleted(), &dead)?))
}

/// A copy of the word that the open pass worked on last, if there is one.
fn checkpoint_of(alloc: Global, lists: &Lists) -> Result<Option<Word>, AllocError>
    ensures { IfOk result (λ checkpoint. checkpoint ≡ lists.now.checkpoint) }
{
    match lists.checkpoint() {
        Some(word) => Ok(Some(Word::copied(alloc, word.as_bytes())?)),
        None => Ok(None),
    }
}

/// Settings, and the numbers of an index.
fn config_of(alloc: Global, settings: &Settings, lists: &Lists) -> Result<Config, AllocError>
    ensures { IfOk result (λ config. config ≡ record {
      min = settings.now.min;
      max = settings.now.max;
      stopword = settings.now.stopword;
      flushed = lists.now.flushed;
      synced = lists.now.synced;
      checkpoint = lists.now.checkpoint;
    }) }
{
    Ok(Config {
        min: settings.min,
        max: settings.max,
        stopword: settings.stopword,
        flushed: lists.flushed(),
        synced: lists.synced(),
        checkpoint: checkpoint_of(alloc, lists)?,
    })
}

/// What a view of the index lists.
pub(crate) fn listed(
    index: &Index,
    settings: &Settings,
    kind: ListingKind,
) -> Result<Listing, AllocError>
    ensures { IfOk result (λ listing. (turns : List Turn) (s : IndexState)
        → Represents (rules_of settings.now) turns s index.now
        → IsListed settings.now turns s kind listing) }
{
    let alloc = index.alloc;
    match kind {
        ListingKind::IndexTable => {
            let words = ListedWords::new(table_words(alloc, &index.tables)?);
            Ok(Listing::Words { words })
        }
        ListingKind::IndexCache => {
            let words = ListedWords::new(cached_words(alloc, &index.cache)?);
            Ok(Listing::Words { words })
        }
        ListingKind::Deleted => {
            let ids = deleted_ids(alloc, &index.lists)?;
            Ok(Listing::Ids { ids })
        }
        ListingKind::BeingDeleted => {
            let ids = DocIds::new(index.lists.ids(alloc, DeleteList::BeingDeleted)?);
            Ok(Listing::Ids { ids })
        }
        ListingKind::Config => {
            let config = config_of(alloc, settings, &index.lists)?;
            Ok(Listing::Config { config })
        }
        ListingKind::DefaultStopword => Ok(Listing::Stopwords),
    }
}
