//! Words of the tables with their nodes.
ghost use Rattle.std.specs.Prelude.{◌≡◌, [], map, IfOk};
ghost use Rattle.fts_aux.specs.Words.{IsListing, IsWalked};
ghost use Rattle.fts_aux.specs.Tables.{nodes};

use fts_aux::Tables;
use fts_ilist::NodeSlice;
use fts_types::Word;
use std::alloc::{AllocError, Global};

/// All words with their nodes, in byte order. The empty word is given, for the case that the tables
/// have it.
pub(crate) fn all_words<'a>(
    alloc: Global,
    tables: &'a Tables,
    empty: &'a Word,
) -> Result<Vec<(&'a Word, NodeSlice<'a>)>, AllocError>
    requires { empty.now ≡ [] }
    ensures { IfOk result (λ found. IsListing (nodes tables.now) []
        (map (λ p. (p.0.now, p.1)) found.items)) }
{
    let mut words = first_word(alloc, tables, empty)?;
    let mut last = empty;
    while let Some((word, nodes)) = tables.next_entry(last) {
        words.push((word, nodes))?;
        last = word;
    }
    Ok(words)
}

/// The empty word with its nodes, where it has some.
fn first_word<'a>(
    alloc: Global,
    tables: &'a Tables,
    empty: &'a Word,
) -> Result<Vec<(&'a Word, NodeSlice<'a>)>, AllocError>
    requires { empty.now ≡ [] }
    ensures { IfOk result (λ found. IsWalked (nodes tables.now) []
        (map (λ p. (p.0.now, p.1)) found.items)) }
{
    let mut words = Vec::new(alloc);
    let nodes = tables.nodes_of(b"");
    if !nodes.is_empty() {
        words.push((empty, nodes))?;
    }
    Ok(words)
}

/// The words that begin so, in byte order, with their nodes.
pub(crate) fn words_with<'a>(
    alloc: Global,
    tables: &'a Tables,
    prefix: &[u8],
    empty: &'a Word,
) -> Result<Vec<(&'a Word, NodeSlice<'a>)>, AllocError>
    requires { empty.now ≡ [] }
    ensures { IfOk result (λ found. IsListing (nodes tables.now) prefix.now
        (map (λ p. (p.0.now, p.1)) found.items)) }
{
    if prefix.is_empty() {
        return all_words(alloc, tables, empty);
    }
    tables.with_prefix(alloc, prefix)
}
