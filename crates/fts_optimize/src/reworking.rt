//! The rework of a word.
ghost use Rattle.std.specs.Prelude.{◌≡◌, ◌≢◌, ◌<◌, ◌≤◌, ◌++◌, ◌∷◌, [], ℕ, not, IfOk, OnOk, filter};
ghost use Rattle.std.specs.List.{All, AllByRecursion};
ghost use Rattle.fts_entries.specs.Pass.{IsPackedNode};
ghost use Rattle.fts_ids.specs.Ids.{has, Ascend};
ghost use Rattle.fts_ilist.specs.Changes.{postings_without};
ghost use Rattle.fts_ilist.specs.Spelling.{PostingsAfter, last_id};
ghost use Rattle.fts_ilist.specs.Node.{NodesAfter};
ghost use Rattle.fts_ilist.specs.Packing.{packed, joined};

use fts_ids::IdWalk;
use fts_ilist::{Cursor, Document, Ilist, Node, NodeList, NodeSlice, Packing};
use fts_types::DocId;
use std::alloc::{AllocError, Global};

/// Puts a document behind the others, unless it is one of those that are taken out.
fn put_kept(
    packing: &mut Packing,
    document: &Document<'_>,
    taken: &mut IdWalk<'_>,
) -> Result<(), AllocError>
    requires { last_id packing.old < document.now.id }
    ensures kept { OnOk result (packing.new
        ≡ packing.old ++ filter (λ p. not (has taken.old p.id)) (document.now ∷ [])) }
    ensures walk { (later : ℕ) → document.now.id ≤ later
        → has taken.new later ≡ has taken.old later }
{
    if taken.has(document.id()) {
        return Ok(());
    }
    packing.push(document)
}

/// Puts the documents of a node behind the others, those that are not among the ids.
fn put_node(packing: &mut Packing, documents: Cursor<'_>, being: &[DocId]) -> Result<(), AllocError>
    requires ids { Ascend being.now }
    requires behind { PostingsAfter (last_id packing.old) documents }
    ensures { OnOk result (packing.new
        ≡ packing.old ++ postings_without being.now documents.entry) }
{
    let mut taken = IdWalk::new(being);
    for document in documents {
        put_kept(packing, &document, &mut taken)?;
    }
    Ok(())
}

/// Puts a node behind the others.
fn put_last(nodes: &mut NodeList, node: Node<'_>) -> Result<(), AllocError>
    ensures { OnOk result (nodes.new.nodes ≡ nodes.old.nodes ++ node.entry ∷ []) }
{
    nodes.reserve(1, node.bytes().len())?;
    nodes.push(&node);
    Ok(())
}

/// Lists as nodes.
fn list_of(alloc: Global, lists: Vec<Ilist>) -> Result<NodeList, AllocError>
    requires { All (λ docs. docs ≢ []) lists.items }
    ensures { IfOk result (λ nodes. nodes.nodes ≡ lists.items) }
{
    let mut nodes = NodeList::new(alloc);
    for list in lists {
        put_last(&mut nodes, Node::new(list))?;
    }
    Ok(nodes)
}

/// The documents of a word's nodes that are not among some ids, which ascend, packed into nodes.
/// None is left where each of them is.
pub fn rework(alloc: Global, nodes: NodeSlice<'_>, being: &[DocId]) -> Result<NodeList, AllocError>
    requires ids { Ascend being.now }
    requires nodes { NodesAfter 0 nodes }
    ensures packed { IfOk result (λ list. list.nodes
        ≡ packed (postings_without being.now (joined nodes.entry))) }
    ensures ascending { IfOk result (λ list. NodesAfter 0 list.nodes) }
    ensures nodes { IfOk result (λ list. AllByRecursion IsPackedNode list.nodes) }
{
    let mut packing = Packing::new(alloc);
    for node in nodes {
        put_node(&mut packing, node.cursor(), being)?;
    }
    list_of(alloc, packing.finish()?)
}
