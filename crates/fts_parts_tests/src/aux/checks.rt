//! What an install asks, as tests of the program's values.
ghost use Rattle.std.specs.Prelude.{◌≡◌, IsTrue};
ghost use Rattle.std.specs.List.{AllByRecursion};
ghost use Rattle.std.specs.List.Sorted.{IsStrictlySortedBy};
ghost use Rattle.std.specs.Map.{keys_of};
ghost use Rattle.std.specs.declared.cmp.Ordering.TheVariants.{Less};
ghost use Rattle.fts_ilist.specs.Spelling.{last_id};
ghost use Rattle.fts_ilist.specs.Node.{BeginsAfter, NodesAfter, last_of};
ghost use Rattle.fts_words.specs.Order.{byte_order};
ghost use Rattle.fts_aux.specs.Tables.{ComesAfter};

use fts_aux::Tables;
use fts_ilist::{Node, NodeRef, NodeSlice, WordNodes};
use std::cmp::Ordering;

// The last id of a node's documents.
fn last_doc(node: &NodeRef<'_>) -> u64
    ensures { result ≡ last_id node.now }
{
    let mut last = 0;
    let mut rest = node.cursor();
    while let Some(document) = rest.next() {
        last = document.id();
    }
    last
}

// The last id of nodes, and `before` where there is none.
fn last_in(before: u64, nodes: NodeSlice<'_>) -> u64
    ensures { result ≡ last_of before nodes.entry }
{
    let mut last = before;
    let mut rest = nodes;
    while let Some(node) = rest.next() {
        last = last_doc(&node);
    }
    last
}

// Whether a node's ids are above one.
fn begins_after(last: u64, node: &Node) -> bool
    ensures { IsTrue result → BeginsAfter last node.now }
{
    last < node.first()
}

// Whether the ids of nodes are above one, and ascend from node to node.
pub fn are_after(last: u64, nodes: &[Node]) -> bool
    ensures { IsTrue result → NodesAfter last nodes.now }
{
    match nodes {
        [] => true,
        [first, rest @ ..] => {
            if !begins_after(last, first) {
                return false;
            }
            are_after(first.last(), rest)
        }
    }
}

// Whether the nodes of a batch may stand behind those of the tables.
pub fn come_after(tables: &Tables, batch: &[WordNodes]) -> bool
    ensures { IsTrue result → ComesAfter tables.now batch.now }
{
    match batch {
        [] => true,
        [first, rest @ ..] => {
            let last = last_in(0, tables.nodes_of(first.word()));
            if !are_after(last, first.nodes()) {
                return false;
            }
            come_after(tables, rest)
        }
    }
}

// Whether a word stands before those of a batch.
fn is_before(word: &[u8], batch: &[WordNodes]) -> bool
    ensures { IsTrue result → AllByRecursion (λ other. byte_order word.now other ≡ Less)
        (keys_of batch.now) }
{
    match batch {
        [] => true,
        [first, rest @ ..] => match word.cmp(first.word()) {
            Ordering::Less => is_before(word, rest),
            _ => false,
        },
    }
}

// Whether a batch has its words in byte order, each once.
pub fn ascend(batch: &[WordNodes]) -> bool
    ensures { IsTrue result → IsStrictlySortedBy byte_order (keys_of batch.now) }
{
    match batch {
        [] => true,
        [first, rest @ ..] => {
            if !is_before(first.word(), rest) {
                return false;
            }
            ascend(rest)
        }
    }
}
