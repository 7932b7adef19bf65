ghost use Rattle.std.specs.Prelude.{IfOk};
ghost use Rattle.fts_ids.specs.Ids.{Ascend};
ghost use Rattle.fts_ilist.specs.Node.{NodesAfter};

use fts_ilist::{Ilist, Node, NodeList, NodeRef};
use fts_optimize::rework;
use fts_types::DocId;
use std::alloc::{AllocError, Global};
use std::test::Fail;

// A node of two documents, and one of a third, each at the place 7.
fn two_nodes(alloc: Global) -> Result<NodeList, AllocError>
    ensures { IfOk result (λ list. NodesAfter 0 list.nodes) }
{
    let mut first = Ilist::new(alloc);
    first.push(3, &[7])?;
    first.push(5, &[7])?;
    let mut second = Ilist::new(alloc);
    second.push(9, &[7])?;
    NodeList::of(alloc, &[Node::new(first), Node::new(second)])
}

// Whether a node's documents have these ids.
fn has_ids(node: &NodeRef<'_>, ids: &[DocId]) -> bool {
    if node.count() != ids.len() {
        return false;
    }
    for (document, id) in node.cursor().zip(ids) {
        if document.id() != *id {
            return false;
        }
    }
    true
}

// Whether what is left of these nodes is one node of documents with these ids.
fn is_left(alloc: Global, being: &[DocId], ids: &[DocId]) -> Result<bool, AllocError>
    requires { Ascend being.now }
{
    let nodes = two_nodes(alloc)?;
    let new = rework(alloc, nodes.as_slice(), being)?;
    let mut left = new.as_slice();
    match left.next() {
        Some(node) => Ok(has_ids(&node, ids) && left.is_empty()),
        None => Ok(false),
    }
}

#[test]
fn what_is_left_of_a_word_is_packed(rt: HostRuntime) -> Result<(), Fail> {
    assert!(rt; is_left(rt.alloc(), &[], &[3, 5, 9])?);
    assert!(rt; is_left(rt.alloc(), &[1, 5, 7], &[3, 9])?);
    assert!(rt; is_left(rt.alloc(), &[3, 9], &[5])?);
    Ok(())
}

#[test]
fn a_word_can_lose_all_its_nodes(rt: HostRuntime) -> Result<(), Fail> {
    let nodes = two_nodes(rt.alloc())?;
    let new = rework(rt.alloc(), nodes.as_slice(), &[3, 5, 9, 12])?;
    assert!(rt; new.is_empty());
    Ok(())
}
