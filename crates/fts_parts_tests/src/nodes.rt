use fts_ilist::{Ilist, Node, NodeList, are_loose};
use std::alloc::{AllocError, Global};
use std::test::Fail;

// A node's list, its first and last id, its number of documents, and the bytes of the first one
// behind its id.
fn has_two_documents(node: &Node) -> bool {
    (node.first(), node.last(), node.count()) == (300, 306, 2)
        && (node.head(), node.bytes().len(), node.cursor().count()) == (4, 9, 2)
}

#[test]
fn a_node_agrees_with_its_list(rt: HostRuntime) -> Result<(), Fail> {
    let mut list = Ilist::new(rt.alloc());
    list.push(300, &[7, 300])?;
    list.push(306, &[7])?;
    assert!(rt; has_two_documents(&Node::new(list)));
    Ok(())
}

// Ids of the documents of nodes, a node each.
const IDS: &[u64] = &[3, 300, 70_000];

// Nodes of one document each.
fn nodes(alloc: Global) -> Result<Vec<Node<'static>>, AllocError> {
    let mut nodes = Vec::new(alloc);
    for id in IDS.iter() {
        let mut list = Ilist::new(alloc);
        list.push(*id, &[7])?;
        nodes.push(Node::new(list))?;
    }
    Ok(nodes)
}

// Whether a list has these three nodes, with all that is kept of them.
fn gives(list: &NodeList, nodes: &[Node]) -> bool {
    if (list.as_slice().len(), nodes.len()) != (3, 3) {
        return false;
    }
    for (found, node) in list.as_slice().zip(nodes) {
        if found.count() != 1 || found.bytes() != node.bytes() {
            return false;
        }
    }
    list.last_id() == 70_000 && list.is_loose()
}

#[test]
fn a_list_gives_its_nodes(rt: HostRuntime) -> Result<(), Fail> {
    let nodes = nodes(rt.alloc())?;
    let list = NodeList::of(rt.alloc(), &nodes)?;
    assert!(rt; are_loose(&nodes));
    assert!(rt; gives(&list, &nodes));
    Ok(())
}
