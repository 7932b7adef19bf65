//! Nodes at the front of some bytes.
ghost use Rattle.fts_codec.specs.Reading.{Finds};
ghost use Rattle.fts_codec.specs.Fault.{Gives};
ghost use Rattle.fts_ixcodec.specs.Reading.{node_with, node_in, list_at};

use fts_codec::{Fault, bytes_at, u32_at};
use fts_ilist::Node;
use fts_types::DocId;

/// The node, where its ids are above `last`, and it is as packing makes nodes.
fn node_with(last: DocId, node: Node<'_>) -> Option<Node<'_>>
    ensures { Finds (λ node. node) result (node_with last node.entry) }
{
    if node.first() <= last {
        return None;
    }
    if !node.is_sound() {
        return None;
    }
    Some(node)
}

/// The node whose list the bytes are.
fn node_in(last: DocId, bytes: &[u8]) -> Option<Node<'_>>
    ensures { Finds (λ node. node) result (node_in last bytes.now) }
{
    match Node::read(bytes) {
        Some(node) => node_with(last, node),
        None => None,
    }
}

/// A node whose ids are above `last`, behind the length of its list of four bytes. It borrows the
/// list.
#[tactic(auto, unfolding(crate::specs::Reading::list_at))]
pub(crate) fn list_at(last: DocId, bytes: &[u8]) -> Result<(Node<'_>, &[u8]), Fault>
    ensures { Gives (λ x. (x.0, x.1.now)) result (list_at last bytes.now) }
{
    let Some((size, rest)) = u32_at(bytes) else {
        return Err(Fault::at(bytes));
    };
    let Some((list, behind)) = bytes_at(rest, size as usize) else {
        return Err(Fault::at(rest));
    };
    match node_in(last, list) {
        Some(node) => Ok((node, behind)),
        None => Err(Fault::at(rest)),
    }
}
