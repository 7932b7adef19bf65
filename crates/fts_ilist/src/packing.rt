//! Documents packed into nodes.
ghost use Rattle.std.specs.Prelude.{◌≡◌, ◌<◌, ◌↔◌, List, [], ◌∷◌, ◌++◌, true, IfOk, OnOk};
ghost use Rattle.std.specs.Prelude.{◌≢◌, OnErr};
ghost use Rattle.std.specs.List.{All};
ghost use Rattle.fts_ilist.specs.Spelling.{Posting, ArePostings, last_id};
ghost use Rattle.fts_ilist.specs.Packing.{packed, PutsInto, AreLoose, are_loose};
ghost use Rattle.fts_ilist.specs.Cursor.{postings_until};

use crate::cursor::Cursor;
use crate::documents::Document;
use crate::list::Ilist;
use crate::node::{Node, NodeGroup};
use crate::number::NUMBER_ROOM;
use fts_types::DocId;
use std::alloc::{AllocError, Global};
use std::marker::Model;
use std::mem;

/// How many bytes a node may have, unless it has one document alone.
pub const NODE_LIMIT: usize = 8_192;

/// For how many bytes of a first node memory is taken before its documents come, at most: more than
/// most nodes of a batch have.
const FIRST_ROOM: usize = 64;

/// The nodes of a word while its documents come, one behind the other: each node is the list of its
/// documents, and is closed where the next document would bring its bytes above 8,192.
#[derive(Drop)]
pub struct Packing {
    closed: Vec<Ilist>,
    // The node that is begun; without documents only where none came.
    begun: Ilist,
}

impl Model for Packing {
    ghost use Rattle.std.specs.Prelude.{List, ◌++◌};
    ghost use Rattle.fts_ilist.specs.Spelling.{Posting};
    ghost use Rattle.fts_ilist.specs.Packing.{joined, IsPacking};

    ghost Value = { List Posting };

    ghost view = { λ p. joined p.closed.items ++ p.begun };

    ghost invariant = { λ p. IsPacking p.closed.items p.begun };
}

/// Closes a node where one more document has no place in it, and begins one with the document.
fn begin_next(
    closed: &mut Vec<Ilist>,
    begun: &mut Ilist,
    document: &Document<'_>,
) -> Result<(), AllocError>
    requires { 0 < document.now.id }
    ensures closed { OnOk result (closed.new.items ≡ closed.old.items ++ begun.old ∷ []) }
    ensures begun { OnOk result (begun.new ≡ document.now ∷ []) }
    ensures err_closed { OnErr result (closed.new.items ≡ closed.old.items) }
    ensures err_begun { OnErr result (begun.new ≡ begun.old) }
{
    closed.reserve(1)?;
    let mut next = Ilist::new(*closed.allocator());
    next.push_document(document)?;
    closed.push(mem::replace(begun, next)).unwrap();
    Ok(())
}

/// Puts a document into the node that is begun, where that has a place for it, and else into one
/// more.
fn put(
    closed: &mut Vec<Ilist>,
    begun: &mut Ilist,
    document: &Document<'_>,
) -> Result<(), AllocError>
    requires { last_id begun.old < document.now.id }
    ensures ok { OnOk result (PutsInto closed.old.items begun.old document.now closed.new.items
        begun.new) }
    ensures err_closed { OnErr result (closed.new.items ≡ closed.old.items) }
    ensures err_begun { OnErr result (begun.new ≡ begun.old) }
{
    if begun.is_empty() {
        return begun.push_document(document);
    }
    if begun.takes(document, NODE_LIMIT) {
        return begun.push_document(document);
    }
    begin_next(closed, begun, document)
}

/// Lists as nodes.
fn nodes_of<'a>(alloc: Global, lists: Vec<Ilist>) -> Result<NodeGroup<'a>, AllocError>
    requires { All (λ docs. docs ≢ []) lists.items }
    ensures { IfOk result (λ nodes. nodes ≡ lists.items) }
{
    let mut nodes = NodeGroup::new(alloc);
    for list in lists {
        nodes.push(alloc, Node::new(list))?;
    }
    Ok(nodes)
}

impl Packing {
    /// No documents. What it holds later lies in this allocator.
    pub fn new(alloc: Global) -> Self
        ensures { result ≡ [] }
    {
        Packing {
            closed: Vec::new(alloc),
            begun: Ilist::new(alloc),
        }
    }

    /// No documents, with memory for a first node of about so many bytes.
    pub fn with_room(alloc: Global, bytes: usize) -> Result<Self, AllocError>
        ensures { IfOk result (λ packing. packing ≡ []) }
    {
        let room = bytes.min(FIRST_ROOM) + 2 * NUMBER_ROOM;
        let begun = Ilist::with_room(alloc, room)?;
        Ok(Packing {
            closed: Vec::new(alloc),
            begun,
        })
    }

    /// Adds a document behind the last. Where there is no memory for it, nothing changes.
    pub fn push(&mut self, document: &Document<'_>) -> Result<(), AllocError>
        requires { last_id self.old < document.now.id }
        ensures ok { OnOk result (self.new ≡ self.old ++ document.now ∷ []) }
        ensures err { OnErr result (self.new ≡ self.old) }
    {
        put(&mut self.closed, &mut self.begun, document)?;
        Ok(())
    }

    /// The nodes of the documents, each as the list of its documents.
    pub fn finish(self) -> Result<Vec<Ilist>, AllocError>
        ensures { IfOk result (λ nodes. nodes.items ≡ packed self) }
    {
        let Packing { mut closed, begun } = self;
        if begun.is_empty() {
            return Ok(closed);
        }
        closed.push(begun)?;
        Ok(closed)
    }

    /// The nodes of the documents.
    pub fn nodes<'a>(self) -> Result<NodeGroup<'a>, AllocError>
        ensures { IfOk result (λ nodes. nodes ≡ packed self) }
    {
        let Packing { closed, begun } = self;
        let alloc = *closed.allocator();
        if begun.is_empty() {
            return Ok(NodeGroup::new(alloc));
        }
        let mut nodes = nodes_of(alloc, closed)?;
        nodes.push(alloc, Node::new(begun))?;
        Ok(nodes)
    }
}

/// Packing gives other nodes just where one of them is not sound (of one document, or within the
/// limit) or takes the first document of the next: what is kept of nodes tells it.
pub fn loose_nodes_are_told_by_their_ends()
    ensures { (nodes : List (List Posting)) → AreLoose nodes ↔ (are_loose nodes ≡ true) }
{}

/// The documents, one behind the other.
fn packing_of(alloc: Global, docs: Cursor<'_>) -> Result<Packing, AllocError>
    requires { ArePostings docs }
    ensures { IfOk result (λ packing. packing ≡ docs.entry) }
{
    let mut packing = Packing::new(alloc);
    for document in docs {
        packing.push(&document)?;
    }
    Ok(packing)
}

/// The nodes of these documents.
pub fn pack(alloc: Global, docs: Cursor<'_>) -> Result<Vec<Ilist>, AllocError>
    requires { ArePostings docs }
    ensures { IfOk result (λ nodes. nodes.items ≡ packed docs.entry) }
{
    packing_of(alloc, docs)?.finish()
}

/// A node as packing makes nodes of its documents: mostly it is the only one.
fn packed_anew<'n>(alloc: Global, node: Node<'n>) -> Result<NodeGroup<'n>, AllocError>
    requires { node ≢ [] }
    ensures { IfOk result (λ nodes. nodes ≡ packed node.entry) }
{
    if node.bytes().len() <= NODE_LIMIT {
        return Ok(NodeGroup::one(node));
    }
    packing_of(alloc, node.cursor())?.nodes()
}

/// The nodes of the documents up to `doc`. Where these fit one node, as most do, their bytes are
/// copied as they stand.
pub fn pack_until<'n>(
    alloc: Global,
    docs: Cursor<'_>,
    doc: DocId,
) -> Result<NodeGroup<'n>, AllocError>
    ensures { IfOk result (λ nodes. nodes ≡ packed (postings_until doc docs.entry)) }
{
    match docs.node_until(alloc, doc)? {
        Some(node) => packed_anew(alloc, node),
        None => Ok(NodeGroup::new(alloc)),
    }
}
