//! The nodes of a word, in one run of bytes.
ghost use Rattle.std.specs.Prelude.{◌≡◌, ◌≢◌, ◌+◌, ◌<◌, ◌≤◌, ◌↔◌, List, [], ◌∷◌, ◌++◌, length};
ghost use Rattle.std.specs.Prelude.{IsTrue, IfOk, OnOk, OnErr, true, false};
ghost use Rattle.std.specs.Prelude.{◌^◌, ◌-◌, IfSome, IfNone, vec_len, vec_capacity};
ghost use Rattle.std.specs.Iterator.{YieldsFirst, item_count};
ghost use Rattle.fts_ilist.specs.Spelling.{Posting, ArePostings, last_id, list_bytes};
ghost use Rattle.fts_ilist.specs.Reading.{postings_in};
ghost use Rattle.fts_ilist.specs.Node.{last_of};
ghost use Rattle.fts_ilist.specs.Packing.{node_size, is_sound, takes_first, are_loose, AreLoose};
ghost use Rattle.fts_ilist.specs.Packing.{loose_behind};
ghost use Rattle.std.specs.Prelude.{◌||◌, not};
ghost use Rattle.fts_ilist.specs.NodeList.{nodes_size, Takes, with_nodes, run_room, node_bytes};
ghost use Rattle.fts_ilist.specs.NodeList.{BeginsWithNode, first_bytes, behind_node};

use crate::cursor::Cursor;
use crate::node::Node;
use crate::number::{front_number, number_len, put_in_room};
use crate::packing::NODE_LIMIT;
use fts_types::DocId;
use std::alloc::{AllocError, Global};
use std::iter::FusedIterator;
use std::marker::Model;

/// How many more bytes a list that has nodes gets at least.
const LEAST_ROOM: usize = 96;

/// How many bytes of a run the two numbers before a node's bytes take at most.
const HEAD_ROOM: usize = 10;

/// A run has fewer bytes.
const RUN_LIMIT: usize = 1 << 32;

/// A node that is lent: its bytes, and the number of its documents.
#[derive(Drop)]
pub struct NodeRef<'a> {
    pub(crate) bytes: &'a [u8],
    pub(crate) count: usize,
}

impl<'a> Model for NodeRef<'a> {
    ghost use Rattle.std.specs.Prelude.{List};
    ghost use Rattle.fts_ilist.specs.Spelling.{Posting};
    ghost use Rattle.fts_ilist.specs.Reading.{postings_in};
    ghost use Rattle.fts_ilist.specs.NodeList.{IsLent};

    ghost Value = { List Posting };

    ghost view = { λ n. postings_in 0 n.bytes.now };

    ghost invariant = { λ n. IsLent n.count n.bytes.now };
}

impl<'a> NodeRef<'a> {
    /// The bytes that spell the position list.
    pub fn bytes(&self) -> &'a [u8]
        ensures spelled { result.now ≡ list_bytes self.now }
        ensures are { ArePostings self.now }
    {
        self.bytes
    }

    /// A cursor at the first document. It reads in place, and takes no memory.
    pub fn cursor(&self) -> Cursor<'a>
        ensures documents { result ≡ self.now }
        ensures are { ArePostings result }
    {
        Cursor::new(0, self.bytes)
    }

    /// The number of documents.
    pub fn count(&self) -> usize
        ensures { result ≡ length self.now }
    {
        self.count
    }

    /// Whether this is a node as packing makes it: of one document, or within the limit.
    pub fn is_sound(&self) -> bool
        ensures { result ≡ is_sound self.now }
    {
        if self.count == 1 {
            return true;
        }
        self.bytes.len() <= NODE_LIMIT
    }
}

/// Whether the first document of a node has a place in the one before it, which has so many bytes
/// and this last id.
fn takes_next(size: usize, last: DocId, next: &Node<'_>) -> bool
    requires { size < 2 ^ 63 }
    ensures { (docs : List Posting) → size ≡ node_size docs → last ≡ last_id docs
        → result ≡ takes_first docs next.now }
{
    let head = next.head();
    if head > NODE_LIMIT {
        return false;
    }
    let more = number_len(next.first().saturating_sub(last)) + head;
    size + more <= NODE_LIMIT
}

/// Nodes that are lent, by ascending ids. It is the iterator over them too, and takes no memory.
#[derive(Drop)]
pub struct NodeSlice<'a> {
    // How many there are.
    count: usize,
    // For each the number of its bytes, that of its documents, and its bytes.
    run: &'a [u8],
}

impl<'a> Model for NodeSlice<'a> {
    ghost use Rattle.std.specs.Prelude.{List};
    ghost use Rattle.fts_ilist.specs.Node.{Docs};
    ghost use Rattle.fts_ilist.specs.NodeList.{nodes_at, IsRun};

    ghost Value = { List Docs };

    ghost view = { λ s. nodes_at s.count s.run.now };

    ghost invariant = { λ s. IsRun s.count s.run.now };
}

impl<'a> NodeSlice<'a> {
    /// No nodes.
    pub fn empty() -> Self
        ensures { result ≡ [] }
    {
        NodeSlice { count: 0, run: &[] }
    }

    /// The number of nodes.
    pub fn len(&self) -> usize
        ensures { result ≡ length self.now }
    {
        self.count
    }

    /// Whether there are none.
    pub fn is_empty(&self) -> bool
        ensures { IsTrue result ↔ (self.now ≡ []) }
    {
        self.len() == 0
    }
}

/// The first node of a run, and what is behind it.
#[inline]
fn first_node(run: &[u8]) -> (NodeRef<'_>, &[u8])
    requires { BeginsWithNode run.now }
    ensures node { result.0 ≡ postings_in 0 (first_bytes run.now) }
    ensures rest { result.1.now ≡ behind_node run.now }
{
    let (size, at) = front_number(run);
    let behind_size = &run[at..];
    let (count, more) = front_number(behind_size);
    let (bytes, behind) = behind_size[more..].split_at(size as usize);
    let node = NodeRef {
        bytes,
        count: count as usize,
    };
    (node, behind)
}

impl<'a> Iterator for NodeSlice<'a> {
    type Item = NodeRef<'a>;

    ghost next_gives = { YieldsFirst (λ rest. rest) };

    ghost remaining = { item_count (λ rest. rest) };

    #[inline]
    fn next(&mut self) -> Option<NodeRef<'a>> {
        if self.count == 0 {
            return None;
        }
        let (node, behind) = first_node(self.run);
        self.count -= 1;
        self.run = behind;
        Some(node)
    }
}

impl<'a> FusedIterator for NodeSlice<'a> {}

/// Nodes of a word, by ascending ids, one behind the other in one run of bytes. So a list of many
/// small nodes takes one allocation. Room is a number that was asked for, whatever the allocator
/// gave.
#[derive(Drop)]
pub struct NodeList {
    run: Vec<u8>,
    // The last id of the nodes, and how many bytes the last of them has: who puts one behind them
    // doesn't look into the run.
    last: u64,
    size: u32,
    count: u32,
    // How many more nodes, and how many more of their bytes, there is room for.
    node_room: u32,
    byte_room: u32,
    // Whether packing would change the nodes.
    loose: bool,
}

impl Model for NodeList {
    ghost use Rattle.std.specs.Prelude.{◌-◌};
    ghost use Rattle.std.specs.Vec.{vec_len, vec_capacity};
    ghost use Rattle.fts_ilist.specs.NodeList.{NodeState, nodes_at, IsNodeList};

    ghost Value = { NodeState };

    ghost view = { λ l. record {
      nodes = nodes_at l.count l.run.items;
      node_room = l.node_room;
      byte_room = l.byte_room;
    } };

    ghost invariant = { λ l. IsNodeList l.count l.run.items (vec_capacity l.run - vec_len l.run)
        l.last l.size l.node_room l.byte_room l.loose };
}

/// So much more room, where the number fits.
fn more_room(room: u32, more: usize) -> Option<u32>
    ensures { IfSome result (λ sum. sum ≡ room + more) }
{
    match u32::try_from(more) {
        Ok(more) => room.checked_add(more),
        Err(_) => None,
    }
}

/// How many bytes of a run room for so many nodes of so many bytes takes, where a run of this
/// length stays below its limit with them.
fn room_behind(len: usize, nodes: u32, bytes: u32) -> Option<usize>
    ensures { IfSome result (λ room. (room ≡ run_room nodes bytes) × (len + room < 2 ^ 32)) }
{
    if len >= RUN_LIMIT {
        return None;
    }
    let room = bytes as usize + HEAD_ROOM * nodes as usize;
    if room >= RUN_LIMIT - len {
        return None;
    }
    Some(room)
}

/// How much more a run of so many bytes gets at least, where it has too little room.
fn more_for(len: usize) -> usize {
    if len == 0 {
        0
    } else {
        (len / 2 + 1).max(LEAST_ROOM)
    }
}

/// Makes room for so many more bytes. Where there is too little, a run that has some gets half as
/// much again and at least so many, so that little is held beside the bytes and a short run is not
/// moved for each node.
fn grow(run: &mut Vec<u8>, room: usize) -> Result<(), AllocError>
    ensures items { run.new.items ≡ run.old.items }
    ensures room { OnOk result (room ≤ vec_capacity run.new - vec_len run.new) }
    ensures kept { vec_capacity run.old ≤ vec_capacity run.new }
{
    if run.capacity() - run.len() < room {
        run.reserve_exact(room.max(more_for(run.len())))?;
    }
    Ok(())
}

/// Writes a node at the end of a run, within the capacity.
fn put_node(run: &mut Vec<u8>, bytes: &[u8], count: usize)
    requires size { length bytes.now < 2 ^ 32 }
    requires count { count < 2 ^ 32 }
    requires room { vec_len run.old + run_room 1 (length bytes.now) ≤ vec_capacity run.old }
    ensures items { run.new.items ≡ run.old.items ++ node_bytes count bytes.now }
    ensures len { vec_len run.new ≤ vec_len run.old + run_room 1 (length bytes.now) }
    ensures capacity { vec_capacity run.old ≤ vec_capacity run.new }
{
    put_in_room(run, bytes.len() as u64);
    put_in_room(run, count as u64);
    run.extend_from_slice(bytes).unwrap();
}

impl NodeList {
    /// No nodes, and no room. What it holds later lies in this allocator.
    pub fn new(alloc: Global) -> Self
        ensures { result ≡ with_nodes [] }
    {
        NodeList {
            run: Vec::new(alloc),
            last: 0,
            size: 0,
            count: 0,
            node_room: 0,
            byte_room: 0,
            loose: false,
        }
    }

    /// A list of these nodes, without room.
    pub fn of(alloc: Global, nodes: &[Node]) -> Result<Self, AllocError>
        ensures { IfOk result (λ list. list ≡ with_nodes nodes.now) }
    {
        let mut list = NodeList::new(alloc);
        list.reserve(nodes.len(), bytes_of(nodes).ok_or(AllocError)?)?;
        list.append(nodes);
        Ok(list)
    }

    /// The nodes.
    pub fn as_slice(&self) -> NodeSlice<'_>
        ensures { result ≡ self.now.nodes }
    {
        NodeSlice {
            count: self.count as usize,
            run: &self.run,
        }
    }

    /// Whether there are none.
    pub fn is_empty(&self) -> bool
        ensures { IsTrue result ↔ (self.now.nodes ≡ []) }
    {
        self.as_slice().is_empty()
    }

    /// The last id of the nodes, and 0 where there are none. It takes constant time.
    pub fn last_id(&self) -> DocId
        ensures { result ≡ last_of 0 self.now.nodes }
    {
        self.last
    }

    /// Whether packing their documents would give other nodes than these. It takes constant time.
    pub fn is_loose(&self) -> bool
        ensures told { result ≡ are_loose self.now.nodes }
        ensures packs { IsTrue result ↔ AreLoose self.now.nodes }
    {
        self.loose
    }

    /// Whether packing would give other nodes than these and one more behind them. It takes
    /// constant time.
    fn is_loose_with(&self, node: &Node<'_>) -> bool
        ensures { result ≡ are_loose (self.now.nodes ++ node.now ∷ []) }
    {
        if self.loose {
            return true;
        }
        if !node.is_sound() {
            return true;
        }
        if self.count == 0 {
            return false;
        }
        takes_next(self.size as usize, self.last, node)
    }

    /// Makes room for so many more nodes and bytes, beside the room that there is. Where there is
    /// no memory for it, nothing changes.
    pub fn reserve(&mut self, nodes: usize, bytes: usize) -> Result<(), AllocError>
        ensures ok { OnOk result (self.new ≡ record self.old {
          node_room = self.old.node_room + nodes;
          byte_room = self.old.byte_room + bytes;
        }) }
        ensures err { OnErr result (self.new ≡ self.old) }
    {
        let node_room = more_room(self.node_room, nodes).ok_or(AllocError)?;
        let byte_room = more_room(self.byte_room, bytes).ok_or(AllocError)?;
        // The nodes are counted by 32 bits.
        let _ = more_room(node_room, self.count as usize).ok_or(AllocError)?;
        let room = room_behind(self.run.len(), node_room, byte_room).ok_or(AllocError)?;
        grow(&mut self.run, room)?;
        self.node_room = node_room;
        self.byte_room = byte_room;
        Ok(())
    }

    /// Whether room is promised.
    pub fn has_room(&self) -> bool
        ensures none { result ≡ false → self.now ≡ with_nodes self.now.nodes }
        ensures some { result ≡ true → self.now ≢ with_nodes self.now.nodes }
    {
        if self.node_room > 0 {
            return true;
        }
        self.byte_room > 0
    }

    /// Gives up the room.
    pub fn give_up_room(&mut self)
        ensures { self.new ≡ with_nodes self.old.nodes }
    {
        self.node_room = 0;
        self.byte_room = 0;
    }

    /// Puts a node behind the last, within the room. It takes no memory.
    pub fn push(&mut self, node: &Node<'_>)
        requires nodes { 1 ≤ self.old.node_room }
        requires bytes { node_size node.now ≤ self.old.byte_room }
        ensures { Takes self.old self.new (node.now ∷ []) }
    {
        let loose = self.is_loose_with(node);
        self.put(&node.as_ref(), node.last(), loose);
    }

    /// Puts a node with this last id behind the last, within the room. Behind it, packing would
    /// change the nodes or not, as is said.
    fn put(&mut self, node: &NodeRef<'_>, last: DocId, loose: bool)
        requires nodes { 1 ≤ self.old.node_room }
        requires bytes { node_size node.now ≤ self.old.byte_room }
        requires last { last ≡ last_id node.now }
        requires loose { loose ≡ are_loose (self.old.nodes ++ node.now ∷ []) }
        ensures { Takes self.old self.new (node.now ∷ []) }
    {
        put_node(&mut self.run, node.bytes, node.count);
        self.last = last;
        self.size = node.bytes.len() as u32;
        self.count += 1;
        self.node_room -= 1;
        self.byte_room -= self.size;
        self.loose = loose;
    }

    /// Puts nodes behind the last, within the room. It takes no memory.
    pub fn append(&mut self, nodes: &[Node])
        requires nodes { length nodes.now ≤ self.old.node_room }
        requires bytes { nodes_size nodes.now ≤ self.old.byte_room }
        ensures { Takes self.old self.new nodes.now }
    {
        let mut rest = nodes;
        while let [first, behind @ ..] = rest {
            self.push(first);
            rest = behind;
        }
    }
}

/// The number of bytes of nodes, where it fits.
pub fn bytes_of(nodes: &[Node]) -> Option<usize>
    ensures some { IfSome result (λ bytes. bytes ≡ nodes_size nodes.now) }
    ensures none { IfNone result (2 ^ 64 ≤ nodes_size nodes.now) }
{
    let mut bytes: usize = 0;
    let mut rest = nodes;
    while let [first, behind @ ..] = rest {
        bytes = bytes.checked_add(first.bytes().len())?;
        rest = behind;
    }
    Some(bytes)
}

/// Whether the first document of a node has a place in the one before it, or the node is not as
/// packing makes them.
fn is_loose_next(last: &Node, next: &Node) -> bool
    ensures { result ≡ (takes_first last.now next.now || not (is_sound next.now)) }
{
    if takes_next(last.bytes().len(), last.last(), next) {
        return true;
    }
    !next.is_sound()
}

/// Whether one of these nodes, which stand behind another, is not as packing makes them there.
fn loose_behind<'a>(node: &'a Node<'a>, nodes: &'a [Node<'a>]) -> bool
    ensures { result ≡ loose_behind node.now nodes.now }
{
    let mut last = node;
    let mut rest = nodes;
    while let [next, behind @ ..] = rest {
        if is_loose_next(last, next) {
            return true;
        }
        last = next;
        rest = behind;
    }
    false
}

/// Whether packing the documents of nodes would give other nodes than these. It takes a step for
/// each node.
pub fn are_loose<'a>(nodes: &'a [Node<'a>]) -> bool
    ensures { result ≡ are_loose nodes.now }
{
    match nodes {
        [] => false,
        [first, behind @ ..] => {
            if !first.is_sound() {
                return true;
            }
            loose_behind(first, behind)
        }
    }
}
