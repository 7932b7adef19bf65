//! Nodes, and words with their nodes.
ghost use Rattle.std.specs.Prelude.{◌≡◌, ◌≢◌, ◌∷◌, ◌++◌, ◌↔◌, [], List, length, IfSome, IfNone};
ghost use Rattle.std.specs.Prelude.{IfOk, IfErr, OnOk, OnErr, IsTrue};
ghost use Rattle.fts_ilist.specs.Spelling.{Posting, ArePostings, HasFirstId, last_id, list_bytes};
ghost use Rattle.fts_ilist.specs.Node.{body_size, head_size};
ghost use Rattle.fts_ilist.specs.Packing.{is_sound};
ghost use Rattle.fts_ilist.specs.Group.{held_nodes};
ghost use Rattle.fts_ilist.specs.Held.{held_bytes};

use crate::cursor::Cursor;
use crate::documents::Document;
use crate::list::{Ilist, first_of};
use crate::node_list::NodeRef;
use crate::reading::last_of;
use fts_types::{DocId, Word};
use smallvec::SmallVec;
use std::alloc::{AllocFailed, Global};
use std::marker::Model;
use std::{mem, slice};

/// How many bytes of a node stand in the node itself. Most nodes of a batch have no more.
pub(crate) const INLINE: usize = 24;

/// Bytes that are a node's own, or lent.
#[derive(Drop)]
pub(crate) enum HeldBytes<'a> {
    Own { bytes: SmallVec<u8, INLINE> },
    Lent { bytes: &'a [u8] },
}

impl<'a> HeldBytes<'a> {
    /// The bytes.
    fn as_slice(&self) -> &[u8]
        ensures { result.now ≡ held_bytes self.now }
    {
        match self {
            HeldBytes::Own { bytes } => bytes.as_slice(),
            HeldBytes::Lent { bytes } => bytes,
        }
    }
}

/// A row of an auxiliary table: the position list of some documents that have a word, the first and
/// the last of their ids, and their number. Its bytes are its own, or lent.
#[derive(Drop)]
pub struct Node<'a> {
    pub(crate) bytes: HeldBytes<'a>,
    pub(crate) first: u64,
    pub(crate) last: u64,
    // The number of documents.
    pub(crate) count: usize,
    // The bytes of the first document behind its id.
    pub(crate) head: usize,
}

impl<'a> Model for Node<'a> {
    ghost use Rattle.std.specs.Prelude.{List};
    ghost use Rattle.fts_ilist.specs.Spelling.{Posting};
    ghost use Rattle.fts_ilist.specs.Reading.{postings_in};
    ghost use Rattle.fts_ilist.specs.NodeList.{IsNode};
    ghost use Rattle.fts_ilist.specs.Held.{held_bytes};

    ghost Value = { List Posting };

    ghost view = { λ n. postings_in 0 (held_bytes n.bytes) };

    ghost invariant = { λ n. IsNode n.first n.last n.count n.head (held_bytes n.bytes) };
}

/// The number of bytes of a document behind its id.
fn body_of(document: &Document<'_>) -> usize
    ensures { result ≡ body_size document.now }
{
    document.encoded.len() + 1
}

/// The number of bytes of the first of documents behind its id.
fn head_of(mut documents: Cursor<'_>) -> usize
    requires { documents ≢ [] }
    ensures { result ≡ head_size documents.entry }
{
    match documents.next() {
        Some(document) => body_of(&document),
        None => unreachable!(),
    }
}

impl<'a> Node<'a> {
    /// The node of a list that has documents.
    pub fn new(list: Ilist) -> Self
        requires { list ≢ [] }
        ensures { result ≡ list }
    {
        let head = head_of(list.docs());
        let Ilist {
            bytes,
            first,
            last,
            count,
        } = list;
        Node {
            bytes: HeldBytes::Own {
                bytes: SmallVec::from_vec(bytes),
            },
            first,
            last,
            count,
            head,
        }
    }

    /// The node whose list the bytes are, all of them; none where they are no list of documents. It
    /// borrows them, and takes no memory.
    pub fn read(bytes: &'a [u8]) -> Option<Self>
        ensures some { IfSome result (λ node. ArePostings node × (bytes.now ≡ list_bytes node)) }
        ensures none { IfNone result ((ps : List Posting) → ArePostings ps → ps ≢ []
            → bytes.now ≡ list_bytes ps → ⊥) }
    {
        match last_of(bytes) {
            Ok((last, count)) => {
                if count == 0 {
                    return None;
                }
                let first = first_of(bytes);
                let head = head_of(Cursor::new(0, bytes));
                Some(Node {
                    bytes: HeldBytes::Lent { bytes },
                    first,
                    last,
                    count,
                    head,
                })
            }
            Err(_) => None,
        }
    }

    /// The bytes that spell the position list.
    pub fn bytes(&self) -> &[u8]
        ensures spelled { result.now ≡ list_bytes self.now }
        ensures are { ArePostings self.now }
    {
        self.bytes.as_slice()
    }

    /// A cursor at the first document. It reads in place, and takes no memory.
    pub fn cursor(&self) -> Cursor<'_>
        ensures documents { result ≡ self.now }
        ensures are { ArePostings result }
    {
        Cursor::new(0, self.bytes.as_slice())
    }

    /// The node, lent.
    pub fn as_ref(&self) -> NodeRef<'_>
        ensures { result ≡ self.now }
    {
        NodeRef {
            bytes: self.bytes.as_slice(),
            count: self.count,
        }
    }

    /// The id of the first document.
    pub fn first(&self) -> DocId
        ensures { HasFirstId self.now result }
    {
        self.first
    }

    /// The id of the last document.
    pub fn last(&self) -> DocId
        ensures { result ≡ last_id self.now }
    {
        self.last
    }

    /// The number of documents.
    pub fn count(&self) -> usize
        ensures { result ≡ length self.now }
    {
        self.count
    }

    /// The number of bytes of the first document behind its id: those of its positions and of its
    /// end. A list that takes this document behind its last gains them, and those of the increase
    /// of the id.
    pub fn head(&self) -> usize
        ensures { result ≡ head_size self.now }
    {
        self.head
    }

    /// Whether this is a node as packing makes it: of one document, or within the limit.
    pub fn is_sound(&self) -> bool
        ensures { result ≡ is_sound self.now }
    {
        self.as_ref().is_sound()
    }
}

/// One node, in its place, or any number of nodes.
#[derive(Drop)]
enum Held<'a> {
    One { node: Node<'a> },
    Many { nodes: Vec<Node<'a>> },
}

/// Nodes of a word, by ascending ids. One node alone takes no memory beside its own.
#[derive(Drop)]
pub struct NodeGroup<'a> {
    held: Held<'a>,
}

impl<'a> Model for NodeGroup<'a> {
    ghost use Rattle.std.specs.Prelude.{List};
    ghost use Rattle.fts_ilist.specs.Node.{Docs};
    ghost use Rattle.fts_ilist.specs.Group.{held_nodes};

    ghost Value = { List Docs };

    ghost view = { λ g. held_nodes g.held };
}

impl<'a> NodeGroup<'a> {
    /// No nodes.
    pub fn new(alloc: Global) -> Self
        ensures { result ≡ [] }
    {
        NodeGroup {
            held: Held::Many {
                nodes: Vec::new(alloc),
            },
        }
    }

    /// One node.
    pub fn one(node: Node<'a>) -> Self
        ensures { result ≡ node.entry ∷ [] }
    {
        NodeGroup {
            held: Held::One { node },
        }
    }

    /// These nodes.
    pub fn of(nodes: Vec<Node<'a>>) -> Self
        ensures { result ≡ nodes.entry.items }
    {
        NodeGroup {
            held: Held::Many { nodes },
        }
    }

    /// The nodes.
    pub fn as_slice(&self) -> &[Node<'a>]
        ensures { result.now ≡ self.now }
    {
        match &self.held {
            Held::One { node } => slice::from_ref(node),
            Held::Many { nodes } => nodes.as_slice(),
        }
    }

    /// Whether there are none.
    pub fn is_empty(&self) -> bool
        ensures { IsTrue result ↔ (self.now ≡ []) }
    {
        self.as_slice().is_empty()
    }

    /// Puts a node behind the others. Where memory is wanting, it gives the node back, and the
    /// nodes are as before.
    pub fn push(&mut self, alloc: Global, node: Node<'a>) -> Result<(), AllocFailed<Node<'a>>>
        ensures ok { OnOk result (self.new ≡ self.old ++ node.entry ∷ []) }
        ensures err { OnErr result (self.new ≡ self.old) }
        ensures back { IfErr result (λ failed. failed.value ≡ node.entry) }
    {
        let none = Held::Many {
            nodes: Vec::new(alloc),
        };
        match held_with(alloc, mem::replace(&mut self.held, none), node) {
            Ok(more) => {
                self.held = more;
                Ok(())
            }
            Err((held, node)) => {
                self.held = held;
                Err(AllocFailed { value: node })
            }
        }
    }
}

/// Two nodes. Where memory is wanting, both come back.
fn both<'a>(
    alloc: Global,
    first: Node<'a>,
    second: Node<'a>,
) -> Result<Vec<Node<'a>>, (Node<'a>, Node<'a>)>
    ensures ok { IfOk result (λ nodes. nodes.items ≡ first.entry ∷ second.entry ∷ []) }
    ensures back { IfErr result (λ nodes. nodes ≡ (first.entry, second.entry)) }
{
    match Vec::with_capacity(alloc, 2) {
        Ok(mut nodes) => {
            nodes.push(first).unwrap();
            nodes.push(second).unwrap();
            Ok(nodes)
        }
        Err(_) => Err((first, second)),
    }
}

/// One node more behind others. Where memory is wanting, all come back.
fn held_with<'a>(
    alloc: Global,
    held: Held<'a>,
    node: Node<'a>,
) -> Result<Held<'a>, (Held<'a>, Node<'a>)>
    ensures ok { IfOk result (λ more. held_nodes more ≡ held_nodes held.entry ++ node.entry ∷ []) }
    ensures back { IfErr result (λ kept. held_nodes kept.0 ≡ held_nodes held.entry) }
    ensures node_back { IfErr result (λ kept. kept.1 ≡ node.entry) }
{
    match held {
        Held::One { node: first } => match both(alloc, first, node) {
            Ok(nodes) => Ok(Held::Many { nodes }),
            Err((first, node)) => Err((Held::One { node: first }, node)),
        },
        Held::Many { mut nodes } => {
            if nodes.is_empty() {
                return Ok(Held::One { node });
            }
            match nodes.push(node) {
                Ok(()) => Ok(Held::Many { nodes }),
                Err(failed) => Err((Held::Many { nodes }, failed.value)),
            }
        }
    }
}

/// A word that is the nodes' own, or lent.
#[derive(Drop)]
enum HeldWord<'a> {
    Own { word: Word },
    Lent { bytes: &'a [u8] },
}

/// A word with nodes of it. What it holds is its own, or lent.
#[derive(Drop)]
pub struct WordNodes<'a> {
    word: HeldWord<'a>,
    nodes: NodeGroup<'a>,
}

impl<'a> Model for WordNodes<'a> {
    ghost use Rattle.std.specs.Prelude.{ℕ, List};
    ghost use Rattle.fts_ilist.specs.Node.{Docs};
    ghost use Rattle.fts_ilist.specs.Group.{held_word};

    ghost Value = { List ℕ × List Docs };

    ghost view = { λ w. (held_word w.word, w.nodes) };
}

impl<'a> WordNodes<'a> {
    /// The word with these nodes.
    pub fn new(word: Word, nodes: NodeGroup<'a>) -> Self
        ensures { result ≡ (word, nodes.entry) }
    {
        WordNodes {
            word: HeldWord::Own { word },
            nodes,
        }
    }

    /// The word that is lent, with these nodes.
    pub fn lent(word: &'a [u8], nodes: NodeGroup<'a>) -> Self
        ensures { result ≡ (word.now, nodes.entry) }
    {
        WordNodes {
            word: HeldWord::Lent { bytes: word },
            nodes,
        }
    }

    /// The word's bytes.
    pub fn word(&self) -> &[u8]
        ensures { result.now ≡ self.now.0 }
    {
        match &self.word {
            HeldWord::Own { word } => word.as_bytes(),
            HeldWord::Lent { bytes } => bytes,
        }
    }

    /// The nodes, by ascending ids.
    pub fn nodes(&self) -> &[Node<'a>]
        ensures { result.now ≡ self.now.1 }
    {
        self.nodes.as_slice()
    }
}

/// Nodes of many words: each word once, in byte order, with its nodes.
pub type Nodes<'a> = Vec<WordNodes<'a>>;
