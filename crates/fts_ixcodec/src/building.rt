//! The nodes of a batch, as they are read one by one.
ghost use Rattle.std.specs.Prelude.{◌≡◌, ◌++◌, OnOk, IfOk};
ghost use Rattle.fts_types.specs.Rules.{rules_of};
ghost use Rattle.fts_ixcodec.specs.Building.{nothing, group_of, batch_of, turned_to, with_node};
ghost use Rattle.fts_codec.specs.Fault.{Gives};
ghost use Rattle.fts_ixcodec.specs.Reading.{more_at, node_at, one_at, many_at, batch_at, lists_at};

use crate::lists::list_at;
use crate::words::word_at;
use fts_codec::Fault;
use fts_ilist::{Node, NodeGroup, Nodes, WordNodes};
use fts_types::{DocId, Settings};
use std::alloc::{AllocError, Global};
use std::marker::Model;
use std::mem;

/// Words with their nodes, of which the last may get more. They borrow the bytes that they are read
/// from.
#[derive(Drop)]
pub(crate) struct Building<'a> {
    closed: Nodes<'a>,
    word: &'a [u8],
    nodes: NodeGroup<'a>,
    // The last id of the last word's nodes.
    last: DocId,
}

impl<'a> Model for Building<'a> {
    ghost use Rattle.fts_ixcodec.specs.Building as building;

    ghost Value = { building.Building };

    ghost view = { λ b. record {
      closed = b.closed.items;
      word = b.word.now;
      nodes = b.nodes;
      last = b.last;
    } };
}

/// Puts a word behind others, where it has nodes.
fn close<'a>(closed: &mut Nodes<'a>, word: &'a [u8], nodes: NodeGroup<'a>) -> Result<(), AllocError>
    ensures { OnOk result (closed.new.items
        ≡ closed.old.items ++ group_of word.now nodes.entry) }
{
    if nodes.is_empty() {
        return Ok(());
    }
    closed.push(WordNodes::lent(word, nodes))?;
    Ok(())
}

impl<'a> Building<'a> {
    /// Before the first node.
    fn new(alloc: Global) -> Self
        ensures { result ≡ nothing }
    {
        Building {
            closed: Vec::new(alloc),
            word: &[],
            nodes: NodeGroup::new(alloc),
            last: 0,
        }
    }

    /// Takes a word, the last one or another.
    fn turn_to(&mut self, alloc: Global, word: &'a [u8]) -> Result<(), AllocError>
        ensures { OnOk result (self.new ≡ turned_to self.old word.now) }
    {
        if self.word == word {
            return Ok(());
        }
        let word = mem::replace(&mut self.word, word);
        let nodes = mem::replace(&mut self.nodes, NodeGroup::new(alloc));
        self.last = 0;
        close(&mut self.closed, word, nodes)
    }

    /// Takes a node of the last word.
    fn push(&mut self, alloc: Global, node: Node<'a>) -> Result<(), AllocError>
        ensures { OnOk result (self.new ≡ with_node self.old node.entry) }
    {
        self.last = node.last();
        self.nodes.push(alloc, node)?;
        Ok(())
    }

    /// Takes the node of the last word whose list begins the bytes, and gives what is behind it.
    #[tactic(auto, unfolding(crate::specs::Reading::more_at))]
    fn take_list(&mut self, alloc: Global, bytes: &'a [u8]) -> Result<&'a [u8], Fault>
        ensures { Gives (λ rest. (self.new, rest.now)) result (more_at self.old bytes.now) }
    {
        let (node, rest) = list_at(self.last, bytes)?;
        self.push(alloc, node)?;
        Ok(rest)
    }

    /// Takes the node that begins the bytes, with its word, and gives what stands behind it.
    #[tactic(auto, unfolding(crate::specs::Reading::node_at))]
    fn take_node(
        &mut self,
        alloc: Global,
        settings: &Settings,
        bytes: &'a [u8],
    ) -> Result<&'a [u8], Fault>
        ensures { Gives (λ rest. (self.new, rest.now)) result
            (node_at (rules_of settings.now) self.old bytes.now) }
    {
        let (word, rest) = word_at(settings, self.word, bytes)?;
        self.turn_to(alloc, word)?;
        self.take_list(alloc, rest)
    }

    /// Takes a node behind its word or, of the last word, without it.
    fn take(
        &mut self,
        alloc: Global,
        settings: &Settings,
        worded: bool,
        bytes: &'a [u8],
    ) -> Result<&'a [u8], Fault>
        ensures { Gives (λ rest. (self.new, rest.now)) result
            (one_at (rules_of settings.now) worded self.old bytes.now) }
    {
        if worded {
            return self.take_node(alloc, settings, bytes);
        }
        self.take_list(alloc, bytes)
    }

    /// All nodes.
    fn into_batch(self) -> Result<Nodes<'a>, AllocError>
        ensures { IfOk result (λ nodes. nodes.items ≡ batch_of self.entry) }
    {
        let Building {
            mut closed,
            word,
            nodes,
            ..
        } = self;
        close(&mut closed, word, nodes)?;
        Ok(closed)
    }

    /// The nodes of the last word.
    fn into_nodes(self) -> NodeGroup<'a>
        ensures { result ≡ self.entry.nodes }
    {
        let Building { nodes, .. } = self;
        nodes
    }
}

/// So many nodes, each behind its word or all of one word.
fn many_at<'a>(
    alloc: Global,
    settings: &Settings,
    worded: bool,
    count: u32,
    bytes: &'a [u8],
) -> Result<(Building<'a>, &'a [u8]), Fault>
    ensures { Gives (λ x. (x.0, x.1.now)) result
        (many_at (one_at (rules_of settings.now) worded) count nothing bytes.now) }
{
    let mut building = Building::new(alloc);
    let mut rest = bytes;
    for _ in 0..count {
        rest = building.take(alloc, settings, worded, rest)?;
    }
    Ok((building, rest))
}

/// So many nodes, each behind its word, as a batch.
#[tactic(auto, unfolding(crate::specs::Reading::batch_at))]
pub(crate) fn batch_at<'a>(
    alloc: Global,
    settings: &Settings,
    count: u32,
    bytes: &'a [u8],
) -> Result<(Nodes<'a>, &'a [u8]), Fault>
    ensures { Gives (λ x. (x.0.items, x.1.now)) result
        (batch_at (rules_of settings.now) count bytes.now) }
{
    let (building, rest) = many_at(alloc, settings, true, count, bytes)?;
    Ok((building.into_batch()?, rest))
}

/// So many nodes of one word, by ascending ids.
#[tactic(auto, unfolding(crate::specs::Reading::lists_at))]
pub(crate) fn lists_at<'a>(
    alloc: Global,
    settings: &Settings,
    count: u32,
    bytes: &'a [u8],
) -> Result<(NodeGroup<'a>, &'a [u8]), Fault>
    ensures { Gives (λ x. (x.0, x.1.now)) result (lists_at count bytes.now) }
{
    let (building, rest) = many_at(alloc, settings, false, count, bytes)?;
    Ok((building.into_nodes(), rest))
}
