//! Writers at the head of a buffer: each says how many bytes it wrote. None takes memory.
ghost use Rattle.std.specs.Prelude.{◌<◌, ◌≤◌, ◌^◌, ◌++◌, All, length};
ghost use Rattle.std.specs.List.{flat_map};
ghost use Rattle.std.specs.Int.{w32, to_be_bytes};
ghost use Rattle.fts_codec.specs.Writing.{Puts};
ghost use Rattle.fts_ixcodec.specs.Payload.{word_payload, list_payload, node_payload};
ghost use Rattle.fts_ixcodec.specs.Payload.{nodes_payload, HasShortWord};

use fts_codec::{put_bytes, put_u8, put_u32};
use fts_ilist::{Node, NodeSlice, WordNodes};

/// A word: its length in one byte, and its bytes.
pub(crate) fn put_word(buf: &mut [u8], word: &[u8]) -> usize
    requires short { length word.now ≤ 255 }
    requires room { length (word_payload word.now) ≤ length buf.old }
    ensures { Puts (word_payload word.now) buf.old buf.new result }
{
    let at = put_u8(buf, word.len() as u8);
    at + put_bytes(&mut buf[at..], word)
}

/// A list: its length in four bytes, and its bytes.
fn put_list(buf: &mut [u8], list: &[u8]) -> usize
    requires short { length list.now < 2 ^ 32 }
    requires room { length (to_be_bytes w32 (length list.now) ++ list.now) ≤ length buf.old }
    ensures { Puts (to_be_bytes w32 (length list.now) ++ list.now) buf.old buf.new result }
{
    let at = put_u32(buf, list.len() as u32);
    at + put_bytes(&mut buf[at..], list)
}

/// A node of a batch: its word, and its list.
fn put_node(buf: &mut [u8], word: &[u8], node: &Node) -> usize
    requires word { length word.now ≤ 255 }
    requires short { length (node_payload word.now node.now) < 2 ^ 32 }
    requires room { length (node_payload word.now node.now) ≤ length buf.old }
    ensures { Puts (node_payload word.now node.now) buf.old buf.new result }
{
    let at = put_word(buf, word);
    at + put_list(&mut buf[at..], node.bytes())
}

/// The nodes of a word.
fn put_nodes(buf: &mut [u8], group: &WordNodes) -> usize
    requires word { HasShortWord group.now }
    requires short { length (nodes_payload group.now) < 2 ^ 32 }
    requires room { length (nodes_payload group.now) ≤ length buf.old }
    ensures { Puts (nodes_payload group.now) buf.old buf.new result }
{
    let word = group.word();
    let mut at = 0;
    for node in group.nodes() {
        at += put_node(&mut buf[at..], word, node);
    }
    at
}

/// The nodes of a batch.
pub(crate) fn put_batch(buf: &mut [u8], nodes: &[WordNodes]) -> usize
    requires words { All HasShortWord nodes.now }
    requires short { length (flat_map nodes_payload nodes.now) < 2 ^ 32 }
    requires room { length (flat_map nodes_payload nodes.now) ≤ length buf.old }
    ensures { Puts (flat_map nodes_payload nodes.now) buf.old buf.new result }
{
    let mut at = 0;
    for group in nodes {
        at += put_nodes(&mut buf[at..], group);
    }
    at
}

/// The lists of nodes.
pub(crate) fn put_lists(buf: &mut [u8], nodes: NodeSlice<'_>) -> usize
    requires short { length (flat_map list_payload nodes) < 2 ^ 32 }
    requires room { length (flat_map list_payload nodes) ≤ length buf.old }
    ensures { Puts (flat_map list_payload nodes.entry) buf.old buf.new result }
{
    let mut at = 0;
    for node in nodes {
        at += put_list(&mut buf[at..], node.bytes());
    }
    at
}
