//! How many bytes payloads have.
ghost use Rattle.std.specs.Prelude.{◌≡◌, ◌<◌, ◌≤◌, ◌+◌, ◌^◌, ℕ, length, IfSome, IfNone};
ghost use Rattle.std.specs.List.{flat_map};
ghost use Rattle.fts_entries.specs.Entry.IndexEntry.{sealed, worked};
ghost use Rattle.fts_ixcodec.specs.Payload.{list_payload, nodes_payload, node_count};
ghost use Rattle.fts_ixcodec.specs.Payload.{HasShortWord, HasSize, HasNoSize};
ghost use Rattle.fts_ixcodec.specs.Measure.{IsSum};
ghost use Rattle.fts_ixcodec.specs.Seen.{seen};

use crate::entry::Entry;
use fts_ilist::{NodeSlice, WordNodes};

/// How many bytes a batch has in front of its nodes: its kind, two numbers of eight bytes, and one
/// of four.
const SEALED: u64 = 21;

/// How many bytes a word of a pass has beside its word and its nodes.
const WORKED: usize = 6;

/// How many bytes a list has beside those of its documents.
const LIST: usize = 4;

/// How many bytes the longest word has whose length fits one byte.
const LONGEST: usize = 255;

/// The sum, where a `u64` can hold it.
fn add_size(size: u64, more: usize) -> Option<u64>
    ensures some { IfSome result (λ sum. sum ≡ size + more) }
    ensures none { IfNone result (2 ^ 64 ≤ size + more) }
{
    size.checked_add(more as u64)
}

/// How many bytes there are with the nodes of a word.
fn nodes_size(start: u64, group: &WordNodes) -> Option<u64>
    requires { HasShortWord group.now }
    ensures some { IfSome result (IsSum start (nodes_payload group.now)) }
    ensures none { IfNone result (2 ^ 64 ≤ start + length (nodes_payload group.now)) }
{
    let beside = 1 + group.word().len() + LIST;
    let mut size = start;
    for node in group.nodes() {
        match add_size(size, beside + node.bytes().len()) {
            Some(sum) => size = sum,
            None => return None,
        }
    }
    Some(size)
}

/// How many bytes the payload of a batch has with these nodes. `None` exactly where one of the
/// words has more than 255 bytes, so that the batch has no payload, or where a `u64` can't hold the
/// count. An indexed word has at most 84. A record of the log holds less than 2^32 bytes.
pub fn sealed_size(nodes: &[WordNodes]) -> Option<u64>
    ensures some { IfSome result (λ size. (through : ℕ) → (synced : ℕ)
        → HasSize (sealed through synced nodes.now) size) }
    ensures none { IfNone result ((through : ℕ) → (synced : ℕ)
        → HasNoSize (sealed through synced nodes.now)) }
{
    let mut size = SEALED;
    for group in nodes {
        if group.word().len() > LONGEST {
            return None;
        }
        match nodes_size(size, group) {
            Some(sum) => size = sum,
            None => return None,
        }
    }
    Some(size)
}

/// How many nodes a batch has.
pub(crate) fn node_count(nodes: &[WordNodes]) -> u32
    requires { length (flat_map nodes_payload nodes.now) < 2 ^ 32 }
    ensures { result ≡ node_count nodes.now }
{
    let mut count = 0;
    for group in nodes {
        count += group.nodes().len();
    }
    count as u32
}

/// How many bytes there are with the lists of nodes.
fn lists_size(start: u64, nodes: NodeSlice<'_>) -> Option<u64>
    ensures some { IfSome result (IsSum start (flat_map list_payload nodes.entry)) }
    ensures none { IfNone result (2 ^ 64 ≤ start + length (flat_map list_payload nodes.entry)) }
{
    let mut size = start;
    for node in nodes {
        match add_size(size, LIST + node.bytes().len()) {
            Some(sum) => size = sum,
            None => return None,
        }
    }
    Some(size)
}

/// How many bytes the payload of a word of a pass has with these nodes. `None` as for a batch.
pub fn worked_size(word: &[u8], nodes: NodeSlice<'_>) -> Option<u64>
    ensures some { IfSome result (HasSize (worked word.now nodes.entry)) }
    ensures none { IfNone result (HasNoSize (worked word.now nodes.entry)) }
{
    if word.len() > LONGEST {
        return None;
    }
    lists_size((WORKED + word.len()) as u64, nodes)
}

/// How many bytes the payload of an entry has. `None` as for a batch.
pub fn entry_size(entry: &Entry) -> Option<u64>
    ensures some { IfSome result (HasSize (seen entry.now)) }
    ensures none { IfNone result (HasNoSize (seen entry.now)) }
{
    match entry {
        Entry::Sealed { nodes, .. } => sealed_size(nodes),
        Entry::Begun => Some(1),
        Entry::Worked { word, nodes } => worked_size(word.as_bytes(), nodes.as_slice()),
        Entry::Finished => Some(1),
    }
}
