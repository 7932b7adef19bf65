ghost use Rattle.std.specs.Prelude.{◌≡◌, ◌+◌, ◌≤◌, ◌++◌, ◌∷◌, length, IfOk};
ghost use Rattle.std.specs.Int.{w32, w64, to_be_bytes};
ghost use Rattle.fts_codec.specs.Writing.{Puts};
ghost use Rattle.fts_entries.specs.Entry.IndexEntry.{sealed, begun, worked, finished};
ghost use Rattle.fts_ixcodec.specs.Payload.{entry_payload, word_payload, FitsRecord};
ghost use Rattle.fts_ixcodec.specs.Seen.{seen};

use crate::entry::Entry;
use crate::measure::{entry_size, node_count};
use crate::writing::{put_batch, put_lists, put_word};
use fts_codec::{put_u8, put_u32, put_u64};
use fts_ilist::{NodeSlice, WordNodes};
use fts_types::DocId;
use std::alloc::{AllocError, Global};

/// What stands in front of the nodes of a batch.
fn put_marks(buf: &mut [u8], through: u64, synced: DocId, count: u32) -> usize
    requires { 21 ≤ length buf.old }
    ensures { Puts (1 ∷ (to_be_bytes w64 through
        ++ (to_be_bytes w64 synced ++ to_be_bytes w32 count))) buf.old buf.new result }
{
    let mut at = put_u8(buf, 1);
    at += put_u64(&mut buf[at..], through);
    at += put_u64(&mut buf[at..], synced);
    at + put_u32(&mut buf[at..], count)
}

/// Writes the payload of a batch at the head of a buffer: through which commit and up to which id
/// it flushes, and its nodes. It returns how many bytes that are, and takes no memory. The batch
/// can be written, and needs so many bytes, where `sealed_size(nodes)` gives a count below 2^32.
pub fn encode_sealed_into(through: u64, synced: DocId, nodes: &[WordNodes], buf: &mut [u8]) -> usize
    requires fits { FitsRecord (sealed through synced nodes.now) }
    requires room { length (entry_payload (sealed through synced nodes.now)) ≤ length buf.old }
    ensures { Puts (entry_payload (sealed through synced nodes.now)) buf.old buf.new result }
{
    let at = put_marks(buf, through, synced, node_count(nodes));
    at + put_batch(&mut buf[at..], nodes)
}

/// Writes the payload of the begin of a pass at the head of a buffer, and returns how many bytes
/// that are. It takes no memory.
pub fn encode_begun_into(buf: &mut [u8]) -> usize
    requires { length (entry_payload begun) ≤ length buf.old }
    ensures { Puts (entry_payload begun) buf.old buf.new result }
{
    put_u8(buf, 2)
}

/// What stands in front of the nodes of a word of a pass.
fn put_name(buf: &mut [u8], word: &[u8], count: u32) -> usize
    requires short { length word.now ≤ 255 }
    requires room { length word.now + 6 ≤ length buf.old }
    ensures { Puts (3 ∷ (word_payload word.now ++ to_be_bytes w32 count))
        buf.old buf.new result }
{
    let mut at = put_u8(buf, 3);
    at += put_word(&mut buf[at..], word);
    at + put_u32(&mut buf[at..], count)
}

/// Writes the payload of a word of a pass at the head of a buffer: the word, and the nodes that it
/// has from then on. It returns how many bytes that are, and takes no memory.
pub fn encode_worked_into(word: &[u8], nodes: NodeSlice<'_>, buf: &mut [u8]) -> usize
    requires fits { FitsRecord (worked word.now nodes) }
    requires room { length (entry_payload (worked word.now nodes)) ≤ length buf.old }
    ensures { Puts (entry_payload (worked word.now nodes.entry)) buf.old buf.new result }
{
    let at = put_name(buf, word, nodes.len() as u32);
    at + put_lists(&mut buf[at..], nodes)
}

/// Writes the payload of the finish of a pass at the head of a buffer, and returns how many bytes
/// that are. It takes no memory.
pub fn encode_finished_into(buf: &mut [u8]) -> usize
    requires { length (entry_payload finished) ≤ length buf.old }
    ensures { Puts (entry_payload finished) buf.old buf.new result }
{
    put_u8(buf, 4)
}

/// Writes the payload of an entry.
fn put_entry(buf: &mut [u8], entry: &Entry) -> usize
    requires fits { FitsRecord (seen entry.now) }
    requires room { length (entry_payload (seen entry.now)) ≤ length buf.old }
    ensures { Puts (entry_payload (seen entry.now)) buf.old buf.new result }
{
    match entry {
        Entry::Sealed {
            through,
            synced,
            nodes,
        } => encode_sealed_into(*through, *synced, nodes, buf),
        Entry::Begun => encode_begun_into(buf),
        Entry::Worked { word, nodes } => {
            encode_worked_into(word.as_bytes(), nodes.as_slice(), buf)
        }
        Entry::Finished => encode_finished_into(buf),
    }
}

/// The payload of an entry that a record of the log can hold: `entry_size` is below 2^32.
pub fn encode(alloc: Global, entry: &Entry) -> Result<Vec<u8>, AllocError>
    requires { FitsRecord (seen entry.now) }
    ensures { IfOk result (λ bytes. bytes.items ≡ entry_payload (seen entry.now)) }
{
    let size = match entry_size(entry) {
        Some(size) => size,
        None => unreachable!(),
    };
    let mut bytes = vec![in alloc; 0; size as usize]?;
    put_entry(&mut bytes, entry);
    Ok(bytes)
}
