use fts_ilist::{Ilist, Node, NodeGroup, NodeList, Nodes, WordNodes};
use fts_ixcodec::{
    DecodeError, Entry, decode, encode, encode_sealed_into, entry_size, sealed_size, worked_size,
};
use fts_types::{Names, Settings, Word};
use std::alloc::{AllocError, Global};
use std::test::Fail;

// A batch through commit 1 and up to id 1: the word apple, in document 1 at the place 0.
const SEALED: [u8; 34] = [
    1, 0, 0, 0, 0, 0, 0, 0, 1, 0, 0, 0, 0, 0, 0, 0, 1, 0, 0, 0, 1, 5, 0x61, 0x70, 0x70, 0x6C, 0x65,
    0, 0, 0, 3, 0x81, 0x81, 0,
];

// Where its fields begin: the kind, through, synced, the count, the word's length, the word, the
// list's length, the list.
const FIELDS: &[usize] = &[0, 1, 9, 17, 21, 22, 27, 31];

// A batch through commit 258 and up to id 7, with two nodes of apple and one of it's.
const THREE: [u8; 59] = [
    1, 0, 0, 0, 0, 0, 0, 1, 2, 0, 0, 0, 0, 0, 0, 0, 7, 0, 0, 0, 3, 5, 0x61, 0x70, 0x70, 0x6C, 0x65,
    0, 0, 0, 3, 0x81, 0x81, 0, 5, 0x61, 0x70, 0x70, 0x6C, 0x65, 0, 0, 0, 3, 0x82, 0x81, 0, 4, 0x69,
    0x74, 0x27, 0x73, 0, 0, 0, 3, 0x81, 0x85, 0,
];

// The word apple of a pass, with two nodes.
const WORKED: [u8; 25] = [
    3, 5, 0x61, 0x70, 0x70, 0x6C, 0x65, 0, 0, 0, 2, 0, 0, 0, 3, 0x81, 0x81, 0, 0, 0, 0, 3, 0x82,
    0x81, 0,
];

// Settings that index words from `min` to `max` bytes.
fn settings(alloc: Global, min: u8, max: u8) -> Settings {
    Settings {
        columns: Names::new(alloc),
        min,
        max,
        stopword: true,
        optimize_words: 2_000,
        cache_bytes: 8_000_000,
        batch_docs: 1_000,
    }
}

// Whether an entry is encoded as these bytes.
fn is_spelled(alloc: Global, entry: &Entry, bytes: &[u8]) -> Result<bool, AllocError> {
    let Some(size) = entry_size(entry) else {
        return Ok(false);
    };
    if size >= 1 << 32 {
        return Ok(false);
    }
    let spelled = encode(alloc, entry)?;
    if size != bytes.len() as u64 {
        return Ok(false);
    }
    Ok(spelled.as_slice() == bytes)
}

// The entry in the bytes, which is encoded as the same bytes; None where there is none, at a place
// within them. Words have 1 to 84 bytes.
fn entry_in<'a>(alloc: Global, bytes: &'a [u8]) -> Result<Option<Entry<'a>>, Fail> {
    match decode(alloc, &settings(alloc, 1, 84), bytes) {
        Ok(entry) => {
            if !is_spelled(alloc, &entry, bytes)? {
                return Err(Fail::from("another spelling"));
            }
            Ok(Some(entry))
        }
        Err(DecodeError::Bad { at }) => {
            if at > bytes.len() {
                return Err(Fail::from("a place behind the bytes"));
            }
            Ok(None)
        }
        Err(DecodeError::NoMemory) => Err(Fail::from("no memory")),
    }
}

// Whether the bytes are refused at this place, or are an entry where it is None.
fn is_read(alloc: Global, settings: &Settings, bytes: &[u8], place: Option<usize>) -> bool {
    match decode(alloc, settings, bytes) {
        Ok(_) => place.is_none(),
        Err(DecodeError::Bad { at }) => place == Some(at),
        Err(DecodeError::NoMemory) => false,
    }
}

// The same where words have 1 to 84 bytes.
fn is_refused_at(alloc: Global, bytes: &[u8], place: usize) -> bool {
    is_read(alloc, &settings(alloc, 1, 84), bytes, Some(place))
}

// The bytes with another one at a place.
fn with_byte(alloc: Global, bytes: &[u8], place: usize, byte: u8) -> Result<Vec<u8>, AllocError> {
    let mut bytes = Vec::from_slice(alloc, bytes)?;
    if let Some(at) = bytes.get_mut(place) {
        *at = byte;
    }
    Ok(bytes)
}

// Whether nodes have one document each, with these ids.
fn have_ids(nodes: &[Node], ids: &[u64]) -> bool {
    if nodes.len() != ids.len() {
        return false;
    }
    for (node, id) in nodes.iter().zip(ids) {
        if (node.first(), node.last(), node.count()) != (*id, *id, 1) {
            return false;
        }
    }
    true
}

// Whether a batch has these words, each with nodes of these ids.
fn have_words(batch: &[WordNodes], words: &[(&[u8], &[u64])]) -> bool {
    if batch.len() != words.len() {
        return false;
    }
    for (group, want) in batch.iter().zip(words) {
        if group.word() != want.0 || !have_ids(group.nodes(), want.1) {
            return false;
        }
    }
    true
}

// Whether the bytes are a batch through this commit and up to this id, with these words.
fn is_batch(
    alloc: Global,
    bytes: &[u8],
    ends: (u64, u64),
    words: &[(&[u8], &[u64])],
) -> Result<bool, Fail> {
    match entry_in(alloc, bytes)? {
        Some(
            Entry::Sealed {
                through,
                synced,
                nodes,
            },
        ) => Ok((through, synced) == ends && have_words(&nodes, words)),
        _ => Ok(false),
    }
}

#[test]
fn decodes_a_batch(rt: HostRuntime) -> Result<(), Fail> {
    assert!(rt; is_batch(rt.alloc(), &SEALED, (1, 1), &[(b"apple", &[1])])?);
    Ok(())
}

// A word that stands twice is one word with two nodes.
#[test]
fn decodes_a_word_with_two_nodes(rt: HostRuntime) -> Result<(), Fail> {
    let words: [(&[u8], &[u64]); 2] = [(b"apple", &[1, 2]), (b"it's", &[1])];
    assert!(rt; is_batch(rt.alloc(), &THREE, (258, 7), &words)?);
    Ok(())
}

fn is_begun(alloc: Global, bytes: &[u8]) -> Result<bool, Fail> {
    Ok(matches!(entry_in(alloc, bytes)?, Some(Entry::Begun)))
}

fn is_finished(alloc: Global, bytes: &[u8]) -> Result<bool, Fail> {
    Ok(matches!(entry_in(alloc, bytes)?, Some(Entry::Finished)))
}

#[test]
fn decodes_the_begin_and_the_finish_of_a_pass(rt: HostRuntime) -> Result<(), Fail> {
    assert!(rt; is_begun(rt.alloc(), &[2])?);
    assert!(rt; is_finished(rt.alloc(), &[4])?);
    Ok(())
}

// Whether the bytes are a word of a pass, with so many nodes.
fn is_worked(alloc: Global, bytes: &[u8], want: &[u8], count: usize) -> Result<bool, Fail> {
    match entry_in(alloc, bytes)? {
        Some(Entry::Worked { word, nodes }) => {
            Ok(word.as_bytes() == want && nodes.as_slice().len() == count)
        }
        _ => Ok(false),
    }
}

#[test]
fn decodes_a_word_of_a_pass(rt: HostRuntime) -> Result<(), Fail> {
    assert!(rt; is_worked(rt.alloc(), &WORKED, b"apple", 2)?);
    assert!(rt; is_worked(rt.alloc(), &[3, 1, 0x61, 0, 0, 0, 0], b"a", 0)?);
    Ok(())
}

// The last field that begins within so many bytes.
fn field_at(cut: usize) -> usize {
    let mut field = 0;
    for begin in FIELDS {
        if *begin <= cut {
            field = *begin;
        }
    }
    field
}

#[test]
fn a_cut_payload_is_refused_at_the_field_that_is_cut(rt: HostRuntime) {
    for cut in 0..34 {
        let holds = is_refused_at(rt.alloc(), &SEALED[..cut], field_at(cut));
        assert!(rt; holds, "cut at {cut}");
    }
}

#[test]
fn a_longer_payload_is_refused_behind_its_last_field(rt: HostRuntime) -> Result<(), Fail> {
    let mut bytes = Vec::from_slice(rt.alloc(), &SEALED)?;
    bytes.push(0)?;
    assert!(rt; is_refused_at(rt.alloc(), &bytes, 34));
    assert!(rt; is_refused_at(rt.alloc(), &[2, 0], 1));
    assert!(rt; is_refused_at(rt.alloc(), &[4, 4], 1));
    Ok(())
}

// Each place with a byte that does not belong there, and where the payload is refused: the kind,
// the count, a word's length, a letter, an apostrophe at an end, a list's length, its bytes.
const WRONG: &[(usize, u8, usize)] = &[
    (0, 0, 0),
    (0, 5, 0),
    (0, 3, 1),
    (20, 0, 21),
    (20, 2, 34),
    (17, 1, 34),
    (21, 0, 21),
    (21, 85, 21),
    (21, 84, 22),
    (21, 6, 22),
    (22, 0x41, 22),
    (22, 0x27, 22),
    (24, 0x20, 22),
    (26, 0x27, 22),
    (30, 0, 31),
    (30, 2, 31),
    (30, 4, 31),
    (27, 1, 31),
    (31, 0x80, 31),
    (31, 1, 31),
    (32, 0, 31),
    (33, 0x81, 31),
];

// Whether the bytes are refused at a place where another one has this byte.
fn is_wrong(
    alloc: Global,
    bytes: &[u8],
    place: usize,
    byte: u8,
    at: usize,
) -> Result<bool, AllocError> {
    let bytes = with_byte(alloc, bytes, place, byte)?;
    Ok(is_refused_at(alloc, &bytes, at))
}

#[test]
fn a_wrong_byte_is_refused_at_its_field(rt: HostRuntime) -> Result<(), Fail> {
    for (place, byte, at) in WRONG {
        let holds = is_wrong(rt.alloc(), &SEALED, *place, *byte, *at)?;
        assert!(rt; holds, "{byte} at {place}");
    }
    Ok(())
}

// The second node of apple with an id that is not above the first one's, and words before it.
#[test]
fn nodes_out_of_order_are_refused(rt: HostRuntime) -> Result<(), Fail> {
    assert!(rt; is_wrong(rt.alloc(), &THREE, 44, 0x81, 44)?);
    assert!(rt; is_wrong(rt.alloc(), &THREE, 36, 0x6F, 35)?);
    assert!(rt; is_wrong(rt.alloc(), &THREE, 48, 0x5F, 48)?);
    Ok(())
}

// How many of the eight bits of a byte of SEALED can be flipped, so that the bytes are an entry. It
// is not the one that they were.
fn standing(alloc: Global, place: usize, byte: u8) -> Result<usize, Fail> {
    let mut count = 0usize;
    for mask in [1, 2, 4, 8, 16, 32, 64, 128] {
        let bytes = with_byte(alloc, &SEALED, place, byte ^ mask)?;
        if entry_in(alloc, &bytes)?.is_some() {
            count = count.saturating_add(1);
        }
    }
    Ok(count)
}

// How many bits of SEALED can be flipped, so that the bytes are an entry.
fn all_standing(alloc: Global) -> Result<usize, Fail> {
    let mut count = 0usize;
    for (place, &byte) in SEALED.iter().enumerate() {
        count = count.saturating_add(standing(alloc, place, byte)?);
    }
    Ok(count)
}

// By hand: each bit of through and of synced gives another batch, and so do 4, 5, 5, 4 and 5 bits
// of the letters, six of the id and six of the place.
#[test]
fn a_flipped_bit_is_refused_or_another_entry(rt: HostRuntime) -> Result<(), Fail> {
    assert!(rt; all_standing(rt.alloc())? == 128 + 23 + 12);
    Ok(())
}

// The word of a pass behind its length, which has so many bytes.
fn long_word(alloc: Global, count: u8) -> Result<Vec<u8>, AllocError> {
    let mut bytes = vec![in alloc; 3, count]?;
    for _ in 0..count {
        bytes.push(0x7A)?;
    }
    bytes.extend_from_slice(&[0, 0, 0, 0])?;
    Ok(bytes)
}

// The shortest and the longest word, a word's length, and where it is refused.
const WORD_LENGTHS: &[(u8, u8, u8, Option<usize>)] = &[
    (1, 84, 0, Some(1)),
    (1, 84, 1, None),
    (1, 84, 84, None),
    (1, 84, 85, Some(1)),
    (3, 10, 2, Some(1)),
    (3, 10, 3, None),
    (3, 10, 10, None),
    (3, 10, 11, Some(1)),
];

#[test]
fn a_word_has_the_length_of_an_indexed_word(rt: HostRuntime) -> Result<(), Fail> {
    for (min, max, count, place) in WORD_LENGTHS {
        let bytes = long_word(rt.alloc(), *count)?;
        let holds = is_read(
            rt.alloc(),
            &settings(rt.alloc(), *min, *max),
            &bytes,
            *place,
        );
        assert!(rt; holds, "{count} of {min} to {max}");
    }
    Ok(())
}

// Where words have at least five bytes, the third node of a batch, of it's, is at fault.
#[test]
fn a_short_word_of_a_batch_is_refused_at_its_length(rt: HostRuntime) {
    let settings = settings(rt.alloc(), 5, 10);
    assert!(rt; is_read(rt.alloc(), &settings, &SEALED, None));
    assert!(rt; is_read(rt.alloc(), &settings, &THREE, Some(47)));
}

// The list of one document with so many positions, and of a second one.
fn two_documents(alloc: Global, count: u32, second: bool) -> Result<Vec<u8>, AllocError> {
    let mut list = vec![in alloc; 0x81]?;
    for _ in 0..count {
        list.push(0x81)?;
    }
    list.push(0)?;
    if second {
        list.extend_from_slice(&[0x81, 0x81, 0])?;
    }
    Ok(list)
}

// The word a of a pass with one node, whose list is this.
fn worked(alloc: Global, list: &[u8]) -> Result<Vec<u8>, Fail> {
    if list.len() >= 65_536 {
        return Err(Fail::from("a long list"));
    }
    let mut bytes = Vec::from_slice(alloc, &[3, 1, 0x61, 0, 0, 0, 1])?;
    bytes.extend_from_slice(&(list.len() as u32).to_be_bytes())?;
    bytes.extend_from_slice(list)?;
    Ok(bytes)
}

// Whether a node is refused at a place: of a document with so many positions, and of a second one.
fn is_node(alloc: Global, count: u32, second: bool, place: Option<usize>) -> Result<bool, Fail> {
    let list = two_documents(alloc, count, second)?;
    let bytes = worked(alloc, &list)?;
    Ok(is_read(alloc, &settings(alloc, 1, 84), &bytes, place))
}

#[test]
fn a_node_of_several_documents_has_at_most_8192_bytes(rt: HostRuntime) -> Result<(), Fail> {
    assert!(rt; is_node(rt.alloc(), 8187, true, None)?);
    assert!(rt; is_node(rt.alloc(), 8188, true, Some(11))?);
    assert!(rt; is_node(rt.alloc(), 8191, false, None)?);
    assert!(rt; is_node(rt.alloc(), 9000, false, None)?);
    Ok(())
}

// A batch of one word, in the document 1 at the place 0.
fn one_word(alloc: Global, word: &[u8]) -> Result<Nodes<'static>, AllocError> {
    let mut list = Ilist::new(alloc);
    list.push(1, &[0])?;
    let nodes = vec![in alloc; Node::new(list)]?;
    let nodes = NodeGroup::of(nodes);
    Ok(vec![in alloc; WordNodes::new(Word::copied(alloc, word)?, nodes)]?)
}

// Whether a batch is written as SEALED. The bytes behind a payload stay as they are.
fn is_written(batch: &[WordNodes]) -> bool {
    let Some(size) = sealed_size(batch) else {
        return false;
    };
    if size > 36 {
        return false;
    }
    let mut buf = [7; 36];
    let written = encode_sealed_into(1, 1, batch, &mut buf);
    written == 34 && buf.starts_with(&SEALED) && buf.ends_with(&[7, 7])
}

#[test]
fn a_batch_is_written_at_the_head_of_a_buffer(rt: HostRuntime) -> Result<(), Fail> {
    let nodes = one_word(rt.alloc(), b"apple")?;
    assert!(rt; is_written(&nodes));
    Ok(())
}

// Whether a batch of one word has this size.
fn has_size(alloc: Global, word: &[u8], size: Option<u64>) -> Result<bool, AllocError> {
    let nodes = one_word(alloc, word)?;
    Ok(sealed_size(&nodes) == size)
}

#[test]
fn a_word_above_255_bytes_has_no_size(rt: HostRuntime) -> Result<(), Fail> {
    assert!(rt; has_size(rt.alloc(), &[0x61; 256], None)?);
    assert!(rt; has_size(rt.alloc(), &[0x61; 255], Some(284))?);
    let none = NodeList::new(rt.alloc());
    assert!(rt; worked_size(&[0x61; 256], none.as_slice()).is_none());
    assert!(rt; worked_size(b"apple", none.as_slice()) == Some(11));
    Ok(())
}
