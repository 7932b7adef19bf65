ghost use Rattle.std.specs.Prelude.{◌^◌, ◌<◌, OnOk};
ghost use Rattle.fts_aux.specs.Tables.{HasRoom};

mod checks;

use checks::{are_after, ascend, come_after};
use fts_aux::Tables;
use fts_ilist::{Ilist, Node, NodeGroup, NodeList, NodeSlice, Nodes, WordNodes};
use fts_types::Word;
use std::alloc::{AllocError, Global};
use std::collections::BTreeMap;
use std::test::Fail;

// Words of all six tables, in byte order. The last one stands in the first table, behind all
// others.
const WORDS: &[&[u8]] = &[
    b"9ab",
    b"_x",
    b"apple",
    b"apply",
    b"fig",
    b"jay",
    b"kiwi",
    b"owl",
    b"pear",
    b"tea",
    b"urn",
    b"yak",
    b"\xc3\xa9t",
];

// Words that are reworked, with the first ids of their new nodes.
const REWORKED: &[(&[u8], &[u32])] = &[
    (b"9ab", &[]),
    (b"apple", &[4]),
    (b"fig", &[1, 70, 800]),
    (b"owl", &[]),
    (b"yak", &[30, 31]),
];

// What tables hold, as each word with the first ids of its nodes.
type Plain = BTreeMap<Word, Vec<u64>>;

// A node of one document.
fn node(alloc: Global, id: u64) -> Result<Node<'static>, Fail>
    requires positive { 0 < id }
    requires limit { id < 2 ^ 63 }
{
    let mut list = Ilist::new(alloc);
    list.push(id, &[7])?;
    Ok(Node::new(list))
}

// Whether tables show no word, and no nodes of `apple`.
fn are_empty(alloc: Global, tables: &Tables) -> Result<bool, AllocError> {
    let first = Word::copied(alloc, b"")?;
    Ok(
        tables.nodes_of(b"apple").is_empty()
            && tables.next_after(&first).is_none()
            && tables.with_prefix(alloc, b"a")?.is_empty()
            && !tables.has_loose(),
    )
}

// Room for a word doesn't make it a word of the tables.
#[test]
fn a_word_with_room_alone_does_not_show(rt: HostRuntime) -> Result<(), Fail> {
    let alloc = rt.alloc();
    let mut tables = Tables::new(alloc);
    let nodes = NodeGroup::of(vec![in alloc; node(alloc, 5)?]?);
    let batch = vec![in alloc; WordNodes::new(Word::copied(alloc, b"apple")?, nodes)]?;
    tables.reserve(&batch)?;
    assert!(rt; are_empty(alloc, &tables)?);
    Ok(())
}

// Whether nodes of one document each have these ids.
fn have_ids(nodes: NodeSlice<'_>, ids: &[u64]) -> bool {
    if nodes.len() != ids.len() {
        return false;
    }
    for (node, id) in nodes.zip(ids) {
        if (node.cursor().doc(), node.count()) != (Some(*id), 1) {
            return false;
        }
    }
    true
}

// Whether the tables have this word behind the one before, with these nodes.
fn holds(tables: &Tables, before: &Word, word: &Word, ids: &[u64]) -> bool {
    match tables.next_after(before) {
        Some(next) => next == word && have_ids(tables.nodes_of(word.as_bytes()), ids),
        None => false,
    }
}

// Whether the tables have these words, one after another, with these nodes, and no others.
fn hold_all(alloc: Global, tables: &Tables, plain: &Plain) -> Result<bool, AllocError> {
    let mut before = Word::copied(alloc, b"")?;
    for (word, ids) in plain {
        if !holds(tables, &before, word, ids) {
            return Ok(false);
        }
        before = Word::copied(alloc, word.as_bytes())?;
    }
    Ok(tables.next_after(&before).is_none())
}

// Whether a walk goes from the word before to this one, with these nodes.
fn walks(tables: &Tables, before: &Word, word: &Word, ids: &[u64]) -> bool {
    match tables.next_entry(before) {
        Some((next, nodes)) => next == word && have_ids(nodes, ids),
        None => false,
    }
}

// Whether a walk gives these words, one after another, with these nodes, and no others.
fn walks_all(alloc: Global, tables: &Tables, plain: &Plain) -> Result<bool, AllocError> {
    let mut before = Word::copied(alloc, b"")?;
    for (word, ids) in plain {
        if !walks(tables, &before, word, ids) {
            return Ok(false);
        }
        before = Word::copied(alloc, word.as_bytes())?;
    }
    Ok(tables.next_entry(&before).is_none())
}

// Notes one more node of a word.
fn note(alloc: Global, plain: &mut Plain, word: &[u8], id: u64) -> Result<(), Fail> {
    let key = Word::copied(alloc, word)?;
    match plain.get_mut(&key) {
        Some(ids) => ids.push(id)?,
        None => {
            plain.insert(key, vec![in alloc; id]?)?;
        }
    }
    Ok(())
}

// The nodes of a word in a batch of a turn: none, one, or two, which are noted.
fn nodes(
    alloc: Global,
    plain: &mut Plain,
    turn: u32,
    place: usize,
    word: &[u8],
) -> Result<NodeGroup<'static>, Fail> {
    let mut nodes = Vec::new(alloc);
    for part in 0..(u64::from(turn) + place as u64 % 7) % 3 {
        let id = u64::from(turn) * 10 + part + 1;
        nodes.push(node(alloc, id)?)?;
        note(alloc, plain, word, id)?;
    }
    Ok(NodeGroup::of(nodes))
}

// A batch of nodes of all words, which are noted.
fn batch(alloc: Global, plain: &mut Plain, turn: u32) -> Result<Nodes<'static>, Fail> {
    let mut batch = Vec::new(alloc);
    for (place, word) in WORDS.iter().enumerate() {
        let nodes = nodes(alloc, plain, turn, place, word)?;
        batch.push(WordNodes::new(Word::copied(alloc, word)?, nodes))?;
    }
    Ok(batch)
}

// How many nodes the tables hold for the words of a batch.
fn counts(alloc: Global, tables: &Tables, batch: &[WordNodes]) -> Result<Vec<usize>, Fail> {
    let mut counts = Vec::new(alloc);
    for group in batch {
        counts.push(tables.nodes_of(group.word()).len())?;
    }
    Ok(counts)
}

// Makes room for a batch, which comes behind what is held. The tables hold what they held, with or
// without memory.
fn make_room(alloc: Global, tables: &mut Tables, batch: &[WordNodes]) -> Result<(), Fail>
    ensures { OnOk result (HasRoom tables.new batch.now) }
{
    let held = counts(alloc, tables, batch)?;
    let reserved = tables.reserve(batch);
    if counts(alloc, tables, batch)? != held {
        return Err(Fail::from("tables that are not as before"));
    }
    if !reserved? {
        return Err(Fail::from("a batch that is not behind"));
    }
    Ok(())
}

// Makes room for a batch, and installs it.
fn install(alloc: Global, tables: &mut Tables, batch: &[WordNodes]) -> Result<(), Fail> {
    make_room(alloc, tables, batch)?;
    if !ascend(batch) {
        return Err(Fail::from("words out of order"));
    }
    if !come_after(tables, batch) {
        return Err(Fail::from("ids that are not behind"));
    }
    tables.install_batch(batch);
    Ok(())
}

// Tables with four batches, which are noted.
fn filled(alloc: Global, plain: &mut Plain) -> Result<Tables, Fail> {
    let mut tables = Tables::new(alloc);
    for turn in 1..5 {
        let batch = batch(alloc, plain, turn)?;
        install(alloc, &mut tables, &batch)?;
    }
    Ok(tables)
}

// A batch whose ids are not above those that are held is told.
#[test]
fn a_batch_that_comes_again_is_not_behind(rt: HostRuntime) -> Result<(), Fail> {
    let alloc = rt.alloc();
    let mut plain = BTreeMap::new(alloc);
    let mut tables = filled(alloc, &mut plain)?;
    let again = batch(alloc, &mut plain, 4)?;
    assert!(rt; !tables.reserve(&again)?);
    Ok(())
}

#[test]
fn a_batch_lies_behind_what_is_held(rt: HostRuntime) -> Result<(), Fail> {
    let alloc = rt.alloc();
    let mut plain = BTreeMap::new(alloc);
    let tables = filled(alloc, &mut plain)?;
    assert!(rt; plain.len() == 13);
    assert!(rt; hold_all(alloc, &tables, &plain)?);
    Ok(())
}

#[test]
fn a_walk_goes_over_all_words_in_byte_order(rt: HostRuntime) -> Result<(), Fail> {
    let alloc = rt.alloc();
    let mut plain = BTreeMap::new(alloc);
    let tables = filled(alloc, &mut plain)?;
    assert!(rt; tables.has_loose());
    assert!(rt; walks_all(alloc, &tables, &plain)?);
    Ok(())
}

// Whether the words that begin with `app` are these, each with so many nodes.
fn finds(alloc: Global, tables: &Tables, want: &[(&[u8], usize)]) -> Result<bool, AllocError> {
    let found = tables.with_prefix(alloc, b"app")?;
    if found.len() != want.len() {
        return Ok(false);
    }
    for (entry, want) in found.iter().zip(want) {
        if (entry.0.as_bytes(), entry.1.len()) != *want {
            return Ok(false);
        }
    }
    Ok(true)
}

#[test]
fn a_prefix_finds_the_words_that_have_nodes(rt: HostRuntime) -> Result<(), Fail> {
    let alloc = rt.alloc();
    let mut plain = BTreeMap::new(alloc);
    let tables = filled(alloc, &mut plain)?;
    assert!(rt; finds(alloc, &tables, &[(b"apple", 3), (b"apply", 4)])?);
    Ok(())
}

// Replaces the nodes of a word by those that begin with these ids, which are noted in place of the
// old ones.
fn rework(
    alloc: Global,
    tables: &mut Tables,
    plain: &mut Plain,
    word: &[u8],
    ids: &[u32],
) -> Result<(), Fail> {
    let key = Word::copied(alloc, word)?;
    plain.remove(&key);
    let mut nodes = Vec::new(alloc);
    for id in ids {
        let id = u64::from(*id) + 1;
        nodes.push(node(alloc, id)?)?;
        note(alloc, plain, word, id)?;
    }
    if !are_after(0, &nodes) {
        return Err(Fail::from("ids that do not ascend"));
    }
    if tables.nodes_of(word).is_empty() {
        return Err(Fail::from("a word without nodes"));
    }
    let nodes = NodeList::of(alloc, &nodes)?;
    tables.install_word(&key, nodes);
    Ok(())
}

#[test]
fn a_reworked_word_has_its_new_nodes_alone(rt: HostRuntime) -> Result<(), Fail> {
    let alloc = rt.alloc();
    let mut plain = BTreeMap::new(alloc);
    let mut tables = filled(alloc, &mut plain)?;
    for (word, ids) in REWORKED {
        rework(alloc, &mut tables, &mut plain, word, ids)?;
    }
    assert!(rt; plain.len() == 11);
    assert!(rt; hold_all(alloc, &tables, &plain)?);
    Ok(())
}
