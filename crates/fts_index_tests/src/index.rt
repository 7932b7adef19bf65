ghost use Rattle.std.specs.Prelude.{◌≡◌, ◌<◌, ◌^◌, [], ℕ, List, map, IfOk, OnOk};
ghost use Rattle.fts_types.specs.Rules.{rules_of};
ghost use Rattle.fts_types.specs.Row.{row_of};
ghost use Rattle.fts_entries.specs.Rows.{CanIndex};
ghost use Rattle.fts_index.specs.Births.{AreBirths};
ghost use Rattle.fts_index.specs.Made.{IsMade};

use fts_ids::IdList;
use fts_ilist::{Node, WordNodes};
use fts_index::Index;
use fts_listing::{Listing, ListingKind};
use fts_query::Leaf;
use fts_types::{Names, Row, RowTexts, Settings, Texts};
use std::alloc::{AllocError, Global};
use std::sync::Arc;
use std::test::Fail;

fn settings(alloc: Global) -> Settings
    ensures { 0 < result.min }
{
    Settings {
        columns: Names::new(alloc),
        min: 3,
        max: 84,
        stopword: true,
        optimize_words: 2_000,
        cache_bytes: 8_000_000,
        batch_docs: 1_000,
    }
}

// A row with these texts.
fn row(alloc: Global, doc: u64, texts: &[&[u8]]) -> Result<Row, Fail>
    requires { doc < 2 ^ 63 }
    ensures id { IfOk result (λ row. row.doc ≡ doc) }
    ensures can_index { IfOk result (λ row. CanIndex (row_of row)) }
{
    let mut columns = RowTexts::new(alloc);
    for text in texts {
        columns.push(text.to_vec(alloc)?)?;
    }
    if !columns.is_row() {
        return Err(Fail::from("texts of no row"));
    }
    let texts = match Arc::new(alloc, columns) {
        Ok(texts) => texts,
        Err(_) => return Err(Fail::from("no memory")),
    };
    Ok(Row {
        key: doc,
        doc,
        texts,
    })
}

// The rows 3 and 4.
fn first_rows(alloc: Global) -> Result<Vec<Row>, Fail>
    ensures { IfOk result (λ rows. AreBirths 0 4 (map row_of rows.items)) }
{
    let mut rows = Vec::new(alloc);
    rows.push(row(alloc, 3, &[b"Pear aaa'bbb, no", b"the apple"])?)?;
    rows.push(row(alloc, 4, &[b"apple-pie", b"ab pear"])?)?;
    Ok(rows)
}

// The row 900.
fn later_rows(alloc: Global) -> Result<Vec<Row>, Fail>
    ensures { IfOk result (λ rows. AreBirths 4 900 (map row_of rows.items)) }
{
    let mut rows = Vec::new(alloc);
    rows.push(row(alloc, 900, &[b"", b"PEAR pear"])?)?;
    Ok(rows)
}

// Commits the rows.
fn commit(index: &mut Index, settings: &Settings, births: &[Row], largest: u64) -> Result<(), Fail>
    requires { (last : ℕ) × (dead : List ℕ) × IsMade (rules_of settings.now) last dead index.old
        × AreBirths last largest (map row_of births.now) }
    ensures { OnOk result ((last : ℕ) (dead : List ℕ)
        → IsMade (rules_of settings.now) last dead index.old
        → AreBirths last largest (map row_of births.now)
        → IsMade (rules_of settings.now) largest dead index.new) }
{
    let plan = index.plan_commit(settings, births, &[], largest)?;
    index.install_commit(plan);
    Ok(())
}

// Makes the next batch, and says through which commit the index is flushed with it.
fn sync(index: &mut Index, settings: &Settings, batch_docs: u32) -> Result<Option<u64>, Fail>
    requires { (last : ℕ) × (dead : List ℕ) × IsMade (rules_of settings.now) last dead index.old }
    ensures { OnOk result ((last : ℕ) (dead : List ℕ)
        → IsMade (rules_of settings.now) last dead index.old
        → IsMade (rules_of settings.now) last dead index.new) }
{
    let planned = index.plan_sync(batch_docs)?;
    match planned {
        Some(plan) => {
            let through = plan.through();
            index.install_sync(plan);
            Ok(Some(through))
        }
        None => Ok(None),
    }
}

// Commits the rows 3 and 4, and then 900.
fn fill(alloc: Global, index: &mut Index, settings: &Settings) -> Result<(), Fail>
    requires { IsMade (rules_of settings.now) 0 [] index.old }
{
    let first = first_rows(alloc)?;
    commit(index, settings, &first, 4)?;
    let later = later_rows(alloc)?;
    commit(index, settings, &later, 900)?;
    Ok(())
}

// What a leaf asks for: one word, words that begin so, the words of a phrase, or nothing.
enum Asked {
    Word(&'static [u8]),
    Prefix(&'static [u8]),
    Words(&'static [&'static [u8]]),
    Nothing,
}

// The leaf of a phrase or a distance of these words.
fn words(alloc: Global, all: &[&[u8]]) -> Result<Leaf, AllocError> {
    let mut texts = Texts::new(alloc);
    for word in all {
        texts.push(word.to_vec(alloc)?)?;
    }
    Ok(Leaf::Words(texts))
}

fn leaf_of(alloc: Global, asked: &Asked) -> Result<Leaf, AllocError> {
    match asked {
        Asked::Word(word) => Ok(Leaf::Word(word.to_vec(alloc)?)),
        Asked::Prefix(word) => Ok(Leaf::Prefix(word.to_vec(alloc)?)),
        Asked::Words(all) => words(alloc, all),
        Asked::Nothing => Ok(Leaf::Nothing),
    }
}

fn are_ids(lists: &[IdList], want: &[u64]) -> bool {
    match lists {
        [one] => one.as_slice() == want,
        _ => false,
    }
}

// Whether what is asked for is these rows.
fn finds(alloc: Global, index: &Index, asked: &Asked, want: &[u64]) -> Result<bool, AllocError> {
    let leaf = leaf_of(alloc, asked)?;
    let gathered = index.gather(&[leaf])?;
    Ok(are_ids(&gathered.lists, want))
}

// Whether each of these finds its rows.
fn finds_all(alloc: Global, index: &Index, cases: &[(Asked, &[u64])]) -> Result<bool, AllocError> {
    for (asked, want) in cases {
        if !finds(alloc, index, asked, want)? {
            return Ok(false);
        }
    }
    Ok(true)
}

// What is found of three rows.
const ROWS: &[(Asked, &[u64])] = &[
    (Asked::Word(b"pear"), &[3, 4, 900]),
    (Asked::Word(b"aaa'bbb"), &[3]),
    (Asked::Word(b"the"), &[]),
    (Asked::Prefix(b"pi"), &[4]),
    (Asked::Nothing, &[]),
    (Asked::Words(&[b"apple", b"pear", b"pie"]), &[4]),
];

// Whether the rows of two commits are found in an index that was empty.
fn finds_rows(alloc: Global, index: &mut Index, settings: &Settings) -> Result<bool, Fail>
    requires { IsMade (rules_of settings.now) 0 [] index.old }
{
    fill(alloc, index, settings)?;
    Ok(finds_all(alloc, index, ROWS)?)
}

// A row alone.
fn one_row(alloc: Global, last: u64, doc: u64, text: &[u8]) -> Result<Vec<Row>, Fail>
    requires above { last < doc }
    requires limit { doc < 2 ^ 63 }
    ensures { IfOk result (λ rows. AreBirths last doc (map row_of rows.items)) }
{
    let mut rows = Vec::new(alloc);
    rows.push(row(alloc, doc, &[text])?)?;
    Ok(rows)
}

// Commits the row 1, `apple`, and then the row 2, `apple pie`.
fn add_apples(alloc: Global, index: &mut Index, settings: &Settings) -> Result<(), Fail>
    requires { IsMade (rules_of settings.now) 0 [] index.old }
    ensures { OnOk result (IsMade (rules_of settings.now) 2 [] index.new) }
{
    let first = one_row(alloc, 0, 1, b"apple")?;
    commit(index, settings, &first, 1)?;
    let second = one_row(alloc, 1, 2, b"apple pie")?;
    commit(index, settings, &second, 2)?;
    Ok(())
}

// What is found of these.
const APPLES: &[(Asked, &[u64])] = &[
    (Asked::Word(b"apple"), &[1, 2]),
    (Asked::Word(b"pie"), &[2]),
    (Asked::Prefix(b""), &[1, 2]),
    (Asked::Prefix(b"p"), &[2]),
];

// Whether both are found before the first of two batches, between them and behind them, and there
// is no third one.
fn finds_apples(alloc: Global, index: &mut Index, settings: &Settings) -> Result<bool, Fail>
    requires { IsMade (rules_of settings.now) 0 [] index.old }
{
    add_apples(alloc, index, settings)?;
    let before = finds_all(alloc, index, APPLES)?;
    let first = sync(index, settings, 1)?;
    let between = finds_all(alloc, index, APPLES)?;
    let second = sync(index, settings, 1)?;
    let behind = finds_all(alloc, index, APPLES)?;
    let third = sync(index, settings, 1)?;
    Ok(
        (before, between, behind) == (true, true, true)
            && [first, second, third] == [Some(1), Some(2), None],
    )
}

// The documents of nodes.
fn documents(nodes: &[Node]) -> usize {
    let mut documents: usize = 0;
    for node in nodes {
        documents = documents.saturating_add(node.count());
    }
    documents
}

// Whether words are these, each with so many nodes and documents.
fn are_words(words: &[WordNodes], want: &[(&[u8], usize, usize)]) -> bool {
    if words.len() != want.len() {
        return false;
    }
    for (found, row) in words.iter().zip(want) {
        if (found.word(), found.nodes().len(), documents(found.nodes())) != *row {
            return false;
        }
    }
    true
}

// Whether these words are listed.
fn lists(
    index: &Index,
    settings: &Settings,
    kind: ListingKind,
    want: &[(&[u8], usize, usize)],
) -> Result<bool, AllocError> {
    match index.listing(settings, kind)? {
        Listing::Words { words } => Ok(are_words(words.as_slice(), want)),
        _ => Ok(false),
    }
}

// Whether the nodes of both are in the cache before two batches, and in the tables behind them.
fn lists_apples(alloc: Global, index: &mut Index, settings: &Settings) -> Result<bool, Fail>
    requires { IsMade (rules_of settings.now) 0 [] index.old }
{
    add_apples(alloc, index, settings)?;
    let both: [(&[u8], usize, usize); 2] = [(b"apple", 1, 2), (b"pie", 1, 1)];
    let before = lists(index, settings, ListingKind::IndexCache, &both)?;
    sync(index, settings, 1)?;
    sync(index, settings, 1)?;
    let nodes: [(&[u8], usize, usize); 2] = [(b"apple", 2, 2), (b"pie", 1, 1)];
    let behind = lists(index, settings, ListingKind::IndexTable, &nodes)?;
    let cached = lists(index, settings, ListingKind::IndexCache, &[])?;
    Ok((before, behind, cached) == (true, true, true))
}

// What is tried of an index that is empty.
enum Case {
    Rows,
    Batches,
    Nodes,
}

// Whether a case holds: here alone an index is made and let go.
fn holds(alloc: Global, case: Case) -> Result<bool, Fail> {
    let settings = settings(alloc);
    let mut index = Index::new(alloc);
    match case {
        Case::Rows => finds_rows(alloc, &mut index, &settings),
        Case::Batches => finds_apples(alloc, &mut index, &settings),
        Case::Nodes => lists_apples(alloc, &mut index, &settings),
    }
}

#[test]
fn rows_are_found(rt: HostRuntime) -> Result<(), Fail> {
    assert!(rt; holds(rt.alloc(), Case::Rows)?);
    Ok(())
}

#[test]
fn a_search_is_the_same_before_and_behind_batches(rt: HostRuntime) -> Result<(), Fail> {
    assert!(rt; holds(rt.alloc(), Case::Batches)?);
    Ok(())
}

#[test]
fn each_batch_has_its_own_nodes(rt: HostRuntime) -> Result<(), Fail> {
    assert!(rt; holds(rt.alloc(), Case::Nodes)?);
    Ok(())
}
