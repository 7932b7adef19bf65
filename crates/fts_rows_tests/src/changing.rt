//! Tests of what lists of changes do to three rows.
use fts_commits::{Change, NewTexts, Refusal};
use fts_rows::{PlanError, Rows};
use fts_types::{DocId, Key, Limits, Row, RowTexts, SharedTexts};
use std::alloc::{AllocError, Global};
use std::test::*;

/// A change, with the lengths of its texts.
#[derive(Clone, Copy)]
enum Step {
    Insert(Key, Option<DocId>, usize, usize),
    Update(Key, Option<usize>, Option<usize>),
    Delete(Key),
}

use Step::{Delete, Insert, Update};

fn text_of(alloc: Global, length: usize) -> Result<Vec<u8>, AllocError> {
    vec![in alloc; b'a'; length]
}

fn new_text_of(alloc: Global, length: Option<usize>) -> Result<Option<Vec<u8>>, AllocError> {
    match length {
        Some(length) => Ok(Some(text_of(alloc, length)?)),
        None => Ok(None),
    }
}

fn inserted(
    alloc: Global,
    key: Key,
    doc: Option<DocId>,
    lengths: (usize, usize),
) -> Result<Change, AllocError> {
    let mut texts = RowTexts::new(alloc);
    texts.push(text_of(alloc, lengths.0)?)?;
    texts.push(text_of(alloc, lengths.1)?)?;
    let texts = SharedTexts::new(alloc, texts)?;
    Ok(Change::Insert { key, doc, texts })
}

fn updated(
    alloc: Global,
    key: Key,
    lengths: (Option<usize>, Option<usize>),
) -> Result<Change, AllocError> {
    let mut texts = Vec::new(alloc);
    texts.push(new_text_of(alloc, lengths.0)?)?;
    texts.push(new_text_of(alloc, lengths.1)?)?;
    let texts = NewTexts::from_vec(texts);
    Ok(Change::Update { key, texts })
}

fn change_of(alloc: Global, step: Step) -> Result<Change, AllocError> {
    match step {
        Insert(key, doc, first, last) => inserted(alloc, key, doc, (first, last)),
        Update(key, first, last) => updated(alloc, key, (first, last)),
        Delete(key) => Ok(Change::Delete { key }),
    }
}

fn changes_of(alloc: Global, steps: &[Step]) -> Result<Vec<Change>, AllocError> {
    let mut changes = Vec::new(alloc);
    for step in steps {
        changes.push(change_of(alloc, *step)?)?;
    }
    Ok(changes)
}

fn commit(rows: &mut Rows, alloc: Global, steps: &[Step]) -> Result<(), PlanError> {
    let changes = changes_of(alloc, steps)?;
    let plan = rows.plan(&changes)?;
    rows.install(plan);
    Ok(())
}

const LIMITS: Limits = Limits {
    rows: 4,
    ids: 131_073,
    log_bytes: 0,
};

/// The keys 1, 2 and 3 with ids that are as large, and texts of 10 and 20 bytes.
fn three(alloc: Global) -> Result<Rows, PlanError> {
    let mut rows = Rows::new(alloc, LIMITS);
    let steps = [
        Insert(1, None, 10, 20),
        Insert(2, None, 10, 20),
        Insert(3, None, 10, 20),
    ];
    commit(&mut rows, alloc, &steps)?;
    Ok(rows)
}

/// The id of a key's row, and the lengths of its texts, as its id leads to it.
fn seen(rows: &Rows, key: Key) -> Option<(DocId, usize, usize)> {
    let doc = rows.row(key)?.doc;
    let texts = rows.text_of(doc)?.as_slice();
    Some((doc, texts.first()?.len(), texts.get(1)?.len()))
}

// What is refused of three rows, and why.
const REFUSED: &[(&[Step], Refusal)] = &[
    (
        &[Insert(2, None, 1, 1)],
        Refusal::DuplicateKey { change: 1, key: 2 },
    ),
    (
        &[Update(2, Some(1), None), Insert(2, None, 1, 1)],
        Refusal::DuplicateKey { change: 2, key: 2 },
    ),
    (
        &[Delete(1), Insert(9, Some(3), 1, 1)],
        Refusal::DocIdOrder {
            given: 3,
            largest: 3,
        },
    ),
    (
        &[Insert(8, Some(10), 1, 1), Insert(9, Some(10), 1, 1)],
        Refusal::DocIdOrder {
            given: 10,
            largest: 10,
        },
    ),
    (
        &[Insert(8, Some(65_539), 1, 1)],
        Refusal::DocIdGap {
            given: 65_539,
            largest: 3,
        },
    ),
    (
        &[
            Insert(8, Some(65_538), 1, 1),
            Insert(9, Some(131_073), 1, 1),
            Delete(8),
            Update(1, Some(70_000), None),
        ],
        Refusal::IdsFull { largest: 131_073 },
    ),
    (
        &[Delete(1), Insert(9, None, 65_000, 536)],
        Refusal::TextTooLong {
            change: 2,
            length: 65_536,
        },
    ),
    (
        &[Update(1, Some(65_516), None)],
        Refusal::TextTooLong {
            change: 1,
            length: 65_536,
        },
    ),
    (
        &[Update(9, Some(65_000), Some(536))],
        Refusal::TextTooLong {
            change: 1,
            length: 65_536,
        },
    ),
    (
        &[Insert(8, None, 1, 1), Insert(9, None, 1, 1)],
        Refusal::RowsFull { rows: 5 },
    ),
    (
        &[
            Delete(3),
            Insert(7, None, 1, 1),
            Insert(8, None, 1, 1),
            Insert(9, None, 1, 1),
        ],
        Refusal::RowsFull { rows: 5 },
    ),
    (
        &[Insert(8, None, 1, 1), Delete(8), Insert(8, Some(4), 1, 1)],
        Refusal::DocIdOrder {
            given: 4,
            largest: 4,
        },
    ),
];

/// Whether three rows refuse the steps so, and stay as they are.
fn is_refused(alloc: Global, steps: &[Step], want: Refusal) -> bool {
    let Ok(mut rows) = three(alloc) else {
        return false;
    };
    match commit(&mut rows, alloc, steps) {
        Err(PlanError::Refused { refusal: why }) => {
            why == want
                && (rows.len(), rows.largest()) == (3, 3)
                && seen(&rows, 1) == Some((1, 10, 20))
        }
        _ => false,
    }
}

#[test]
fn refusals_tell_their_numbers(rt: HostRuntime) -> Result<(), Fail> {
    for case in REFUSED {
        assert!(rt; is_refused(rt.alloc(), case.0, case.1), "{:?}", case.1);
    }
    Ok(())
}

// Changes of three rows; a key, with what its row is then; how many rows there are, and the
// largest id that was used.
const TAKEN: &[(&[Step], Key, Option<(DocId, usize, usize)>, usize, DocId)] = &[
    (&[Update(2, Some(5), None)], 2, Some((4, 5, 20)), 3, 4),
    (&[Update(2, None, Some(0))], 2, Some((4, 10, 0)), 3, 4),
    (&[Update(2, None, None)], 2, Some((4, 10, 20)), 3, 4),
    (
        &[Update(2, Some(5), None), Update(2, None, Some(6))],
        2,
        Some((5, 5, 6)),
        3,
        5,
    ),
    (&[Update(9, Some(65_000), Some(535))], 9, None, 3, 3),
    (
        &[Update(1, Some(65_515), None)],
        1,
        Some((4, 65_515, 20)),
        3,
        4,
    ),
    (&[Delete(2)], 2, None, 2, 3),
    (&[Delete(9), Delete(2), Delete(2)], 2, None, 2, 3),
    (
        &[Delete(2), Insert(2, None, 7, 8)],
        2,
        Some((4, 7, 8)),
        3,
        4,
    ),
    (&[Insert(9, None, 7, 8), Delete(9)], 9, None, 3, 4),
    (
        &[
            Insert(8, Some(65_538), 1, 1),
            Delete(8),
            Insert(9, Some(131_073), 7, 8),
        ],
        9,
        Some((131_073, 7, 8)),
        4,
        131_073,
    ),
    (
        &[Insert(8, None, 1, 1), Insert(9, None, 7, 8), Delete(1)],
        9,
        Some((5, 7, 8)),
        4,
        5,
    ),
];

/// Whether three rows take the steps, and what the key's row and all rows are then.
fn is_taken(
    alloc: Global,
    steps: &[Step],
    key: Key,
    want: Option<(DocId, usize, usize)>,
    ends: (usize, DocId),
) -> bool {
    let Ok(mut rows) = three(alloc) else {
        return false;
    };
    commit(&mut rows, alloc, steps).is_ok()
        && seen(&rows, key) == want
        && (rows.len(), rows.largest()) == ends
}

#[test]
fn changes_see_each_other(rt: HostRuntime) -> Result<(), Fail> {
    for (steps, key, want, count, largest) in TAKEN {
        let holds = is_taken(rt.alloc(), steps, *key, *want, (*count, *largest));
        assert!(rt; holds, "of {key}");
    }
    Ok(())
}

// Changes of three rows; the ids of the rows that they bear, and those that die.
const TURNS: &[(&[Step], &[DocId], &[DocId])] = &[
    (&[Delete(3), Delete(1)], &[], &[1, 3]),
    (&[Insert(9, None, 1, 1), Delete(9)], &[], &[]),
    (
        &[Update(2, Some(1), None), Update(2, Some(2), None)],
        &[5],
        &[2],
    ),
    (&[Update(2, None, None), Delete(2), Delete(1)], &[], &[1, 2]),
    (
        &[
            Insert(9, Some(7), 1, 1),
            Update(3, None, None),
            Update(9, None, None),
        ],
        &[8, 9],
        &[3],
    ),
    (&[Update(9, Some(1), None), Delete(9)], &[], &[]),
];

/// The ids of the rows that a plan bears.
fn born(alloc: Global, births: &[Row]) -> Option<Vec<DocId>> {
    let mut ids = Vec::new(alloc);
    for row in births {
        ids.push(row.doc).ok()?;
    }
    Some(ids)
}

/// Whether the changes of three rows bear and take these, and the rows are as before until then.
fn turns(alloc: Global, steps: &[Step], births: &[DocId], deaths: &[DocId]) -> Option<bool> {
    let mut rows = three(alloc).ok()?;
    let changes = changes_of(alloc, steps).ok()?;
    let plan = rows.plan(&changes).ok()?;
    let ids = born(alloc, plan.births())?;
    Some(
        ids.as_slice() == births
            && plan.deaths() == deaths
            && (rows.len(), rows.largest()) == (3, 3),
    )
}

#[test]
fn births_and_deaths_are_those_that_last(rt: HostRuntime) -> Result<(), Fail> {
    for (steps, births, deaths) in TURNS {
        let holds = turns(rt.alloc(), steps, births, deaths) == Some(true);
        assert!(rt; holds);
    }
    Ok(())
}

#[test]
fn a_thousand_changes_of_one_key(rt: HostRuntime) -> Result<(), Fail> {
    let steps = [Update(2, Some(3), None); 1000];
    assert!(rt; is_taken(rt.alloc(), &steps, 2, Some((1003, 3, 20)), (3, 1003)));
    Ok(())
}
