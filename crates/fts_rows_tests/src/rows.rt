use fts_commits::{Change, Refusal};
use fts_rows::{PlanError, Rows};
use fts_types::{DocId, Key, Limits, RowTexts, SharedTexts};
use std::alloc::{AllocError, Global};
use std::sync::Arc;
use std::test::*;

/// Texts of so many bytes each.
fn texts_of(alloc: Global, lengths: &[usize]) -> Result<SharedTexts, AllocError> {
    let mut texts = RowTexts::new(alloc);
    for length in lengths {
        texts.push(vec![in alloc; b'a'; *length]?)?;
    }
    Ok(SharedTexts::new(alloc, texts)?)
}

/// The INSERT of a row.
fn insert(key: Key, texts: SharedTexts) -> Change {
    let doc = None;
    Change::Insert { key, doc, texts }
}

/// INSERTs of these keys, each with a text as long as the key's last two digits say.
fn inserts(alloc: Global, keys: &[Key]) -> Result<Vec<Change>, AllocError> {
    let mut changes = Vec::new(alloc);
    for key in keys {
        let texts = texts_of(alloc, &[(*key % 100) as usize])?;
        changes.push(insert(*key, texts))?;
    }
    Ok(changes)
}

/// The refusal of a plan.
fn refused(refusal: Refusal) -> PlanError {
    PlanError::from(refusal)
}

/// Plans and installs.
fn commit(rows: &mut Rows, changes: &[Change]) -> Result<(), PlanError> {
    let plan = rows.plan(changes)?;
    rows.install(plan);
    Ok(())
}

/// Commits INSERTs of these keys.
fn commit_keys(rows: &mut Rows, alloc: Global, keys: &[Key]) -> Result<(), PlanError> {
    let changes = inserts(alloc, keys)?;
    commit(rows, &changes)
}

/// The id of the row with the key, and the length of its text as its id leads to it.
fn seen(rows: &Rows, key: Key) -> Option<(DocId, usize)> {
    let row = rows.row(key)?;
    Some((row.doc, rows.text_of(row.doc)?.size()?))
}

/// Whether these keys' rows, or that there is none, are seen.
fn sees(rows: &Rows, cases: &[(Key, Option<(DocId, usize)>)]) -> bool {
    for (key, want) in cases {
        if seen(rows, *key) != *want {
            return false;
        }
    }
    true
}

/// Whether there are three rows, whose ids count from 1 as they came.
fn count_from_one(rows: &Rows) -> bool {
    let want = [
        (7, Some((1, 7))),
        (3, Some((2, 3))),
        (9, Some((3, 9))),
        (1, None),
    ];
    sees(rows, &want) && (rows.largest(), rows.len()) == (3, 3) && rows.text_of(4).is_none()
}

#[test]
fn ids_count_from_one(rt: HostRuntime) -> Result<(), Fail> {
    let mut rows = Rows::new(rt.alloc(), Limits::standard());
    commit_keys(&mut rows, rt.alloc(), &[7])?;
    commit_keys(&mut rows, rt.alloc(), &[3, 9])?;
    assert!(rt; count_from_one(&rows));
    Ok(())
}

// Keys that are refused behind one row with the key 5, and why.
const REFUSED: &[(&[Key], Refusal)] = &[
    (&[6, 5], Refusal::DuplicateKey { change: 2, key: 5 }),
    (&[8, 9, 8], Refusal::DuplicateKey { change: 3, key: 8 }),
    (&[1, 2, 3], Refusal::RowsFull { rows: 4 }),
    (&[1, 2, 3, 4], Refusal::IdsFull { largest: 4 }),
];

/// Whether one row with an id is left, and none with the first of these keys.
fn is_left(rows: &Rows, keys: &[Key]) -> bool {
    match keys {
        [first, ..] => (rows.len(), rows.largest()) == (1, 1) && rows.row(*first).is_none(),
        [] => false,
    }
}

/// Whether the keys are refused so, and nothing changes.
fn is_refused(rows: &mut Rows, alloc: Global, keys: &[Key], want: Refusal) -> bool {
    commit_keys(rows, alloc, keys) == Err(refused(want)) && is_left(rows, keys)
}

#[test]
fn a_refused_commit_changes_nothing(rt: HostRuntime) -> Result<(), Fail> {
    let limits = Limits {
        rows: 3,
        ids: 4,
        log_bytes: 0,
    };
    let mut rows = Rows::new(rt.alloc(), limits);
    commit_keys(&mut rows, rt.alloc(), &[5])?;
    for (keys, want) in REFUSED {
        assert!(rt; is_refused(&mut rows, rt.alloc(), keys, *want));
    }
    Ok(())
}

// The lengths of a row's texts, and of what is refused.
const LENGTHS: &[(&[usize], Option<u64>)] = &[
    (&[65_535], None),
    (&[65_536], Some(65_536)),
    (&[40_000, 30_000], Some(70_000)),
    (&[40_000, 25_535], None),
];

/// Whether a row with texts of these lengths is refused for its length, or not at all.
fn is_taken(alloc: Global, lengths: &[usize], want: Option<u64>) -> Result<bool, AllocError> {
    let mut rows = Rows::new(alloc, Limits::standard());
    let texts = texts_of(alloc, lengths)?;
    let end = commit(&mut rows, &[insert(1, texts)]);
    match want {
        None => Ok(end == Ok(())),
        Some(length) => Ok(end == Err(refused(Refusal::TextTooLong { change: 1, length }))),
    }
}

#[test]
fn texts_have_a_longest(rt: HostRuntime) -> Result<(), Fail> {
    for (lengths, want) in LENGTHS {
        assert!(rt; is_taken(rt.alloc(), lengths, *want)?);
    }
    Ok(())
}

#[test]
fn a_thousand_changes_are_one_commit(rt: HostRuntime) -> Result<(), Fail> {
    let mut keys = Vec::new(rt.alloc());
    for key in 0..1000 {
        keys.push(1000 - key)?;
    }
    let mut rows = Rows::new(rt.alloc(), Limits::standard());
    commit_keys(&mut rows, rt.alloc(), &keys)?;
    assert!(rt; seen(&rows, 1) == Some((1000, 1)));
    Ok(())
}

/// Whether a plan bears two rows, the second with the key 2, and leaves the rows as they are.
fn bears_two(rows: &mut Rows, changes: &[Change]) -> Result<bool, PlanError> {
    let plan = rows.plan(changes)?;
    let second = match plan.births() {
        [_, second] => (second.key, second.doc),
        _ => return Ok(false),
    };
    Ok((second, plan.largest()) == ((2, 2), 2) && plan.deaths().is_empty() && rows.is_empty())
}

#[test]
fn a_plan_tells_what_it_adds(rt: HostRuntime) -> Result<(), Fail> {
    let mut rows = Rows::new(rt.alloc(), Limits::standard());
    let changes = inserts(rt.alloc(), &[4, 2])?;
    assert!(rt; bears_two(&mut rows, &changes)?);
    Ok(())
}

/// Whether no row can come.
fn is_full(rows: &mut Rows, alloc: Global) -> bool {
    commit_keys(rows, alloc, &[1]) == Err(refused(Refusal::RowsFull { rows: 1 }))
}

#[test]
fn limits_can_be_set(rt: HostRuntime) {
    let mut rows = Rows::new(rt.alloc(), Limits::standard());
    assert!(rt; rows.limits() == Limits::standard());
    rows.set_limits(Limits {
        rows: 0,
        ids: 9,
        log_bytes: 9,
    });
    assert!(rt; is_full(&mut rows, rt.alloc()));
}

/// Whether an error is written so.
fn is_written(alloc: Global, error: PlanError, want: &str) -> Result<bool, Fail> {
    let text = format!(in alloc; "{error}")?;
    Ok(text.as_str() == want)
}

#[test]
fn errors_tell_their_cause(rt: HostRuntime) -> Result<(), Fail> {
    let full = refused(Refusal::RowsFull { rows: 4 });
    assert!(rt; is_written(rt.alloc(), PlanError::NoMemory, "no memory")?);
    assert!(rt; is_written(rt.alloc(), full, "rows full at 4")?);
    Ok(())
}

/// A thousand keys from one on, with a step between them.
fn keys_from(alloc: Global, first: Key, step: Key) -> Result<Vec<Key>, AllocError> {
    let mut keys = Vec::with_capacity(alloc, 1000)?;
    let mut key = first;
    for _ in 0..1000 {
        keys.push(key)?;
        key = key.wrapping_add(step);
    }
    Ok(keys)
}

/// Commits INSERTs of half a million keys from one on, with a step between them.
fn fill(rows: &mut Rows, alloc: Global, first: Key, step: Key) -> Result<(), PlanError> {
    let mut key = first;
    for _ in 0..500 {
        let keys = keys_from(alloc, key, step)?;
        commit_keys(rows, alloc, &keys)?;
        key = key.wrapping_add(step.wrapping_mul(1000));
    }
    Ok(())
}

/// Takes the rows of half a million keys from one on out, and says how many of them had one.
fn take_out(rows: &mut Rows, first: Key, step: Key) -> u64 {
    let mut key = first;
    let mut taken: u64 = 0;
    for _ in 0..500_000 {
        if rows.remove(key).is_some() {
            taken = taken.wrapping_add(1);
        }
        key = key.wrapping_add(step);
    }
    taken
}

/// What is seen of half a million rows that came twice and of those that went.
const AGAIN: &[(Key, Option<(DocId, usize)>)] = &[
    (0, Some((1_000_001, 0))),
    (999_998, Some((1_500_000, 98))),
    (1, None),
];

#[test]
fn each_second_of_a_million_rows_goes(rt: HostRuntime) -> Result<(), Fail> {
    let mut rows = Rows::new(rt.alloc(), Limits::standard());
    fill(&mut rows, rt.alloc(), 0, 2)?;
    fill(&mut rows, rt.alloc(), 1, 2)?;
    assert!(rt; take_out(&mut rows, 0, 2) == 500_000);
    assert!(rt; (rows.len(), rows.largest()) == (500_000, 1_000_000));
    fill(&mut rows, rt.alloc(), 0, 2)?;
    assert!(rt; take_out(&mut rows, 1, 2) == 500_000);
    assert!(rt; take_out(&mut rows, 1, 2) == 0);
    assert!(rt; sees(&rows, AGAIN));
    Ok(())
}

/// The first text of a row that was taken out, by a pointer that was cloned before.
fn held(rows: &mut Rows, key: Key) -> Option<Arc<RowTexts>> {
    let texts = Arc::try_clone(&rows.row(key)?.texts).ok()?;
    let row = rows.remove(key)?;
    if rows.row(key).is_some() || rows.text_of(row.doc).is_some() {
        return None;
    }
    Some(texts)
}

/// Whether the texts of the row with the key 9 are there behind it, and the row is not.
fn outlive(rows: &mut Rows) -> Option<bool> {
    let texts = held(rows, 9)?;
    Some(texts.size() == Some(9) && rows.len() == 1 && rows.remove(9).is_none())
}

#[test]
fn texts_outlive_their_row(rt: HostRuntime) -> Result<(), Fail> {
    let mut rows = Rows::new(rt.alloc(), Limits::standard());
    commit_keys(&mut rows, rt.alloc(), &[4, 9])?;
    assert!(rt; outlive(&mut rows) == Some(true));
    Ok(())
}

/// The greatest id that a row may have, the largest one used, the id that is given, and what a new
/// row gets.
const NEXT: &[(DocId, DocId, Option<DocId>, Result<DocId, Refusal>)] = &[
    (9, 0, None, Ok(1)),
    (9, 8, None, Ok(9)),
    (9, 9, None, Err(Refusal::IdsFull { largest: 9 })),
    (9, 4, Some(5), Ok(5)),
    (
        9,
        4,
        Some(4),
        Err(Refusal::DocIdOrder {
            given: 4,
            largest: 4,
        }),
    ),
    (
        9,
        4,
        Some(0),
        Err(Refusal::DocIdOrder {
            given: 0,
            largest: 4,
        }),
    ),
    (9, 4, Some(10), Err(Refusal::IdsFull { largest: 4 })),
    (70_000, 4, Some(65_539), Ok(65_539)),
    (
        70_000,
        4,
        Some(65_540),
        Err(Refusal::DocIdGap {
            given: 65_540,
            largest: 4,
        }),
    ),
    (
        9,
        4,
        Some(65_540),
        Err(Refusal::DocIdGap {
            given: 65_540,
            largest: 4,
        }),
    ),
];

/// The id of a row that comes behind one with the largest id.
fn next_doc(
    alloc: Global,
    limit: DocId,
    largest: DocId,
    given: Option<DocId>,
) -> Result<DocId, PlanError> {
    let mut rows = Rows::new(
        alloc,
        Limits {
            ids: limit,
            ..Limits::standard()
        },
    );
    if largest > 0 {
        let texts = texts_of(alloc, &[1])?;
        let doc = Some(largest);
        commit(&mut rows, &[Change::Insert { key: 1, doc, texts }])?;
    }
    let texts = texts_of(alloc, &[1])?;
    commit(
        &mut rows,
        &[Change::Insert {
            key: 2,
            doc: given,
            texts,
        }],
    )?;
    Ok(rows.largest())
}

/// Whether a new row gets this id, or is refused so.
fn gets(
    alloc: Global,
    ids: (DocId, DocId),
    given: Option<DocId>,
    want: Result<DocId, Refusal>,
) -> bool {
    let next = next_doc(alloc, ids.0, ids.1, given);
    match want {
        Ok(doc) => next == Ok(doc),
        Err(refusal) => next == Err(refused(refusal)),
    }
}

#[test]
fn new_documents_get_ids(rt: HostRuntime) {
    for (limit, largest, given, want) in NEXT {
        let holds = gets(rt.alloc(), (*limit, *largest), *given, *want);
        assert!(rt; holds, "{given:?} behind {largest}");
    }
}
