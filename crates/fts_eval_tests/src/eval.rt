mod searches;

use fts_eval::{answer, leaves};
use fts_ids::{IdList, union};
use fts_meaning::Sign;
use fts_plain::scan;
use fts_query::{Candidate, Leaf, Operand, Postings, Query, Term, View, parse};
use fts_types::{DocId, Names, Row, RowTexts, Settings, Texts};
use std::alloc::{AllocError, Global};
use std::sync::Arc;
use std::test::Fail;

/// Which words are indexed: the bounds of their lengths, and whether stopwords are left out.
#[derive(Clone, Copy)]
struct Indexed {
    min: u8,
    max: u8,
    stopword: bool,
}

/// Those of a database that is made without options.
const STANDARD: Indexed = Indexed {
    min: 3,
    max: 84,
    stopword: true,
};

fn settings(alloc: Global, indexed: Indexed) -> Settings {
    Settings {
        columns: Names::new(alloc),
        min: indexed.min,
        max: indexed.max,
        stopword: indexed.stopword,
        optimize_words: 2_000,
        cache_bytes: 8_000_000,
        batch_docs: 1_000,
    }
}

/// A row of two columns.
fn row(alloc: Global, doc: u64, first: &str, second: &str) -> Result<Row, Fail> {
    let mut texts = RowTexts::new(alloc);
    texts.push(first.as_bytes().to_vec(alloc)?)?;
    texts.push(second.as_bytes().to_vec(alloc)?)?;
    let texts = match Arc::new(alloc, texts) {
        Ok(texts) => texts,
        Err(_) => return Err(Fail::from("no memory")),
    };
    Ok(Row {
        key: doc,
        doc,
        texts,
    })
}

/// A list with an id.
fn with_id(alloc: Global, ids: IdList, id: DocId) -> Result<IdList, AllocError> {
    Ok(IdList::new(union(alloc, ids.as_slice(), &[id])?))
}

/// Whether a query finds a row by the scan.
fn is_found(alloc: Global, indexed: Indexed, row: Row, query: &Query) -> Result<bool, Fail> {
    if !row.texts.is_row() {
        return Ok(false);
    }
    let rows = [row];
    let ids = scan(alloc, &settings(alloc, indexed), &rows, query)?;
    Ok(!ids.as_slice().is_empty())
}

type Line<'a> = (u64, &'a str, &'a str);

/// The ids of the rows that a query finds by the scan.
fn scanned(
    alloc: Global,
    indexed: Indexed,
    rows: &[Line<'_>],
    query: &Query,
) -> Result<IdList, Fail> {
    let mut ids = IdList::new(Vec::new(alloc));
    for (id, first, second) in rows {
        let row = row(alloc, *id, first, second)?;
        if is_found(alloc, indexed, row, query)? {
            ids = with_id(alloc, ids, *id)?;
        }
    }
    Ok(ids)
}

/// The query that asks for each of some words.
fn each_word(alloc: Global, words: &Texts) -> Result<Query, AllocError> {
    let mut terms = Vec::new(alloc);
    for word in words.as_slice() {
        let word = word.as_slice().to_vec(alloc)?;
        terms.push(Term::Leaf(Sign::Required, Operand::Word(word)))?;
    }
    Ok(Query { terms })
}

/// The query that asks for one operand.
fn one_operand(alloc: Global, operand: Operand) -> Result<Query, AllocError> {
    let mut terms = Vec::new(alloc);
    terms.push(Term::Leaf(Sign::Optional, operand))?;
    Ok(Query { terms })
}

/// The query that asks for what a leaf asks.
fn leaf_query(alloc: Global, leaf: &Leaf) -> Result<Query, AllocError> {
    match leaf {
        Leaf::Nothing => Ok(Query {
            terms: Vec::new(alloc),
        }),
        Leaf::Word(word) => one_operand(alloc, Operand::Word(word.as_slice().to_vec(alloc)?)),
        Leaf::Prefix(word) => one_operand(alloc, Operand::Prefix(word.as_slice().to_vec(alloc)?)),
        Leaf::Words(words) => each_word(alloc, words),
    }
}

/// Whether the postings of some phrase or distance have an id.
fn is_wanted(postings: &[Postings], id: DocId) -> bool {
    for one in postings {
        if matches!(one.leaf, Leaf::Words(_)) && one.ids.as_slice().contains(&id) {
            return true;
        }
    }
    false
}

/// The texts of the rows that are to be looked into.
fn candidates(
    alloc: Global,
    rows: &[Line<'_>],
    postings: &[Postings],
) -> Result<Vec<Candidate>, Fail> {
    let mut all = Vec::new(alloc);
    for (id, first, second) in rows {
        if is_wanted(postings, *id) {
            let texts = row(alloc, *id, first, second)?.texts;
            all.push(Candidate { doc: *id, texts })?;
        }
    }
    Ok(all)
}

/// The view of rows for the leaves of a query, made by scans.
fn view(alloc: Global, indexed: Indexed, rows: &[Line<'_>], query: &Query) -> Result<View, Fail> {
    let mut postings = Vec::new(alloc);
    for leaf in leaves(alloc, &settings(alloc, indexed), query)? {
        let ids = scanned(alloc, indexed, rows, &leaf_query(alloc, &leaf)?)?;
        postings.push(Postings { leaf, ids })?;
    }
    let texts = candidates(alloc, rows, postings.as_slice())?;
    Ok(View {
        number: 3,
        postings,
        texts,
    })
}

/// The ids that are the answer to a query.
fn answered(
    alloc: Global,
    indexed: Indexed,
    rows: &[Line<'_>],
    query: &Query,
) -> Result<Vec<DocId>, Fail> {
    let view = view(alloc, indexed, rows, query)?;
    let ids = answer(alloc, &view, query)?;
    Ok(ids.as_slice().to_vec(alloc)?)
}

const FRUIT: &[Line<'static>] = &[
    (1, "apple pie", ""),
    (2, "apple theory", ""),
    (3, "the theory", ""),
];

const FRUIT_SEARCHES: &[(&str, &[u64])] = &[
    ("pie", &[1]),
    ("the*", &[2, 3]),
    ("+apple +the", &[1, 2]),
    ("+apple +the*", &[2]),
    ("the", &[]),
    ("+(pie theory) -apple", &[3]),
    ("+(the) apple", &[1, 2]),
    ("+apple pie", &[1, 2]),
    (">pie", &[1]),
    ("+\"the of\" apple", &[]),
    ("-\"the\" apple", &[1, 2]),
    ("\"\"", &[]),
    ("()", &[]),
    ("-(apple)", &[]),
    ("-apple", &[]),
    ("zebra*", &[]),
    ("+apple -apple", &[]),
    ("apple +apple", &[1, 2]),
    ("+(+apple -pie) +(theory zebra)", &[2]),
    ("-(-apple) theory", &[2, 3]),
    ("+(-(the)) theory", &[2, 3]),
];

const PHRASES: &[Line<'static>] = &[
    (1, "x", "test, phrase"),
    (2, "x", "test the phrase"),
    (3, "a test", "phrase b"),
    (7, "Apple the pie", ""),
    (8, "apple of the pie", ""),
    (9, "apple apple", "pie"),
];

const PHRASE_SEARCHES: &[(&str, &[u64])] = &[
    ("\"test phrase\"", &[1]),
    ("\"test the phrase\"", &[2]),
    ("\"the of\"", &[]),
    ("test phrase", &[1, 2, 3]),
    ("\"apple pie\" @2", &[7]),
    ("\"apple pie\" @3", &[7, 8]),
    ("\"apple apple\" @0", &[7, 8, 9]),
    ("\"apple pie\" @0", &[]),
    ("+apple -\"apple pie\" @3", &[9]),
    ("+test -\"test phrase\"", &[2, 3]),
    ("+(\"test phrase\" \"the pie\") -apple", &[1]),
    ("\"the pie\"", &[7, 8]),
];

/// Whether a search and a scan find these rows.
fn finds(
    alloc: Global,
    indexed: Indexed,
    rows: &[Line<'_>],
    text: &str,
    want: &[DocId],
) -> Result<bool, Fail> {
    let query = parse(alloc, text.as_bytes())?;
    let answered = answered(alloc, indexed, rows, &query)?;
    let scanned = scanned(alloc, indexed, rows, &query)?;
    Ok(answered.as_slice() == want && scanned.as_slice() == want)
}

#[test]
fn words_and_groups_find_their_rows(rt: HostRuntime) -> Result<(), Fail> {
    for (text, want) in FRUIT_SEARCHES {
        let holds = finds(rt.alloc(), STANDARD, FRUIT, text, want)?;
        assert!(rt; holds, "{text}");
    }
    Ok(())
}

#[test]
fn phrases_find_their_rows(rt: HostRuntime) -> Result<(), Fail> {
    for (text, want) in PHRASE_SEARCHES {
        let holds = finds(rt.alloc(), STANDARD, PHRASES, text, want)?;
        assert!(rt; holds, "{text}");
    }
    Ok(())
}

/// The next number of a generator, by a multiplication and a sum.
fn next(number: u64) -> u64 {
    number
        .wrapping_mul(6_364_136_223_846_793_005)
        .wrapping_add(1_442_695_040_888_963_407)
}

/// One of some pieces, by the upper bits of a number.
fn piece(number: u64) -> &'static str {
    match (number >> 33) % 18 {
        0 => "apple",
        1 => "+apple",
        2 => "-pie",
        3 => "+the",
        4 => "the*",
        5 => "\"apple pie\"",
        6 => "-\"the apple\"",
        7 => "\"pie apple\" @2",
        8 => "+\"the theory\" @1",
        9 => "(",
        10 => "+(",
        11 => "-(",
        12 => ")",
        13 => ")",
        14 => "theory",
        15 => "+pi*",
        16 => "\"of the\"",
        _ => "zebra",
    }
}

/// A query of some pieces, with its brackets closed.
fn random_query(alloc: Global, seed: u64) -> Result<Vec<u8>, AllocError> {
    let mut text = Vec::new(alloc);
    let mut number = seed;
    let mut open: u64 = 0;
    for _ in 0..9 {
        number = next(number);
        let piece = piece(number);
        if piece == ")" && open == 0 {
            continue;
        }
        open = depth(open, piece);
        text.extend_from_slice(piece.as_bytes())?;
        text.push(b' ')?;
    }
    for _ in 0..open {
        text.push(b')')?;
    }
    Ok(text)
}

/// How many brackets are open behind a piece.
fn depth(open: u64, piece: &str) -> u64 {
    if piece == ")" {
        return open.saturating_sub(1);
    }
    if piece.ends_with("(") {
        return open.saturating_add(1);
    }
    open
}

/// One of some texts, by the upper bits of a number.
fn text_of(number: u64) -> &'static str {
    match (number >> 33) % 12 {
        0 => "apple pie",
        1 => "pie apple",
        2 => "the apple",
        3 => "theory of the apple pie",
        4 => "pie of the apple",
        5 => "pies",
        6 => "the of",
        7 => "theory apple theory",
        8 => "zebra, the theory",
        9 => "apple of pie; the pie",
        10 => "pie",
        _ => "",
    }
}

/// Eight rows of some texts.
fn random_rows(alloc: Global, seed: u64) -> Result<Vec<Line<'static>>, AllocError> {
    let mut rows = Vec::new(alloc);
    let mut number = seed;
    for doc in [2, 3, 5, 6, 9, 10, 11, 20] {
        let second = next(number);
        rows.push((doc, text_of(number), text_of(second)))?;
        number = next(second);
    }
    Ok(rows)
}

/// Whether an answer over random rows is what the scan finds.
fn is_scan(alloc: Global, seed: u64) -> Result<bool, Fail> {
    let text = random_query(alloc, seed)?;
    let query = parse(alloc, &text)?;
    let rows = random_rows(alloc, next(seed))?;
    let ids = answered(alloc, STANDARD, &rows, &query)?;
    let want = scanned(alloc, STANDARD, &rows, &query)?;
    Ok(ids.as_slice() == want.as_slice())
}

/// The seed of the first of 2,500 random queries that does not find what the scan finds.
fn first_other(alloc: Global, seed: u64) -> Result<Option<u64>, Fail> {
    let mut seed = seed;
    for _ in 0..2_500 {
        seed = next(seed);
        if !is_scan(alloc, seed)? {
            return Ok(Some(seed));
        }
    }
    Ok(None)
}

#[test]
fn random_queries_find_what_the_scan_finds(rt: HostRuntime) -> Result<(), Fail> {
    assert_eq!(rt; first_other(rt.alloc(), 1)?, None);
    Ok(())
}

#[test]
fn more_random_queries_do(rt: HostRuntime) -> Result<(), Fail> {
    assert_eq!(rt; first_other(rt.alloc(), 2)?, None);
    Ok(())
}

#[test]
fn a_third_part_of_them_does(rt: HostRuntime) -> Result<(), Fail> {
    assert_eq!(rt; first_other(rt.alloc(), 3)?, None);
    Ok(())
}

#[test]
fn a_fourth_part_of_them_does(rt: HostRuntime) -> Result<(), Fail> {
    assert_eq!(rt; first_other(rt.alloc(), 4)?, None);
    Ok(())
}
