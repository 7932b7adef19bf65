//! The queries that tests of other crates search for, over their rows.
use super::{Indexed, Line, STANDARD, finds};
use std::alloc::{AllocError, Global};
use std::test::Fail;

type Rows = &'static [Line<'static>];

/// Queries, and the ids of the rows that each finds.
type Searches = &'static [(&'static str, &'static [u64])];

/// Rows, which of their words are indexed, and searches.
type Table = (Indexed, Rows, Searches);

const PEAR: Rows = &[(1, "pear", "")];

const IN_PEAR: Searches = &[
    ("-apple", &[]),
    ("pear -apple", &[1]),
    ("-pear", &[]),
    ("", &[]),
];

const PIES: Rows = &[
    (1, "apple pie", ""),
    (2, "apple theory", ""),
    (3, "the theory", ""),
];

const IN_PIES: Searches = &[
    ("pie", &[1]),
    ("PIE theory", &[1, 2, 3]),
    ("the", &[]),
    ("the*", &[2, 3]),
    ("+apple +the", &[1, 2]),
    ("+apple +the*", &[2]),
    ("+apple pie", &[1, 2]),
    (">apple <pie ~theory", &[1, 2, 3]),
    (">APPLE <pie ~theory", &[1, 2, 3]),
    ("apple-pie", &[2]),
    ("+(pie theory) -apple", &[3]),
    ("+(the) apple", &[1, 2]),
    ("+(theory (+apple +pie))", &[1, 2, 3]),
    ("-(apple)", &[]),
    ("()", &[]),
    ("pie +apple", &[1, 2]),
    ("apple +apple", &[1, 2]),
    ("+apple -apple", &[]),
    ("plum*", &[]),
    ("\"apple pie\"", &[1]),
    ("\"pie apple\"", &[]),
    ("\"the theory\"", &[3]),
    ("+apple -\"apple pie\"", &[2]),
    ("\"\"", &[]),
    ("+\"the of\" apple", &[]),
    ("apple -\"the\"", &[1, 2]),
    ("-\"the\"", &[]),
    ("\"a b\" @3", &[]),
    ("+apple -(\"a pie\" the*)", &[1]),
    ("\"apple+pie\"@007", &[1]),
    ("foo\"apple theory\"", &[2]),
    ("() \"\" pie", &[1]),
];

const NEAR: Rows = &[
    (1, "apple the pie", ""),
    (2, "apple of the pie", ""),
    (3, "apple apple", ""),
];

const IN_NEAR: Searches = &[
    ("\"apple pie\" @2", &[1]),
    ("\"apple pie\" @3", &[1, 2]),
    ("\"apple apple\" @0", &[1, 2, 3]),
    ("\"apple pie\" @0", &[]),
    ("\"apple the pie\"", &[1]),
];

const PHRASES: Rows = &[
    (1, "x", "test, phrase"),
    (2, "x", "test the phrase"),
    (3, "a test", "phrase b"),
];

const IN_PHRASES: Searches = &[
    ("\"test phrase\"", &[1]),
    ("\"the of\"", &[]),
    ("\"test the phrase\"", &[2]),
    ("\"test phrase\" @2", &[1, 2]),
    ("+test +phrase", &[1, 2, 3]),
];

/// Words with apostrophes, and words between some.
const QUOTED: Rows = &[
    (1, "aaa'bbb", ""),
    (2, "aaa''bbb", ""),
    (3, "'aaa'bbb'", ""),
    (4, "aaa'bbb'ccc", ""),
];

const IN_QUOTED: Searches = &[
    ("aaa", &[2]),
    ("bbb", &[2]),
    ("aaa'bbb", &[1, 3]),
    ("AAA'Bbb", &[1, 3]),
    ("aaa'bbb'ccc", &[4]),
    ("bbb'ccc", &[]),
    ("'aaa", &[2]),
    ("aaa'", &[2]),
    ("aaa''bbb", &[2]),
];

/// Words that are too short, just short enough, and too long.
const SIZED: Rows = &[
    (1, "ab abc", ""),
    (
        2,
        "xxxxxxxxxxxxxxxxxxxxxxxxxxxxxxxxxxxxxxxxxxxxxxxxxxxxxxxxxxxxxxxxxxxxxxxxxxxxxxxxxxxx",
        "",
    ),
    (
        3,
        "yyyyyyyyyyyyyyyyyyyyyyyyyyyyyyyyyyyyyyyyyyyyyyyyyyyyyyyyyyyyyyyyyyyyyyyyyyyyyyyyyyyyy",
        "",
    ),
];

const IN_SIZED: Searches = &[
    ("ab", &[]),
    ("abc", &[1]),
    (
        "xxxxxxxxxxxxxxxxxxxxxxxxxxxxxxxxxxxxxxxxxxxxxxxxxxxxxxxxxxxxxxxxxxxxxxxxxxxxxxxxxxxx",
        &[2],
    ),
    (
        "xxxxxxxxxxxxxxxxxxxxxxxxxxxxxxxxxxxxxxxxxxxxxxxxxxxxxxxxxxxxxxxxxxxxxxxxxxxxxxxxxxxx*",
        &[2],
    ),
    (
        "yyyyyyyyyyyyyyyyyyyyyyyyyyyyyyyyyyyyyyyyyyyyyyyyyyyyyyyyyyyyyyyyyyyyyyyyyyyyyyyyyyyyy",
        &[],
    ),
];

/// Stopwords, and words of other lengths.
const PLAIN: Rows = &[
    (1, "The apple of it", ""),
    (2, "a b abcdefghij abcdefghijk", ""),
];

const UNSTOPPED: Indexed = Indexed {
    min: 3,
    max: 84,
    stopword: false,
};

const IN_UNSTOPPED: Searches = &[
    ("the", &[1]),
    ("of", &[]),
    ("apple", &[1]),
    ("abcdefghijk", &[2]),
];

const NARROW: Indexed = Indexed {
    min: 1,
    max: 10,
    stopword: true,
};

const IN_NARROW: Searches = &[
    ("a", &[]),
    ("b", &[2]),
    ("the", &[]),
    ("apple", &[1]),
    ("abcdefghij", &[2]),
    ("abcdefghijk", &[]),
];

const EMPTY: Indexed = Indexed {
    min: 12,
    max: 10,
    stopword: true,
};

const IN_EMPTY: Searches = &[
    ("b", &[]),
    ("apple", &[]),
    ("abcdefghij", &[]),
    ("abcdefghijk", &[]),
];

const JAM: Rows = &[(1, "The Plum's jam", "it is sweet"), (2, "Sweet", "plum")];

const IN_JAM: Searches = &[
    ("plum's", &[1]),
    ("plum", &[2]),
    ("sweet", &[1, 2]),
    ("the", &[]),
    ("jamit", &[]),
];

const THEORIES: Rows = &[
    (1, "apple", "apple of the pie"),
    (2, "theory", "apple pie"),
    (3, "pie", "the theory"),
];

const IN_THEORIES: Searches = &[
    ("apple", &[1, 2]),
    ("apple theory", &[1, 2, 3]),
    ("+apple +theory", &[2]),
    ("-apple pie", &[3]),
    ("theo*", &[2, 3]),
    ("\"apple pie\"", &[2]),
    ("\"apple pie\" @3", &[1, 2]),
    ("+(theory -apple) +pie", &[3]),
    ("the", &[]),
];

const NONE: Rows = &[];

const IN_NONE: Searches = &[
    ("apple", &[]),
    ("apple kiwi", &[]),
    ("kiwi", &[]),
    ("pie", &[]),
    ("plum", &[]),
    ("x", &[]),
    ("x*", &[]),
    ("b", &[]),
];

const TARTS: Rows = &[(1, "Apple", "pie"), (2, "", "apple tart")];

const IN_TARTS: Searches = &[("apple", &[1, 2]), ("pie", &[1])];

const BATCHES: Rows = &[(1, "apple pie", ""), (2, "apple", "")];

const IN_BATCHES: Searches = &[("apple", &[1, 2]), ("+apple -p*", &[2])];

const REPLACED: Rows = &[(2, "apple pear", "")];

const IN_REPLACED: Searches = &[("apple", &[2]), ("p* apple", &[2]), ("apple pear", &[2])];

const GIVEN: Rows = &[(65_535, "apple", ""), (65_536, "apple", "")];

const IN_GIVEN: Searches = &[
    ("apple", &[65_535, 65_536]),
    ("apple pear", &[65_535, 65_536]),
];

const LATER: Rows = &[(1, "apple pie", ""), (2, "Pie", "")];

const IN_LATER: Searches = &[("pie", &[1, 2]), ("PIE", &[1, 2]), ("plum", &[])];

const FRUIT: Rows = &[
    (1, "The apple, the juice", ""),
    (2, "fig pie plum", ""),
    (999, "apple w999", ""),
    (1_000, "apple w1000", ""),
];

const IN_FRUIT: Searches = &[
    ("apple", &[1, 999, 1_000]),
    ("pie", &[2]),
    ("w1000", &[1_000]),
];

/// Brackets that stand 32 deep.
const IN_APPLE: Searches = &[
    (
        "((((((((((((((((((((((((((((((((apple))))))))))))))))))))))))))))))))",
        &[1],
    ),
    (
        "(((((((((((((((((((((((((((((((())))))))))))))))))))))))))))))))",
        &[],
    ),
];

const APPLE: Rows = &[(1, "apple", "")];

const TABLES: &[Table] = &[
    (STANDARD, PEAR, IN_PEAR),
    (STANDARD, PIES, IN_PIES),
    (STANDARD, NEAR, IN_NEAR),
    (STANDARD, PHRASES, IN_PHRASES),
    (STANDARD, QUOTED, IN_QUOTED),
    (STANDARD, SIZED, IN_SIZED),
    (UNSTOPPED, PLAIN, IN_UNSTOPPED),
    (NARROW, PLAIN, IN_NARROW),
    (EMPTY, PLAIN, IN_EMPTY),
    (STANDARD, JAM, IN_JAM),
    (STANDARD, THEORIES, IN_THEORIES),
    (STANDARD, NONE, IN_NONE),
    (STANDARD, TARTS, IN_TARTS),
    (STANDARD, BATCHES, IN_BATCHES),
    (STANDARD, REPLACED, IN_REPLACED),
    (STANDARD, GIVEN, IN_GIVEN),
    (STANDARD, LATER, IN_LATER),
    (STANDARD, FRUIT, IN_FRUIT),
    (STANDARD, APPLE, IN_APPLE),
];

#[test]
fn queries_of_other_tests_find_their_rows(rt: HostRuntime) -> Result<(), Fail> {
    for (indexed, rows, searches) in TABLES {
        for (text, want) in *searches {
            let holds = finds(rt.alloc(), *indexed, rows, text, want)?;
            assert!(rt; holds, "{text}");
        }
    }
    Ok(())
}

/// So many of a text, one behind another, and then a text.
fn repeated(alloc: Global, text: &str, count: usize, last: &str) -> Result<String, AllocError> {
    let mut all = String::new(alloc);
    for _ in 0..count {
        all.push_str(text)?;
    }
    all.push_str(last)?;
    Ok(all)
}

/// Whether a long query over one row finds these ids: so many of a text, and then another.
fn finds_long(
    alloc: Global,
    text: &str,
    count: usize,
    last: &str,
    want: &[u64],
) -> Result<bool, Fail> {
    let query = repeated(alloc, text, count, last)?;
    finds(alloc, STANDARD, APPLE, &query, want)
}

#[test]
fn long_queries_find_their_rows(rt: HostRuntime) -> Result<(), Fail> {
    assert!(rt; finds_long(rt.alloc(), "x", 4_096, "", &[])?);
    assert!(rt; finds_long(rt.alloc(), "plum ", 500, "apple", &[1])?);
    Ok(())
}

/// A thousand rows of one text.
fn thousand(alloc: Global) -> Result<Vec<Line<'static>>, AllocError> {
    let mut rows = Vec::new(alloc);
    for doc in 1..1_001 {
        rows.push((doc, "apple pie", ""))?;
    }
    Ok(rows)
}

/// Their ids.
fn ids_of(alloc: Global, rows: &[Line<'_>]) -> Result<Vec<u64>, AllocError> {
    let mut ids = Vec::new(alloc);
    for (id, _, _) in rows {
        ids.push(*id)?;
    }
    Ok(ids)
}

/// Whether a query over a thousand rows finds all of them.
fn finds_thousand(alloc: Global, query: &str) -> Result<bool, Fail> {
    let rows = thousand(alloc)?;
    let want = ids_of(alloc, &rows)?;
    finds(alloc, STANDARD, &rows, query, &want)
}

#[test]
fn a_thousand_rows_are_found(rt: HostRuntime) -> Result<(), Fail> {
    assert!(rt; finds_thousand(rt.alloc(), "+apple -\"pie apple\"")?);
    Ok(())
}
