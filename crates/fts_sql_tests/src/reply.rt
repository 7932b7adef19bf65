use fts_commits::Refusal;
use fts_listing::Listing;
use fts_schema::{Reply, created_text, reply_text};
use fts_types::{DocIds, Text};
use std::alloc::{AllocError, Global};
use std::test::Fail;

fn tells(alloc: Global, reply: &Reply, wanted: &str) -> Result<bool, AllocError> {
    let text = reply_text(alloc, reply)?;
    Ok(text.as_slice() == wanted.as_bytes())
}

fn found(alloc: Global, docs: &[u64], wanted: &str) -> Result<bool, AllocError> {
    let docs = DocIds::new(Vec::from_slice(alloc, docs)?);
    tells(alloc, &Reply::Found { number: 3, docs }, wanted)
}

#[test]
fn a_search_is_told(rt: HostRuntime) -> Result<(), Fail> {
    let alloc = rt.alloc();
    assert!(rt; found(alloc, &[], "OK as of 3: none\n")?);
    assert!(rt; found(alloc, &[1], "OK as of 3: 1\n")?);
    assert!(rt; found(alloc, &[1, 2, 30], "OK as of 3: 1 2 30\n")?);
    Ok(())
}

// Each of these is told so.
fn are_told(alloc: Global, rows: &[(Reply, &str)]) -> Result<bool, AllocError> {
    for (reply, wanted) in rows {
        if !tells(alloc, reply, wanted)? {
            return Ok(false);
        }
    }
    Ok(true)
}

#[test]
fn numbers_are_told(rt: HostRuntime) -> Result<(), Fail> {
    let rows = [
        (Reply::Committed { number: 1 }, "OK commit 1\n"),
        (
            Reply::CommittedAndBegun { number: 2 },
            "OK commit 2 begin\n",
        ),
        (Reply::Begun, "OK begin\n"),
        (Reply::Buffered { changes: 3 }, "OK buffered 3\n"),
        (Reply::NothingToCommit, "OK nothing to commit\n"),
        (Reply::RolledBack { changes: 0 }, "OK rollback 0\n"),
        (
            Reply::TooManyChanges { changes: 1_001 },
            "ERROR too many changes 1001\n",
        ),
        (Reply::Synced { through: 7 }, "OK sync as of 7\n"),
        (Reply::NothingToOptimize, "OK optimize nothing\n"),
        (
            Reply::Optimized {
                words: 0,
                finished: true,
            },
            "OK optimize 0 words, pass finished\n",
        ),
        (
            Reply::Optimized {
                words: 2_000,
                finished: false,
            },
            "OK optimize 2000 words, pass open\n",
        ),
        (Reply::LogFull { end: 4096 }, "ERROR log full at 4096\n"),
        (Reply::Syntax { at: 1 }, "ERROR syntax at 1\n"),
        (Reply::QuerySyntax { at: 1 }, "ERROR query syntax at 1\n"),
        (
            Reply::QueryTooLong { length: 4_097 },
            "ERROR query too long 4097\n",
        ),
        (
            Reply::QueryTooDeep { at: 33 },
            "ERROR query too deep at 33\n",
        ),
        (Reply::LineTooLong, "ERROR line too long\n"),
        (Reply::Nothing, ""),
        (Reply::WrongColumns, "ERROR columns and values do not fit\n"),
        (Reply::NoMemory, "ERROR no memory\n"),
        (Reply::DiskFault, "ERROR disk fault\n"),
        (
            Reply::Stopped { faults: 1 },
            "ERROR stopped after 1 disk faults\n",
        ),
    ];
    assert!(rt; are_told(rt.alloc(), &rows)?);
    Ok(())
}

const REFUSALS: [(Refusal, &str); 6] = [
    (
        Refusal::DuplicateKey {
            change: 1,
            key: u64::MAX,
        },
        "ERROR duplicate key 18446744073709551615 in change 1\n",
    ),
    (
        Refusal::DocIdOrder {
            given: 5,
            largest: 7,
        },
        "ERROR document id 5 not above 7\n",
    ),
    (
        Refusal::DocIdGap {
            given: 131071,
            largest: 65535,
        },
        "ERROR document id 131071 more than 65535 above 65535\n",
    ),
    (
        Refusal::IdsFull { largest: 2 },
        "ERROR document ids full at 2\n",
    ),
    (
        Refusal::TextTooLong {
            change: 1,
            length: 65536,
        },
        "ERROR text too long 65536 in change 1\n",
    ),
    (Refusal::RowsFull { rows: 3 }, "ERROR rows full at 3\n"),
];

#[test]
fn refusals_of_a_commit_are_told(rt: HostRuntime) -> Result<(), Fail> {
    for (refusal, wanted) in REFUSALS {
        assert!(rt; tells(rt.alloc(), &Reply::Refused { refusal }, wanted)?);
    }
    Ok(())
}

fn no_table(alloc: Global, name: &[u8], wanted: &str) -> Result<bool, AllocError> {
    let name = Text::new(Vec::from_slice(alloc, name)?);
    tells(alloc, &Reply::NoSuchTable { name }, wanted)
}

fn no_column(alloc: Global, name: &[u8], wanted: &str) -> Result<bool, AllocError> {
    let name = Text::new(Vec::from_slice(alloc, name)?);
    tells(alloc, &Reply::NoSuchColumn { name }, wanted)
}

#[test]
fn a_name_is_told_as_it_is_written(rt: HostRuntime) -> Result<(), Fail> {
    assert!(rt; no_table(rt.alloc(), b"Books", "ERROR no such table Books\n")?);
    assert!(rt; no_column(rt.alloc(), b"nope", "ERROR no such column nope\n")?);
    Ok(())
}

fn listing_ends(alloc: Global, wanted: &[u8]) -> Result<bool, AllocError> {
    let listing = Listing::Stopwords;
    let reply = reply_text(alloc, &Reply::Listed { number: 3, listing })?;
    Ok(reply.as_slice().ends_with(wanted))
}

#[test]
fn a_listing_is_told(rt: HostRuntime) -> Result<(), Fail> {
    assert!(rt; listing_ends(rt.alloc(), b"www\nOK 36 rows as of 3\n")?);
    Ok(())
}

#[test]
fn the_making_is_told(rt: HostRuntime) {
    assert!(rt; created_text() == "OK created\n");
}
