use fts_schema::{Reply, Summary, Sums, summary_text};
use fts_types::DocIds;
use std::alloc::{AllocError, Global};
use std::test::Fail;

fn are_summed_up(alloc: Global) -> Result<bool, AllocError> {
    let docs = DocIds::new(Vec::from_slice(alloc, &[1, 4_294_967_295, 7])?);
    let sums = Sums::new()
        .with(&Reply::Found { number: 3, docs })
        .with(&Reply::Syntax { at: 1 })
        .with(&Reply::Committed { number: 4 })
        .with(&Reply::Stopped { faults: 1 });
    Ok(sums.refused == 2 && sums.found == 3 && sums.total == 7)
}

#[test]
fn replies_are_summed_up(rt: HostRuntime) -> Result<(), Fail> {
    assert!(rt; are_summed_up(rt.alloc())?);
    Ok(())
}

const SUMMARY: &[u8] =
    b"gen 5 statements, commits 5, rows 3, largest 4, refused 0, found 0, sum 0\n";

fn is_told(alloc: Global) -> Result<bool, AllocError> {
    let summary = Summary {
        statements: 5,
        commits: 5,
        rows: 3,
        largest: 4,
        sums: Sums::new(),
    };
    Ok(summary_text(alloc, &summary)?.as_slice() == SUMMARY)
}

#[test]
fn a_summary_is_told(rt: HostRuntime) -> Result<(), Fail> {
    assert!(rt; is_told(rt.alloc())?);
    Ok(())
}
