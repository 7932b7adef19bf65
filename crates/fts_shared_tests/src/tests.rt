use fts_disk::{Kind, MemDisk};
use fts_engine::{Engine, create_engine, open_engine};
use fts_io::OpenGate;
use fts_schema::Reply;
use fts_script::{Script, ScriptLine, group_lines};
use fts_shared::{Served, Work, serve_sessions, works_of};
use fts_types::{Limits, Names, Settings};
use std::alloc::{AllocError, Global};
use std::sync::Wait;
use std::test::Fail;
use std::thread::Threads;

/// A search that finds all rows that the sessions insert.
const SEARCH: &str =
    "SELECT FTS_DOC_ID FROM docs WHERE MATCH (body) AGAINST ('pie' IN BOOLEAN MODE)";

/// How many sessions there are at most.
const MOST: u32 = 16;

/// A device on which nothing was written, of which these calls fail.
fn empty(alloc: Global, fails: Vec<(Kind, u64)>) -> Result<MemDisk, AllocError> {
    MemDisk::from_files(alloc, Vec::new(alloc), fails)
}

/// An engine over a new database with one text column; these calls of its rows device fail then.
fn engine_of(alloc: Global, fails: Vec<(Kind, u64)>) -> Option<Engine<MemDisk, MemDisk>> {
    let mut columns = Names::new(alloc);
    columns.push(b"body".to_vec(alloc).ok()?).ok()?;
    let settings = Settings {
        columns,
        min: 3,
        max: 84,
        stopword: true,
        optimize_words: 2_000,
        cache_bytes: 8_000_000,
        batch_docs: 1_000,
    };
    if settings.check().is_err() {
        return None;
    }
    let rows = empty(alloc, fails).ok()?;
    let index = empty(alloc, Vec::new(alloc)).ok()?;
    let (rows, index) = create_engine(alloc, &settings, rows, index).ok()?;
    open_engine(alloc, rows, index, Limits::standard()).ok()
}

/// A line of a session, with the number of its session.
fn line(alloc: Global, session: u32, text: &str) -> Result<ScriptLine, AllocError> {
    let line = format!(in alloc; "{session}: {text}")?;
    Ok(ScriptLine::Whole(line.into_bytes()))
}

/// The INSERT of a row.
fn insert(alloc: Global, session: u32, id: u32) -> Result<ScriptLine, AllocError> {
    let text = format!(in alloc; "INSERT INTO docs (id, body) VALUES ({id}, 'apple pie')")?;
    line(alloc, session, &text)
}

/// A script of so many sessions. Each inserts two rows, and searches behind each.
fn script_of(alloc: Global, sessions: u32) -> Result<Script, AllocError> {
    let mut lines = Vec::new(alloc);
    for turn in 0..2 {
        for session in 1..=sessions {
            lines.push(insert(
                alloc,
                session,
                session.saturating_mul(2).saturating_add(turn),
            )?)?;
            lines.push(line(alloc, session, SEARCH)?)?;
        }
    }
    lines.push(ScriptLine::TooLong)?;
    Ok(Script::new(lines))
}

/// The work of each session of a script.
fn work_in(alloc: Global, script: &Script) -> Option<Vec<Work>> {
    let groups = group_lines(alloc, script).ok()?;
    works_of(alloc, groups).ok()
}

/// Whether a session was told numbers that never fall, of a commit larger ones, and each search
/// found as many rows as there were commits. Numbers of commits are struck off the list.
fn is_told(replies: &[Reply], commits: &mut [bool]) -> bool {
    let mut seen = 0;
    for reply in replies {
        match reply {
            Reply::Committed { number } => {
                let place = *number as usize;
                if *number <= seen || place >= commits.len() || commits[place] {
                    return false;
                }
                commits[place] = true;
                seen = *number;
            }
            Reply::Found { number, docs } => {
                if *number < seen || docs.as_slice().len() as u64 != *number {
                    return false;
                }
                seen = *number;
            }
            Reply::LineTooLong => {}
            _ => return false,
        }
    }
    true
}

/// How many commits were told, by what all sessions were, if each was told what it may be.
fn commits_told(works: &[Work]) -> Option<usize> {
    let mut commits = [false; 2 * MOST as usize + 1];
    for work in works {
        if !is_told(work.replies(), &mut commits) {
            return None;
        }
    }
    let mut count = 0_usize;
    for told in commits {
        if told {
            count = count.saturating_add(1);
        }
    }
    Some(count)
}

/// So many sessions at once: how many commits they were told, if each was told what it may be.
fn at_once<R: Threads + Wait + Sync>(rt: &R, alloc: Global, sessions: u32) -> Option<usize> {
    let script = script_of(alloc, sessions).ok()?;
    let works = work_in(alloc, &script)?;
    if works.len() > 16 {
        return None;
    }
    let engine = engine_of(alloc, Vec::new(alloc))?;
    let (engine, works) = match serve_sessions(alloc, rt, engine, &OpenGate, &script, works) {
        Ok(Served { engine, works, .. }) => (engine, works),
        Err(back) => back,
    };
    drop(engine);
    commits_told(&works)
}

/// Whether so many runs told each session what it may be told, and all their commits.
fn all_told<R: Threads + Wait + Sync>(rt: &R, alloc: Global, sessions: u32, runs: u32) -> bool {
    for _ in 0..runs {
        if at_once(rt, alloc, sessions) != Some((sessions as usize).saturating_mul(2)) {
            return false;
        }
    }
    true
}

#[test]
fn two_sessions_at_once(rt: HostRuntime) {
    let told = all_told(&rt, rt.alloc(), 2, 200);
    assert!(rt; told);
}

#[test]
fn sixteen_sessions_at_once(rt: HostRuntime) {
    let told = all_told(&rt, rt.alloc(), 16, 200);
    assert!(rt; told);
}

/// How many commits sessions were told, and how many faults, where one device failed.
fn told_beside_fault(works: &[Work]) -> (usize, usize) {
    let mut commits = 0_usize;
    let mut faults = 0_usize;
    for work in works {
        for reply in work.replies() {
            match reply {
                Reply::Committed { .. } => commits = commits.saturating_add(1),
                Reply::DiskFault => faults = faults.saturating_add(1),
                _ => {}
            }
        }
    }
    (commits, faults)
}

/// Four sessions at once, beside which this sync of the rows device fails: whether one of them was
/// told so, and an opening finds the commits that were told, and at most one more. `None` where the
/// database was not made.
fn beside_fault<R: Threads + Wait + Sync>(rt: &R, alloc: Global, sync: u64) -> Option<bool> {
    let mut fails = Vec::new(alloc);
    fails.push((Kind::Sync, sync)).ok()?;
    let script = script_of(alloc, 4).ok()?;
    let works = work_in(alloc, &script)?;
    if works.len() > 16 {
        return None;
    }
    let engine = engine_of(alloc, fails)?;
    let (engine, works) = match serve_sessions(alloc, rt, engine, &OpenGate, &script, works) {
        Ok(Served { engine, works, .. }) => (engine, works),
        Err(back) => back,
    };
    let (rows, index) = engine.close();
    let (commits, faults) = told_beside_fault(&works);
    let engine = open_engine(alloc, rows, index, Limits::standard()).ok()?;
    let found = engine.row_count();
    drop(engine);
    Some(faults == 1 && commits <= found && found <= commits.saturating_add(1))
}

/// Whether it is so of the first sync behind the making of a database, and of those after it.
fn are_beside_faults<R: Threads + Wait + Sync>(rt: &R, alloc: Global) -> bool {
    let mut tried = 0_u32;
    for sync in 1..15 {
        match beside_fault(rt, alloc, sync) {
            Some(true) => tried = tried.saturating_add(1),
            Some(false) => return false,
            None => {}
        }
    }
    tried >= 8
}

#[test]
fn one_session_meets_a_fault(rt: HostRuntime) {
    let holds = are_beside_faults(&rt, rt.alloc());
    assert!(rt; holds);
}
