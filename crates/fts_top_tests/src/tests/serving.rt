//! That the sessions of `serve` run beside each other, and what they may be told then.
use crossbeam_utils::atomic::AtomicCell;
use fts_disk::MemDisk;
use fts_io::{Gate, MemSink, MemSource, OpenGate, Point};
use fts_top::{Status, fts_top};
use std::alloc::{AllocError, Global};
use std::sync::Wait;
use std::test::Fail;
use std::thread::Threads;

/// How often a gate looks for what it waits for.
const MOST_LOOKS: u32 = 100_000_000;

/// Two sessions, of which one searches behind its commit.
const BESIDE: &str = "1: INSERT INTO docs (id, body) VALUES (1, 'apple')
2: INSERT INTO docs (id, body) VALUES (2, 'apple')
1: SELECT FTS_DOC_ID FROM docs WHERE MATCH (body) AGAINST ('apple' IN BOOLEAN MODE)
";

/// What they are told where the search comes between the commits.
const BETWEEN: &str = "OK commit 1\nOK commit 2\nOK as of 1: 1\n";

/// What they are told where it comes behind both.
const BEHIND: [&str; 2] = [
    "OK commit 1\nOK commit 2\nOK as of 2: 1 2\n",
    "OK commit 2\nOK commit 1\nOK as of 2: 1 2\n",
];

/// The listing of what was flushed.
const LISTING: &str = "SELECT * FROM INFORMATION_SCHEMA.INNODB_FT_INDEX_TABLE\n";

/// The devices of a database.
#[derive(Drop)]
struct Devices {
    rows: MemDisk,
    index: MemDisk,
}

/// New devices, on which nothing was written.
fn empty(alloc: Global) -> Result<Devices, AllocError> {
    Ok(Devices {
        rows: MemDisk::from_files(alloc, Vec::new(alloc), Vec::new(alloc))?,
        index: MemDisk::from_files(alloc, Vec::new(alloc), Vec::new(alloc))?,
    })
}

/// What the program wrote for these words and this input, and the devices then; none where its
/// status is another than `Done`.
fn told<R: Threads + Wait + Sync, G: Gate + Sync>(
    rt: &R,
    alloc: Global,
    words: &[&str],
    input: &str,
    devices: Devices,
    gate: &G,
) -> Result<Option<(String, Devices)>, AllocError> {
    let mut all = Vec::new(alloc);
    all.push(String::from_str(alloc, "shop")?)?;
    for word in words {
        all.push(String::from_str(alloc, word)?)?;
    }
    let mut source = MemSource::new(input.as_bytes().to_vec(alloc)?, Vec::new(alloc));
    let mut sink = MemSink::new(alloc, Vec::new(alloc));
    let Devices { rows, index } = devices;
    let (status, rows, index) = fts_top(alloc, rt, &all, &mut source, &mut sink, rows, index, gate);
    let Ok(text) = String::from_utf8(sink.bytes().to_vec(alloc)?) else {
        return Ok(None);
    };
    if status != Status::Done {
        return Ok(None);
    }
    Ok(Some((text, Devices { rows, index })))
}

/// The devices of a new database, the cache of which has so many bytes; a batch has one document.
fn created<R: Threads + Wait + Sync>(
    rt: &R,
    alloc: Global,
    cache_bytes: &str,
) -> Result<Option<Devices>, AllocError> {
    let words = [
        "create",
        "--columns",
        "body",
        "--batch-docs",
        "1",
        "--cache-bytes",
        cache_bytes,
    ];
    let made = told(rt, alloc, &words, "", empty(alloc)?, &OpenGate)?;
    match made {
        Some((_, devices)) => Ok(Some(devices)),
        None => Ok(None),
    }
}

/// What the sessions of a script are told of a new database.
fn served<R: Threads + Wait + Sync, G: Gate + Sync>(
    rt: &R,
    alloc: Global,
    script: &str,
    gate: &G,
) -> Result<Option<String>, AllocError> {
    let Some(devices) = created(rt, alloc, "8000000")? else {
        return Ok(None);
    };
    match told(rt, alloc, &["serve"], script, devices, gate)? {
        Some((text, _)) => Ok(Some(text)),
        None => Ok(None),
    }
}

/// Whether a flag was raised within the looks.
fn sees(flag: &AtomicCell<bool>) -> bool {
    for _ in 0..MOST_LOOKS {
        if flag.load() {
            return true;
        }
    }
    false
}

/// Holds session 2 at its statement until session 1 evaluates its search, and session 1 there until
/// session 2's commit was answered.
#[derive(Drop)]
struct BesideCommit {
    evaluates: AtomicCell<bool>,
    answered: AtomicCell<bool>,
    saw_evaluate: AtomicCell<bool>,
    saw_answer: AtomicCell<bool>,
}

impl Gate for BesideCommit {
    fn pass(&self, point: Point, session: u32) {
        match (point, session) {
            (Point::Statement, 2) => self.saw_evaluate.store(sees(&self.evaluates)),
            (Point::Evaluate, 1) => {
                self.evaluates.store(true);
                self.saw_answer.store(sees(&self.answered));
            }
            (Point::Answered, 2) => self.answered.store(true),
            _ => {}
        }
    }
}

/// Whether a commit is answered while another session evaluates.
fn is_beside_commit<R: Threads + Wait + Sync>(rt: &R, alloc: Global) -> Result<bool, AllocError> {
    let gate = BesideCommit {
        evaluates: AtomicCell::new(false),
        answered: AtomicCell::new(false),
        saw_evaluate: AtomicCell::new(false),
        saw_answer: AtomicCell::new(false),
    };
    let text = served(rt, alloc, BESIDE, &gate)?;
    let is_told = match text {
        Some(text) => text.as_str() == BETWEEN,
        None => false,
    };
    Ok(is_told && gate.saw_evaluate.load() && gate.saw_answer.load())
}

#[test]
fn evaluate_beside_commit(rt: HostRuntime) -> Result<(), Fail> {
    let holds = is_beside_commit(&rt, rt.alloc())?;
    assert!(rt; holds);
    Ok(())
}

/// Holds session 1 at its second statement until session 2's commit was answered.
#[derive(Drop)]
struct BehindCommit {
    begun: AtomicCell<u32>,
    answered: AtomicCell<bool>,
    saw_answer: AtomicCell<bool>,
}

impl Gate for BehindCommit {
    fn pass(&self, point: Point, session: u32) {
        match (point, session) {
            (Point::Statement, 1) => {
                if self.begun.fetch_add(1) == 1 {
                    self.saw_answer.store(sees(&self.answered));
                }
            }
            (Point::Answered, 2) => self.answered.store(true),
            _ => {}
        }
    }
}

/// Whether a search behind the answer of another session's commit finds its row.
fn is_behind_commit<R: Threads + Wait + Sync>(rt: &R, alloc: Global) -> Result<bool, AllocError> {
    let gate = BehindCommit {
        begun: AtomicCell::new(0),
        answered: AtomicCell::new(false),
        saw_answer: AtomicCell::new(false),
    };
    let text = served(rt, alloc, BESIDE, &gate)?;
    let is_told = match text {
        Some(text) => text.as_str() == BEHIND[0] || text.as_str() == BEHIND[1],
        None => false,
    };
    Ok(is_told && gate.saw_answer.load())
}

#[test]
fn search_behind_commit(rt: HostRuntime) -> Result<(), Fail> {
    let holds = is_behind_commit(&rt, rt.alloc())?;
    assert!(rt; holds);
    Ok(())
}

/// Holds each session at its first statement until 16 are there.
#[derive(Drop)]
struct AllBegin {
    begun: AtomicCell<u32>,
    saw: AtomicCell<u32>,
}

impl Gate for AllBegin {
    fn pass(&self, point: Point, _session: u32) {
        if point == Point::Statement {
            self.begun.fetch_add(1);
            for _ in 0..MOST_LOOKS {
                if self.begun.load() >= 16 {
                    self.saw.fetch_add(1);
                    return;
                }
            }
        }
    }
}

/// A script of 16 sessions, each with one line.
fn sixteen(alloc: Global) -> Result<String, AllocError> {
    let mut script = String::new(alloc);
    for session in 1..=16 {
        let line = format!(in alloc; "{session}: DELETE FROM docs WHERE id = {session}\n")?;
        script.push_str(&line)?;
    }
    Ok(script)
}

/// Whether all 16 sessions stood at their statements at once.
fn are_beside<R: Threads + Wait + Sync>(rt: &R, alloc: Global) -> Result<bool, AllocError> {
    let gate = AllBegin {
        begun: AtomicCell::new(0),
        saw: AtomicCell::new(0),
    };
    let text = served(rt, alloc, &sixteen(alloc)?, &gate)?;
    Ok(text.is_some() && gate.saw.load() == 16)
}

#[test]
fn sixteen_beside(rt: HostRuntime) -> Result<(), Fail> {
    let holds = are_beside(&rt, rt.alloc())?;
    assert!(rt; holds);
    Ok(())
}

/// Two rows with the same 400 words.
fn two_rows(alloc: Global) -> Result<String, AllocError> {
    let mut body = String::new(alloc);
    for number in 1000..1400 {
        let word = format!(in alloc; "word{number} ")?;
        body.push_str(&word)?;
    }
    format!(in alloc;
        "INSERT INTO docs (id, body) VALUES (1, '{body}')
INSERT INTO docs (id, body) VALUES (2, '{body}')
"
    )
}

/// Whether a text has this part.
fn has(text: &[u8], part: &[u8]) -> bool {
    for place in 0..text.len() {
        if text[place..].starts_with(part) {
            return true;
        }
    }
    false
}

/// Whether the tables have this part when two rows were inserted into a new database, the cache of
/// which has so many bytes.
fn is_listed<R: Threads + Wait + Sync>(
    rt: &R,
    alloc: Global,
    cache_bytes: &str,
    part: &str,
) -> Result<bool, AllocError> {
    let Some(devices) = created(rt, alloc, cache_bytes)? else {
        return Ok(false);
    };
    let rows = two_rows(alloc)?;
    let Some((_, devices)) = told(rt, alloc, &["serve"], &rows, devices, &OpenGate)? else {
        return Ok(false);
    };
    match told(rt, alloc, &["run"], LISTING, devices, &OpenGate)? {
        Some((text, _)) => Ok(has(text.as_bytes(), part.as_bytes())),
        None => Ok(false),
    }
}

#[test]
fn workers_flush_and_optimize(rt: HostRuntime) -> Result<(), Fail> {
    let holds = is_listed(&rt, rt.alloc(), "1000", "word1399|1|2|2|2|")?;
    assert!(rt; holds);
    Ok(())
}

#[test]
fn a_small_cache_is_not_flushed(rt: HostRuntime) -> Result<(), Fail> {
    let holds = is_listed(&rt, rt.alloc(), "8000000", "OK 0 rows as of 2")?;
    assert!(rt; holds);
    Ok(())
}
