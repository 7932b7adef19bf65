//! What a session holds between its lines.
use fts_disk::MemDisk;
use fts_engine::open_engine;
use fts_io::{MemSink, MemSource, OpenGate};
use fts_sessions::{Direct, Session};
use fts_top::fts_once;
use fts_types::Limits;
use std::alloc::{AllocError, Global};
use std::test::Fail;

const CREATE: [&str; 4] = ["shop", "create", "--columns", "body"];

/// A device on which nothing was written.
fn empty(alloc: Global) -> Result<MemDisk, AllocError> {
    MemDisk::from_files(alloc, Vec::new(alloc), Vec::new(alloc))
}

/// The devices of a new database.
fn created(alloc: Global) -> Result<(MemDisk, MemDisk), AllocError> {
    let mut words = Vec::new(alloc);
    for word in CREATE {
        words.push(String::from_str(alloc, word)?)?;
    }
    let mut input = MemSource::new(Vec::new(alloc), Vec::new(alloc));
    let mut out = MemSink::new(alloc, Vec::new(alloc));
    let rows = empty(alloc)?;
    let index = empty(alloc)?;
    let (_, rows, index) = fts_once(alloc, &words, &mut input, &mut out, rows, index, &OpenGate);
    Ok((rows, index))
}

/// The steps of a new database.
fn new_steps(alloc: Global) -> Result<Direct<MemDisk, MemDisk>, AllocError> {
    let (rows, index) = created(alloc)?;
    match open_engine(alloc, rows, index, Limits::standard()) {
        Ok(engine) => Ok(Direct { engine }),
        Err(_) => Err(AllocError),
    }
}

/// Three commits of another session.
fn commit_three(alloc: Global, steps: &mut Direct<MemDisk, MemDisk>) {
    let mut session = Session::new(alloc, 1);
    session.execute(steps, &OpenGate, b"DELETE FROM docs WHERE id = 7");
    session.execute(steps, &OpenGate, b"DELETE FROM docs WHERE id = 8");
    session.execute(steps, &OpenGate, b"DELETE FROM docs WHERE id = 9");
}

/// What a session has seen behind three commits of another: with an open transaction, and behind
/// its commit.
fn seen_by(alloc: Global, steps: &mut Direct<MemDisk, MemDisk>) -> (u64, u64) {
    commit_three(alloc, steps);
    let mut session = Session::new(alloc, 7);
    session.execute(steps, &OpenGate, b"BEGIN");
    session.execute(steps, &OpenGate, b"DELETE FROM docs WHERE id = 1");
    let before = session.last_seen();
    session.execute(steps, &OpenGate, b"COMMIT");
    (before, session.last_seen())
}

/// Whether it has seen what its replies told, and nothing of the other session's.
fn has_seen(alloc: Global) -> Result<bool, AllocError> {
    let mut steps = new_steps(alloc)?;
    let seen = seen_by(alloc, &mut steps);
    drop(steps);
    Ok(seen == (0, 4))
}

#[test]
fn a_session_has_seen_what_its_replies_told(rt: HostRuntime) -> Result<(), Fail> {
    let holds = has_seen(rt.alloc())?;
    assert!(rt; holds);
    Ok(())
}

#[test]
fn a_session_has_its_number(rt: HostRuntime) {
    assert!(rt; Session::new(rt.alloc(), 7).number() == 7);
}
