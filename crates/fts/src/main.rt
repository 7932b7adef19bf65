//! The program: makes both devices of the folder that the first word names, and does what the words
//! ask for.
//!
//! `fts shop run` answers the script on its standard input from the database in the folder `shop`.
//! It makes one call of `fts_top`, and costs what that costs: an opening, the lines, and one write
//! for each reply.
#![tactic(auto)]

use fts_host::{HostDisk, OpenStreams, Refusal, StdSink, StdSource};
use fts_io::OpenGate;
use fts_top::{Status, fts_top};
use std::alloc::AllocError;
use std::env;
use std::io::{self, ErrorKind};
use std::process::ExitCode;
use std::sync::Wait;
use std::thread::Threads;

fn main(rt: HostRuntime) -> ExitCode {
    // Held to the end, so that no file gets the number of a stream that was closed.
    let streams = match OpenStreams::hold(&rt) {
        Ok(streams) => streams,
        Err(refusal) => return ended(&rt, Status::DiskFault, Some(refusal)),
    };
    let code = match words(&rt) {
        Ok(words) => execute(&rt, &rt, &words),
        Err(error) if error.kind() == ErrorKind::OutOfMemory => ended(&rt, Status::NoMemory, None),
        // A word that isn't UTF-8 belongs to no command.
        Err(_) => ended(&rt, Status::Usage, None),
    };
    drop(streams);
    code
}

// The words behind the program's name.
fn words(rt: &HostRuntime) -> io::Result<Vec<String>> {
    let mut words = Vec::new(rt.alloc());
    for word in env::args(rt)?.skip(1) {
        words.push(word)?;
    }
    Ok(words)
}

// Makes the devices, and executes the command. The runtime is handed on twice: what makes threads
// is named by what it can do alone.
fn execute<T: Threads + Wait + Sync>(rt: &HostRuntime, threads: &T, words: &[String]) -> ExitCode {
    let folder = match words.first() {
        Some(word) => word.as_str(),
        None => "",
    };
    match devices(rt, folder) {
        Ok((rows, index)) => on_devices(rt, threads, words, rows, index),
        Err(AllocError) => ended(rt, Status::NoMemory, None),
    }
}

// Both devices of a folder.
fn devices(
    rt: &HostRuntime,
    folder: &str,
) -> Result<(HostDisk<HostRuntime>, HostDisk<HostRuntime>), AllocError> {
    HostDisk::pair(rt.alloc(), rt.clone()?, rt.clone()?, folder)
}

fn on_devices<T: Threads + Wait + Sync>(
    rt: &HostRuntime,
    threads: &T,
    words: &[String],
    rows: HostDisk<HostRuntime>,
    index: HostDisk<HostRuntime>,
) -> ExitCode {
    let mut input = StdSource::new(rt.stdin());
    let mut out = StdSink::new(rt.stdout());
    let (status, rows, index) = fts_top(
        rt.alloc(),
        threads,
        words,
        &mut input,
        &mut out,
        rows,
        index,
        &OpenGate,
    );
    let refusal = match status {
        Status::ReadFault => input.refusal(),
        Status::WriteFault => out.refusal(),
        Status::DiskFault => rows.refusal().or(index.refusal()),
        _ => None,
    };
    ended(rt, status, refusal)
}

// Says how the program ends, and what the system refused.
fn ended(rt: &HostRuntime, status: Status, refusal: Option<Refusal<'_>>) -> ExitCode {
    if status != Status::Done {
        let _ = eprintln!(rt; "fts: {status}");
    }
    if let Some(refusal) = refusal {
        let _ = eprintln!(rt; "fts: {refusal}");
    }
    ExitCode::from(status.number())
}
