//! One call of the program.
ghost use Rattle.fts_types.specs.Limits.{standard_limits};
ghost use Rattle.fts_engine.specs.Bounds.{AreWithin};

use crate::world::{Faulty, World};
use fts_disk::MemDisk;
use fts_io::{MemSink, MemSource, OpenGate};
use fts_top::{Status, fts_once, run_script};
use fts_types::Limits;
use std::alloc::{AllocError, Global};

/// Calls the program with these words, and tells its output and its status.
pub fn call(alloc: Global, world: &mut World, line: &str) -> Result<String, AllocError> {
    let words = words_of(alloc, line)?;
    let mut input = source_of(alloc, world.script.taken(alloc)?, world.source)?;
    let mut out = sink_of(alloc, world.sink)?;
    world.source = None;
    world.sink = None;
    let rows = world.rows.taken(alloc)?;
    let index = world.index.taken(alloc)?;
    let (status, rows, index) = match world.limits {
        Some(limits) => run_within(alloc, limits, &mut input, &mut out, rows, index),
        None => fts_once(alloc, &words, &mut input, &mut out, rows, index, &OpenGate),
    };
    world.rows.put(alloc, rows)?;
    world.index.put(alloc, index)?;
    told(alloc, world.is_folded, out.bytes(), &status)
}

/// Runs the script with limits that are lower than those of the program.
fn run_within(
    alloc: Global,
    limits: Limits,
    input: &mut MemSource,
    out: &mut MemSink,
    rows: MemDisk,
    index: MemDisk,
) -> (Status, MemDisk, MemDisk) {
    let limits = lower(limits);
    let (end, rows, index) = run_script(alloc, input, out, rows, index, limits, &OpenGate);
    match end {
        Ok(end) => (Status::from(end), rows, index),
        Err(error) => (Status::from(error), rows, index),
    }
}

/// The lower of these limits and those of the program.
fn lower(limits: Limits) -> Limits
    ensures { AreWithin standard_limits result }
{
    Limits {
        rows: limits.rows.min(1_000_000),
        ids: limits.ids.min(9_223_372_036_854_775_807),
        log_bytes: limits.log_bytes.min(4_294_967_296),
    }
}

/// The words of a command line, which stand between its spaces.
fn words_of(alloc: Global, line: &str) -> Result<Vec<String>, AllocError> {
    let mut words = Vec::new(alloc);
    for word in line.split_whitespace() {
        words.push(String::from_str(alloc, word)?)?;
    }
    Ok(words)
}

fn source_of(
    alloc: Global,
    bytes: Vec<u8>,
    faulty: Option<Faulty>,
) -> Result<MemSource, AllocError> {
    match faulty {
        Some(Faulty { call, most }) => {
            let fails = vec![in alloc; call]?;
            Ok(MemSource::new(bytes, fails).giving(most.max(1)))
        }
        None => Ok(MemSource::new(bytes, Vec::new(alloc))),
    }
}

fn sink_of(alloc: Global, faulty: Option<Faulty>) -> Result<MemSink, AllocError> {
    match faulty {
        Some(Faulty { call, most }) => {
            let fails = vec![in alloc; call]?;
            Ok(MemSink::new(alloc, fails).taking(most.max(1)))
        }
        None => Ok(MemSink::new(alloc, Vec::new(alloc))),
    }
}

/// The output of a call, and a line with its status.
fn told(
    alloc: Global,
    is_folded: bool,
    output: &[u8],
    status: &Status,
) -> Result<String, AllocError> {
    let mut text = if is_folded {
        format!(in alloc; "{} bytes, sum {}\n", output.len(), sum_of(output))?
    } else {
        text_of(alloc, output)?
    };
    text.push_str(status_of(alloc, status)?.as_str())?;
    Ok(text)
}

fn status_of(alloc: Global, status: &Status) -> Result<String, AllocError> {
    let number = status.number();
    match status {
        Status::TooManySessions { session } => {
            format!(in alloc; "status {number} {status}: {session}\n")
        }
        _ => format!(in alloc; "status {number} {status}\n"),
    }
}

/// The bytes as a text, or as hex digits where they are none.
fn text_of(alloc: Global, bytes: &[u8]) -> Result<String, AllocError> {
    match str::from_utf8(bytes) {
        Ok(text) => String::from_str(alloc, text),
        Err(_) => hex::encode(alloc, bytes),
    }
}

/// A sum that tells texts apart: FNV-1a of 64 bits.
fn sum_of(bytes: &[u8]) -> u64 {
    let mut sum: u64 = 14_695_981_039_346_656_037;
    for byte in bytes {
        sum = (sum ^ *byte as u64).wrapping_mul(1_099_511_628_211);
    }
    sum
}
