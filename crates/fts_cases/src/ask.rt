//! What a case asks of a device behind a run.

use crate::device::Device;
use fts_disk::Call;
use std::alloc::{AllocError, Global};

/// The answer to what the words ask of a device, or None where they ask for nothing.
pub fn ask(alloc: Global, device: &Device, words: &[&str]) -> Result<Option<String>, AllocError> {
    match words {
        ["length", name] => Ok(Some(format!(in alloc; "length {name} {}\n", device.bytes.len())?)),
        ["bytes", name] => {
            let text = hex::encode(alloc, &device.bytes)?;
            Ok(Some(format!(in alloc; "bytes {name} {text}\n")?))
        }
        ["calls", name] => Ok(Some(format!(in alloc;
            "calls {name} {}\n",
            device.last.calls().len()
        )?)),
        ["log", _, first] => log_from(alloc, device.last.calls(), first),
        ["same", name] => {
            let is_same = device.bytes.as_slice() == device.last.file(0);
            Ok(Some(format!(in alloc; "same {name} {is_same}\n")?))
        }
        _ => Ok(None),
    }
}

/// The calls of the last run from one on, by its number from 0.
fn log_from(alloc: Global, calls: &[Call], first: &str) -> Result<Option<String>, AllocError> {
    let Ok(first) = first.parse::<usize>() else {
        return Ok(None);
    };
    match calls.get(first..) {
        Some(calls) => Ok(Some(log(alloc, calls)?)),
        None => Ok(None),
    }
}

/// Calls, a line each.
fn log(alloc: Global, calls: &[Call]) -> Result<String, AllocError> {
    let mut text = String::new(alloc);
    for call in calls {
        text.push_str(call_of(alloc, call)?.as_str())?;
    }
    Ok(text)
}

fn call_of(alloc: Global, call: &Call) -> Result<String, AllocError> {
    match call {
        Call::Len { file, done } => format!(in alloc; "len {file} {}\n", end_of(*done)),
        Call::Read {
            file,
            at,
            length,
            done,
        } => format!(in alloc; "read {file} {at} {length} {}\n", end_of(*done)),
        Call::Write {
            file,
            at,
            bytes,
            done,
        } => {
            let text = hex::encode(alloc, bytes)?;
            format!(in alloc; "write {file} {at} {text} {}\n", end_of(*done))
        }
        Call::Cut { file, len, done } => {
            format!(in alloc; "cut {file} {len} {}\n", end_of(*done))
        }
        Call::Sync { done } => format!(in alloc; "sync {}\n", end_of(*done)),
    }
}

fn end_of(done: bool) -> &'static str {
    if done { "done" } else { "failed" }
}
