//! What a case does to its world before a run.

use crate::device::Device;
use crate::world::{Faulty, World};
use fts_disk::Kind;
use fts_types::Limits;
use std::alloc::{AllocError, Global};

/// Does what the words ask for of a device. Returns whether they ask for anything.
pub fn change(alloc: Global, device: &mut Device, words: &[&str]) -> Result<bool, AllocError> {
    match words {
        ["fail", _, kind, number] => fail(device, kind, number),
        ["put", _, text] => {
            device.bytes = bytes_of(alloc, text)?;
            Ok(true)
        }
        ["add", _, text] => {
            device.bytes.extend_from_slice(&bytes_of(alloc, text)?)?;
            Ok(true)
        }
        ["set", _, place, byte] => Ok(set(device, place, byte)),
        ["flip", _, place, bits] => Ok(flip(device, place, bits)),
        ["cut", _, length] => Ok(cut(device, length)),
        ["stop", _, call, choice] => stop(alloc, device, call, choice),
        ["whole", _] => {
            device.take_all(alloc)?;
            Ok(true)
        }
        _ => Ok(false),
    }
}

/// The bytes that hex digits stand for, none where they are no such digits.
pub fn bytes_of(alloc: Global, text: &str) -> Result<Vec<u8>, AllocError> {
    match hex::decode(alloc, text) {
        Ok(bytes) => Ok(bytes),
        Err(_) => Ok(Vec::new(alloc)),
    }
}

fn kind_of(word: &str) -> Option<Kind> {
    match word {
        "len" => Some(Kind::Len),
        "read" => Some(Kind::Read),
        "write" => Some(Kind::Write),
        "cut" => Some(Kind::Cut),
        "sync" => Some(Kind::Sync),
        _ => None,
    }
}

/// The call of this kind and number fails in the next run.
fn fail(device: &mut Device, kind: &str, number: &str) -> Result<bool, AllocError> {
    match (kind_of(kind), number.parse::<u64>()) {
        (Some(kind), Ok(number)) => {
            device.fails.push((kind, number))?;
            Ok(true)
        }
        _ => Ok(false),
    }
}

fn set(device: &mut Device, place: &str, byte: &str) -> bool {
    match (place.parse::<usize>(), byte.parse::<u8>()) {
        (Ok(place), Ok(byte)) => {
            device.set(place, byte);
            true
        }
        _ => false,
    }
}

fn flip(device: &mut Device, place: &str, bits: &str) -> bool {
    match (place.parse::<usize>(), bits.parse::<u8>()) {
        (Ok(place), Ok(bits)) => {
            device.flip(place, bits);
            true
        }
        _ => false,
    }
}

fn cut(device: &mut Device, length: &str) -> bool {
    match length.parse::<usize>() {
        Ok(length) => {
            device.bytes.truncate(length);
            true
        }
        Err(_) => false,
    }
}

fn stop(alloc: Global, device: &mut Device, call: &str, choice: &str) -> Result<bool, AllocError> {
    match (call.parse::<usize>(), choice.parse::<u64>()) {
        (Ok(call), Ok(choice)) => {
            device.stop(alloc, call, choice)?;
            Ok(true)
        }
        _ => Ok(false),
    }
}

/// The next run's source or sink fails at a call, and has so many bytes a call.
pub fn faulty(call: &str, most: &str) -> Option<Faulty> {
    match (call.parse::<u64>(), most.parse::<usize>()) {
        (Ok(call), Ok(most)) => Some(Faulty { call, most }),
        _ => None,
    }
}

/// Lowers a limit of the runs of the case. Returns whether there is one of this name.
pub fn limit(world: &mut World, name: &str, number: &str) -> bool {
    let limits = world.limits.unwrap_or(Limits::standard());
    let lowered = match number.parse::<u64>() {
        Ok(most) => with_limit(limits, name, most),
        Err(_) => None,
    };
    match lowered {
        Some(limits) => {
            world.limits = Some(limits);
            true
        }
        None => false,
    }
}

fn with_limit(limits: Limits, name: &str, most: u64) -> Option<Limits> {
    match name {
        "rows" => Some(Limits {
            rows: most,
            ..limits
        }),
        "ids" => Some(Limits {
            ids: most,
            ..limits
        }),
        "log_bytes" => Some(Limits {
            log_bytes: most,
            ..limits
        }),
        _ => None,
    }
}
