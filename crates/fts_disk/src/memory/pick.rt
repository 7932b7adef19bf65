//! What a crash may have left, picked by a number.
ghost use Rattle.std.specs.Prelude.{◌≡◌, ◌⊎◌, ◌+◌, ◌<◌, ◌≤◌, ℕ, true, false, length, take};
ghost use Rattle.std.specs.Prelude.{min, All, IfOk, OnOk, slice_index_or};
ghost use Rattle.fts_disk.specs.Device.{OnFile, Torn, Shortened};
ghost use Rattle.fts_disk.specs.Contents.{contents};
ghost use Rattle.fts_disk.specs.Replay.{overwritten, settles, seen_after, step_seen};
ghost use Rattle.fts_disk.specs.Replay.{IsOfFile, IsLeftIn, StepsOnDisk};

use super::Call;
use super::recorded::{copy_of, cut_in, overwrite_in};
use std::alloc::{AllocError, Global};

/// What a write that was stopped may put behind the bytes that it wrote; the first is never used.
const FILLS: [u8; 4] = [0, 0, 1, 255];

/// The digits of a number to the base 16, the lowest first.
#[derive(Drop)]
struct Digits {
    rest: u64,
}

impl Digits {
    // The next digit: its remainder by 4, and its quotient.
    fn next(&mut self) -> (u64, usize)
        ensures quotient { result.1 < 4 }
    {
        let digit = self.rest % 16;
        self.rest /= 16;
        (digit % 4, (digit / 4) as usize)
    }
}

/// The files after a stop in the call of this place, on a device that began with the first files.
pub(crate) fn image_in(
    alloc: Global,
    first: &[Vec<u8>],
    calls: &[Call],
    stop: usize,
    choice: u64,
) -> Result<Vec<Vec<u8>>, AllocError>
    requires sixteen { 16 ≤ length first.now }
    requires files { All IsOfFile calls.now }
    requires stop { stop < length calls.now }
    ensures image { IfOk result (λ image. IsLeftIn stop calls.now (contents first.now)
        (contents image.items)) }
{
    let settled = settled_before(calls, stop);
    let mut image = replayed(alloc, first, calls, settled)?;
    let mut digits = Digits { rest: choice };
    for k in settled..stop {
        tear(alloc, &mut image, &calls[k], &mut digits)?;
    }
    tear(alloc, &mut image, &calls[stop], &mut digits)?;
    Ok(image)
}

// The place behind the last sync before a stop that was done, or 0.
fn settled_before(calls: &[Call], stop: usize) -> usize
    requires { stop ≤ length calls.now }
    ensures within { result ≤ stop }
    ensures settled { (result ≡ 0) ⊎ ((k : ℕ) × (result ≡ k + 1)
        × (settles (slice_index_or calls.now k (Call.Sync false)) ≡ true)) }
    ensures pending { (k : ℕ) → result ≤ k → k < stop
        → settles (slice_index_or calls.now k (Call.Sync false)) ≡ false }
{
    let mut settled = 0;
    for k in 0..stop {
        if is_settling(&calls[k]) {
            settled = k + 1;
        }
    }
    settled
}

// Whether a call is a sync that was done.
fn is_settling(call: &Call) -> bool
    ensures { result ≡ settles call.now }
{
    match call {
        Call::Sync { done } => *done,
        _ => false,
    }
}

// The files as they read after the first calls.
fn replayed(
    alloc: Global,
    first: &[Vec<u8>],
    calls: &[Call],
    count: usize,
) -> Result<Vec<Vec<u8>>, AllocError>
    requires sixteen { 16 ≤ length first.now }
    requires files { All IsOfFile calls.now }
    requires within { count ≤ length calls.now }
    ensures seen { IfOk result (λ files. contents files.items
        ≡ seen_after (take count calls.now) (contents first.now)) }
    ensures sixteen { IfOk result (λ files. 16 ≤ length files.items) }
{
    let mut files = copy_of(alloc, first)?;
    for k in 0..count {
        redo(&mut files, &calls[k])?;
    }
    Ok(files)
}

// Does a call again.
fn redo(files: &mut Vec<Vec<u8>>, call: &Call) -> Result<(), AllocError>
    requires sixteen { 16 ≤ length files.old.items }
    requires file { IsOfFile call.now }
    ensures seen { OnOk result (contents files.new.items
        ≡ step_seen call.now (contents files.old.items)) }
    ensures count { length files.new.items ≡ length files.old.items }
{
    match call {
        Call::Write {
            file,
            at,
            bytes,
            done,
        } => {
            if *done {
                return rewrite(files, *file, *at, bytes);
            }
        }
        Call::Cut { file, len, done } => {
            if *done {
                cut_in(files, *file, *len);
            }
        }
        _ => (),
    }
    Ok(())
}

// Writes over the bytes of a file, or behind its end.
fn rewrite(files: &mut Vec<Vec<u8>>, file: u32, at: u64, bytes: &[u8]) -> Result<(), AllocError>
    requires { file < length files.old.items }
    ensures written { OnOk result (OnFile file (λ old new. new ≡ overwritten at bytes.now old)
        (contents files.old.items) (contents files.new.items)) }
    ensures count { length files.new.items ≡ length files.old.items }
{
    let place = at.min(length_in(files, file) as u64);
    overwrite_in(files, file, place, bytes)
}

// Does a part of a call, as the next digit says.
fn tear(
    alloc: Global,
    files: &mut Vec<Vec<u8>>,
    call: &Call,
    digits: &mut Digits,
) -> Result<(), AllocError>
    requires sixteen { 16 ≤ length files.old.items }
    requires file { IsOfFile call.now }
    ensures step { OnOk result (StepsOnDisk call.now (contents files.old.items)
        (contents files.new.items)) }
    ensures count { length files.new.items ≡ length files.old.items }
{
    match call {
        Call::Write {
            file,
            at,
            bytes,
            ..
        } => tear_write(alloc, files, *file, *at, bytes, digits.next()),
        Call::Cut { file, len, .. } => {
            tear_cut(files, *file, *len, digits.next().0);
            Ok(())
        }
        _ => Ok(()),
    }
}

// Writes some of the bytes, and fills the rest of the range or leaves it.
fn tear_write(
    alloc: Global,
    files: &mut Vec<Vec<u8>>,
    file: u32,
    at: u64,
    bytes: &[u8],
    digit: (u64, usize),
) -> Result<(), AllocError>
    requires file { file < length files.old.items }
    requires fill { digit.1 < 4 }
    ensures torn { OnOk result (OnFile file (Torn at (length bytes.now)) (contents files.old.items)
        (contents files.new.items)) }
    ensures count { length files.new.items ≡ length files.old.items }
{
    if at > length_in(files, file) as u64 {
        return Ok(());
    }
    let torn = torn_bytes(alloc, bytes, digit)?;
    overwrite_in(files, file, at, &torn)
}

// The front of the bytes that a stopped write wrote, and what it left behind it of their range.
fn torn_bytes(alloc: Global, bytes: &[u8], digit: (u64, usize)) -> Result<Vec<u8>, AllocError>
    requires { digit.1 < 4 }
    ensures { IfOk result (λ torn. length torn.items ≤ length bytes.now) }
{
    let part = part_of(bytes.len(), digit.0);
    let mut torn = vec![in alloc; FILLS[digit.1]; bytes.len()]?;
    torn[..part].copy_from_slice(&bytes[..part]);
    if digit.1 == 0 {
        torn.truncate(part);
    }
    Ok(torn)
}

// Cuts a file, or cuts off less.
fn tear_cut(files: &mut Vec<Vec<u8>>, file: u32, len: u64, reach: u64)
    requires { file < length files.old.items }
    ensures shortened { OnFile file (Shortened len) (contents files.old.items)
        (contents files.new.items) }
    ensures count { length files.new.items ≡ length files.old.items }
{
    let length = length_in(files, file);
    let over = length.saturating_sub(len as usize);
    let left = length - part_of(over, reach);
    cut_in(files, file, left as u64);
}

// The length of a file.
fn length_in(files: &[Vec<u8>], file: u32) -> usize
    requires { file < length files.now }
    ensures { result ≡ length (contents files.now file) }
{
    files[file as usize].len()
}

// None of these, half of them, all but one, or all.
fn part_of(count: usize, reach: u64) -> usize
    ensures { result ≤ count }
{
    match reach {
        0 => 0,
        1 => count / 2,
        2 => count.saturating_sub(1),
        _ => count,
    }
}
