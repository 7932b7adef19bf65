//! Reading lists from left to right, each item tried where it stands.
ghost use Rattle.std.specs.Prelude.{◌≡◌, ◌+◌, ◌^◌, ◌<◌, ◌≤◌, ◌++◌, ◌↔◌, ℕ, length, drop};
ghost use Rattle.std.specs.Prelude.{slice_index, IsTrue, IfOk, IfErr};
ghost use Rattle.fts_ilist.specs.Number.{number_bytes, BeginsWithNumber};
ghost use Rattle.fts_ilist.specs.Reading.{postings_in};
ghost use Rattle.fts_ilist.specs.Reading.State.{between, inside};
ghost use Rattle.fts_ilist.specs.Fault.{IsFirstFault};
ghost use Rattle.fts_ilist.specs.Progress.{ReadsItems, GetsStuck, ReadsIncrease, HasNoIncrease};
ghost use Rattle.fts_ilist.specs.Progress.{ReadsBody, ReadsDocument, is_end, BeginsBody, EndsBody};
ghost use Rattle.fts_ilist.specs.Progress.{HasNoEndBefore};
ghost use Rattle.std.specs.Prelude.{if◌then◌else◌, nat_lt, ◌-◌};

use crate::block::{LANES, bytes_before_end};
use crate::number::{Bad, take_number};
use memchr::memchr;

/// The largest id of a document.
pub const LAST_ID: u64 = (1 << 63) - 1;

/// The largest position.
pub const LAST_POSITION: u32 = 131_071;

/// Where a document stands: its id, the place of its first position, and the place behind its end.
#[derive(Clone, Copy)]
pub(crate) struct Placed {
    pub id: u64,
    pub start: usize,
    pub end: usize,
}

/// The number at a place, and the place behind it.
#[inline]
fn number_at(bytes: &[u8], at: usize) -> Result<(u64, usize), Bad>
    requires { at ≤ length bytes.now }
    ensures found { IfOk result (λ r. drop at bytes.now ≡ number_bytes r.0 ++ drop r.1 bytes.now) }
    ensures order { IfOk result (λ r. at < r.1) }
    ensures within { IfOk result (λ r. r.1 ≤ length bytes.now) }
    ensures place { IfErr result (λ bad. bad.at ≡ at) }
    ensures none { IfErr result (λ bad. BeginsWithNumber (drop at bytes.now) → ⊥) }
{
    match take_number(&bytes[at..]) {
        Ok((n, len)) => Ok((n, at + len)),
        Err(_) => Err(Bad { at }),
    }
}

/// The value to which the increase at a place brings `last`, and the place behind it.
#[inline]
pub(crate) fn increase_at(
    bytes: &[u8],
    at: usize,
    last: u64,
    limit: u64,
) -> Result<(u64, usize), Bad>
    requires within { at ≤ length bytes.now }
    requires limit { last ≤ limit }
    ensures found { IfOk result (λ r. ReadsIncrease bytes.now at last limit r.0 r.1) }
    ensures place { IfErr result (λ bad. bad.at ≡ at) }
    ensures none { IfErr result (λ bad. HasNoIncrease bytes.now at last limit) }
{
    let (increase, end) = number_at(bytes, at)?;
    if increase == 0 {
        return Err(Bad { at });
    }
    if increase > limit - last {
        return Err(Bad { at });
    }
    Ok((last + increase, end))
}

/// Whether a document ends here, `next` being its last position + 1.
#[inline]
fn ends_at(bytes: &[u8], at: usize, next: u64) -> bool
    ensures { IsTrue result ↔ ((0 < next) × (at < length bytes.now)
        × (slice_index bytes.now at ≡ 0)) }
{
    next > 0 && at < bytes.len() && bytes[at] == 0
}

/// The place behind the document whose positions begin at `start`.
fn document_end(bytes: &[u8], start: usize) -> Result<usize, Bad>
    requires { start ≤ length bytes.now }
    ensures found { IfOk result (λ end. ReadsBody bytes.now start end) }
    ensures stuck { IfErr result (λ bad. (id : ℕ)
        → GetsStuck bytes.now start (inside id 0) bad.at) }
{
    let mut at = start;
    let mut next = 0;
    while !ends_at(bytes, at, next) {
        let (value, end) = increase_at(bytes, at, next, LAST_POSITION as u64 + 1)?;
        next = value;
        at = end;
    }
    Ok(at + 1)
}

/// The document at a place behind the id `last`.
pub(crate) fn document_at(bytes: &[u8], at: usize, last: u64) -> Result<Placed, Bad>
    requires within { at < length bytes.now }
    requires limit { last < 2 ^ 63 }
    ensures found { IfOk result (λ d. ReadsDocument bytes.now at last d.id d.start d.end) }
    ensures stuck { IfErr result (λ bad. GetsStuck bytes.now at (between last) bad.at) }
{
    let (id, start) = increase_at(bytes, at, last, LAST_ID)?;
    let end = document_end(bytes, start)?;
    Ok(Placed { id, start, end })
}

/// The id of the last document of the list that the bytes are, and the number of its documents.
pub(crate) fn last_of(bytes: &[u8]) -> Result<(u64, usize), Bad>
    ensures found { IfOk result (λ r. ReadsItems bytes.now 0 (between 0) (length bytes.now)
        (between r.0)) }
    ensures count { IfOk result (λ r. r.1 ≡ length (postings_in 0 bytes.now)) }
    ensures fault { IfErr result (λ bad. IsFirstFault bytes.now bad.at) }
{
    let mut at = 0;
    let mut last = 0;
    let mut count = 0;
    while at < bytes.len() {
        let document = document_at(bytes, at, last)?;
        last = document.id;
        at = document.end;
        count += 1;
    }
    Ok((last, count))
}

/// Whether a document ends with this byte, behind the byte before.
#[inline]
fn is_document_end(before: u8, byte: u8) -> bool
    ensures { result ≡ is_end before byte }
{
    byte == 0 && before >= 128
}

/// The byte before a place, where from an earlier place on none is 00 and this one stands before
/// that.
#[inline]
fn byte_before(bytes: &[u8], from: usize, end: usize, before: u8) -> u8
    requires order { from ≤ end }
    requires within { end ≤ length bytes.now }
    ensures { result ≡ (if nat_lt from end then slice_index bytes.now (end - 1) else before) }
{
    if from < end { bytes[end - 1] } else { before }
}

/// The first end of a document from a place on, found by its 00, many bytes at once. Before the
/// place stands this byte, and no end.
fn far_body_len(bytes: &[u8], from: usize, last: u8) -> usize
    requires body { BeginsBody bytes.now }
    requires from { from ≤ length bytes.now }
    requires passed { HasNoEndBefore bytes.now from last }
    ensures { EndsBody bytes.now result }
{
    let mut at = from;
    let mut before = last;
    while let Some(passed) = memchr(0, &bytes[at..]) {
        let end = at + passed;
        if is_document_end(byte_before(bytes, at, end, before), 0) {
            return end + 1;
        }
        before = 0;
        at = end + 1;
    }
    unreachable!()
}

/// What `body_len` tells, of few bytes: they are looked at one by one.
fn short_body_len(bytes: &[u8]) -> usize
    requires { BeginsBody bytes.now }
    ensures { EndsBody bytes.now result }
{
    let mut before = 0;
    for (at, byte) in bytes.iter().enumerate() {
        if is_document_end(before, *byte) {
            return at + 1;
        }
        before = *byte;
    }
    unreachable!()
}

/// How many bytes a document's positions and its end take, at the front of bytes that are known to
/// be right: up to the first 00 behind a byte of 128 or more. No position is decoded, and mostly no
/// branch hangs on how many bytes there are.
#[inline]
pub(crate) fn body_len(bytes: &[u8]) -> usize
    requires { BeginsBody bytes.now }
    ensures { EndsBody bytes.now result }
{
    if bytes.len() <= LANES {
        return short_body_len(bytes);
    }
    let passed = bytes_before_end(bytes);
    if passed < LANES {
        return passed + 2;
    }
    far_body_len(bytes, LANES + 1, bytes[LANES])
}
