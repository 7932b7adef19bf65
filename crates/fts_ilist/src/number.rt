//! Numbers as bytes: groups of seven bits, the most significant first, in the fewest bytes, with
//! the high bit set on the last byte alone.
ghost use Rattle.std.specs.Prelude.{◌≡◌, ℕ, ◌+◌, ◌^◌, ◌<◌, ◌≤◌, List, ◌++◌, length, drop, Ok, IfOk};
ghost use Rattle.std.specs.Prelude.{IfErr, OnErr, IfSome, IfNone, vec_len, vec_capacity};
ghost use Rattle.fts_ilist.specs.Number.{number_bytes, BeginsWithNumber};
ghost use Rattle.fts_ilist.specs.declared.number.TheConstants.{NUMBER_ROOM};

use std::error::Error;
use std::fmt;

/// How many bytes the longest number takes.
pub const NUMBER_ROOM: usize = 10;

/// The bytes are not what should stand there.
#[derive(Clone, Copy, Debug, PartialEq, Eq)]
pub struct Bad {
    /// The place, from 0, at which the first faulty item begins, or the length where an item is
    /// missing at the end.
    pub at: usize,
}

impl fmt::Display for Bad {
    fn fmt<W: fmt::Write>(&self, f: &mut fmt::Formatter<W>) -> fmt::Result {
        write!(f, "faulty item at byte {}", self.at)
    }
}

impl Error for Bad {}

/// How many bytes the number takes, from 1 to 10.
pub(crate) fn number_len(n: u64) -> usize
    ensures length { result ≡ length (number_bytes n) }
    ensures room { result ≤ NUMBER_ROOM }
{
    let mut len = 1;
    let mut rest = n / 128;
    while rest > 0 {
        len += 1;
        rest /= 128;
    }
    len
}

/// Writes the number at the front of the buffer, and returns how many bytes it takes, from 1 to 10.
/// The rest of the buffer stays.
pub fn put_number(n: u64, buf: &mut [u8]) -> usize
    requires { NUMBER_ROOM ≤ length buf.old }
    ensures length { result ≡ length (number_bytes n) }
    ensures room { result ≤ NUMBER_ROOM }
    ensures bytes { buf.new ≡ number_bytes n ++ drop result buf.old }
{
    let len = number_len(n);
    let mut at = len - 1;
    let mut rest = n / 128;
    buf[at] = (n % 128) as u8 + 128;
    while at > 0 {
        at -= 1;
        buf[at] = (rest % 128) as u8;
        rest /= 128;
    }
    len
}

/// The number at the front and how many bytes it takes, where there is one. Most have one byte.
#[inline]
fn first_number(bytes: &[u8]) -> Option<(u64, usize)>
    ensures found { IfSome result (λ taken. bytes.now
        ≡ number_bytes taken.0 ++ drop taken.1 bytes.now) }
    ensures length { IfSome result (λ taken. taken.1 ≡ length (number_bytes taken.0)) }
    ensures none { IfNone result (BeginsWithNumber bytes.now → ⊥) }
{
    match bytes {
        [byte, ..] if *byte >= 128 => Some((u64::from(*byte - 128), 1)),
        _ => any_number(bytes),
    }
}

/// The number at the front, of any length.
fn any_number(bytes: &[u8]) -> Option<(u64, usize)>
    ensures found { IfSome result (λ taken. bytes.now
        ≡ number_bytes taken.0 ++ drop taken.1 bytes.now) }
    ensures length { IfSome result (λ taken. taken.1 ≡ length (number_bytes taken.0)) }
    ensures none { IfNone result (BeginsWithNumber bytes.now → ⊥) }
{
    let mut value: u64 = 0;
    for (i, byte) in bytes.iter().enumerate() {
        let byte = u64::from(*byte);
        if value >= 1 << 57 {
            return None;
        }
        if byte >= 128 {
            return Some((value * 128 + (byte - 128), i + 1));
        }
        if value + byte == 0 {
            return None;
        }
        value = value * 128 + byte;
    }
    None
}

/// Reads the number at the front, and returns it with how many bytes it takes. Any bytes may follow
/// it.
///
/// # Errors
///
/// `Bad { at: 0 }` where the bytes don't begin with a number: none is there or it has no end, it
/// begins with a group of zeros, or it is above 2^64 - 1.
#[inline]
pub fn take_number(bytes: &[u8]) -> Result<(u64, usize), Bad>
    ensures found { IfOk result (λ taken. bytes.now
        ≡ number_bytes taken.0 ++ drop taken.1 bytes.now) }
    ensures length { IfOk result (λ taken. taken.1 ≡ length (number_bytes taken.0)) }
    ensures read_back { (n : ℕ) (rest : List ℕ) → n < 2 ^ 64 → bytes.now ≡ number_bytes n ++ rest
        → result ≡ Ok (n, length (number_bytes n)) }
    ensures none { OnErr result (BeginsWithNumber bytes.now → ⊥) }
    ensures place { IfErr result (λ bad. bad.at ≡ 0) }
{
    match first_number(bytes) {
        Some(taken) => Ok(taken),
        None => Err(Bad { at: 0 }),
    }
}

/// The number at the front of bytes that begin with one, and how many bytes it takes. Nothing is
/// tried.
#[inline]
pub(crate) fn front_number(bytes: &[u8]) -> (u64, usize)
    requires { BeginsWithNumber bytes.now }
    ensures found { bytes.now ≡ number_bytes result.0 ++ drop result.1 bytes.now }
    ensures length { result.1 ≡ length (number_bytes result.0) }
{
    let mut value: u64 = 0;
    let mut at = 0;
    while bytes[at] < 128 {
        value = value * 128 + u64::from(bytes[at]);
        at += 1;
    }
    (value * 128 + u64::from(bytes[at] - 128), at + 1)
}

/// Each number has one spelling, and none begins another.
pub fn numbers_have_one_spelling()
    ensures { (m n : ℕ) (x y : List ℕ) → number_bytes m ++ x ≡ number_bytes n ++ y
        → (m ≡ n) × (x ≡ y) }
{}

/// Writes the number at the end, within the capacity.
#[inline]
pub(crate) fn put_in_room(out: &mut Vec<u8>, n: u64)
    requires { vec_len out.old + length (number_bytes n) ≤ vec_capacity out.old }
    ensures items { out.new.items ≡ out.old.items ++ number_bytes n }
    ensures len { vec_len out.new ≡ vec_len out.old + length (number_bytes n) }
    ensures capacity { vec_capacity out.old ≤ vec_capacity out.new }
{
    if n < 128 {
        out.push_reserved(n as u8 + 128);
        return;
    }
    if n < 128 * 128 {
        out.push_reserved((n / 128) as u8);
        out.push_reserved((n % 128) as u8 + 128);
        return;
    }
    let mut buf = [0; NUMBER_ROOM];
    let len = put_number(n, &mut buf);
    out.extend_from_slice(&buf[..len]).unwrap();
}
