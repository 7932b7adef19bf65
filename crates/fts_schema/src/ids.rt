//! The ids that a search found, as text.
ghost use Rattle.std.specs.Prelude.{◌≡◌, ◌+◌, ◌*◌, ◌≤◌, ◌∷◌, ◌++◌, decimal, drop, length, take};
ghost use Rattle.std.specs.Prelude.{OnOk, OnErr};
ghost use Rattle.fts_schema.specs.Reply.{ids_text};

use itoa::write_digits;
use std::alloc::AllocError;

/// An id takes at most so many bytes, with the space before it.
const ID_ROOM: usize = 21;

/// So many ids are written before they are put behind the text, all at once.
const TOGETHER: usize = 64;

/// The room for these.
const ROOM: usize = TOGETHER * ID_ROOM;

/// Writes an id, with a space before it, so that it ends at a place, and returns where it starts.
#[inline]
fn put_id(buf: &mut [u8], id: u64, end: usize) -> usize
    requires room { 21 ≤ end }
    requires within { end ≤ length buf.old }
    ensures written { drop result buf.new ≡ 32 ∷ (decimal id ++ drop end buf.old) }
    ensures start { end ≤ result + 21 }
    ensures size { length buf.new ≡ length buf.old }
{
    let start = write_digits(id, buf, end) - 1;
    buf[start] = b' ';
    start
}

/// Writes ids, each with a space before it, so that they end with the buffer, and returns where
/// they start.
fn put_ids(buf: &mut [u8], ids: &[u64]) -> usize
    requires { length ids.now * 21 ≤ length buf.old }
    ensures written { drop result buf.new ≡ ids_text ids.now }
    ensures within { result ≤ length buf.new }
    ensures size { length buf.new ≡ length buf.old }
{
    let mut at = buf.len();
    let mut left = ids.len();
    while left > 0 {
        left -= 1;
        at = put_id(buf, ids[left], at);
    }
    at
}

/// Writes some ids, at most as many as the buffer has room for, behind a text.
fn push_some(text: &mut Vec<u8>, buf: &mut [u8], ids: &[u64]) -> Result<(), AllocError>
    requires { length ids.now * 21 ≤ length buf.old }
    ensures text { OnOk result (text.new.items ≡ text.old.items ++ ids_text ids.now) }
    ensures err { OnErr result (text.new.items ≡ text.old.items) }
    ensures size { length buf.new ≡ length buf.old }
{
    let start = put_ids(buf, ids);
    text.extend_from_slice(&buf[start..])
}

/// Writes ids behind a text, each with a space before it. Where memory runs out, some may stand
/// behind it.
pub fn push_ids(text: &mut Vec<u8>, ids: &[u64]) -> Result<(), AllocError>
    ensures ok { OnOk result (text.new.items ≡ text.old.items ++ ids_text ids.now) }
    ensures kept { OnErr result (take (length text.old.items) text.new.items ≡ text.old.items) }
{
    let mut buf = [0; ROOM];
    let mut rest = ids;
    while !rest.is_empty() {
        let (some, others) = rest.split_at(rest.len().min(TOGETHER));
        push_some(text, &mut buf, some)?;
        rest = others;
    }
    Ok(())
}
