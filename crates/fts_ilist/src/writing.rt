//! Writing documents at the end of bytes, within their capacity.
ghost use Rattle.std.specs.Prelude.{◌≡◌, ◌+◌, ◌*◌, ◌^◌, ◌<◌, ◌≤◌, ◌++◌, [], ◌∷◌, length, vec_len};
ghost use Rattle.std.specs.Prelude.{vec_capacity};
ghost use Rattle.fts_ilist.specs.Number.{number_bytes};
ghost use Rattle.fts_ilist.specs.Spelling.{items_bytes, position_items, ArePositions};
ghost use Rattle.fts_ilist.specs.Queue.{bytes_for};
ghost use Rattle.fts_ilist.specs.declared.number.TheConstants.{NUMBER_ROOM};

use crate::number::{NUMBER_ROOM, put_in_room};

/// How many bytes a document with so many positions takes at most.
pub(crate) fn bytes_for_document(count: usize) -> usize
    requires { count ≤ 131072 }
    ensures { result ≡ bytes_for count }
{
    3 * count + 10
}

/// Writes positions at the end, within the capacity.
#[inline]
fn put_positions(out: &mut Vec<u8>, positions: &[u32])
    requires positions { ArePositions positions.now }
    requires room { vec_len out.old + 3 * length positions.now ≤ vec_capacity out.old }
    ensures items { out.new.items ≡ out.old.items ++ items_bytes (position_items 0 positions.now) }
    ensures len { vec_len out.new ≤ vec_len out.old + 3 * length positions.now }
    ensures capacity { vec_capacity out.old ≤ vec_capacity out.new }
{
    let mut next = 0;
    for position in positions {
        put_in_room(out, u64::from(*position + 1 - next));
        next = *position + 1;
    }
}

/// Writes a document at the end, within the capacity: the increase of its id, its positions, its
/// end.
#[inline]
pub(crate) fn put_posting(out: &mut Vec<u8>, increase: u64, positions: &[u32])
    requires positions { ArePositions positions.now }
    requires limit { increase < 2 ^ 63 }
    requires room { vec_len out.old + bytes_for (length positions.now) ≤ vec_capacity out.old }
    ensures items { out.new.items ≡ out.old.items
        ++ (number_bytes increase ++ (items_bytes (position_items 0 positions.now) ++ 0 ∷ [])) }
    ensures len { vec_len out.new ≤ vec_len out.old + bytes_for (length positions.now) }
    ensures capacity { vec_capacity out.old ≤ vec_capacity out.new }
{
    put_in_room(out, increase);
    put_positions(out, positions);
    out.push_reserved(0);
}

/// Writes an increase and the bytes behind it at the end, within the capacity.
pub(crate) fn put_tail(out: &mut Vec<u8>, increase: u64, tail: &[u8])
    requires { vec_len out.old + (length tail.now + NUMBER_ROOM) ≤ vec_capacity out.old }
    ensures items { out.new.items ≡ out.old.items ++ (number_bytes increase ++ tail.now) }
    ensures len { vec_len out.new ≤ vec_len out.old + (length tail.now + NUMBER_ROOM) }
    ensures capacity { vec_capacity out.old ≤ vec_capacity out.new }
{
    put_in_room(out, increase);
    out.extend_from_slice(tail).unwrap();
}

/// Writes a document at the end, within the capacity: the increase of its id, its encoded
/// positions, its end.
pub(crate) fn put_document(out: &mut Vec<u8>, increase: u64, encoded: &[u8])
    requires { vec_len out.old + (length encoded.now + NUMBER_ROOM) < vec_capacity out.old }
    ensures { out.new.items ≡ out.old.items ++ (number_bytes increase ++ (encoded.now ++ 0 ∷ [])) }
{
    put_tail(out, increase, encoded);
    out.push_reserved(0);
}
