//! Readers of the front of some bytes: what stands there, and what stands behind it.

ghost use Rattle.std.specs.Int.{w16, w32, w64};
ghost use Rattle.fts_codec.specs.Reading.{Finds, behind_at, number_at, piece_at};

use byteorder::{BigEndian, ByteOrder};

/// What stands behind this byte.
pub fn behind(bytes: &[u8], byte: u8) -> Option<&[u8]>
    ensures { Finds (λ rest. rest.now) result (behind_at byte bytes.now) }
{
    let (first, rest) = bytes.split_first()?;
    if *first != byte {
        return None;
    }
    Some(rest)
}

/// A number of two bytes.
#[tactic(auto, using(crate::proofs::Numbers::big16))]
pub fn u16_at(bytes: &[u8]) -> Option<(u16, &[u8])>
    ensures { Finds (λ x. (x.0, x.1.now)) result (number_at w16 bytes.now) }
{
    let (number, rest) = bytes_at(bytes, 2)?;
    Some((BigEndian::read_u16(number), rest))
}

/// A number of four bytes.
#[tactic(auto, using(crate::proofs::Numbers::big32))]
pub fn u32_at(bytes: &[u8]) -> Option<(u32, &[u8])>
    ensures { Finds (λ x. (x.0, x.1.now)) result (number_at w32 bytes.now) }
{
    let (number, rest) = bytes_at(bytes, 4)?;
    Some((BigEndian::read_u32(number), rest))
}

/// A number of eight bytes.
#[tactic(auto, using(crate::proofs::Numbers::big64))]
pub fn u64_at(bytes: &[u8]) -> Option<(u64, &[u8])>
    ensures { Finds (λ x. (x.0, x.1.now)) result (number_at w64 bytes.now) }
{
    let (number, rest) = bytes_at(bytes, 8)?;
    Some((BigEndian::read_u64(number), rest))
}

/// So many bytes.
pub fn bytes_at(bytes: &[u8], count: usize) -> Option<(&[u8], &[u8])>
    ensures { Finds (λ x. (x.0.now, x.1.now)) result (piece_at count bytes.now) }
{
    if bytes.len() < count {
        return None;
    }
    Some(bytes.split_at(count))
}
