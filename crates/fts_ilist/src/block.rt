//! Where a document ends, by sixteen places at once.
ghost use Rattle.std.specs.Prelude.{◌≡◌, ℕ, ◌+◌, ◌<◌, ◌≤◌, length, slice_index, true, false};
ghost use Rattle.fts_ilist.specs.Progress.{is_end, first_set};

use std::simd::prelude::*;

/// So many places are looked at together.
pub(crate) const LANES: usize = 16;

/// The place of the lowest bit that is set, and the number of lanes where none is.
#[inline(always)]
fn first_set(mask: u64) -> usize
    ensures { result ≡ first_set mask }
{
    if mask == 0 {
        LANES
    } else {
        mask.trailing_zeros() as usize
    }
}

/// How many of the first 16 bytes stand before the first behind which a document's end stands.
#[inline(always)]
pub(crate) fn bytes_before_end(bytes: &[u8]) -> usize
    requires { 17 ≤ length bytes.now }
    ensures within { result ≤ 16 }
    ensures none { (k : ℕ) → k < result
        → is_end (slice_index bytes.now k) (slice_index bytes.now (k + 1)) ≡ false }
    ensures some { result < 16
        → is_end (slice_index bytes.now result) (slice_index bytes.now (result + 1)) ≡ true }
{
    let may_end = u8x16::from_slice(bytes).simd_ge(u8x16::splat(128));
    let are_zero = u8x16::from_slice(&bytes[1..]).simd_eq(u8x16::splat(0));
    first_set((may_end & are_zero).to_bitmask())
}
