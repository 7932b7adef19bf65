//! What an opening found.
ghost use Rattle.std.specs.Prelude.{◌≡◌, ◌+◌, ◌*◌, ◌-◌, ◌^◌, ◌<◌, ◌≤◌, length, slice_index};
ghost use Rattle.fts_log.specs.Place.{start_of, AreWithin, IsSpaced};

use std::alloc::Global;

/// Where the first record begins, behind the magic.
pub(crate) const FIRST: u64 = 8;

/// Where the whole records end that were found, one place an entry; where the next gate should
/// stand, and whether it is a closed one.
#[derive(Drop)]
pub(crate) struct Found {
    pub(crate) alloc: Global,
    pub(crate) ends: Vec<u64>,
    pub(crate) gate: u64,
    pub(crate) is_whole: bool,
    ghost spaced: { IsSpaced ends.items },
    ghost few: { 5 * length ends.items ≤ gate },
    ghost within: { gate < 2 ^ 63 },
    ghost before: { AreWithin (gate + 1) ends.items },
}

impl Found {
    /// Where the gate of entry `k` stands.
    pub(crate) fn gate_of(&self, k: usize) -> u64
        requires { k < length self.now.ends.items }
        ensures { result ≡ start_of self.now.ends.items k }
    {
        if k == 0 { FIRST } else { self.ends[k - 1] }
    }

    /// Where the payload of entry `k` begins, and how many bytes it has.
    pub(crate) fn payload_at(&self, k: usize) -> (u64, usize)
        requires { k < length self.now.ends.items }
        ensures start { result.0 ≡ start_of self.now.ends.items k + 5 }
        ensures size { result.1 ≡ slice_index self.now.ends.items
            k - (start_of self.now.ends.items k + 5) }
    {
        let end = self.ends[k];
        let payload = self.gate_of(k) + 5;
        (payload, (end - payload) as usize)
    }
}
