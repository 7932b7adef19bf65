//! The engine under the turn.
ghost use Rattle.std.specs.Prelude.{◌≤◌, ◌^◌};

use fts_disk::Disk;
use fts_engine::Engine;

/// How many faults of reads are counted at most.
pub(crate) const MOST_READ_FAULTS: u64 = 1 << 62;

/// An engine that threads use one at a time, and how many of their reads failed.
#[derive(Drop)]
pub struct AtTurn<D: Disk, E: Disk> {
    pub(crate) engine: Engine<D, E>,
    pub(crate) read_faults: u64,
    ghost few: { read_faults ≤ 2 ^ 62 },
}
