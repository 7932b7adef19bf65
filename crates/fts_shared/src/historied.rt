//! What the engine under the turn stands for.
use crate::{AtTurn, Noted};
use fts_disk::Disk;
use fts_turn::Historied;

impl<D: Disk, E: Disk> Historied for AtTurn<D, E> {
    ghost use Rattle.fts_shared.specs.History.{StandsFor, entries_at, few};

    type Entry = Noted;

    ghost stands_for = { λ first now history. StandsFor first now history };

    ghost at_first = { entries_at };

    ghost by = { λ entry. entry.by };

    fn count_at_first(&self) -> u64 {
        self.engine.tally() + self.read_faults
    }

    ghost few = { few };
}
