//! Steps under the turn: each takes the value, makes its step and gives the value back.
ghost use Rattle.std.specs.Prelude.{◌≡◌, ◌++◌, length, IfErr};
ghost use Rattle.fts_commits.specs.Fits.{CanCommit};
ghost use Rattle.fts_query.specs.Seen.{leaves_seen};
ghost use Rattle.fts_steps.specs.Step.{to_commit, to_sync, to_optimize, to_view, to_list};
ghost use Rattle.fts_steps.specs.Step.{to_measure, measured, read_changes, Steps};
ghost use Rattle.fts_steps.specs.Answers.{commit_answer_of, sync_answer_of, view_answer_of};
ghost use Rattle.fts_steps.specs.Answers.{listing_answer_of, optimize_answer_of};
ghost use Rattle.fts_engine.specs.Stands.{engine_settings};
ghost use Rattle.fts_turn.specs.Promises.{IsAtRest, HasItsTurn, seat_number, seat_seen};
ghost use Rattle.fts_turn.specs.Promises.{opening_of};
ghost use Rattle.fts_shared.specs.History.{StandsFor, noted, read_fault};
ghost use Rattle.fts_shared.specs.Shared.{first_of, seat_sight, IsGivenBack};

use crate::at_turn::MOST_READ_FAULTS;
use crate::told::{CommitTold, OptimizeTold, ReadTold, SyncTold, Told};
use crate::{AtTurn, Noted};
use fts_commits::Change;
use fts_disk::Disk;
use fts_listing::{ListingKind, NumberedListing};
use fts_query::{Leaf, View};
use fts_steps::{CommitError, IndexError, OptimizeStep, SyncBatch, ViewError};
use fts_turn::{Adds, Seat, Turns};
use std::marker::Brand;
use std::sync::Wait;

// Gives the value back with what the step's result tells that it added.
fn give_back<B: Adds<Noted>, W: Told, D: Disk, E: Disk>(
    turn: &Turns<AtTurn<D, E>>,
    seat: &mut Seat<AtTurn<D, E>>,
    value: AtTurn<D, E>,
    told: &W,
)
    requires turn { HasItsTurn turn.now seat.old }
    requires added { B.added ≡ noted (seat_number seat.old) (W.adds told.now) }
    requires stands { StandsFor (opening_of turn.now) value (seat_seen seat.old ++ B.added) }
    ensures { IsGivenBack turn.now (noted (seat_number seat.old) (W.adds told.now))
        seat.old seat.new }
{
    turn.give::<B>(seat, value, told.count());
}

/// A commit.
pub(crate) fn commit_in_turn<R: Wait, D: Disk, E: Disk>(
    rt: &R,
    turn: &Turns<AtTurn<D, E>>,
    seat: &mut Seat<AtTurn<D, E>>,
    changes: &[Change],
) -> Result<u64, CommitError>
    requires rest { IsAtRest turn.now seat.old }
    requires fits { CanCommit (length (engine_settings (first_of turn.now)).columns) changes.now }
    ensures rest { IsAtRest turn.now seat.new }
    ensures steps { Steps seat_sight (to_commit changes.now) (commit_answer_of result)
        (turn.now, seat.old) (turn.now, seat.new) }
{
    let mut value = turn.take(rt, seat);
    let made = value.engine.commit(changes);
    let told = CommitTold {
        changes,
        made: &made,
    };
    give_back::<Brand, CommitTold, D, E>(turn, seat, value, &told);
    made
}

/// A batch.
pub(crate) fn sync_in_turn<R: Wait, D: Disk, E: Disk>(
    rt: &R,
    turn: &Turns<AtTurn<D, E>>,
    seat: &mut Seat<AtTurn<D, E>>,
) -> Result<SyncBatch, IndexError>
    requires rest { IsAtRest turn.now seat.old }
    ensures rest { IsAtRest turn.now seat.new }
    ensures steps { Steps seat_sight to_sync (sync_answer_of result)
        (turn.now, seat.old) (turn.now, seat.new) }
{
    let mut value = turn.take(rt, seat);
    let made = value.engine.sync_batch();
    let told = SyncTold { made: &made };
    give_back::<Brand, SyncTold, D, E>(turn, seat, value, &told);
    made
}

/// A step of OPTIMIZE.
pub(crate) fn optimize_in_turn<R: Wait, D: Disk, E: Disk>(
    rt: &R,
    turn: &Turns<AtTurn<D, E>>,
    seat: &mut Seat<AtTurn<D, E>>,
) -> Result<OptimizeStep, IndexError>
    requires rest { IsAtRest turn.now seat.old }
    ensures rest { IsAtRest turn.now seat.new }
    ensures steps { Steps seat_sight to_optimize (optimize_answer_of result)
        (turn.now, seat.old) (turn.now, seat.new) }
{
    let mut value = turn.take(rt, seat);
    let made = value.engine.optimize_step();
    let told = OptimizeTold { made: &made };
    give_back::<Brand, OptimizeTold, D, E>(turn, seat, value, &told);
    made
}

/// A view. Where as many reads failed as are counted at most, it finds no memory.
pub(crate) fn view_in_turn<R: Wait, D: Disk, E: Disk>(
    rt: &R,
    turn: &Turns<AtTurn<D, E>>,
    seat: &mut Seat<AtTurn<D, E>>,
    leaves: Vec<Leaf>,
) -> Result<View, (ViewError, Vec<Leaf>)>
    requires rest { IsAtRest turn.now seat.old }
    ensures rest { IsAtRest turn.now seat.new }
    ensures steps { Steps seat_sight (to_view (leaves_seen leaves.items)) (view_answer_of result)
        (turn.now, seat.old) (turn.now, seat.new) }
    ensures back { IfErr result (λ e. e.1 ≡ leaves) }
{
    let mut value = turn.take(rt, seat);
    if value.read_faults >= MOST_READ_FAULTS {
        turn.give::<Brand>(seat, value, 0);
        return Err((ViewError::NoMemory, leaves));
    }
    let made = value.engine.view(leaves);
    let told = ReadTold {
        fault: fault_of_view(&made),
    };
    value.read_faults += told.count();
    give_back::<Brand, ReadTold, D, E>(turn, seat, value, &told);
    made
}

/// A listing. Where as many reads failed as are counted at most, it finds no memory.
pub(crate) fn list_in_turn<R: Wait, D: Disk, E: Disk>(
    rt: &R,
    turn: &Turns<AtTurn<D, E>>,
    seat: &mut Seat<AtTurn<D, E>>,
    kind: ListingKind,
) -> Result<NumberedListing, ViewError>
    requires rest { IsAtRest turn.now seat.old }
    ensures rest { IsAtRest turn.now seat.new }
    ensures steps { Steps seat_sight (to_list kind) (listing_answer_of result)
        (turn.now, seat.old) (turn.now, seat.new) }
{
    let mut value = turn.take(rt, seat);
    if value.read_faults >= MOST_READ_FAULTS {
        turn.give::<Brand>(seat, value, 0);
        return Err(ViewError::NoMemory);
    }
    let made = value.engine.listing(kind);
    let told = ReadTold {
        fault: fault_of_listing(&made),
    };
    value.read_faults += told.count();
    give_back::<Brand, ReadTold, D, E>(turn, seat, value, &told);
    made
}

// The sum of the counts of faults that a view tells.
fn fault_of_view(made: &Result<View, (ViewError, Vec<Leaf>)>) -> Option<u128>
    ensures { read_fault result ≡ read_changes (view_answer_of made.now) }
{
    match made {
        Err((ViewError::DiskFault { faults }, _)) => Some(*faults),
        Err((ViewError::NoMemory, _)) => None,
        Ok(_) => None,
    }
}

// The sum of the counts of faults that a listing tells.
fn fault_of_listing(made: &Result<NumberedListing, ViewError>) -> Option<u128>
    ensures { read_fault result ≡ read_changes (listing_answer_of made.now) }
{
    match made {
        Err(ViewError::DiskFault { faults }) => Some(*faults),
        Err(ViewError::NoMemory) => None,
        Ok(_) => None,
    }
}

/// The size of the cache.
pub(crate) fn measure_in_turn<R: Wait, D: Disk, E: Disk>(
    rt: &R,
    turn: &Turns<AtTurn<D, E>>,
    seat: &mut Seat<AtTurn<D, E>>,
) -> u64
    requires rest { IsAtRest turn.now seat.old }
    ensures rest { IsAtRest turn.now seat.new }
    ensures steps { Steps seat_sight to_measure (measured result)
        (turn.now, seat.old) (turn.now, seat.new) }
{
    let value = turn.take(rt, seat);
    let size = value.engine.cache_size();
    turn.give::<Brand>(seat, value, 0);
    size
}
