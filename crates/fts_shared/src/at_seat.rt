//! Steps of a seat at its turn.
ghost use Rattle.std.specs.Prelude.{◌≡◌, length, IfErr};
ghost use Rattle.fts_commits.specs.Fits.{CanCommit};
ghost use Rattle.fts_query.specs.Seen.{leaves_seen};
ghost use Rattle.fts_steps.specs.Step.{to_commit, to_sync, to_optimize, to_view, to_list};
ghost use Rattle.fts_steps.specs.Step.{to_measure, measured, Steps};
ghost use Rattle.fts_steps.specs.Answers.{commit_answer_of, sync_answer_of, view_answer_of};
ghost use Rattle.fts_steps.specs.Answers.{listing_answer_of, optimize_answer_of};
ghost use Rattle.fts_engine.specs.Stands.{engine_settings};
ghost use Rattle.fts_shared.specs.Shared.{first_of, seat_sight};

use crate::AtTurn;
use crate::in_turn::{
    commit_in_turn, list_in_turn, measure_in_turn, optimize_in_turn, sync_in_turn, view_in_turn,
};
use crate::placed::Placed;
use fts_commits::Change;
use fts_disk::Disk;
use fts_listing::{ListingKind, NumberedListing};
use fts_query::{Leaf, View};
use fts_steps::{CommitError, IndexError, OptimizeStep, SyncBatch, ViewError};
use std::sync::Wait;

/// A commit.
pub(crate) fn commit_at<R: Wait, D: Disk, E: Disk>(
    rt: &R,
    placed: &mut Placed<AtTurn<D, E>>,
    changes: &[Change],
) -> Result<u64, CommitError>
    requires { CanCommit (length (engine_settings (first_of placed.old.0)).columns) changes.now }
    ensures { Steps seat_sight (to_commit changes.now) (commit_answer_of result)
        placed.old placed.new }
{
    commit_in_turn(rt, placed.turn, &mut placed.seat, changes)
}

/// A batch.
pub(crate) fn sync_at<R: Wait, D: Disk, E: Disk>(
    rt: &R,
    placed: &mut Placed<AtTurn<D, E>>,
) -> Result<SyncBatch, IndexError>
    ensures { Steps seat_sight to_sync (sync_answer_of result) placed.old placed.new }
{
    sync_in_turn(rt, placed.turn, &mut placed.seat)
}

/// A step of OPTIMIZE.
pub(crate) fn optimize_at<R: Wait, D: Disk, E: Disk>(
    rt: &R,
    placed: &mut Placed<AtTurn<D, E>>,
) -> Result<OptimizeStep, IndexError>
    ensures { Steps seat_sight to_optimize (optimize_answer_of result) placed.old placed.new }
{
    optimize_in_turn(rt, placed.turn, &mut placed.seat)
}

/// A view.
pub(crate) fn view_at<R: Wait, D: Disk, E: Disk>(
    rt: &R,
    placed: &mut Placed<AtTurn<D, E>>,
    leaves: Vec<Leaf>,
) -> Result<View, (ViewError, Vec<Leaf>)>
    ensures steps { Steps seat_sight (to_view (leaves_seen leaves.items)) (view_answer_of result)
        placed.old placed.new }
    ensures back { IfErr result (λ e. e.1 ≡ leaves) }
{
    view_in_turn(rt, placed.turn, &mut placed.seat, leaves)
}

/// A listing.
pub(crate) fn list_at<R: Wait, D: Disk, E: Disk>(
    rt: &R,
    placed: &mut Placed<AtTurn<D, E>>,
    kind: ListingKind,
) -> Result<NumberedListing, ViewError>
    ensures { Steps seat_sight (to_list kind) (listing_answer_of result) placed.old placed.new }
{
    list_in_turn(rt, placed.turn, &mut placed.seat, kind)
}

/// The size of the cache.
pub(crate) fn measure_at<R: Wait, D: Disk, E: Disk>(
    rt: &R,
    placed: &mut Placed<AtTurn<D, E>>,
) -> u64
    ensures { Steps seat_sight to_measure (measured result) placed.old placed.new }
{
    measure_in_turn(rt, placed.turn, &mut placed.seat)
}
