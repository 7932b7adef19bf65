//! Commits.
ghost use Rattle.std.specs.Prelude.{◌≡◌, IsTrue, Err, length};
ghost use Rattle.fts_commits.specs.Fits.{CanCommit};
ghost use Rattle.fts_steps.specs.Step.{is_disk_fault};
ghost use Rattle.fts_steps.specs.Answers.{commit_answer_of};
ghost use Rattle.fts_engine.specs.Stands.{engine_settings};
ghost use Rattle.fts_core.specs.Lists.{Allows};
ghost use Rattle.fts_core.specs.Parts.{world_of};

use crate::fits::can_commit;
use crate::{Event, Last, Outcome, Place, World};
use fts_commits::{Changes, are_turns};
use fts_disk::Disk;
use fts_engine::Engine;
use fts_steps::CommitError;
use std::alloc::AllocError;

// Makes a commit, where an engine is open and the changes fit its table.
pub(crate) fn commit<D: Disk, E: Disk>(
    world: World<D, E>,
    changes: Changes,
) -> (World<D, E>, Outcome)
    ensures { IsTrue D.tells → IsTrue E.tells
        → Allows world (Event.Commit changes) result.1 result.0 }
{
    let (engine, acknowledged, doubt, last) = match world.opened() {
        Ok(parts) => parts,
        Err(world) => return (world, Outcome::NoEngine),
    };
    if !can_commit(engine.settings().columns.len(), changes.as_slice()) {
        let place = Place::Open { engine };
        let world = World {
            place,
            acknowledged,
            doubt,
            last,
        };
        return (world, Outcome::DoesNotFit);
    }
    commit_on(engine, acknowledged, doubt, last, changes)
}

// Makes a commit of changes that fit. Room for it in the list is taken first.
fn commit_on<D: Disk, E: Disk>(
    engine: Engine<D, E>,
    acknowledged: Vec<Changes>,
    doubt: Option<Changes>,
    last: Last,
    changes: Changes,
) -> (World<D, E>, Outcome)
    requires { CanCommit (length (engine_settings engine).columns) changes }
    ensures { IsTrue D.tells → IsTrue E.tells
        → Allows (world_of (Place.Open engine) acknowledged doubt last) (Event.Commit changes)
        result.1 result.0 }
{
    are_turns();
    let mut acknowledged = acknowledged;
    let mut engine = engine;
    match acknowledged.reserve(1) {
        Ok(()) => {}
        Err(AllocError) => {
            let result = Err(CommitError::NoMemory);
            let place = Place::Open { engine };
            return (
                World::behind(place, acknowledged, doubt),
                Outcome::Committed { result },
            );
        }
    }
    match engine.commit(changes.as_slice()) {
        Ok(number) => {
            let result = Ok(number);
            let place = Place::Open { engine };
            (
                World::acknowledging(place, acknowledged, doubt, changes),
                Outcome::Committed { result },
            )
        }
        Err(error) => {
            let is_fault = is_fault(&error);
            let result = Err(error);
            let place = Place::Open { engine };
            if is_fault {
                return (
                    World::behind(place, acknowledged, Some(changes)),
                    Outcome::Committed { result },
                );
            }
            (
                World::behind(place, acknowledged, doubt),
                Outcome::Committed { result },
            )
        }
    }
}

// A device failed.
fn is_fault(error: &CommitError) -> bool
    ensures { result ≡ is_disk_fault (commit_answer_of (Err error.now)) }
{
    match error {
        CommitError::DiskFault { faults: _ } => true,
        CommitError::NoMemory => false,
        CommitError::Refused { refusal: _ } => false,
        CommitError::LogFull { end: _ } => false,
        CommitError::Stopped { faults: _ } => false,
    }
}
