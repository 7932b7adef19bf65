//! Openings.
ghost use Rattle.std.specs.Prelude.{◌≡◌, ◌<◌, ◌↔◌, [], IsTrue, option_to_list, vec_len};
ghost use Rattle.std.specs.Prelude.{vec_capacity};
ghost use Rattle.fts_types.specs.Limits.{standard_limits};
ghost use Rattle.fts_steps.specs.State.{State};
ghost use Rattle.fts_steps.specs.Running.{Running, opened};
ghost use Rattle.fts_engine.specs.Bounds.{AreWithin};
ghost use Rattle.fts_engine.specs.Stands.{Keeps};
ghost use Rattle.fts_steps.specs.Right.{IsWithOrWithout};
ghost use Rattle.fts_core.specs.Core.{TakesBack};
ghost use Rattle.fts_core.specs.Lists.{Allows};

use crate::{Event, Last, Outcome, Place, World};
use fts_commits::Changes;
use fts_disk::Disk;
use fts_engine::{Engine, OpenError, open_engine};
use fts_types::Limits;
use std::alloc::{AllocError, Global};

// Opens the database, whose engine is closed first, if one is there.
pub(crate) fn open<D: Disk, E: Disk>(
    alloc: Global,
    world: World<D, E>,
    limits: Limits,
) -> (World<D, E>, Outcome)
    ensures { IsTrue D.tells → IsTrue E.tells
        → Allows world (Event.Opening limits) result.1 result.0 }
{
    if !are_within_standard(limits) {
        return (world, Outcome::DoesNotFit);
    }
    let World {
        place,
        acknowledged,
        doubt,
        last: _,
    } = world;
    let mut acknowledged = acknowledged;
    let (rows, index) = place.close();
    match acknowledged.reserve(1) {
        Ok(()) => {}
        Err(AllocError) => {
            let result = Err(OpenError::NoMemory);
            let place = Place::Closed { rows, index };
            return (
                World::behind(place, acknowledged, doubt),
                Outcome::Opened { result },
            );
        }
    }
    match open_engine(alloc, rows, index, limits) {
        Ok(engine) => {
            let world = found(engine, acknowledged, doubt);
            (world, Outcome::Opened { result: Ok(()) })
        }
        Err((error, rows, index)) => {
            let result = Err(error);
            let place = Place::Closed { rows, index };
            (
                World::behind(place, acknowledged, doubt),
                Outcome::Opened { result },
            )
        }
    }
}

// The limits are within the standard ones.
fn are_within_standard(limits: Limits) -> bool
    ensures { IsTrue result ↔ AreWithin standard_limits limits }
{
    let most = Limits::standard();
    if limits.rows > most.rows {
        return false;
    }
    if limits.ids > most.ids {
        return false;
    }
    limits.log_bytes <= most.log_bytes
}

// The engine has the acknowledged commits, or these and the one in doubt: that is acknowledged now.
fn found<D: Disk, E: Disk>(
    engine: Engine<D, E>,
    acknowledged: Vec<Changes>,
    doubt: Option<Changes>,
) -> World<D, E>
    requires room { vec_len acknowledged < vec_capacity acknowledged }
    ensures place { result.place ≡ Place.Open engine }
    ensures lists { (state : State) → (undone : Running) → Keeps state engine
        → acknowledged.items ≡ undone.state.commits → option_to_list doubt ≡ undone.doubt
        → IsWithOrWithout undone.state.commits undone.doubt state.commits
        → (result.acknowledged.items ≡ state.commits) × (option_to_list result.doubt ≡ [])
        × TakesBack result.last (opened state) undone }
{
    let is_there = engine.commits() > acknowledged.len() as u64;
    let place = Place::Open { engine };
    match doubt {
        Some(changes) => {
            if is_there {
                return World::acknowledging(place, acknowledged, None, changes);
            }
            World {
                place,
                acknowledged,
                doubt: None,
                last: Last::Dropped {
                    doubt: Some(changes),
                },
            }
        }
        None => World {
            place,
            acknowledged,
            doubt: None,
            last: Last::Dropped { doubt: None },
        },
    }
}
