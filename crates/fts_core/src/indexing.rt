//! Batches of the index, and steps of OPTIMIZE.
ghost use Rattle.std.specs.Prelude.{IsTrue};
ghost use Rattle.fts_core.specs.Lists.{Allows};

use crate::{Event, Outcome, Place, World};
use fts_commits::are_turns;
use fts_disk::Disk;

// Makes the next batch, where an engine is open.
pub(crate) fn sync_batch<D: Disk, E: Disk>(world: World<D, E>) -> (World<D, E>, Outcome)
    ensures { IsTrue D.tells → IsTrue E.tells → Allows world Event.SyncBatch result.1 result.0 }
{
    let (engine, acknowledged, doubt, _) = match world.opened() {
        Ok(parts) => parts,
        Err(world) => return (world, Outcome::NoEngine),
    };
    are_turns();
    let mut engine = engine;
    let result = engine.sync_batch();
    let place = Place::Open { engine };
    (
        World::behind(place, acknowledged, doubt),
        Outcome::Synced { result },
    )
}

// Makes the next step of OPTIMIZE, where an engine is open.
pub(crate) fn optimize_step<D: Disk, E: Disk>(world: World<D, E>) -> (World<D, E>, Outcome)
    ensures { IsTrue D.tells → IsTrue E.tells → Allows world Event.OptimizeStep result.1 result.0 }
{
    let (engine, acknowledged, doubt, _) = match world.opened() {
        Ok(parts) => parts,
        Err(world) => return (world, Outcome::NoEngine),
    };
    are_turns();
    let mut engine = engine;
    let result = engine.optimize_step();
    let place = Place::Open { engine };
    (
        World::behind(place, acknowledged, doubt),
        Outcome::Optimized { result },
    )
}
