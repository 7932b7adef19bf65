//! One event, and a list of events.
ghost use Rattle.std.specs.Prelude.{◌≡◌, IsTrue, IfOk, IfErr, length};
ghost use Rattle.fts_core.specs.Lists.{Allows};
ghost use Rattle.fts_core.specs.Headline.{Along, KeepsPromises};

use crate::commit::commit;
use crate::crash::crash;
use crate::indexing::{optimize_step, sync_batch};
use crate::opening::open;
use crate::view::{listing, view};
use crate::{Event, Outcome, World};
use fts_disk::Disk;
use std::alloc::Global;

/// One event: the world behind it, and what came of it. It takes a crash with any two devices; what
/// its contract says has the premise that they are such as a crash can leave here (`CanCome`).
pub fn step<D: Disk + Drop, E: Disk + Drop>(
    alloc: Global,
    world: World<D, E>,
    event: Event<D, E>,
) -> (World<D, E>, Outcome)
    ensures { IsTrue D.tells → IsTrue E.tells → Allows world event result.1 result.0 }
{
    match event {
        Event::Opening { limits } => open(alloc, world, limits),
        Event::Commit { changes } => commit(world, changes),
        Event::SyncBatch => sync_batch(world),
        Event::OptimizeStep => optimize_step(world),
        Event::View { leaves } => view(world, leaves),
        Event::Listing { kind } => listing(world, kind),
        Event::Crash {
            rows,
            index,
            within,
        } => crash(world, rows, index, within),
    }
}

/// Events, one after another: the world behind them, and an outcome for each, in their order. The
/// room of all outcomes is taken before the first event; where there is none, the world and the
/// events are handed back.
///
/// Its contract is the headline, of devices that tell their content and of a world in which
/// something stands, as that of `World::new`, for each event up to the first crash that can't come
/// so: each view has the number of the acknowledged commits, and stands for their rows; each
/// opening that answers `Ok` finds them, or them and the commit in doubt, and none answers that
/// there is no database or a damaged one; the index is right (`headline`).
pub fn steps<D: Disk + Drop, E: Disk + Drop>(
    alloc: Global,
    world: World<D, E>,
    events: Vec<Event<D, E>>,
) -> Result<(World<D, E>, Vec<Outcome>), (World<D, E>, Vec<Event<D, E>>)>
    ensures counted { IfOk result (λ r. length r.1.items ≡ length events.items) }
    ensures headline { IfOk result (λ r. IsTrue D.tells → IsTrue E.tells
        → Along KeepsPromises world events.items r.1.items r.0) }
    ensures back { IfErr result (λ e. (e.0 ≡ world) × (e.1 ≡ events)) }
{
    let mut outcomes = match Vec::with_capacity(alloc, events.len()) {
        Ok(outcomes) => outcomes,
        Err(_) => return Err((world, events)),
    };
    let mut world = world;
    for event in events {
        let (next, outcome) = step(alloc, world, event);
        world = next;
        outcomes.push(outcome).unwrap();
    }
    Ok((world, outcomes))
}
