//! Crashes.
ghost use Rattle.std.specs.Prelude.{◌≡◌, IsTrue, option_to_list};
ghost use Rattle.fts_steps.specs.Running.{Running};
ghost use Rattle.fts_core.specs.World.{in_doubt};
ghost use Rattle.fts_core.specs.Core.{TakesBack};
ghost use Rattle.fts_core.specs.Lists.{Allows};

use crate::{Event, Last, Outcome, Place, World};
use fts_commits::Changes;
use fts_disk::Disk;

// A crash leaves these devices: within the last call, or after it.
pub(crate) fn crash<D: Disk + Drop, E: Disk + Drop>(
    world: World<D, E>,
    rows: D,
    index: E,
    within: bool,
) -> (World<D, E>, Outcome)
    ensures { IsTrue D.tells → IsTrue E.tells
        → Allows world (Event.Crash rows index within) result.1 result.0 }
{
    let World {
        place,
        acknowledged,
        doubt,
        last,
    } = world;
    drop(place);
    let place = Place::Closed { rows, index };
    if within {
        let world = taken_back(place, acknowledged, doubt, last);
        return (world, Outcome::Crashed);
    }
    let world = World::behind(place, acknowledged, doubt);
    (world, Outcome::Crashed)
}

// What the last call did to the lists is taken back.
fn taken_back<D: Disk, E: Disk>(
    place: Place<D, E>,
    acknowledged: Vec<Changes>,
    doubt: Option<Changes>,
    last: Last,
) -> World<D, E>
    ensures place { result.place ≡ place }
    ensures last { result.last ≡ Last.Other }
    ensures lists { (now undone : Running) → TakesBack last now undone
        → acknowledged.items ≡ now.state.commits → option_to_list doubt ≡ now.doubt
        → (result.acknowledged.items ≡ undone.state.commits)
        × (in_doubt result ≡ undone.doubt) }
{
    let mut acknowledged = acknowledged;
    match last {
        Last::Other => World::behind(place, acknowledged, doubt),
        Last::Acknowledged => {
            let doubt = acknowledged.pop();
            World::behind(place, acknowledged, doubt)
        }
        Last::Dropped { doubt } => World::behind(place, acknowledged, doubt),
    }
}
