//! Views, and listings.
ghost use Rattle.std.specs.Prelude.{IsTrue};
ghost use Rattle.fts_core.specs.Lists.{Allows};

use crate::{Event, Outcome, Place, World};
use fts_disk::Disk;
use fts_listing::ListingKind;
use fts_query::Leaf;

// Tells what the rows have for leaves, where an engine is open.
pub(crate) fn view<D: Disk, E: Disk>(
    world: World<D, E>,
    leaves: Vec<Leaf>,
) -> (World<D, E>, Outcome)
    ensures { IsTrue D.tells → IsTrue E.tells
        → Allows world (Event.View leaves) result.1 result.0 }
{
    let (engine, acknowledged, doubt, _) = match world.opened() {
        Ok(parts) => parts,
        Err(world) => return (world, Outcome::NoEngine),
    };
    let mut engine = engine;
    let result = engine.view(leaves);
    let place = Place::Open { engine };
    (
        World::behind(place, acknowledged, doubt),
        Outcome::Viewed { result },
    )
}

// Lists what a view of the index has, where an engine is open.
pub(crate) fn listing<D: Disk, E: Disk>(
    world: World<D, E>,
    kind: ListingKind,
) -> (World<D, E>, Outcome)
    ensures { IsTrue D.tells → IsTrue E.tells
        → Allows world (Event.Listing kind) result.1 result.0 }
{
    let (engine, acknowledged, doubt, _) = match world.opened() {
        Ok(parts) => parts,
        Err(world) => return (world, Outcome::NoEngine),
    };
    let mut engine = engine;
    let result = engine.listing(kind);
    let place = Place::Open { engine };
    (
        World::behind(place, acknowledged, doubt),
        Outcome::Listed { result },
    )
}
