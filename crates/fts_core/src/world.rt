ghost use Rattle.std.specs.Prelude.{◌≡◌, ◌<◌, ◌++◌, [], ◌∷◌, IsTrue, IfOk, IfErr, vec_len};
ghost use Rattle.std.specs.Prelude.{vec_capacity};
ghost use Rattle.fts_types.specs.declared.settings.Settings.{Settings};
ghost use Rattle.fts_core.specs.World.{rows_at, index_at, moments};
ghost use Rattle.fts_core.specs.Parts.{IsClosed, world_of, behind};
ghost use Rattle.fts_core.specs.Core.{Fits};
ghost use Rattle.fts_core.specs.Lists.{AreCreated, created_core};

use fts_commits::{Changes, are_turns};
use fts_disk::Disk;
use fts_engine::Engine;
use std::alloc::Global;

/// The two devices of a database: closed, or under an engine.
#[derive(Drop)]
pub enum Place<D: Disk, E: Disk> {
    Closed { rows: D, index: E },
    Open { engine: Engine<D, E> },
}

/// What the last call did to the lists of commits, which a crash within it takes back.
#[derive(Debug, Drop)]
pub enum Last {
    /// Nothing that a crash takes back.
    Other,
    /// It acknowledged the last commit: that is in doubt then.
    Acknowledged,
    /// It was an opening that did not find the commit in doubt: that is in doubt again.
    Dropped { doubt: Option<Changes> },
}

/// A database, and what is known of it: the commits that were acknowledged, in their order, and the
/// commit in doubt, if there is one.
#[derive(Drop)]
pub struct World<D: Disk, E: Disk> {
    pub place: Place<D, E>,
    pub acknowledged: Vec<Changes>,
    pub doubt: Option<Changes>,
    pub last: Last,
}

impl<D: Disk, E: Disk> Place<D, E> {
    /// The two devices, without the engine that was there.
    pub fn close(self) -> (D, E)
        ensures rows { result.0 ≡ rows_at self }
        ensures index { result.1 ≡ index_at self }
    {
        match self {
            Place::Closed { rows, index } => (rows, index),
            Place::Open { engine } => engine.close(),
        }
    }
}

impl<D: Disk, E: Disk> World<D, E> {
    /// The world of two devices on which `create_engine` made a database, before any event: no
    /// commit is acknowledged, and none is in doubt.
    pub fn new(alloc: Global, rows: D, index: E) -> Self
        ensures { IsTrue D.tells → IsTrue E.tells → (settings : Settings)
            → AreCreated D.Disk E.Disk settings rows index
            → Fits (created_core settings (moments result)) result }
    {
        are_turns();
        let place = Place::Closed { rows, index };
        World::behind(place, Vec::new(alloc), None)
    }

    // The engine and the lists, where an engine is open.
    pub(crate) fn opened(self) -> Result<(Engine<D, E>, Vec<Changes>, Option<Changes>, Last), Self>
        ensures open { IfOk result (λ o. self ≡ world_of (Place.Open o.0) o.1 o.2 o.3) }
        ensures closed { IfErr result (λ world. (world ≡ self) × IsClosed self.place) }
    {
        let World {
            place,
            acknowledged,
            doubt,
            last,
        } = self;
        match place {
            Place::Open { engine } => Ok((engine, acknowledged, doubt, last)),
            Place::Closed { rows, index } => {
                let place = Place::Closed { rows, index };
                Err(World {
                    place,
                    acknowledged,
                    doubt,
                    last,
                })
            }
        }
    }

    // The world behind a call that acknowledged nothing.
    pub(crate) fn behind(
        place: Place<D, E>,
        acknowledged: Vec<Changes>,
        doubt: Option<Changes>,
    ) -> Self
        ensures { result ≡ behind place acknowledged doubt }
    {
        World {
            place,
            acknowledged,
            doubt,
            last: Last::Other,
        }
    }

    // The world behind a call that acknowledged these changes.
    pub(crate) fn acknowledging(
        place: Place<D, E>,
        acknowledged: Vec<Changes>,
        doubt: Option<Changes>,
        changes: Changes,
    ) -> Self
        requires room { vec_len acknowledged < vec_capacity acknowledged }
        ensures place { result.place ≡ place }
        ensures acknowledged { result.acknowledged.items ≡ acknowledged.items ++ changes ∷ [] }
        ensures doubt { result.doubt ≡ doubt }
        ensures last { result.last ≡ Last.Acknowledged }
    {
        let mut acknowledged = acknowledged;
        acknowledged.push(changes).unwrap();
        World {
            place,
            acknowledged,
            doubt,
            last: Last::Acknowledged,
        }
    }
}
