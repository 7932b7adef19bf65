//! The engine goes under the turn, and comes back.
ghost use Rattle.std.specs.Prelude.{◌≡◌, ◌<◌, ◌≤◌, length, IfOk, IfErr};
ghost use Rattle.fts_turn.specs.Promises.{seats_of, IsSeat, IsUnused, Numbered};
ghost use Rattle.fts_shared.specs.Served.{IsToldOf};
ghost use Rattle.fts_shared.specs.Shared.{first_of};

use crate::AtTurn;
use fts_disk::Disk;
use fts_engine::Engine;
use fts_turn::{Seat, Turns};
use std::alloc::Global;

/// The engine goes under the turn, which has 1 to 18 seats. At `Err` there was no memory, and the
/// engine comes back.
pub(crate) fn seated<D: Disk, E: Disk>(
    alloc: Global,
    engine: Engine<D, E>,
    seats: usize,
) -> Result<(Turns<AtTurn<D, E>>, Vec<Seat<AtTurn<D, E>>>), Engine<D, E>>
    requires { (0 < seats) × (seats ≤ 18) }
    ensures turn { IfOk result (λ r. (seats_of r.0 ≡ seats) × (first_of r.0 ≡ engine)) }
    ensures count { IfOk result (λ r. length r.1.items ≡ seats) }
    ensures seats { IfOk result (λ r. Numbered (IsSeat r.0) 0 r.1.items) }
    ensures unused { IfOk result (λ r. Numbered (λ number seat. IsUnused seat) 0 r.1.items) }
    ensures err { IfErr result (λ e. e ≡ engine) }
{
    let value = AtTurn {
        engine,
        read_faults: 0,
    };
    match Turns::make(alloc, value, seats) {
        Ok(made) => Ok(made),
        Err(AtTurn { engine, .. }) => Err(engine),
    }
}

/// The engine comes back, with all that was added. The seats are all that there are, in their
/// order, each at rest. It takes no memory and waits for nobody.
pub(crate) fn unseated<D: Disk, E: Disk>(
    turn: Turns<AtTurn<D, E>>,
    seats: Vec<Seat<AtTurn<D, E>>>,
) -> Engine<D, E>
    requires count { length seats.items ≡ seats_of turn }
    requires seats { Numbered (IsSeat turn) 0 seats.items }
    ensures { IsToldOf turn seats.items result }
{
    let AtTurn { engine, .. } = turn.close(seats);
    engine
}
