//! A seat at its turn.
use fts_turn::{Historied, Seat, Turns};
use std::marker::Model;

/// A seat at its turn. Between calls it is at rest.
#[derive(Drop)]
pub(crate) struct Placed<'a, T: Historied> {
    pub(crate) turn: &'a Turns<T>,
    pub(crate) seat: Seat<T>,
}

impl<'a, T: Historied> Model for Placed<'a, T> {
    ghost use Rattle.fts_turn.specs.declared.turn.Turns.{Turns};
    ghost use Rattle.fts_turn.specs.declared.seat.Seat.{Seat};
    ghost use Rattle.fts_turn.specs.Promises.{IsAtRest};

    ghost Value = { Turns T T.Entry × Seat T T.Entry };

    ghost view = { λ s. (s.turn.now, s.seat) };

    ghost invariant = { λ s. IsAtRest s.turn.now s.seat };
}

impl<'a, T: Historied> Placed<'a, T> {
    ghost use Rattle.std.specs.Prelude.{◌≡◌};
    ghost use Rattle.fts_turn.specs.Promises.{IsAtRest};

    /// A seat at rest, at its turn.
    pub(crate) fn new(turn: &'a Turns<T>, seat: Seat<T>) -> Self
        requires { IsAtRest turn.now seat }
        ensures { result ≡ (turn.now, seat) }
    {
        Placed { turn, seat }
    }

    /// The seat.
    pub(crate) fn into_seat(self) -> Seat<T>
        ensures is { result ≡ self.entry.1 }
        ensures rest { IsAtRest self.entry.0 result }
    {
        let Placed { turn: _, seat } = self;
        seat
    }
}
