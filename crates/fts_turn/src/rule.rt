//! The rule of the turn, and what each kind of step tells. These types are for the proofs alone.
use crate::historied::{Adds, Historied};
use crate::view::View;
use atomic_table::{Join, Play, Split, TableRule};
use std::marker::PhantomData;
use std::snapshot::Snapshot;

/// The rule. It is told the value that the turn is made with.
pub struct InTurn;

impl<T: Historied> TableRule<Option<T>, View<T, T::Entry>, Snapshot<T>> for InTurn {
    ghost use Rattle.fts_turn.specs.Rule.{IsKept};
    ghost use Rattle.fts_turn.specs.Views.{first_view};

    ghost holds = { λ key s.
        IsKept T.stands_for T.at_first T.by key.value s.words s.homes s.views };

    ghost first = { λ key. first_view key.value };
}

/// A ticket is drawn.
pub(crate) struct Draw;

impl<T, E> Play<Option<T>, View<T, E>> for Draw {
    ghost use Rattle.fts_turn.specs.Steps.{Draws};

    ghost then = { λ step m found n. Draws m found n };
}

/// The ticket that is served is read.
pub(crate) struct Look;

impl<T: Historied> Play<Option<T>, View<T, T::Entry>> for Look {
    ghost use Rattle.fts_turn.specs.Steps.{Looks};

    ghost then = { λ step m found n. Looks T.stands_for T.by m found n };
}

/// The count is raised by the entries that are added.
pub(crate) struct Raise<B> {
    added: PhantomData<B>,
}

impl<T, E, B: Adds<E>> Play<Option<T>, View<T, E>> for Raise<B> {
    ghost use Rattle.fts_turn.specs.Steps.{Raises};

    ghost then = { λ step m found n. Raises B.added m n };
}

/// The next ticket is served.
pub(crate) struct Leave;

impl<T, E> Play<Option<T>, View<T, E>> for Leave {
    ghost use Rattle.fts_turn.specs.Steps.{Leaves};

    ghost then = { λ step m found n. Leaves m n };
}

/// A seat makes the next one, which is to make those after it.
pub(crate) struct NextSeat;

impl<T, E> Split<View<T, E>> for NextSeat {
    ghost use Rattle.fts_turn.specs.Views.{kept_part, new_part};

    ghost left = { kept_part };

    ghost right = { new_part };
}

/// A seat takes in another.
pub(crate) struct Together;

impl<T, E> Join<View<T, E>> for Together {
    ghost use Rattle.fts_turn.specs.Views.{both_parts, spent_part};

    ghost both = { both_parts };

    ghost spent = { spent_part };
}
