//! The turn.
ghost use Rattle.std.specs.Prelude.{◌≡◌, ◌+◌, ◌<◌, ◌≤◌, ◌++◌, [], ◌∷◌, length, vec_len};
ghost use Rattle.std.specs.Prelude.{vec_capacity, IfOk, IfErr};

use crate::MOST_SEATS;
use crate::historied::{Adds, Historied};
use crate::rule::{Draw, InTurn, Leave, Look, NextSeat, Raise, Together};
use crate::seat::Seat;
use crate::view::View;
use atomic_table::{Refused, Table};
use std::alloc::{AllocFailed, Global};
use std::snapshot::Snapshot;
use std::sync::Wait;

// The words of the table: the next ticket to be drawn, the ticket that is served, and the count of
// all entries.
const TICKET: usize = 0;

const SERVING: usize = 1;

const COUNT: usize = 2;

// The one slot of the table, which has the value.
const VALUE: usize = 0;

// From this ticket on none is served, so that no word wraps.
const LAST_TICKET: u64 = 1 << 63;

/// One value that many threads use, one at a time, in the order in which they asked for it.
///
/// Contracts see how many seats it has, and the value that it was made with.
#[derive(Drop)]
pub struct Turns<T: Historied> {
    table: Table<Option<T>, View<T, T::Entry>, Snapshot<T>, InTurn, Global>,
    seats: usize,
    ghost some: { 0 < seats },
    ghost words: { table.shared.table_id.words ≡ 3 },
    ghost slots: { table.shared.table_id.slots ≡ 1 },
}

impl<T: Historied> Turns<T> {
    ghost use Rattle.fts_turn.specs.Histories.{Begins, entries_by, AllBy};
    ghost use Rattle.fts_turn.specs.Promises.{seat_number, seat_gave, seat_seen, seat_turns};
    ghost use Rattle.fts_turn.specs.Promises.{seats_of, opening_of, IsAtRest, HasItsTurn};
    ghost use Rattle.fts_turn.specs.Promises.{IsSameSeat, IsUnused, IsSeat, IsMaker, IsWaiting};
    ghost use Rattle.fts_turn.specs.Promises.{IsServedAt, IsGathered, Numbered, HasWholeHistory};

    /// A turn with this value, and its seats, with numbers from 0 on in their order. There are 1 to
    /// 18 seats.
    ///
    /// At `Err` there was no memory, and the value comes back.
    pub fn make(alloc: Global, value: T, seats: usize) -> Result<(Turns<T>, Vec<Seat<T>>), T>
        requires seats { (0 < seats) × (seats ≤ MOST_SEATS) }
        requires begins { T.stands_for value value [] }

        ensures turn { IfOk result (λ r. (seats_of r.0 ≡ seats) × (opening_of r.0 ≡ value)) }
        ensures count { IfOk result (λ r. length r.1.items ≡ seats) }
        ensures seats { IfOk result (λ r. Numbered (IsSeat r.0) 0 r.1.items) }
        ensures unused { IfOk result (λ r. Numbered (λ number seat. IsUnused seat) 0 r.1.items) }

        // There was no memory.
        ensures err { IfErr result (λ v. v ≡ value) }
    {
        let Ok(row) = Vec::with_capacity(alloc, seats) else {
            return Err(value);
        };
        let (turn, first) = Turns::alone(alloc, value, seats)?;
        let all = turn.deal(first, row);
        Ok((turn, all))
    }

    // The turn with its first seat, which is to make the others.
    fn alone(alloc: Global, value: T, seats: usize) -> Result<(Turns<T>, Seat<T>), T>
        requires seats { 0 < seats }
        requires begins { T.stands_for value value [] }
        ensures turn { IfOk result (λ r. (seats_of r.0 ≡ seats) × (opening_of r.0 ≡ value)) }
        ensures seat { IfOk result (λ r. IsMaker r.0 0 r.1) }
        ensures err { IfErr result (λ v. v ≡ value) }
    {
        let about = Snapshot::of(&value);
        let count = value.count_at_first();
        let slots = slot_of(alloc, value)?;
        match Table::new(alloc, &[0, 0, count], slots, &about) {
            Ok((table, inside)) => Ok((Turns { table, seats }, Seat { inside })),
            Err(Refused { slots }) => Err(value_of(slots)),
        }
    }

    // The seats, each made beside the one before.
    fn deal(&self, first: Seat<T>, row: Vec<Seat<T>>) -> Vec<Seat<T>>
        requires first { IsMaker self.now 0 first }
        requires limit { seats_of self.now ≤ MOST_SEATS }
        requires row { (row.items ≡ []) × (seats_of self.now ≤ vec_capacity row) }
        ensures count { length result.items ≡ seats_of self.now }
        ensures seats { Numbered (IsSeat self.now) 0 result.items }
        ensures unused { Numbered (λ number seat. IsUnused seat) 0 result.items }
    {
        let mut last = first;
        let mut all = row;
        for _ in 1..self.seats {
            let inside = self.table.shared.split_seat::<NextSeat>(&mut last.inside);
            append(&mut all, last);
            last = Seat { inside };
        }
        append(&mut all, last);
        all
    }

    /// Waits until the seat has the turn, and hands out the value. The seat is at rest.
    ///
    /// It may wait for ever: while another seat keeps the turn, or after 2^63 turns.
    ///
    /// The value stands for a history that begins with all that the seat had seen. Of the seat's
    /// own entries the history has those that it gave, each once.
    pub fn take<R: Wait>(&self, rt: &R, seat: &mut Seat<T>) -> T
        requires { IsAtRest self.now seat.old }

        ensures turn { HasItsTurn self.now seat.new }
        ensures stands { T.stands_for (opening_of self.now) result (seat_seen seat.new) }
        ensures seen { Begins (seat_seen seat.old) (seat_seen seat.new) }
        ensures own { entries_by T.by (seat_number seat.new) (seat_seen seat.new)
            ≡ seat_gave seat.new }

        ensures same { IsSameSeat seat.old seat.new }
        ensures gave { seat_gave seat.new ≡ seat_gave seat.old }
        ensures turns { seat_turns seat.new ≡ seat_turns seat.old + 1 }
    {
        let words = &self.table.shared;
        let ticket = words.fetch_add::<Draw>(&mut seat.inside, TICKET, 1);
        self.wait(rt, seat, ticket);
        match words.exchange(&mut seat.inside, VALUE, None) {
            Some(value) => value,
            None => unreachable!(),
        }
    }

    // Waits until the ticket is served. A thread that waits sleeps until another ticket is served.
    fn wait<R: Wait>(&self, rt: &R, seat: &mut Seat<T>, ticket: u64)
        requires { IsWaiting self.now ticket seat.old }
        ensures { IsServedAt T.stands_for T.by ticket seat.old seat.new }
    {
        let words = &self.table.shared;
        for _ in rt.forever() {
            let serving = words.load::<Look>(&mut seat.inside, SERVING);
            if serving == ticket && ticket < LAST_TICKET {
                return;
            }
            words.park(rt, SERVING, (serving % (1 << 32)) as u32);
        }
        unreachable!()
    }

    /// Puts the value back, with `added` entries more, and lets the next seat have the turn. The
    /// seat has the turn.
    ///
    /// `B` names the entries, all of this seat's number. It takes no memory and waits for nobody.
    pub fn give<B: Adds<T::Entry>>(&self, seat: &mut Seat<T>, value: T, added: u64)
        requires turn { HasItsTurn self.now seat.old }
        requires count { length B.added ≡ added }
        requires own { AllBy T.by (seat_number seat.old) B.added }
        requires stands { T.stands_for (opening_of self.now) value (seat_seen seat.old ++ B.added) }

        ensures rest { IsAtRest self.now seat.new }
        ensures seen { seat_seen seat.new ≡ seat_seen seat.old ++ B.added }
        ensures gave { seat_gave seat.new ≡ seat_gave seat.old ++ B.added }

        ensures same { IsSameSeat seat.old seat.new }
        ensures turns { seat_turns seat.new ≡ seat_turns seat.old }
    {
        let words = &self.table.shared;
        words.fetch_add::<Raise<B>>(&mut seat.inside, COUNT, added);
        match words.exchange(&mut seat.inside, VALUE, Some(value)) {
            None => {}
            Some(_) => unreachable!(),
        }
        words.fetch_add::<Leave>(&mut seat.inside, SERVING, 1);
        words.wake_all(SERVING);
    }

    /// Hands out the value at the end. The seats are all that `make` gave, in their order, and each
    /// is at rest.
    ///
    /// The value stands for one history. What each seat has seen begins it, and it has the entries
    /// that the seats gave and no others. It takes no memory and waits for nobody.
    pub fn close(self, seats: Vec<Seat<T>>) -> T
        requires count { length seats.items ≡ seats_of self }
        requires seats { Numbered (IsSeat self) 0 seats.items }
        ensures { HasWholeHistory T.stands_for T.by self seats.items result }
    {
        let all = self.gather(seats);
        let Turns { table, seats: _ } = self;
        let mut closed = table.close_with(all.inside);
        let value = closed.take(VALUE);
        closed.free();
        match value {
            Some(value) => value,
            None => unreachable!(),
        }
    }

    // The last seat is taken in by the one before it, and so on.
    fn gather(&self, mut seats: Vec<Seat<T>>) -> Seat<T>
        requires count { length seats.items ≡ seats_of self.now }
        requires seats { Numbered (IsSeat self.now) 0 seats.items }
        ensures { IsGathered self.now seats.items result }
    {
        let Some(mut all) = seats.pop() else {
            unreachable!()
        };
        while let Some(mut seat) = seats.pop() {
            self.table
                .shared
                .join_seat::<Together>(&mut seat.inside, all.inside);
            all = seat;
        }
        seats.destroy_empty();
        all
    }
}

// A row with the value in its one place.
fn slot_of<T>(alloc: Global, value: T) -> Result<Vec<Option<T>>, T>
    ensures ok { IfOk result (λ slots. slots.items ≡ Some value ∷ []) }
    ensures err { IfErr result (λ v. v ≡ value) }
{
    let mut slots = Vec::new(alloc);
    match slots.push(Some(value)) {
        Ok(()) => Ok(slots),
        Err(AllocFailed { value: Some(value) }) => {
            slots.destroy_empty();
            Err(value)
        }
        Err(AllocFailed { value: None }) => unreachable!(),
    }
}

// The value of such a row.
fn value_of<T>(mut slots: Vec<Option<T>>) -> T
    requires { (value : T) × (slots.items ≡ Some value ∷ []) }
    ensures { slots.items ≡ Some result ∷ [] }
{
    let Some(Some(value)) = slots.pop() else {
        unreachable!()
    };
    slots.destroy_empty();
    value
}

// Puts a seat behind the others. There is room for it.
pub(crate) fn append<T: Historied>(all: &mut Vec<Seat<T>>, seat: Seat<T>)
    requires { vec_len all.old < vec_capacity all.old }
    ensures items { all.new.items ≡ all.old.items ++ seat ∷ [] }
    ensures room { vec_capacity all.old ≤ vec_capacity all.new }
{
    if all.push(seat).is_err() {
        unreachable!()
    }
}
