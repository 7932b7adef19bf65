//! A counter that threads raise under the turn.
ghost use Rattle.std.specs.Prelude.{◌≡◌, ◌+◌, ◌^◌, ◌<◌, ◌≤◌, length, sum_by};
ghost use Rattle.std.specs.Prelude.{vec_capacity, IfSome};
ghost use Rattle.fts_turn.specs.Histories.{Begins};
ghost use Rattle.fts_turn.specs.Promises.{seat_gave, seat_seen, seats_of, opening_of};
ghost use Rattle.fts_turn.specs.Promises.{IsAtRest, IsSameSeat, IsSeat, Numbered};
ghost use denote.Param.Send.{IsSync};

use super::*;
use crate::turn::append;
use std::alloc::Global;
use std::marker::Brand;
use std::sync::Wait;
use std::test::*;
use std::thread::{Threads, join};

const LIMIT: u64 = 1 << 62;

#[derive(Drop)]
struct Counter {
    count: u64,
}

// A raise by one.
struct Raise {
    by: u64,
}

impl Historied for Counter {
    ghost use Rattle.std.specs.Prelude.{◌≡◌, ◌+◌, ◌^◌, ◌<◌, length};
    ghost use Rattle.std.proofs.Common.{subst};
    ghost use Rattle.fts_turn.specs.declared.tests.Raise.{Raise};

    type Entry = Raise;

    ghost stands_for = { λ first now raises. (now.count ≡ first.count + length raises)
        × (now.count < 2 ^ 63) };

    ghost at_first = { λ c. c.count };

    ghost by = { λ e. e.by };

    fn count_at_first(&self) -> u64 {
        self.count
    }

    ghost few = { λ first now raises stands. subst (λ n. n < 2 ^ 63) stands.0 stands.1 };
}

// Raises the counter by one, unless it is full.
fn raise_once<R: Wait>(rt: &R, turn: &Turns<Counter>, seat: &mut Seat<Counter>)
    requires { IsAtRest turn.now seat.old }
    ensures rest { IsAtRest turn.now seat.new }
    ensures same { IsSameSeat seat.old seat.new }
    ensures seen { Begins (seat_seen seat.old) (seat_seen seat.new) }
{
    let counter = turn.take(rt, seat);
    let count = counter.count;
    if count < LIMIT {
        turn.give::<Brand>(seat, Counter { count: count + 1 }, 1);
    } else {
        turn.give::<Brand>(seat, counter, 0);
    }
}

// The same, many times.
fn raise_often<R: Wait>(
    rt: &R,
    turn: &Turns<Counter>,
    mut seat: Seat<Counter>,
    times: u32,
) -> Seat<Counter>
    requires { IsAtRest turn.now seat }
    ensures rest { IsAtRest turn.now result }
    ensures same { IsSameSeat seat result }
    ensures seen { Begins (seat_seen seat) (seat_seen result) }
{
    for _ in 0..times {
        raise_once(rt, turn, &mut seat);
    }
    seat
}

// All seats raise it at once, each in a thread of its own.
fn raise_together<R: Threads + Wait + Sync>(
    rt: &R,
    turn: &Turns<Counter>,
    mut seats: Vec<Seat<Counter>>,
    times: u32,
) -> Vec<Seat<Counter>>
    requires { Numbered (IsSeat turn.now) 0 seats.items }
    ensures seats { Numbered (IsSeat turn.now) 0 result.items }
    ensures count { length result.items ≡ length seats.items }
    ensures room { vec_capacity seats ≤ vec_capacity result }
{
    let Some(last) = seats.pop() else {
        return seats;
    };
    let (mut others, last) = join(
        rt,
        move || -> Vec<Seat<Counter>>
            requires { IsSync R.row × Numbered (IsSeat turn.now) 0 seats.items }
            ensures { Numbered (IsSeat turn.entry.now) 0 result.items
                × (length result.items ≡ length seats.items)
                × (vec_capacity seats ≤ vec_capacity result) }
        { raise_together(rt, turn, seats, times) },
        move || -> Seat<Counter>
            requires { IsAtRest turn.now last }
            ensures { IsAtRest turn.entry.now result × IsSameSeat last result }
        { raise_often(rt, turn, last, times) },
    );
    append(&mut others, last);
    others
}

// A seat raises it here, then in another thread, and then here again. What it had seen begins what
// it sees.
fn raise_elsewhere<R: Threads + Wait + Sync>(
    rt: &R,
    turn: &Turns<Counter>,
    mut seat: Seat<Counter>,
) -> Seat<Counter>
    requires { IsAtRest turn.now seat }
    ensures rest { IsAtRest turn.now result }
    ensures same { IsSameSeat seat result }
    ensures seen { Begins (seat_seen seat) (seat_seen result) }
{
    raise_once(rt, turn, &mut seat);
    let (_, mut seat) = join(
        rt,
        || {},
        move || -> Seat<Counter>
            requires { IsAtRest turn.now seat }
            ensures { IsAtRest turn.entry.now result × IsSameSeat seat result
                × Begins (seat_seen seat) (seat_seen result) }
        { raise_often(rt, turn, seat, 1) },
    );
    raise_once(rt, turn, &mut seat);
    seat
}

// The count at the end is the count at first and all raises that the seats gave.
fn total(turn: Turns<Counter>, seats: Vec<Seat<Counter>>) -> u64
    requires count { length seats.items ≡ seats_of turn }
    requires seats { Numbered (IsSeat turn) 0 seats.items }
    ensures { result ≡ (opening_of turn).count + sum_by (λ seat. length (seat_gave seat))
        seats.items }
{
    turn.close(seats).count
}

// The count, if there was memory.
fn counted<R: Threads + Wait + Sync>(
    rt: &R,
    alloc: Global,
    first: u64,
    threads: usize,
    times: u32,
) -> Option<u64>
    requires { (first < 2 ^ 62) × (0 < threads) × (threads ≤ 18) }
    ensures { IfSome result (λ n. first ≤ n) }
{
    let (turn, seats) = Turns::make(alloc, Counter { count: first }, threads).ok()?;
    let seats = raise_together(rt, &turn, seats, times);
    Some(total(turn, seats))
}

// One seat raises it three times, once of them in another thread.
fn counted_elsewhere<R: Threads + Wait + Sync>(rt: &R, alloc: Global) -> Option<u64> {
    let (turn, mut seats) = Turns::make(alloc, Counter { count: 0 }, 1).ok()?;
    let seat = seats.pop()?;
    let seat = raise_elsewhere(rt, &turn, seat);
    append(&mut seats, seat);
    Some(total(turn, seats))
}

#[test]
fn a_seat_goes_to_another_thread(rt: HostRuntime) -> Result<(), Fail> {
    assert_eq!(rt; counted_elsewhere(&rt, rt.alloc()), Some(3));
    Ok(())
}

#[test]
fn threads_raise_a_counter(rt: HostRuntime) -> Result<(), Fail> {
    for (threads, times) in [(1, 1000), (2, 1000), (16, 100), (18, 1)] {
        let count = counted(&rt, rt.alloc(), 5, threads, times);
        assert_eq!(rt;
            count,
            Some(5 + threads as u64 * times as u64),
            "by {threads} threads"
        );
    }
    Ok(())
}
