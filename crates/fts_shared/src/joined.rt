//! Sessions and the two workers, each in a thread of its own where one can be made.
ghost use Rattle.std.specs.Prelude.{◌≡◌, ◌≤◌, ◌+◌, [], length, All, vec_capacity};
ghost use Rattle.fts_turn.specs.Promises.{IsAtRest, IsSeat, Numbered};
ghost use Rattle.fts_script.specs.Script.{lines_in};
ghost use Rattle.fts_workers.specs.Workers.{SyncRound, OptimizeRound};
ghost use Rattle.fts_shared.specs.Places.{IsReady, HasTalked, Pairwise, AreDone, AreReady};
ghost use Rattle.fts_shared.specs.Places.{at_places, HasSeat, HasWorked, AreAllDone};
ghost use denote.Param.Send.{IsSync};

use crate::AtTurn;
use crate::at_work::{Post, one_session, rounds_at_post};
use crate::context::Context;
use crate::work::Work;
use crossbeam_utils::sync::Parker;
use fts_disk::Disk;
use fts_io::Gate;
use fts_turn::Seat;
use fts_workers::{Health, OptimizeRounds, SyncRounds};
use std::sync::Wait;
use std::thread::{Threads, for_each_mut, join};

/// A seat, and the work that is done at it.
#[derive(Drop)]
pub struct Place<D: Disk, E: Disk> {
    pub(crate) seat: Option<Seat<AtTurn<D, E>>>,
    pub(crate) work: Work,
}

/// Where the two workers wait.
#[derive(Drop)]
pub(crate) struct Parkers {
    pub(crate) sync: Parker,
    pub(crate) optimizer: Parker,
}

/// The work of sessions, the seats at which it is done, and a row that has room for both.
#[derive(Drop)]
pub(crate) struct Sessions<D: Disk, E: Disk> {
    pub(crate) seats: Vec<Seat<AtTurn<D, E>>>,
    pub(crate) works: Vec<Work>,
    pub(crate) row: Vec<Place<D, E>>,
}

/// The two workers at their seats.
#[derive(Drop)]
pub(crate) struct Posts<D: Disk, E: Disk> {
    pub(crate) sync: Post<D, E>,
    pub(crate) optimizer: Post<D, E>,
}

/// What the seats of sessions and workers saw, what the sessions were told, and what the workers
/// met.
#[derive(Drop)]
pub(crate) struct Done<D: Disk, E: Disk> {
    pub(crate) seats: Vec<Seat<AtTurn<D, E>>>,
    pub(crate) works: Vec<Work>,
    pub(crate) met: Health,
}

// Executes the lines of the session at a place.
fn execute_at<R: Wait, D: Disk, E: Disk, G: Gate>(
    context: &Context<R, D, E, G>,
    place: &mut Place<D, E>,
)
    requires { IsReady context.now.turn.now place.old }
    ensures { HasTalked (lines_in context.now.script.now) context.now.turn.now
        place.old place.new }
{
    let Some(seat) = place.seat.take() else {
        unreachable!()
    };
    let seat = one_session(context, seat, &mut place.work);
    place.seat = Some(seat);
}

// Executes the lines of all sessions, each at its place.
fn execute_each<R: Threads + Wait + Sync, D: Disk + Send, E: Disk + Send, G: Gate + Sync>(
    context: &Context<R, D, E, G>,
    places: &mut [Place<D, E>],
)
    requires { All (IsReady context.now.turn.now) places.old }
    ensures { Pairwise (HasTalked (lines_in context.now.script.now) context.now.turn.now)
        places.old places.new }
{
    let threads = places.len().max(1);
    let session = move |_number: usize, place: &mut Place<D, E>|
        requires { IsSync R.row × IsSync G.row × IsReady context.now.turn.now place.now }
        ensures { HasTalked (lines_in context.entry.now.script.now) context.entry.now.turn.now
            place.entry.now place.exit.now }
    { execute_at(context, place) };
    for_each_mut(context.rt, places, threads, &session);
}

// Each seat with its work. The row has room for them.
fn place_all<D: Disk, E: Disk>(
    seats: &mut Vec<Seat<AtTurn<D, E>>>,
    works: &mut Vec<Work>,
    places: &mut Vec<Place<D, E>>,
)
    requires count { length seats.old.items ≡ length works.old.items }
    requires row { (places.old.items ≡ [])
        × (length seats.old.items ≤ vec_capacity places.old) }
    ensures places { places.new.items ≡ at_places seats.old.items works.old.items }
    ensures none { (seats.new.items ≡ []) × (works.new.items ≡ []) }
    ensures room { (vec_capacity seats.old ≤ vec_capacity seats.new)
        × (vec_capacity works.old ≤ vec_capacity works.new)
        × (vec_capacity places.old ≤ vec_capacity places.new) }
{
    let Some(seat) = seats.pop() else {
        return;
    };
    let Some(work) = works.pop() else {
        unreachable!()
    };
    place_all(seats, works, places);
    places.push_reserved(Place {
        seat: Some(seat),
        work,
    });
}

// Each seat and its work by itself again. The rows have room for them.
fn leave_all<D: Disk, E: Disk>(
    places: &mut Vec<Place<D, E>>,
    seats: &mut Vec<Seat<AtTurn<D, E>>>,
    works: &mut Vec<Work>,
)
    requires seated { All HasSeat places.old.items }
    requires none { (seats.old.items ≡ []) × (works.old.items ≡ []) }
    requires room { (length places.old.items ≤ vec_capacity seats.old)
        × (length places.old.items ≤ vec_capacity works.old) }
    ensures places { places.old.items ≡ at_places seats.new.items works.new.items }
    ensures count { (length seats.new.items ≡ length places.old.items)
        × (length works.new.items ≡ length places.old.items) }
    ensures room { (vec_capacity seats.old ≤ vec_capacity seats.new)
        × (vec_capacity works.old ≤ vec_capacity works.new) }
{
    let Some(Place { seat, work }) = places.pop() else {
        return;
    };
    let Some(seat) = seat else { unreachable!() };
    leave_all(places, seats, works);
    seats.push_reserved(seat);
    works.push_reserved(work);
}

// Executes the lines of sessions, each at its seat.
fn execute_seated<R: Threads + Wait + Sync, D: Disk + Send, E: Disk + Send, G: Gate + Sync>(
    context: &Context<R, D, E, G>,
    sessions: Sessions<D, E>,
) -> (Vec<Seat<AtTurn<D, E>>>, Vec<Work>)
    requires { AreReady context.now.turn.now sessions }
    ensures done { AreDone (lines_in context.now.script.now) context.now.turn.now
        sessions.seats.items sessions.works.items result.0.items result.1.items }
    ensures room { vec_capacity sessions.seats ≤ vec_capacity result.0 }
{
    let Sessions {
        mut seats,
        mut works,
        mut row,
    } = sessions;
    place_all(&mut seats, &mut works, &mut row);
    execute_each(context, &mut row);
    leave_all(&mut row, &mut seats, &mut works);
    (seats, works)
}

// The sessions beside the sync worker, which ends behind them.
fn beside_sync<R: Threads + Wait + Sync, D: Disk + Send, E: Disk + Send, G: Gate + Sync>(
    context: &Context<R, D, E, G>,
    sync: Post<D, E>,
    sessions: Sessions<D, E>,
) -> (
    (Seat<AtTurn<D, E>>, Health),
    (Vec<Seat<AtTurn<D, E>>>, Vec<Work>),
)
    requires rest { IsAtRest context.now.turn.now sync.seat }
    requires ready { AreReady context.now.turn.now sessions }
    ensures sync { HasWorked SyncRound context.now.turn.now sync.seat result.0.0 result.0.1 }
    ensures done { AreDone (lines_in context.now.script.now) context.now.turn.now
        sessions.seats.items sessions.works.items result.1.0.items result.1.1.items }
    ensures room { vec_capacity sessions.seats ≤ vec_capacity result.1.0 }
{
    let worker = move || -> (Seat<AtTurn<D, E>>, Health)
        requires { IsSync R.row × IsSync G.row × IsAtRest context.now.turn.now sync.seat }
        ensures { HasWorked SyncRound context.entry.now.turn.now sync.seat
            result.0 result.1 }
    { rounds_at_post(context, &SyncRounds, sync, &context.bells.sync) };
    let others = move || -> (Vec<Seat<AtTurn<D, E>>>, Vec<Work>)
        requires { IsSync R.row × IsSync G.row × AreReady context.now.turn.now sessions }
        ensures { AreDone (lines_in context.entry.now.script.now) context.entry.now.turn.now
            sessions.seats.items sessions.works.items result.0.items result.1.items
            × (vec_capacity sessions.seats ≤ vec_capacity result.0) }
    {
        let done = execute_seated(context, sessions);
        context.bells.sync.end();
        done
    };
    join(context.rt, worker, others)
}

// Both beside the optimiser, which ends behind them.
fn beside_both<R: Threads + Wait + Sync, D: Disk + Send, E: Disk + Send, G: Gate + Sync>(
    context: &Context<R, D, E, G>,
    posts: Posts<D, E>,
    sessions: Sessions<D, E>,
) -> (
    (Seat<AtTurn<D, E>>, Health),
    (
        (Seat<AtTurn<D, E>>, Health),
        (Vec<Seat<AtTurn<D, E>>>, Vec<Work>),
    ),
)
    requires rest { IsAtRest context.now.turn.now posts.sync.seat
        × IsAtRest context.now.turn.now posts.optimizer.seat }
    requires ready { AreReady context.now.turn.now sessions }
    ensures optimizer { HasWorked OptimizeRound context.now.turn.now posts.optimizer.seat
        result.0.0 result.0.1 }
    ensures sync { HasWorked SyncRound context.now.turn.now posts.sync.seat
        result.1.0.0 result.1.0.1 }
    ensures done { AreDone (lines_in context.now.script.now) context.now.turn.now
        sessions.seats.items sessions.works.items result.1.1.0.items result.1.1.1.items }
    ensures room { vec_capacity sessions.seats ≤ vec_capacity result.1.1.0 }
{
    let Posts { sync, optimizer } = posts;
    let worker = move || -> (Seat<AtTurn<D, E>>, Health)
        requires { IsSync R.row × IsSync G.row × IsAtRest context.now.turn.now optimizer.seat }
        ensures { HasWorked OptimizeRound context.entry.now.turn.now optimizer.seat
            result.0 result.1 }
    {
        rounds_at_post(
            context,
            &OptimizeRounds,
            optimizer,
            &context.bells.optimizer,
        )
    };
    let others = move || -> (
        (Seat<AtTurn<D, E>>, Health),
        (Vec<Seat<AtTurn<D, E>>>, Vec<Work>),
    )
        requires { IsSync R.row × IsSync G.row × IsAtRest context.now.turn.now sync.seat
            × AreReady context.now.turn.now sessions }
        ensures { HasWorked SyncRound context.entry.now.turn.now sync.seat
            result.0.0 result.0.1
            × AreDone (lines_in context.entry.now.script.now) context.entry.now.turn.now
            sessions.seats.items sessions.works.items
            result.1.0.items result.1.1.items
            × (vec_capacity sessions.seats ≤ vec_capacity result.1.0) }
    {
        let done = beside_sync(context, sync, sessions);
        context.bells.optimizer.end();
        done
    };
    join(context.rt, worker, others)
}

/// Executes the lines of sessions, each at its seat, beside the two workers, which have the last
/// two seats. When all sessions have ended the sync worker makes a last round, and the optimiser
/// behind it.
pub(crate) fn beside_workers<
    R: Threads + Wait + Sync,
    D: Disk + Send,
    E: Disk + Send,
    G: Gate + Sync,
>(context: &Context<R, D, E, G>, parkers: Parkers, sessions: Sessions<D, E>) -> Done<D, E>
    requires seats { Numbered (IsSeat context.now.turn.now) 0 sessions.seats.items }
    requires count { length sessions.seats.items ≡ length sessions.works.items + 2 }
    requires row { (sessions.row.items ≡ [])
        × (length sessions.works.items ≤ vec_capacity sessions.row) }
    ensures { AreAllDone (lines_in context.now.script.now) context.now.turn.now
        sessions.seats.items sessions.works.items result }
{
    let Sessions {
        mut seats,
        works,
        row,
    } = sessions;
    let Some(optimizer) = seats.pop() else {
        unreachable!()
    };
    let Some(sync) = seats.pop() else {
        unreachable!()
    };
    let posts = Posts {
        sync: Post {
            seat: sync,
            parker: parkers.sync,
        },
        optimizer: Post {
            seat: optimizer,
            parker: parkers.optimizer,
        },
    };
    let sessions = Sessions { seats, works, row };
    let ((optimizer, optimized), ((sync, synced), (mut seats, works))) = beside_both(
        context, posts, sessions,
    );
    seats.push_reserved(sync);
    seats.push_reserved(optimizer);
    Done {
        seats,
        works,
        met: synced.worse(optimized),
    }
}
