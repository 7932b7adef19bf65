//! A session and the workers, each at its seat.
ghost use Rattle.std.specs.Prelude.{◌≡◌};
ghost use Rattle.fts_turn.specs.Promises.{IsAtRest};
ghost use Rattle.fts_script.specs.Script.{lines_in};
ghost use Rattle.fts_shared.specs.Places.{IsDone, HasWorked};

use crate::AtTurn;
use crate::context::Context;
use crate::placed::Placed;
use crate::shared::Shared;
use crate::talking::talk;
use crate::work::Work;
use crossbeam_utils::sync::Parker;
use fts_disk::Disk;
use fts_io::Gate;
use fts_sessions::Session;
use fts_turn::Seat;
use fts_workers::{Bell, Health, Rounds, make_rounds};
use std::sync::Wait;

/// The seat of a worker, and where the worker waits.
#[derive(Drop)]
pub(crate) struct Post<D: Disk, E: Disk> {
    pub(crate) seat: Seat<AtTurn<D, E>>,
    pub(crate) parker: Parker,
}

// The steps of who has a seat.
fn steps_at<'a, R: Wait, D: Disk, E: Disk, G: Gate>(
    context: &Context<'a, R, D, E, G>,
    seat: Seat<AtTurn<D, E>>,
) -> Shared<'a, R, D, E>
    requires { IsAtRest context.now.turn.now seat }
    ensures { result.placed ≡ (context.now.turn.now, seat) }
{
    Shared {
        rt: context.rt,
        placed: Placed::new(context.turn, seat),
        settings: context.settings,
        bells: context.bells,
    }
}

/// Executes the lines of a session at its seat. What they were told before is dropped.
pub(crate) fn one_session<R: Wait, D: Disk, E: Disk, G: Gate>(
    context: &Context<R, D, E, G>,
    seat: Seat<AtTurn<D, E>>,
    work: &mut Work,
) -> Seat<AtTurn<D, E>>
    requires { IsAtRest context.now.turn.now seat }
    ensures { IsDone (lines_in context.now.script.now) context.now.turn.now seat result
        work.old work.new }
{
    work.replies.clear();
    let mut session = Session::new(context.alloc, work.group.number);
    let mut steps = steps_at(context, seat);
    let places = &work.group.places;
    talk(
        &mut session,
        &mut steps,
        context.gate,
        context.script,
        places,
        &mut work.replies,
    );
    let Shared { placed, .. } = steps;
    placed.into_seat()
}

/// Makes the rounds of a worker at its seat, to the one after its end.
pub(crate) fn rounds_at_post<R: Wait, W: Rounds, D: Disk, E: Disk, G: Gate>(
    context: &Context<R, D, E, G>,
    rounds: &W,
    post: Post<D, E>,
    bell: &Bell,
) -> (Seat<AtTurn<D, E>>, Health)
    requires { IsAtRest context.now.turn.now post.seat }
    ensures { HasWorked W.round context.now.turn.now post.seat result.0 result.1 }
{
    let Post { seat, parker } = post;
    let mut steps = steps_at(context, seat);
    let met = make_rounds(context.rt, rounds, &mut steps, context.gate, &parker, bell);
    let Shared { placed, .. } = steps;
    (placed.into_seat(), met)
}
