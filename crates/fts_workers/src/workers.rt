//! The two workers: one makes batches behind commits, and one an OPTIMIZE behind batches.
ghost use Rattle.fts_workers.specs.Workers.{Works, MakesOne, SyncRound, OptimizeRound};

use crate::batches::make_batches;
use crate::bell::Bell;
use crate::health::{Health, health_of};
use crossbeam_utils::sync::Parker;
use fts_io::{Gate, Point};
use fts_sessions::{EngineSteps, optimize_once};
use std::sync::Wait;

// A round of the sync worker.
fn sync_round<S: EngineSteps>(steps: &mut S) -> Health
    ensures { MakesOne S.sight SyncRound result steps.old steps.new }
{
    make_batches(steps, u64::MAX)
}

// A round of the optimiser.
fn optimize_round<S: EngineSteps>(steps: &mut S) -> Health
    ensures { MakesOne S.sight OptimizeRound result steps.old steps.new }
{
    let reply = optimize_once(steps);
    health_of(&reply)
}

/// What a worker does each time that it is woken.
pub trait Rounds {
    ghost use Rattle.std.specs.Prelude.{List};
    ghost use Rattle.fts_steps.specs.Step.{Call};
    ghost use Rattle.fts_types.specs.declared.settings.Settings.{Settings};

    /// The steps of a round.
    ghost round: { Settings → List Call → Type 0 };

    /// Makes a round.
    fn make<S: EngineSteps>(&self, steps: &mut S) -> Health
        ensures { MakesOne S.sight round result steps.old steps.new };
}

/// Those of the sync worker: batches, while the index's cache is too large.
#[derive(Drop)]
pub struct SyncRounds;

impl Rounds for SyncRounds {
    ghost round = { SyncRound };

    fn make<S: EngineSteps>(&self, steps: &mut S) -> Health {
        sync_round(steps)
    }
}

/// Those of the optimiser: one OPTIMIZE.
#[derive(Drop)]
pub struct OptimizeRounds;

impl Rounds for OptimizeRounds {
    ghost round = { OptimizeRound };

    fn make<S: EngineSteps>(&self, steps: &mut S) -> Health {
        optimize_round(steps)
    }
}

/// Makes a round each time that the bell rings, and a last one when it tells the end. The end is
/// looked for before each, so that the last comes after it.
pub fn make_rounds<R: Wait, W: Rounds, S: EngineSteps, G: Gate>(
    rt: &R,
    rounds: &W,
    steps: &mut S,
    gate: &G,
    parker: &Parker,
    bell: &Bell,
) -> Health
    ensures { Works S.sight W.round result steps.old steps.new }
{
    let mut met = Health::Sound;
    'rounds: for _ in rt.forever() {
        let is_last = bell.is_ended();
        gate.pass(Point::Worker, 0);
        let now = rounds.make(steps);
        if is_last {
            return met.worse(now);
        }
        met = met.worse(now);
        parker.park(rt);
    }
    unreachable!()
}
