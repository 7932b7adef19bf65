//! Sessions over an engine, from its going under the turn to the last rounds of the workers.
ghost use Rattle.std.specs.Prelude.{◌≡◌, ◌≤◌, length, IfOk, IfErr};
ghost use Rattle.fts_script.specs.Script.{lines_in};
ghost use Rattle.fts_shared.specs.Served.{AreServed, EndsAlone};

use crate::context::Context;
use crate::ends::{seated, unseated};
use crate::joined::{Done, Parkers, Sessions, beside_workers};
use crate::settings::copy_of;
use crate::work::Work;
use fts_disk::Disk;
use fts_engine::Engine;
use fts_io::Gate;
use fts_script::Script;
use fts_sessions::Direct;
use fts_workers::{Bell, Bells, Health, OptimizeRounds, Rounds, SyncRounds};
use std::alloc::{AllocError, Global};
use std::sync::Wait;
use std::thread::Threads;

/// What is there when sessions were served.
#[derive(Drop)]
pub struct Served<D: Disk, E: Disk> {
    /// The engine, with all that was added.
    pub engine: Engine<D, E>,
    /// What the sessions were told.
    pub works: Vec<Work>,
    /// What the steps of the two workers met, of which no reply tells.
    pub met: Health,
}

// The bells of the two workers, and where these wait.
fn bells(alloc: Global) -> Result<(Bells, Parkers), AllocError> {
    let (sync, sync_parker) = Bell::new(alloc)?;
    let (optimizer, optimizer_parker) = Bell::new(alloc)?;
    let bells = Bells { sync, optimizer };
    let parkers = Parkers {
        sync: sync_parker,
        optimizer: optimizer_parker,
    };
    Ok((bells, parkers))
}

// One more round of each worker over an engine that nobody else uses.
fn last_rounds<D: Disk, E: Disk>(engine: Engine<D, E>) -> (Engine<D, E>, Health)
    ensures { EndsAlone engine result.0 result.1 }
{
    let mut steps = Direct { engine };
    let synced = SyncRounds.make(&mut steps);
    let optimized = OptimizeRounds.make(&mut steps);
    let Direct { engine } = steps;
    (engine, synced.worse(optimized))
}

/// Executes the lines of at most 16 sessions of a script over an engine, each session in a thread
/// of its own where one can be made, beside two workers: one makes batches behind commits, and one
/// an OPTIMIZE behind batches. When the sessions have ended, each worker makes a last round, and
/// another one when the engine is nobody else's.
///
/// Lines of one session are executed in their order. How those of several come between each other
/// is told by nobody; but one history tells all their steps, and those of the workers. At `Err`
/// there was no memory before the first step, and nothing changed.
pub fn serve_sessions<R: Threads + Wait + Sync, D: Disk + Send, E: Disk + Send, G: Gate + Sync>(
    alloc: Global,
    rt: &R,
    engine: Engine<D, E>,
    gate: &G,
    script: &Script,
    works: Vec<Work>,
) -> Result<Served<D, E>, (Engine<D, E>, Vec<Work>)>
    requires { length works.items ≤ 16 }
    ensures served { IfOk result (λ served.
        AreServed (lines_in script.now) engine works.items served) }
    ensures back { IfErr result (λ r. r ≡ (engine, works)) }
{
    let Ok(settings) = copy_of(alloc, engine.settings()) else {
        return Err((engine, works));
    };
    let Ok(row) = Vec::with_capacity(alloc, works.len()) else {
        return Err((engine, works));
    };
    let Ok((bells, parkers)) = bells(alloc) else {
        return Err((engine, works));
    };
    let (turn, seats) = match seated(alloc, engine, works.len() + 2) {
        Ok(made) => made,
        Err(engine) => return Err((engine, works)),
    };
    let context = Context {
        alloc,
        rt,
        turn: &turn,
        settings: &settings,
        bells: &bells,
        gate,
        script,
    };
    let sessions = Sessions { seats, works, row };
    let Done { seats, works, met } = beside_workers(&context, parkers, sessions);
    let engine = unseated(turn, seats);
    let (engine, last) = last_rounds(engine);
    Ok(Served {
        engine,
        works,
        met: met.worse(last),
    })
}
