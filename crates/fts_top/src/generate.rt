//! The lines of a script that is made from a number, and what they come to.
ghost use Rattle.std.specs.Prelude.{◌≡◌, [], length, None, IsTrue, IfOk, IfErr, Ok, Err};
ghost use Rattle.fts_faults.specs.Count.{CountsFault};
ghost use Rattle.fts_gen.specs.Script.{lines_left};
ghost use Rattle.fts_io.specs.Text.{whole};
ghost use Rattle.fts_steps.specs.FaultCounts.{NoneFell, CountsFaultOf};
ghost use Rattle.fts_steps.specs.Running.{Running};
ghost use Rattle.fts_sessions.specs.Transaction.{FitsTable};
ghost use Rattle.fts_sessions.specs.Direct.{direct_sight};
ghost use Rattle.fts_schema.specs.Summary.{summary_text};
ghost use Rattle.fts_top.specs.Generate.{as_lines, script_of, IsPlayed, PlaysLine, Generates};
ghost use Rattle.fts_top.specs.Generate.{IsSummary, Writes};
ghost use Rattle.fts_top.specs.Generated.{Generated};
ghost use Rattle.fts_engine.specs.Devices.{devices_of, disks_of};
ghost use Rattle.fts_top.specs.Once.{sink_seen, Unopened};
ghost use Rattle.fts_top.specs.Run.{sides};

use crate::ends::Unsent;
use fts_disk::Disk;
use fts_engine::{Engine, OpenError, open_engine};
use fts_gen::{ScriptLines, script};
use fts_io::{Gate, Sink, write_whole};
use fts_schema::{Summary, Sums, summary_text};
use fts_sessions::{Direct, EngineSteps, Session};
use fts_types::Limits;
use fts_workers::{Health, met_behind};
use std::alloc::{AllocError, Global};

/// What the lines of a script have met, and the sums of their replies.
#[derive(Clone, Copy, Debug, PartialEq, Eq)]
pub struct Played {
    pub met: Health,
    pub sums: Sums,
}

/// Executes the lines of a script that are still to come, each in session 1 and with the batches
/// behind it. Nothing is kept of a reply but its part in the sums.
///
/// Want of memory for the bytes of a line is the only refusal; the lines before it were executed.
pub fn play<S: EngineSteps, G: Gate>(
    alloc: Global,
    script: &mut ScriptLines,
    steps: &mut S,
    gate: &G,
) -> Result<Played, AllocError>
    ensures plays { (start : Running) → S.sight.stands start steps.old
        → IsPlayed S.sight result start (as_lines (lines_left script.old)) steps.old steps.new }
    ensures disk { IfOk result (λ played. CountsFaultOf (played.met ≡ Health.Failed)
        (S.sight.faults steps.old) (S.sight.faults steps.new)) }
    ensures never_fall { NoneFell (S.sight.faults steps.old) (S.sight.faults steps.new) }
{
    let mut session = Session::new(alloc, 1);
    play_in(script, &mut session, steps, gate)
}

// Executes them in a session, which has not met a line.
fn play_in<S: EngineSteps, G: Gate>(
    script: &mut ScriptLines,
    session: &mut Session,
    steps: &mut S,
    gate: &G,
) -> Result<Played, AllocError>
    requires { session.old.transaction ≡ None }
    ensures plays { (start : Running) → S.sight.stands start steps.old
        → IsPlayed S.sight result start (as_lines (lines_left script.old)) steps.old steps.new }
    ensures disk { IfOk result (λ played. CountsFaultOf (played.met ≡ Health.Failed)
        (S.sight.faults steps.old) (S.sight.faults steps.new)) }
    ensures never_fall { NoneFell (S.sight.faults steps.old) (S.sight.faults steps.new) }
{
    let mut played = Played {
        met: Health::Sound,
        sums: Sums::new(),
    };
    'lines: loop {
        match script.next_line() {
            Ok(Some(line)) => played = play_line(played, session, steps, gate, &line),
            Ok(None) => return Ok(played),
            Err(AllocError) => return Err(AllocError),
        }
    }
}

// Executes a line, and makes the batches behind it.
fn play_line<S: EngineSteps, G: Gate>(
    played: Played,
    session: &mut Session,
    steps: &mut S,
    gate: &G,
    line: &[u8],
) -> Played
    requires { FitsTable (length (S.sight.settings steps.old).columns) session.old.transaction }
    ensures line { PlaysLine S.sight (whole line.now) played result
        session.old.transaction session.new.transaction steps.old steps.new }
    ensures fits { FitsTable (length (S.sight.settings steps.new).columns)
        session.new.transaction }
{
    let reply = session.execute(steps, gate, line);
    let now = met_behind(steps, &reply);
    Played {
        met: played.met.worse(now),
        sums: played.sums.with(&reply),
    }
}

/// Opens the database, executes the script of `seed`, of `count` statements, and tells what it
/// comes to: what its lines met, or why that was not told. Both devices are handed back.
pub fn gen_script<O: Sink, D: Disk, E: Disk, G: Gate>(
    alloc: Global,
    seed: u16,
    count: u32,
    out: &mut O,
    rows: D,
    index: E,
    gate: &G,
) -> (Result<Result<Health, Unsent>, OpenError>, D, E)
    ensures generated { IfOk result.0 (λ end. Generated (disks_of D.Disk E.Disk) seed count end
        (sink_seen O.Sink out.old) (sink_seen O.Sink out.new)
        (devices_of rows index) (devices_of result.1 result.2)) }
    ensures unopened { IfErr result.0 (λ error. Unopened (disks_of D.Disk E.Disk) error
        (out.new ≡ out.old) (devices_of rows index) (devices_of result.1 result.2)) }
    ensures write { CountsFault (result.0 ≡ Ok (Err Unsent.WriteFault))
        (O.faults out.old) (O.faults out.new) }
{
    match open_engine(alloc, rows, index, Limits::standard()) {
        Ok(engine) => {
            let mut steps = Direct { engine };
            let end = generate(alloc, seed, count, out, &mut steps, gate);
            let Direct { engine } = steps;
            let (rows, index) = engine.close();
            (Ok(end), rows, index)
        }
        Err((error, rows, index)) => (Err(error), rows, index),
    }
}

// Executes the script of a number, and tells what it comes to.
fn generate<O: Sink, D: Disk, E: Disk, G: Gate>(
    alloc: Global,
    seed: u16,
    count: u32,
    out: &mut O,
    steps: &mut Direct<D, E>,
    gate: &G,
) -> Result<Health, Unsent>
    ensures generates { IsTrue O.tells → (start : Running) → direct_sight.stands start steps.old
        → Generates direct_sight result count start
        (script_of (direct_sight.settings steps.old) seed count)
        (sides [] (O.holds out.old) steps.old) (sides [] (O.holds out.new) steps.new) }
    ensures write { CountsFault (result ≡ Err Unsent.WriteFault)
        (O.faults out.old) (O.faults out.new) }
    ensures disk { IfOk result (λ met. CountsFaultOf (met ≡ Health.Failed)
        (direct_sight.faults steps.old) (direct_sight.faults steps.new)) }
    ensures never_fall { NoneFell (direct_sight.faults steps.old) (direct_sight.faults steps.new) }
{
    let mut lines = match script(alloc, steps.settings(), seed, count) {
        Ok(lines) => lines,
        Err(AllocError) => return Err(Unsent::NoMemory),
    };
    let played = match play(alloc, &mut lines, steps, gate) {
        Ok(played) => played,
        Err(AllocError) => return Err(Unsent::NoMemory),
    };
    let summary = summary_of(&steps.engine, count, played.sums);
    match write_summary(alloc, out, &summary) {
        Ok(()) => Ok(played.met),
        Err(unsent) => Err(unsent),
    }
}

// What a script comes to, by the engine behind it and the sums of its replies.
fn summary_of<D: Disk, E: Disk>(engine: &Engine<D, E>, count: u32, sums: Sums) -> Summary
    ensures { IsSummary engine.now count sums result }
{
    Summary {
        statements: count,
        commits: engine.commits(),
        rows: engine.row_count() as u64,
        largest: engine.largest_id(),
        sums,
    }
}

// Writes what a script comes to.
fn write_summary<O: Sink>(alloc: Global, out: &mut O, summary: &Summary) -> Result<(), Unsent>
    ensures writes { IsTrue O.tells
        → Writes result (summary_text summary.now) (O.holds out.old) (O.holds out.new) }
    ensures write { CountsFault (result ≡ Err Unsent.WriteFault)
        (O.faults out.old) (O.faults out.new) }
{
    let text = match summary_text(alloc, summary) {
        Ok(text) => text,
        Err(AllocError) => return Err(Unsent::NoMemory),
    };
    match write_whole(out, &text) {
        Ok(()) => Ok(()),
        Err(_) => Err(Unsent::WriteFault),
    }
}
