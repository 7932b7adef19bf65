//! `serve`: the sessions of a script, each in a thread of its own.
ghost use Rattle.std.specs.Prelude.{◌≡◌, ◌≢◌, ◌⊎◌, ◌≤◌, length, true, IfOk, IfErr, Ok, Err};
ghost use Rattle.fts_faults.specs.Count.{CountsFault, Rose};
ghost use Rattle.fts_script.specs.Group.{IsGrouping};
ghost use Rattle.fts_script.specs.Script.{lines_in};
ghost use Rattle.fts_shared.specs.Work.{shares_in};
ghost use Rattle.fts_types.specs.Limits.{standard_limits};
ghost use Rattle.fts_engine.specs.Bounds.{AreWithin};
ghost use Rattle.fts_engine.specs.Devices.{devices_of, disks_of};
ghost use Rattle.fts_engine.specs.Stands.{engine_faults, rows_device, index_device};
ghost use Rattle.fts_steps.specs.FaultCounts.{CountsFaultOf, NoneFell, OneRose};
ghost use Rattle.fts_top.specs.Health.{IsRead};
ghost use Rattle.fts_top.specs.Once.{outside, sink_seen, source_seen, Unopened};
ghost use Rattle.fts_top.specs.Serve.{counts_in, IsWork, IsUnread, Answers, Serves};
ghost use Rattle.fts_top.specs.Serve.{NotServed, WasServed};
ghost use Rattle.fts_top.specs.Serve.{end_of as the_end_of};

use crate::answers::{met_by, send_all};
use crate::ends::{RunEnd, Unsent};
use fts_disk::Disk;
use fts_engine::{Engine, OpenError, open_engine};
use fts_io::{Gate, Sink, Source};
use fts_script::{Script, group_lines, read_script};
use fts_shared::{Served, Work, replies_in_order, serve_sessions, works_of};
use fts_types::Limits;
use fts_workers::Health;
use std::alloc::{AllocError, Global};
use std::sync::Wait;
use std::thread::Threads;

/// A script that was read, and the work of its sessions.
#[derive(Drop)]
struct Ready {
    script: Script,
    works: Vec<Work>,
}

/// How many faults each device had.
#[derive(Clone, Copy)]
struct Faults {
    rows: u64,
    index: u64,
}

// How many faults these devices had.
fn faults_of<D: Disk, E: Disk>(rows: &D, index: &E) -> Faults
    ensures { counts_in result ≡ (D.faults rows.now, E.faults index.now) }
{
    Faults {
        rows: rows.faults(),
        index: index.faults(),
    }
}

// Whether the count of one of them rose.
fn have_risen(before: Faults, after: Faults) -> bool
    ensures rose { result ≡ true → OneRose (counts_in before) (counts_in after) }
    ensures calm { NoneFell (counts_in before) (counts_in after) → (result ≡ true → ⊥)
        → counts_in after ≡ counts_in before }
{
    let rows = has_risen(before.rows, after.rows);
    let index = has_risen(before.index, after.index);
    rows || index
}

// Whether a count rose from one time to another. It stays where it can't rise.
fn has_risen(before: u64, now: u64) -> bool
    ensures rose { result ≡ true → Rose before now }
    ensures calm { before ≤ now → (result ≡ true → ⊥) → now ≡ before }
{
    now > before || now == u64::MAX
}

/// Opens the database, reads the whole script, and executes its lines: those of one session in
/// their order, and those of several beside each other. When all are executed the replies are
/// written, in the order of the lines.
///
/// Where the script is not read, is too long or has too many sessions, no line is executed.
pub fn serve_script<
    T: Threads + Wait + Sync,
    I: Source,
    O: Sink,
    D: Disk + Send,
    E: Disk + Send,
    G: Gate + Sync,
>(
    alloc: Global,
    threads: &T,
    input: &mut I,
    out: &mut O,
    rows: D,
    index: E,
    limits: Limits,
    gate: &G,
) -> (Result<RunEnd, OpenError>, D, E)
    requires { AreWithin standard_limits limits }
    ensures serves { IfOk result.0 (λ end. Serves D.Disk E.Disk limits end
        (outside I.Source O.Sink input.old out.old rows index)
        (outside I.Source O.Sink input.new out.new result.1 result.2)) }
    ensures unopened { IfErr result.0 (λ error. Unopened (disks_of D.Disk E.Disk) error
        ((input.new ≡ input.old) × (out.new ≡ out.old))
        (devices_of rows index) (devices_of result.1 result.2)) }
    ensures read { CountsFault (result.0 ≡ Ok RunEnd.ReadFault)
        (I.faults input.old) (I.faults input.new) }
    ensures write { CountsFault (result.0 ≡ Ok RunEnd.WriteFault)
        (O.faults out.old) (O.faults out.new) }
{
    let before = faults_of(&rows, &index);
    match open_engine(alloc, rows, index, limits) {
        Ok(engine) => {
            let (end, rows, index) = serve_on(alloc, threads, input, out, engine, before, gate);
            (Ok(end), rows, index)
        }
        Err((error, rows, index)) => (Err(error), rows, index),
    }
}

// Reads the script and executes it over an engine, whose devices had so many faults.
fn serve_on<
    T: Threads + Wait + Sync,
    I: Source,
    O: Sink,
    D: Disk + Send,
    E: Disk + Send,
    G: Gate + Sync,
>(
    alloc: Global,
    threads: &T,
    input: &mut I,
    out: &mut O,
    engine: Engine<D, E>,
    before: Faults,
    gate: &G,
) -> (RunEnd, D, E)
    requires { counts_in before ≡ engine_faults engine }
    ensures ends { NotServed D.Disk E.Disk result.0 engine
        (outside I.Source O.Sink input.old out.old (rows_device engine) (index_device engine))
        (outside I.Source O.Sink input.new out.new result.1 result.2)
        ⊎ WasServed D.Disk E.Disk result.0 engine
        (outside I.Source O.Sink input.old out.old (rows_device engine) (index_device engine))
        (outside I.Source O.Sink input.new out.new result.1 result.2) }
    ensures fault { IsRead result.0 → CountsFaultOf (result.0 ≡ RunEnd.DiskFault)
        (engine_faults engine) (D.faults result.1, E.faults result.2) }
    ensures read { CountsFault (result.0 ≡ RunEnd.ReadFault)
        (I.faults input.old) (I.faults input.new) }
    ensures write { CountsFault (result.0 ≡ RunEnd.WriteFault)
        (O.faults out.old) (O.faults out.new) }
{
    let Ready { script, works } = match read_work(alloc, input) {
        Ok(ready) => ready,
        Err(end) => {
            let (rows, index) = engine.close();
            return (end, rows, index);
        }
    };
    match serve_sessions(alloc, threads, engine, gate, &script, works) {
        Ok(Served { engine, works, met }) => {
            let (rows, index) = engine.close();
            let has_failed = have_risen(before, faults_of(&rows, &index));
            let end = answer(alloc, out, &script, works, met, has_failed);
            (end, rows, index)
        }
        Err((engine, _)) => {
            let (rows, index) = engine.close();
            (RunEnd::NoMemory, rows, index)
        }
    }
}

// Reads the script to its end, and groups its lines by sessions.
fn read_work<I: Source>(alloc: Global, input: &mut I) -> Result<Ready, RunEnd>
    ensures work { IfOk result (λ ready. IsWork (lines_in ready.script) ready.works.items
        (source_seen I.Source input.old) (source_seen I.Source input.new)) }
    ensures few { IfOk result (λ ready. length ready.works.items ≤ 16) }
    ensures unread { IfErr result (λ end. IsUnread end
        (source_seen I.Source input.old) (source_seen I.Source input.new)) }
    ensures read { CountsFault (result ≡ Err RunEnd.ReadFault)
        (I.faults input.old) (I.faults input.new) }
{
    let script = match read_script(alloc, input) {
        Ok(script) => script,
        Err(error) => return Err(RunEnd::from(error)),
    };
    let groups = match group_lines(alloc, &script) {
        Ok(groups) => groups,
        Err(error) => return Err(RunEnd::from(error)),
    };
    match works_of(alloc, groups) {
        Ok(works) => Ok(Ready { script, works }),
        Err(AllocError) => Err(RunEnd::NoMemory),
    }
}

// Writes the replies in the order of the lines.
fn answer<O: Sink>(
    alloc: Global,
    out: &mut O,
    script: &Script,
    works: Vec<Work>,
    met: Health,
    has_failed: bool,
) -> RunEnd
    requires { IsGrouping (lines_in script.now) (shares_in works.items) }
    ensures answers { Answers result (lines_in script.now) works.items met
        (sink_seen O.Sink out.old) (sink_seen O.Sink out.new) }
    ensures fault { IsRead result → (has_failed ≡ true → result ≡ RunEnd.DiskFault)
        × (result ≡ RunEnd.DiskFault → has_failed ≡ true) }
    ensures unread { result ≢ RunEnd.ReadFault }
    ensures write { CountsFault (result ≡ RunEnd.WriteFault)
        (O.faults out.old) (O.faults out.new) }
{
    match replies_in_order(alloc, script, works) {
        Ok(all) => match send_all(alloc, out, &all) {
            Ok(()) => end_of(has_failed, met.worse(met_by(&all))),
            Err(Unsent::NoMemory) => RunEnd::NoMemory,
            Err(Unsent::WriteFault) => RunEnd::WriteFault,
        },
        Err(AllocError) => RunEnd::NoMemory,
    }
}

// The end of a script whose replies were all written. A fault that was met is one of a device.
fn end_of(has_failed: bool, met: Health) -> RunEnd
    ensures { result ≡ the_end_of has_failed met }
{
    if has_failed {
        return RunEnd::DiskFault;
    }
    match met {
        Health::Sound => RunEnd::Done,
        Health::Short => RunEnd::ShortOfMemory,
        Health::Failed => RunEnd::ShortOfMemory,
    }
}
