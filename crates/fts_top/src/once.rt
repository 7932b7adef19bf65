ghost use Rattle.std.specs.Prelude.{◌≡◌, ◌⊎◌, ℕ, map, IfOk, IfErr, Ok};
ghost use Rattle.std.specs.String.{string_bytes};
ghost use Rattle.fts_faults.specs.Count.{CountsFault};
ghost use Rattle.fts_types.specs.declared.settings.Settings.{Settings};
ghost use Rattle.fts_types.specs.Settings.{AreSettings};
ghost use Rattle.fts_types.specs.Limits.{standard_limits};
ghost use Rattle.fts_steps.specs.FaultCounts.{CountsFaultOf};
ghost use Rattle.fts_args.specs.Asked.{Asks};
ghost use Rattle.fts_args.specs.declared.command.Command.{Command};
ghost use Rattle.fts_engine.specs.Bounds.{AreWithin};
ghost use Rattle.fts_top.specs.Generated.{GenEnds};
ghost use Rattle.fts_engine.specs.Devices.{devices_of, disks_of};
ghost use Rattle.fts_top.specs.Once.{outside, sink_seen, CreateEnds, Creates};
ghost use Rattle.fts_top.specs.Once.{Executed, RunEnds, Unopened};
ghost use Rattle.fts_top.specs.Once.{AskNothingOnce, CountsFaults, NoneRose, CanFinish, Finishes};

use crate::Status;
use crate::ends::{CreateEnd, RunEnd, status_of_gen};
use crate::generate::gen_script;
use crate::script::run;
use fts_args::{Command, command_of};
use fts_disk::Disk;
use fts_engine::{CreateError, OpenError, create_engine, open_engine};
use fts_io::{Gate, Sink, Source, write_whole};
use fts_schema::created_text;
use fts_sessions::Direct;
use fts_types::{Limits, Settings};
use std::alloc::{AllocError, Global};

/// Opens the database and executes the script. `limits` are those of its commits.
pub fn run_script<I: Source, O: Sink, D: Disk, E: Disk, G: Gate>(
    alloc: Global,
    input: &mut I,
    out: &mut O,
    rows: D,
    index: E,
    limits: Limits,
    gate: &G,
) -> (Result<RunEnd, OpenError>, D, E)
    requires { AreWithin standard_limits limits }
    ensures executed { IfOk result.0 (λ end. Executed (disks_of D.Disk E.Disk) limits end
        (outside I.Source O.Sink input.old out.old rows index)
        (outside I.Source O.Sink input.new out.new result.1 result.2)) }
    ensures unopened { IfErr result.0 (λ error. Unopened (disks_of D.Disk E.Disk) error
        ((input.new ≡ input.old) × (out.new ≡ out.old))
        (devices_of rows index) (devices_of result.1 result.2)) }
    ensures read { CountsFault (result.0 ≡ Ok RunEnd.ReadFault)
        (I.faults input.old) (I.faults input.new) }
    ensures write { CountsFault (result.0 ≡ Ok RunEnd.WriteFault)
        (O.faults out.old) (O.faults out.new) }
{
    match open_engine(alloc, rows, index, limits) {
        Ok(engine) => {
            let mut steps = Direct { engine };
            let end = run(alloc, input, out, &mut steps, gate);
            let Direct { engine } = steps;
            let (rows, index) = engine.close();
            (Ok(end), rows, index)
        }
        Err((error, rows, index)) => (Err(error), rows, index),
    }
}

// Makes a database, and says so.
#[tactic(auto, using(crate::proofs::Opening::created_right))]
fn create<O: Sink, D: Disk, E: Disk>(
    alloc: Global,
    settings: &Settings,
    out: &mut O,
    rows: D,
    index: E,
) -> (CreateEnd, D, E)
    requires { AreSettings settings.now }
    ensures creates { Creates (disks_of D.Disk E.Disk) result.0 settings.now (out.new ≡ out.old)
        (sink_seen O.Sink out.old) (sink_seen O.Sink out.new)
        (devices_of rows index) (devices_of result.1 result.2) }
    ensures write { CountsFault (result.0 ≡ CreateEnd.WriteFault)
        (O.faults out.old) (O.faults out.new) }
    ensures disk { CountsFaultOf (result.0 ≡ CreateEnd.DiskFault)
        (D.faults rows, E.faults index) (D.faults result.1, E.faults result.2) }
{
    match create_engine(alloc, settings, rows, index) {
        Ok((rows, index)) => match write_whole(out, created_text().as_bytes()) {
            Ok(()) => (CreateEnd::Done, rows, index),
            Err(_) => (CreateEnd::WriteFault, rows, index),
        },
        Err((CreateError::NoMemory, rows, index)) => (CreateEnd::NoMemory, rows, index),
        Err((CreateError::AlreadyCreated, rows, index)) => {
            (CreateEnd::AlreadyCreated, rows, index)
        }
        Err((CreateError::DiskFault, rows, index)) => (CreateEnd::DiskFault, rows, index),
    }
}

/// Does what the words ask for: `create` makes a database on the two devices, and `run` opens it
/// and executes the lines of the input, each line's reply written before the next line is executed.
/// `gen` opens it too, executes the lines of a script that is made from a number, and writes one
/// line that tells what these come to. `serve` takes threads and is not done here: its words are
/// `Usage`, as those that ask for nothing.
///
/// `words` are all words behind the program's name. The first names the folder, which concerns the
/// caller that made the devices of it. Both devices are handed back.
pub fn fts_once<I: Source, O: Sink, D: Disk, E: Disk, G: Gate>(
    alloc: Global,
    words: &[String],
    input: &mut I,
    out: &mut O,
    rows: D,
    index: E,
    gate: &G,
) -> (Status, D, E)
    // The words that ask for nothing that is done here.
    ensures usage { result.0 ≡ Status.Usage → AskNothingOnce (map string_bytes words.now) }
    ensures unasked { AskNothingOnce (map string_bytes words.now)
        → ((result.0 ≡ Status.Usage) ⊎ (result.0 ≡ Status.NoMemory))
        × (input.new ≡ input.old) × (out.new ≡ out.old)
        × (result.1 ≡ rows) × (result.2 ≡ index) }

    // What each command has done, by its status.
    ensures creates { (settings : Settings)
        → Asks (map string_bytes words.now) (Command.Create settings)
        → (input.new ≡ input.old)
        × CreateEnds (disks_of D.Disk E.Disk) result.0 settings (out.new ≡ out.old)
        (outside I.Source O.Sink input.old out.old rows index)
        (outside I.Source O.Sink input.new out.new result.1 result.2) }
    ensures runs { Asks (map string_bytes words.now) Command.Run
        → RunEnds (disks_of D.Disk E.Disk) standard_limits result.0
        ((input.new ≡ input.old) × (out.new ≡ out.old))
        (outside I.Source O.Sink input.old out.old rows index)
        (outside I.Source O.Sink input.new out.new result.1 result.2) }
    ensures generates { (seed count : ℕ)
        → Asks (map string_bytes words.now) (Command.Gen seed count)
        → (input.new ≡ input.old)
        × GenEnds (disks_of D.Disk E.Disk) seed count result.0 (out.new ≡ out.old)
        (sink_seen O.Sink out.old) (sink_seen O.Sink out.new)
        (devices_of rows index) (devices_of result.1 result.2) }

    // When a stream's fault is told, and that without any all is done, but for want of memory.
    ensures faults { CountsFaults result.0
        (outside I.Source O.Sink input.old out.old rows index)
        (outside I.Source O.Sink input.new out.new result.1 result.2) }
    ensures complete { CanFinish (disks_of D.Disk E.Disk) (map string_bytes words.now)
        (outside I.Source O.Sink input.old out.old rows index)
        → NoneRose (disks_of D.Disk E.Disk) (outside I.Source O.Sink input.old out.old rows index)
        (outside I.Source O.Sink input.new out.new result.1 result.2)
        → Finishes result.0 }
{
    match command_of(alloc, words) {
        Ok(None) => (Status::Usage, rows, index),
        Ok(Some(Command::Create { settings })) => {
            let (end, rows, index) = create(alloc, &settings, out, rows, index);
            (Status::from(end), rows, index)
        }
        Ok(Some(Command::Run)) => {
            let limits = Limits::standard();
            let (end, rows, index) = run_script(alloc, input, out, rows, index, limits, gate);
            match end {
                Ok(end) => (Status::from(end), rows, index),
                Err(error) => (Status::from(error), rows, index),
            }
        }
        Ok(Some(Command::Serve)) => (Status::Usage, rows, index),
        Ok(Some(Command::Gen { seed, count })) => {
            let (end, rows, index) = gen_script(alloc, seed, count, out, rows, index, gate);
            match end {
                Ok(end) => (status_of_gen(end), rows, index),
                Err(error) => (Status::from(error), rows, index),
            }
        }
        Err(AllocError) => (Status::NoMemory, rows, index),
    }
}
