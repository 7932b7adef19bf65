//! All commands of the program.
ghost use Rattle.std.specs.Prelude.{◌≡◌, ◌⊎◌, ℕ, map, true, false, Ok};
ghost use Rattle.std.specs.String.{string_bytes};
ghost use Rattle.fts_types.specs.declared.settings.Settings.{Settings};
ghost use Rattle.fts_types.specs.Limits.{standard_limits};
ghost use Rattle.fts_args.specs.Asked.{AskNothing, Asks};
ghost use Rattle.fts_args.specs.declared.command.Command.{Command};
ghost use Rattle.fts_engine.specs.Devices.{devices_of, disks_of};
ghost use Rattle.fts_top.specs.Generated.{GenEnds};
ghost use Rattle.fts_top.specs.Once.{outside, sink_seen, CreateEnds, RunEnds};
ghost use Rattle.fts_top.specs.Once.{CountsFaults, NoneRose, CanFinish, Finishes};
ghost use Rattle.fts_top.specs.Serve.{CanServe, ServesEnd};

use crate::Status;
use crate::once::fts_once;
use crate::serve::serve_script;
use fts_args::{Command, command_of};
use fts_disk::Disk;
use fts_io::{Gate, Sink, Source};
use fts_types::Limits;
use std::alloc::{AllocError, Global};
use std::sync::Wait;
use std::thread::Threads;

/// Does what the words ask for: what `fts_once` does, and `serve`, which opens the database,
/// executes the lines of the input by their sessions, each session in a thread of its own where one
/// can be made, and then writes all replies.
///
/// `words` are all words behind the program's name. The first names the folder, which concerns the
/// caller that made the devices of it. Both devices are handed back.
pub fn fts_top<
    T: Threads + Wait + Sync,
    I: Source,
    O: Sink,
    D: Disk + Send,
    E: Disk + Send,
    G: Gate + Sync,
>(
    alloc: Global,
    threads: &T,
    words: &[String],
    input: &mut I,
    out: &mut O,
    rows: D,
    index: E,
    gate: &G,
) -> (Status, D, E)
    // The words that ask for nothing.
    ensures usage { result.0 ≡ Status.Usage → AskNothing (map string_bytes words.now) }
    ensures unasked { AskNothing (map string_bytes words.now)
        → ((result.0 ≡ Status.Usage) ⊎ (result.0 ≡ Status.NoMemory))
        × (input.new ≡ input.old) × (out.new ≡ out.old)
        × (result.1 ≡ rows) × (result.2 ≡ index) }

    // What each command has done, by its status.
    ensures creates { (settings : Settings)
        → Asks (map string_bytes words.now) (Command.Create settings)
        → (input.new ≡ input.old)
        × CreateEnds (disks_of D.Disk E.Disk) result.0 settings (out.new ≡ out.old)
        (outside I.Source O.Sink input.old out.old rows index)
        (outside I.Source O.Sink input.new out.new result.1 result.2) }
    ensures runs { Asks (map string_bytes words.now) Command.Run
        → RunEnds (disks_of D.Disk E.Disk) standard_limits result.0
        ((input.new ≡ input.old) × (out.new ≡ out.old))
        (outside I.Source O.Sink input.old out.old rows index)
        (outside I.Source O.Sink input.new out.new result.1 result.2) }
    ensures serves { Asks (map string_bytes words.now) Command.Serve
        → ServesEnd D.Disk E.Disk standard_limits result.0
        ((input.new ≡ input.old) × (out.new ≡ out.old))
        (outside I.Source O.Sink input.old out.old rows index)
        (outside I.Source O.Sink input.new out.new result.1 result.2) }
    ensures generates { (seed count : ℕ)
        → Asks (map string_bytes words.now) (Command.Gen seed count)
        → (input.new ≡ input.old)
        × GenEnds (disks_of D.Disk E.Disk) seed count result.0 (out.new ≡ out.old)
        (sink_seen O.Sink out.old) (sink_seen O.Sink out.new)
        (devices_of rows index) (devices_of result.1 result.2) }

    // When a stream's fault is told, and that without any all is done, but for want of memory.
    ensures faults { CountsFaults result.0
        (outside I.Source O.Sink input.old out.old rows index)
        (outside I.Source O.Sink input.new out.new result.1 result.2) }
    ensures complete { CanFinish (disks_of D.Disk E.Disk) (map string_bytes words.now)
        (outside I.Source O.Sink input.old out.old rows index)
        ⊎ CanServe (disks_of D.Disk E.Disk) (map string_bytes words.now)
        (outside I.Source O.Sink input.old out.old rows index)
        → NoneRose (disks_of D.Disk E.Disk) (outside I.Source O.Sink input.old out.old rows index)
        (outside I.Source O.Sink input.new out.new result.1 result.2)
        → Finishes result.0 }
{
    match asks_to_serve(alloc, words) {
        Ok(true) => {
            let limits = Limits::standard();
            let (end, rows, index) = serve_script(
                alloc, threads, input, out, rows, index, limits, gate,
            );
            match end {
                Ok(end) => (Status::from(end), rows, index),
                Err(error) => (Status::from(error), rows, index),
            }
        }
        Ok(false) => fts_once(alloc, words, input, out, rows, index, gate),
        Err(AllocError) => (Status::NoMemory, rows, index),
    }
}

// Whether the words ask to serve.
fn asks_to_serve(alloc: Global, words: &[String]) -> Result<bool, AllocError>
    ensures yes { result ≡ Ok true → Asks (map string_bytes words.now) Command.Serve }
    ensures no { result ≡ Ok false → Asks (map string_bytes words.now) Command.Serve → ⊥ }
{
    match command_of(alloc, words) {
        Ok(Some(Command::Serve)) => Ok(true),
        Ok(Some(_)) => Ok(false),
        Ok(None) => Ok(false),
        Err(AllocError) => Err(AllocError),
    }
}
