ghost use Rattle.std.specs.Prelude.{◌≡◌, ◌^◌, ◌<◌, ◌≤◌, ◌+◌, ℕ, [], length, IsTrue, IsOk};
ghost use Rattle.std.specs.Prelude.{false, Ok, Err};
ghost use Rattle.std.specs.Vec.{vec_capacity};
ghost use Rattle.fts_faults.specs.Count.{CountsFault};
ghost use Rattle.fts_io.specs.Text.{lines_of};
ghost use Rattle.fts_io.specs.Reading.{ahead, ended_ahead, given_by, taken_by, work_left};
ghost use Rattle.fts_schema.specs.Reply.{is_fixed};
ghost use Rattle.fts_steps.specs.FaultCounts.{NoneFell, CountsFaultOf};
ghost use Rattle.fts_steps.specs.Running.{Running};
ghost use Rattle.fts_top.specs.Health.{IsRead};
ghost use Rattle.fts_top.specs.Kept.{mets, AreKept, AllFit, NextSession};
ghost use Rattle.fts_script.specs.Sessions.{IsCrowded};
ghost use Rattle.fts_top.specs.Run.{Outcome, OneLine, LeavesEnded, PassesLimit, Sends, sides};

use crate::ends::{Halt, RunEnd, Unsent};
use crate::sessions::Sessions;
use fts_io::{Gate, Lines, Next, Sink, Source, write_whole};
use fts_schema::{Reply, fixed_text, put_reply_text};
use fts_sessions::EngineSteps;
use fts_workers::{Health, met_behind};
use std::alloc::Global;

// So many bytes at most are kept for the text of the next reply.
const KEPT_TEXT: usize = 4 << 20;

/// Executes the lines of the source in order, each in its own session. Each reply is written before
/// the next line is executed. A refused line ends nothing, also where it is refused for want of
/// memory or by a fault of a device. Behind the last line what is open in the sessions is given up.
pub fn run<I: Source, O: Sink, S: EngineSteps, G: Gate>(
    alloc: Global,
    input: &mut I,
    out: &mut O,
    steps: &mut S,
    gate: &G,
) -> RunEnd
    ensures runs { IsTrue I.tells → IsTrue O.tells → (start : Running)
        → S.sight.stands start steps.old
        → Outcome S.sight result start (lines_of (I.left input.old))
        (sides (I.left input.old) (O.holds out.old) steps.old)
        (sides (I.left input.new) (O.holds out.new) steps.new) }
    ensures read { CountsFault (result ≡ RunEnd.ReadFault) (I.faults input.old)
        (I.faults input.new) }
    ensures write { CountsFault (result ≡ RunEnd.WriteFault) (O.faults out.old) (O.faults out.new) }
    ensures disk { IsRead result → CountsFaultOf (result ≡ RunEnd.DiskFault)
        (S.sight.faults steps.old) (S.sight.faults steps.new) }
    ensures never_fall { NoneFell (S.sight.faults steps.old) (S.sight.faults steps.new) }
    ensures too_long { (lines bytes : ℕ) → result ≡ RunEnd.ScriptTooLong lines bytes
        → IsTrue I.tells
        → PassesLimit bytes (I.left input.old) (I.left input.new) }
    ensures whole { IsTrue I.tells → IsRead result → length (I.left input.old) ≤ 2 ^ 40 }
    ensures crowded { (number : ℕ) → result ≡ RunEnd.TooManySessions number → IsTrue I.tells
        → IsCrowded (lines_of (I.left input.old)) number }
{
    let mut lines = match Lines::new(alloc) {
        Ok(lines) => lines,
        Err(_) => return RunEnd::NoMemory,
    };
    let mut sessions = match Sessions::new(alloc) {
        Ok(sessions) => sessions,
        Err(_) => return RunEnd::NoMemory,
    };
    let mut text = Vec::new(alloc);
    let mut met = Health::Sound;
    'lines: loop {
        match one_line(
            &mut text,
            &mut lines,
            input,
            out,
            &mut sessions,
            steps,
            gate,
        ) {
            Ok(now) => met = met.worse(now),
            Err(halt) => return halt.end_of(met),
        }
    }
}

// Reads a line, executes it and writes its reply, whose text takes the place of the last one: what
// it met, or why no more lines are executed.
fn one_line<I: Source, O: Sink, S: EngineSteps, G: Gate>(
    text: &mut Vec<u8>,
    lines: &mut Lines,
    input: &mut I,
    out: &mut O,
    sessions: &mut Sessions,
    steps: &mut S,
    gate: &G,
) -> Result<Health, Halt>
    requires kept { AreKept sessions.old }
    requires fit { AllFit (length (S.sight.settings steps.old).columns) sessions.old }
    ensures line { IsTrue I.tells → IsTrue O.tells → OneLine S.sight result
        (ahead lines.old (I.left input.old)) (ahead lines.new (I.left input.new))
        (ended_ahead lines.new (I.left input.new)) (mets sessions.old) (mets sessions.new)
        (sides (I.left input.old) (O.holds out.old) steps.old)
        (sides (I.left input.new) (O.holds out.new) steps.new) }
    ensures session { IsTrue I.tells → NextSession result
        (ahead lines.old (I.left input.old)) (ahead lines.new (I.left input.new))
        (mets sessions.old) (mets sessions.new) }
    ensures ended { IsTrue I.tells → LeavesEnded result (ahead lines.new (I.left input.new))
        (ended_ahead lines.old (I.left input.old)) (ended_ahead lines.new (I.left input.new)) }
    ensures kept { AreKept sessions.new }
    ensures fit { AllFit (length (S.sight.settings steps.new).columns) sessions.new }
    ensures progress { IsOk result → work_left lines.new < work_left lines.old }
    ensures counts { IsTrue I.tells
        → taken_by lines.new + length (I.left input.new)
        ≡ taken_by lines.old + length (I.left input.old) }
    ensures read { CountsFault (result ≡ Err Halt.ReadFault)
        (I.faults input.old) (I.faults input.new) }
    ensures write { CountsFault (result ≡ Err Halt.WriteFault)
        (O.faults out.old) (O.faults out.new) }
    ensures disk { (result ≡ Err Halt.WriteFault → ⊥)
        → CountsFaultOf (result ≡ Ok Health.Failed)
        (S.sight.faults steps.old) (S.sight.faults steps.new) }
    ensures never_fall { NoneFell (S.sight.faults steps.old) (S.sight.faults steps.new) }
    ensures given { IsOk result → given_by lines.new ≡ given_by lines.old + 1 }
    ensures too_long { (number bytes : ℕ) → result ≡ Err (Halt.TooLong number bytes)
        → (number ≡ given_by lines.old) × (bytes ≡ taken_by lines.new) × (2 ^ 40 < bytes) }
    ensures whole { IsTrue I.tells → result ≡ Err Halt.End
        → (I.left input.new ≡ []) × (taken_by lines.new ≤ 2 ^ 40) }
{
    match lines.next_line(input) {
        Next::Line(line) => match sessions.execute(steps, gate, &line) {
            Ok(reply) => match send(text, out, &reply) {
                Ok(()) => Ok(met_behind(steps, &reply)),
                Err(unsent) => Err(Halt::from(unsent)),
            },
            Err(session) => Err(Halt::TooManySessions { session }),
        },
        Next::TooLong { line: _ } => match sessions.skip() {
            Ok(()) => match send(text, out, &Reply::LineTooLong) {
                Ok(()) => Ok(Health::Sound),
                Err(unsent) => Err(Halt::from(unsent)),
            },
            Err(session) => Err(Halt::TooManySessions { session }),
        },
        Next::End => Err(Halt::End),
        Next::Endless { bytes } => Err(Halt::TooLong {
            lines: lines.given(),
            bytes,
        }),
        Next::ReadFault => Err(Halt::ReadFault),
        Next::NoMemory => Err(Halt::NoMemory),
    }
}

/// Writes a reply. A text that is fixed, as that of a fault, takes no memory; any other takes the
/// place of the last one.
pub(crate) fn send<O: Sink>(text: &mut Vec<u8>, out: &mut O, reply: &Reply) -> Result<(), Unsent>
    ensures sends { IsTrue O.tells → Sends result reply.now (O.holds out.old) (O.holds out.new) }
    ensures fixed { result ≡ Err Unsent.NoMemory → is_fixed reply.now ≡ false }
    ensures write { CountsFault (result ≡ Err Unsent.WriteFault)
        (O.faults out.old) (O.faults out.new) }
{
    match fixed_text(reply) {
        Some(fixed) => match write_whole(out, fixed.as_bytes()) {
            Ok(()) => Ok(()),
            Err(_) => Err(Unsent::WriteFault),
        },
        None => send_written(text, out, reply),
    }
}

// Writes a reply with a number or a name.
fn send_written<O: Sink>(text: &mut Vec<u8>, out: &mut O, reply: &Reply) -> Result<(), Unsent>
    ensures sends { IsTrue O.tells → Sends result reply.now (O.holds out.old) (O.holds out.new) }
    ensures write { CountsFault (result ≡ Err Unsent.WriteFault)
        (O.faults out.old) (O.faults out.new) }
{
    text.clear();
    match put_reply_text(text, reply) {
        Ok(()) => {}
        Err(_) => return Err(Unsent::NoMemory),
    }
    let written = write_whole(out, text);
    give_up_large(text);
    match written {
        Ok(()) => Ok(()),
        Err(_) => Err(Unsent::WriteFault),
    }
}

// Gives up the memory of a text where that is much.
fn give_up_large(text: &mut Vec<u8>)
    ensures { vec_capacity text.new ≤ 4194304 }
{
    if text.capacity() > KEPT_TEXT {
        *text = Vec::new(*text.allocator());
    }
}
