//! A script that is read to its end.
ghost use Rattle.std.specs.Prelude.{◌≡◌, ◌⊎◌, ◌^◌, ◌<◌, ◌≤◌, ◌+◌, ℕ, [], length};
ghost use Rattle.std.specs.Prelude.{IsTrue, IsOk, IfOk, OnOk, Err};
ghost use Rattle.fts_faults.specs.Count.{CountsFault};
ghost use Rattle.fts_io.specs.Text.{lines_of};
ghost use Rattle.fts_io.specs.Reading.{ahead, ended_ahead, given_by, taken_by, work_left};
ghost use Rattle.fts_script.specs.Script.{lines_in};
ghost use Rattle.fts_script.specs.Reading.{IsTooLong, TakesLine, LeavesEnded, IsPast, Tallies};

use crate::error::ScriptError;
use crate::lines::{Script, ScriptLine};
use fts_io::{Lines, Next, Source};
use std::alloc::Global;

/// How many lines a script has at most.
pub const MOST_LINES: usize = 100_000;

/// Why no more lines are taken.
#[derive(Clone, Copy, Debug, PartialEq, Eq)]
enum Stop {
    /// There are no more.
    End,
    /// Memory ran out for the bytes of a line.
    NoMemory,
    /// The source failed.
    ReadFault,
    /// The source has more than 2^40 bytes. `lines` and `bytes` were taken.
    Endless { lines: u64, bytes: u64 },
}

/// Reads all lines of the source, to its end. A line that is too long is one of them.
pub fn read_script<I: Source>(alloc: Global, input: &mut I) -> Result<Script, ScriptError>
    ensures read { IsTrue I.tells → IfOk result (λ script.
        lines_in script ≡ lines_of (I.left input.old)) }
    ensures few { IfOk result (λ script. length (lines_in script) ≤ 100000) }
    ensures short { IsTrue I.tells → OnOk result (length (I.left input.old) ≤ 2 ^ 40) }
    ensures end { IsTrue I.tells → OnOk result (I.left input.new ≡ []) }
    ensures passed { (lines bytes : ℕ) → result ≡ Err (ScriptError.ScriptTooLong lines bytes)
        → (2 ^ 40 < bytes) ⊎ (lines ≡ 100001) }
    ensures too_long { IsTrue I.tells → (lines bytes : ℕ)
        → result ≡ Err (ScriptError.ScriptTooLong lines bytes)
        → IsTooLong lines bytes (I.left input.old) (I.left input.new) }
    ensures faults { CountsFault (result ≡ Err ScriptError.ReadFault)
        (I.faults input.old) (I.faults input.new) }
{
    let mut reader = match Lines::new(alloc) {
        Ok(reader) => reader,
        Err(_) => return Err(ScriptError::NoMemory),
    };
    let mut lines = Vec::new(alloc);
    'lines: loop {
        match take_line(&mut reader, input) {
            Ok(line) => {
                if lines.len() >= MOST_LINES {
                    return Err(ScriptError::ScriptTooLong {
                        lines: reader.given(),
                        bytes: reader.taken(),
                    });
                }
                match lines.push(line) {
                    Ok(()) => {}
                    Err(_) => return Err(ScriptError::NoMemory),
                }
            }
            Err(Stop::End) => return Ok(Script::new(lines)),
            Err(Stop::NoMemory) => return Err(ScriptError::NoMemory),
            Err(Stop::ReadFault) => return Err(ScriptError::ReadFault),
            Err(Stop::Endless { lines, bytes }) => {
                return Err(ScriptError::ScriptTooLong { lines, bytes });
            }
        }
    }
}

// The next line, or why there is none.
fn take_line<I: Source>(reader: &mut Lines, input: &mut I) -> Result<ScriptLine, Stop>
    ensures takes { IsTrue I.tells → TakesLine result
        (ahead reader.old (I.left input.old)) (ahead reader.new (I.left input.new)) }
    ensures ended { IsTrue I.tells → LeavesEnded result (ahead reader.new (I.left input.new))
        (ended_ahead reader.old (I.left input.old)) (ended_ahead reader.new (I.left input.new)) }
    ensures end { IsTrue I.tells → result ≡ Err Stop.End → I.left input.new ≡ [] }
    ensures endless { IsTrue I.tells → (lines bytes : ℕ) → result ≡ Err (Stop.Endless lines bytes)
        → IsPast (ahead reader.new (I.left input.new))
        (ended_ahead reader.new (I.left input.new)) (I.left input.new) }
    ensures counts { IsTrue I.tells → taken_by reader.new + length (I.left input.new)
        ≡ taken_by reader.old + length (I.left input.old) }
    ensures accounts { Tallies result (given_by reader.old) (given_by reader.new)
        (taken_by reader.new) }
    ensures progress { IsOk result → work_left reader.new < work_left reader.old }
    ensures faults { CountsFault (result ≡ Err Stop.ReadFault)
        (I.faults input.old) (I.faults input.new) }
{
    match reader.next_line(input) {
        Next::Line(bytes) => Ok(ScriptLine::Whole(bytes)),
        Next::TooLong { line: _ } => Ok(ScriptLine::TooLong),
        Next::End => Err(Stop::End),
        Next::Endless { bytes } => Err(Stop::Endless {
            lines: reader.given(),
            bytes,
        }),
        Next::ReadFault => Err(Stop::ReadFault),
        Next::NoMemory => Err(Stop::NoMemory),
    }
}
