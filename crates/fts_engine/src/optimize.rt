//! The steps of OPTIMIZE.
ghost use Rattle.std.specs.Prelude.{◌≡◌, ◌≤◌, false, length, Ok, IsTrue};
ghost use Rattle.std.specs.Prelude.{IfOk, IfErr, IfSome, IfNone};
ghost use Rattle.fts_codec.specs.Writing.{Puts};
ghost use Rattle.fts_log.specs.Frame.{payload_of};
ghost use Rattle.fts_log.specs.Framing.{inner};
ghost use Rattle.fts_log.specs.Log.{framed_size};
ghost use Rattle.fts_ixcodec.specs.Payload.{entry_payload, FitsRecord, HasSize, HasNoSize};
ghost use Rattle.fts_index.specs.Passing.{step_entry};
ghost use Rattle.fts_steps.specs.Step.{step_of, to_optimize, is_disk_fault, writes, Steps};
ghost use Rattle.fts_steps.specs.Answers.{optimize_answer_of};
ghost use Rattle.fts_engine.specs.Batch.{IsFramedStep};
ghost use Rattle.fts_engine.specs.Unframed.{IsUnframedEntry};

use crate::Engine;
use crate::room::{FrameError, room_for};
use fts_disk::Disk;
use fts_index::PassPlan;
use fts_ixcodec::{encode_begun_into, encode_finished_into, encode_worked_into, worked_size};
use fts_log::{AppendError, BEFORE_PAYLOAD, Framed, Log};
use fts_steps::{IndexError, OptimizeStep};
use std::alloc::{AllocError, Global};

// What a step of OPTIMIZE does.
fn step_of(plan: &PassPlan) -> OptimizeStep
    ensures { result ≡ step_of (step_entry plan.now) }
{
    match plan {
        PassPlan::Begin => OptimizeStep::Began,
        PassPlan::Word { word: _, nodes: _ } => OptimizeStep::Word,
        PassPlan::Finish => OptimizeStep::Finished,
    }
}

// How many bytes the payload of a step has. `None` exactly where its word has more than 255 bytes,
// or where a `u64` can't hold the count.
fn step_size(plan: &PassPlan) -> Option<u64>
    ensures some { IfSome result (HasSize (step_entry plan.now)) }
    ensures none { IfNone result (HasNoSize (step_entry plan.now)) }
{
    match plan {
        PassPlan::Begin => Some(1),
        PassPlan::Word { word, nodes } => worked_size(word.as_bytes(), nodes.as_slice()),
        PassPlan::Finish => Some(1),
    }
}

// Writes the payload of a step at the head of a buffer, and tells how many bytes that are.
fn encode_step_into(plan: &PassPlan, buf: &mut [u8]) -> usize
    requires fits { FitsRecord (step_entry plan.now) }
    requires room { length (entry_payload (step_entry plan.now)) ≤ length buf.old }
    ensures { Puts (entry_payload (step_entry plan.now)) buf.old buf.new result }
{
    match plan {
        PassPlan::Begin => encode_begun_into(buf),
        PassPlan::Word { word, nodes } => {
            encode_worked_into(word.as_bytes(), nodes.as_slice(), buf)
        }
        PassPlan::Finish => encode_finished_into(buf),
    }
}

// Puts the payload of a step into the bytes of its frame.
fn put_step(frame: &mut [u8], plan: &PassPlan)
    requires fits { FitsRecord (step_entry plan.now) }
    requires room { length frame.old ≡ framed_size (entry_payload (step_entry plan.now)) }
    ensures size { length frame.new ≡ length frame.old }
    ensures payload { inner frame.new ≡ entry_payload (step_entry plan.now) }
{
    encode_step_into(plan, &mut frame[BEFORE_PAYLOAD..]);
}

// A step of OPTIMIZE, framed for the log.
fn framed_step<D: Disk>(alloc: Global, log: &Log<D>, plan: &PassPlan) -> Result<Framed, FrameError>
    ensures framed { IfOk result (λ framed. IsFramedStep plan.now (payload_of framed)) }
    ensures unframed { IfErr result (IsUnframedEntry log.now (step_entry plan.now)) }
{
    let size = match step_size(plan) {
        Some(size) => size,
        None => return Err(FrameError::NoMemory),
    };
    let mut bytes = match room_for(alloc, log, size) {
        Ok(bytes) => bytes,
        Err(error) => return Err(error),
    };
    put_step(&mut bytes, plan);
    Ok(Framed::around(bytes))
}

impl<D: Disk, E: Disk> Engine<D, E> {
    ghost use Rattle.fts_disk.specs.Crash.{Only};
    ghost use Rattle.fts_engine.specs.Stands.{engine_sight, rows_log, index_log, index_device};
    ghost use Rattle.fts_engine.specs.Tally.{Counts};

    /// Makes the next step of OPTIMIZE. Where no pass is open, one begins, over the ids of DELETED;
    /// else the next word of the tables, in byte order, gets its nodes anew: its documents without
    /// the ids of the pass, packed. Where no word is left, these ids leave DELETED, and the pass is
    /// closed. It tells which it did; `Nothing` where no pass is open, DELETED is empty and packing
    /// would change no word's nodes, which takes constant time. What it did is durable. All memory
    /// is taken before a device is touched. A word costs its own nodes.
    ///
    /// A crash at any moment of the call leaves the index log without the step, or with it.
    ///
    /// # Errors
    ///
    /// As of `sync_batch`, of the step in place of the batch.
    pub fn optimize_step(&mut self) -> Result<OptimizeStep, IndexError>
        ensures steps { Steps engine_sight to_optimize (optimize_answer_of result)
            self.old self.new }
        ensures counts { Counts to_optimize (optimize_answer_of result) self.old self.new }
        ensures durable { IsTrue (writes (optimize_answer_of result)) → IsTrue E.tells
            → Only (E.seen (index_device self.new)) (E.images (index_device self.new)) }
        ensures untouched { writes (optimize_answer_of result) ≡ false
            → is_disk_fault (optimize_answer_of result) ≡ false
            → index_log self.new ≡ index_log self.old }
        ensures rows { rows_log self.new ≡ rows_log self.old }
    {
        match self.stopped {
            None => {}
            Some(faults) => return Err(IndexError::Stopped { faults }),
        }
        let plan = match self.kept.plan_optimize() {
            Ok(Some(plan)) => plan,
            Ok(None) => return Ok(OptimizeStep::Nothing),
            Err(AllocError) => return Err(IndexError::NoMemory),
        };
        let framed = match framed_step(self.alloc, &self.index, &plan) {
            Ok(framed) => framed,
            Err(FrameError::NoMemory) => return Err(IndexError::NoMemory),
            Err(FrameError::TooLong { end }) => return Err(IndexError::LogFull { end }),
        };
        match self.index.append(&framed) {
            Ok(_) => {
                let step = step_of(&plan);
                self.kept.install_optimize(plan);
                Ok(step)
            }
            Err(AppendError::LogFull { end }) => Err(IndexError::LogFull { end }),
            Err(AppendError::DiskFault) => {
                let faults = self.rows.faults() as u128 + self.index.faults() as u128;
                self.stopped = Some(faults);
                Err(IndexError::DiskFault { faults })
            }
        }
    }
}
