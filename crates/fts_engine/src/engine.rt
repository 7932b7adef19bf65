ghost use Rattle.std.specs.Prelude.{◌≡◌, ◌≤◌, ℕ, false, length, IsTrue, IsErr, OnOk, IfOk, IfErr};
ghost use Rattle.std.specs.Prelude.{◌<◌, ◌^◌, Err, None};
ghost use Rattle.fts_engine.specs.Refusing.{refusal_answer};
ghost use Rattle.fts_log.specs.Frame.{payload_of};
ghost use Rattle.fts_log.specs.Framing.{inner};
ghost use Rattle.fts_log.specs.Log.{count_of, framed_size};
ghost use Rattle.fts_commits.specs.Commit.{replay};
ghost use Rattle.fts_commits.specs.Fits.{CanCommit};
ghost use Rattle.fts_rowcodec.specs.Payload.{IsWritten, commit_payload};
ghost use Rattle.fts_steps.specs.State.{State};
ghost use Rattle.fts_steps.specs.Step.{to_commit, to_sync, to_view, to_list};
ghost use Rattle.fts_steps.specs.Step.{to_measure, measured, writes};
ghost use Rattle.fts_ixcodec.specs.Payload.{entry_payload, FitsRecord};
ghost use Rattle.fts_engine.specs.Batch.{batch_of, IsFramed};
ghost use Rattle.fts_engine.specs.Unframed.{IsUnframed, IsUnframedEntry};
ghost use Rattle.fts_steps.specs.Step.{is_disk_fault, Steps};
ghost use Rattle.fts_steps.specs.Answers.{commit_answer_of, sync_answer_of, view_answer_of};
ghost use Rattle.fts_steps.specs.Answers.{listing_answer_of};

use crate::kept::Kept;
use crate::room::{FrameError, room_for};
use fts_commits::Change;
use fts_disk::Disk;
use fts_index::SyncPlan;
use fts_ixcodec::{encode_sealed_into, sealed_size};
use fts_listing::{ListingKind, NumberedListing};
use fts_log::{AppendError, BEFORE_PAYLOAD, Framed, Log};
use fts_query::{Leaf, View};
use fts_rowcodec::{commit_size, encode_commit_into};
use fts_rows::PlanError;
use fts_steps::{CommitError, IndexError, SyncBatch, ViewError};
use fts_types::{DocId, Settings};
use std::alloc::{AllocError, Global};

/// A database that is open: its rows log and its index log, and its settings, its rows and the
/// index of their words in memory. After a fault of a commit, a batch or a step of OPTIMIZE it
/// makes no more of these, and views and listings go on.
#[derive(Drop)]
pub struct Engine<D: Disk, E: Disk> {
    pub(crate) alloc: Global,
    pub(crate) rows: Log<D>,
    pub(crate) index: Log<E>,
    pub(crate) kept: Kept,
    pub(crate) stopped: Option<u128>,
}

impl<D: Disk, E: Disk> Engine<D, E> {
    ghost use Rattle.fts_disk.specs.Crash.{Only};
    ghost use Rattle.fts_query.specs.Seen.{leaves_seen};
    ghost use Rattle.fts_steps.specs.Running.{Running};
    ghost use Rattle.fts_engine.specs.Stands.{Keeps, Holds, engine_sight, engine_settings};
    ghost use Rattle.fts_engine.specs.Tally.{Counts, tally};
    ghost use Rattle.fts_engine.specs.Stands.{rows_log, index_log, rows_device, index_device};

    /// Makes a commit of these changes, and returns its number, from 1. The changes fit the table:
    /// each INSERT has a text for each column. At `Ok` the commit is durable. All memory is taken
    /// before a device is touched.
    ///
    /// A crash at any moment of the call leaves the database without the commit, or with it.
    ///
    /// # Errors
    ///
    /// After each of them the engine keeps what it kept.
    ///
    /// - `NoMemory` if memory ran out. The logs are untouched.
    /// - `Stopped` exactly where an earlier step answered `DiskFault`, with the sum of the counts
    ///   of faults at that answer. The logs are untouched.
    /// - `Refused` exactly where the rows refuse the commit. The logs are untouched.
    /// - `LogFull` exactly where the rows log would end above its limit. The logs are untouched.
    /// - `DiskFault` if the rows device failed, with the sum of both devices' counts of faults.
    ///   Whether the commit is in the log is known from a new opening alone.
    pub fn commit(&mut self, changes: &[Change]) -> Result<u64, CommitError>
        requires { CanCommit (length (engine_settings self.old).columns) changes.now }
        ensures steps { Steps engine_sight (to_commit changes.now) (commit_answer_of result)
            self.old self.new }
        ensures counts { Counts (to_commit changes.now) (commit_answer_of result)
            self.old self.new }
        ensures durable { OnOk result (IsTrue D.tells
            → Only (D.seen (rows_device self.new)) (D.images (rows_device self.new))) }
        ensures untouched { IsErr result → is_disk_fault (commit_answer_of result) ≡ false
            → rows_log self.new ≡ rows_log self.old }
        ensures index { index_log self.new ≡ index_log self.old }
    {
        match self.stopped {
            None => {}
            Some(faults) => return Err(CommitError::Stopped { faults }),
        }
        let next = match self.kept.plan(changes) {
            Ok(next) => next,
            Err(error) => return Err(refusal_of(error)),
        };
        let framed = match framed_commit(self.alloc, &self.rows, changes) {
            Ok(framed) => framed,
            Err(FrameError::NoMemory) => return Err(CommitError::NoMemory),
            Err(FrameError::TooLong { end }) => return Err(CommitError::LogFull { end }),
        };
        match self.rows.append(&framed) {
            Ok(number) => {
                self.kept.install(next);
                Ok(number)
            }
            Err(AppendError::LogFull { end }) => Err(CommitError::LogFull { end }),
            Err(AppendError::DiskFault) => {
                let faults = self.rows.faults() as u128 + self.index.faults() as u128;
                self.stopped = Some(faults);
                Err(CommitError::DiskFault { faults })
            }
        }
    }

    /// What the rows have for the leaves of a query, at this moment. It goes on after a fault.
    ///
    /// # Errors
    ///
    /// The leaves come back.
    ///
    /// - `NoMemory` if memory ran out.
    /// - `DiskFault` never yet: no device is read.
    pub fn view(&mut self, leaves: Vec<Leaf>) -> Result<View, (ViewError, Vec<Leaf>)>
        ensures steps { Steps engine_sight (to_view (leaves_seen leaves.items))
            (view_answer_of result) self.old self.new }
        ensures same { self.new ≡ self.old }
        ensures back { IfErr result (λ e. e.1 ≡ leaves) }
        ensures calm { is_disk_fault (view_answer_of result) ≡ false }
    {
        match self.kept.view(self.alloc, self.commits(), leaves) {
            Ok(view) => Ok(view),
            Err(leaves) => Err((ViewError::NoMemory, leaves)),
        }
    }

    /// Makes the next batch of the index: the words of the next commits leave the cache for the
    /// tables, of as many as have at most `batch_docs` births together, and of at least one. It
    /// tells through which commit all are flushed then, and how many there are; `Nothing` where all
    /// were flushed. At `Flushed` the batch is durable. All memory is taken before a device is
    /// touched. It costs the words of the rows that it flushes.
    ///
    /// A crash at any moment of the call leaves the index log without the batch, or with it.
    ///
    /// # Errors
    ///
    /// After each of them the engine keeps what it kept.
    ///
    /// - `NoMemory` if memory ran out. The logs are untouched.
    /// - `Stopped` exactly where an earlier step answered `DiskFault`, with the sum of the counts
    ///   of faults at that answer. The logs are untouched.
    /// - `LogFull` exactly where the index log would end above its limit. The logs are untouched.
    /// - `DiskFault` if the index device failed, with the sum of both devices' counts of faults.
    ///   Whether the batch is in the log is known from a new opening alone.
    pub fn sync_batch(&mut self) -> Result<SyncBatch, IndexError>
        ensures steps { Steps engine_sight to_sync (sync_answer_of result) self.old self.new }
        ensures counts { Counts to_sync (sync_answer_of result) self.old self.new }
        ensures durable { IsTrue (writes (sync_answer_of result)) → IsTrue E.tells
            → Only (E.seen (index_device self.new)) (E.images (index_device self.new)) }
        ensures untouched { writes (sync_answer_of result) ≡ false
            → is_disk_fault (sync_answer_of result) ≡ false
            → index_log self.new ≡ index_log self.old }
        ensures rows { rows_log self.new ≡ rows_log self.old }
    {
        match self.stopped {
            None => {}
            Some(faults) => return Err(IndexError::Stopped { faults }),
        }
        let commits = self.commits();
        let plan = match self.kept.plan_sync() {
            Ok(Some(plan)) => plan,
            Ok(None) => return Ok(SyncBatch::Nothing { commits }),
            Err(AllocError) => return Err(IndexError::NoMemory),
        };
        let framed = match framed_batch(self.alloc, &self.index, &plan) {
            Ok(framed) => framed,
            Err(FrameError::NoMemory) => return Err(IndexError::NoMemory),
            Err(FrameError::TooLong { end }) => return Err(IndexError::LogFull { end }),
        };
        match self.index.append(&framed) {
            Ok(_) => {
                let through = plan.through();
                self.kept.install_sync(plan);
                Ok(SyncBatch::Flushed { through, commits })
            }
            Err(AppendError::LogFull { end }) => Err(IndexError::LogFull { end }),
            Err(AppendError::DiskFault) => {
                let faults = self.rows.faults() as u128 + self.index.faults() as u128;
                self.stopped = Some(faults);
                Err(IndexError::DiskFault { faults })
            }
        }
    }

    /// What a view of the index lists, with the number of commits. It goes on after a fault. It
    /// costs what it lists.
    ///
    /// # Errors
    ///
    /// - `NoMemory` if memory ran out.
    /// - `DiskFault` never yet: no device is read.
    pub fn listing(&mut self, kind: ListingKind) -> Result<NumberedListing, ViewError>
        ensures steps { Steps engine_sight (to_list kind) (listing_answer_of result)
            self.old self.new }
        ensures same { self.new ≡ self.old }
        ensures calm { is_disk_fault (listing_answer_of result) ≡ false }
    {
        match self.kept.listing(kind) {
            Ok(listing) => Ok(NumberedListing {
                number: self.commits(),
                listing,
            }),
            Err(AllocError) => Err(ViewError::NoMemory),
        }
    }

    /// The size of the cache in bytes: for each document that is not flushed 16, and for each of
    /// its indexed words the word's length and 8. Constant time.
    pub fn cache_size(&self) -> u64
        ensures { Steps engine_sight to_measure (measured result) self.now self.now }
    {
        self.kept.cache_size()
    }

    /// How many commits there are.
    pub fn commits(&self) -> u64
        ensures { (state : State) → Keeps state self.now → result ≡ length state.commits }
    {
        self.rows.count().saturating_sub(1)
    }

    /// How many rows there are.
    pub fn row_count(&self) -> usize
        ensures { (state : State) → Keeps state self.now
            → result ≡ length (replay state.commits).list }
    {
        self.kept.rows.len()
    }

    /// The largest document id that was used, 0 before the first.
    pub fn largest_id(&self) -> DocId
        ensures { (state : State) → Keeps state self.now
            → result ≡ (replay state.commits).largest }
    {
        self.kept.rows.largest()
    }

    /// How many entries the index log has.
    pub fn entries(&self) -> u64
        ensures counted { result ≡ count_of (index_log self.now) }
        ensures state { (state : State) → Keeps state self.now → result ≡ length state.entries }
    {
        self.index.count()
    }

    /// How many commits and entries of the index log there are, and one more where a fault stopped
    /// the engine.
    pub fn tally(&self) -> u64
        ensures { result ≡ tally self.now }
    {
        let stops = match self.stopped {
            None => 0,
            Some(_) => 1,
        };
        self.rows.count() + self.index.count() + stops
    }

    /// The settings with which the database was created.
    pub fn settings(&self) -> &Settings
        ensures some { 1 ≤ length result.now.columns }
        ensures few { length result.now.columns ≤ 8 }
        ensures settings { result.now ≡ engine_settings self.now }
        ensures stand { (running : Running) → Holds running self.now
            → running.state.settings ≡ result.now }
    {
        self.kept.settings()
    }

    /// The devices of the rows log and of the index log.
    pub fn close(self) -> (D, E)
        ensures rows { result.0 ≡ rows_device self }
        ensures index { result.1 ≡ index_device self }
    {
        let Engine {
            alloc: _,
            rows,
            index,
            kept: _,
            stopped: _,
        } = self;
        (rows.close(), index.close())
    }
}

// Why a commit was refused, as the rows tell it.
fn refusal_of(error: PlanError) -> CommitError
    ensures { commit_answer_of (Err result) ≡ refusal_answer error }
{
    match error {
        PlanError::NoMemory => CommitError::NoMemory,
        PlanError::Refused { refusal } => CommitError::Refused { refusal },
    }
}

// A commit, framed for the log.
fn framed_commit<D: Disk>(
    alloc: Global,
    log: &Log<D>,
    changes: &[Change],
) -> Result<Framed, FrameError>
    requires { (columns : ℕ) × (columns ≤ 8) × IsWritten columns changes.now }
    ensures framed { IfOk result (λ framed. payload_of framed ≡ commit_payload changes.now) }
    ensures unframed { IfErr result (IsUnframed log.now (length (commit_payload changes.now))) }
{
    let mut bytes = match room_for(alloc, log, commit_size(changes) as u64) {
        Ok(bytes) => bytes,
        Err(error) => return Err(error),
    };
    put_commit(&mut bytes, changes);
    Ok(Framed::around(bytes))
}

// A batch, framed for the log.
fn framed_batch<D: Disk>(alloc: Global, log: &Log<D>, plan: &SyncPlan) -> Result<Framed, FrameError>
    ensures framed { IfOk result (λ framed. IsFramed plan.now (payload_of framed)) }
    ensures unframed { IfErr result (IsUnframedEntry log.now (batch_of plan.now)) }
{
    let size = match sealed_size(plan.nodes()) {
        Some(size) => size,
        None => return Err(FrameError::NoMemory),
    };
    let mut bytes = match room_for(alloc, log, size) {
        Ok(bytes) => bytes,
        Err(error) => return Err(error),
    };
    put_batch(&mut bytes, plan);
    Ok(Framed::around(bytes))
}

// Puts the payload of a batch into the bytes of its frame.
fn put_batch(frame: &mut [u8], plan: &SyncPlan)
    requires fits { FitsRecord (batch_of plan.now) }
    requires room { length frame.old ≡ framed_size (entry_payload (batch_of plan.now)) }
    ensures size { length frame.new ≡ length frame.old }
    ensures payload { inner frame.new ≡ entry_payload (batch_of plan.now) }
    ensures numbers { (plan.now.through < 2 ^ 64) × (plan.now.synced < 2 ^ 64) }
{
    let payload = &mut frame[BEFORE_PAYLOAD..];
    encode_sealed_into(plan.through(), plan.synced(), plan.nodes(), payload);
}

// Puts the payload of a commit into the bytes of its frame.
fn put_commit(frame: &mut [u8], changes: &[Change])
    requires written { (columns : ℕ) × (columns ≤ 8) × IsWritten columns changes.now }
    requires room { length frame.old ≡ framed_size (commit_payload changes.now) }
    ensures size { length frame.new ≡ length frame.old }
    ensures payload { inner frame.new ≡ commit_payload changes.now }
{
    encode_commit_into(changes, &mut frame[BEFORE_PAYLOAD..]);
}
