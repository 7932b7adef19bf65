ghost use Rattle.std.specs.Prelude.{◌≡◌, ◌+◌, ◌<◌, ◌≤◌, ◌++◌, ℕ, List, [], ◌∷◌, length, take};
ghost use Rattle.std.specs.Prelude.{IsTrue, IsErrOf, IfOk, OnOk, Ok, None, Some, true, false};
ghost use Rattle.std.specs.Prelude.{slice_index_or};
ghost use Rattle.fts_log.specs.Records.{Hold, records_magic};
ghost use Rattle.fts_log.specs.Records.{record_count};
ghost use Rattle.fts_log.specs.Record.{gate_at};
ghost use Rattle.fts_rowcodec.specs.Payload.{IsWritten, commit_payload};
ghost use Rattle.fts_types.specs.Settings.{AreSettings};
ghost use Rattle.fts_types.specs.Rules.{rules_of};
ghost use Rattle.fts_ixcodec.specs.Payload.{IsEntry, entry_payload};
ghost use Rattle.fts_commits.specs.Turn.{Turn};
ghost use Rattle.fts_entries.specs.Entry.{IndexEntry, IndexState};
ghost use Rattle.fts_entries.specs.Coming.{CanCome};
ghost use Rattle.fts_steps.specs.State.{index_state};
ghost use Rattle.fts_engine.specs.Loading.{BeginsWith, IsRestored, CoversMore, IsLoaded};
ghost use Rattle.fts_engine.specs.Loading.{IsWrongEntry, IsWrongOver, AreSound, IsNoCommit};
ghost use Rattle.fts_engine.specs.Loading.{NoneCanCome, IsWrongAmong, InstallsEntry, RefusesEntry};
ghost use Rattle.fts_engine.specs.Loading.{IsRestoredOver, StaysRestored};
ghost use Rattle.fts_engine.specs.declared.error.ReadError.{ReadError};
ghost use Rattle.fts_ixcodec.specs.Seen.{seen};
ghost use Rattle.fts_index.specs.Passing.{step_entry};
ghost use Rattle.fts_engine.specs.ReadEntry.{batch_read, entry_read};
ghost use Rattle.fts_engine.specs.declared.load.ReadEntry.{ReadEntry};
ghost use Rattle.fts_engine.specs.Reading.{ReadsOne, ReadsBoth, IsWrongPayload};
ghost use Rattle.fts_engine.specs.Restoring.{restoring_settings, restoring_commits, IsFlushed};

use crate::Device;
use crate::error::{LoadError, ReadError};
use crate::kept::Kept;
use crate::restoring::Restoring;
use fts_commits::Changes;
use fts_disk::Disk;
use fts_ilist::Nodes;
use fts_index::{PassPlan, RestoreError};
use fts_ixcodec::{Entry, decode};
use fts_log::Records;
use fts_rowcodec::{DecodeError, decode_commit, decode_settings};
use fts_rows::PlanError;
use fts_types::{DocId, Settings};
use std::alloc::{AllocError, Global};

// A payload that is longer is no settings.
const MOST_OF_SETTINGS: u64 = 300;

// A payload that is longer is no commit.
const MOST_OF_A_COMMIT: u64 = 70_000_000;

/// Reads the records of both logs, of which the rows log has some: the settings, the commits, and
/// the entries of the index, each when the commits that it covers were read. So words are made of
/// the commits behind the last entry alone. A fault of the index log is told where the rows log has
/// none.
pub fn load<D: Disk, E: Disk>(
    alloc: Global,
    rows: &mut Records<D>,
    entries: &mut Records<E>,
) -> Result<Kept, LoadError>
    requires { 0 < record_count rows.old }
    ensures loaded { IfOk result (λ kept. IsTrue D.tells → (all : List (List ℕ))
        → Hold all rows.old → AreSound all × (IsTrue E.tells → (read : List (List ℕ))
        → Hold read entries.old → IsLoaded all (length all) read kept)) }
    ensures damaged_rows { (at : ℕ) → IsErrOf result (LoadError.Damaged Device.Rows at)
        → IsTrue D.tells → (all : List (List ℕ)) → Hold all rows.old
        → IsWrongEntry (records_magic rows.old) all at }
    ensures damaged_index { (at : ℕ) → IsErrOf result (LoadError.Damaged Device.Index at)
        → IsTrue D.tells → (all : List (List ℕ)) → Hold all rows.old
        → AreSound all × (IsTrue E.tells → (read : List (List ℕ)) → Hold read entries.old
        → IsWrongAmong (records_magic entries.old) all read at) }
    ensures reads { ReadsBoth (IsErrOf result LoadError.DiskFault)
        rows.old entries.old rows.new entries.new }
{
    let settings = match load_settings(alloc, rows) {
        Ok(settings) => settings,
        Err(error) => return Err(error.on(Device::Rows)),
    };
    let mut restoring = Restoring::new(alloc, settings);
    match restore_entries(alloc, rows, entries, &mut restoring) {
        Ok(None) => match load_rest(alloc, rows, restoring) {
            Ok(kept) => Ok(kept),
            Err(error) => Err(error.on(Device::Rows)),
        },
        Ok(Some(at)) => Err(held_back(alloc, rows, &mut restoring, at)),
        Err(error) => Err(error.on(Device::Rows)),
    }
}

// Reads the commits behind the last entry, and keeps their words too.
fn load_rest<D: Disk>(
    alloc: Global,
    rows: &mut Records<D>,
    restoring: Restoring,
) -> Result<Kept, ReadError>
    requires { IsFlushed restoring }
    ensures loaded { IfOk result (λ kept. IsTrue D.tells → (all read : List (List ℕ))
        → Hold all rows.old → IsRestored all read (length read) restoring
        → IsLoaded all (length all) read kept) }
    ensures damaged { (at : ℕ) → IsErrOf result (ReadError.Damaged at) → IsTrue D.tells
        → (all read : List (List ℕ)) → Hold all rows.old
        → IsRestored all read (length read) restoring
        → IsWrongEntry (records_magic rows.old) all at }
    ensures reads { ReadsOne (IsErrOf result ReadError.DiskFault) rows.old rows.new }
{
    let next = match restoring.commits().checked_add(1) {
        Some(next) => next,
        None => return Err(ReadError::NoMemory),
    };
    let mut kept = restoring.keep();
    match load_commits(alloc, rows, next, &mut kept) {
        Ok(()) => Ok(kept),
        Err(error) => Err(error),
    }
}

// The index log is at fault at this place: so it is told, unless the rows log is at fault behind
// the commits that were read.
pub fn held_back<D: Disk>(
    alloc: Global,
    rows: &mut Records<D>,
    restoring: &mut Restoring,
    at: u64,
) -> LoadError
    requires { 0 < record_count rows.old }
    ensures rows { (place : ℕ) → result ≡ LoadError.Damaged Device.Rows place
        → IsWrongOver rows.old restoring.old place }
    ensures index { (place : ℕ) → result ≡ LoadError.Damaged Device.Index place
        → (place ≡ at) × (IsTrue D.tells → (all read : List (List ℕ)) (j : ℕ)
        → Hold all rows.old → IsRestored all read j restoring.old → AreSound all) }
    ensures reads { ReadsOne (result ≡ LoadError.DiskFault) rows.old rows.new }
{
    let last = rows.count() - 1;
    match cover_commits(alloc, rows, last, restoring) {
        Ok(()) => LoadError::Damaged {
            device: Device::Index,
            at,
        },
        Err(error) => error.on(Device::Rows),
    }
}

// Reads the entries in their order, each when the commits that it covers were read. It tells the
// place of the first that is at fault, if one is.
fn restore_entries<D: Disk, E: Disk>(
    alloc: Global,
    rows: &mut Records<D>,
    entries: &mut Records<E>,
    restoring: &mut Restoring,
) -> Result<Option<u64>, ReadError>
    requires { IsFlushed restoring.old }
    ensures restored { result ≡ Ok None → IsTrue D.tells → IsTrue E.tells
        → (all read : List (List ℕ)) → Hold all rows.old → Hold read entries.old
        → IsRestored all read 0 restoring.old → IsRestored all read (length read) restoring.new }
    ensures flushed { result ≡ Ok None → IsFlushed restoring.new }
    ensures refused { (at : ℕ) → result ≡ Ok (Some at) → IsTrue D.tells → IsTrue E.tells
        → (all read : List (List ℕ)) → Hold all rows.old → Hold read entries.old
        → IsRestored all read 0 restoring.old
        → IsWrongAmong (records_magic entries.old) all read at }
    ensures stays { OnOk result (StaysRestored rows.old restoring.old restoring.new) }
    ensures damaged { (at : ℕ) → IsErrOf result (ReadError.Damaged at) → IsTrue D.tells
        → (all : List (List ℕ)) → Hold all rows.old → IsRestoredOver all restoring.old
        → IsWrongEntry (records_magic rows.old) all at }
    ensures reads { ReadsBoth (IsErrOf result ReadError.DiskFault)
        rows.old entries.old rows.new entries.new }
{
    let count = entries.count();
    for j in 0..count {
        match restore_entry(alloc, rows, entries, j, restoring) {
            Ok(true) => {}
            Ok(false) => return Ok(Some(entries.place_of(j))),
            Err(error) => return Err(error),
        }
    }
    Ok(None)
}

// Reads entry `j`, the commits that it covers, and installs it; or tells that it is no entry that
// can stand there.
fn restore_entry<D: Disk, E: Disk>(
    alloc: Global,
    rows: &mut Records<D>,
    entries: &mut Records<E>,
    j: u64,
    restoring: &mut Restoring,
) -> Result<bool, ReadError>
    requires within { j < record_count entries.old }
    requires flushed { IsFlushed restoring.old }
    ensures restored { result ≡ Ok true → IsTrue D.tells → IsTrue E.tells
        → (all read : List (List ℕ)) → Hold all rows.old → Hold read entries.old
        → IsRestored all read j restoring.old → IsRestored all read (j + 1) restoring.new }
    ensures flushed { result ≡ Ok true → IsFlushed restoring.new }
    ensures refused { result ≡ Ok false → IsTrue D.tells → IsTrue E.tells
        → (all read : List (List ℕ)) → Hold all rows.old → Hold read entries.old
        → IsRestored all read j restoring.old
        → IsRestored all read j restoring.new × IsWrongPayload all read j }
    ensures stays { OnOk result (StaysRestored rows.old restoring.old restoring.new) }
    ensures damaged { (at : ℕ) → IsErrOf result (ReadError.Damaged at) → IsTrue D.tells
        → (all : List (List ℕ)) → Hold all rows.old → IsRestoredOver all restoring.old
        → IsWrongEntry (records_magic rows.old) all at }
    ensures reads { ReadsBoth (IsErrOf result ReadError.DiskFault)
        rows.old entries.old rows.new entries.new }
{
    let payload = match entries.entry_at(j) {
        Ok(payload) => payload,
        Err(error) => return Err(ReadError::from(error)),
    };
    match entry_in(alloc, restoring.settings(), &payload) {
        Ok(Some(entry)) => restore_read(alloc, rows, restoring, entry),
        Ok(None) => Ok(false),
        Err(AllocError) => Err(ReadError::NoMemory),
    }
}

/// A batch that was read: through which commit and up to which id it flushes, and its nodes, which
/// borrow the payload.
#[derive(Drop)]
struct ReadBatch<'a> {
    through: u64,
    synced: DocId,
    nodes: Nodes<'a>,
}

/// An entry that was read.
#[derive(Drop)]
enum ReadEntry<'a> {
    Batch { batch: ReadBatch<'a> },
    Step { step: PassPlan },
}

// The entry that a payload is. Where it is none, no entry of a database with these settings has it.
fn entry_in<'a>(
    alloc: Global,
    settings: &Settings,
    payload: &'a [u8],
) -> Result<Option<ReadEntry<'a>>, AllocError>
    ensures entry { (entry : ReadEntry) → result ≡ Ok (Some entry)
        → IsEntry (rules_of settings.now) (entry_read entry)
        × (payload.now ≡ entry_payload (entry_read entry)) }
    ensures none { result ≡ Ok None → (entry : IndexEntry)
        → IsEntry (rules_of settings.now) entry → payload.now ≡ entry_payload entry
        → (turns : List Turn) (s : IndexState) → CanCome turns s entry → ⊥ }
{
    match decode(alloc, settings, payload) {
        Ok(entry) => Ok(Some(entry_of(entry))),
        Err(fts_ixcodec::DecodeError::NoMemory) => Err(AllocError),
        Err(fts_ixcodec::DecodeError::Bad { at: _ }) => Ok(None),
    }
}

// What an entry of the log asks for.
fn entry_of(entry: Entry<'_>) -> ReadEntry<'_>
    ensures { entry_read result ≡ seen entry.entry }
{
    match entry {
        Entry::Sealed {
            through,
            synced,
            nodes,
        } => ReadEntry::Batch {
            batch: ReadBatch {
                through,
                synced,
                nodes,
            },
        },
        Entry::Begun => ReadEntry::Step {
            step: PassPlan::Begin,
        },
        Entry::Worked { word, nodes } => ReadEntry::Step {
            step: PassPlan::Word { word, nodes },
        },
        Entry::Finished => ReadEntry::Step {
            step: PassPlan::Finish,
        },
    }
}

// Installs an entry, a batch when the commits that it covers were read; or tells that it can't come
// behind those before it.
fn restore_read<D: Disk>(
    alloc: Global,
    rows: &mut Records<D>,
    restoring: &mut Restoring,
    found: ReadEntry<'_>,
) -> Result<bool, ReadError>
    requires written { IsEntry (rules_of (restoring_settings restoring.old)) (entry_read found) }
    requires flushed { IsFlushed restoring.old }
    ensures restored { result ≡ Ok true
        → InstallsEntry rows.old (entry_read found.entry) restoring.old restoring.new }
    ensures flushed { result ≡ Ok true → IsFlushed restoring.new }
    ensures refused { result ≡ Ok false
        → RefusesEntry rows.old (entry_read found.entry) restoring.old restoring.new }
    ensures damaged { (at : ℕ) → IsErrOf result (ReadError.Damaged at)
        → IsWrongOver rows.old restoring.old at }
    ensures reads { ReadsOne (IsErrOf result ReadError.DiskFault) rows.old rows.new }
{
    match found {
        ReadEntry::Batch { batch } => restore_batch(alloc, rows, restoring, &batch),
        ReadEntry::Step { step } => restore_step(restoring, &step),
    }
}

// Makes a step of OPTIMIZE; or tells that it is not the next one.
fn restore_step(restoring: &mut Restoring, step: &PassPlan) -> Result<bool, ReadError>
    requires written { IsEntry (rules_of (restoring_settings restoring.old)) (step_entry step.now) }
    requires flushed { IsFlushed restoring.old }
    ensures restored { result ≡ Ok true → (all read : List (List ℕ)) (j : ℕ)
        → IsRestored all read j restoring.old
        → take (j + 1) read ≡ take j read ++ entry_payload (step_entry step.now) ∷ []
        → IsRestored all read (j + 1) restoring.new }
    ensures flushed { result ≡ Ok true → IsFlushed restoring.new }
    ensures refused { result ≡ Ok false → (all read : List (List ℕ)) (j : ℕ)
        → (old : IsRestored all read j restoring.old) → IsRestored all read j restoring.new
        × NoneCanCome all (index_state old.of_rows.state) (step_entry step.now) }
    ensures memory { (error : ReadError) → IsErrOf result error → error ≡ ReadError.NoMemory }
{
    match restoring.restore_step(step) {
        Ok(()) => Ok(true),
        Err(RestoreError::NoMemory) => Err(ReadError::NoMemory),
        Err(RestoreError::Bad) => Ok(false),
    }
}

// Reads the commits that a batch covers, and installs it; or tells that it can't come behind those
// before it.
fn restore_batch<D: Disk>(
    alloc: Global,
    rows: &mut Records<D>,
    restoring: &mut Restoring,
    batch: &ReadBatch<'_>,
) -> Result<bool, ReadError>
    requires written { IsEntry (rules_of (restoring_settings restoring.old))
        (batch_read batch.now) }
    requires flushed { IsFlushed restoring.old }
    ensures restored { result ≡ Ok true
        → InstallsEntry rows.old (batch_read batch.now) restoring.old restoring.new }
    ensures flushed { result ≡ Ok true → IsFlushed restoring.new }
    ensures refused { result ≡ Ok false
        → RefusesEntry rows.old (batch_read batch.now) restoring.old restoring.new }
    ensures damaged { (at : ℕ) → IsErrOf result (ReadError.Damaged at)
        → IsWrongOver rows.old restoring.old at }
    ensures reads { ReadsOne (IsErrOf result ReadError.DiskFault) rows.old rows.new }
{
    if batch.through <= restoring.flushed() {
        return Ok(false);
    }
    if batch.through >= rows.count() {
        return Ok(false);
    }
    match cover_commits(alloc, rows, batch.through, restoring) {
        Ok(()) => {}
        Err(error) => return Err(error),
    }
    match restoring.restore(batch.through, batch.synced, &batch.nodes) {
        Ok(()) => Ok(true),
        Err(RestoreError::NoMemory) => Err(ReadError::NoMemory),
        Err(RestoreError::Bad) => Ok(false),
    }
}

// Reads the commits up to one, of whose words none are made.
fn cover_commits<D: Disk>(
    alloc: Global,
    rows: &mut Records<D>,
    through: u64,
    restoring: &mut Restoring,
) -> Result<(), ReadError>
    requires { through < record_count rows.old }
    ensures settings { restoring_settings restoring.new ≡ restoring_settings restoring.old }
    ensures covered { OnOk result (CoversMore rows.old restoring.old restoring.new) }
    ensures commits { OnOk result (restoring_commits restoring.old ≤ through
        → restoring_commits restoring.new ≡ through) }
    ensures damaged { (at : ℕ) → IsErrOf result (ReadError.Damaged at)
        → IsWrongOver rows.old restoring.old at }
    ensures reads { ReadsOne (IsErrOf result ReadError.DiskFault) rows.old rows.new }
{
    for k in restoring.commits()..through {
        match cover_commit(alloc, rows, k + 1, restoring) {
            Ok(()) => {}
            Err(error) => return Err(error),
        }
    }
    Ok(())
}

// Reads record `k`, the next commit, of whose words none are made.
fn cover_commit<D: Disk>(
    alloc: Global,
    rows: &mut Records<D>,
    k: u64,
    restoring: &mut Restoring,
) -> Result<(), ReadError>
    requires within { k < record_count rows.old }
    requires next { k ≡ restoring_commits restoring.old + 1 }
    ensures settings { restoring_settings restoring.new ≡ restoring_settings restoring.old }
    ensures covered { OnOk result (CoversMore rows.old restoring.old restoring.new) }
    ensures commits { OnOk result (restoring_commits restoring.new
        ≡ restoring_commits restoring.old + 1) }
    ensures damaged { (at : ℕ) → IsErrOf result (ReadError.Damaged at)
        → IsWrongOver rows.old restoring.old at }
    ensures reads { ReadsOne (IsErrOf result ReadError.DiskFault) rows.old rows.new }
{
    let columns = restoring.settings().columns.len();
    let changes = match read_commit(alloc, rows, k, columns) {
        Ok(changes) => changes,
        Err(error) => return Err(error),
    };
    match restoring.replay(changes.as_slice()) {
        Ok(()) => Ok(()),
        Err(PlanError::NoMemory) => Err(ReadError::NoMemory),
        Err(PlanError::Refused { .. }) => Err(ReadError::Damaged {
            at: rows.place_of(k),
        }),
    }
}

// Reads the settings, the first record.
pub fn load_settings<D: Disk>(
    alloc: Global,
    records: &mut Records<D>,
) -> Result<Settings, ReadError>
    requires { 0 < record_count records.old }
    ensures right { IfOk result (λ settings. AreSettings settings) }
    ensures loaded { IfOk result (λ settings. IsTrue D.tells → (all : List (List ℕ))
        → Hold all records.old
        → BeginsWith settings all) }
    ensures memory { IsErrOf result ReadError.NoMemory → IsTrue D.tells → (all : List (List ℕ))
        → Hold all records.old → length (slice_index_or all 0 []) ≤ 300 }
    ensures damaged { (at : ℕ) → IsErrOf result (ReadError.Damaged at) → IsTrue D.tells
        → (all : List (List ℕ)) → Hold all records.old
        → IsWrongEntry (records_magic records.old) all at }
    ensures reads { ReadsOne (IsErrOf result ReadError.DiskFault) records.old records.new }
{
    if records.size_of(0) > MOST_OF_SETTINGS {
        let at = records.place_of(0);
        return Err(ReadError::Damaged { at });
    }
    let payload = records.entry_at(0)?;
    match decode_settings(alloc, &payload) {
        Ok(settings) => Ok(settings),
        Err(DecodeError::NoMemory) => Err(ReadError::NoMemory),
        Err(DecodeError::Bad { at: _ }) => Err(ReadError::Damaged {
            at: records.place_of(0),
        }),
    }
}

// Reads all records from this one on, and keeps the rows that they leave.
fn load_commits<D: Disk>(
    alloc: Global,
    records: &mut Records<D>,
    next: u64,
    kept: &mut Kept,
) -> Result<(), ReadError>
    ensures loaded { OnOk result (IsTrue D.tells → (all read : List (List ℕ)) → Hold all records.old
        → IsLoaded all next read kept.old → IsLoaded all (length all) read kept.new) }
    ensures damaged { (at : ℕ) → IsErrOf result (ReadError.Damaged at) → IsTrue D.tells
        → (all read : List (List ℕ)) → Hold all records.old → IsLoaded all next read kept.old
        → IsWrongEntry (records_magic records.old) all at }
    ensures reads { ReadsOne (IsErrOf result ReadError.DiskFault) records.old records.new }
{
    let count = records.count();
    for k in next..count {
        match load_commit(alloc, records, k, kept) {
            Ok(()) => {}
            Err(error) => return Err(error),
        }
    }
    Ok(())
}

// Reads record `k`, a commit, and keeps its rows and words.
fn load_commit<D: Disk>(
    alloc: Global,
    records: &mut Records<D>,
    k: u64,
    kept: &mut Kept,
) -> Result<(), ReadError>
    requires { k < record_count records.old }
    ensures loaded { OnOk result (IsTrue D.tells → (all read : List (List ℕ)) → Hold all records.old
        → IsLoaded all k read kept.old → IsLoaded all (k + 1) read kept.new) }
    ensures damaged { (at : ℕ) → IsErrOf result (ReadError.Damaged at) → IsTrue D.tells
        → (all read : List (List ℕ)) → Hold all records.old → IsLoaded all k read kept.old
        → IsWrongEntry (records_magic records.old) all at }
    ensures reads { ReadsOne (IsErrOf result ReadError.DiskFault) records.old records.new }
{
    let columns = kept.settings().columns.len();
    let changes = match read_commit(alloc, records, k, columns) {
        Ok(changes) => changes,
        Err(error) => return Err(error),
    };
    match kept.replay(changes.as_slice()) {
        Ok(()) => Ok(()),
        Err(PlanError::NoMemory) => Err(ReadError::NoMemory),
        Err(PlanError::Refused { .. }) => Err(ReadError::Damaged {
            at: records.place_of(k),
        }),
    }
}

// The commit that record `k` has, of a table with so many columns.
fn read_commit<D: Disk>(
    alloc: Global,
    records: &mut Records<D>,
    k: u64,
    columns: usize,
) -> Result<Changes, ReadError>
    requires { k < record_count records.old }
    ensures commit { IfOk result (λ changes. IsWritten columns changes) }
    ensures payload { IfOk result (λ changes. IsTrue D.tells → (all : List (List ℕ))
        → Hold all records.old → commit_payload changes ≡ slice_index_or all k []) }
    ensures memory { IsErrOf result ReadError.NoMemory → IsTrue D.tells → (all : List (List ℕ))
        → Hold all records.old → length (slice_index_or all k []) ≤ 70000000 }
    ensures damaged { (at : ℕ) → IsErrOf result (ReadError.Damaged at) → IsTrue D.tells
        → (all : List (List ℕ)) → Hold all records.old
        → (at ≡ gate_at (records_magic records.old) all k)
        × IsNoCommit columns (slice_index_or all k []) }
    ensures reads { ReadsOne (IsErrOf result ReadError.DiskFault) records.old records.new }
{
    if records.size_of(k) > MOST_OF_A_COMMIT {
        let at = records.place_of(k);
        return Err(ReadError::Damaged { at });
    }
    let payload = records.entry_at(k)?;
    match decode_commit(alloc, columns, &payload) {
        Ok(changes) => Ok(changes),
        Err(DecodeError::NoMemory) => Err(ReadError::NoMemory),
        Err(DecodeError::Bad { at: _ }) => Err(ReadError::Damaged {
            at: records.place_of(k),
        }),
    }
}
