ghost use Rattle.std.specs.Prelude.{◌≡◌, ◌⊎◌, ◌↔◌, ◌<◌, ℕ, List};
ghost use Rattle.std.specs.Prelude.{IsTrue, IsErrAnd, IfOk, IfErr};
ghost use Rattle.fts_faults.specs.Count.{CountsFault};
ghost use Rattle.fts_disk.specs.Moments.{Looks};
ghost use Rattle.fts_log.specs.Records.{Hold, records_device, records_magic, record_count};
ghost use Rattle.fts_log.specs.Record.{IsLog, IsBrokenBehind};
ghost use Rattle.fts_steps.specs.FaultCounts.{CountsFaultOf};
ghost use Rattle.fts_steps.specs.State.{State, IsCreated, IsRows, rows_magic, index_magic};
ghost use Rattle.fts_steps.specs.Running.{opened};
ghost use Rattle.fts_steps.specs.Fault.{IsFaultAt};
ghost use Rattle.fts_types.specs.Limits.{standard_limits};
ghost use Rattle.fts_engine.specs.Bounds.{AreWithin};
ghost use Rattle.fts_engine.specs.Stands.{Holds, engine_limits, rows_left, index_left};
ghost use Rattle.fts_engine.specs.Opening.{IsDamaged, IsIndexDamaged, IsNoRows, records_left};

use crate::create::{INDEX_MAGIC, LARGEST_LOG, ROWS_MAGIC};
use crate::error::{LoadError, RowsError};
use crate::load::{held_back, load, load_settings};
use crate::restoring::Restoring;
use crate::{Device, Engine, OpenError};
use fts_disk::Disk;
use fts_log::{Records, is_begun, read_records};
use fts_types::Limits;
use std::alloc::Global;

/// Opens the database on two devices: reads the gates of its rows log and of its index log, then
/// the payloads of both, and writes nothing. Words are made of the rows of the commits behind the
/// last entry alone: those before it stand in the index log. `limits` are those of later steps;
/// what was written before need only be within the standard ones. A crash at any moment leaves what
/// it could leave before.
///
/// What is opened stands for the two logs, whatever entries they have that the format allows. That
/// searches find what a scan does is known of devices on which `create_engine` made the database,
/// and that nobody else wrote (`IsRight`).
///
/// # Errors
///
/// Each with the devices, which read as before.
///
/// - `NoMemory` if memory ran out.
/// - `NotCreated` exactly where in the rows log the gate behind the magic isn't open: no database
///   was created.
/// - `Damaged` exactly where a database was created, and the rows log is no database's, or else the
///   index log isn't. It has the device, its file, and the first place at fault.
/// - `DiskFault` if a device failed.
pub fn open_engine<D: Disk, E: Disk>(
    alloc: Global,
    rows: D,
    index: E,
    limits: Limits,
) -> Result<Engine<D, E>, (OpenError, D, E)>
    requires { AreWithin standard_limits limits }
    ensures opened { IfOk result (λ engine. IsTrue D.tells → IsTrue E.tells
        → (state : State) × Holds (opened state) engine) }
    ensures limits { IfOk result (λ engine. engine_limits engine ≡ limits) }
    ensures not_created { IfErr result (λ e. e.0 ≡ OpenError.NotCreated → IsTrue D.tells
        → IsCreated (D.seen rows 0) → ⊥) }
    ensures damaged_rows { IfErr result (λ e. (file at : ℕ)
        → e.0 ≡ OpenError.Damaged Device.Rows file at
        → (file ≡ 0) × (IsTrue D.tells → IsDamaged at (D.seen rows 0))) }
    ensures damaged_index { IfErr result (λ e. (file at : ℕ)
        → e.0 ≡ OpenError.Damaged Device.Index file at
        → (file ≡ 0) × (IsTrue D.tells → IsTrue E.tells
        → IsIndexDamaged at (D.seen rows 0) (E.seen index 0))) }
    ensures looks_rows { IsTrue D.tells → Looks D.Disk rows (rows_left result) }
    ensures looks_index { IsTrue E.tells → Looks E.Disk index (index_left result) }
    ensures faults { CountsFaultOf (IsErrAnd result (λ e. e.0 ≡ OpenError.DiskFault))
        (D.faults rows, E.faults index)
        (D.faults (rows_left result), E.faults (index_left result)) }
{
    let rows = match read_rows(alloc, rows) {
        Ok(rows) => rows,
        Err((error, rows)) => return Err((OpenError::from(error), rows, index)),
    };
    match read_records(alloc, index, INDEX_MAGIC) {
        Ok(entries) => match open_records(alloc, rows, entries, limits) {
            Ok(engine) => Ok(engine),
            Err((error, rows, index)) => Err((OpenError::from(error), rows, index)),
        },
        Err((fts_log::OpenError::Damaged { at }, index)) => {
            let (error, rows) = refuse_index(alloc, rows, at);
            Err((OpenError::from(error), rows, index))
        }
        Err((fts_log::OpenError::NoMemory, index)) => {
            Err((OpenError::NoMemory, rows.close(), index))
        }
        Err((fts_log::OpenError::DiskFault, index)) => {
            Err((OpenError::DiskFault, rows.close(), index))
        }
    }
}

// Reads what the records of both logs have.
fn open_records<D: Disk, E: Disk>(
    alloc: Global,
    rows: Records<D>,
    entries: Records<E>,
    limits: Limits,
) -> Result<Engine<D, E>, (LoadError, D, E)>
    requires magic { records_magic rows ≡ rows_magic }
    requires index_magic { records_magic entries ≡ index_magic }
    requires some { 0 < record_count rows }
    requires within { AreWithin standard_limits limits }
    requires ready { IsTrue D.tells → (all : List (List ℕ)) × Hold all rows }
    requires index_ready { IsTrue E.tells → (read : List (List ℕ)) × Hold read entries }
    ensures opened { IfOk result (λ engine. IsTrue D.tells → IsTrue E.tells
        → (state : State) × Holds (opened state) engine) }
    ensures limits { IfOk result (λ engine. engine_limits engine ≡ limits) }
    ensures damaged_rows { IfErr result (λ e. (at : ℕ) → e.0 ≡ LoadError.Damaged Device.Rows at
        → IsTrue D.tells → IsDamaged at (D.seen (records_device rows) 0)) }
    ensures damaged_index { IfErr result (λ e. (at : ℕ) → e.0 ≡ LoadError.Damaged Device.Index at
        → IsTrue D.tells → IsTrue E.tells → IsIndexDamaged at
        (D.seen (records_device rows) 0) (E.seen (records_device entries) 0)) }
    ensures looks_rows { IsTrue D.tells → Looks D.Disk (records_device rows) (rows_left result) }
    ensures looks_index { IsTrue E.tells
        → Looks E.Disk (records_device entries) (index_left result) }
    ensures faults { CountsFaultOf (IsErrAnd result (λ e. e.0 ≡ LoadError.DiskFault))
        (D.faults (records_device rows), E.faults (records_device entries))
        (D.faults (rows_left result), E.faults (index_left result)) }
{
    let mut rows = rows;
    let mut entries = entries;
    let mut kept = match load(alloc, &mut rows, &mut entries) {
        Ok(kept) => kept,
        Err(error) => {
            let (error, rows) = told_first(rows, error);
            return Err((error, rows, entries.close()));
        }
    };
    let rows = match rows.into_log(limits.log_bytes) {
        Ok(rows) => rows,
        Err((at, rows)) => {
            let device = Device::Rows;
            return Err((LoadError::Damaged { device, at }, rows, entries.close()));
        }
    };
    match entries.into_log(limits.log_bytes) {
        Ok(index) => {
            kept.set_limits(limits);
            Ok(Engine {
                alloc,
                rows,
                index,
                kept,
                stopped: None,
            })
        }
        Err((at, index)) => {
            let device = Device::Index;
            Err((LoadError::Damaged { device, at }, rows.close(), index))
        }
    }
}

// The whole records of the rows log, of which there are some: where there are none, a database was
// never created, or its first record is torn.
fn read_rows<D: Disk>(alloc: Global, rows: D) -> Result<Records<D>, (RowsError, D)>
    ensures read { IfOk result (λ records. IsTrue D.tells
        → (all : List (List ℕ)) × Hold all records) }
    ensures some { IfOk result (λ records. (0 < record_count records)
        × (records_magic records ≡ rows_magic)) }
    ensures not_created { IfErr result (λ e. e.0 ≡ RowsError.NotCreated → IsTrue D.tells
        → IsCreated (D.seen rows 0) → ⊥) }
    ensures damaged { IfErr result (λ e. (at : ℕ) → e.0 ≡ RowsError.Damaged at → IsTrue D.tells
        → IsDamaged at (D.seen rows 0)) }
    ensures looks { IsTrue D.tells → Looks D.Disk rows (records_left result) }
    ensures faults { CountsFault (IsErrAnd result (λ e. e.0 ≡ RowsError.DiskFault))
        (D.faults rows) (D.faults (records_left result)) }
{
    match read_records(alloc, rows, ROWS_MAGIC) {
        Ok(records) => some_records(records),
        Err((fts_log::OpenError::Damaged { at }, device)) => Err(tell_damage(device, at)),
        Err((fts_log::OpenError::NoMemory, device)) => Err((RowsError::NoMemory, device)),
        Err((fts_log::OpenError::DiskFault, device)) => Err((RowsError::DiskFault, device)),
    }
}

// The records, where there are some.
fn some_records<D: Disk>(records: Records<D>) -> Result<Records<D>, (RowsError, D)>
    requires magic { records_magic records ≡ rows_magic }
    requires ready { IsTrue D.tells → (all : List (List ℕ)) × Hold all records }
    ensures read { IfOk result (λ some. some ≡ records) }
    ensures some { IfOk result (λ some. 0 < record_count some) }
    ensures not_created { IfErr result (λ e. e.0 ≡ RowsError.NotCreated → IsTrue D.tells
        → IsCreated (D.seen (records_device records) 0) → ⊥) }
    ensures damaged { IfErr result (λ e. (at : ℕ) → e.0 ≡ RowsError.Damaged at → IsTrue D.tells
        → IsDamaged at (D.seen (records_device records) 0)) }
    ensures looks { IsTrue D.tells → Looks D.Disk (records_device records) (records_left result) }
    ensures faults { CountsFault (IsErrAnd result (λ e. e.0 ≡ RowsError.DiskFault))
        (D.faults (records_device records)) (D.faults (records_left result)) }
{
    if records.count() > 0 {
        return Ok(records);
    }
    match records.into_log(LARGEST_LOG) {
        Ok(log) => Err((RowsError::NotCreated, log.close())),
        Err((at, device)) => Err(tell_damage(device, at)),
    }
}

// The index log is no log at all: so it is told, unless the rows log is at fault.
fn refuse_index<D: Disk>(alloc: Global, rows: Records<D>, at: u64) -> (LoadError, D)
    requires magic { records_magic rows ≡ rows_magic }
    requires some { 0 < record_count rows }
    requires ready { IsTrue D.tells → (all : List (List ℕ)) × Hold all rows }
    ensures damaged_rows { (place : ℕ) → result.0 ≡ LoadError.Damaged Device.Rows place
        → IsTrue D.tells → IsDamaged place (D.seen (records_device rows) 0) }
    ensures damaged_index { (place : ℕ) → result.0 ≡ LoadError.Damaged Device.Index place
        → (place ≡ at) × (IsTrue D.tells → (state : State)
        × IsRows state (D.seen (records_device rows) 0)) }
    ensures looks { IsTrue D.tells → Looks D.Disk (records_device rows) result.1 }
    ensures faults { CountsFault (result.0 ≡ LoadError.DiskFault)
        (D.faults (records_device rows)) (D.faults result.1) }
{
    let mut rows = rows;
    let settings = match load_settings(alloc, &mut rows) {
        Ok(settings) => settings,
        Err(error) => return (error.on(Device::Rows), rows.close()),
    };
    let mut restoring = Restoring::new(alloc, settings);
    let error = held_back(alloc, &mut rows, &mut restoring, at);
    told_first(rows, error)
}

// A fault of the index log is told where the rows log is whole; else the place where it is torn.
fn told_first<D: Disk>(rows: Records<D>, error: LoadError) -> (LoadError, D)
    requires magic { records_magic rows ≡ rows_magic }
    ensures fault { (result.0 ≡ LoadError.DiskFault) ↔ (error ≡ LoadError.DiskFault) }
    ensures damaged_rows { (at : ℕ) → result.0 ≡ LoadError.Damaged Device.Rows at
        → (error ≡ LoadError.Damaged Device.Rows at)
        ⊎ (((place : ℕ) × (error ≡ LoadError.Damaged Device.Index place))
        × (IsTrue D.tells → (all : List (List ℕ)) → Hold all rows
        → IsBrokenBehind rows_magic all at (D.seen (records_device rows) 0))) }
    ensures damaged_index { (at : ℕ) → result.0 ≡ LoadError.Damaged Device.Index at
        → (error ≡ LoadError.Damaged Device.Index at) × (IsTrue D.tells
        → (all : List (List ℕ)) → Hold all rows
        → IsLog rows_magic all (D.seen (records_device rows) 0)) }
    ensures device { result.1 ≡ records_device rows }
{
    match error {
        LoadError::Damaged { device, at } => match device {
            Device::Index => match rows.into_log(LARGEST_LOG) {
                Ok(log) => (LoadError::Damaged { device, at }, log.close()),
                Err((at, rows)) => {
                    let device = Device::Rows;
                    (LoadError::Damaged { device, at }, rows)
                }
            },
            Device::Rows => (LoadError::Damaged { device, at }, rows.close()),
        },
        error => (error, rows.close()),
    }
}

// A file that is at fault where its first record should begin, or before: damaged if it was
// created, else not created.
fn tell_damage<D: Disk>(device: D, at: u64) -> (RowsError, D)
    requires fault { IsTrue D.tells → IsFaultAt at (D.seen device 0) }
    requires none { IsTrue D.tells → IsNoRows (D.seen device 0) }
    ensures not_created { result.0 ≡ RowsError.NotCreated → IsTrue D.tells
        → IsCreated (D.seen device 0) → ⊥ }
    ensures damaged { (place : ℕ) → result.0 ≡ RowsError.Damaged place → IsTrue D.tells
        → IsDamaged place (D.seen device 0) }
    ensures looks { IsTrue D.tells → Looks D.Disk device result.1 }
    ensures faults { CountsFault (result.0 ≡ RowsError.DiskFault)
        (D.faults device) (D.faults result.1) }
{
    let mut device = device;
    match is_begun(&mut device) {
        Ok(true) => (RowsError::Damaged { at }, device),
        Ok(false) => (RowsError::NotCreated, device),
        Err(_) => (RowsError::DiskFault, device),
    }
}
