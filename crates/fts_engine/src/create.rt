ghost use Rattle.std.specs.Prelude.{◌≡◌, ◌⊎◌, ◌≤◌, [], length, IsTrue, IsErr, IsErrAnd};
ghost use Rattle.std.specs.Prelude.{IfOk, IfErr};
ghost use Rattle.fts_faults.specs.Count.{CountsFault};
ghost use Rattle.fts_disk.specs.Crash.{Only};
ghost use Rattle.fts_disk.specs.Moments.{Looks};
ghost use Rattle.fts_types.specs.declared.settings.Settings.{Settings};
ghost use Rattle.fts_types.specs.Settings.{AreSettings};
ghost use Rattle.fts_log.specs.Frame.{payload_of};
ghost use Rattle.fts_log.specs.Framing.{inner};
ghost use Rattle.fts_log.specs.Log.{framed_size};
ghost use Rattle.fts_log.specs.Record.{IsLog};
ghost use Rattle.fts_rowcodec.specs.Payload.{settings_payload};
ghost use Rattle.fts_steps.specs.FaultCounts.{CountsFaultOf};
ghost use Rattle.fts_steps.specs.State.{IsCreated, IsRows, IsIndex, index_magic, created_with};
ghost use Rattle.fts_engine.specs.Opening.{device_behind, rows_behind, index_behind};

use fts_disk::Disk;
use fts_log::{AROUND_PAYLOAD, AppendError, BEFORE_PAYLOAD, Framed, create_log, is_begun};
use fts_rowcodec::{encode_settings_into, settings_size};
use fts_types::Settings;
use std::alloc::{AllocError, Global};
use std::error::Error;
use std::fmt;

/// The bytes with which the rows log begins.
pub const ROWS_MAGIC: [u8; 8] = *b"FTSROWS1";

/// The bytes with which the index log begins.
pub const INDEX_MAGIC: [u8; 8] = *b"FTSINDX1";

/// The largest end of a log, in bytes: a record's length then fits its four bytes.
pub const LARGEST_LOG: u64 = 4_294_967_296;

/// Why a database was not created.
#[derive(Clone, Copy, Debug, PartialEq, Eq)]
pub enum CreateError {
    /// Memory ran out, before a device was touched.
    NoMemory,
    /// A database was created on the devices before. It is as it was.
    AlreadyCreated,
    /// A device failed. What stands on them is open.
    DiskFault,
}

impl fmt::Display for CreateError {
    fn fmt<W: fmt::Write>(&self, f: &mut fmt::Formatter<W>) -> fmt::Result {
        f.write_str(match self {
            CreateError::NoMemory => "no memory",
            CreateError::AlreadyCreated => "already created",
            CreateError::DiskFault => "disk fault",
        })
    }
}

impl Error for CreateError {}

/// Makes a database without commits on two devices, and hands them back. It takes its memory
/// before it touches a device, and looks at both devices before it writes. The index log is made
/// first: a database is created once its settings stand in the rows log.
///
/// # Errors
///
/// Each with the devices. Where a database stood on them, that stands as it stood.
///
/// - `NoMemory` if memory ran out. The devices weren't touched.
/// - `AlreadyCreated` exactly where a database was created on the rows device.
/// - `DiskFault` if a device failed. Where no database stood, what stands is open.
pub fn create_engine<D: Disk, E: Disk>(
    alloc: Global,
    settings: &Settings,
    rows: D,
    index: E,
) -> Result<(D, E), (CreateError, D, E)>
    requires { AreSettings settings.now }
    ensures rows { IfOk result (λ made. IsTrue D.tells
        → IsRows (created_with settings.now) (D.seen made.0 0)
        × Only (D.seen made.0) (D.images made.0)) }
    ensures index { IfOk result (λ made. IsTrue E.tells
        → IsIndex (created_with settings.now) (E.seen made.1)
        × Only (E.seen made.1) (E.images made.1)) }
    ensures fresh { IfOk result (λ _. IsTrue D.tells → IsCreated (D.seen rows 0) → ⊥) }
    ensures already { IfErr result (λ e. e.0 ≡ CreateError.AlreadyCreated → IsTrue D.tells
        → IsCreated (D.seen rows 0)) }
    ensures stays_rows { IfErr result (λ e. IsTrue D.tells → IsCreated (D.seen rows 0)
        → Looks D.Disk rows e.1) }
    ensures stays_index { IfErr result (λ e. IsTrue E.tells
        → (e.0 ≡ CreateError.AlreadyCreated) ⊎ (IsTrue D.tells × IsCreated (D.seen rows 0))
        → Looks E.Disk index e.2) }
    ensures untouched { IfErr result (λ e. e.0 ≡ CreateError.NoMemory
        → (e.1 ≡ rows) × (e.2 ≡ index)) }
    ensures faults { CountsFaultOf (IsErrAnd result (λ e. e.0 ≡ CreateError.DiskFault))
        (D.faults rows, E.faults index)
        (D.faults (rows_behind result), E.faults (index_behind result)) }
{
    let framed = match framed_settings(alloc, settings) {
        Ok(framed) => framed,
        Err(_) => return Err((CreateError::NoMemory, rows, index)),
    };
    let mut rows = rows;
    let mut index = index;
    match index.len(0) {
        Ok(_) => {}
        Err(_) => return Err((CreateError::DiskFault, rows, index)),
    }
    match is_begun(&mut rows) {
        Ok(false) => make(rows, index, &framed),
        Ok(true) => Err((CreateError::AlreadyCreated, rows, index)),
        Err(_) => Err((CreateError::DiskFault, rows, index)),
    }
}

// The settings, framed for the log.
fn framed_settings(alloc: Global, settings: &Settings) -> Result<Framed, AllocError>
    requires { AreSettings settings.now }
    ensures { IfOk result (λ framed. payload_of framed ≡ settings_payload settings.now) }
{
    let mut bytes = vec![in alloc; 0; settings_size(settings) + AROUND_PAYLOAD]?;
    put_settings(&mut bytes, settings);
    Ok(Framed::around(bytes))
}

// Puts the payload of settings into the bytes of its frame.
fn put_settings(frame: &mut [u8], settings: &Settings)
    requires settings { AreSettings settings.now }
    requires room { length frame.old ≡ framed_size (settings_payload settings.now) }
    ensures size { length frame.new ≡ length frame.old }
    ensures payload { inner frame.new ≡ settings_payload settings.now }
{
    encode_settings_into(settings, &mut frame[BEFORE_PAYLOAD..]);
}

// Makes the two logs, the index log first, with the settings as the only entry of the rows log.
fn make<D: Disk, E: Disk>(rows: D, index: E, framed: &Framed) -> Result<(D, E), (CreateError, D, E)>
    requires { length (payload_of framed.now) ≤ 300 }
    ensures rows { IfOk result (λ made. IsTrue D.tells → (settings : Settings)
        → AreSettings settings
        → payload_of framed.now ≡ settings_payload settings
        → IsRows (created_with settings) (D.seen made.0 0)
        × Only (D.seen made.0) (D.images made.0)) }
    ensures index { IfOk result (λ made. IsTrue E.tells
        → IsLog index_magic [] (E.seen made.1 0)
        × Only (E.seen made.1) (E.images made.1)) }
    ensures failed { IfErr result (λ e. e.0 ≡ CreateError.DiskFault) }
    ensures faults { CountsFaultOf (IsErr result) (D.faults rows, E.faults index)
        (D.faults (rows_behind result), E.faults (index_behind result)) }
{
    let index = match create_log(index, INDEX_MAGIC, LARGEST_LOG) {
        Ok(log) => log.close(),
        Err((_, index)) => return Err((CreateError::DiskFault, rows, index)),
    };
    match make_rows(rows, framed) {
        Ok(rows) => Ok((rows, index)),
        Err(rows) => Err((CreateError::DiskFault, rows, index)),
    }
}

// Makes the rows log, with the settings as its only entry.
fn make_rows<D: Disk>(rows: D, framed: &Framed) -> Result<D, D>
    requires { length (payload_of framed.now) ≤ 300 }
    ensures made { IfOk result (λ device. IsTrue D.tells → (settings : Settings)
        → AreSettings settings
        → payload_of framed.now ≡ settings_payload settings
        → IsRows (created_with settings) (D.seen device 0)) }
    ensures durable { IfOk result (λ device. IsTrue D.tells
        → Only (D.seen device) (D.images device)) }
    ensures faults { CountsFault (IsErr result) (D.faults rows) (D.faults (device_behind result)) }
{
    let mut log = match create_log(rows, ROWS_MAGIC, LARGEST_LOG) {
        Ok(log) => log,
        Err((_, device)) => return Err(device),
    };
    match log.append(framed) {
        Ok(_) => Ok(log.close()),
        Err(AppendError::DiskFault) => Err(log.close()),
        Err(AppendError::LogFull { end: _ }) => unreachable!(),
    }
}
