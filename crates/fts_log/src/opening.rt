//! Opening a log.
ghost use Rattle.std.specs.Prelude.{◌≡◌, ◌≢◌, ℕ, List, ◌++◌, ◌+◌, ◌^◌, ◌<◌, ◌≤◌, ◌↔◌, length, take};
ghost use Rattle.std.specs.Prelude.{IsTrue, IfOk, IfErr, OnOk, IsErrOf, IsErrAnd};
ghost use Rattle.fts_faults.specs.Count.{CountsFault};
ghost use Rattle.fts_disk.specs.Crash.{Only};
ghost use Rattle.fts_disk.specs.Moments.{Looks};
ghost use Rattle.fts_log.specs.Record.{IsDamagedAt};
ghost use Rattle.fts_log.specs.Scan.{Shows, PlaceIs, IsFoundIn};
ghost use Rattle.fts_log.specs.Records.{Hold, records_device, records_magic, record_count};
ghost use Rattle.fts_log.specs.Records.{device_behind};
ghost use Rattle.fts_log.specs.Log.{StandsFor, device_of, device_left, magic_of, limit_of};
ghost use Rattle.fts_log.specs.Log.{found_count, count_of};

use crate::found::{FIRST, Found};
use crate::place::Place;
use crate::window::Window;
use crate::{EntryError, Log, OpenError, Records};
use fts_disk::Disk;
use std::alloc::Global;

/// Opens the log of file 0. `limit` is the largest end that an append may leave, in bytes; the log
/// that is there may end above it. It begins with a sync, writes nothing, goes over the file once,
/// and keeps one number an entry. A crash at any moment of the call leaves what it could leave
/// before the call.
///
/// # Errors
///
/// Each with the device, which reads as before.
///
/// - `NoMemory` if there was no memory for the places of the entries.
/// - `Damaged` exactly where the bytes of file 0 are no log.
/// - `DiskFault` if the device failed.
pub fn open_log<D: Disk>(
    alloc: Global,
    device: D,
    magic: [u8; 8],
    limit: u64,
) -> Result<Log<D>, (OpenError, D)>
    requires { limit ≤ 2 ^ 32 }

    ensures opened { IfOk result (λ log. IsTrue D.tells
        → (entries : List (List ℕ)) × StandsFor entries log × (found_count log ≡ length entries)) }
    ensures kept { IfOk result (λ log. (magic_of log ≡ magic) × (limit_of log ≡ limit)) }
    ensures found { IfOk result (λ log. found_count log ≡ count_of log) }
    ensures durable { IfOk result (λ log. IsTrue D.tells
        → Only (D.seen (device_of log)) (D.images (device_of log))) }
    ensures damaged { IfErr result (λ e. (at : ℕ) → e.0 ≡ OpenError.Damaged at → IsTrue D.tells
        → IsDamagedAt magic at (D.seen device 0)) }
    ensures looks { IsTrue D.tells → Looks D.Disk device (device_left result) }
    ensures faults { CountsFault (IsErrAnd result (λ e. e.0 ≡ OpenError.DiskFault))
        (D.faults device) (D.faults (device_left result)) }
{
    match read_records(alloc, device, magic) {
        Ok(records) => match records.into_log(limit) {
            Ok(log) => Ok(log),
            Err((at, device)) => Err((OpenError::Damaged { at }, device)),
        },
        Err(error) => Err(error),
    }
}

/// Reads the places of the whole records of file 0. It begins with a sync, writes nothing, goes
/// over the file once, and keeps one number a record. A crash at any moment of the call leaves what
/// it could leave before the call.
///
/// # Errors
///
/// Each with the device, which reads as before.
///
/// - `NoMemory` if there was no memory for the places.
/// - `Damaged` at 0 exactly where the file does not begin with the magic.
/// - `DiskFault` if the device failed.
pub fn read_records<D: Disk>(
    alloc: Global,
    device: D,
    magic: [u8; 8],
) -> Result<Records<D>, (OpenError, D)>
    ensures read { IfOk result (λ records. IsTrue D.tells
        → (entries : List (List ℕ)) × Hold entries records
        × (record_count records ≡ length entries)) }
    ensures magic { IfOk result (λ records. records_magic records ≡ magic) }
    ensures durable { IfOk result (λ records. IsTrue D.tells
        → Only (D.seen (records_device records)) (D.images (records_device records))) }
    ensures damaged { IfErr result (λ e. (at : ℕ) → e.0 ≡ OpenError.Damaged at → IsTrue D.tells
        → (at ≡ 0) × ((rest : List ℕ) → D.seen device 0 ≢ magic ++ rest)) }
    ensures looks { IsTrue D.tells → Looks D.Disk device (device_behind result) }
    ensures faults { CountsFault (IsErrAnd result (λ e. e.0 ≡ OpenError.DiskFault))
        (D.faults device) (D.faults (device_behind result)) }
{
    let mut device = device;
    match find(alloc, &mut device, magic) {
        Ok(found) => Ok(Records {
            device,
            magic,
            found,
            window: Window::empty(alloc),
        }),
        Err(error) => Err((error, device)),
    }
}

// Finds the records of file 0, after a sync.
fn find<D: Disk>(alloc: Global, device: &mut D, magic: [u8; 8]) -> Result<Found, OpenError>
    ensures found { IfOk result (λ found. IsTrue D.tells
        → (entries : List (List ℕ)) × IsFoundIn magic entries (D.seen device.old 0) found) }
    ensures width { OnOk result (length magic ≡ 8) }
    ensures durable { OnOk result (IsTrue D.tells
        → Only (D.seen device.new) (D.images device.new)) }
    ensures damaged { (at : ℕ) → IsErrOf result (OpenError.Damaged at) → IsTrue D.tells
        → (at ≡ 0) × ((rest : List ℕ) → D.seen device.old 0 ≢ magic ++ rest) }
    ensures looks { IsTrue D.tells → Looks D.Disk device.old device.new }
    ensures faults { CountsFault (IsErrOf result OpenError.DiskFault)
        (D.faults device.old) (D.faults device.new) }
{
    device.sync()?;
    let file_length = device.len(0)?;
    let window = Window::read(alloc, device, 0, file_length)?;
    if !begins_with(&window.bytes, &magic) {
        return Err(OpenError::Damaged { at: 0 });
    }
    Ok(scan(alloc, device, file_length, window)?)
}

// Whether the bytes begin with the magic.
fn begins_with(bytes: &[u8], magic: &[u8; 8]) -> bool
    ensures begins { IsTrue result ↔ (take 8 bytes.now ≡ magic.now) }
    ensures long { IsTrue result → 8 ≤ length bytes.now }
    ensures width { length magic.now ≡ 8 }
{
    bytes.starts_with(magic)
}

// Goes over the records, of which the first begins behind the magic.
fn scan<D: Disk>(
    alloc: Global,
    device: &mut D,
    file_length: u64,
    window: Window,
) -> Result<Found, EntryError>
    requires within { 8 ≤ file_length }
    requires small { file_length < 2 ^ 63 }
    requires told { IsTrue D.tells → length (D.seen device.old 0) ≡ file_length }
    requires shown { IsTrue D.tells → Shows window (D.seen device.old 0) }
    ensures found { IfOk result (λ found. IsTrue D.tells → (entries : List (List ℕ))
        × IsFoundIn (take 8 (D.seen device.old 0)) entries (D.seen device.old 0) found) }
    ensures looks { IsTrue D.tells → Looks D.Disk device.old device.new }
    ensures faults { CountsFault (IsErrOf result EntryError.DiskFault)
        (D.faults device.old) (D.faults device.new) }
{
    let mut window = window;
    let mut ends = Vec::new(alloc);
    let mut at = FIRST;
    'records: loop {
        match place_at(alloc, device, &mut window, at, file_length)? {
            Place::Closed => {
                return Ok(Found {
                    alloc,
                    ends,
                    gate: at,
                    is_whole: true,
                });
            }
            Place::Whole { next } => {
                ends.push(next)?;
                at = next;
            }
            Place::Broken => {
                return Ok(Found {
                    alloc,
                    ends,
                    gate: at,
                    is_whole: false,
                });
            }
        }
    }
}

// What stands at a place of the file.
fn place_at<D: Disk>(
    alloc: Global,
    device: &mut D,
    window: &mut Window,
    at: u64,
    file_length: u64,
) -> Result<Place, EntryError>
    requires within { at ≤ file_length }
    requires small { file_length < 2 ^ 63 }
    requires told { IsTrue D.tells → length (D.seen device.old 0) ≡ file_length }
    requires shown { IsTrue D.tells → Shows window.old (D.seen device.old 0) }
    ensures stands { IfOk result (λ place. IsTrue D.tells
        → PlaceIs (D.seen device.old 0) at place) }
    ensures next { (next : ℕ) → result ≡ Ok (Place.Whole next)
        → (at + 5 ≤ next) × (next ≤ file_length) }
    ensures shows { OnOk result (IsTrue D.tells → Shows window.new (D.seen device.old 0)) }
    ensures looks { IsTrue D.tells → Looks D.Disk device.old device.new }
    ensures faults { CountsFault (IsErrOf result EntryError.DiskFault)
        (D.faults device.old) (D.faults device.new) }
{
    window.cover(alloc, device, at, file_length)?;
    Ok(Place::from_head(window.head(at, file_length), at, file_length))
}
