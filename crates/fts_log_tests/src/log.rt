ghost use Rattle.std.specs.Prelude.{◌^◌, ◌<◌, ◌≤◌, [], length, IfOk};
ghost use Rattle.fts_log.specs.Log.{StandsFor};

use fts_disk::{Call, Disk, Failed, Kind, MemDisk};
use fts_log::{
    AppendError, BEFORE_PAYLOAD, EntryError, Framed, Log, OpenError, create_log, open_log,
    read_records,
};
use std::alloc::Global;
use std::fmt::Display;
use std::test::Fail;

const MAGIC: [u8; 8] = *b"FTSROWS1";

// Settings of one column, and an insertion of a row.
const SETTINGS: [u8; 20] = *b"\x00\x01\x04body\x03\x54\x01\x07\xd0\x00\x7a\x12\x00\x00\x00\x03\xe8";

const INSERTION: [u8; 20] = *b"\x01\x00\x01\x01\x00\x00\x00\x00\x00\x00\x00\x01\x00\x00\x05apple";

// A log of both.
const BYTES: [u8; 59] =
    *b"FTSROWS1\x01\x00\x00\x00\x14\x00\x01\x04body\x03\x54\x01\x07\xd0\x00\x7a\x12\x00\x00\x00\x03\xe8\x01\x00\x00\x00\x14\x01\x00\x01\x01\x00\x00\x00\x00\x00\x00\x00\x01\x00\x00\x05apple\x00";

fn framed(alloc: Global, payload: &[u8]) -> Result<Framed, Fail>
    requires { length payload.now < 2 ^ 32 }
{
    let mut bytes = vec![in alloc; 0; BEFORE_PAYLOAD]?;
    bytes.extend_from_slice(payload)?;
    bytes.push(0)?;
    Ok(Framed::around(bytes))
}

// Appends an entry, and returns its number.
fn append(alloc: Global, log: &mut Log<MemDisk>, payload: &[u8]) -> Result<u64, Fail>
    requires { length payload.now < 2 ^ 32 }
{
    Ok(log.append(&framed(alloc, payload)?)?)
}

// A log without entries on a device whose listed calls fail.
fn created(alloc: Global, fails: Vec<(Kind, u64)>) -> Result<Log<MemDisk>, Fail>
    ensures { IfOk result (λ log. StandsFor [] log) }
{
    let disk = MemDisk::from_files(alloc, Vec::new(alloc), fails)?;
    match create_log(disk, MAGIC, 1000) {
        Ok(log) => Ok(log),
        Err((failed, _)) => Err(failed.into()),
    }
}

fn are_written(alloc: Global) -> Result<bool, Fail> {
    let mut log = created(alloc, Vec::new(alloc))?;
    let first = [append(alloc, &mut log, &SETTINGS)?, log.end()];
    let second = [append(alloc, &mut log, &INSERTION)?, log.end()];
    let counts = [log.count(), log.faults()];
    let disk = log.close();
    Ok([first, second, counts] == [[0, 34], [1, 59], [2, 0]] && disk.file(0) == BYTES.as_slice())
}

#[test]
fn two_entries_are_written_byte_for_byte(rt: HostRuntime) -> Result<(), Fail> {
    assert!(rt; are_written(rt.alloc())?);
    Ok(())
}

fn is_read_back(alloc: Global) -> Result<bool, Fail> {
    let mut log = created(alloc, Vec::new(alloc))?;
    log.append(&framed(alloc, &SETTINGS)?)?;
    let mut log = match open_log(alloc, log.close(), MAGIC, 1000) {
        Ok(log) => log,
        Err((error, _)) => return Err(error.into()),
    };
    if log.count() != 1 {
        return Ok(false);
    }
    Ok(log.entry_at(0)?.as_slice() == SETTINGS.as_slice())
}

#[test]
fn an_entry_is_read_back(rt: HostRuntime) -> Result<(), Fail> {
    assert!(rt; is_read_back(rt.alloc())?);
    Ok(())
}

// A device with a thousand entries and this one, where each had its number.
fn filled(alloc: Global, last: &[u8]) -> Result<Option<MemDisk>, Fail>
    requires { length last.now < 2 ^ 32 }
{
    let disk = MemDisk::from_files(alloc, Vec::new(alloc), Vec::new(alloc))?;
    let mut log = match create_log(disk, MAGIC, 1 << 20) {
        Ok(log) => log,
        Err((failed, _)) => return Err(failed.into()),
    };
    for number in 0..1_000 {
        if append(alloc, &mut log, &SETTINGS)? != number {
            return Ok(None);
        }
    }
    if append(alloc, &mut log, last)? != 1_000 {
        return Ok(None);
    }
    Ok(Some(log.close()))
}

fn many_are_read_back(alloc: Global) -> Result<bool, Fail> {
    let long = vec![in alloc; 7; 65_535]?;
    let Some(disk) = filled(alloc, &long)? else {
        return Ok(false);
    };
    let mut log = match open_log(alloc, disk, MAGIC, 1 << 20) {
        Ok(log) => log,
        Err((error, _)) => return Err(error.into()),
    };
    if log.count() != 1_001 {
        return Ok(false);
    }
    Ok(log.entry_at(1_000)? == long)
}

#[test]
fn many_entries_and_a_long_one_are_read_back(rt: HostRuntime) -> Result<(), Fail> {
    assert!(rt; many_are_read_back(rt.alloc())?);
    Ok(())
}

// What an append to the log of both answers, where it may have so many bytes.
fn appended_below(alloc: Global, limit: u64) -> Result<Result<u64, AppendError>, Fail>
    requires { limit ≤ 2 ^ 32 }
{
    let files = vec![in alloc; BYTES.to_vec(alloc)?]?;
    let disk = MemDisk::from_files(alloc, files, Vec::new(alloc))?;
    match open_log(alloc, disk, MAGIC, limit) {
        Ok(mut log) => Ok(log.append(&framed(alloc, &INSERTION)?)),
        Err((error, _)) => Err(error.into()),
    }
}

#[test]
fn a_log_ends_at_its_limit(rt: HostRuntime) -> Result<(), Fail> {
    assert!(rt; appended_below(rt.alloc(), 84)? == Ok(2));
    assert!(rt; appended_below(rt.alloc(), 83)? == Err(AppendError::LogFull { end: 84 }));
    Ok(())
}

// How many entries an opening finds, or why it refuses what it reads.
type Found = Result<u64, OpenError>;

fn found(alloc: Global, bytes: Vec<u8>) -> Result<Found, Fail> {
    let files = vec![in alloc; bytes]?;
    let disk = MemDisk::from_files(alloc, files, Vec::new(alloc))?;
    match open_log(alloc, disk, MAGIC, 1000) {
        Ok(log) => Ok(Ok(log.count())),
        Err((error, _)) => Ok(Err(error)),
    }
}

fn damaged(at: u64) -> Found {
    Err(OpenError::Damaged { at })
}

// What is found of the first bytes of the log of both, of each of these lengths.
fn of_lengths(alloc: Global, from: usize, to: usize, want: Found) -> Result<bool, Fail> {
    for size in from..to {
        let mut bytes = BYTES.to_vec(alloc)?;
        bytes.truncate(size);
        if found(alloc, bytes)? != want {
            return Ok(false);
        }
    }
    Ok(true)
}

#[test]
fn a_log_cut_at_each_length_is_damaged_at_a_place(rt: HostRuntime) -> Result<(), Fail> {
    let alloc = rt.alloc();
    assert!(rt; of_lengths(alloc, 0, 8, damaged(0))?);
    assert!(rt; of_lengths(alloc, 8, 33, damaged(8))?);
    assert!(rt; of_lengths(alloc, 33, 58, damaged(33))?);
    assert!(rt; of_lengths(alloc, 58, 59, damaged(58))?);
    assert!(rt; of_lengths(alloc, 59, 60, Ok(2))?);
    Ok(())
}

// What is found of the log of both, with these bits of a byte at each of these places flipped.
fn of_flips(alloc: Global, flip: u8, from: usize, to: usize, want: Found) -> Result<bool, Fail> {
    for place in from..to {
        let mut bytes = BYTES.to_vec(alloc)?;
        if let Some(byte) = bytes.get_mut(place) {
            *byte ^= flip;
        }
        if found(alloc, bytes)? != want {
            return Ok(false);
        }
    }
    Ok(true)
}

#[test]
fn a_log_with_a_byte_flipped_is_another_log_or_damaged(rt: HostRuntime) -> Result<(), Fail> {
    let alloc = rt.alloc();
    assert!(rt; of_flips(alloc, 255, 0, 8, damaged(0))?);
    assert!(rt; of_flips(alloc, 255, 8, 9, Ok(0))?);
    assert!(rt; of_flips(alloc, 255, 9, 13, damaged(8))?);
    assert!(rt; of_flips(alloc, 255, 13, 33, Ok(2))?);
    assert!(rt; of_flips(alloc, 255, 33, 34, Ok(1))?);
    assert!(rt; of_flips(alloc, 255, 34, 38, damaged(33))?);
    assert!(rt; of_flips(alloc, 255, 38, 59, Ok(2))?);
    Ok(())
}

#[test]
fn a_log_with_a_lowest_bit_flipped_is_another_log_or_damaged(rt: HostRuntime) -> Result<(), Fail> {
    let alloc = rt.alloc();
    assert!(rt; of_flips(alloc, 1, 8, 9, Ok(0))?);
    assert!(rt; of_flips(alloc, 1, 9, 12, damaged(8))?);
    assert!(rt; of_flips(alloc, 1, 12, 13, Ok(1))?);
    assert!(rt; of_flips(alloc, 1, 13, 33, Ok(2))?);
    assert!(rt; of_flips(alloc, 1, 33, 34, Ok(1))?);
    assert!(rt; of_flips(alloc, 1, 34, 37, damaged(33))?);
    assert!(rt; of_flips(alloc, 1, 37, 38, damaged(59))?);
    assert!(rt; of_flips(alloc, 1, 38, 58, Ok(2))?);
    assert!(rt; of_flips(alloc, 1, 58, 59, damaged(58))?);
    Ok(())
}

// An append to the log of both with 66 bytes behind it, and what is found then.
fn stays_closed(alloc: Global) -> Result<bool, Fail> {
    let mut bytes = BYTES.to_vec(alloc)?;
    bytes.extend_from_slice(&[1; 66])?;
    let files = vec![in alloc; bytes]?;
    let disk = MemDisk::from_files(alloc, files, Vec::new(alloc))?;
    let mut log = match open_log(alloc, disk, MAGIC, 1000) {
        Ok(log) => log,
        Err((error, _)) => return Err(error.into()),
    };
    let before = (log.count(), log.end());
    let answer = log.append(&framed(alloc, b"")?);
    let disk = log.close();
    let after = found(alloc, disk.file(0).to_vec(alloc)?)?;
    Ok(before == (2, 59) && answer == Ok(2) && disk.file(0).len() == 125 && after == Ok(3))
}

#[test]
fn bytes_behind_the_closed_gate_are_no_entries(rt: HostRuntime) -> Result<(), Fail> {
    assert!(rt; stays_closed(rt.alloc())?);
    Ok(())
}

// A device to which both entries were appended.
fn appended(alloc: Global) -> Result<MemDisk, Fail> {
    let mut log = created(alloc, Vec::new(alloc))?;
    let first = append(alloc, &mut log, &SETTINGS)?;
    let second = append(alloc, &mut log, &INSERTION)?;
    if (first, second) != (0, 1) {
        return Err(Failed.into());
    }
    let mut disk = log.close();
    disk.sync()?;
    Ok(disk)
}

// A stop in this call of twelve leaves so many entries.
fn leaves(
    alloc: Global,
    disk: &MemDisk,
    call: usize,
    choice: u64,
    want: u64,
) -> Result<bool, Fail> {
    if call >= disk.calls().len() || disk.calls().len() != 12 {
        return Ok(false);
    }
    let image = disk.pick_image(call, choice)?;
    Ok(found(alloc, image.file(0).to_vec(alloc)?)? == Ok(want))
}

// A gate that a number leaves as 01 is open.
const OPEN: [u64; 16] = [1, 1, 1, 2, 1, 1, 1, 2, 2, 2, 2, 2, 1, 1, 1, 2];

fn old_or_new(alloc: Global, disk: &MemDisk) -> Result<bool, Fail> {
    for (choice, opened) in OPEN.iter().enumerate() {
        for (call, want) in [(7, 1), (8, 1), (9, *opened), (10, *opened), (11, 2)] {
            if !leaves(alloc, disk, call, choice as u64, want)? {
                return Ok(false);
            }
        }
    }
    Ok(true)
}

#[test]
fn a_stop_in_each_call_of_an_append_leaves_the_old_entries_or_the_new(
    rt: HostRuntime,
) -> Result<(), Fail> {
    let disk = appended(rt.alloc())?;
    assert!(rt; old_or_new(rt.alloc(), &disk)?);
    Ok(())
}

// Where this call of an append fails, an opening finds so many entries.
fn keeps(alloc: Global, kind: Kind, number: u64, entries: u64) -> Result<bool, Fail> {
    let fails = vec![in alloc; (kind, number)]?;
    let mut log = created(alloc, fails)?;
    let answer = log.append(&framed(alloc, &SETTINGS)?);
    let faults = log.faults();
    let count = match open_log(alloc, log.close(), MAGIC, 1000) {
        Ok(log) => log.count(),
        Err((error, _)) => return Err(error.into()),
    };
    Ok(answer == Err(AppendError::DiskFault) && (faults, count) == (1, entries))
}

#[test]
fn a_failing_call_of_an_append_leaves_a_log(rt: HostRuntime) -> Result<(), Fail> {
    assert!(rt; keeps(rt.alloc(), Kind::Write, 2, 0)?);
    assert!(rt; keeps(rt.alloc(), Kind::Sync, 2, 0)?);
    assert!(rt; keeps(rt.alloc(), Kind::Write, 3, 0)?);
    assert!(rt; keeps(rt.alloc(), Kind::Sync, 3, 1)?);
    Ok(())
}

fn fails_to_open(alloc: Global, kind: Kind) -> Result<bool, Fail> {
    let files = vec![in alloc; BYTES.to_vec(alloc)?]?;
    let fails = vec![in alloc; (kind, 1)]?;
    let disk = MemDisk::from_files(alloc, files, fails)?;
    let (answer, disk) = match open_log(alloc, disk, MAGIC, 1000) {
        Ok(log) => (None, log.close()),
        Err((error, disk)) => (Some(error), disk),
    };
    Ok(
        answer == Some(OpenError::DiskFault)
            && disk.faults() == 1
            && disk.file(0) == BYTES.as_slice(),
    )
}

#[test]
fn a_failing_call_of_an_opening_is_a_fault(rt: HostRuntime) -> Result<(), Fail> {
    assert!(rt; fails_to_open(rt.alloc(), Kind::Sync)?);
    assert!(rt; fails_to_open(rt.alloc(), Kind::Len)?);
    assert!(rt; fails_to_open(rt.alloc(), Kind::Read)?);
    Ok(())
}

fn fails_to_create(alloc: Global, kind: Kind) -> Result<bool, Fail> {
    let fails = vec![in alloc; (kind, 1)]?;
    let disk = MemDisk::from_files(alloc, Vec::new(alloc), fails)?;
    let (made, disk) = match create_log(disk, MAGIC, 1000) {
        Ok(log) => (true, log.close()),
        Err((_, disk)) => (false, disk),
    };
    Ok((made, disk.faults()) == (false, 1))
}

#[test]
fn a_failing_call_of_a_creation_is_a_fault(rt: HostRuntime) -> Result<(), Fail> {
    assert!(rt; fails_to_create(rt.alloc(), Kind::Cut)?);
    assert!(rt; fails_to_create(rt.alloc(), Kind::Write)?);
    assert!(rt; fails_to_create(rt.alloc(), Kind::Sync)?);
    Ok(())
}

// A gate stands at 8, and a payload with its length behind it.
fn is_append(calls: &[Call]) -> bool {
    matches!(
        calls,
        [
            _,
            _,
            _,
            Call::Write { at: 9, .. },
            Call::Sync { .. },
            Call::Write { at: 8, .. },
            Call::Sync { .. },
        ]
    )
}

fn is_opening(calls: &[Call]) -> bool {
    matches!(
        calls,
        [Call::Sync { .. }, Call::Len { .. }, Call::Read { .. }]
    )
}

fn makes_four_calls(alloc: Global) -> Result<bool, Fail> {
    let mut log = created(alloc, Vec::new(alloc))?;
    log.append(&framed(alloc, b"")?)?;
    let disk = log.close();
    let is_append = is_append(disk.calls());
    let disk = match open_log(alloc, disk, MAGIC, 1000) {
        Ok(log) => log.close(),
        Err((error, _)) => return Err(error.into()),
    };
    let calls = disk.calls();
    Ok(is_append && calls.len() == 10 && is_opening(&calls[7..]))
}

#[test]
fn an_append_makes_four_calls_and_an_opening_writes_nothing(rt: HostRuntime) -> Result<(), Fail> {
    assert!(rt; makes_four_calls(rt.alloc())?);
    Ok(())
}

fn are_two_reads(calls: &[Call]) -> bool {
    matches!(calls, [_, _, Call::Read { .. }, Call::Read { .. }])
}

fn are_read_at_once(alloc: Global) -> Result<bool, Fail> {
    let files = vec![in alloc; BYTES.to_vec(alloc)?]?;
    let disk = MemDisk::from_files(alloc, files, Vec::new(alloc))?;
    let mut records = match read_records(alloc, disk, MAGIC) {
        Ok(records) => records,
        Err((error, _)) => return Err(error.into()),
    };
    if records.count() != 2 {
        return Ok(false);
    }
    let first = records.entry_at(0)?;
    let second = records.entry_at(1)?;
    let disk = records.close();
    Ok(
        first.as_slice() == SETTINGS.as_slice()
            && second.as_slice() == INSERTION.as_slice()
            && are_two_reads(disk.calls()),
    )
}

#[test]
fn payloads_of_one_stretch_are_read_at_once(rt: HostRuntime) -> Result<(), Fail> {
    assert!(rt; are_read_at_once(rt.alloc())?);
    Ok(())
}

// The error prints this.
fn tells<E: Display>(alloc: Global, error: &E, text: &str) -> Result<bool, Fail> {
    let printed = format!(in alloc; "{error}")?;
    Ok(printed.as_str() == text)
}

#[test]
fn an_opening_tells_why_it_failed(rt: HostRuntime) -> Result<(), Fail> {
    let alloc = rt.alloc();
    assert!(rt; tells(alloc, &OpenError::NoMemory, "out of memory")?);
    assert!(rt; tells(alloc, &OpenError::Damaged { at: 33 }, "damaged at 33")?);
    assert!(rt; tells(alloc, &OpenError::DiskFault, "disk fault")?);
    Ok(())
}

#[test]
fn a_call_of_a_log_tells_why_it_failed(rt: HostRuntime) -> Result<(), Fail> {
    let alloc = rt.alloc();
    assert!(rt; tells(alloc, &AppendError::LogFull { end: 84 }, "log full at 84")?);
    assert!(rt; tells(alloc, &AppendError::DiskFault, "disk fault")?);
    assert!(rt; tells(alloc, &EntryError::NoMemory, "out of memory")?);
    assert!(rt; tells(alloc, &EntryError::DiskFault, "disk fault")?);
    Ok(())
}
