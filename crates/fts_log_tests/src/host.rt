mod barred;

use barred::Barred;
use fts_disk::{Disk, Failed};
use fts_host::{HostDisk, Refusal, StdSink, StdSource};
use fts_io::{Sink, Source};
use std::alloc::Global;
use std::os::unix::fs::symlink;
use std::path::PathBuf;
use std::test::Fail;
use std::{env, fs, process};

// A folder of this name and process below the temporary folder, which isn't there.
fn fresh(rt: HostRuntime, name: &str) -> Result<PathBuf, Fail> {
    let alloc = rt.alloc();
    let name = format!(in alloc; "{name}_{}", process::id(rt.process()))?;
    let folder = env::temp_dir(&rt)?.join(alloc, name)?;
    if folder.exists(&rt) {
        fs::remove_dir_all(&rt, &folder)?;
    }
    Ok(folder)
}

type Device = HostDisk<HostRuntime>;

fn devices(rt: HostRuntime, folder: &PathBuf) -> Result<(Device, Device), Fail> {
    Ok(HostDisk::pair(rt.alloc(), rt, rt, folder.as_str())?)
}

// The file of the folder has these bytes.
fn holds(rt: HostRuntime, folder: &PathBuf, name: &str, bytes: &[u8]) -> Result<bool, Fail> {
    let text = fs::read(&rt, folder.join(rt.alloc(), name)?)?;
    Ok(text.as_slice() == bytes)
}

fn takes_send<T: Send>(_disk: &T) {}

// Calls that find nothing make nothing.
fn leaves_no_folder(rt: HostRuntime, folder: &PathBuf, index: &mut Device) -> Result<bool, Fail> {
    index.sync()?;
    let len = index.len(0)?;
    index.cut(3, 0)?;
    Ok(len == 0 && !folder.exists(&rt))
}

fn write_two_files(index: &mut Device) -> Result<(), Fail> {
    index.write_at(0, 0, b"abcdef")?;
    index.write_at(0, 4, b"XYZ")?;
    index.write_at(6, 0, b"six")?;
    index.cut(0, 6)?;
    index.sync()?;
    index.sync()?;
    Ok(())
}

fn is_made_and_written(rt: HostRuntime, folder: &PathBuf) -> Result<bool, Fail> {
    let (_rows, mut index) = devices(rt, folder)?;
    takes_send(&index);
    let before = leaves_no_folder(rt, folder, &mut index)?;
    write_two_files(&mut index)?;
    let first = holds(rt, folder, "index.log", b"abcdXY")?;
    let sixth = holds(rt, folder, "index_6", b"six")?;
    let other = folder.join(rt.alloc(), "index_1")?.exists(&rt);
    Ok(before && first && sixth && !other && index.faults() == 0)
}

fn is_read_again(rt: HostRuntime, folder: &PathBuf) -> Result<bool, Fail> {
    let (_rows, mut index) = devices(rt, folder)?;
    let mut middle = [0u8; 3];
    index.sync()?;
    index.read_at(0, 3, &mut middle)?;
    let len = index.len(0)?;
    Ok(middle == *b"dXY" && len == 6 && refuses(&mut index)? && index.len(0)? == 6)
}

// A read past the end, a write past the end, a cut that lengthens, and a file that the device
// doesn't have.
fn refuses(index: &mut Device) -> Result<bool, Fail> {
    let mut middle = [0u8; 3];
    let read = index.read_at(0, 4, &mut middle);
    let written = index.write_at(0, 7, b"z");
    let cut = index.cut(0, 7);
    let len = index.len(7);
    Ok(
        [read, written, cut] == [Err(Failed), Err(Failed), Err(Failed)]
            && len == Err(Failed)
            && index.faults() == 4,
    )
}

#[test]
fn a_folder_is_made_written_read_and_cut(rt: HostRuntime) -> Result<(), Fail> {
    let folder = fresh(rt, "fts_host_index")?;
    assert!(rt; is_made_and_written(rt, &folder)?);
    assert!(rt; is_read_again(rt, &folder)?);
    fs::remove_dir_all(&rt, &folder)?;
    Ok(())
}

fn are_held(rows: &mut Device, index: &mut Device) -> bool {
    let written = index.write_at(0, 0, b"late");
    let answers = [rows.sync(), rows.write_at(0, 0, b"late"), rows.cut(0, 0)];
    written == Err(Failed)
        && answers == [Err(Failed), Err(Failed), Err(Failed)]
        && rows.faults() == 3
}

fn one_holds_both(rt: HostRuntime, folder: &PathBuf) -> Result<bool, Fail> {
    let (mut held, mut held_index) = devices(rt, folder)?;
    let (mut early, early_index) = devices(rt, folder)?;
    let absent = early.len(0)?;
    held_index.write_at(0, 0, b"index")?;

    let (mut late, mut late_index) = devices(rt, folder)?;
    let are_held = are_held(&mut late, &mut late_index);
    held.write_at(0, 0, b"rows")?;
    let is_written = holds(rt, folder, "rows.log", b"rows")?;

    drop(held);
    drop(held_index);
    // What was absent at the first look stays that of whoever made it.
    let made = early.write_at(0, 0, b"early");
    drop(early_index);
    let len = late.len(0)?;
    // What was refused once stays so of a sync.
    let again = late.sync();
    Ok(
        (absent, len) == (0, 4)
            && are_held
            && is_written
            && [made, again] == [Err(Failed), Err(Failed)],
    )
}

#[test]
fn one_process_holds_both_logs(rt: HostRuntime) -> Result<(), Fail> {
    let folder = fresh(rt, "fts_host_rows")?;
    assert!(rt; one_holds_both(rt, &folder)?);
    fs::remove_dir_all(&rt, &folder)?;
    Ok(())
}

// A sync of a file that was a folder then.
fn stays_failed(rt: HostRuntime, folder: &PathBuf) -> Result<bool, Fail> {
    let alloc = rt.alloc();
    let log = folder.join(alloc, "index.log")?;
    fs::create_dir_all(&rt, &log)?;
    let (mut rows, mut index) = devices(rt, folder)?;
    let first = index.sync();
    let why = told(alloc, index.refusal())?;
    fs::remove_dir(&rt, &log)?;
    let len = index.len(0)?;
    let second = index.sync();
    rows.sync()?;
    Ok(
        [first, second] == [Err(Failed), Err(Failed)]
            && why.ends_with("/index.log: Is a directory (os error 21)")
            && len == 0,
    )
}

#[test]
fn a_sync_that_failed_is_final(rt: HostRuntime) -> Result<(), Fail> {
    let folder = fresh(rt, "fts_host_sync")?;
    assert!(rt; stays_failed(rt, &folder)?);
    fs::remove_dir_all(&rt, &folder)?;
    Ok(())
}

// A sync while the folder can't be opened, and two behind it.
fn stays_barred(rt: HostRuntime, folder: &PathBuf, bar: &PathBuf) -> Result<bool, Fail> {
    let (near, far) = (Barred::new(rt, bar)?, Barred::new(rt, bar)?);
    let (mut rows, mut index) = HostDisk::pair(rt.alloc(), near, far, folder.as_str())?;
    rows.sync()?;
    fs::create_dir(&rt, bar)?;
    rows.write_at(0, 0, b"rows")?;
    let barred = rows.sync();
    fs::remove_dir(&rt, bar)?;
    let answers = [barred, rows.sync(), index.sync()];
    Ok(answers == [Err(Failed), Err(Failed), Err(Failed)])
}

#[test]
fn a_sync_of_the_folder_that_failed_is_final(rt: HostRuntime) -> Result<(), Fail> {
    let folder = fresh(rt, "fts_host_folder")?;
    let bar = fresh(rt, "fts_host_bar")?;
    assert!(rt; stays_barred(rt, &folder, &bar)?);
    fs::remove_dir_all(&rt, &folder)?;
    Ok(())
}

// A rows log of these bytes is cut to nothing, or it is refused and stays.
fn is_cut(rt: HostRuntime, log: &PathBuf, folder: &PathBuf, bytes: &[u8]) -> Result<bool, Fail> {
    fs::write(&rt, log, bytes)?;
    let (mut rows, _index) = devices(rt, folder)?;
    let is_cut = rows.cut(0, 0).is_ok();
    if fs::read(&rt, log)?.is_empty() != is_cut {
        return Err(Failed.into());
    }
    Ok(is_cut)
}

// An index log is cut where its magic is its own, and the rows log is made then.
fn index_is_cut(rt: HostRuntime, rows: &PathBuf, folder: &PathBuf) -> Result<bool, Fail> {
    let log = folder.join(rt.alloc(), "index.log")?;
    let (_rows, mut index) = devices(rt, folder)?;
    fs::write(&rt, &log, b"FTSROWS1\x00more")?;
    let refused = index.cut(0, 0);
    fs::write(&rt, &log, b"FTSINDX1\x00more")?;
    let before = rows.exists(&rt);
    index.cut(0, 0)?;
    Ok(refused == Err(Failed) && (before, rows.exists(&rt)) == (false, true))
}

#[test]
fn a_file_that_is_no_log_of_ours_is_not_cut(rt: HostRuntime) -> Result<(), Fail> {
    let folder = fresh(rt, "fts_host_cut")?;
    fs::create_dir(&rt, &folder)?;
    let log = folder.join(rt.alloc(), "rows.log")?;
    assert!(rt; is_cut(rt, &log, &folder, b"FTSROWS1\x00more")?);
    assert!(rt; is_cut(rt, &log, &folder, b"FTSROWS2\x00")?);
    assert!(rt; !is_cut(rt, &log, &folder, b"FTSROWS2\x00m")?);
    assert!(rt; !is_cut(rt, &log, &folder, b"FTSINDX1\x00more")?);
    fs::remove_file(&rt, &log)?;
    assert!(rt; index_is_cut(rt, &log, &folder)?);
    fs::remove_dir_all(&rt, &folder)?;
    Ok(())
}

// A folder without a name, which the rows device meets.
fn no_name_is_told(rt: HostRuntime) -> Result<bool, Fail> {
    let (mut rows, _index) = HostDisk::pair(rt.alloc(), rt, rt, "")?;
    let before = rows.refusal().is_none();
    let len = rows.len(0);
    let why = told(rt.alloc(), rows.refusal())?;
    Ok(before && len == Err(Failed) && why.as_str() == "'': not a folder's name")
}

// A folder that can't be, which the index device meets twice.
fn first_is_told(rt: HostRuntime) -> Result<bool, Fail> {
    let (rows, mut index) = HostDisk::pair(rt.alloc(), rt, rt, "/dev/null/nowhere")?;
    let lens = [index.len(2), index.len(9)];
    let why = told(rt.alloc(), index.refusal())?;
    Ok(
        lens == [Err(Failed), Err(Failed)]
            && why.as_str() == "/dev/null/nowhere/rows.log: Not a directory (os error 20)"
            && rows.refusal().is_none(),
    )
}

#[test]
fn a_refusal_says_where_and_why(rt: HostRuntime) -> Result<(), Fail> {
    assert!(rt; no_name_is_told(rt)?);
    assert!(rt; first_is_told(rt)?);
    Ok(())
}

// The end of this index log is no place that can be sought.
fn has_no_length(rt: HostRuntime, folder: &PathBuf) -> Result<bool, Fail> {
    let alloc = rt.alloc();
    symlink(&rt, "/proc/self/mem", folder.join(alloc, "index.log")?)?;
    let (_rows, mut index) = devices(rt, folder)?;
    let len = index.len(0);
    let why = told(alloc, index.refusal())?;
    Ok(len == Err(Failed) && index.faults() == 1 && why.contains("/index.log: "))
}

#[test]
fn a_length_that_the_system_refuses_is_a_fault(rt: HostRuntime) -> Result<(), Fail> {
    let folder = fresh(rt, "fts_host_length")?;
    fs::create_dir(&rt, &folder)?;
    assert!(rt; has_no_length(rt, &folder)?);
    fs::remove_dir_all(&rt, &folder)?;
    Ok(())
}

fn told(alloc: Global, refusal: Option<Refusal<'_>>) -> Result<String, Fail> {
    match refusal {
        Some(refusal) => Ok(format!(in alloc; "{refusal}")?),
        None => Ok(String::new(alloc)),
    }
}

fn is_written_and_read(rt: HostRuntime, path: &PathBuf) -> Result<bool, Fail> {
    let mut sink = StdSink::new(fs::create(&rt, path)?);
    let written = sink.write(b"line\n")?;
    let mut source = StdSource::new(fs::open(&rt, path)?);
    let mut buf = [0u8; 8];
    let read = source.read(&mut buf)?;
    let is_line = buf.starts_with(b"line\n");
    Ok((written, read) == (5, 5) && is_line && source.read(&mut buf)? == 0)
}

// A file that is open to be read alone refuses a write.
fn is_not_written(rt: HostRuntime, path: &PathBuf) -> Result<bool, Fail> {
    let mut closed = StdSink::new(fs::open(&rt, path)?);
    let written = closed.write(b"x");
    let why = told(rt.alloc(), closed.refusal())?;
    Ok(
        written == Err(Failed)
            && why.as_str() == "standard output: Bad file descriptor (os error 9)",
    )
}

// A folder is no stream.
fn is_not_read(rt: HostRuntime, folder: &PathBuf) -> Result<bool, Fail> {
    let mut directory = StdSource::new(fs::open(&rt, folder)?);
    let mut buf = [0u8; 8];
    Ok(directory.read(&mut buf) == Err(Failed))
}

#[test]
fn streams_of_std_are_read_and_written(rt: HostRuntime) -> Result<(), Fail> {
    let folder = fresh(rt, "fts_host_streams")?;
    fs::create_dir(&rt, &folder)?;
    let path = folder.join(rt.alloc(), "stream")?;
    assert!(rt; is_written_and_read(rt, &path)?);
    assert!(rt; is_not_written(rt, &path)?);
    assert!(rt; is_not_read(rt, &folder)?);
    fs::remove_dir_all(&rt, &folder)?;
    Ok(())
}
