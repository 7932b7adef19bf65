ghost use Rattle.std.specs.Prelude.{◌≡◌, ◌^◌, ◌<◌, ◌≤◌, [], false, length};
ghost use Rattle.std.specs.Prelude.{IfOk, OnOk, IsErr, IsSome};
ghost use Rattle.fts_faults.specs.Count.{HasCause};

use crate::faults::Faults;
use crate::file::HostFile;
use crate::folder::{Folder, LOCK_NAME};
use crate::refusal::{Fault, Place, Refusal, refused};
use fts_disk::{Disk, Failed};
use std::alloc::{AllocError, Global};
use std::fs::File;
use std::rt::Files;
use std::sync::Arc;

const ROWS_NAMES: [&str; 1] = ["rows.log"];

const INDEX_NAMES: [&str; 7] = [
    "index.log",
    "index_1",
    "index_2",
    "index_3",
    "index_4",
    "index_5",
    "index_6",
];

const ROWS_MAGIC: [u8; 8] = *b"FTSROWS1";

const INDEX_MAGIC: [u8; 8] = *b"FTSINDX1";

/// A device over the files of a folder. It tells nothing of its content, and counts each error of
/// the system.
///
/// - Making a device touches nothing. A file is opened at the first call that needs it. One that
///   isn't there has length 0, and is made at the first write to it, with the folder if that isn't
///   there (but not what the folder lies in). Once a file was found absent, one that another
///   process makes is left to that process: a write to it is a fault.
/// - Both devices of a folder share one lock, an exclusive `flock` on `rows.log`. The first call of
///   either takes it, if the file is there; else the first that writes or cuts makes the file and
///   takes it. It is held while a device lives. Where another process holds it, each call is a
///   fault, and writes and cuts nothing.
/// - A read or a write that reaches past the end as the `Disk` forbids it, a cut that lengthens, a
///   number without a file, and a folder without a name are faults.
/// - File 0 is a log. A cut of it to no bytes is a fault where it has more than 9 bytes and does
///   not begin with the device's magic, `FTSROWS1` or `FTSINDX1`: somebody else's file.
/// - A read and a write are made at a place, with no cursor, and go on until all bytes are through,
///   also after a short step or a signal. A write that fails may have written some.
/// - A sync has the system make durable (`fsync`) each file that was written or cut since the last
///   one, and after a file was made the folder and the one that it lies in. The first sync does so
///   for every file that is there, since a process that was stopped may have left bytes or names
///   that aren't durable. Once a sync has failed, whatever failed in it, each later one fails too.
#[derive(Drop)]
pub struct HostDisk<R> {
    rt: R,
    folder: Arc<Folder, Global>,
    files: Vec<HostFile>,
    magic: [u8; 8],
    failed_sync: Option<Fault>,
    faults: Faults<Fault>,
}

impl<R> HostDisk<R> {
    ghost use Rattle.fts_host.specs.Host.{host_faults, host_count};

    /// The device of rows and the device of the index of a folder, with no faults yet.
    ///
    /// File 0 of the first is `rows.log`. File 0 of the second is `index.log`, and files 1 to 6 are
    /// `index_1` to `index_6`.
    pub fn pair(
        alloc: Global,
        rows_rt: R,
        index_rt: R,
        folder: &str,
    ) -> Result<(HostDisk<R>, HostDisk<R>), AllocError>
    where
        R: Drop,
        ensures files { IfOk result (λ both. (host_count both.0 ≡ 1) × (host_count both.1 ≡ 7)) }
        ensures faults { IfOk result (λ both. (host_faults both.0 ≡ 0) × (host_faults both.1 ≡ 0)) }
    {
        let shared = Arc::new(alloc, Folder::new(alloc, folder)?)?;
        let other = Arc::try_clone(&shared)?;
        let rows = HostDisk::over(alloc, rows_rt, shared, &ROWS_NAMES, ROWS_MAGIC)?;
        let index = HostDisk::over(alloc, index_rt, other, &INDEX_NAMES, INDEX_MAGIC)?;
        Ok((rows, index))
    }

    /// The first call that failed, of those that `faults` counts.
    pub fn refusal(&self) -> Option<Refusal<'_>>
        ensures { 0 < host_faults self.now → IsSome result }
    {
        match self.faults.first {
            Some(fault) => Some(Refusal {
                what: self.name_of(fault.place),
                error: fault.error,
            }),
            None => None,
        }
    }

    // What a place is called.
    fn name_of(&self, place: Place) -> &str {
        match place {
            Place::File(number) => match self.files.get(number as usize) {
                Some(file) => file.name(),
                None => self.folder.name_of(place),
            },
            _ => self.folder.name_of(place),
        }
    }

    // A device over files of these names, the first of them a log with this magic.
    fn over(
        alloc: Global,
        rt: R,
        folder: Arc<Folder, Global>,
        names: &[&str],
        magic: [u8; 8],
    ) -> Result<HostDisk<R>, AllocError>
    where
        R: Drop,
        requires { length names.now < 16 }
        ensures files { IfOk result (λ disk. host_count disk ≡ length names.now) }
        ensures faults { IfOk result (λ disk. host_faults disk ≡ 0) }
    {
        let mut files = Vec::with_capacity(alloc, names.len())?;
        for name in names {
            let path = folder.join(alloc, name)?;
            files.push(HostFile::new(path, files.len() as u32, *name == LOCK_NAME))?;
        }
        Ok(HostDisk {
            rt,
            folder,
            files,
            magic,
            failed_sync: None,
            faults: Faults::none(),
        })
    }
}

impl<R: Files<File = File>> Disk for HostDisk<R> {
    ghost use Rattle.fts_host.specs.Host.{host_faults, host_count};

    ghost tells = { false };

    ghost seen = { λ _ _. [] };

    ghost images = { λ _ _. Unit {0} };

    ghost moment = { λ _. 0 };

    ghost left_since = { λ _ _ _. Unit {0} };

    ghost faults = { λ disk. host_faults disk };

    fn len(&mut self, file: u32) -> Result<u64, Failed>
        ensures small { IfOk result (λ n. n < 2 ^ 63) }
        ensures missing { host_count self.old ≤ file → IsErr result }
        ensures cause { HasCause (host_faults self.old) (host_faults self.new) result }
        ensures no_fault { OnOk result (host_faults self.new ≡ host_faults self.old) }
    {
        let length = match self.files.get_mut(file as usize) {
            Some(file) => file.len(&self.rt, &self.folder),
            None => Err(no_such_file()),
        };
        self.faults.counted(length)
    }

    fn read_at(&mut self, file: u32, at: u64, buf: &mut [u8]) -> Result<(), Failed>
        ensures missing { host_count self.old ≤ file → IsErr result }
        ensures cause { HasCause (host_faults self.old) (host_faults self.new) result }
        ensures no_fault { OnOk result (host_faults self.new ≡ host_faults self.old) }
    {
        let read = match self.files.get_mut(file as usize) {
            Some(file) => file.read_at(&self.rt, &self.folder, at, buf),
            None => Err(no_such_file()),
        };
        self.faults.counted(read)
    }

    fn write_at(&mut self, file: u32, at: u64, bytes: &[u8]) -> Result<(), Failed>
        ensures missing { host_count self.old ≤ file → IsErr result }
        ensures cause { HasCause (host_faults self.old) (host_faults self.new) result }
        ensures no_fault { OnOk result (host_faults self.new ≡ host_faults self.old) }
    {
        let written = match self.files.get_mut(file as usize) {
            Some(file) => file.write_at(&self.rt, &self.folder, at, bytes),
            None => Err(no_such_file()),
        };
        self.faults.counted(written)
    }

    fn cut(&mut self, file: u32, len: u64) -> Result<(), Failed>
        ensures missing { host_count self.old ≤ file → IsErr result }
        ensures cause { HasCause (host_faults self.old) (host_faults self.new) result }
        ensures no_fault { OnOk result (host_faults self.new ≡ host_faults self.old) }
    {
        let magic = if file == 0 { Some(self.magic) } else { None };
        let cut = match self.files.get_mut(file as usize) {
            Some(found) => cut_file(&self.rt, &self.folder, found, len, magic),
            None => Err(no_such_file()),
        };
        self.faults.counted(cut)
    }

    fn sync(&mut self) -> Result<(), Failed>
        ensures cause { HasCause (host_faults self.old) (host_faults self.new) result }
        ensures no_fault { OnOk result (host_faults self.new ≡ host_faults self.old) }
    {
        let synced = match self.failed_sync {
            Some(fault) => Err(fault),
            None => sync_all(&self.rt, &self.folder, &mut self.files),
        };
        if let Err(fault) = synced {
            self.failed_sync = Some(fault);
        }
        self.faults.counted(synced)
    }

    fn faults(&self) -> u64 {
        self.faults.count
    }

    ghost seen_may_stay = { λ _ _. tt };

    ghost counts_now = { λ _ _ _ _ _ _. tt };

    ghost only_now = { λ _ _ _ _. tt };
}

// Cuts a file. A log, which has a magic, is cut to none only if it is one of ours.
fn cut_file<R: Files<File = File>>(
    rt: &R,
    folder: &Folder,
    file: &mut HostFile,
    len: u64,
    magic: Option<[u8; 8]>,
) -> Result<(), Fault> {
    if len == 0 {
        if let Some(magic) = magic {
            file.refuse_foreign(rt, folder, &magic)?;
        }
    }
    file.cut(rt, folder, len)
}

// Makes all files durable, and then their names.
fn sync_all<R: Files<File = File>>(
    rt: &R,
    folder: &Folder,
    files: &mut [HostFile],
) -> Result<(), Fault> {
    for file in files.iter_mut() {
        file.sync(rt, folder)?;
    }
    folder.sync(rt)
}

// The device has no file of this number.
fn no_such_file() -> Fault {
    refused(Place::Folder, "no file of this number")
}
