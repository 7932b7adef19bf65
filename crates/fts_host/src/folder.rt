use crate::lock::Lock;
use crate::refusal::{Fault, Place, refused};
use std::alloc::{AllocError, Global};
use std::fs::{File, OpenOptions};
use std::io::ErrorKind;
use std::path::{Path, PathBuf};
use std::rt::Files;
use std::sync::atomic::{AtomicBool, Ordering};
use std::{fs, io};

// The file that the lock is on.
pub const LOCK_NAME: &str = "rows.log";

// A folder, which both of its devices share: its lock, and whether its names are durable.
#[derive(Drop)]
pub struct Folder {
    path: PathBuf,
    parent: PathBuf,
    lock: Lock,
    // Whether names of files, or its own name, may not be durable.
    is_pending: AtomicBool,
    // Whether a sync of it failed. The system may then have dropped what was pending.
    is_lost: AtomicBool,
}

impl Folder {
    // The folder at a path. No file of the system is touched.
    pub fn new(alloc: Global, path: &str) -> Result<Folder, AllocError> {
        let parent = match Path::new(path).parent() {
            Some(parent) if !parent.as_str().is_empty() => parent.as_str(),
            _ => ".",
        };
        let path = PathBuf::from_str(alloc, path)?;
        Ok(Folder {
            lock: Lock::new(path.join(alloc, LOCK_NAME)?),
            path,
            parent: PathBuf::from_str(alloc, parent)?,
            is_pending: AtomicBool::new(true),
            is_lost: AtomicBool::new(false),
        })
    }

    // What a place other than a file is called.
    pub fn name_of(&self, place: Place) -> &str {
        match place {
            Place::Parent => self.parent.as_str(),
            Place::Lock => self.lock.name(),
            _ if self.path.as_str().is_empty() => "''",
            _ => self.path.as_str(),
        }
    }

    // The path of a file in it.
    pub fn join(&self, alloc: Global, name: &str) -> Result<PathBuf, AllocError> {
        self.path.join(alloc, name)
    }

    // The file that the lock holds, where it is held.
    pub fn locked_file(&self) -> Option<&File> {
        self.lock.file()
    }

    // Takes the lock, if it is there to be taken. A file is about to be looked at.
    pub fn look<R: Files<File = File>>(&self, rt: &R) -> Result<(), Fault> {
        if self.path.as_str().is_empty() {
            return Err(refused(Place::Folder, "not a folder's name"));
        }
        at_lock(self.lock.look(rt))
    }

    // Holds the lock, and makes the folder and the lock's file, if they aren't there. A file is
    // about to be changed.
    pub fn hold<R: Files<File = File>>(&self, rt: &R) -> Result<(), Fault> {
        if self.locked_file().is_some() {
            return Ok(());
        }
        self.make(rt)?;
        at_lock(self.lock.make(rt))
    }

    // Makes the folder, if it isn't there. A file is about to be made in it.
    pub fn make<R: Files>(&self, rt: &R) -> Result<(), Fault> {
        self.is_pending.store(true, Ordering::SeqCst);
        match fs::create_dir(rt, &self.path) {
            Err(e) if e.kind() != ErrorKind::AlreadyExists => Err(Fault {
                place: Place::Folder,
                error: e,
            }),
            _ => Ok(()),
        }
    }

    // Makes the names of its files, and its own name, durable, if some may not be. After a failure
    // no later sync succeeds, by whichever device.
    pub fn sync<R: Files<File = File>>(&self, rt: &R) -> Result<(), Fault> {
        if self.is_lost.load(Ordering::SeqCst) {
            return Err(refused(Place::Folder, "an earlier sync failed"));
        }
        if !self.is_pending.swap(false, Ordering::SeqCst) {
            return Ok(());
        }
        let synced = self.sync_names(rt);
        if synced.is_err() {
            self.is_lost.store(true, Ordering::SeqCst);
        }
        synced
    }

    // Makes the names in it durable, and then its own.
    fn sync_names<R: Files<File = File>>(&self, rt: &R) -> Result<(), Fault> {
        if sync_directory(rt, &self.path, Place::Folder)? {
            sync_directory(rt, &self.parent, Place::Parent)?;
        }
        Ok(())
    }
}

// Says of an error that it came at the lock.
fn at_lock(answer: io::Result<()>) -> Result<(), Fault> {
    match answer {
        Ok(()) => Ok(()),
        Err(error) => Err(Fault {
            place: Place::Lock,
            error,
        }),
    }
}

// Makes the names in a directory durable. Returns whether it is there.
fn sync_directory<R: Files<File = File>>(
    rt: &R,
    path: &PathBuf,
    place: Place,
) -> Result<bool, Fault> {
    match OpenOptions::new().read(true).open(rt, path) {
        Ok(directory) => match directory.sync_all() {
            Ok(()) => Ok(true),
            Err(error) => Err(Fault { place, error }),
        },
        Err(error) if error.kind() == ErrorKind::NotFound => Ok(false),
        Err(error) => Err(Fault { place, error }),
    }
}
