use std::fs::{File, OpenOptions, TryLockError};
use std::io;
use std::io::ErrorKind;
use std::path::PathBuf;
use std::rt::Files;
use std::sync::OnceLock;
use std::sync::atomic::{AtomicBool, Ordering};

// The lock on a folder, which both devices of it share: an exclusive `flock` on `rows.log`, held
// while a device lives.
//
// Where the file isn't there at the first look, it is made as the lock is taken, and only if it
// still isn't there: what another process has made since is left to that process.
#[derive(Drop)]
pub struct Lock {
    path: PathBuf,
    was_absent: AtomicBool,
    held: OnceLock<File>,
}

impl Lock {
    // The lock on this file. No file of the system is touched.
    pub fn new(path: PathBuf) -> Lock {
        Lock {
            path,
            was_absent: AtomicBool::new(false),
            held: OnceLock::new(),
        }
    }

    // The file's path.
    pub fn name(&self) -> &str {
        self.path.as_str()
    }

    // The file, where the lock is held.
    pub fn file(&self) -> Option<&File> {
        self.held.get()
    }

    // Takes the lock, if the file is there at the first look.
    pub fn look<R: Files<File = File>>(&self, rt: &R) -> io::Result<()> {
        if self.file().is_some() || self.was_absent.load(Ordering::SeqCst) {
            return Ok(());
        }
        match open_existing(rt, &self.path) {
            Ok(file) => self.hold(file),
            Err(e) if e.kind() == ErrorKind::NotFound => {
                self.was_absent.store(true, Ordering::SeqCst);
                Ok(())
            }
            Err(e) => Err(e),
        }
    }

    // Takes the lock, and makes the file, which wasn't there. The folder is there.
    pub fn make<R: Files<File = File>>(&self, rt: &R) -> io::Result<()> {
        self.hold(make_new(rt, &self.path)?)
    }

    // Holds the file that was just opened, unless another process holds it.
    fn hold(&self, file: File) -> io::Result<()> {
        match file.try_lock() {
            Ok(()) => {}
            Err(TryLockError::WouldBlock) => {
                return Err(io::Error::new(ErrorKind::WouldBlock, "in use by another process"));
            }
            Err(TryLockError::Error(e)) => return Err(e),
        }
        match self.held.try_set(file) {
            Ok(_) => Ok(()),
            Err(_) => Err(io::Error::from(ErrorKind::ResourceBusy)),
        }
    }
}

// Opens a file that is there, to be read and written.
pub fn open_existing<R: Files<File = File>>(rt: &R, path: &PathBuf) -> io::Result<File> {
    OpenOptions::new().read(true).write(true).open(rt, path)
}

// Makes a file that isn't there, and opens it to be read and written.
pub fn make_new<R: Files<File = File>>(rt: &R, path: &PathBuf) -> io::Result<File> {
    OpenOptions::new()
        .read(true)
        .write(true)
        .create_new(true)
        .open(rt, path)
}
