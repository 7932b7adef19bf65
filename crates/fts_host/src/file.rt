ghost use Rattle.std.specs.Prelude.{◌<◌, ◌^◌, IfOk};

use crate::folder::Folder;
use crate::lock::{make_new, open_existing};
use crate::refusal::{Fault, Place, refused};
use std::fs::File;
use std::io;
use std::io::{ErrorKind, Seek, SeekFrom};
use std::os::unix::fs::FileExt;
use std::path::PathBuf;
use std::rt::Files;

// How many bytes a file may have and still be cut to none whatever they are: a magic and a closed
// gate. A making that was cut short leaves no more.
const BEGUN: u64 = 9;

// Whether the file is there, as far as it was looked for.
#[derive(Debug, Drop)]
enum State {
    Unopened,
    Absent,
    Open(File),
    // The file that the lock holds: it is there where the lock is held.
    Locked,
}

// A file of a device. It is opened at the first call that needs it, and made at the first write.
#[derive(Debug, Drop)]
pub struct HostFile {
    path: PathBuf,
    number: u32,
    state: State,
    // Whether it may hold bytes that aren't durable.
    is_pending: bool,
}

impl HostFile {
    // The file of this number at a path.
    pub fn new(path: PathBuf, number: u32, is_lock: bool) -> HostFile {
        HostFile {
            path,
            number,
            state: if is_lock {
                State::Locked
            } else {
                State::Unopened
            },
            // What another process left may not be durable.
            is_pending: true,
        }
    }

    // The file's path.
    pub fn name(&self) -> &str {
        self.path.as_str()
    }

    // Its length in bytes, which is 0 where it isn't there.
    pub fn len<R: Files<File = File>>(&mut self, rt: &R, folder: &Folder) -> Result<u64, Fault>
        ensures { IfOk result (λ n. n < 2 ^ 63) }
    {
        self.find(rt, folder)?;
        match self.opened(folder) {
            Some(file) => length_of(file, self.number),
            None => Ok(0),
        }
    }

    // Fills the buffer with the bytes from a place on. One that reaches past the end is refused.
    pub fn read_at<R: Files<File = File>>(
        &mut self,
        rt: &R,
        folder: &Folder,
        at: u64,
        buf: &mut [u8],
    ) -> Result<(), Fault> {
        let length = self.len(rt, folder)?;
        if length < at || length - at < buf.len() as u64 {
            return Err(self.fault(io::Error::from(ErrorKind::UnexpectedEof)));
        }
        match self.opened(folder) {
            Some(file) => file.read_exact_at(buf, at).map_err(|e| self.fault(e)),
            None => Ok(()),
        }
    }

    // Writes from a place on, which is at most the length. It makes the file, and the folder, if
    // they aren't there.
    pub fn write_at<R: Files<File = File>>(
        &mut self,
        rt: &R,
        folder: &Folder,
        at: u64,
        bytes: &[u8],
    ) -> Result<(), Fault> {
        if self.len(rt, folder)? < at {
            return Err(self.fault(io::Error::from(ErrorKind::InvalidInput)));
        }
        self.make(rt, folder)?;
        self.is_pending = true;
        match self.opened(folder) {
            Some(file) => file.write_all_at(bytes, at).map_err(|e| self.fault(e)),
            None => Err(self.fault(io::Error::from(ErrorKind::NotFound))),
        }
    }

    // Cuts the file to a length, which is at most its own.
    pub fn cut<R: Files<File = File>>(
        &mut self,
        rt: &R,
        folder: &Folder,
        len: u64,
    ) -> Result<(), Fault> {
        if self.len(rt, folder)? < len {
            return Err(self.fault(io::Error::from(ErrorKind::InvalidInput)));
        }
        if self.opened(folder).is_none() {
            return Ok(());
        }
        folder.hold(rt)?;
        self.is_pending = true;
        match self.opened(folder) {
            Some(file) => file.set_len(len).map_err(|e| self.fault(e)),
            None => Ok(()),
        }
    }

    // Refuses a file that has more bytes than a log that was just made, and does not begin as a log
    // with this magic.
    pub fn refuse_foreign<R: Files<File = File>>(
        &mut self,
        rt: &R,
        folder: &Folder,
        magic: &[u8; 8],
    ) -> Result<(), Fault> {
        if self.len(rt, folder)? <= BEGUN {
            return Ok(());
        }
        let mut front = [0u8; 8];
        self.read_at(rt, folder, 0, &mut front)?;
        if front != *magic {
            return Err(refused(Place::File(self.number), "not a log of fts"));
        }
        Ok(())
    }

    // Makes the file's bytes durable, if some may not be.
    pub fn sync<R: Files<File = File>>(&mut self, rt: &R, folder: &Folder) -> Result<(), Fault> {
        if !self.is_pending {
            return Ok(());
        }
        self.find(rt, folder)?;
        if let Some(file) = self.opened(folder) {
            file.sync_all().map_err(|e| self.fault(e))?;
        }
        self.is_pending = false;
        Ok(())
    }

    // Opens the file, if it wasn't looked for yet, and takes the lock before.
    fn find<R: Files<File = File>>(&mut self, rt: &R, folder: &Folder) -> Result<(), Fault> {
        folder.look(rt)?;
        if let State::Unopened = self.state {
            self.state = match open_existing(rt, &self.path) {
                Ok(file) => State::Open(file),
                Err(e) if e.kind() == ErrorKind::NotFound => State::Absent,
                Err(e) => return Err(self.fault(e)),
            };
        }
        Ok(())
    }

    // Holds the lock, and makes the file, if it isn't there.
    fn make<R: Files<File = File>>(&mut self, rt: &R, folder: &Folder) -> Result<(), Fault> {
        folder.hold(rt)?;
        if let State::Absent = self.state {
            folder.make(rt)?;
            let file = make_new(rt, &self.path).map_err(|e| self.fault(e))?;
            self.state = State::Open(file);
        }
        Ok(())
    }

    // The file, where it is open.
    fn opened<'a>(&'a self, folder: &'a Folder) -> Option<&'a File> {
        match &self.state {
            State::Open(file) => Some(file),
            State::Locked => folder.locked_file(),
            State::Unopened | State::Absent => None,
        }
    }

    // An error of the system at this file.
    fn fault(&self, error: io::Error) -> Fault {
        Fault {
            place: Place::File(self.number),
            error,
        }
    }
}

// The file's length, which is below 2^63 bytes. It is the place of the file's end, which costs less
// than all that the system knows of the file; the cursor that moves there is nowhere used.
fn length_of(file: &File, number: u32) -> Result<u64, Fault>
    ensures { IfOk result (λ n. n < 2 ^ 63) }
{
    let place = Place::File(number);
    let mut cursor = file;
    let length = match cursor.seek(SeekFrom::End(0)) {
        Ok(length) => length,
        Err(error) => return Err(Fault { place, error }),
    };
    if length >= 1 << 63 {
        let error = io::Error::from(ErrorKind::InvalidData);
        return Err(Fault { place, error });
    }
    Ok(length)
}
