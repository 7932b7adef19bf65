use crate::refusal::Refusal;
use std::fs::{File, OpenOptions};
use std::io;
use std::rt::Files;

const NULL_DEVICE: &str = "/dev/null";

/// The three standard streams, open as long as this lives.
///
/// The system gives a file that is opened the least number that is free. Where a program was
/// started with a standard stream closed, that is the stream's number, and what is said to the
/// stream then goes to the file. Three opens of the null device before all others take whichever of
/// the numbers 0, 1 and 2 are free.
#[derive(Drop)]
pub struct OpenStreams {
    _first: File,
    _second: File,
    _third: File,
}

impl OpenStreams {
    /// Opens what is closed. The first call of a program, before it opens anything else.
    ///
    /// # Errors
    ///
    /// The system's, where the null device can't be opened. A stream may then still be closed.
    pub fn hold<R: Files<File = File>>(rt: &R) -> Result<OpenStreams, Refusal<'static>> {
        match three_opens(rt) {
            Ok(streams) => Ok(streams),
            Err(error) => Err(Refusal {
                what: NULL_DEVICE,
                error,
            }),
        }
    }
}

fn three_opens<R: Files<File = File>>(rt: &R) -> io::Result<OpenStreams> {
    Ok(OpenStreams {
        _first: open_null(rt)?,
        _second: open_null(rt)?,
        _third: open_null(rt)?,
    })
}

fn open_null<R: Files<File = File>>(rt: &R) -> io::Result<File> {
    OpenOptions::new()
        .read(true)
        .write(true)
        .open(rt, NULL_DEVICE)
}
