ghost use Rattle.std.specs.Prelude.{◌≡◌, Some};
ghost use Rattle.fts_top.specs.Number.{number_of};
ghost use Rattle.fts_top.specs.StatusText.{status_text};

use fts_engine::Device;
use std::fmt;

/// How a call of the program ends.
#[derive(Clone, Copy, Debug, PartialEq, Eq)]
pub enum Status {
    /// All was done, and the script was read to its end.
    Done,
    /// Memory ran out.
    NoMemory,
    /// The words are no command.
    Usage,
    /// The source of the script failed.
    ReadFault,
    /// The sink of the replies failed.
    WriteFault,
    /// A device failed.
    DiskFault,
    /// No database was created on the devices.
    NotCreated,
    /// A database was created on the devices before.
    AlreadyCreated,
    /// The bytes of a device are no database. `at` is a place in its file, from 0.
    Damaged { device: Device, file: u32, at: u64 },
    /// The script has more than 2^40 bytes. `lines` and `bytes` were taken.
    ScriptTooLong { lines: u64, bytes: u64 },
    /// A line of the script was the first of a 17th session, which has this number.
    TooManySessions { session: u32 },
}

impl Status {
    /// The number with which the program ends.
    pub fn number(&self) -> u8
        ensures { result ≡ number_of self.now }
    {
        match self {
            Status::Done => 0,
            Status::NoMemory => 1,
            Status::Usage => 2,
            Status::ReadFault => 3,
            Status::WriteFault => 4,
            Status::DiskFault => 5,
            Status::NotCreated => 6,
            Status::AlreadyCreated => 7,
            Status::Damaged { .. } => 8,
            Status::ScriptTooLong { .. } => 9,
            Status::TooManySessions { .. } => 10,
        }
    }
}

impl fmt::Display for Status {
    ghost output = { λ status. Some (status_text status) };

    fn fmt<W: fmt::Write>(&self, f: &mut fmt::Formatter<W>) -> fmt::Result {
        match self {
            Status::Done => write!(f, "done"),
            Status::NoMemory => write!(f, "no memory"),
            Status::Usage => write!(f, "usage: fts DIR create|run|serve|gen .."),
            Status::ReadFault => write!(f, "read fault"),
            Status::WriteFault => write!(f, "write fault"),
            Status::DiskFault => write!(f, "disk fault"),
            Status::NotCreated => write!(f, "not created"),
            Status::AlreadyCreated => write!(f, "already created"),
            Status::Damaged { device, file, at } => write!(
                f,
                "damaged {device} file {file} at {at}"
            ),
            Status::ScriptTooLong { .. } => write!(f, "script too long"),
            Status::TooManySessions { .. } => write!(f, "too many sessions"),
        }
    }
}
