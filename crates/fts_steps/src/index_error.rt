ghost use Rattle.std.specs.Prelude.{◌≡◌};
ghost use Rattle.fts_steps.specs.declared.index_error.IndexError.TheVariants.{NoMemory};

use std::alloc::AllocError;
use std::error::Error;
use std::fmt;

/// Why a step of the index, a batch or one of OPTIMIZE, was not made.
#[derive(Clone, Copy, Debug, PartialEq, Eq)]
pub enum IndexError {
    /// Memory ran out, before the device was touched. Nothing changed.
    NoMemory,
    /// The index log would end at this place, which is past its limit. Nothing changed.
    LogFull { end: u64 },
    /// A device failed, and the devices' counts of faults are now `faults` together. Whether the
    /// step is in the log is open until the log is opened again.
    DiskFault { faults: u128 },
    /// A device failed in an earlier writing step, after which the devices' counts of faults were
    /// `faults` together. Nothing changed.
    Stopped { faults: u128 },
}

impl fmt::Display for IndexError {
    fn fmt<W: fmt::Write>(&self, f: &mut fmt::Formatter<W>) -> fmt::Result {
        match self {
            IndexError::NoMemory => write!(f, "no memory"),
            IndexError::LogFull { end } => write!(f, "log full at {end}"),
            IndexError::DiskFault { .. } => write!(f, "disk fault"),
            IndexError::Stopped { faults } => write!(f, "stopped after {faults} disk faults"),
        }
    }
}

impl Error for IndexError {}

impl From<AllocError> for IndexError {
    ghost from_gives = { λ _ e. e ≡ NoMemory };

    fn from(_: AllocError) -> Self {
        IndexError::NoMemory
    }
}
