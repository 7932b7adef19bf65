ghost use Rattle.std.specs.Prelude.{◌≡◌};
ghost use Rattle.fts_steps.specs.declared.commit.CommitError.TheVariants.{NoMemory};

use fts_commits::Refusal;
use std::alloc::AllocError;
use std::error::Error;
use std::fmt;

/// Why a commit was refused.
#[derive(Clone, Copy, Debug, PartialEq, Eq)]
pub enum CommitError {
    /// Memory ran out, before the device was touched. Nothing changed.
    NoMemory,
    /// The rows refuse the commit. Nothing changed.
    Refused { refusal: Refusal },
    /// The rows log would end at this place, which is past its limit. Nothing changed.
    LogFull { end: u64 },
    /// A device failed, and the devices' counts of faults are now `faults` together. Whether the
    /// commit is in the log is open until the log is opened again.
    DiskFault { faults: u128 },
    /// A device failed in an earlier writing step, after which the counts were `faults` together.
    /// Nothing changed.
    Stopped { faults: u128 },
}

impl fmt::Display for CommitError {
    fn fmt<W: fmt::Write>(&self, f: &mut fmt::Formatter<W>) -> fmt::Result {
        match self {
            CommitError::NoMemory => write!(f, "no memory"),
            CommitError::Refused { refusal } => write!(f, "{refusal}"),
            CommitError::LogFull { end } => write!(f, "log full at {end}"),
            CommitError::DiskFault { .. } => write!(f, "disk fault"),
            CommitError::Stopped { faults } => write!(f, "stopped after {faults} disk faults"),
        }
    }
}

impl Error for CommitError {}

impl From<AllocError> for CommitError {
    ghost from_gives = { λ _ e. e ≡ NoMemory };

    fn from(_: AllocError) -> Self {
        CommitError::NoMemory
    }
}
