ghost use Rattle.std.specs.Prelude.{◌≡◌};
ghost use Rattle.fts_steps.specs.declared.view_error.ViewError.TheVariants.{NoMemory};

use std::alloc::AllocError;
use std::error::Error;
use std::fmt;

/// Why a view or a listing was not made.
#[derive(Clone, Copy, Debug, PartialEq, Eq)]
pub enum ViewError {
    /// Memory ran out. Nothing changed.
    NoMemory,
    /// A device failed as it was read, and the devices' counts of faults are now `faults` together.
    /// It comes only from an engine that reads its nodes from the device.
    DiskFault { faults: u128 },
}

impl fmt::Display for ViewError {
    fn fmt<W: fmt::Write>(&self, f: &mut fmt::Formatter<W>) -> fmt::Result {
        match self {
            ViewError::NoMemory => write!(f, "no memory"),
            ViewError::DiskFault { .. } => write!(f, "disk fault"),
        }
    }
}

impl Error for ViewError {}

impl From<AllocError> for ViewError {
    ghost from_gives = { λ _ e. e ≡ NoMemory };

    fn from(_: AllocError) -> Self {
        ViewError::NoMemory
    }
}
