//! Why a call of a log failed.
ghost use Rattle.std.specs.Prelude.{◌≡◌};

use fts_disk::Failed;
use std::alloc::{AllocError, AllocFailed};
use std::error::Error;
use std::fmt;

/// Why a log could not be opened.
#[derive(Clone, Copy, Debug, PartialEq, Eq)]
pub enum OpenError {
    /// There was no memory for what the opening keeps.
    NoMemory,
    /// The bytes are no log. `at` is 0 where the magic is wrong or missing; else it is the place of
    /// the gate of the first record that is not whole, or the place where a missing gate should
    /// stand.
    Damaged { at: u64 },
    /// The device failed.
    DiskFault,
}

/// Why an entry was not appended.
#[derive(Clone, Copy, Debug, PartialEq, Eq)]
pub enum AppendError {
    /// The log would end above its limit, at `end`, the place behind the closed gate.
    LogFull { end: u64 },
    /// The device failed: the log is no longer to be appended to.
    DiskFault,
}

/// Why an entry could not be read.
#[derive(Clone, Copy, Debug, PartialEq, Eq)]
pub enum EntryError {
    /// There was no memory for the payload.
    NoMemory,
    /// The device failed.
    DiskFault,
}

impl fmt::Display for OpenError {
    fn fmt<W: fmt::Write>(&self, f: &mut fmt::Formatter<W>) -> fmt::Result {
        match self {
            OpenError::NoMemory => f.write_str("out of memory"),
            OpenError::Damaged { at } => write!(f, "damaged at {at}"),
            OpenError::DiskFault => f.write_str("disk fault"),
        }
    }
}

impl fmt::Display for AppendError {
    fn fmt<W: fmt::Write>(&self, f: &mut fmt::Formatter<W>) -> fmt::Result {
        match self {
            AppendError::LogFull { end } => write!(f, "log full at {end}"),
            AppendError::DiskFault => f.write_str("disk fault"),
        }
    }
}

impl fmt::Display for EntryError {
    fn fmt<W: fmt::Write>(&self, f: &mut fmt::Formatter<W>) -> fmt::Result {
        match self {
            EntryError::NoMemory => f.write_str("out of memory"),
            EntryError::DiskFault => f.write_str("disk fault"),
        }
    }
}

impl Error for OpenError {}

impl Error for AppendError {}

impl Error for EntryError {}

impl From<Failed> for AppendError {
    ghost use Rattle.fts_log.specs.declared.error.AppendError.TheVariants.{DiskFault};

    ghost from_gives = { λ _ e. e ≡ DiskFault };

    fn from(_: Failed) -> Self {
        AppendError::DiskFault
    }
}

impl From<Failed> for EntryError {
    ghost use Rattle.fts_log.specs.declared.error.EntryError.TheVariants.{DiskFault};

    ghost from_gives = { λ _ e. e ≡ DiskFault };

    fn from(_: Failed) -> Self {
        EntryError::DiskFault
    }
}

impl From<AllocError> for EntryError {
    ghost use Rattle.fts_log.specs.declared.error.EntryError.TheVariants.{NoMemory};

    ghost from_gives = { λ _ e. e ≡ NoMemory };

    fn from(_: AllocError) -> Self {
        EntryError::NoMemory
    }
}

impl From<Failed> for OpenError {
    ghost use Rattle.fts_log.specs.declared.error.OpenError.TheVariants.{DiskFault};

    ghost from_gives = { λ _ e. e ≡ DiskFault };

    fn from(_: Failed) -> Self {
        OpenError::DiskFault
    }
}

impl<T: Drop> From<AllocFailed<T>> for EntryError {
    ghost use Rattle.fts_log.specs.declared.error.EntryError.TheVariants.{NoMemory};

    ghost from_gives = { λ _ e. e ≡ NoMemory };

    fn from(_: AllocFailed<T>) -> Self {
        EntryError::NoMemory
    }
}

impl From<EntryError> for OpenError {
    ghost use Rattle.fts_log.specs.Error.{open_error_of};

    ghost from_gives = { λ error e. e ≡ open_error_of error };

    fn from(error: EntryError) -> Self {
        match error {
            EntryError::NoMemory => OpenError::NoMemory,
            EntryError::DiskFault => OpenError::DiskFault,
        }
    }
}
