ghost use Rattle.std.specs.Prelude.{◌≡◌};
ghost use Rattle.std.specs.Prelude.{Some};
ghost use Rattle.fts_engine.specs.Opening.{IsSameEntryError, device_text};
ghost use Rattle.fts_engine.specs.Opening.{open_error_of, open_error_of_rows};
ghost use Rattle.fts_engine.specs.declared.error.ReadError.TheVariants.{NoMemory};

use fts_log::EntryError;
use std::alloc::{AllocError, AllocFailed};
use std::error::Error;
use std::fmt;

/// One of the two devices of a database.
#[derive(Clone, Copy, Debug, PartialEq, Eq)]
pub enum Device {
    Rows,
    Index,
}

impl fmt::Display for Device {
    ghost output = { λ device. Some (device_text device) };

    fn fmt<W: fmt::Write>(&self, f: &mut fmt::Formatter<W>) -> fmt::Result {
        f.write_str(match self {
            Device::Rows => "rows",
            Device::Index => "index",
        })
    }
}

/// Why a database was not opened. Nothing was written.
#[derive(Clone, Copy, Debug, PartialEq, Eq)]
pub enum OpenError {
    /// Memory ran out.
    NoMemory,
    /// No database was created on the devices: in the rows log the gate behind the magic isn't
    /// open.
    NotCreated,
    /// A database was created, and a log is none of a database. `at` is the first place at fault in
    /// this file of the device, from 0.
    Damaged { device: Device, file: u32, at: u64 },
    /// A device failed.
    DiskFault,
}

/// Why the rows log was not opened.
#[derive(Clone, Copy, Debug, PartialEq, Eq)]
pub(crate) enum RowsError {
    NoMemory,
    NotCreated,
    Damaged { at: u64 },
    DiskFault,
}

/// Why what the records of a log have was not taken.
#[derive(Clone, Copy, Debug, PartialEq, Eq)]
pub(crate) enum ReadError {
    NoMemory,
    Damaged { at: u64 },
    DiskFault,
}

/// Why what the records of both logs have was not taken.
#[derive(Clone, Copy, Debug, PartialEq, Eq)]
pub(crate) enum LoadError {
    NoMemory,
    Damaged { device: Device, at: u64 },
    DiskFault,
}

impl ReadError {
    ghost use Rattle.fts_engine.specs.Opening.{load_error_of};

    // Why both logs were not taken of which this device has the one.
    pub(crate) fn on(self, device: Device) -> LoadError
        ensures { result ≡ load_error_of device self }
    {
        match self {
            ReadError::NoMemory => LoadError::NoMemory,
            ReadError::Damaged { at } => LoadError::Damaged { device, at },
            ReadError::DiskFault => LoadError::DiskFault,
        }
    }
}

impl fmt::Display for OpenError {
    fn fmt<W: fmt::Write>(&self, f: &mut fmt::Formatter<W>) -> fmt::Result {
        match self {
            OpenError::NoMemory => write!(f, "no memory"),
            OpenError::NotCreated => write!(f, "not created"),
            OpenError::Damaged { device, file, at } => {
                write!(f, "damaged {device} file {file} at {at}")
            }
            OpenError::DiskFault => write!(f, "disk fault"),
        }
    }
}

impl Error for OpenError {}

impl From<RowsError> for OpenError {
    ghost from_gives = { λ error told. told ≡ open_error_of_rows error };

    fn from(error: RowsError) -> Self {
        match error {
            RowsError::NoMemory => OpenError::NoMemory,
            RowsError::NotCreated => OpenError::NotCreated,
            RowsError::Damaged { at } => OpenError::Damaged {
                device: Device::Rows,
                file: 0,
                at,
            },
            RowsError::DiskFault => OpenError::DiskFault,
        }
    }
}

impl From<LoadError> for OpenError {
    ghost from_gives = { λ error told. told ≡ open_error_of error };

    fn from(error: LoadError) -> Self {
        match error {
            LoadError::NoMemory => OpenError::NoMemory,
            LoadError::Damaged { device, at } => OpenError::Damaged {
                device,
                file: 0,
                at,
            },
            LoadError::DiskFault => OpenError::DiskFault,
        }
    }
}

impl From<EntryError> for ReadError {
    ghost from_gives = { IsSameEntryError };

    fn from(error: EntryError) -> Self {
        match error {
            EntryError::NoMemory => ReadError::NoMemory,
            EntryError::DiskFault => ReadError::DiskFault,
        }
    }
}

impl From<AllocError> for ReadError {
    ghost from_gives = { λ _ e. e ≡ NoMemory };

    fn from(_: AllocError) -> Self {
        ReadError::NoMemory
    }
}

impl<T: Drop> From<AllocFailed<T>> for ReadError {
    ghost from_gives = { λ _ e. e ≡ NoMemory };

    fn from(_: AllocFailed<T>) -> Self {
        ReadError::NoMemory
    }
}
