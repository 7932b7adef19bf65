//! Why a reader of fields stopped.
ghost use Rattle.std.specs.Prelude.{◌≡◌, length};
ghost use Rattle.fts_codec.specs.declared.fault.Fault.TheVariants as faults;

use std::alloc::{AllocError, AllocFailed};

/// Why a reader of fields stopped.
#[derive(Clone, Copy, Debug, PartialEq, Eq)]
pub enum Fault {
    /// Memory ran out.
    NoMemory,
    /// A field can't stand there.
    Bad {
        /// How many bytes are left from the field on.
        left: usize,
    },
}

impl Fault {
    /// The field that begins these bytes can't stand there.
    pub fn at(bytes: &[u8]) -> Fault
        ensures { result ≡ faults.Bad (length bytes.now) }
    {
        Fault::Bad { left: bytes.len() }
    }
}

impl From<AllocError> for Fault {
    ghost from_gives = { λ _ e. e ≡ faults.NoMemory };

    fn from(_e: AllocError) -> Fault {
        Fault::NoMemory
    }
}

impl<T: Drop> From<AllocFailed<T>> for Fault {
    ghost from_gives = { λ _ e. e ≡ faults.NoMemory };

    fn from(_e: AllocFailed<T>) -> Fault {
        Fault::NoMemory
    }
}
