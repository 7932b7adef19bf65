use std::error::Error;
use std::fmt;

/// Why bytes are not decoded.
#[derive(Clone, Copy, Debug, PartialEq, Eq)]
pub enum DecodeError {
    /// Memory ran out.
    NoMemory,
    /// The bytes are no payload of the index log.
    Bad {
        /// Where the first field begins that can't stand there, in bytes from 0. It is the length
        /// where a field is missing at the end.
        at: usize,
    },
}

impl fmt::Display for DecodeError {
    fn fmt<W: fmt::Write>(&self, f: &mut fmt::Formatter<W>) -> fmt::Result {
        match self {
            DecodeError::NoMemory => write!(f, "no memory"),
            DecodeError::Bad { at } => write!(f, "bad payload at byte {at}"),
        }
    }
}

impl Error for DecodeError {}
