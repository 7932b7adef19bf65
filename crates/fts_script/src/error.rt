use std::error::Error;
use std::fmt;

/// Why a script was not read.
#[derive(Clone, Copy, Debug, PartialEq, Eq)]
pub enum ScriptError {
    /// Memory ran out.
    NoMemory,
    /// The source failed.
    ReadFault,
    /// The script has more than 2^40 bytes, or more than `MOST_LINES` lines. `lines` and `bytes`
    /// were taken.
    ScriptTooLong { lines: u64, bytes: u64 },
}

impl fmt::Display for ScriptError {
    fn fmt<W: fmt::Write>(&self, f: &mut fmt::Formatter<W>) -> fmt::Result {
        match self {
            ScriptError::NoMemory => write!(f, "no memory"),
            ScriptError::ReadFault => write!(f, "read fault"),
            ScriptError::ScriptTooLong { lines, bytes } => write!(
                f,
                "script too long, after {lines} lines and {bytes} bytes"
            ),
        }
    }
}

impl Error for ScriptError {}

/// Why the lines of a script were not grouped.
#[derive(Clone, Copy, Debug, PartialEq, Eq)]
pub enum GroupError {
    /// Memory ran out.
    NoMemory,
    /// A line is the first of a 17th session, which has this number.
    TooManySessions { session: u32 },
}

impl fmt::Display for GroupError {
    fn fmt<W: fmt::Write>(&self, f: &mut fmt::Formatter<W>) -> fmt::Result {
        match self {
            GroupError::NoMemory => write!(f, "no memory"),
            GroupError::TooManySessions { session } => {
                write!(f, "too many sessions, at session {session}")
            }
        }
    }
}

impl Error for GroupError {}
