ghost use Rattle.std.specs.Prelude.{Some};
ghost use Rattle.fts_commits.specs.Refusal.{refusal_text};

use fts_types::{DocId, Key};
use std::error::Error;
use std::fmt;

/// Why the rows refuse a commit, which then changes nothing. Its changes count from 1.
#[derive(Clone, Copy, Debug, PartialEq, Eq)]
pub enum Refusal {
    /// Change `change` inserts the key `key`, which a row has.
    DuplicateKey { change: u64, key: Key },
    /// A change gives the document id `given`, which isn't above `largest`, the largest that was
    /// used.
    DocIdOrder { given: DocId, largest: DocId },
    /// A change gives the document id `given`, which is more than 65,535 above `largest`.
    DocIdGap { given: DocId, largest: DocId },
    /// A change needs a document id above the largest that there may be; `largest` was used.
    IdsFull { largest: DocId },
    /// The row of change `change` would have texts of `length` bytes together, above 65,535.
    TextTooLong { change: u64, length: u64 },
    /// `rows` rows would stand after the commit, above their limit.
    RowsFull { rows: u64 },
}

impl fmt::Display for Refusal {
    ghost output = { λ refusal. Some (refusal_text refusal) };

    fn fmt<W: fmt::Write>(&self, f: &mut fmt::Formatter<W>) -> fmt::Result {
        match self {
            Refusal::DuplicateKey { change, key } => {
                write!(f, "duplicate key {key} in change {change}")
            }
            Refusal::DocIdOrder { given, largest } => {
                write!(f, "document id {given} not above {largest}")
            }
            Refusal::DocIdGap { given, largest } => {
                write!(f, "document id {given} more than 65535 above {largest}")
            }
            Refusal::IdsFull { largest } => write!(f, "document ids full at {largest}"),
            Refusal::TextTooLong { change, length } => {
                write!(f, "text too long {length} in change {change}")
            }
            Refusal::RowsFull { rows } => write!(f, "rows full at {rows}"),
        }
    }
}

impl Error for Refusal {}
