ghost use Rattle.std.specs.Prelude.{Some};
ghost use Rattle.fts_sql.specs.ParseError.{error_text};

use crate::values::Values;
use fts_types::{Key, Names, RowTexts, Text};
use std::error::Error;
use std::fmt;

/// A statement of one line, its names as they are written there.
#[derive(Debug, Drop)]
pub enum Statement {
    /// `INSERT INTO table (column, ..) VALUES (value, ..)`
    Insert {
        table: Text,
        columns: Names,
        values: Values,
    },
    /// `UPDATE table SET column = 'text', .. WHERE id = key`
    Update {
        table: Text,
        columns: Names,
        texts: RowTexts,
        key: Key,
    },
    /// `DELETE FROM table WHERE id = key`
    Delete {
        table: Text,
        key: Key,
    },
    /// `SELECT FTS_DOC_ID FROM table WHERE MATCH (column, ..) AGAINST ('query' IN BOOLEAN MODE)`
    Match {
        table: Text,
        columns: Names,
        query: Text,
    },
    /// `SYNC`
    Sync,
    /// `OPTIMIZE TABLE table`
    Optimize {
        table: Text,
    },
    /// `SELECT * FROM schema.view`
    List {
        schema: Text,
        view: Text,
    },
    /// `BEGIN`, or `START TRANSACTION`
    Begin,
    /// `COMMIT`
    Commit,
    /// `ROLLBACK`
    Rollback,
}

/// Why there is no statement.
#[derive(Clone, Copy, Debug, PartialEq, Eq)]
pub enum ParseError {
    /// Want of memory for the line's tokens or the statement.
    NoMemory,
    /// The line is no statement, which shows at byte `at`, from 1.
    Syntax { at: u64 },
}

impl fmt::Display for ParseError {
    ghost output = { λ error. Some (error_text error) };

    fn fmt<W: fmt::Write>(&self, f: &mut fmt::Formatter<W>) -> fmt::Result {
        match self {
            ParseError::NoMemory => write!(f, "no memory"),
            ParseError::Syntax { at } => write!(f, "syntax at {at}"),
        }
    }
}

impl Error for ParseError {}
