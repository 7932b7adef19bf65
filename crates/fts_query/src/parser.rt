ghost use Rattle.std.specs.Prelude.{◌≡◌, ℕ, ◌+◌, ◌<◌, ◌≤◌, ◌⊎◌, length, IfOk, IfErr, IsOk};
ghost use Rattle.fts_meaning.specs.Plain.{plain};
ghost use Rattle.fts_meaning.specs.Token.{IsTreeOf};
ghost use Rattle.fts_meaning.specs.Fault.{FaultsAt, IsTooDeepAt, IsFaultless, IsShallow};
ghost use Rattle.fts_query.specs.View.{tree_of};
ghost use Rattle.fts_query.specs.Refused.{RefusedAs};
ghost use Rattle.fts_query.specs.declared.parser.ParseError.TheVariants as errors;

use crate::build::build;
use crate::faults::{first_fault, first_too_deep};
use crate::plain::plain_text;
use crate::query::Query;
use std::alloc::{AllocError, Global};
use std::error::Error;
use std::fmt;

/// How many bytes the text of a query may have.
const MOST_BYTES: usize = 4_096;

/// Why a text was not read as a query. Places count bytes, from 1.
#[derive(Debug, Drop, PartialEq, Eq)]
pub enum ParseError {
    /// The text has more than 4,096 bytes: how many.
    TooLong { length: usize },
    /// A byte is at fault: the leftmost one.
    Syntax { at: usize },
    /// A bracket stands more than 32 deep: the first one.
    TooDeep { at: usize },
    /// There was no memory for the query.
    NoMemory,
}

impl fmt::Display for ParseError {
    fn fmt<W: fmt::Write>(&self, f: &mut fmt::Formatter<W>) -> fmt::Result {
        match self {
            ParseError::TooLong { length } => write!(f, "query too long {length}"),
            ParseError::Syntax { at } => write!(f, "query syntax at {at}"),
            ParseError::TooDeep { at } => write!(f, "query too deep at {at}"),
            ParseError::NoMemory => f.write_str("no memory"),
        }
    }
}

impl Error for ParseError {}

impl From<AllocError> for ParseError {
    ghost from_gives = { λ _ error. error ≡ errors.NoMemory };

    fn from(_error: AllocError) -> ParseError {
        ParseError::NoMemory
    }
}

/// The query of a text, by the rules of `docs/LANGUAGE.md`, "The Boolean language".
///
/// The refusals are tried in this order: `TooLong` above 4,096 bytes; `Syntax` at the leftmost byte
/// at fault; `TooDeep` at the first bracket that stands more than 32 deep. The time is linear in
/// the text.
///
/// Source: MySQL 8.0 Reference Manual, "Boolean Full-Text Searches".
pub fn parse(alloc: Global, text: &[u8]) -> Result<Query, ParseError>
    ensures tree { IfOk result (λ query. IsTreeOf text.now (tree_of query)) }
    ensures fits { IfOk result (λ _. (length text.now ≤ 4096) × IsShallow text.now) }
    ensures refused { IfErr result (RefusedAs text.now) }
    ensures too_long { 4096 < length text.now → result ≡ Err (errors.TooLong (length text.now)) }
    ensures syntax { length text.now ≤ 4096 → (place : ℕ) → FaultsAt text.now place →
        (result ≡ Err (errors.Syntax (place + 1))) ⊎ (result ≡ Err errors.NoMemory) }
    ensures too_deep { length text.now ≤ 4096 → (place : ℕ) → IsTooDeepAt text.now place →
        (result ≡ Err (errors.TooDeep (place + 1))) ⊎ (result ≡ Err errors.NoMemory) }
    ensures taken { length text.now ≤ 4096 → IsFaultless text.now → IsShallow text.now →
        IsOk result ⊎ (result ≡ Err errors.NoMemory) }
{
    if text.len() > MOST_BYTES {
        return Err(ParseError::TooLong { length: text.len() });
    }
    parse_fitting(alloc, text)
}

/// The query of a text that is not too long.
fn parse_fitting(alloc: Global, query: &[u8]) -> Result<Query, ParseError>
    requires { length query.now ≤ 4096 }
    ensures tree { IfOk result (λ q. IsTreeOf query.now (tree_of q)) }
    ensures shallow { IfOk result (λ _. IsShallow query.now) }
    ensures refused { IfErr result (RefusedAs query.now) }
{
    let text = plain_text(alloc, query)?;
    parse_plain(alloc, query, &text)
}

/// The query of a text of which this is left once its quotes are paired.
fn parse_plain(alloc: Global, query: &[u8], text: &[u8]) -> Result<Query, ParseError>
    requires short { length query.now ≤ 4096 }
    requires plain { text.now ≡ plain query.now }
    ensures tree { IfOk result (λ q. IsTreeOf query.now (tree_of q)) }
    ensures shallow { IfOk result (λ _. IsShallow query.now) }
    ensures refused { IfErr result (RefusedAs query.now) }
{
    if let Some(place) = first_fault(query, text) {
        return Err(ParseError::Syntax { at: place + 1 });
    }
    if let Some(place) = first_too_deep(text) {
        return Err(ParseError::TooDeep { at: place + 1 });
    }
    let terms = build(alloc, query, text)?;
    Ok(Query { terms })
}
