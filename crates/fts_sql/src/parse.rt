ghost use Rattle.std.specs.Prelude.{◌≡◌, ◌⊎◌, ◌↔◌, ℕ, Ok, Err, Some, None, IsTrue, IfOk, map};
ghost use Rattle.fts_sql.specs.declared.statement.Statement.{Statement};
ghost use Rattle.fts_sql.specs.Line.{IsBlank};
ghost use Rattle.fts_sql.specs.Statement.{IsStatement};
ghost use Rattle.fts_sql.specs.Reading.{placed_of, ending_of};
ghost use Rattle.fts_sql.specs.Fault.{IsFaultAt};
ghost use Rattle.fts_sql.specs.Reader.{SaysLine, SaysIn, is_comment};

use crate::found::{Found, find};
use crate::line::{Ending, Placed, read_line};
use crate::place::fault_place;
use crate::run::skip_blanks;
use crate::statement::{ParseError, Statement};
use std::alloc::{AllocError, Global};

/// The statement that a line says, or `None` where the line is blank or a comment.
///
/// A line that is neither is answered `Syntax` at its fault; `docs/LANGUAGE.md` says where that
/// lies.
pub fn parse_statement(alloc: Global, line: &[u8]) -> Result<Option<Statement>, ParseError>
    ensures blank { (result ≡ Ok None) ↔ IsBlank line.now }
    ensures statement { (statement : Statement) → result ≡ Ok (Some statement)
        → IsStatement line.now statement }
    ensures exact { (statement : Statement) → IsStatement line.now statement
        → (result ≡ Ok (Some statement)) ⊎ (result ≡ Err ParseError.NoMemory) }
    ensures fault { (at : ℕ) → result ≡ Err (ParseError.Syntax at) → IsFaultAt line.now at }
    ensures exact_fault { (at : ℕ) → IsFaultAt line.now at
        → (result ≡ Err (ParseError.Syntax at)) ⊎ (result ≡ Err ParseError.NoMemory) }
{
    if is_blank(line) {
        return Ok(None);
    }
    match read(alloc, line) {
        Ok(Said::Statement(statement)) => Ok(Some(statement)),
        Ok(Said::Fault(at)) => Err(ParseError::Syntax { at }),
        Err(_) => Err(ParseError::NoMemory),
    }
}

/// Whether the line is white space alone, or a comment.
pub fn is_blank(line: &[u8]) -> bool
    ensures { IsTrue result ↔ IsBlank line.now }
{
    let text = skip_blanks(line);
    if text.is_empty() {
        return true;
    }
    is_comment(text)
}

/// Whether the bytes begin with `--`.
fn is_comment(text: &[u8]) -> bool
    ensures { result ≡ is_comment text.now }
{
    match text {
        [first, second, ..] => *first == b'-' && *second == b'-',
        _ => false,
    }
}

/// What a line says that is not blank.
enum Said {
    /// A statement.
    Statement(Statement),
    /// None, with the place of its fault, from 1.
    Fault(u64),
}

fn read(alloc: Global, line: &[u8]) -> Result<Said, AllocError>
    requires { IsBlank line.now → ⊥ }
    ensures { IfOk result (λ said. SaysLine line.now said) }
{
    let line = read_line(alloc, line)?;
    read_tokens(alloc, &line.tokens, line.ending)
}

/// What the tokens of a line say, which end so.
fn read_tokens(alloc: Global, tokens: &[Placed], ending: Ending) -> Result<Said, AllocError>
    ensures { IfOk result (λ said. SaysIn (map placed_of tokens.now) (ending_of ending) said) }
{
    match find(alloc, tokens)? {
        Found::Front(count) => Ok(Said::Fault(fault_place(tokens, count, ending))),
        Found::Whole(form, taken) => match ending {
            Ending::Unreadable { at } => Ok(Said::Fault(at)),
            Ending::Whole { .. } => Ok(Said::Statement(form.statement(alloc, &taken)?)),
        },
    }
}
