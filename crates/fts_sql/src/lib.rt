//! The statements of a script: what a line says, by a grammar of tokens, and where a line that says
//! nothing is at fault.
//!
//! `parse_statement(alloc, b"SELECT ..")?` gives the statement, or none of a blank line; a line at
//! fault is `ParseError::Syntax { at }`, with the place from 1. `docs/LANGUAGE.md`, "Statements",
//! has the grammar. `session_of(line)` gives the session that a line counts for.
//!
//! A line is read once from the left, and one at fault once more.
#![tactic(auto)]

mod copy;
mod form;
mod found;
mod line;
mod parse;
mod piece;
mod place;
mod reader;
mod run;
mod session;
mod statement;
mod token;
mod value;
mod values;
mod word;

pub use parse::parse_statement;
pub use session::session_of;
pub use statement::{ParseError, Statement};
pub use value::Value;
pub use values::Values;
