ghost use Rattle.std.specs.Prelude.{◌≡◌, ◌+◌, ◌≤◌, length, map, IfOk};
ghost use Rattle.fts_sql.specs.Line.{Reads};
ghost use Rattle.fts_sql.specs.Reading.{placed_of, ending_of};

use crate::run::skip_blanks;
use crate::token::{Next, Token, next_token};
use std::alloc::{AllocError, Global};

/// A token, and the place of its first byte, from 1.
#[derive(Clone, Copy)]
pub struct Placed<'a> {
    pub at: u64,
    pub token: Token<'a>,
}

/// Where the tokens of a line end.
#[derive(Clone, Copy)]
pub enum Ending {
    /// At the line's end: the place behind its last byte.
    Whole { at: u64 },
    /// At something that is no token: the place of its faulty byte.
    Unreadable { at: u64 },
}

/// The tokens of a line, and where they end.
#[derive(Drop)]
pub struct Line<'a> {
    pub tokens: Vec<Placed<'a>>,
    pub ending: Ending,
}

/// The tokens of a line up to its end, or to the first thing that is no token.
pub fn read_line(alloc: Global, line: &[u8]) -> Result<Line, AllocError>
    ensures { IfOk result (λ read. Reads 1 line.now (map placed_of read.tokens.items)
        (ending_of read.ending)) }
{
    let mut tokens = Vec::new(alloc);
    let mut rest = line;
    loop {
        let piece = skip_blanks(rest);
        let at = place_of(line, piece);
        if piece.is_empty() {
            return Ok(Line {
                tokens,
                ending: Ending::Whole { at },
            });
        }
        match next_token(piece) {
            Next::Token(token, after) => {
                tokens.push(Placed { at, token })?;
                rest = after;
            }
            Next::Unreadable(offset) => {
                let at = at + offset as u64;
                return Ok(Line {
                    tokens,
                    ending: Ending::Unreadable { at },
                });
            }
        }
    }
}

/// The place, from 1, of what is the end of a line.
fn place_of(line: &[u8], end: &[u8]) -> u64
    requires { length end.now ≤ length line.now }
    ensures { result + length end.now ≡ length line.now + 1 }
{
    (line.len() - end.len()) as u64 + 1
}
