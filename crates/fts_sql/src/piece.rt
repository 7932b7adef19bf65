ghost use Rattle.std.specs.Prelude.{◌≡◌, map, OnOk};
ghost use Rattle.fts_sql.specs.Reading.{token_of};
ghost use Rattle.fts_sql.specs.Table.{is_session, is_piece, taken_by};

use crate::token::Token;
use crate::word::Word;
use std::alloc::AllocError;

/// What a statement has at a place.
#[derive(Clone, Copy)]
pub enum Piece {
    /// A keyword.
    Keyword(Word),
    /// One of the bytes that are tokens.
    Mark(u8),
    /// A name.
    Name,
    /// A number.
    Number,
    /// A string.
    String,
    /// A number or a string.
    Value,
    /// The number of a session: 1 to 65,535.
    Session,
}

/// A part of a table. Whether one is left out or comes again is told by the first of its pieces.
#[derive(Clone, Copy)]
pub enum Part {
    /// This piece.
    Once(Piece),
    /// This piece, or nothing.
    Optional(Piece),
    /// These two pieces, or nothing.
    OptionalPair([Piece; 2]),
    /// These two pieces, as often as one likes.
    Pairs([Piece; 2]),
    /// These four pieces, as often as one likes.
    Fours([Piece; 4]),
}

impl Piece {
    /// Whether the token can stand there.
    pub fn has(&self, token: &Token) -> bool
        ensures { result ≡ is_piece self.now (token_of token.now) }
    {
        match (self, token) {
            (Piece::Keyword(word), Token::Name(written)) => word.is_written(written),
            (Piece::Mark(byte), Token::Mark(mark)) => byte == mark,
            (Piece::Name, Token::Name(_)) => true,
            (Piece::Number, Token::Number(_)) => true,
            (Piece::String, Token::String(_)) => true,
            (Piece::Value, Token::Number(_) | Token::String(_)) => true,
            (Piece::Session, Token::Number(number)) => is_session(*number),
            _ => false,
        }
    }

    /// Puts the token behind those that are taken, if a statement takes what stands there: all but
    /// keywords, marks and a session's number.
    pub fn take<'l>(&self, taken: &mut Vec<Token<'l>>, token: Token<'l>) -> Result<(), AllocError>
        ensures { OnOk result (map token_of taken.new.items
            ≡ taken_by self.now (token_of token.entry) (map token_of taken.old.items)) }
    {
        match self {
            Piece::Keyword(_) | Piece::Mark(_) | Piece::Session => {}
            Piece::Name | Piece::Number | Piece::String | Piece::Value => taken.push(token)?,
        }
        Ok(())
    }
}

/// Whether the number is one of a session.
pub fn is_session(number: u64) -> bool
    ensures { result ≡ is_session number }
{
    1 <= number && number <= 65_535
}
