ghost use Rattle.std.specs.Prelude.{◌≡◌, ◌∷◌, [], true, IfOk};
ghost use Rattle.std.specs.Option.{option_map};
ghost use Rattle.fts_sql.specs.Reading.{token_of};
ghost use Rattle.fts_sql.specs.Table.{parts_of};
ghost use Rattle.fts_sql.specs.Reader.{begin, enter, behind, can_end, step_of, is_table, tokens_at};
ghost use Rattle.fts_sql.specs.Reader.{IsRead, ends};

use crate::line::Placed;
use crate::piece::{Part, Piece};
use crate::token::Token;
use std::alloc::{AllocError, Global};

/// A place in a table.
#[derive(Clone, Copy)]
struct Place<'g> {
    /// What is left of the part that was begun.
    begun: &'g [Piece],
    /// The parts behind it.
    ahead: &'g [Part],
}

/// A token's piece, and the place behind it.
#[derive(Clone, Copy)]
struct Step<'g> {
    piece: Piece,
    place: Place<'g>,
}

/// How far tokens are those of a table.
#[derive(Drop)]
pub struct Reached<'l> {
    /// How many of the first ones some tokens of the table begin with.
    pub count: usize,
    /// What is taken of these.
    pub taken: Vec<Token<'l>>,
    /// Whether they are all, and the table's tokens can end with them.
    pub whole: bool,
}

/// The step of a token that stands where the pieces begin.
fn begin<'g>(pieces: &'g [Piece], ahead: &'g [Part], token: &Token) -> Option<Step<'g>>
    ensures { option_map step_of result
        ≡ begin pieces.now (parts_of ahead.now) (token_of token.now) }
{
    let (first, begun) = pieces.split_first()?;
    if !first.has(token) {
        return None;
    }
    Some(Step {
        piece: *first,
        place: Place { begun, ahead },
    })
}

/// The step of a token that stands where a part is this one piece.
fn begin_one<'g>(piece: &Piece, ahead: &'g [Part], token: &Token) -> Option<Step<'g>>
    ensures { option_map step_of result
        ≡ begin (piece.now ∷ []) (parts_of ahead.now) (token_of token.now) }
{
    if !piece.has(token) {
        return None;
    }
    Some(Step {
        piece: *piece,
        place: Place { begun: &[], ahead },
    })
}

/// The step of a token that stands where the parts begin.
fn enter<'g>(ahead: &'g [Part], token: &Token) -> Option<Step<'g>>
    ensures { option_map step_of result ≡ enter (parts_of ahead.now) (token_of token.now) }
{
    let (first, rest) = ahead.split_first()?;
    match first {
        Part::Once(piece) => begin_one(piece, rest, token),
        Part::Optional(piece) => match begin_one(piece, rest, token) {
            Some(step) => Some(step),
            None => enter(rest, token),
        },
        Part::OptionalPair(pieces) => match begin(pieces, rest, token) {
            Some(step) => Some(step),
            None => enter(rest, token),
        },
        Part::Pairs(pieces) => match begin(pieces, ahead, token) {
            Some(step) => Some(step),
            None => enter(rest, token),
        },
        Part::Fours(pieces) => match begin(pieces, ahead, token) {
            Some(step) => Some(step),
            None => enter(rest, token),
        },
    }
}

impl<'g> Place<'g> {
    /// The step of a token that stands there.
    fn behind(self, token: &Token) -> Option<Step<'g>>
        ensures { option_map step_of result
            ≡ behind self.entry.begun.now (parts_of self.entry.ahead.now)
            (token_of token.now) }
    {
        if self.begun.is_empty() {
            return enter(self.ahead, token);
        }
        begin(self.begun, self.ahead, token)
    }

    /// Whether tokens can end there.
    fn is_end(self) -> bool
        ensures { result ≡ ends self.entry.begun.now (parts_of self.entry.ahead.now) }
    {
        if !self.begun.is_empty() {
            return false;
        }
        can_end(self.ahead)
    }
}

/// Whether tokens can end where the parts begin.
fn can_end(ahead: &[Part]) -> bool
    ensures { result ≡ can_end (parts_of ahead.now) }
{
    match ahead {
        [] => true,
        [Part::Once(_), ..] => false,
        [_, rest @ ..] => can_end(rest),
    }
}

/// How far the tokens are those of the table.
pub fn read<'l>(
    alloc: Global,
    table: &[Part],
    tokens: &[Placed<'l>],
) -> Result<Reached<'l>, AllocError>
    requires { is_table (parts_of table.now) ≡ true }
    ensures { IfOk result (λ reached. IsRead (parts_of table.now) (tokens_at tokens.now) reached) }
{
    let mut taken = Vec::new(alloc);
    let mut place = Place {
        begun: &[],
        ahead: table,
    };
    for (count, placed) in tokens.iter().enumerate() {
        let Some(step) = place.behind(&placed.token) else {
            return Ok(Reached {
                count,
                taken,
                whole: false,
            });
        };
        step.piece.take(&mut taken, placed.token)?;
        place = step.place;
    }
    Ok(Reached {
        count: tokens.len(),
        taken,
        whole: place.is_end(),
    })
}
