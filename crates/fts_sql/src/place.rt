ghost use Rattle.std.specs.Prelude.{◌≡◌, map};
ghost use Rattle.fts_sql.specs.Reading.{placed_of, ending_of};
ghost use Rattle.fts_sql.specs.Reader.{tokens_at, end_place, IsFurthest, IsPlaceIn};

use crate::line::{Ending, Placed};

/// The place of the token behind so many, or of the tokens' end where they are no more.
pub fn fault_place(tokens: &[Placed], count: usize, ending: Ending) -> u64
    requires { IsFurthest (tokens_at tokens.now) count }
    ensures { IsPlaceIn (map placed_of tokens.now) (ending_of ending) result }
{
    if count < tokens.len() {
        return tokens[count].at;
    }
    place_of_end(ending)
}

/// The place of the tokens' end.
pub fn place_of_end(ending: Ending) -> u64
    ensures { result ≡ end_place (ending_of ending) }
{
    match ending {
        Ending::Whole { at } | Ending::Unreadable { at } => at,
    }
}
