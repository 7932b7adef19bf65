ghost use Rattle.std.specs.Prelude.{◌≡◌, ◌⊎◌, ◌≤◌, IfOk};
ghost use Rattle.fts_sql.specs.Reader.{tokens_at, IsFoundIn};

use crate::form::{FORMS, Form};
use crate::line::Placed;
use crate::reader::Reached;
use crate::token::Token;
use std::alloc::{AllocError, Global};

/// What tokens are.
#[derive(Drop)]
pub enum Found<'l> {
    /// A statement of the form, which takes these of them.
    Whole(Form, Vec<Token<'l>>),
    /// None, and so many of the first ones begin some statement.
    Front(usize),
}

/// What the tokens are.
pub fn find<'l>(alloc: Global, tokens: &[Placed<'l>]) -> Result<Found<'l>, AllocError>
    ensures { IfOk result (λ found. IsFoundIn (tokens_at tokens.now) found) }
{
    let mut furthest = 0;
    for form in &FORMS {
        let Reached {
            count,
            taken,
            whole,
        } = form.read(alloc, tokens)?;
        if whole {
            return Ok(Found::Whole(*form, taken));
        }
        furthest = later(furthest, count);
    }
    Ok(Found::Front(furthest))
}

/// The later of two places.
fn later(one: usize, other: usize) -> usize
    ensures one { one ≤ result }
    ensures other { other ≤ result }
    ensures either { (result ≡ one) ⊎ (result ≡ other) }
{
    if one < other {
        return other;
    }
    one
}
