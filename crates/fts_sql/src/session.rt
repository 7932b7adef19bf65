//! Which session a line counts for.

ghost use Rattle.std.specs.Prelude.{◌≡◌, ℕ, List, true, false, IfSome, IfNone};
ghost use Rattle.std.specs.List.{list_all};
ghost use Rattle.std.specs.Char.{is_ascii_digit};
ghost use Rattle.std.specs.Str.Parse.{digits_value};
ghost use Rattle.fts_sql.specs.Line.{Placed, Ending, Reads};
ghost use Rattle.fts_sql.specs.Statement.{tokens_in};
ghost use Rattle.fts_sql.specs.Table.{is_session};
ghost use Rattle.fts_sql.specs.Session.{IsNumbered, IsSession, session_in};

use crate::parse::is_blank;
use crate::piece::is_session;
use crate::run::{Class, skip_blanks, split_run};
use crate::token::number_of;

/// The session that a line counts for: that whose number it begins with, from 1 to 65,535 and with
/// `:` behind it, and else session 1, also where the line is at fault. `None` for a blank line or a
/// comment, which counts for none.
///
/// It takes no memory, and reads no more than the line's first two tokens.
pub fn session_of(line: &[u8]) -> Option<u32>
    ensures session { IsSession line.now result }
    ensures tokens { (tokens : List Placed) → (ending : Ending) → Reads 1 line.now tokens ending
        → IfSome result (λ session. session ≡ session_in (tokens_in tokens)) }
{
    if is_blank(line) {
        return None;
    }
    match number_before(line) {
        Some(number) => Some(number),
        None => Some(1),
    }
}

/// The number of a session that the line begins with, if there is one and `:` behind it.
fn number_before(line: &[u8]) -> Option<u32>
    ensures some { IfSome result (λ session. IsNumbered line.now session) }
    ensures none { IfNone result ((session : ℕ) → IsNumbered line.now session → ⊥) }
{
    let (digits, behind) = split_run(Class::Digit, skip_blanks(line));
    let Some((first, _)) = skip_blanks(behind).split_first() else {
        return None;
    };
    if *first != b':' {
        return None;
    }
    session_number(digits)
}

/// The number that the digits write, if it is one of a session.
fn session_number(digits: &[u8]) -> Option<u32>
    requires { list_all is_ascii_digit digits.now ≡ true }
    ensures some { IfSome result (λ session. digits_value 10 digits.now ≡ session) }
    ensures is { IfSome result (λ session. is_session session ≡ true) }
    ensures none { IfNone result (is_session (digits_value 10 digits.now) ≡ false) }
{
    let number = number_of(digits)?;
    if !is_session(number) {
        return None;
    }
    Some(number as u32)
}
