ghost use Rattle.std.specs.Prelude.{◌≡◌, ◌<◌, ◌^◌, ◌∷◌, true, false, not};
ghost use Rattle.std.specs.Prelude.{SomeIff};
ghost use Rattle.std.specs.List.{list_all};
ghost use Rattle.std.specs.Option.{option_map};
ghost use Rattle.std.specs.Char.{is_ascii_digit};
ghost use Rattle.std.specs.Str.Parse.{digits_value};
ghost use Rattle.fts_words.specs.Byte.{is_word_byte};
ghost use Rattle.fts_sql.specs.Token.{begins_with, is_blank};
ghost use Rattle.fts_sql.specs.Reading.{IsNext, IsText, IsPiece};

use crate::run::{Class, split_run};

/// A token, which holds bytes of its line.
#[derive(Clone, Copy)]
pub enum Token<'a> {
    /// A name or a keyword, as written.
    Name(&'a [u8]),
    /// A number.
    Number(u64),
    /// A string, as written between its apostrophes.
    String(&'a [u8]),
    /// One of the bytes `( ) , ; = * . :`.
    Mark(u8),
}

/// What stands first in some bytes.
pub enum Next<'a> {
    /// A token, and what follows it.
    Token(Token<'a>, &'a [u8]),
    /// Something that is no token, with the faulty byte so many bytes from its first.
    Unreadable(usize),
}

/// What stands first in the bytes, which begin with no blank.
pub fn next_token(bytes: &[u8]) -> Next
    requires { begins_with (λ b. not (is_blank b)) bytes.now ≡ true }
    ensures { IsNext bytes.now result }
{
    match bytes {
        [b'\'', inner @ ..] => next_string(inner),
        [b'0'..=b'9', ..] => next_number(bytes),
        [b'a'..=b'z' | b'A'..=b'Z' | b'_', ..] => next_name(bytes),
        [
            b'(' | b')' | b',' | b';' | b'=' | b'*' | b'.' | b':',
            rest @ ..,
        ] => { Next::Token(Token::Mark(bytes[0]), rest) }
        _ => Next::Unreadable(0),
    }
}

fn next_name(bytes: &[u8]) -> Next
    requires word { begins_with is_word_byte bytes.now ≡ true }
    requires no_digit { begins_with is_ascii_digit bytes.now ≡ false }
    ensures { IsNext bytes.now result }
{
    let (name, rest) = split_run(Class::Word, bytes);
    Next::Token(Token::Name(name), rest)
}

fn next_number(bytes: &[u8]) -> Next
    requires { begins_with is_ascii_digit bytes.now ≡ true }
    ensures { IsNext bytes.now result }
{
    let (digits, rest) = split_run(Class::Digit, bytes);
    match number_of(digits) {
        Some(value) => Next::Token(Token::Number(value), rest),
        None => Next::Unreadable(0),
    }
}

/// The number that the digits write, if it is below 2^64.
pub fn number_of(digits: &[u8]) -> Option<u64>
    requires { list_all is_ascii_digit digits.now ≡ true }
    ensures { SomeIff result (digits_value 10 digits.now < 2 ^ 64) (digits_value 10 digits.now) }
{
    let mut value: u64 = 0;
    for digit in digits {
        value = value
            .checked_mul(10)?
            .checked_add(u64::from(*digit - b'0'))?;
    }
    Some(value)
}

/// What stands first where that is an apostrophe, with these bytes behind it.
fn next_string(inner: &[u8]) -> Next
    ensures { IsNext (39 ∷ inner.now) result }
{
    let (written, rest) = split_text(inner);
    let Some((stop, after)) = rest.split_first() else {
        return Next::Unreadable(0);
    };
    if *stop != b'\'' {
        return Next::Unreadable(written.len() + 1);
    }
    Next::Token(Token::String(written), after)
}

/// What a string's text is written as, behind the opening apostrophe, and what follows it.
fn split_text(inner: &[u8]) -> (&[u8], &[u8])
    ensures { IsText inner.now result.0.now result.1.now }
{
    let mut rest = inner;
    while let Some(after) = skip_piece(rest) {
        rest = after;
    }
    inner.split_at(inner.len() - rest.len())
}

/// What follows the next byte of a string's text, if the text goes on.
fn skip_piece(bytes: &[u8]) -> Option<&[u8]>
    ensures { IsPiece bytes.now (option_map (λ rest. rest.now) result) }
{
    match bytes {
        [b'\'', b'\'', after @ ..] => Some(after),
        [b'\'', ..] => None,
        [b'\t' | b' '..=b'~', after @ ..] => Some(after),
        _ => None,
    }
}
