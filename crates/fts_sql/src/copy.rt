ghost use Rattle.std.specs.Prelude.{◌≡◌, ◌++◌, [], map, drop, length, ◌<◌, IfOk, IfSome, IfNone};
ghost use Rattle.fts_sql.specs.Reading.{token_of, unquoted};
ghost use Rattle.fts_sql.specs.Statement as taken;
ghost use Rattle.fts_sql.specs.Statement.{names_in, strings_in, values_in};

use crate::token::Token;
use crate::value::Value;
use crate::values::Values;
use fts_types::{Names, RowTexts, Text};
use memchr::memchr;
use std::alloc::{AllocError, Global};

/// The first of the tokens, if it is a name, as it is written; else nothing.
pub fn copy_first_name(alloc: Global, tokens: &[Token]) -> Result<Text, AllocError>
    ensures { IfOk result (λ name. name ≡ taken.first_name (map token_of tokens.now)) }
{
    Ok(Text::new(first_name(tokens).to_vec(alloc)?))
}

// The same, not copied.
fn first_name<'l>(tokens: &[Token<'l>]) -> &'l [u8]
    ensures { result.now ≡ taken.first_name (map token_of tokens.now) }
{
    match tokens {
        [Token::Name(written), ..] => written,
        _ => b"",
    }
}

/// The tokens behind the first.
pub fn behind_first<'t, 'l>(tokens: &'t [Token<'l>]) -> &'t [Token<'l>]
    ensures { map token_of result.now ≡ drop 1 (map token_of tokens.now) }
{
    match tokens {
        [] => tokens,
        [_, rest @ ..] => rest,
    }
}

/// The first string among the tokens, as written between its apostrophes; nothing where there is
/// none.
pub fn first_string<'l>(tokens: &[Token<'l>]) -> &'l [u8]
    ensures { unquoted result.now ≡ taken.first_string (map token_of tokens.now) }
{
    for token in tokens {
        if let Token::String(written) = token {
            return written;
        }
    }
    b""
}

/// The first number among the tokens; 0 where there is none.
pub fn first_number(tokens: &[Token]) -> u64
    ensures { result ≡ taken.first_number (map token_of tokens.now) }
{
    for token in tokens {
        if let Token::Number(number) = token {
            return *number;
        }
    }
    0
}

/// The texts of the strings among the tokens.
pub fn copy_strings(alloc: Global, tokens: &[Token]) -> Result<RowTexts, AllocError>
    ensures { IfOk result (λ texts. texts ≡ strings_in (map token_of tokens.now)) }
{
    let mut texts = RowTexts::new(alloc);
    for token in tokens {
        if let Token::String(written) = token {
            texts.push(copy_unquoted(alloc, written)?.into_vec())?;
        }
    }
    Ok(texts)
}

/// The names among the tokens.
pub fn copy_names(alloc: Global, tokens: &[Token]) -> Result<Names, AllocError>
    ensures { IfOk result (λ names. names ≡ names_in (map token_of tokens.now)) }
{
    let mut names = Names::new(alloc);
    for token in tokens {
        if let Token::Name(written) = token {
            names.push(written.to_vec(alloc)?)?;
        }
    }
    Ok(names)
}

/// The numbers and strings among the tokens.
pub fn copy_values(alloc: Global, tokens: &[Token]) -> Result<Values, AllocError>
    ensures { IfOk result (λ values. values ≡ values_in (map token_of tokens.now)) }
{
    let mut values = Vec::new(alloc);
    for token in tokens {
        match token {
            Token::Number(number) => values.push(Value::Number(*number))?,
            Token::String(written) => values.push(Value::Text(copy_unquoted(alloc, written)?))?,
            _ => {}
        }
    }
    Ok(Values::from_vec(values))
}

/// The text of a string from what stands between its apostrophes: each doubled apostrophe as one.
pub fn copy_unquoted(alloc: Global, written: &[u8]) -> Result<Text, AllocError>
    ensures { IfOk result (λ text. text ≡ unquoted written.now) }
{
    let mut text = Vec::with_capacity(alloc, written.len())?;
    let mut rest = written;
    while let Some((front, behind)) = split_front(rest) {
        text.extend_from_slice(front)?;
        rest = behind;
    }
    Ok(Text::new(text))
}

/// What a text is up to its first apostrophe, with this, and what is written behind it.
fn split_front(written: &[u8]) -> Option<(&[u8], &[u8])>
    ensures some { IfSome result
        (λ found. unquoted written.now ≡ found.0.now ++ unquoted found.1.now) }
    ensures shorter { IfSome result (λ found. length found.1.now < length written.now) }
    ensures none { IfNone result (unquoted written.now ≡ []) }
{
    if written.is_empty() {
        return None;
    }
    let Some(place) = memchr(b'\'', written) else {
        return Some((written, b""));
    };
    let (front, rest) = written.split_at(place + 1);
    Some((front, behind_byte(rest)))
}

/// What stands behind the first byte.
fn behind_byte(bytes: &[u8]) -> &[u8]
    ensures { result.now ≡ drop 1 bytes.now }
{
    match bytes {
        [] => bytes,
        [_, behind @ ..] => behind,
    }
}
