ghost use Rattle.std.specs.Prelude.{◌≡◌, ℕ, ◌+◌, ◌<◌, ◌≤◌, ◌^◌, ◌==◌, ◌&&◌, nat_le, length};
ghost use Rattle.fts_meaning.specs.Token.{is_sign, begins_unit, stray_at};
ghost use Rattle.fts_meaning.specs.Fault.{opened, closed, IsLoneOpen, IsFaulty, IsTooDeep};
ghost use Rattle.fts_query.specs.Found.{IsEarly, IsFirstBetween, IsSeenFrom, height_behind};
ghost use Rattle.fts_query.specs.Found.{earlier};

use crate::quotes::next_quote;
use crate::words::byte_at;
use fts_token::{has_word_byte, is_word_byte};

/// How deep brackets may stand.
const DEEPEST: usize = 32;

/// Whether the byte is one of `+`, `-`, `<`, `>` and `~`.
fn is_sign(byte: u8) -> bool
    ensures { result ≡ is_sign byte }
{
    byte == b'+' || byte == b'-' || byte == b'<' || byte == b'>' || byte == b'~'
}

/// Whether an operand or a bracket begins with this byte.
fn begins_unit(byte: u8) -> bool
    ensures { result ≡ begins_unit byte }
{
    is_word_byte(byte) || byte == b'"' || byte == b'('
}

/// Whether the byte at a place is at fault by itself. `text` is what is left of the query.
#[tactic(auto, unfolding(fts_meaning::specs::Token::stray_at))]
fn is_stray(query: &[u8], text: &[u8], place: usize) -> bool
    requires { place < length text.now }
    ensures { result ≡ stray_at query.now text.now place }
{
    let byte = text[place];
    (is_sign(byte) && !begins_unit(byte_at(text, place + 1)))
        || (byte == b'*' && !has_word_byte(text, place.saturating_sub(1)))
        || byte == b'@'
        || (byte == b'"' && next_quote(query, place + 1).is_none())
}

/// How many brackets are open behind a byte.
fn height_behind(byte: u8, height: usize) -> usize
    requires { height < 2 ^ 63 }
    ensures { result ≡ height_behind byte height }
{
    match byte {
        b'(' => height + 1,
        b')' => height.saturating_sub(1),
        _ => height,
    }
}

/// Whether the byte is a `)` where no bracket is open.
fn closes_nothing(byte: u8, height: usize) -> bool
    ensures { result ≡ ((byte == 41) && (height == 0)) }
{
    byte == b')' && height == 0
}

/// The first place that has a byte at fault by itself, or a `)` without its `(`.
fn first_early(query: &[u8], text: &[u8]) -> Option<usize>
    ensures { IsFirstBetween (IsEarly query.now text.now) 0 (length text.now) result }
{
    let mut height: usize = 0;
    for place in 0..text.len() {
        if is_stray(query, text, place) {
            return Some(place);
        }
        if closes_nothing(text[place], height) {
            return Some(place);
        }
        height = height_behind(text[place], height);
    }
    None
}

/// A scan for brackets from the end.
#[derive(Clone, Copy)]
struct Backward {
    /// How many `)` have no `(` yet.
    pending: usize,
    /// The first `(` without its `)`.
    found: Option<usize>,
}

impl Backward {
    /// Goes on by the byte at a place.
    fn step(self, text: &[u8], place: usize) -> Backward
        requires within { place < length text.now }
        requires seen { IsSeenFrom text.now (place + 1) self.pending self.found }
        requires small { self.pending < 2 ^ 63 }
        ensures seen { IsSeenFrom text.now place result.pending result.found }
        ensures small { result.pending ≤ self.pending + 1 }
    {
        let Backward { pending, found } = self;
        if text[place] == b')' {
            return Backward {
                pending: pending + 1,
                found,
            };
        }
        if text[place] != b'(' {
            return self;
        }
        if pending == 0 {
            return Backward {
                pending,
                found: Some(place),
            };
        }
        Backward {
            pending: pending - 1,
            found,
        }
    }
}

/// The first `(` without its `)`.
fn first_lone_open(text: &[u8]) -> Option<usize>
    ensures { IsFirstBetween (IsLoneOpen text.now) 0 (length text.now) result }
{
    let mut seen = Backward {
        pending: 0,
        found: None,
    };
    let mut place = text.len();
    while place > 0 {
        place -= 1;
        seen = seen.step(text, place);
    }
    seen.found
}

/// The earlier of two places.
fn earlier(first: Option<usize>, second: Option<usize>) -> Option<usize>
    ensures { result ≡ earlier first second }
{
    match first {
        None => second,
        Some(place) => match second {
            None => Some(place),
            Some(other) => Some(place.min(other)),
        },
    }
}

/// The leftmost byte at fault. `text` is what is left of the query.
pub(crate) fn first_fault(query: &[u8], text: &[u8]) -> Option<usize>
    ensures { IsFirstBetween (IsFaulty query.now text.now) 0 (length text.now) result }
{
    earlier(first_early(query, text), first_lone_open(text))
}

/// The first bracket that stands more than 32 deep, in a text in which no `)` lacks its `(`.
pub(crate) fn first_too_deep(text: &[u8]) -> Option<usize>
    requires { (i : ℕ) → i ≤ length text.now → closed text.now i ≤ opened text.now i }
    ensures { IsFirstBetween (IsTooDeep text.now) 0 (length text.now) result }
{
    let mut height: usize = 0;
    for place in 0..text.len() {
        if is_too_deep(text[place], height) {
            return Some(place);
        }
        height = height_behind(text[place], height);
    }
    None
}

/// Whether the byte is a `(` inside of as many brackets as may stand around another.
fn is_too_deep(byte: u8, height: usize) -> bool
    ensures { result ≡ ((byte == 40) && nat_le 32 height) }
{
    byte == b'(' && height >= DEEPEST
}
