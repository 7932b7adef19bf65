ghost use Rattle.std.specs.Prelude.{◌≡◌, ◌<◌, [], length, map, slice_index_or, IfOk};
ghost use Rattle.fts_gen.specs.Draws.{draw, word_of, text_behind, draws};

use crate::table::joined;
use std::alloc::{AllocError, Global};

// The words of texts and searches.
const VOCABULARY: [&str; 16] = [
    "ant", "bee", "cat", "dog", "elk", "fox", "gnu", "hen", "ibis", "jay", "kite", "lark", "mole",
    "newt", "owl", "pony",
];

/// The draw behind a draw: the next of a sequence of numbers below 65,537.
pub fn next_draw(x: u32) -> u32
    ensures { result ≡ draw x }
{
    ((75 * u64::from(x) + 74) % 65_537) as u32
}

// The bytes of a word by its number, from 0.
fn word_at(words: &[&'static str], number: usize) -> &'static [u8]
    requires { number < length words.now }
    ensures { result.now ≡ slice_index_or (map (λ w. w.now) words.now) number [] }
{
    words[number].as_bytes()
}

/// The word of a draw.
pub fn drawn_word(x: u32) -> &'static [u8]
    ensures { result.now ≡ word_of x }
{
    word_at(&VOCABULARY, (x % 16) as usize)
}

/// The text of the five words drawn behind a draw, and the last of these draws.
pub fn drawn_text(alloc: Global, x: u32) -> Result<(Vec<u8>, u32), AllocError>
    ensures { IfOk result (λ drawn. (drawn.0.items ≡ text_behind x) × (drawn.1 ≡ draws 5 x)) }
{
    let a = next_draw(x);
    let b = next_draw(a);
    let c = next_draw(b);
    let d = next_draw(c);
    let e = next_draw(d);
    let words: [&[u8]; 9] = [
        drawn_word(a),
        b" ",
        drawn_word(b),
        b" ",
        drawn_word(c),
        b" ",
        drawn_word(d),
        b" ",
        drawn_word(e),
    ];
    Ok((joined(alloc, &words)?, e))
}
