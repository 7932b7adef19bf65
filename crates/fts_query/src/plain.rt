ghost use Rattle.std.specs.Prelude.{◌≡◌, ◌+◌, ◌-◌, ◌<◌, ◌≤◌, length, IfOk};
ghost use Rattle.fts_meaning.specs.Plain.{with_spaces, phrase_end, plain};

use crate::distance::distance_tail;
use crate::quotes::next_phrase;
use std::alloc::{AllocError, Global};

/// Writes spaces from a place up to another.
fn fill_with_spaces(text: &mut [u8], from: usize, to: usize)
    requires order { from ≤ to }
    requires within { to ≤ length text.old }
    ensures { text.new ≡ with_spaces text.old from (to - from) }
{
    text[from..to].fill(b' ');
}

/// Where the phrase ends whose closing quote is given: behind it, and behind the tail of a distance
/// where one follows.
fn phrase_end(query: &[u8], close: usize) -> usize
    requires { close < length query.now }
    ensures end { result ≡ phrase_end query.now close }
    ensures order { close < result }
    ensures within { result ≤ length query.now }
{
    match distance_tail(&query[close + 1..]) {
        Some((len, _)) => close + 1 + len,
        None => close + 1,
    }
}

/// Writes spaces in place of the phrases and distances of a query, of which the text is a copy.
#[tactic(auto, using(crate::proofs::PlainLemmas::without_more, crate::proofs::PlainLemmas::without_none))]
fn hide_phrases(query: &[u8], text: &mut [u8])
    requires { text.old ≡ query.now }
    ensures { text.new ≡ plain query.now }
{
    let mut at = 0;
    while let Some(phrase) = next_phrase(query, at) {
        let end = phrase_end(query, phrase.to);
        fill_with_spaces(text, phrase.from + 1, end);
        at = phrase.to + 1;
    }
}

/// What is left of a query once its quotes are paired: its bytes, with spaces in place of phrases
/// and distances.
pub(crate) fn plain_text(alloc: Global, query: &[u8]) -> Result<Vec<u8>, AllocError>
    ensures { IfOk result (λ text. text.items ≡ plain query.now) }
{
    let mut text = query.to_vec(alloc)?;
    hide_phrases(query, &mut text);
    Ok(text)
}
