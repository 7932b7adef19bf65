ghost use Rattle.std.specs.Prelude.{◌≡◌, ◌+◌, ◌<◌, ◌≤◌, [], ◌∷◌, length, slice_get, IfNone, IfSome};
ghost use Rattle.fts_meaning.specs.Quote.{quotes_from, pairs};

use fts_words::Span;

/// The first double quote of a text from a place on.
#[tactic(auto, using(crate::proofs::QuoteLemmas::quote_here, crate::proofs::QuoteLemmas::quote_not, crate::proofs::QuoteLemmas::quote_end))]
pub(crate) fn next_quote(text: &[u8], from: usize) -> Option<usize>
    ensures first { result ≡ slice_get (quotes_from text.now from) 0 }
    ensures none { IfNone result (quotes_from text.now from ≡ []) }
    ensures some { IfSome result (λ place. quotes_from text.now from
        ≡ place ∷ quotes_from text.now (place + 1)) }
    ensures within { IfSome result (λ place. (from ≤ place) × (place < length text.now)) }
{
    let mut at = from;
    while at < text.len() {
        if text[at] == b'"' {
            return Some(at);
        }
        at += 1;
    }
    None
}

/// The first phrase of a query from a place outside of phrases on, from its opening quote to its
/// closing quote.
pub(crate) fn next_phrase(query: &[u8], from: usize) -> Option<Span>
    ensures none { IfNone result (pairs (quotes_from query.now from) ≡ []) }
    ensures some { IfSome result (λ phrase. pairs (quotes_from query.now from)
        ≡ phrase ∷ pairs (quotes_from query.now (phrase.to + 1))) }
    ensures within { IfSome result (λ phrase. (from ≤ phrase.from) × (phrase.from < phrase.to)
        × (phrase.to < length query.now)) }
{
    let from = next_quote(query, from)?;
    let to = next_quote(query, from + 1)?;
    Some(Span { from, to })
}
