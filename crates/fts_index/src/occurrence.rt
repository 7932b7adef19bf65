ghost use Rattle.std.specs.Prelude.{◌≡◌, map, IfOk, IsPermutation};
ghost use Rattle.std.specs.List.Sorted.{IsSortedBy};
ghost use Rattle.fts_words.specs.Byte.{lowered};
ghost use Rattle.fts_token.specs.Row.{LiesIn};
ghost use Rattle.fts_types.specs.Row.{IsRow};
ghost use Rattle.fts_types.specs.Rules.{rules_of};
ghost use Rattle.fts_index.specs.Occurrences.{spot_of, spot_at, AreListed, stands_before};
ghost use Rattle.fts_index.specs.Occurrences.{AreSorted};

use crate::keyed::Occurrence;
use fts_token::{indexed_words, lowered};
use fts_types::{RowTexts, Settings};
use fts_words::PlacedWord;
use std::alloc::{AllocError, Global};

/// The texts of a row with their letters lowered.
pub(crate) fn lowered_texts(alloc: Global, texts: &RowTexts) -> Result<RowTexts, AllocError>
    ensures { IfOk result (λ lower. lower ≡ map lowered texts.now) }
{
    let mut lower = RowTexts::new(alloc);
    for place in 0..texts.len() {
        lower.push(lowered(alloc, texts.text(place))?)?;
    }
    Ok(lower)
}

/// A word of a row, in the row's lowered texts, and where it starts.
fn found_in<'a>(lower: &'a RowTexts, found: &PlacedWord) -> Occurrence<'a>
    requires { LiesIn lower.now found.now }
    ensures { spot_of result ≡ spot_at lower.now found.now }
{
    Occurrence::new(found.span.of(lower.text(found.column)), found.position)
}

/// How many words texts may have, so that their list seldom grows: one of six bytes each.
fn words_expected(texts: &RowTexts) -> usize {
    match texts.size() {
        Some(size) => size / 6,
        None => 0,
    }
}

/// The indexed words of a row, in their order.
fn listed<'a>(
    alloc: Global,
    settings: &Settings,
    texts: &RowTexts,
    lower: &'a RowTexts,
) -> Result<Vec<Occurrence<'a>>, AllocError>
    requires row { IsRow texts.now }
    requires lower { lower.now ≡ map lowered texts.now }
    ensures { IfOk result (λ all. AreListed (rules_of settings.now) texts.now all.items) }
{
    let mut all = Vec::with_capacity(alloc, words_expected(texts))?;
    for found in indexed_words(settings, texts) {
        all.push(found_in(lower, &found))?;
    }
    Ok(all)
}

/// Sorts occurrences by the bytes of their words, and those of one word by their positions. It
/// takes no memory.
fn sort(all: &mut [Occurrence<'_>])
    ensures same { IsPermutation all.old all.new }
    ensures sorted { IsSortedBy stands_before all.new }
{
    all.sort_unstable_by(|a, b| a.compare(b));
}

/// The indexed words of a row by the order of their bytes, the same word by its positions.
///
/// They borrow the words from the row's lowered texts.
pub(crate) fn occurrences<'a>(
    alloc: Global,
    settings: &Settings,
    texts: &RowTexts,
    lower: &'a RowTexts,
) -> Result<Vec<Occurrence<'a>>, AllocError>
    requires row { IsRow texts.now }
    requires lower { lower.now ≡ map lowered texts.now }
    ensures { IfOk result (λ all. AreSorted (rules_of settings.now) texts.now all.items) }
{
    // That it is a byte bounds the words' lengths, and so the size of a document.
    let _longest = settings.max;
    let mut all = listed(alloc, settings, texts, lower)?;
    sort(&mut all);
    Ok(all)
}
