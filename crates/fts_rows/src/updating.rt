//! The texts of a row that an UPDATE changes.
ghost use Rattle.std.specs.Prelude.{◌≡◌, ◌+◌, ◌^◌, ◌<◌, ◌≤◌, [], ◌∷◌, drop, length, IfOk, IfSome};
ghost use Rattle.std.specs.Prelude.{IfNone, IsTrue};
ghost use Rattle.std.specs.Arc.{arc_value};
ghost use Rattle.fts_commits.specs.Commit.{set_bytes, updated};

use fts_commits::NewTexts;
use fts_types::RowTexts;
use std::alloc::{AllocError, Global};
use std::sync::Arc;

/// How many bytes the texts have that are set, where a `usize` holds the number.
pub(crate) fn set_size(news: &NewTexts) -> Option<usize>
    ensures size { IfSome result (λ size. size ≡ set_bytes news.now) }
    ensures none { IfNone result (2 ^ 64 ≤ set_bytes news.now) }
{
    let mut size: usize = 0;
    for place in 0..news.len() {
        if let Some(text) = news.text(place) {
            size = size.checked_add(text.len())?;
        }
    }
    Some(size)
}

/// Whether each text stays as it is.
fn keeps_all(texts: &RowTexts, news: &NewTexts) -> bool
    ensures { IsTrue result → updated news.now texts.now ≡ texts.now }
{
    if news.len() < texts.len() {
        return false;
    }
    for place in 0..texts.len() {
        if news.text(place).is_some() {
            return false;
        }
    }
    true
}

/// The text of a column after an UPDATE.
fn text_after<'a>(texts: &'a RowTexts, news: &'a NewTexts, place: usize) -> &'a [u8]
    requires set { place < length news.now }
    requires kept { place < length texts.now }
    ensures { updated (drop place news.now) (drop place texts.now)
        ≡ result.now ∷ updated (drop (place + 1) news.now) (drop (place + 1) texts.now) }
{
    match news.text(place) {
        Some(text) => text,
        None => texts.text(place),
    }
}

/// How many columns have both a text and a place for a new one.
fn shorter(texts: &RowTexts, news: &NewTexts) -> usize
    ensures set { result ≤ length news.now }
    ensures kept { result ≤ length texts.now }
    ensures end { updated (drop result news.now) (drop result texts.now) ≡ [] }
{
    if news.len() < texts.len() {
        news.len()
    } else {
        texts.len()
    }
}

/// A copy of the texts, with the new ones in their places.
fn replaced(alloc: Global, texts: &RowTexts, news: &NewTexts) -> Result<RowTexts, AllocError>
    ensures { IfOk result (λ all. all ≡ updated news.now texts.now) }
{
    let mut all = RowTexts::new(alloc);
    for place in 0..shorter(texts, news) {
        all.push(text_after(texts, news, place).to_vec(alloc)?)?;
    }
    Ok(all)
}

/// The texts of a row after an UPDATE. Where none is set, no text is copied.
pub(crate) fn updated_texts(
    alloc: Global,
    texts: &Arc<RowTexts>,
    news: &NewTexts,
) -> Result<Arc<RowTexts>, AllocError>
    ensures { IfOk result (λ all. arc_value all ≡ updated news.now (arc_value texts.now)) }
{
    if keeps_all(texts, news) {
        return texts.clone();
    }
    match Arc::new(alloc, replaced(alloc, texts, news)?) {
        Ok(all) => Ok(all),
        Err(_) => Err(AllocError),
    }
}
