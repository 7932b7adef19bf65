ghost use Rattle.std.specs.Prelude.{◌≡◌, ◌+◌, ◌<◌, ◌≤◌, ◌^◌, ◌||◌, not, length, drop, take};
ghost use Rattle.std.specs.List.{list_any};
ghost use Rattle.fts_words.specs.Indexed.{is_indexable};
ghost use Rattle.fts_types.specs.Rules.{rules_of};
ghost use Rattle.fts_words.specs.Order.{is_among};
ghost use Rattle.fts_meaning.specs.Holds.{starts_with_words, from_some_place};
ghost use Rattle.fts_plain.specs.Words.{fits, stand_first, is_close};

use fts_token::is_indexable;
use fts_types::{Settings, Texts};

/// Whether a word that was found is the word, or begins with it.
pub(crate) fn fits(is_prefix: bool, word: &[u8], found: &[u8]) -> bool
    ensures { result ≡ fits is_prefix word.now found.now }
{
    if !is_prefix {
        return found == word;
    }
    found.starts_with(word)
}

/// Whether one of the words can be an indexed word.
pub(crate) fn some_indexable(settings: &Settings, words: &Texts) -> bool
    ensures { result ≡ list_any (is_indexable (rules_of settings.now)) words.now }
{
    for place in 0..words.len() {
        if is_indexable(settings, words.text(place)) {
            return true;
        }
    }
    false
}

/// Whether words stand one behind another from a place on.
fn stands_at(all: &Texts, place: usize, words: &Texts) -> bool
    requires { place ≤ length all.now }
    ensures { result ≡ starts_with_words (drop place all.now) words.now }
{
    for i in 0..words.len() {
        if i >= all.len() - place {
            return false;
        }
        if all.text(place + i) != words.text(i) {
            return false;
        }
    }
    true
}

/// Whether words stand one behind another somewhere.
pub(crate) fn has_run(all: &Texts, words: &Texts) -> bool
    ensures { result ≡ from_some_place all.now (stand_first words.now) }
{
    for place in 0..all.len() {
        if stands_at(all, place, words) {
            return true;
        }
    }
    false
}

/// Whether a word is among those from a place on, up to another place.
fn stands_among(all: &Texts, from: usize, count: usize, word: &[u8]) -> bool
    requires order { from ≤ length all.now }
    ensures { result ≡ is_among (take count (drop from all.now)) word.now }
{
    let count = count.min(all.len() - from);
    for i in 0..count {
        if all.text(from + i) == word {
            return true;
        }
    }
    false
}

/// Whether a word can't be an indexed word, or is among so many words from a place on.
fn word_is_close(settings: &Settings, all: &Texts, from: usize, count: usize, word: &[u8]) -> bool
    requires { from ≤ length all.now }
    ensures { result ≡ (not (is_indexable (rules_of settings.now) word.now) || is_among
        (take count (drop from all.now)) word.now) }
{
    !is_indexable(settings, word) || stands_among(all, from, count, word)
}

/// Whether each indexable word is among so many words from a place on.
fn each_stands_among(
    settings: &Settings,
    all: &Texts,
    from: usize,
    count: usize,
    words: &Texts,
) -> bool
    requires { from ≤ length all.now }
    ensures { result ≡ is_close (rules_of settings.now) count words.now (drop from all.now) }
{
    for place in 0..words.len() {
        let word = words.text(place);
        if !word_is_close(settings, all, from, count, word) {
            return false;
        }
    }
    true
}

/// Whether each indexable word is among `number + 1` words that stand one behind another.
pub(crate) fn is_near(settings: &Settings, all: &Texts, words: &Texts, number: usize) -> bool
    requires { number < 2 ^ 16 }
    ensures { result ≡ from_some_place all.now
        (is_close (rules_of settings.now) (number + 1) words.now) }
{
    for place in 0..all.len() {
        if each_stands_among(settings, all, place, number + 1, words) {
            return true;
        }
    }
    false
}
