use fts_phrase::{distance_holds, phrase_holds};
use fts_types::Texts;
use std::alloc::{AllocError, Global};
use std::test::*;

// The words or texts of a list.
fn texts(alloc: Global, texts: &[&str]) -> Result<Texts, AllocError> {
    let mut all = Texts::new(alloc);
    for text in texts {
        all.push(text.as_bytes().to_vec(alloc)?)?;
    }
    Ok(all)
}

const PHRASES: &[(&[&str], &[&str], bool)] = &[
    (&["x", "Test, phrase"], &["test", "phrase"], true),
    (&["x", "test the phrase"], &["test", "phrase"], false),
    (&["a test", "phrase b"], &["test", "phrase"], false),
    (&["a test", "phrase b"], &["phrase", "b"], true),
    (&["a a a b"], &["a", "a", "b"], true),
    (&["a b a"], &["a", "a"], false),
    (&["of the pie"], &["the", "pie"], true),
    (&["it's late"], &["it's", "late"], true),
    (&["it''s late"], &["it's"], false),
    (&["one apple"], &["apple", "pie"], false),
    (&["", "pie"], &["pie"], true),
    (&["", "!"], &["pie"], false),
];

// Whether a phrase holds.
fn stands(alloc: Global, columns: &[&str], words: &[&str]) -> Result<bool, AllocError> {
    let columns = texts(alloc, columns)?;
    let words = texts(alloc, words)?;
    Ok(phrase_holds(&columns, &words))
}

#[test]
fn a_phrase_holds_in_one_column(rt: HostRuntime) -> Result<(), Fail> {
    for (columns, words, want) in PHRASES {
        let found = stands(rt.alloc(), columns, words)?;
        assert!(rt; found == *want, "{words:?} in {columns:?}");
    }
    Ok(())
}

// Whether a distance holds, with a place to work in.
fn holds(alloc: Global, columns: &[&str], words: &[&str], reach: u16) -> Result<bool, AllocError> {
    let columns = texts(alloc, columns)?;
    let words = texts(alloc, words)?;
    let mut last = Vec::new(alloc);
    for _ in 0..words.len() {
        last.push(7)?;
    }
    if last.len() != words.len() {
        return Ok(false);
    }
    Ok(distance_holds(&columns, &words, reach, last.as_mut_slice()))
}

const DISTANCES: &[(&[&str], &[&str], u16, bool)] = &[
    (&["apple the pie"], &["apple", "pie"], 2, true),
    (&["apple the pie"], &["apple", "pie"], 1, false),
    (&["apple of the pie"], &["apple", "pie"], 2, false),
    (&["apple of the pie"], &["pie", "apple"], 3, true),
    (&["apple apple"], &["apple", "apple"], 0, true),
    (&["apple apple"], &["apple", "pie"], 0, false),
    (&["Apple x x pie APPLE"], &["apple", "pie"], 1, true),
    (&["an apple", "pie"], &["apple", "pie"], 9, false),
    (&["pie", "apple a pie"], &["apple", "pie"], 2, true),
    (&["a b c d e"], &["e", "a", "c"], 4, true),
    (&["a b c d e"], &["e", "a", "c"], 3, false),
    (&["a c b x x a c d"], &["a", "b", "c", "d"], 5, true),
    (&["a b"], &["c"], 65_535, false),
];

#[test]
fn a_distance_counts_all_words(rt: HostRuntime) -> Result<(), Fail> {
    for (columns, words, reach, want) in DISTANCES {
        let found = holds(rt.alloc(), columns, words, *reach)?;
        assert!(rt; found == *want, "{words:?} in {columns:?}");
    }
    Ok(())
}
