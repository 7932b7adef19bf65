//! Commits that are large but fair: want of memory is no answer to them.
use super::{
    Do, NONE, Row, add_events, commit_of, have_outcomes, insert, is_found, outcomes_of, told,
    world_behind,
};
use fts_commits::{Change, Changes};
use fts_core::{Event, Outcome, World};
use fts_disk::MemDisk;
use fts_types::DocId;
use std::alloc::Global;

type Events = Vec<Event<MemDisk, MemDisk>>;

/// The INSERTs of a thousand rows, each of a word that all have and one of its own.
fn thousand(alloc: Global) -> Option<Event<MemDisk, MemDisk>> {
    let mut changes = Vec::new(alloc);
    for key in 1..1_001 {
        let text = format!(in alloc; "apple row{key}").ok()?;
        changes.push(insert(alloc, key, &text, 1)?).ok()?;
    }
    let changes = Changes::from_vec(changes);
    Some(Event::Commit { changes })
}

/// The DELETEs of the first half of them.
fn half(alloc: Global) -> Option<Event<MemDisk, MemDisk>> {
    let mut changes = Vec::new(alloc);
    for key in 1..501 {
        changes.push(Change::Delete { key }).ok()?;
    }
    let changes = Changes::from_vec(changes);
    Some(Event::Commit { changes })
}

/// Adds so many steps of OPTIMIZE.
fn add_steps(alloc: Global, events: &mut Events, count: usize) -> Option<()> {
    for _ in 0..count {
        events.push(super::event(alloc, Do::Optimize)?).ok()?;
    }
    Some(())
}

/// Both commits, each with its batches, a whole pass, and openings and views between them.
fn changed(alloc: Global) -> Option<Events> {
    let mut events = Vec::new(alloc);
    add_events(alloc, &mut events, &[Do::Open])?;
    events.push(thousand(alloc)?).ok()?;
    add_events(alloc, &mut events, &[Do::Sync, Do::Sync, Do::Open])?;
    add_events(alloc, &mut events, &VIEWS)?;
    events.push(half(alloc)?).ok()?;
    add_events(alloc, &mut events, &[Do::Sync, Do::Open])?;
    add_steps(alloc, &mut events, 1_004)?;
    add_events(alloc, &mut events, &[Do::Open])?;
    add_events(alloc, &mut events, &VIEWS)?;
    Some(events)
}

/// Views of the word that all rows have, and of those of a row in each half.
const VIEWS: [Do; 3] = [Do::View("apple"), Do::View("row500"), Do::View("row1000")];

/// What each of these events comes to: a pass begins, makes each of the 1,001 words anew, and
/// finishes.
fn comes(place: usize) -> (&'static str, u64) {
    match place {
        0 => ("opened", 0),
        1 => ("committed", 1),
        2 => ("flushed", 1),
        3 => ("nothing", 1),
        4 => ("opened", 0),
        5..=7 => ("viewed", 1),
        8 => ("committed", 2),
        9 => ("flushed", 2),
        10 => ("opened", 0),
        11 => ("began", 0),
        12..=1_012 => ("word", 0),
        1_013 => ("finished", 0),
        1_014 => ("idle", 0),
        1_015 => ("opened", 0),
        _ => ("viewed", 2),
    }
}

/// The first of the outcomes that is another.
fn first_other(outcomes: &[Outcome]) -> Option<usize> {
    for (k, outcome) in outcomes.iter().enumerate() {
        if told(outcome) != comes(k) {
            return Some(k);
        }
    }
    None
}

/// The ids from one on, up to 1,000.
fn ids_from(alloc: Global, first: DocId) -> Option<Vec<DocId>> {
    let mut ids = Vec::new(alloc);
    for id in first..1_001 {
        ids.push(id).ok()?;
    }
    Some(ids)
}

/// Whether a view stands in this place, and tells so of a word.
fn is_told(
    alloc: Global,
    outcomes: &[Outcome],
    place: usize,
    word: &str,
    way: &(u64, &[DocId]),
) -> bool {
    match outcomes.get(place) {
        None => false,
        Some(outcome) => is_found(alloc, outcome, word, way),
    }
}

/// Whether the views before the DELETEs and behind them find their rows.
fn find_rows(alloc: Global, outcomes: &[Outcome]) -> bool {
    match (ids_from(alloc, 1), ids_from(alloc, 501)) {
        (Some(all), Some(left)) => {
            is_told(alloc, outcomes, 5, "apple", &(1, &all))
                && is_told(alloc, outcomes, 6, "row500", &(1, &[500]))
                && is_told(alloc, outcomes, 7, "row1000", &(1, &[1_000]))
                && is_told(alloc, outcomes, 1_016, "apple", &(2, &left))
                && is_told(alloc, outcomes, 1_017, "row500", &(2, &[]))
                && is_told(alloc, outcomes, 1_018, "row1000", &(2, &[1_000]))
        }
        _ => false,
    }
}

/// What came of events on a new database.
fn outcomes_behind(alloc: Global, events: Option<Events>) -> Option<Vec<Outcome>> {
    outcomes_of(alloc, NONE, events?)
}

#[test]
fn a_thousand_rows_are_flushed_and_half_of_them_taken_out(rt: HostRuntime) {
    let alloc = rt.alloc();
    match outcomes_behind(alloc, changed(alloc)) {
        None => panic!(rt; "no outcomes"),
        Some(outcomes) => {
            assert_eq!(rt; first_other(&outcomes), None);
            assert!(rt; outcomes.len() == 1_019 && find_rows(alloc, &outcomes));
        }
    }
}

const LETTERS: [char; 26] = [
    'a', 'b', 'c', 'd', 'e', 'f', 'g', 'h', 'i', 'j', 'k', 'l', 'm', 'n', 'o', 'p', 'q', 'r', 's',
    't', 'u', 'v', 'w', 'x', 'y', 'z',
];

/// Adds a word of three letters, which tell its number.
fn add_word(text: &mut String, number: usize) -> Option<()> {
    text.push(LETTERS[number / 676 % 26]).ok()?;
    text.push(LETTERS[number / 26 % 26]).ok()?;
    text.push(LETTERS[number % 26]).ok()
}

/// A text of 65,535 bytes: 16,384 words.
fn longest_text(alloc: Global) -> Option<String> {
    let mut text = String::new(alloc);
    for number in 0..16_383 {
        add_word(&mut text, number)?;
        text.push(' ').ok()?;
    }
    add_word(&mut text, 16_383)?;
    Some(text)
}

/// The commit of a row with this text, an opening, a batch, an opening, and views.
fn flushed(alloc: Global, text: &str) -> Option<Events> {
    let mut events = Vec::new(alloc);
    add_events(alloc, &mut events, &[Do::Open])?;
    events
        .push(commit_of(alloc, insert(alloc, 1, text, 1))?)
        .ok()?;
    add_events(alloc, &mut events, &[Do::Open, Do::Sync, Do::Open])?;
    add_events(alloc, &mut events, &ENDS)?;
    Some(events)
}

/// Views of the first and the last of its words, and of one that it does not have.
const ENDS: [Do; 3] = [Do::View("aaa"), Do::View("ygd"), Do::View("zzz")];

/// What these events come to.
const FLUSHED: [Row; 8] = [
    (Do::Open, "opened", 0),
    (Do::Insert(1, "its text"), "committed", 1),
    (Do::Open, "opened", 0),
    (Do::Sync, "flushed", 1),
    (Do::Open, "opened", 0),
    (Do::View("aaa"), "viewed", 1),
    (Do::View("ygd"), "viewed", 1),
    (Do::View("zzz"), "viewed", 1),
];

/// Whether they come so, and the views find the row.
fn are_flushed(alloc: Global, outcomes: &[Outcome]) -> bool {
    have_outcomes(&FLUSHED, outcomes)
        && is_told(alloc, outcomes, 5, "aaa", &(1, &[1]))
        && is_told(alloc, outcomes, 6, "ygd", &(1, &[1]))
        && is_told(alloc, outcomes, 7, "zzz", &(1, &[]))
}

/// How many bytes each log has.
fn sizes(world: World<MemDisk, MemDisk>) -> (usize, usize) {
    let World { place, .. } = world;
    let (rows, index) = place.close();
    (rows.file(0).len(), index.file(0).len())
}

/// How long the logs are behind a row of 65,535 bytes, if all comes so. That of the rows has 34
/// bytes before its commit, and the commit 20 beside the text.
fn longest_sizes(alloc: Global) -> Option<(usize, usize)> {
    let text = longest_text(alloc)?;
    if text.len() != 65_535 {
        return None;
    }
    let events = flushed(alloc, &text)?;
    match world_behind(alloc, NONE, events) {
        None => None,
        Some((world, outcomes)) => {
            let sizes = sizes(world);
            if are_flushed(alloc, &outcomes) {
                return Some(sizes);
            }
            None
        }
    }
}

#[test]
fn a_row_of_65535_bytes_is_kept_and_flushed(rt: HostRuntime) {
    match longest_sizes(rt.alloc()) {
        None => panic!(rt; "not so"),
        Some((rows, index)) => assert!(rt; rows == 65_589 && index > 65_589, "{rows} and {index}"),
    }
}
