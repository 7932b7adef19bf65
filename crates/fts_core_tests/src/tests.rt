mod faults;
mod large;
mod passing;
mod random;

use crate::number_behind_crash;
use fts_commits::{Change, Changes, NewTexts};
use fts_core::{Event, Last, Outcome, Place, World, step, steps};
use fts_disk::{Kind, MemDisk};
use fts_engine::{Device, OpenError, create_engine};
use fts_eval::{answer, leaves};
use fts_listing::ListingKind;
use fts_query::{Leaf, Query, parse};
use fts_steps::{CommitError, IndexError, OptimizeStep, SyncBatch};
use fts_types::{DocId, DocIds, Key, Limits, Names, RowTexts, Settings, SharedTexts};
use std::alloc::{AllocError, Global};

/// Settings of a table of one column.
fn settings(alloc: Global) -> Result<Settings, AllocError> {
    let mut columns = Names::new(alloc);
    columns.push(b"body".to_vec(alloc)?)?;
    Ok(Settings {
        columns,
        min: 3,
        max: 84,
        stopword: true,
        optimize_words: 2_000,
        cache_bytes: 8_000_000,
        batch_docs: 1_000,
    })
}

/// Which calls of each device fail.
#[derive(Clone, Copy)]
struct Fails {
    rows: &'static [(Kind, u64)],
    index: &'static [(Kind, u64)],
}

/// No call fails.
const NONE: Fails = Fails {
    rows: &[],
    index: &[],
};

/// The rows device fails in its sixth sync: the second of the first commit.
const FAILING: Fails = Fails {
    rows: &[(Kind::Sync, 6)],
    index: &[],
};

/// An empty device of which these calls fail.
fn empty_disk(alloc: Global, fails: &[(Kind, u64)]) -> Option<MemDisk> {
    let mut named = Vec::new(alloc);
    for fail in fails {
        named.push(*fail).ok()?;
    }
    MemDisk::from_files(alloc, Vec::new(alloc), named).ok()
}

/// A world of devices on which a database was just created.
fn created(alloc: Global, fails: Fails) -> Option<World<MemDisk, MemDisk>> {
    let settings = settings(alloc).ok()?;
    if settings.check().is_err() {
        return None;
    }
    let rows = empty_disk(alloc, fails.rows)?;
    let index = empty_disk(alloc, fails.index)?;
    match create_engine(alloc, &settings, rows, index) {
        Ok((rows, index)) => Some(World::new(alloc, rows, index)),
        Err(_) => None,
    }
}

/// What is done to a database.
#[derive(Clone, Copy)]
enum Do {
    Open,
    OpenAbove,
    Insert(Key, &'static str),
    /// An INSERT and a DELETE of its row, within one commit.
    InsertDelete(Key, &'static str),
    InsertTwo(Key, &'static str),
    Update(Key, &'static str),
    Delete(Key),
    Sync,
    Optimize,
    View(&'static str),
    List,
}

/// A query.
fn query(alloc: Global, text: &str) -> Option<Query> {
    parse(alloc, text.as_bytes()).ok()
}

/// The leaves of a query.
fn leaves_of(alloc: Global, text: &str) -> Option<Vec<Leaf>> {
    let settings = settings(alloc).ok()?;
    leaves(alloc, &settings, &query(alloc, text)?).ok()
}

/// The change of an INSERT of this text in so many columns.
fn insert(alloc: Global, key: Key, text: &str, columns: usize) -> Option<Change> {
    let mut texts = RowTexts::new(alloc);
    for _ in 0..columns {
        texts.push(text.as_bytes().to_vec(alloc).ok()?).ok()?;
    }
    let texts = SharedTexts::new(alloc, texts).ok()?;
    let doc = None;
    Some(Change::Insert { key, doc, texts })
}

/// The change of an UPDATE.
fn update(alloc: Global, key: Key, text: &str) -> Option<Change> {
    let text = text.as_bytes().to_vec(alloc).ok()?;
    let texts = NewTexts::from_vec(vec![in alloc; Some(text)].ok()?);
    Some(Change::Update { key, texts })
}

/// A commit of one change.
fn commit_of(alloc: Global, change: Option<Change>) -> Option<Event<MemDisk, MemDisk>> {
    let changes = Changes::from_vec(vec![in alloc; change?].ok()?);
    Some(Event::Commit { changes })
}

/// A commit of an INSERT, and of a DELETE of its row.
fn insert_delete(alloc: Global, key: Key, text: &str) -> Option<Event<MemDisk, MemDisk>> {
    let inserted = insert(alloc, key, text, 1)?;
    let deleted = Change::Delete { key };
    let changes = Changes::from_vec(vec![in alloc; inserted, deleted].ok()?);
    Some(Event::Commit { changes })
}

/// The event of what is done.
fn event(alloc: Global, what: Do) -> Option<Event<MemDisk, MemDisk>> {
    match what {
        Do::Open => Some(Event::Opening {
            limits: Limits::standard(),
        }),
        Do::OpenAbove => {
            let mut limits = Limits::standard();
            limits.rows = 1_000_001;
            Some(Event::Opening { limits })
        }
        Do::Insert(key, text) => commit_of(alloc, insert(alloc, key, text, 1)),
        Do::InsertDelete(key, text) => insert_delete(alloc, key, text),
        Do::InsertTwo(key, text) => commit_of(alloc, insert(alloc, key, text, 2)),
        Do::Update(key, text) => commit_of(alloc, update(alloc, key, text)),
        Do::Delete(key) => commit_of(alloc, Some(Change::Delete { key })),
        Do::Sync => Some(Event::SyncBatch),
        Do::Optimize => Some(Event::OptimizeStep),
        Do::View(text) => Some(Event::View {
            leaves: leaves_of(alloc, text)?,
        }),
        Do::List => Some(Event::Listing {
            kind: ListingKind::IndexTable,
        }),
    }
}

/// Adds the events of what is done.
fn add_events(alloc: Global, events: &mut Vec<Event<MemDisk, MemDisk>>, part: &[Do]) -> Option<()> {
    for what in part {
        events.push(event(alloc, *what)?).ok()?;
    }
    Some(())
}

/// What a crash left: file 0 of each device.
#[derive(Drop)]
struct Image {
    rows: Vec<u8>,
    index: Vec<u8>,
}

/// A device that has these bytes.
fn disk_of(alloc: Global, bytes: &[u8]) -> Option<MemDisk> {
    let files = vec![in alloc; bytes.to_vec(alloc).ok()?].ok()?;
    MemDisk::from_files(alloc, files, Vec::new(alloc)).ok()
}

/// A crash within the last call, or after it.
fn crash_of(alloc: Global, image: &Image, within: bool) -> Option<Event<MemDisk, MemDisk>> {
    let rows = disk_of(alloc, &image.rows)?;
    let index = disk_of(alloc, &image.index)?;
    Some(Event::Crash {
        rows,
        index,
        within,
    })
}

/// The events of these parts, with a crash between two of them.
fn list_of(
    alloc: Global,
    parts: &[&[Do]],
    images: &[Image],
) -> Option<Vec<Event<MemDisk, MemDisk>>> {
    let mut events = Vec::new(alloc);
    for (k, part) in parts.iter().enumerate() {
        add_events(alloc, &mut events, part)?;
        if let Some(image) = images.get(k) {
            events.push(crash_of(alloc, image, true)?).ok()?;
        }
    }
    Some(events)
}

/// What came of events on a new database.
fn outcomes_of(
    alloc: Global,
    fails: Fails,
    events: Vec<Event<MemDisk, MemDisk>>,
) -> Option<Vec<Outcome>> {
    match created(alloc, fails) {
        None => None,
        Some(world) => match steps(alloc, world, events) {
            Ok((world, outcomes)) => {
                drop(world);
                Some(outcomes)
            }
            Err((world, events)) => {
                drop(world);
                drop(events);
                None
            }
        },
    }
}

/// The world behind events on a new database, and what came of them.
fn world_behind(
    alloc: Global,
    fails: Fails,
    events: Vec<Event<MemDisk, MemDisk>>,
) -> Option<(World<MemDisk, MemDisk>, Vec<Outcome>)> {
    match created(alloc, fails) {
        None => None,
        Some(world) => match steps(alloc, world, events) {
            Ok((world, outcomes)) => Some((world, outcomes)),
            Err((world, events)) => {
                drop(world);
                drop(events);
                None
            }
        },
    }
}

/// The devices behind events on a new database.
fn devices_behind(
    alloc: Global,
    fails: Fails,
    events: Vec<Event<MemDisk, MemDisk>>,
) -> Option<(MemDisk, MemDisk)> {
    match created(alloc, fails) {
        None => None,
        Some(world) => match steps(alloc, world, events) {
            Ok((world, _)) => {
                let World { place, .. } = world;
                Some(place.close())
            }
            Err((world, events)) => {
                drop(world);
                drop(events);
                None
            }
        },
    }
}

/// What an outcome is called, and the number that it has.
fn told(outcome: &Outcome) -> (&'static str, u64) {
    match outcome {
        Outcome::NoEngine => ("no engine", 0),
        Outcome::DoesNotFit => ("does not fit", 0),
        Outcome::Opened { result } => told_opening(result),
        Outcome::Committed { result } => told_commit(result),
        Outcome::Synced { result } => told_sync(result),
        Outcome::Optimized { result } => told_optimize(result),
        Outcome::Viewed { result: Ok(view) } => ("viewed", view.number),
        Outcome::Listed {
            result: Ok(listing),
        } => ("listed", listing.number),
        Outcome::Crashed => ("crashed", 0),
        _ => ("other", 0),
    }
}

fn told_opening(told: &Result<(), OpenError>) -> (&'static str, u64) {
    match told {
        Ok(()) => ("opened", 0),
        Err(OpenError::NotCreated) => ("not created", 0),
        Err(_) => ("not opened", 0),
    }
}

fn told_commit(told: &Result<u64, CommitError>) -> (&'static str, u64) {
    match told {
        Ok(number) => ("committed", *number),
        Err(CommitError::DiskFault { .. }) => ("disk fault", 0),
        Err(CommitError::Stopped { .. }) => ("stopped", 0),
        Err(_) => ("not committed", 0),
    }
}

fn told_sync(told: &Result<SyncBatch, IndexError>) -> (&'static str, u64) {
    match told {
        Ok(SyncBatch::Flushed { through, .. }) => ("flushed", *through),
        Ok(SyncBatch::Nothing { commits }) => ("nothing", *commits),
        Err(IndexError::Stopped { .. }) => ("stopped", 0),
        Err(_) => ("not flushed", 0),
    }
}

fn told_optimize(told: &Result<OptimizeStep, IndexError>) -> (&'static str, u64) {
    match told {
        Ok(OptimizeStep::Began) => ("began", 0),
        Ok(OptimizeStep::Word) => ("word", 0),
        Ok(OptimizeStep::Finished) => ("finished", 0),
        Ok(OptimizeStep::Nothing) => ("idle", 0),
        Err(_) => ("not optimized", 0),
    }
}

/// What is done, what comes of it, and the number that this has.
type Row = (Do, &'static str, u64);

/// Events without an engine, and then each once and some again.
const EVENTS: [Row; 19] = [
    (Do::Insert(1, "apple"), "no engine", 0),
    (Do::View("apple"), "no engine", 0),
    (Do::OpenAbove, "does not fit", 0),
    (Do::Open, "opened", 0),
    (Do::Insert(1, "apple"), "committed", 1),
    (Do::InsertTwo(2, "apple"), "does not fit", 0),
    (Do::Insert(2, "a\nb"), "does not fit", 0),
    (Do::Insert(1, "apple"), "not committed", 0),
    (Do::Sync, "flushed", 1),
    (Do::Sync, "nothing", 1),
    (Do::Optimize, "idle", 0),
    (Do::Update(1, "apple pear"), "committed", 2),
    (Do::Sync, "flushed", 2),
    (Do::Optimize, "began", 0),
    (Do::Optimize, "word", 0),
    (Do::OpenAbove, "does not fit", 0),
    (Do::Open, "opened", 0),
    (Do::List, "listed", 2),
    (Do::Delete(1), "committed", 3),
];

/// The events of rows.
fn events_of(alloc: Global, rows: &[Row]) -> Option<Vec<Event<MemDisk, MemDisk>>> {
    let mut events = Vec::new(alloc);
    for (what, _, _) in rows {
        events.push(event(alloc, *what)?).ok()?;
    }
    Some(events)
}

/// Whether each row has its outcome.
fn have_outcomes(rows: &[Row], outcomes: &[Outcome]) -> bool {
    for (k, (_, name, number)) in rows.iter().enumerate() {
        match outcomes.get(k) {
            Some(outcome) if told(outcome) == (*name, *number) => {}
            _ => return false,
        }
    }
    rows.len() == outcomes.len()
}

/// Whether rows come so on a new database.
fn come_so(alloc: Global, fails: Fails, rows: &[Row]) -> bool {
    match events_of(alloc, rows) {
        None => false,
        Some(events) => match outcomes_of(alloc, fails, events) {
            None => false,
            Some(outcomes) => have_outcomes(rows, &outcomes),
        },
    }
}

#[test]
fn each_event_has_its_outcome(rt: HostRuntime) {
    assert!(rt; come_so(rt.alloc(), NONE, &EVENTS));
}

/// Events behind a commit whose device failed.
const STOPPED: [Row; 6] = [
    (Do::Open, "opened", 0),
    (Do::Insert(1, "apple"), "disk fault", 0),
    (Do::Insert(2, "apple"), "stopped", 0),
    (Do::View("apple"), "viewed", 0),
    (Do::Open, "opened", 0),
    (Do::View("apple"), "viewed", 1),
];

#[test]
fn a_fault_stops_the_engine(rt: HostRuntime) {
    assert!(rt; come_so(rt.alloc(), FAILING, &STOPPED));
}

/// File 0 of a device after a stop in one of its calls, counted back from the last, 1; with 0 it is
/// as it reads.
fn stopped(alloc: Global, disk: &MemDisk, back: usize, choice: u64) -> Option<Vec<u8>> {
    let calls = disk.calls().len();
    if back == 0 || back > calls {
        return disk.file(0).to_vec(alloc).ok();
    }
    let image = disk.pick_image(calls - back, choice).ok()?;
    image.file(0).to_vec(alloc).ok()
}

/// What a stop in a call of one of the devices left of both.
fn image_of(
    alloc: Global,
    (rows, index): (&MemDisk, &MemDisk),
    on: Device,
    back: usize,
    choice: u64,
) -> Option<Image> {
    let (of_rows, of_index) = match on {
        Device::Rows => (back, 0),
        Device::Index => (0, back),
    };
    let rows = stopped(alloc, rows, of_rows, choice)?;
    let index = stopped(alloc, index, of_index, choice)?;
    Some(Image { rows, index })
}

/// What a stop left behind events on a new database.
fn crashed(
    alloc: Global,
    fails: Fails,
    events: Vec<Event<MemDisk, MemDisk>>,
    on: Device,
    back: usize,
    choice: u64,
) -> Option<Image> {
    match devices_behind(alloc, fails, events) {
        None => None,
        Some((rows, index)) => image_of(alloc, (&rows, &index), on, back, choice),
    }
}

/// Events in parts, each but the last ended by a crash within its last call, on this device: in the
/// first part in one of so many calls, counted back, in others in this one. Then each of the words
/// is found so, in one of these ways, and each of them comes.
struct Case {
    fails: Fails,
    parts: &'static [&'static [Do]],
    stops: &'static [(Device, usize)],
    words: &'static [&'static str],
    found: &'static [(u64, &'static [DocId])],
}

/// What the crashes of a case left.
fn images_of(alloc: Global, case: &Case, back: usize, choice: u64) -> Option<Vec<Image>> {
    let mut images = Vec::new(alloc);
    for (k, (on, most)) in case.stops.iter().enumerate() {
        if k >= case.parts.len() {
            return None;
        }
        let (parts, _) = case.parts.split_at(k + 1);
        let events = list_of(alloc, parts, &images)?;
        let back = if k == 0 { back } else { *most };
        let image = crashed(alloc, case.fails, events, *on, back, choice)?;
        images.push(image).ok()?;
    }
    Some(images)
}

/// What a view tells of a word.
fn found_in(alloc: Global, outcome: &Outcome, word: &str) -> Option<(u64, DocIds)> {
    match outcome {
        Outcome::Viewed { result: Ok(view) } => {
            let docs = answer(alloc, view, &query(alloc, word)?).ok()?;
            Some((view.number, docs))
        }
        _ => None,
    }
}

/// Whether a view tells so of a word.
fn is_found(alloc: Global, outcome: &Outcome, word: &str, way: &(u64, &[DocId])) -> bool {
    match found_in(alloc, outcome, word) {
        None => false,
        Some((number, docs)) => number == way.0 && docs.as_slice() == way.1,
    }
}

/// The events of a case with its crashes, and a view of each word behind them.
fn list_with_views(
    alloc: Global,
    case: &Case,
    images: &[Image],
) -> Option<Vec<Event<MemDisk, MemDisk>>> {
    let mut events = list_of(alloc, case.parts, images)?;
    for word in case.words {
        events.push(event(alloc, Do::View(word))?).ok()?;
    }
    Some(events)
}

/// Whether the last outcomes are views that tell so of the words of a case.
fn tell_so(alloc: Global, case: &Case, outcomes: &[Outcome], way: &(u64, &[DocId])) -> bool {
    if outcomes.len() < case.words.len() {
        return false;
    }
    let (_, views) = outcomes.split_at(outcomes.len() - case.words.len());
    for (k, word) in case.words.iter().enumerate() {
        match views.get(k) {
            Some(view) if is_found(alloc, view, word, way) => {}
            _ => return false,
        }
    }
    true
}

/// The outcomes of a case, where its first crash falls in this call.
fn case_outcomes(alloc: Global, case: &Case, back: usize, choice: u64) -> Option<Vec<Outcome>> {
    let images = images_of(alloc, case, back, choice)?;
    let events = list_with_views(alloc, case, &images)?;
    outcomes_of(alloc, case.fails, events)
}

/// In which of the ways of a case its words are found.
fn way_of(alloc: Global, case: &Case, outcomes: &[Outcome]) -> Option<usize> {
    for (k, way) in case.found.iter().enumerate() {
        if tell_so(alloc, case, outcomes, way) {
            return Some(k);
        }
    }
    None
}

/// The same, where its first crash falls in this call.
fn crashed_way(alloc: Global, case: &Case, back: usize, choice: u64) -> Option<usize> {
    match case_outcomes(alloc, case, back, choice) {
        None => None,
        Some(outcomes) => way_of(alloc, case, &outcomes),
    }
}

/// Which bytes a stop leaves.
const CHOICES: [u64; 7] = [0x00, 0x03, 0x30, 0x33, 0x11, 0xDD, 0x22];

/// Which of two ways come, where the first crash of a case falls in any of its calls, with any
/// choice; none where the words are found otherwise.
fn ways_of(alloc: Global, case: &Case) -> Option<[bool; 2]> {
    let most = match case.stops {
        [(_, most), ..] => *most,
        [] => 0,
    };
    let mut come = [false; 2];
    for back in 0..5 {
        if back > most {
            return Some(come);
        }
        for choice in CHOICES {
            match crashed_way(alloc, case, back, choice)? {
                0 => come[0] = true,
                1 => come[1] = true,
                _ => return None,
            }
        }
    }
    Some(come)
}

/// Crashes within each kind of call, within two openings, within a commit that answered a fault,
/// and behind one that was refused after it.
const CRASHES: [Case; 9] = [
    Case {
        fails: NONE,
        parts: &[&[Do::Open, Do::Insert(1, "apple")], &[Do::Open]],
        stops: &[(Device::Rows, 4)],
        words: &["apple"],
        found: &[(0, &[]), (1, &[1])],
    },
    Case {
        fails: NONE,
        parts: &[&[Do::Open, Do::Insert(1, "apple"), Do::Open], &[Do::Open]],
        stops: &[(Device::Rows, 1)],
        words: &["apple"],
        found: &[(1, &[1])],
    },
    Case {
        fails: NONE,
        parts: &[
            &[Do::Open, Do::Insert(1, "apple"), Do::View("apple")],
            &[Do::Open],
        ],
        stops: &[(Device::Rows, 0)],
        words: &["apple"],
        found: &[(1, &[1])],
    },
    Case {
        fails: NONE,
        parts: &[&[Do::Open, Do::Insert(1, "apple"), Do::List], &[Do::Open]],
        stops: &[(Device::Index, 0)],
        words: &["apple"],
        found: &[(1, &[1])],
    },
    Case {
        fails: NONE,
        parts: &[
            &[Do::Open, Do::Insert(1, "apple")],
            &[Do::Open],
            &[Do::Open],
            &[Do::Open],
        ],
        stops: &[(Device::Rows, 4), (Device::Rows, 1), (Device::Index, 1)],
        words: &["apple"],
        found: &[(0, &[]), (1, &[1])],
    },
    Case {
        fails: FAILING,
        parts: &[&[Do::Open, Do::Insert(1, "apple")], &[Do::Open]],
        stops: &[(Device::Rows, 4)],
        words: &["apple"],
        found: &[(0, &[]), (1, &[1])],
    },
    Case {
        fails: FAILING,
        parts: &[
            &[Do::Open, Do::Insert(1, "apple"), Do::Insert(2, "apple")],
            &[Do::Open],
        ],
        stops: &[(Device::Rows, 0)],
        words: &["apple"],
        found: &[(1, &[1])],
    },
    Case {
        fails: NONE,
        parts: &[
            &[
                Do::Open,
                Do::Insert(1, "apple"),
                Do::Sync,
                Do::Update(1, "apple pear"),
                Do::Sync,
            ],
            &[Do::Open],
        ],
        stops: &[(Device::Index, 4)],
        words: &["apple", "pear"],
        found: &[(2, &[2])],
    },
    Case {
        fails: NONE,
        parts: &[
            &[
                Do::Open,
                Do::Insert(1, "apple"),
                Do::Sync,
                Do::Update(1, "apple pear"),
                Do::Sync,
                Do::Optimize,
                Do::Optimize,
            ],
            &[Do::Open],
        ],
        stops: &[(Device::Index, 4)],
        words: &["apple", "pear"],
        found: &[(2, &[2])],
    },
];

#[test]
fn a_crash_leaves_what_was_acknowledged(rt: HostRuntime) {
    for (k, case) in CRASHES.iter().enumerate() {
        let come = [true, case.found.len() > 1];
        assert_eq!(rt; ways_of(rt.alloc(), case), Some(come), "case {k}");
    }
}

/// The number that a client has behind two commits and this crash.
fn client_number(alloc: Global, choice: u64) -> Option<u64> {
    let settings = settings(alloc).ok()?;
    let devices = (empty_disk(alloc, &[])?, empty_disk(alloc, &[])?);
    let first = insert(alloc, 1, "apple", 1)?;
    let second = insert(alloc, 2, "pear", 1)?;
    let commits = (
        Changes::from_vec(vec![in alloc; first].ok()?),
        Changes::from_vec(vec![in alloc; second].ok()?),
    );
    let leaves = leaves_of(alloc, "apple")?;
    number_behind_crash(alloc, &settings, devices, commits, leaves, choice)
}

#[test]
fn a_client_finds_its_commits(rt: HostRuntime) {
    assert!(rt; client_number(rt.alloc(), 0x33) == Some(2));
}

/// An opening and a commit, a crash that leaves empty devices, and an opening.
fn list_with_empty(alloc: Global) -> Option<Vec<Event<MemDisk, MemDisk>>> {
    let mut events = list_of(alloc, &[&[Do::Open, Do::Insert(1, "apple")]], &[])?;
    let empty = Image {
        rows: Vec::new(alloc),
        index: Vec::new(alloc),
    };
    events.push(crash_of(alloc, &empty, false)?).ok()?;
    events.push(event(alloc, Do::Open)?).ok()?;
    Some(events)
}

/// What comes of that.
const EMPTY: [Row; 4] = [
    (Do::Open, "opened", 0),
    (Do::Insert(1, "apple"), "committed", 1),
    (Do::Open, "crashed", 0),
    (Do::Open, "not created", 0),
];

/// Whether that comes.
fn takes_any(alloc: Global) -> bool {
    match list_with_empty(alloc) {
        None => false,
        Some(events) => match outcomes_of(alloc, NONE, events) {
            None => false,
            Some(outcomes) => have_outcomes(&EMPTY, &outcomes),
        },
    }
}

#[test]
fn any_devices_are_taken(rt: HostRuntime) {
    assert!(rt; takes_any(rt.alloc()));
}
