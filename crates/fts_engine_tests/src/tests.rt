ghost use Rattle.std.specs.Prelude.{◌≤◌, IfOk};
ghost use Rattle.fts_commits.specs.Fits.{IsText, FitsColumns, FitsNumbers};
ghost use Rattle.fts_commits.specs.Fits.{CanCommit};

use fts_commits::{Change, Refusal};
use fts_disk::{Kind, MemDisk};
use fts_engine::{CreateError, Device, Engine, LARGEST_LOG, OpenError, create_engine, open_engine};
use fts_listing::{Listing, ListingKind, NumberedListing};
use fts_log::is_begun;
use fts_query::{Leaf, View};
use fts_steps::{CommitError, IndexError, SyncBatch};
use fts_types::{DocId, Key, Limits, Names, RowTexts, Settings, SharedTexts};
use std::alloc::{AllocError, Global};
use std::fmt::Display;

/// Settings of a table with a title and a body, and of batches of so many documents.
fn settings(alloc: Global, batch_docs: u32) -> Result<Settings, AllocError> {
    let mut columns = Names::new(alloc);
    columns.push(b"title".to_vec(alloc)?)?;
    columns.push(b"body".to_vec(alloc)?)?;
    Ok(Settings {
        columns,
        min: 3,
        max: 84,
        stopword: true,
        optimize_words: 2_000,
        cache_bytes: 8_000_000,
        batch_docs,
    })
}

/// A device without files.
fn empty_disk(alloc: Global) -> Result<MemDisk, AllocError> {
    MemDisk::from_files(alloc, Vec::new(alloc), Vec::new(alloc))
}

/// Two devices without files.
fn empty_disks(alloc: Global) -> Result<(MemDisk, MemDisk), AllocError> {
    Ok((empty_disk(alloc)?, empty_disk(alloc)?))
}

/// Makes a database on the devices.
fn create(alloc: Global, disks: (MemDisk, MemDisk)) -> Result<(MemDisk, MemDisk), CreateError> {
    create_batched(alloc, disks, 1_000)
}

/// Makes a database on the devices, with batches of so many documents.
fn create_batched(
    alloc: Global,
    (rows, index): (MemDisk, MemDisk),
    batch_docs: u32,
) -> Result<(MemDisk, MemDisk), CreateError> {
    let Ok(settings) = settings(alloc, batch_docs) else {
        return Err(CreateError::NoMemory);
    };
    if settings.check().is_err() {
        return Err(CreateError::NoMemory);
    }
    match create_engine(alloc, &settings, rows, index) {
        Ok(devices) => Ok(devices),
        Err((error, _, _)) => Err(error),
    }
}

/// Opens the database on the devices, for at most so many rows and bytes of a log.
fn open(
    alloc: Global,
    (rows, index): (MemDisk, MemDisk),
    most_rows: u64,
    log_bytes: u64,
) -> Result<Engine<MemDisk, MemDisk>, OpenError> {
    let limits = Limits {
        rows: most_rows.min(1_000_000),
        ids: 1_000,
        log_bytes: log_bytes.min(LARGEST_LOG),
    };
    match open_engine(alloc, rows, index, limits) {
        Ok(engine) => Ok(engine),
        Err((error, _, _)) => Err(error),
    }
}

/// The INSERT of a row.
fn insert(alloc: Global, key: Key, title: &[u8], body: &[u8]) -> Result<Change, AllocError>
    requires title { IsText title.now }
    requires body { IsText body.now }
    ensures fits { IfOk result (FitsColumns 2) }
    ensures numbers { IfOk result FitsNumbers }
{
    let mut texts = RowTexts::new(alloc);
    texts.push(title.to_vec(alloc)?)?;
    texts.push(body.to_vec(alloc)?)?;
    let texts = SharedTexts::new(alloc, texts)?;
    let doc = None;
    Ok(Change::Insert { key, doc, texts })
}

/// The INSERTs of two rows with these keys.
fn two_rows(alloc: Global, first: Key, second: Key) -> Result<Vec<Change>, AllocError>
    ensures { IfOk result (λ changes. CanCommit 2 changes.items) }
{
    let pie = insert(alloc, first, b"Apple pie", b"with cream")?;
    let plum = insert(alloc, second, b"Plum", b"no PIE, no apple")?;
    Ok(vec![in alloc; pie, plum]?)
}

/// The INSERT of one row.
fn one_row(alloc: Global, key: Key, title: &[u8], body: &[u8]) -> Result<Vec<Change>, AllocError>
    requires title { IsText title.now }
    requires body { IsText body.now }
    ensures { IfOk result (λ changes. CanCommit 2 changes.items) }
{
    let row = insert(alloc, key, title, body)?;
    Ok(vec![in alloc; row]?)
}

/// The INSERTs of so many rows, with keys from 1.
fn many_rows(alloc: Global, count: u64) -> Result<Vec<Change>, AllocError>
    requires some { 1 ≤ count }
    requires few { count ≤ 1000 }
    ensures { IfOk result (λ changes. CanCommit 2 changes.items) }
{
    let mut changes = Vec::new(alloc);
    for key in 0..count {
        changes.push(insert(alloc, key + 1, b"Apple pie", b"with cream")?)?;
    }
    Ok(changes)
}

/// The INSERT of one row with an apostrophe within a word.
fn quoted_row(alloc: Global) -> Result<Vec<Change>, AllocError>
    ensures { IfOk result (λ changes. CanCommit 2 changes.items) }
{
    let row = insert(alloc, 1, b"the aaa'bbb", b"")?;
    Ok(vec![in alloc; row]?)
}

/// Commits changes of a table of two columns.
fn commit(
    engine: &mut Engine<MemDisk, MemDisk>,
    changes: &[Change],
) -> Option<Result<u64, CommitError>>
    requires fits { CanCommit 2 changes.now }
{
    if engine.settings().columns.len() != 2 {
        return None;
    }
    Some(engine.commit(changes))
}

/// What is found of the two rows: stopwords and words of fewer than three bytes are not indexed.
const FOUND: [(&str, &[DocId]); 7] = [
    ("pie", &[1, 2]),
    ("apple", &[1, 2]),
    ("cream", &[1]),
    ("plum", &[2]),
    ("with", &[]),
    ("no", &[]),
    ("PIE", &[]),
];

/// The view of a word, if there is memory for it.
fn view_of(alloc: Global, engine: &mut Engine<MemDisk, MemDisk>, word: &[u8]) -> Option<View> {
    let word = word.to_vec(alloc).ok()?;
    let leaves = vec![in alloc; Leaf::Word(word)].ok()?;
    engine.view(leaves).ok()
}

/// Whether a view is of so many commits, and has these postings alone.
fn is_view(view: &View, number: u64, want: &[DocId]) -> bool {
    match view.postings.as_slice() {
        [one] => view.number == number && one.ids.as_slice() == want && view.texts.is_empty(),
        _ => false,
    }
}

/// Whether a view of each word has what it should after so many commits.
fn finds_after(
    alloc: Global,
    engine: &mut Engine<MemDisk, MemDisk>,
    number: u64,
    found: &[(&str, &[DocId])],
) -> bool {
    for (word, want) in found {
        match view_of(alloc, engine, word.as_bytes()) {
            Some(view) if is_view(&view, number, want) => {}
            _ => return false,
        }
    }
    true
}

/// Whether a view of each word has what it should after the first commit.
fn finds_all(
    alloc: Global,
    engine: &mut Engine<MemDisk, MemDisk>,
    found: &[(&str, &[DocId])],
) -> bool {
    finds_after(alloc, engine, 1, found)
}

/// Whether a view of the word has so many postings.
fn finds_many(
    alloc: Global,
    engine: &mut Engine<MemDisk, MemDisk>,
    word: &[u8],
    count: usize,
) -> bool {
    match view_of(alloc, engine, word) {
        None => false,
        Some(view) => match view.postings.as_slice() {
            [one] => one.ids.as_slice().len() == count,
            _ => false,
        },
    }
}

/// Opens a new database with at most so many rows and bytes of a log.
fn new_limited(alloc: Global, most_rows: u64, log_bytes: u64) -> Option<Engine<MemDisk, MemDisk>> {
    let disks = empty_disks(alloc).ok()?;
    let devices = create(alloc, disks).ok()?;
    open(alloc, devices, most_rows, log_bytes).ok()
}

/// Whether an engine has one commit, in which views find the two rows.
fn has_two_rows(alloc: Global, engine: &mut Engine<MemDisk, MemDisk>) -> bool {
    engine.commits() == 1 && finds_all(alloc, engine, &FOUND)
}

/// Whether a commit is found, and again after an opening.
fn is_found_twice(alloc: Global) -> Option<bool> {
    let Ok(changes) = two_rows(alloc, 7, 3) else {
        return None;
    };
    let mut engine = new_limited(alloc, 2, 4_096)?;
    let is_first = commit(&mut engine, &changes) == Some(Ok(1));
    let is_found = has_two_rows(alloc, &mut engine);
    let mut again = open(alloc, engine.close(), 1, 0).ok()?;
    Some(is_first && is_found && has_two_rows(alloc, &mut again))
}

#[test]
fn a_commit_is_found_and_again_after_opening(rt: HostRuntime) {
    assert!(rt; is_found_twice(rt.alloc()) == Some(true));
}

/// Whether a thousand changes are one commit, which an opening finds.
fn are_a_commit(alloc: Global) -> Option<bool> {
    let Ok(changes) = many_rows(alloc, 1_000) else {
        return None;
    };
    let mut engine = new_limited(alloc, 1_000, LARGEST_LOG)?;
    let is_first = commit(&mut engine, &changes) == Some(Ok(1));
    let mut again = open(alloc, engine.close(), 1_000, 0).ok()?;
    Some(is_first && again.commits() == 1 && finds_many(alloc, &mut again, b"cream", 1_000))
}

#[test]
fn a_thousand_changes_are_a_commit(rt: HostRuntime) {
    assert!(rt; are_a_commit(rt.alloc()) == Some(true));
}

/// What is found of a row with an apostrophe within a word: a word is indexed whole.
const FOUND_WHOLE: [(&str, &[DocId]); 4] = [
    ("aaa'bbb", &[1]),
    ("aaa", &[]),
    ("bbb", &[]),
    ("the", &[]),
];

/// Whether a word with an apostrophe is found whole alone.
fn is_found_whole(alloc: Global) -> Option<bool> {
    let Ok(changes) = quoted_row(alloc) else {
        return None;
    };
    let mut engine = new_limited(alloc, 2, 4_096)?;
    let is_first = commit(&mut engine, &changes) == Some(Ok(1));
    Some(is_first && finds_all(alloc, &mut engine, &FOUND_WHOLE))
}

#[test]
fn a_word_is_found_whole(rt: HostRuntime) {
    assert!(rt; is_found_whole(rt.alloc()) == Some(true));
}

/// Opens a new database with batches of so many documents.
fn new_engine(alloc: Global, batch_docs: u32) -> Option<Engine<MemDisk, MemDisk>> {
    let disks = empty_disks(alloc).ok()?;
    let devices = create_batched(alloc, disks, batch_docs).ok()?;
    open(alloc, devices, 2, 4_096).ok()
}

/// The engine behind a commit of these changes.
fn behind(
    engine: Option<Engine<MemDisk, MemDisk>>,
    changes: &[Change],
) -> Option<Engine<MemDisk, MemDisk>>
    requires { CanCommit 2 changes.now }
{
    let mut engine = engine?;
    match commit(&mut engine, changes) {
        Some(Ok(_)) => Some(engine),
        _ => None,
    }
}

/// Opens a new database with batches of one document, and commits two rows, each alone.
fn two_commits(alloc: Global) -> Option<Engine<MemDisk, MemDisk>> {
    let Ok(pie) = one_row(alloc, 7, b"Apple pie", b"with cream") else {
        return None;
    };
    let Ok(plum) = one_row(alloc, 3, b"Plum", b"no PIE, no apple") else {
        return None;
    };
    behind(behind(new_engine(alloc, 1), &pie), &plum)
}

/// What a batch flushes through the first or second of two commits, or what it answers behind.
fn flushes(through: u64) -> Result<SyncBatch, IndexError> {
    if through > 2 {
        return Ok(SyncBatch::Nothing { commits: 2 });
    }
    Ok(SyncBatch::Flushed {
        through,
        commits: 2,
    })
}

/// Whether views find the two rows, and the next batch then flushes through this commit.
fn finds_and_flushes(alloc: Global, engine: &mut Engine<MemDisk, MemDisk>, through: u64) -> bool {
    let is_found = finds_after(alloc, engine, 2, &FOUND);
    let flushed = engine.sync_batch();
    is_found && flushed == flushes(through)
}

/// Whether it is so at each of four batches, of which two flush nothing.
fn finds_between_batches(alloc: Global, engine: &mut Engine<MemDisk, MemDisk>) -> bool {
    for through in 1..5 {
        if !finds_and_flushes(alloc, engine, through) {
            return false;
        }
    }
    true
}

/// The same on an engine of two commits.
fn is_found_between_batches(alloc: Global) -> Option<bool> {
    let mut engine = two_commits(alloc)?;
    let is_so = finds_between_batches(alloc, &mut engine);
    drop(engine);
    Some(is_so)
}

#[test]
fn a_batch_changes_no_view(rt: HostRuntime) {
    assert!(rt; is_found_between_batches(rt.alloc()) == Some(true));
}

/// Opens a new database whose rows device fails at the first commit.
fn failing_engine(alloc: Global) -> Option<Engine<MemDisk, MemDisk>> {
    let fails = vec![in alloc; (Kind::Write, 4)].ok()?;
    let rows = MemDisk::from_files(alloc, Vec::new(alloc), fails).ok()?;
    let index = empty_disk(alloc).ok()?;
    let devices = create(alloc, (rows, index)).ok()?;
    open(alloc, devices, 2, 4_096).ok()
}

/// What the commit and the batch behind it are answered.
fn answered_after_a_fault(
    alloc: Global,
) -> Option<
    (
        Option<Result<u64, CommitError>>,
        Result<SyncBatch, IndexError>,
    ),
> {
    let Ok(changes) = two_rows(alloc, 7, 3) else {
        return None;
    };
    let mut engine = failing_engine(alloc)?;
    let failed = commit(&mut engine, &changes);
    Some((failed, engine.sync_batch()))
}

#[test]
fn no_batch_is_made_after_a_fault(rt: HostRuntime) {
    let failed = Some(Err(CommitError::DiskFault { faults: 1 }));
    let stopped = Err(IndexError::Stopped { faults: 1 });
    assert!(rt; answered_after_a_fault(rt.alloc()) == Some((failed, stopped)));
}

/// How many words a view lists, as of how many commits.
fn listed_words(engine: &mut Engine<MemDisk, MemDisk>, kind: ListingKind) -> Option<(u64, usize)> {
    let NumberedListing { number, listing } = engine.listing(kind).ok()?;
    match listing {
        Listing::Words { words } => Some((number, words.as_slice().len())),
        _ => None,
    }
}

/// Through which commit, and up to which id, the index is flushed, as it lists.
fn listed_config(engine: &mut Engine<MemDisk, MemDisk>) -> Option<(u64, DocId)> {
    let NumberedListing { listing, .. } = engine.listing(ListingKind::Config).ok()?;
    match listing {
        Listing::Config { config } => Some((config.flushed, config.synced)),
        _ => None,
    }
}

/// How many words the tables and the cache list.
fn listed_in_both(engine: &mut Engine<MemDisk, MemDisk>) -> [Option<(u64, usize)>; 2] {
    [
        listed_words(engine, ListingKind::IndexTable),
        listed_words(engine, ListingKind::IndexCache),
    ]
}

/// Whether the listings tell of a batch what they should, and nothing before it.
fn lists_a_batch(engine: &mut Engine<MemDisk, MemDisk>) -> bool {
    let before = listed_config(engine);
    let flushed = engine.sync_batch();
    let words = listed_in_both(engine);
    let behind = listed_config(engine);
    let is_flushed = flushed == flushes(1) && words == [Some((2, 3)), Some((2, 3))];
    is_flushed && before == Some((0, 0)) && behind == Some((1, 1))
}

/// The same on an engine of two commits.
fn is_listed(alloc: Global) -> Option<bool> {
    let mut engine = two_commits(alloc)?;
    let is_so = lists_a_batch(&mut engine);
    drop(engine);
    Some(is_so)
}

#[test]
fn a_batch_is_listed(rt: HostRuntime) {
    assert!(rt; is_listed(rt.alloc()) == Some(true));
}

/// The engine that an opening makes of what another one wrote.
fn opened_again(
    alloc: Global,
    engine: Engine<MemDisk, MemDisk>,
) -> Option<Engine<MemDisk, MemDisk>> {
    open(alloc, engine.close(), 2, 4_096).ok()
}

/// The engine of an opening behind a batch that flushes through this commit, where its listings
/// tell of so many words in the tables and in the cache, and views find the two rows.
fn found_again(
    alloc: Global,
    engine: Engine<MemDisk, MemDisk>,
    (through, tables, cache): (u64, usize, usize),
) -> Option<Engine<MemDisk, MemDisk>> {
    let mut engine = engine;
    if engine.sync_batch() != flushes(through) {
        return None;
    }
    let mut again = opened_again(alloc, engine)?;
    let is_listed = listed_in_both(&mut again) == [Some((2, tables)), Some((2, cache))];
    if is_listed && finds_after(alloc, &mut again, 2, &FOUND) {
        return Some(again);
    }
    None
}

/// Whether it is so behind the first batch, the second, and one that flushes nothing.
fn are_found_again(alloc: Global) -> Option<bool> {
    let engine = two_commits(alloc)?;
    let engine = found_again(alloc, engine, (1, 3, 3))?;
    let engine = found_again(alloc, engine, (2, 4, 0))?;
    let engine = found_again(alloc, engine, (3, 4, 0))?;
    drop(engine);
    Some(true)
}

#[test]
fn batches_are_found_again(rt: HostRuntime) {
    assert!(rt; are_found_again(rt.alloc()) == Some(true));
}

/// A text of so many words.
fn pears(alloc: Global, count: usize) -> Result<Vec<u8>, AllocError>
    ensures { IfOk result (λ text. IsText text.items) }
{
    let mut text = Vec::new(alloc);
    for _word in 0..count {
        text.extend_from_slice(b"pear ")?;
    }
    Ok(text)
}

/// The size of the engine's cache.
fn size_of(engine: Option<Engine<MemDisk, MemDisk>>) -> Option<u64> {
    let engine = engine?;
    Some(engine.cache_size())
}

/// The size of the cache after a commit of one row with this title.
fn size_with(alloc: Global, title: &[u8]) -> Option<u64>
    requires { IsText title.now }
{
    let Ok(row) = one_row(alloc, 7, title, b"") else {
        return None;
    };
    size_of(behind(new_engine(alloc, 1_000), &row))
}

/// The size of the cache after a commit of 82 words of four letters.
fn size_with_pears(alloc: Global) -> Option<u64> {
    let Ok(pears) = pears(alloc, 82) else {
        return None;
    };
    size_with(alloc, &pears)
}

#[test]
fn the_cache_has_a_size(rt: HostRuntime) {
    assert!(rt; size_with_pears(rt.alloc()) == Some(1_000));
}

/// What two rows of these keys are answered, where there may be so many rows and bytes of the log.
const ANSWERS: [(Key, Key, u64, u64, Result<u64, CommitError>); 5] = [
    (7, 3, 2, 115, Ok(1)),
    (0, u64::MAX, 2, 115, Ok(1)),
    (
        5,
        5,
        2,
        115,
        Err(CommitError::Refused {
            refusal: Refusal::DuplicateKey { change: 2, key: 5 },
        }),
    ),
    (
        7,
        3,
        1,
        115,
        Err(CommitError::Refused {
            refusal: Refusal::RowsFull { rows: 2 },
        }),
    ),
    (7, 3, 2, 114, Err(CommitError::LogFull { end: 115 })),
];

/// What two rows of these keys are answered on a new database.
fn answer_to(
    alloc: Global,
    (first, second): (Key, Key),
    most_rows: u64,
    log_bytes: u64,
) -> Option<Result<u64, CommitError>> {
    let Ok(changes) = two_rows(alloc, first, second) else {
        return None;
    };
    let mut engine = new_limited(alloc, most_rows, log_bytes)?;
    commit(&mut engine, &changes)
}

#[test]
fn a_commit_is_answered(rt: HostRuntime) {
    for (first, second, most_rows, log_bytes, want) in ANSWERS {
        let answer = answer_to(rt.alloc(), (first, second), most_rows, log_bytes);
        assert!(rt; answer == Some(want), "of {first} and {second}");
    }
}

/// Why two devices without files can't be opened.
fn refusal_of_none(alloc: Global) -> Option<OpenError> {
    let disks = empty_disks(alloc).ok()?;
    open(alloc, disks, 2, 4_096).err()
}

/// Whether the rows log is begun before a creation and behind it, and why there can't be another.
fn created_twice(alloc: Global) -> Option<(bool, bool, Option<CreateError>)> {
    let (mut rows, index) = empty_disks(alloc).ok()?;
    let before = is_begun(&mut rows).ok()?;
    let (mut rows, index) = create(alloc, (rows, index)).ok()?;
    let behind = is_begun(&mut rows).ok()?;
    Some((before, behind, create(alloc, (rows, index)).err()))
}

#[test]
fn a_database_is_created_once(rt: HostRuntime) {
    assert!(rt; refusal_of_none(rt.alloc()) == Some(OpenError::NotCreated));
    let twice = Some(CreateError::AlreadyCreated);
    assert!(rt; created_twice(rt.alloc()) == Some((false, true, twice)));
}

/// Whether the error prints this.
fn prints<E: Display>(alloc: Global, error: &E, text: &str) -> bool {
    match format!(in alloc; "{error}") {
        Ok(printed) => printed.as_str() == text,
        Err(_) => false,
    }
}

#[test]
fn create_tells_why_it_failed(rt: HostRuntime) {
    for (error, text) in [
        (CreateError::NoMemory, "no memory"),
        (CreateError::AlreadyCreated, "already created"),
        (CreateError::DiskFault, "disk fault"),
    ] {
        assert!(rt; prints(rt.alloc(), &error, text), "{text}");
    }
}

/// Damage of the index log.
const DAMAGED: OpenError = OpenError::Damaged {
    device: Device::Index,
    file: 0,
    at: 8,
};

#[test]
fn an_opening_tells_why_it_failed(rt: HostRuntime) {
    for (error, text) in [
        (OpenError::NoMemory, "no memory"),
        (OpenError::NotCreated, "not created"),
        (DAMAGED, "damaged index file 0 at 8"),
        (OpenError::DiskFault, "disk fault"),
    ] {
        assert!(rt; prints(rt.alloc(), &error, text), "{text}");
    }
}
