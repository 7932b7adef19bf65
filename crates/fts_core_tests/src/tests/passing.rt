//! A row that is inserted and deleted within one commit: its id is used, and no document has it.
use super::{Do, NONE, created, found_in, told};
use fts_core::{Event, Outcome, Place, World, step};
use fts_disk::MemDisk;
use fts_engine::Engine;
use fts_listing::{Listing, ListingKind, NumberedListing};
use fts_types::{DocId, DocIds};
use std::alloc::Global;

type Devices = World<MemDisk, MemDisk>;

type Open = Engine<MemDisk, MemDisk>;

/// What is known of an engine: its commits, its rows and the largest id; how many commits are
/// flushed, and up to which id; the ids with a word, and those that are deleted; and how many words
/// the cache and the tables have.
struct Stand {
    counts: (u64, usize, DocId),
    flushed: (u64, DocId),
    found: &'static [DocId],
    deleted: &'static [DocId],
    words: (usize, usize),
}

/// What stands before the first batch, and behind it, of a commit that gave and took a row.
const CACHED: Stand = Stand {
    counts: (1, 0, 1),
    flushed: (0, 0),
    found: &[],
    deleted: &[],
    words: (0, 0),
};

const FLUSHED: Stand = Stand {
    counts: (1, 0, 1),
    flushed: (1, 1),
    found: &[],
    deleted: &[],
    words: (0, 0),
};

/// What stands behind one more INSERT, before its batch and behind it.
const NEXT: Stand = Stand {
    counts: (2, 1, 2),
    flushed: (1, 1),
    found: &[2],
    deleted: &[],
    words: (1, 0),
};

const UNFLUSHED_NEXT: Stand = Stand {
    counts: (2, 1, 2),
    flushed: (0, 0),
    found: &[2],
    deleted: &[],
    words: (1, 0),
};

const FLUSHED_NEXT: Stand = Stand {
    counts: (2, 1, 2),
    flushed: (2, 2),
    found: &[2],
    deleted: &[],
    words: (0, 1),
};

/// What is done, what comes of it, the number that this has, and what stands then.
type Row = (Do, &'static str, u64, &'static Stand);

/// A batch of the commit, and the next INSERT behind it.
const BATCHED: [Row; 9] = [
    (Do::InsertDelete(1, "apple"), "committed", 1, &CACHED),
    (Do::Sync, "flushed", 1, &FLUSHED),
    (Do::Sync, "nothing", 1, &FLUSHED),
    (Do::Optimize, "idle", 0, &FLUSHED),
    (Do::Open, "opened", 0, &FLUSHED),
    (Do::Insert(1, "apple"), "committed", 2, &NEXT),
    (Do::Open, "opened", 0, &NEXT),
    (Do::Sync, "flushed", 2, &FLUSHED_NEXT),
    (Do::Open, "opened", 0, &FLUSHED_NEXT),
];

/// One batch of it and of the next INSERT.
const UNBATCHED: [Row; 5] = [
    (Do::InsertDelete(1, "apple"), "committed", 1, &CACHED),
    (Do::Open, "opened", 0, &CACHED),
    (Do::Insert(1, "apple"), "committed", 2, &UNFLUSHED_NEXT),
    (Do::Open, "opened", 0, &UNFLUSHED_NEXT),
    (Do::Sync, "flushed", 2, &FLUSHED_NEXT),
];

/// How many words a view lists.
fn words_in(engine: &mut Open, kind: ListingKind) -> Option<usize> {
    let NumberedListing { listing, .. } = engine.listing(kind).ok()?;
    match listing {
        Listing::Words { words } => Some(words.as_slice().len()),
        _ => None,
    }
}

/// The ids that are deleted.
fn deleted_in(engine: &mut Open) -> Option<DocIds> {
    let NumberedListing { listing, .. } = engine.listing(ListingKind::Deleted).ok()?;
    match listing {
        Listing::Ids { ids } => Some(ids),
        _ => None,
    }
}

/// How many commits are flushed, and up to which id.
fn flushed_in(engine: &mut Open) -> Option<(u64, DocId)> {
    let NumberedListing { listing, .. } = engine.listing(ListingKind::Config).ok()?;
    match listing {
        Listing::Config { config } => Some((config.flushed, config.synced)),
        _ => None,
    }
}

/// Whether an engine lists what stands.
fn lists_so(engine: &mut Open, stand: &Stand) -> bool {
    match deleted_in(engine) {
        None => false,
        Some(ids) => {
            ids.as_slice() == stand.deleted
                && flushed_in(engine) == Some(stand.flushed)
                && words_in(engine, ListingKind::IndexCache) == Some(stand.words.0)
                && words_in(engine, ListingKind::IndexTable) == Some(stand.words.1)
        }
    }
}

/// Whether an engine counts what stands.
fn counts_so(engine: &Open, stand: &Stand) -> bool {
    (engine.commits(), engine.row_count(), engine.largest_id()) == stand.counts
}

/// Whether a view of the word finds what stands.
fn finds_so(alloc: Global, outcome: &Outcome, stand: &Stand) -> bool {
    match found_in(alloc, outcome, "apple") {
        None => false,
        Some((number, docs)) => number == stand.counts.0 && docs.as_slice() == stand.found,
    }
}

/// Whether a world has an engine of which this stands.
fn stands(world: &mut Devices, stand: &Stand) -> bool {
    match &mut world.place {
        Place::Closed { .. } => false,
        Place::Open { engine } => counts_so(engine, stand) && lists_so(engine, stand),
    }
}

/// The world, or none.
fn kept(world: Devices, is_so: bool) -> Option<Devices> {
    if is_so {
        return Some(world);
    }
    None
}

/// The world behind an event and a view, if both come so.
fn behind_both(
    alloc: Global,
    world: Devices,
    events: (Event<MemDisk, MemDisk>, Event<MemDisk, MemDisk>),
    row: &Row,
) -> Option<Devices> {
    let (first, view) = events;
    let (world, outcome) = step(alloc, world, first);
    let comes_so = told(&outcome) == (row.1, row.2);
    let (mut world, outcome) = step(alloc, world, view);
    let is_found = finds_so(alloc, &outcome, row.3);
    let is_so = comes_so && is_found && stands(&mut world, row.3);
    kept(world, is_so)
}

/// The world behind a row, if it comes so.
fn behind(alloc: Global, world: Devices, row: &Row) -> Option<Devices> {
    match (
        super::event(alloc, row.0),
        super::event(alloc, Do::View("apple")),
    ) {
        (Some(first), Some(view)) => behind_both(alloc, world, (first, view), row),
        _ => None,
    }
}

/// A world whose engine was just opened over a new database.
fn opened(alloc: Global) -> Option<Devices> {
    match (created(alloc, NONE), super::event(alloc, Do::Open)) {
        (Some(world), Some(event)) => {
            let (world, _) = step(alloc, world, event);
            Some(world)
        }
        _ => None,
    }
}

/// The first of the rows that does not come so.
fn first_wrong(alloc: Global, rows: &[Row]) -> Option<usize> {
    let mut left = opened(alloc);
    for (k, row) in rows.iter().enumerate() {
        left = match left {
            None => return Some(k),
            Some(world) => behind(alloc, world, row),
        };
    }
    match left {
        None => Some(rows.len()),
        Some(_) => None,
    }
}

#[test]
fn a_row_that_comes_and_goes_within_a_commit_uses_its_id(rt: HostRuntime) {
    assert_eq!(rt; first_wrong(rt.alloc(), &BATCHED), None);
    assert_eq!(rt; first_wrong(rt.alloc(), &UNBATCHED), None);
}
