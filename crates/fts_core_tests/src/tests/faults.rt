//! A stopped engine tells the faults of both devices.
use super::{Do, Fails, add_events, world_behind};
use fts_core::{Outcome, World};
use fts_disk::{Disk, Kind, MemDisk};
use fts_steps::{CommitError, IndexError};
use std::alloc::Global;

/// Calls that fail, and events whose last ones are refused after a fault: the first opening fails
/// at the rows device, and the second at the index device. Then so many faults were counted.
struct Stop {
    fails: Fails,
    events: &'static [Do],
    refused: usize,
    counted: (u64, u64),
}

/// A commit, a batch and a step of OPTIMIZE that fail behind two openings that did.
const STOPS: [Stop; 3] = [
    Stop {
        fails: Fails {
            rows: &[(Kind::Sync, 4), (Kind::Sync, 7)],
            index: &[(Kind::Sync, 2)],
        },
        events: &[
            Do::Open,
            Do::Open,
            Do::Open,
            Do::Insert(1, "apple"),
            Do::Insert(2, "apple"),
            Do::Sync,
            Do::Optimize,
        ],
        refused: 3,
        counted: (2, 1),
    },
    Stop {
        fails: Fails {
            rows: &[(Kind::Sync, 4)],
            index: &[(Kind::Sync, 2), (Kind::Write, 2)],
        },
        events: &[
            Do::Open,
            Do::Open,
            Do::Open,
            Do::Insert(1, "apple"),
            Do::Sync,
            Do::Insert(2, "apple"),
            Do::Sync,
            Do::Optimize,
        ],
        refused: 3,
        counted: (1, 2),
    },
    Stop {
        fails: Fails {
            rows: &[(Kind::Sync, 4)],
            index: &[(Kind::Sync, 2), (Kind::Write, 6)],
        },
        events: &[
            Do::Open,
            Do::Open,
            Do::Open,
            Do::Insert(1, "apple"),
            Do::Sync,
            Do::Delete(1),
            Do::Sync,
            Do::Optimize,
            Do::Insert(2, "apple"),
            Do::Sync,
            Do::Optimize,
        ],
        refused: 3,
        counted: (1, 2),
    },
];

/// How many faults a refusal after a fault tells.
fn told_faults(outcome: &Outcome) -> Option<u128> {
    match outcome {
        Outcome::Committed {
            result: Err(CommitError::Stopped { faults }),
        } => Some(*faults),
        Outcome::Synced {
            result: Err(IndexError::Stopped { faults }),
        } => Some(*faults),
        Outcome::Optimized {
            result: Err(IndexError::Stopped { faults }),
        } => Some(*faults),
        _ => None,
    }
}

/// How many faults the answer of a step that failed tells.
fn failed_with(outcome: &Outcome) -> Option<u128> {
    match outcome {
        Outcome::Committed {
            result: Err(CommitError::DiskFault { faults }),
        } => Some(*faults),
        Outcome::Synced {
            result: Err(IndexError::DiskFault { faults }),
        } => Some(*faults),
        Outcome::Optimized {
            result: Err(IndexError::DiskFault { faults }),
        } => Some(*faults),
        _ => None,
    }
}

/// Whether the first of some outcomes is a fault, and the others are refused after it, each with so
/// many faults.
fn tell_faults(outcomes: &[Outcome], faults: u128) -> bool {
    for (k, outcome) in outcomes.iter().enumerate() {
        let told = if k == 0 {
            failed_with(outcome)
        } else {
            told_faults(outcome)
        };
        if told != Some(faults) {
            return false;
        }
    }
    true
}

/// How many faults each device of a world counts.
fn counted(world: World<MemDisk, MemDisk>) -> (u64, u64) {
    let World { place, .. } = world;
    let (rows, index) = place.close();
    (rows.faults(), index.faults())
}

/// Whether the events of a stop are refused with the faults of both devices.
fn tells_both(alloc: Global, stop: &Stop) -> bool {
    let mut events = Vec::new(alloc);
    if add_events(alloc, &mut events, stop.events).is_none() {
        return false;
    }
    match world_behind(alloc, stop.fails, events) {
        None => false,
        Some((world, outcomes)) => {
            let (rows, index) = counted(world);
            let faults = rows as u128 + index as u128;
            (rows, index) == stop.counted
                && outcomes.len() > stop.refused
                && tell_faults(last_of(&outcomes, stop.refused), faults)
        }
    }
}

/// The last outcomes: this many, and one before them.
fn last_of(outcomes: &[Outcome], refused: usize) -> &[Outcome] {
    if refused >= outcomes.len() {
        return outcomes;
    }
    let (_, last) = outcomes.split_at(outcomes.len() - refused - 1);
    last
}

#[test]
fn a_stopped_engine_tells_the_faults_of_both_devices(rt: HostRuntime) {
    for (k, stop) in STOPS.iter().enumerate() {
        assert!(rt; tells_both(rt.alloc(), stop), "stop {k}");
    }
}
