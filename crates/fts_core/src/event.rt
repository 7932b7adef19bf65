use fts_commits::Changes;
use fts_disk::Disk;
use fts_engine::OpenError;
use fts_listing::{ListingKind, NumberedListing};
use fts_query::{Leaf, View};
use fts_steps::{CommitError, IndexError, OptimizeStep, SyncBatch, ViewError};
use fts_types::Limits;

/// What happens to a database.
#[derive(Drop)]
pub enum Event<D: Disk, E: Disk> {
    /// It is opened, with these limits of later steps. An engine that is there is closed first.
    Opening { limits: Limits },
    /// A commit of these changes.
    Commit { changes: Changes },
    /// The next batch of the index.
    SyncBatch,
    /// The next step of OPTIMIZE.
    OptimizeStep,
    /// What the rows have for these leaves of a query.
    View { leaves: Vec<Leaf> },
    /// What a view of the index lists.
    Listing { kind: ListingKind },
    /// A crash that leaves these two devices: `within` the last call, whose answer then counts as
    /// not given, or after it.
    Crash { rows: D, index: E, within: bool },
}

/// What came of an event.
#[derive(Drop)]
pub enum Outcome {
    /// A step, and no engine was there. Nothing changed.
    NoEngine,
    /// A commit whose changes do not fit the engine's table, or an opening with limits above the
    /// standard ones. Nothing changed.
    DoesNotFit,
    /// What the opening answered.
    Opened {
        result: Result<(), OpenError>,
    },
    /// What the commit answered.
    Committed {
        result: Result<u64, CommitError>,
    },
    /// What the batch answered.
    Synced {
        result: Result<SyncBatch, IndexError>,
    },
    /// What the step of OPTIMIZE answered.
    Optimized {
        result: Result<OptimizeStep, IndexError>,
    },
    /// What the view answered; the leaves come back with a refusal.
    Viewed {
        result: Result<View, (ViewError, Vec<Leaf>)>,
    },
    /// What the listing answered.
    Listed {
        result: Result<NumberedListing, ViewError>,
    },
    /// The devices are those that the crash left.
    Crashed,
}
