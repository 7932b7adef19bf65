use crate::EngineSteps;
use fts_commits::Change;
use fts_disk::Disk;
use fts_engine::Engine;
use fts_listing::{ListingKind, NumberedListing};
use fts_query::{Leaf, View};
use fts_steps::{CommitError, IndexError, OptimizeStep, SyncBatch, ViewError};
use fts_types::Settings;

/// The steps of an engine that one thread owns: each is a call of the engine.
#[derive(Drop)]
pub struct Direct<D: Disk, E: Disk> {
    pub engine: Engine<D, E>,
}

impl<D: Disk, E: Disk> EngineSteps for Direct<D, E> {
    ghost use Rattle.fts_sessions.specs.Direct.{direct_sight};

    ghost sight = { direct_sight };

    fn commit(&mut self, changes: &[Change]) -> Result<u64, CommitError> {
        self.engine.commit(changes)
    }

    fn view(&mut self, leaves: Vec<Leaf>) -> Result<View, (ViewError, Vec<Leaf>)> {
        self.engine.view(leaves)
    }

    fn sync_batch(&mut self) -> Result<SyncBatch, IndexError> {
        self.engine.sync_batch()
    }

    fn optimize_step(&mut self) -> Result<OptimizeStep, IndexError> {
        self.engine.optimize_step()
    }

    fn listing(&mut self, kind: ListingKind) -> Result<NumberedListing, ViewError> {
        self.engine.listing(kind)
    }

    fn cache_size(&mut self) -> u64 {
        self.engine.cache_size()
    }

    fn cache_bytes(&self) -> u64 {
        u64::from(self.engine.settings().cache_bytes)
    }

    fn optimize_words(&self) -> u16 {
        self.engine.settings().optimize_words
    }

    fn settings(&self) -> &Settings {
        self.engine.settings()
    }
}
