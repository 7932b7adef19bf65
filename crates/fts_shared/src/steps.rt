//! The steps of a seat, as a session asks for them.
use crate::at_seat::{commit_at, list_at, measure_at, optimize_at, sync_at, view_at};
use crate::shared::Shared;
use fts_commits::Change;
use fts_disk::Disk;
use fts_listing::{ListingKind, NumberedListing};
use fts_query::{Leaf, View};
use fts_sessions::EngineSteps;
use fts_steps::{CommitError, IndexError, OptimizeStep, SyncBatch, ViewError};
use fts_types::Settings;
use fts_workers::Bell;
use std::sync::Wait;

impl<'a, R: Wait, D: Disk, E: Disk> EngineSteps for Shared<'a, R, D, E> {
    ghost use Rattle.fts_shared.specs.Sight.{shared_sight};

    ghost sight = { shared_sight };

    fn commit(&mut self, changes: &[Change]) -> Result<u64, CommitError> {
        let made = commit_at(self.rt, &mut self.placed, changes);
        ring_if(&self.bells.sync, made.is_ok());
        made
    }

    fn sync_batch(&mut self) -> Result<SyncBatch, IndexError> {
        let made = sync_at(self.rt, &mut self.placed);
        ring_if(&self.bells.optimizer, is_flushed(&made));
        made
    }

    fn optimize_step(&mut self) -> Result<OptimizeStep, IndexError> {
        optimize_at(self.rt, &mut self.placed)
    }

    fn view(&mut self, leaves: Vec<Leaf>) -> Result<View, (ViewError, Vec<Leaf>)> {
        view_at(self.rt, &mut self.placed, leaves)
    }

    fn listing(&mut self, kind: ListingKind) -> Result<NumberedListing, ViewError> {
        list_at(self.rt, &mut self.placed, kind)
    }

    fn cache_size(&mut self) -> u64 {
        measure_at(self.rt, &mut self.placed)
    }

    fn cache_bytes(&self) -> u64 {
        u64::from(self.settings.cache_bytes)
    }

    fn optimize_words(&self) -> u16 {
        self.settings.optimize_words
    }

    fn settings(&self) -> &Settings {
        self.settings
    }
}

// Rings a bell where that is due.
fn ring_if(bell: &Bell, is_due: bool) {
    if is_due {
        bell.ring();
    }
}

// Whether a batch flushed commits.
fn is_flushed(made: &Result<SyncBatch, IndexError>) -> bool {
    match made {
        Ok(SyncBatch::Flushed { .. }) => true,
        Ok(SyncBatch::Nothing { .. }) => false,
        Err(_) => false,
    }
}
