ghost use Rattle.std.specs.Prelude.{◌≡◌, ◌≤◌, length, IfErr};
ghost use Rattle.fts_commits.specs.Fits.{CanCommit};
ghost use Rattle.fts_query.specs.Seen.{leaves_seen};
ghost use Rattle.fts_steps.specs.Running.{Running};
ghost use Rattle.fts_steps.specs.Step.{to_commit, to_sync, to_optimize, to_view, to_list};
ghost use Rattle.fts_steps.specs.Step.{to_measure};
ghost use Rattle.fts_steps.specs.Step.{measured, Sight, Steps};
ghost use Rattle.fts_steps.specs.Answers.{commit_answer_of, sync_answer_of, view_answer_of};
ghost use Rattle.fts_steps.specs.Answers.{optimize_answer_of, listing_answer_of};

use fts_commits::Change;
use fts_listing::{ListingKind, NumberedListing};
use fts_query::{Leaf, View};
use fts_steps::{CommitError, IndexError, OptimizeStep, SyncBatch, ViewError};
use fts_types::Settings;

/// The steps of an engine, each at once. A contract sees the engine by its sight: for which
/// database it stands, and whether others make steps too.
pub trait EngineSteps {
    /// What contracts see of it.
    ghost sight: { Sight Self };

    /// Makes a commit of these changes, and returns its number, from 1.
    fn commit(&mut self, changes: &[Change]) -> Result<u64, CommitError>
        requires { CanCommit (length (sight.settings self.old).columns) changes.now }
        ensures { Steps sight (to_commit changes.now) (commit_answer_of result)
            self.old self.new };

    /// Makes the next batch of the index, if there are commits that are not flushed: its entry is
    /// written to the index log, and their words go into the tables.
    fn sync_batch(&mut self) -> Result<SyncBatch, IndexError>
        ensures { Steps sight to_sync (sync_answer_of result) self.old self.new };

    /// Makes the next step of OPTIMIZE, if there is one: a pass begins, its next word gets its
    /// nodes anew, or it finishes.
    fn optimize_step(&mut self) -> Result<OptimizeStep, IndexError>
        ensures { Steps sight to_optimize (optimize_answer_of result) self.old self.new };

    /// Tells what the rows have for the leaves of a query. At an error the leaves come back.
    fn view(&mut self, leaves: Vec<Leaf>) -> Result<View, (ViewError, Vec<Leaf>)>
        ensures steps { Steps sight (to_view (leaves_seen leaves.items)) (view_answer_of result)
            self.old self.new }
        ensures back { IfErr result (λ e. e.1 ≡ leaves) };

    /// Lists what a view of the index has.
    fn listing(&mut self, kind: ListingKind) -> Result<NumberedListing, ViewError>
        ensures { Steps sight (to_list kind) (listing_answer_of result) self.old self.new };

    /// The size of the cache: what the documents count that are not flushed.
    fn cache_size(&mut self) -> u64
        ensures { Steps sight to_measure (measured result) self.old self.new };

    /// The size above which the cache is to be flushed.
    fn cache_bytes(&self) -> u64
        ensures { result ≡ (sight.settings self.now).cache_bytes };

    /// The most words that one OPTIMIZE works on.
    fn optimize_words(&self) -> u16
        ensures { result ≡ (sight.settings self.now).optimize_words };

    /// The settings with which the database was created.
    fn settings(&self) -> &Settings
        ensures some { 1 ≤ length result.now.columns }
        ensures few { length result.now.columns ≤ 8 }
        ensures settings { result.now ≡ sight.settings self.now }
        ensures told { (running : Running) → sight.stands running self.now
            → running.state.settings ≡ result.now };
}
