//! What is kept of a database while the entries of its index log are read again.
ghost use Rattle.std.specs.Prelude.{◌≡◌, List, [], ◌∷◌, ◌++◌};
ghost use Rattle.fts_types.specs.declared.settings.Settings.{Settings};
ghost use Rattle.fts_types.specs.Settings.{AreSettings};
ghost use Rattle.fts_types.specs.Limits.{standard_limits};
ghost use Rattle.fts_rows.specs.Rows.{rows_of, limits_of};
ghost use Rattle.fts_engine.specs.Fitting.{AreTableRows};
ghost use Rattle.fts_engine.specs.Covered.{HasCovered};

use crate::kept::Kept;
use fts_commits::{Change, are_turns};
use fts_ilist::WordNodes;
use fts_index::{Covered, Index, PassPlan, RestoreError};
use fts_rows::{PlanError, Rows};
use fts_types::{DocId, Limits, Settings};
use std::alloc::{AllocError, Global};

/// The rows of the commits that were read, the words of those that entries flush, and what is noted
/// of those behind them: no words are made of these, since the next entry has them.
#[derive(Drop)]
pub struct Restoring {
    settings: Settings,
    rows: Rows,
    index: Index,
    covered: Covered,
    commits: u64,
    ghost right: { AreSettings settings },
    ghost standard: { limits_of rows ≡ standard_limits },
    ghost fit: { AreTableRows settings (rows_of rows) },
    ghost noted: { ∥ HasCovered settings (rows_of rows) index covered commits ∥₁ },
}

impl Restoring {
    ghost use Rattle.std.specs.Prelude.{◌+◌, ◌≤◌, length, IfErr, IsErrOf, OnOk, Ok};
    ghost use Rattle.fts_commits.specs.Commit.{Commit, after_commit, no_rows};
    ghost use Rattle.fts_commits.specs.Turn.{turns_from};
    ghost use Rattle.fts_commits.specs.Fits.{IsCommit};
    ghost use Rattle.fts_entries.specs.Entry.{IndexState, no_entries, after_entry};
    ghost use Rattle.fts_entries.specs.Pass.{IsStep};
    ghost use Rattle.fts_index.specs.Passing.{step_entry};
    ghost use Rattle.fts_entries.specs.Coming.{CanSeal};
    ghost use Rattle.fts_index.specs.Restore.{AreRead};
    ghost use Rattle.fts_rows.specs.Refusal.{IsNoPlan};
    ghost use Rattle.fts_engine.specs.Kept.{kept_settings, kept_rows, kept_limits, IsIndexed};
    ghost use Rattle.fts_engine.specs.Restoring.{restoring_settings, restoring_rows};
    ghost use Rattle.fts_engine.specs.Restoring.{restoring_commits, IsCovering, IsInstalled};
    ghost use Rattle.fts_engine.specs.Restoring.{IsFlushed};

    /// Nothing was read but the settings.
    pub fn new(alloc: Global, settings: Settings) -> Self
        requires { AreSettings settings }
        ensures rows { restoring_rows result ≡ no_rows }
        ensures settings { restoring_settings result ≡ settings }
        ensures commits { restoring_commits result ≡ 0 }
        ensures covers { IsCovering result [] no_entries }
        ensures flushed { IsFlushed result }
    {
        are_turns();
        Restoring {
            settings,
            rows: Rows::new(alloc, Limits::standard()),
            index: Index::new(alloc),
            covered: Covered::new(alloc),
            commits: 0,
        }
    }

    /// The settings of the database.
    pub fn settings(&self) -> &Settings
        ensures { result.now ≡ restoring_settings self.now }
    {
        &self.settings
    }

    /// How many commits were read.
    pub fn commits(&self) -> u64
        ensures { result ≡ restoring_commits self.now }
    {
        self.commits
    }

    /// How many of them are flushed.
    pub fn flushed(&self) -> u64
        ensures { (commits : List Commit) (s : IndexState) → IsCovering self.now commits s
            → result ≡ s.flushed }
    {
        self.index.flushed()
    }

    /// Makes a commit that stands in the log, whose words the next entry has.
    pub fn replay(&mut self, changes: &[Change]) -> Result<(), PlanError>
        requires { IsCommit (length (restoring_settings self.old).columns) changes.now }
        ensures rows { OnOk result (after_commit standard_limits changes.now
            (restoring_rows self.old) ≡ Ok (restoring_rows self.new)) }
        ensures refused { IfErr result
            (IsNoPlan (after_commit standard_limits changes.now (restoring_rows self.old))) }
        ensures settings { restoring_settings self.new ≡ restoring_settings self.old }
        ensures commits { OnOk result (restoring_commits self.new
            ≡ restoring_commits self.old + 1) }
        ensures covers { OnOk result ((commits : List Commit) (s : IndexState)
            → IsCovering self.old commits s
            → IsCovering self.new (commits ++ changes.now ∷ []) s) }
    {
        are_turns();
        let plan = match self.rows.plan(changes) {
            Ok(plan) => plan,
            Err(error) => return Err(error),
        };
        let commits = match self.commits.checked_add(1) {
            Some(commits) => commits,
            None => return Err(PlanError::NoMemory),
        };
        match self
            .covered
            .note(plan.births(), plan.deaths(), plan.largest())
        {
            Ok(()) => {}
            Err(AllocError) => return Err(PlanError::NoMemory),
        }
        self.rows.install(plan);
        self.commits = commits;
        Ok(())
    }

    /// Installs a batch that was read, which flushes all commits that were read; or tells that it
    /// can't come behind them.
    pub fn restore(
        &mut self,
        through: u64,
        synced: DocId,
        nodes: &[WordNodes],
    ) -> Result<(), RestoreError>
        requires { AreRead nodes.now }
        ensures rows { restoring_rows self.new ≡ restoring_rows self.old }
        ensures settings { restoring_settings self.new ≡ restoring_settings self.old }
        ensures commits { restoring_commits self.new ≡ restoring_commits self.old }
        ensures restored { OnOk result ((commits : List Commit) (s : IndexState)
            → IsCovering self.old commits s
            → IsInstalled commits s through synced nodes.now self.new) }
        ensures flushed { OnOk result (IsFlushed self.new) }
        ensures stays { IsErrOf result RestoreError.Bad → (commits : List Commit)
            (s : IndexState) → IsCovering self.old commits s → IsCovering self.new commits s }
        ensures bad { IsErrOf result RestoreError.Bad → (commits : List Commit)
            (s : IndexState) → IsCovering self.old commits s → length commits ≤ through
            → CanSeal (turns_from no_rows commits) s through synced nodes.now → ⊥ }
    {
        match self
            .index
            .restore(&mut self.covered, through, synced, nodes)
        {
            Ok(()) => Ok(()),
            Err(error) => Err(error),
        }
    }

    /// Makes a step of OPTIMIZE that was read; or tells that it is not the next one.
    pub fn restore_step(&mut self, step: &PassPlan) -> Result<(), RestoreError>
        ensures rows { restoring_rows self.new ≡ restoring_rows self.old }
        ensures settings { restoring_settings self.new ≡ restoring_settings self.old }
        ensures commits { restoring_commits self.new ≡ restoring_commits self.old }
        ensures stepped { OnOk result ((commits : List Commit) (s : IndexState)
            → IsCovering self.old commits s → IsStep s (step_entry step.now) × IsCovering self.new
            commits (after_entry (turns_from no_rows commits) s (step_entry step.now))) }
        ensures flushed { IsFlushed self.old → IsFlushed self.new }
        ensures stays { IsErrOf result RestoreError.Bad → (commits : List Commit)
            (s : IndexState) → IsCovering self.old commits s → IsCovering self.new commits s }
        ensures bad { IsErrOf result RestoreError.Bad → (commits : List Commit)
            (s : IndexState) → IsCovering self.old commits s → IsStep s (step_entry step.now) → ⊥ }
    {
        match self.index.restore_step(step) {
            Ok(()) => Ok(()),
            Err(error) => Err(error),
        }
    }

    /// What is kept of the database, where all commits that were read are flushed.
    pub fn keep(self) -> Kept
        requires { IsFlushed self }
        ensures rows { kept_rows result ≡ restoring_rows self }
        ensures settings { kept_settings result ≡ restoring_settings self }
        ensures limits { kept_limits result ≡ standard_limits }
        ensures index { (commits : List Commit) (s : IndexState) → IsCovering self commits s
            → IsIndexed result commits s }
    {
        let Restoring {
            settings,
            rows,
            index,
            covered: _,
            commits: _,
        } = self;
        Kept {
            settings,
            rows,
            index,
        }
    }
}
