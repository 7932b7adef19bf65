ghost use Rattle.std.specs.Prelude.{◌≡◌, List, [], ◌∷◌, ◌++◌};
ghost use Rattle.fts_types.specs.declared.settings.Settings.{Settings};
ghost use Rattle.fts_types.specs.Settings.{AreSettings};
ghost use Rattle.fts_types.specs.Limits.{standard_limits};
ghost use Rattle.fts_commits.specs.Commit.{Commit, Rows as RowList};
ghost use Rattle.fts_entries.specs.Entry.{IndexState};
ghost use Rattle.fts_rows.specs.Rows.{rows_of, limits_of};
ghost use Rattle.fts_engine.specs.Bounds.{AreWithin};
ghost use Rattle.fts_engine.specs.Fitting.{AreTableRows};
ghost use Rattle.fts_engine.specs.Indexed.{IsIndexOf, HasIndex};
ghost use Rattle.fts_engine.specs.Next.{WillHold};

use crate::looking::{candidates, paired};
use fts_commits::{Change, are_turns};
use fts_index::{CommitPlan, Index, PassPlan, SyncPlan};
use fts_listing::{Listing, ListingKind};
use fts_query::{Leaf, View};
use fts_rows::{Plan, PlanError, Rows};
use fts_types::{Limits, Settings};
use std::alloc::{AllocError, Global};

/// What is kept in memory of a database: its settings, its rows, and the index of their words.
#[derive(Drop)]
pub struct Kept {
    pub(crate) settings: Settings,
    pub(crate) rows: Rows,
    pub(crate) index: Index,
    ghost right: { AreSettings settings },
    ghost within: { AreWithin standard_limits (limits_of rows) },
    ghost fit: { AreTableRows settings (rows_of rows) },
    ghost indexed: { ∥ HasIndex settings (rows_of rows) index ∥₁ },
}

/// What a commit makes of the rows and the index. Its room is made.
#[derive(Drop)]
pub struct NextKept {
    plan: Plan,
    words: CommitPlan,
}

impl Kept {
    ghost use Rattle.std.specs.Prelude.{◌≡◌, ◌≤◌, length, IfOk, IfErr, OnOk, Ok};
    ghost use Rattle.std.specs.Prelude.{List, [], ◌∷◌, ◌++◌, Some};
    ghost use Rattle.fts_types.specs.Rules.{rules_of};
    ghost use Rattle.fts_commits.specs.Commit.{Commit, Rows as RowList, after_commit, no_rows};
    ghost use Rattle.fts_commits.specs.Turn.{turns_from, births_of};
    ghost use Rattle.fts_entries.specs.Entry.{IndexState, unflushed};
    ghost use Rattle.fts_entries.specs.Batch.{after_batch};
    ghost use Rattle.fts_entries.specs.Exact.{IsExact};
    ghost use Rattle.fts_entries.specs.Words.{rows_size};
    ghost use Rattle.fts_listing.specs.Listing.{IsListed};
    ghost use Rattle.fts_commits.specs.Fits.{IsCommit};
    ghost use Rattle.fts_meaning.specs.View.{view_of};
    ghost use Rattle.fts_query.specs.Seen.{leaves_seen, view_seen};
    ghost use Rattle.fts_rows.specs.Refusal.{IsNoPlan};
    ghost use Rattle.fts_engine.specs.Kept.{kept_settings, kept_rows, kept_limits};
    ghost use Rattle.fts_engine.specs.Kept.{IsIndexed, StaysIndexed};
    ghost use Rattle.fts_engine.specs.Planned.{WillKeep, IsNextBatch, IsPlanned};
    ghost use Rattle.fts_engine.specs.Planned.{CanSync, CanOptimize};
    ghost use Rattle.fts_entries.specs.Entry.{after_entry};
    ghost use Rattle.fts_entries.specs.Pass.{IsStep};
    ghost use Rattle.fts_index.specs.Passing.{step_entry, PlansStep, ArePacked};

    /// The settings of the database.
    pub fn settings(&self) -> &Settings
        ensures some { 1 ≤ length result.now.columns }
        ensures few { length result.now.columns ≤ 8 }
        ensures settings { result.now ≡ kept_settings self.now }
    {
        &self.settings
    }

    /// Sets the limits of later commits.
    pub fn set_limits(&mut self, limits: Limits)
        requires { AreWithin standard_limits limits }
        ensures rows { kept_rows self.new ≡ kept_rows self.old }
        ensures settings { kept_settings self.new ≡ kept_settings self.old }
        ensures limits { kept_limits self.new ≡ limits }
        ensures index { StaysIndexed self.old self.new }
    {
        self.rows.set_limits(limits);
    }

    /// What a commit makes of the rows and their words, with the room for it.
    pub fn plan(&mut self, changes: &[Change]) -> Result<NextKept, PlanError>
        requires { IsCommit (length (kept_settings self.old).columns) changes.now }
        ensures planned { IfOk result
            (λ next. (after : RowList)
            × (after_commit (kept_limits self.old) changes.now (kept_rows self.old) ≡ Ok after)
            × WillKeep self.new next changes.now after) }
        ensures refused { IfErr result
            (IsNoPlan (after_commit (kept_limits self.old) changes.now (kept_rows self.old))) }
        ensures rows { kept_rows self.new ≡ kept_rows self.old }
        ensures settings { kept_settings self.new ≡ kept_settings self.old }
        ensures limits { kept_limits self.new ≡ kept_limits self.old }
        ensures index { StaysIndexed self.old self.new }
    {
        let plan = match self.rows.plan(changes) {
            Ok(plan) => plan,
            Err(error) => return Err(error),
        };
        let births = plan.births();
        match self
            .index
            .plan_commit(&self.settings, births, plan.deaths(), plan.largest())
        {
            Ok(words) => Ok(NextKept { plan, words }),
            Err(AllocError) => Err(PlanError::NoMemory),
        }
    }

    /// Keeps what a commit made of the rows and their words.
    pub fn install(&mut self, next: NextKept)
        requires { (commit : Commit) × (after : RowList) × WillKeep self.old next commit after }
        ensures rows { (commit : Commit) (after : RowList) → WillKeep self.old next commit after
            → kept_rows self.new ≡ after }
        ensures settings { kept_settings self.new ≡ kept_settings self.old }
        ensures limits { kept_limits self.new ≡ kept_limits self.old }
        ensures index { (commit : Commit) (after : RowList) → WillKeep self.old next commit after
            → (commits : List Commit) (s : IndexState) → IsIndexed self.old commits s
            → IsIndexed self.new (commits ++ commit ∷ []) s }
    {
        install_next(&mut self.rows, &mut self.index, next);
    }

    /// Makes a commit that stands in the log already.
    pub fn replay(&mut self, changes: &[Change]) -> Result<(), PlanError>
        requires { IsCommit (length (kept_settings self.old).columns) changes.now }
        ensures rows { OnOk result (after_commit (kept_limits self.old) changes.now
            (kept_rows self.old) ≡ Ok (kept_rows self.new)) }
        ensures refused { IfErr result
            (IsNoPlan (after_commit (kept_limits self.old) changes.now (kept_rows self.old))) }
        ensures settings { kept_settings self.new ≡ kept_settings self.old }
        ensures limits { kept_limits self.new ≡ kept_limits self.old }
        ensures index { OnOk result ((commits : List Commit) (s : IndexState)
            → IsIndexed self.old commits s
            → IsIndexed self.new (commits ++ changes.now ∷ []) s) }
    {
        match self.plan(changes) {
            Ok(next) => {
                self.install(next);
                Ok(())
            }
            Err(error) => Err(error),
        }
    }

    /// What the rows have for these leaves, as the view of so many commits, where the index is
    /// right. Where there is no memory, the leaves come back.
    pub fn view(&self, alloc: Global, number: u64, leaves: Vec<Leaf>) -> Result<View, Vec<Leaf>>
        ensures numbered { IfOk result (λ view. (view_seen view).number ≡ number) }
        ensures right { IfOk result (λ view. (commits : List Commit) (s : IndexState)
            → IsIndexed self.now commits s
            → IsExact (rules_of (kept_settings self.now)) (kept_rows self.now).list
            (turns_from no_rows commits) s → view_seen view
            ≡ view_of (rules_of (kept_settings self.now)) (kept_rows self.now).list number
            (leaves_seen leaves.items)) }
        ensures back { IfErr result (λ back. back ≡ leaves) }
    {
        let gathered = match self.index.gather(leaves.as_slice()) {
            Ok(gathered) => gathered,
            Err(AllocError) => return Err(leaves),
        };
        let texts = match candidates(alloc, &self.rows, gathered.looked_into.as_slice()) {
            Ok(texts) => texts,
            Err(AllocError) => return Err(leaves),
        };
        match paired(alloc, leaves, gathered.lists) {
            Ok(postings) => Ok(View {
                number,
                postings,
                texts,
            }),
            Err(leaves) => Err(leaves),
        }
    }

    /// The next batch of the index, with the room for it; None where all commits are flushed. Where
    /// there is no memory, nothing changes.
    pub fn plan_sync(&mut self) -> Result<Option<SyncPlan>, AllocError>
        ensures planned { IfOk result (λ plan. (commits : List Commit) (s : IndexState)
            → IsIndexed self.old commits s → IsPlanned self.new commits s plan) }
        ensures room { (plan : SyncPlan) → result ≡ Ok (Some plan) → CanSync self.new plan }
        ensures index { StaysIndexed self.old self.new }
        ensures rows { kept_rows self.new ≡ kept_rows self.old }
        ensures settings { kept_settings self.new ≡ kept_settings self.old }
        ensures limits { kept_limits self.new ≡ kept_limits self.old }
    {
        self.index.plan_sync(self.settings.batch_docs)
    }

    /// Makes the batch. It takes no memory.
    pub fn install_sync(&mut self, plan: SyncPlan)
        requires { CanSync self.old plan }
        ensures index { (commits : List Commit) (s : IndexState) → IsIndexed self.old commits s
            → IsNextBatch self.old plan commits s
            → IsIndexed self.new commits (after_batch (rules_of (kept_settings self.old))
            (kept_settings self.old).batch_docs (turns_from no_rows commits) s) }
        ensures rows { kept_rows self.new ≡ kept_rows self.old }
        ensures settings { kept_settings self.new ≡ kept_settings self.old }
        ensures limits { kept_limits self.new ≡ kept_limits self.old }
    {
        self.index.install_sync(plan);
    }

    /// The next step of OPTIMIZE, with the room for it; None where it has nothing to do. Where
    /// there is no memory, nothing changes.
    pub fn plan_optimize(&mut self) -> Result<Option<PassPlan>, AllocError>
        ensures planned { IfOk result (λ plan. (commits : List Commit) (s : IndexState)
            → IsIndexed self.old commits s → PlansStep s plan) }
        ensures room { (plan : PassPlan) → result ≡ Ok (Some plan) → CanOptimize self.new plan }
        ensures packed { IfOk result ArePacked }
        ensures index { StaysIndexed self.old self.new }
        ensures rows { kept_rows self.new ≡ kept_rows self.old }
        ensures settings { kept_settings self.new ≡ kept_settings self.old }
        ensures limits { kept_limits self.new ≡ kept_limits self.old }
    {
        self.index.plan_optimize()
    }

    /// Makes the step. It takes no memory.
    pub fn install_optimize(&mut self, plan: PassPlan)
        requires { CanOptimize self.old plan }
        ensures index { (commits : List Commit) (s : IndexState) → IsIndexed self.old commits s
            → IsStep s (step_entry plan) → IsIndexed self.new commits
            (after_entry (turns_from no_rows commits) s (step_entry plan)) }
        ensures rows { kept_rows self.new ≡ kept_rows self.old }
        ensures settings { kept_settings self.new ≡ kept_settings self.old }
        ensures limits { kept_limits self.new ≡ kept_limits self.old }
    {
        self.index.install_optimize(plan);
    }

    /// What a view of the index lists.
    pub fn listing(&self, kind: ListingKind) -> Result<Listing, AllocError>
        ensures { IfOk result (λ listing. (commits : List Commit) (s : IndexState)
            → IsIndexed self.now commits s
            → IsListed (kept_settings self.now) (turns_from no_rows commits) s kind listing) }
    {
        self.index.listing(&self.settings, kind)
    }

    /// The size of the cache, in bytes. Constant time.
    pub fn cache_size(&self) -> u64
        ensures { (commits : List Commit) (s : IndexState) → IsIndexed self.now commits s
            → result ≡ rows_size (rules_of (kept_settings self.now))
            (births_of (unflushed (turns_from no_rows commits) s)) }
    {
        self.index.cache_size()
    }
}

// Puts what a commit made into the rows and the index.
fn install_next(rows: &mut Rows, index: &mut Index, next: NextKept)
    requires { (settings : Settings) × (commit : Commit) × (after : RowList)
        × WillHold settings rows.old index.old next commit after }
    ensures rows { (settings : Settings) (commit : Commit) (after : RowList)
        → WillHold settings rows.old index.old next commit after → rows_of rows.new ≡ after }
    ensures index { (settings : Settings) (commit : Commit) (after : RowList)
        → WillHold settings rows.old index.old next commit after
        → (commits : List Commit) (s : IndexState)
        → IsIndexOf settings (rows_of rows.old) index.old commits s
        → IsIndexOf settings after index.new (commits ++ commit ∷ []) s }
    ensures limits { limits_of rows.new ≡ limits_of rows.old }
{
    are_turns();
    let NextKept { plan, words } = next;
    rows.install(plan);
    index.install_commit(words);
}
