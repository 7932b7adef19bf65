//! Commits of one INSERT, which need no draft.
ghost use Rattle.std.specs.Prelude.{◌≡◌, ◌<◌, [], ◌∷◌, false, Ok, IfOk, IfErr};
ghost use Rattle.fts_types.specs.Row.{row_of};
ghost use Rattle.fts_commits.specs.Commit.{after_change, after_changes, has_key};
ghost use Rattle.fts_commits.specs.Turn.{RowsAscend, rows_by};
ghost use Rattle.fts_commits.specs.declared.change.Change.TheVariants.{Insert};
ghost use Rattle.fts_ids.specs.Ids.{Ascend};
ghost use Rattle.fts_rows.specs.Plan.{Fits, HaveKeysOnce, IsTurnOf, after_row};
ghost use Rattle.fts_rows.specs.Refusal.{IsNoPlan};

use crate::error::PlanError;
use crate::plan::Plan;
use crate::planning::{check_length, next_doc};
use crate::rows::Rows;
use fts_commits::Refusal;
use fts_types::{DocId, Key, Row, SharedTexts};
use std::alloc::AllocError;

impl Rows {
    /// The row that an INSERT makes which is alone in its commit.
    fn only_row(
        &self,
        key: Key,
        given: Option<DocId>,
        texts: &SharedTexts,
    ) -> Result<Row, PlanError>
        ensures ok { IfOk result (λ row. after_change self.now.limits.ids 1
            (Insert key given texts.now) self.now.rows
            ≡ Ok (after_row self.now.rows (row_of row))) }
        ensures new { IfOk result (λ row. has_key row.key self.now.rows.list ≡ false) }
        ensures above { IfOk result (λ row. self.now.rows.largest < row.doc) }
        ensures refused { IfErr result
            (IsNoPlan (after_change self.now.limits.ids 1 (Insert key given texts.now)
            self.now.rows)) }
        ensures keys { HaveKeysOnce self.now.rows.list }
        ensures ascend { RowsAscend 0 self.now.rows.largest self.now.rows.list }
    {
        if self.has(key) {
            return Err(PlanError::from(Refusal::DuplicateKey { change: 1, key }));
        }
        let doc = match next_doc(self.limits().ids, self.largest(), given) {
            Ok(doc) => doc,
            Err(refusal) => return Err(PlanError::from(refusal)),
        };
        if let Err(error) = check_length(1, texts.texts()) {
            return Err(error);
        }
        let texts = texts.pointer()?;
        Ok(Row { key, doc, texts })
    }

    /// What comes of one row that is born.
    fn born(&self, row: Row) -> Result<Plan, AllocError>
        requires new { has_key row.key self.now.rows.list ≡ false }
        requires above { self.now.rows.largest < row.doc }
        requires keys { HaveKeysOnce self.now.rows.list }
        requires ascend { RowsAscend 0 self.now.rows.largest self.now.rows.list }
        ensures leads { IfOk result (λ plan. rows_by self.now.rows plan
            ≡ after_row self.now.rows (row_of row)) }
        ensures fits { IfOk result (λ plan. Fits self.now.rows plan 1) }
        ensures turn { IfOk result (λ plan. IsTurnOf self.now.rows plan) }
        ensures ascend { IfOk result (λ plan. Ascend plan.deaths) }
    {
        let doc = row.doc;
        let births = vec![in self.alloc(); row]?;
        Ok(Plan::new(births, Vec::new(self.alloc()), doc))
    }

    /// The plan of an INSERT that is alone in its commit, which takes no heed of how many rows
    /// there may be.
    pub(crate) fn only_insert(
        &self,
        key: Key,
        given: Option<DocId>,
        texts: &SharedTexts,
    ) -> Result<Plan, PlanError>
        ensures ok { IfOk result (λ plan. after_changes self.now.limits.ids 1
            (Insert key given texts.now ∷ []) self.now.rows
            ≡ Ok (rows_by self.now.rows plan)) }
        ensures fits { IfOk result (λ plan. Fits self.now.rows plan 1) }
        ensures turn { IfOk result (λ plan. IsTurnOf self.now.rows plan) }
        ensures ascend { IfOk result (λ plan. Ascend plan.deaths) }
        ensures refused { IfErr result
            (IsNoPlan (after_changes self.now.limits.ids 1 (Insert key given texts.now ∷ [])
            self.now.rows)) }
    {
        let row = match self.only_row(key, given, texts) {
            Ok(row) => row,
            Err(error) => return Err(error),
        };
        match self.born(row) {
            Ok(plan) => Ok(plan),
            Err(AllocError) => Err(PlanError::NoMemory),
        }
    }
}
