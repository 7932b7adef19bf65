//! How a commit is planned.
ghost use Rattle.std.specs.Prelude.{◌≡◌, ◌+◌, ◌<◌, ◌≤◌, ℕ, List, [], ◌∷◌, length, sum_by, Ok};
ghost use Rattle.std.specs.Prelude.{IfOk, IfErr, MatchOption, OnOk};
ghost use Rattle.fts_types.specs.Row.{Row as Seen, row_of};
ghost use Rattle.fts_commits.specs.Commit.{Rows as RowList, doc_for, has_key, set_bytes};
ghost use Rattle.fts_commits.specs.Commit.{after_change, after_changes, after_commit};
ghost use Rattle.fts_commits.specs.Commit.{with_key, without_key};
ghost use Rattle.fts_commits.specs.Turn.{rows_by};
ghost use Rattle.fts_commits.specs.declared.change.Change.TheVariants.{Insert, Update};
ghost use Rattle.fts_ids.specs.Ids.{Ascend};
ghost use Rattle.fts_rows.specs.Rows.{rows_of, limits_of};
ghost use Rattle.fts_rows.specs.Plan.{Fits, IsTurnOf, PlanFor};
ghost use Rattle.fts_rows.specs.Refusal.{IsNoPlan, IsTooLong, IsTooMany};
ghost use Rattle.fts_rows.specs.declared.error.PlanError.TheVariants.{NoMemory};

use crate::draft::Draft;
use crate::error::PlanError;
use crate::plan::Plan;
use crate::rows::Rows;
use crate::updating::{set_size, updated_texts};
use fts_commits::{Change, NewTexts, Refusal};
use fts_types::{DocId, Key, Row, RowTexts, SharedTexts};

/// How far a given document id may be above the largest that was used (MySQL:
/// `FTS_DOC_ID_MAX_STEP`).
const LARGEST_STEP: DocId = 65_535;

/// How many bytes the texts of a row have at most, together.
const LONGEST_TEXTS: usize = 65_535;

/// The document id of a new row: the one that is given, or the next one.
pub(crate) fn next_doc(limit: DocId, largest: DocId, given: Option<DocId>) -> Result<DocId, Refusal>
    ensures id { result ≡ doc_for limit largest given }
    ensures above { IfOk result (λ doc. largest < doc) }
{
    let Some(given) = given else {
        if largest >= limit {
            return Err(Refusal::IdsFull { largest });
        }
        return Ok(largest + 1);
    };
    if given <= largest {
        return Err(Refusal::DocIdOrder { given, largest });
    }
    if given - largest > LARGEST_STEP {
        return Err(Refusal::DocIdGap { given, largest });
    }
    if given > limit {
        return Err(Refusal::IdsFull { largest });
    }
    Ok(given)
}

/// Fails where the texts of a row have too many bytes together.
pub(crate) fn check_length(change: u64, texts: &RowTexts) -> Result<(), PlanError>
    ensures ok { OnOk result (sum_by length texts.now ≤ 65535) }
    ensures refused { IfErr result (IsTooLong change (sum_by length texts.now)) }
{
    // Texts of more bytes than this are in no memory.
    let Some(length) = texts.size() else {
        return Err(PlanError::NoMemory);
    };
    if length > LONGEST_TEXTS {
        let length = length as u64;
        return Err(PlanError::from(Refusal::TextTooLong { change, length }));
    }
    Ok(())
}

/// Fails where the texts that an UPDATE sets have too many bytes together.
fn check_set(change: u64, news: &NewTexts) -> Result<(), PlanError>
    ensures ok { OnOk result (set_bytes news.now ≤ 65535) }
    ensures refused { IfErr result (IsTooLong change (set_bytes news.now)) }
{
    // Texts of more bytes than this are in no memory.
    let Some(length) = set_size(news) else {
        return Err(PlanError::NoMemory);
    };
    if length > LONGEST_TEXTS {
        let length = length as u64;
        return Err(PlanError::from(Refusal::TextTooLong { change, length }));
    }
    Ok(())
}

impl Rows {
    /// The row that has the key after the changes of a draft.
    fn current<'a>(&'a self, draft: &'a Draft, key: Key) -> Option<&'a Row>
        ensures { MatchOption result
            (with_key key (rows_by self.now.rows draft.now).list ≡ [])
            (λ row. (others : List Seen)
            × (with_key key (rows_by self.now.rows draft.now).list ≡ row_of row.now ∷ others)) }
    {
        match self.find(key) {
            Some(row) => {
                if draft.is_gone(row.doc) {
                    draft.find(key)
                } else {
                    Some(row)
                }
            }
            None => draft.find(key),
        }
    }

    /// Whether a row has the key after the changes of a draft.
    fn is_taken(&self, draft: &Draft, key: Key) -> bool
        ensures { result ≡ has_key key (rows_by self.now.rows draft.now).list }
    {
        self.current(draft, key).is_some()
    }

    /// Takes the row with the key out of what a draft leaves, if there is one.
    fn take_out(&self, draft: &mut Draft, key: Key) -> Result<(), PlanError>
        ensures rows { OnOk result (rows_by self.now.rows draft.new ≡ record {
          list = without_key key (rows_by self.now.rows draft.old).list;
          largest = draft.old.largest;
        }) }
        ensures fits { OnOk result ((count : ℕ) → Fits self.now.rows draft.old count
            → Fits self.now.rows draft.new count) }
        ensures refused { IfErr result (λ error. error ≡ NoMemory) }
    {
        draft.forget(key);
        match self.find(key) {
            Some(row) => {
                draft.bury(row.doc)?;
                Ok(())
            }
            None => Ok(()),
        }
    }

    /// Adds a new row to a draft.
    fn insert(
        &self,
        draft: &mut Draft,
        change: u64,
        key: Key,
        given: Option<DocId>,
        texts: &SharedTexts,
    ) -> Result<(), PlanError>
        ensures ok { OnOk result (after_change self.now.limits.ids change
            (Insert key given texts.now) (rows_by self.now.rows draft.old)
            ≡ Ok (rows_by self.now.rows draft.new)) }
        ensures fits { OnOk result ((count : ℕ) → Fits self.now.rows draft.old count
            → Fits self.now.rows draft.new (count + 1)) }
        ensures refused { IfErr result
            (IsNoPlan (after_change self.now.limits.ids change (Insert key given texts.now)
            (rows_by self.now.rows draft.old))) }
    {
        if self.is_taken(draft, key) {
            return Err(PlanError::from(Refusal::DuplicateKey { change, key }));
        }
        let doc = match next_doc(self.limits().ids, draft.largest(), given) {
            Ok(doc) => doc,
            Err(refusal) => return Err(PlanError::from(refusal)),
        };
        if let Err(error) = check_length(change, texts.texts()) {
            return Err(error);
        }
        let texts = texts.pointer()?;
        draft.add(Row { key, doc, texts })?;
        Ok(())
    }

    /// Puts the row with the key behind the others in a draft, under a new id and with new texts.
    /// Where no row has the key, nothing changes.
    fn update(
        &self,
        draft: &mut Draft,
        change: u64,
        key: Key,
        news: &NewTexts,
    ) -> Result<(), PlanError>
        ensures ok { OnOk result (after_change self.now.limits.ids change (Update key news.now)
            (rows_by self.now.rows draft.old) ≡ Ok (rows_by self.now.rows draft.new)) }
        ensures fits { OnOk result ((count : ℕ) → Fits self.now.rows draft.old count
            → Fits self.now.rows draft.new (count + 1)) }
        ensures refused { IfErr result
            (IsNoPlan (after_change self.now.limits.ids change (Update key news.now)
            (rows_by self.now.rows draft.old))) }
    {
        let Some(row) = self.current(draft, key) else {
            return check_set(change, news);
        };
        let doc = match next_doc(self.limits().ids, draft.largest(), None) {
            Ok(doc) => doc,
            Err(refusal) => return Err(PlanError::from(refusal)),
        };
        let texts = updated_texts(self.alloc(), &row.texts, news)?;
        if let Err(error) = check_length(change, &texts) {
            return Err(error);
        }
        if let Err(error) = self.take_out(draft, key) {
            return Err(error);
        }
        draft.add(Row { key, doc, texts })?;
        Ok(())
    }
}

impl Rows {
    /// Adds what one change makes of the rows to a draft.
    fn change(&self, draft: &mut Draft, number: u64, change: &Change) -> Result<(), PlanError>
        ensures ok { OnOk result (after_change self.now.limits.ids number change.now
            (rows_by self.now.rows draft.old) ≡ Ok (rows_by self.now.rows draft.new)) }
        ensures fits { OnOk result ((count : ℕ) → Fits self.now.rows draft.old count
            → Fits self.now.rows draft.new (count + 1)) }
        ensures refused { IfErr result
            (IsNoPlan (after_change self.now.limits.ids number change.now
            (rows_by self.now.rows draft.old))) }
    {
        match change {
            Change::Insert { key, doc, texts } => self.insert(draft, number, *key, *doc, texts),
            Change::Update { key, texts } => self.update(draft, number, *key, texts),
            Change::Delete { key } => self.take_out(draft, *key),
        }
    }

    /// What these changes make of the rows, which takes no heed of how many rows there may be.
    fn draft(&self, changes: &[Change]) -> Result<Draft, PlanError>
        ensures ok { IfOk result (λ draft. after_changes self.now.limits.ids 1 changes.now
            self.now.rows ≡ Ok (rows_by self.now.rows draft)) }
        ensures fits { IfOk result (λ draft. Fits self.now.rows draft (length changes.now)) }
        ensures turn { IfOk result (λ draft. Ascend draft.deaths → IsTurnOf self.now.rows draft) }
        ensures refused { IfErr result
            (IsNoPlan (after_changes self.now.limits.ids 1 changes.now self.now.rows)) }
    {
        let mut draft = Draft::new(self.alloc(), self.behind());
        let mut number = 0;
        for change in changes {
            number += 1;
            if let Err(error) = self.change(&mut draft, number, change) {
                return Err(error);
            }
        }
        Ok(draft)
    }

    /// Fails where there would be more rows than the limit.
    fn check_rows(&self, plan: &Plan) -> Result<(), PlanError>
        requires { IsTurnOf self.now.rows plan.now }
        ensures ok { OnOk result (length (rows_by self.now.rows plan.now).list
            ≤ self.now.limits.rows) }
        ensures refused { IfErr result
            (IsTooMany self.now.limits.rows (length (rows_by self.now.rows plan.now).list)) }
    {
        let kept = self.len() - plan.deaths().len();
        // More rows than this are in no memory.
        let Some(rows) = kept.checked_add(plan.births().len()) else {
            return Err(PlanError::NoMemory);
        };
        let rows = rows as u64;
        if rows > self.limits().rows {
            return Err(PlanError::from(Refusal::RowsFull { rows }));
        }
        Ok(())
    }

    /// What these changes make of the rows, by way of a draft.
    fn drafted(&self, changes: &[Change]) -> Result<Plan, PlanError>
        ensures ok { IfOk result (λ plan. after_changes self.now.limits.ids 1 changes.now
            self.now.rows ≡ Ok (rows_by self.now.rows plan)) }
        ensures fits { IfOk result (λ plan. Fits self.now.rows plan (length changes.now)) }
        ensures turn { IfOk result (λ plan. IsTurnOf self.now.rows plan) }
        ensures ascend { IfOk result (λ plan. Ascend plan.deaths) }
        ensures refused { IfErr result
            (IsNoPlan (after_changes self.now.limits.ids 1 changes.now self.now.rows)) }
    {
        let draft = match self.draft(changes) {
            Ok(draft) => draft,
            Err(error) => return Err(error),
        };
        Ok(draft.finish()?)
    }

    /// What these changes make of the rows: a draft is made of more than one INSERT alone.
    fn turn_of(&self, changes: &[Change]) -> Result<Plan, PlanError>
        ensures ok { IfOk result (λ plan. after_changes self.now.limits.ids 1 changes.now
            self.now.rows ≡ Ok (rows_by self.now.rows plan)) }
        ensures fits { IfOk result (λ plan. Fits self.now.rows plan (length changes.now)) }
        ensures turn { IfOk result (λ plan. IsTurnOf self.now.rows plan) }
        ensures ascend { IfOk result (λ plan. Ascend plan.deaths) }
        ensures refused { IfErr result
            (IsNoPlan (after_changes self.now.limits.ids 1 changes.now self.now.rows)) }
    {
        match changes {
            [Change::Insert { key, doc, texts }] => self.only_insert(*key, *doc, texts),
            _ => self.drafted(changes),
        }
    }

    /// Plans a commit: the rows that are born in it, with their document ids, and those that die,
    /// or why it is refused. Each change sees what those before it made of the rows. The rows stay
    /// as they are, and have room for what is planned.
    ///
    /// The new rows hold the texts of an INSERT, and no copy of them; those of an UPDATE are
    /// copied, unless it sets none. It takes a look-up or two for each key, and a step for each
    /// text.
    pub fn plan(&mut self, changes: &[Change]) -> Result<Plan, PlanError>
        ensures planned { IfOk result
            (λ plan. (after : RowList)
            × (after_commit (limits_of self.old) changes.now (rows_of self.old) ≡ Ok after)
            × PlanFor self.new plan after) }
        ensures refused { IfErr result
            (IsNoPlan (after_commit (limits_of self.old) changes.now (rows_of self.old))) }
        ensures rows { rows_of self.new ≡ rows_of self.old }
        ensures limits { limits_of self.new ≡ limits_of self.old }
    {
        self.reserve(changes.len())?;
        let plan = match self.turn_of(changes) {
            Ok(plan) => plan,
            Err(error) => return Err(error),
        };
        if let Err(error) = self.check_rows(&plan) {
            return Err(error);
        }
        Ok(plan)
    }
}
