//! What the changes of a commit have made of the rows so far.
ghost use Rattle.std.specs.Prelude.{◌≡◌, ◌<◌, [], ◌∷◌, ◌++◌, false, OnOk, IfOk};
ghost use Rattle.std.specs.Prelude.{MatchOption};
ghost use Rattle.fts_commits.specs.Commit.{has_key, with_key, without_key};
ghost use Rattle.fts_ids.specs.Ids.{Ascend};
ghost use Rattle.fts_types.specs.Row.{row_of};
ghost use Rattle.fts_rows.specs.Plan.{is_among, with_death};
ghost use Rattle.fts_rows.specs.Rows.{rows_of};

use crate::plan::Plan;
use crate::rows::Rows;
use fts_types::{DocId, Key, Row};
use std::alloc::{AllocError, Global};
use std::collections::BTreeSet;
use std::marker::Model;

/// The rows that some changes took out and those that they added, and the largest document id that
/// is used after them.
#[derive(Drop)]
pub(crate) struct Draft {
    alloc: Global,
    // The ids of the table's rows that go.
    gone: BTreeSet<DocId>,
    // The rows that come, and have not gone again.
    fresh: Rows,
}

impl Model for Draft {
    ghost use Rattle.fts_commits.specs.Turn.{Turn};
    ghost use Rattle.fts_rows.specs.Rows.{rows_of};

    ghost Value = { Turn };

    ghost view = { λ d. record {
      births = (rows_of d.fresh).list;
      deaths = d.gone.keys;
      largest = (rows_of d.fresh).largest;
    } };
}

impl Draft {
    /// Nothing has changed yet. What comes has ids above all that were used by these rows, of which
    /// there are none.
    pub(crate) fn new(alloc: Global, fresh: Rows) -> Self
        requires { (rows_of fresh).list ≡ [] }
        ensures { result ≡ record { births = []; deaths = []; largest = (rows_of fresh).largest } }
    {
        Draft {
            alloc,
            gone: BTreeSet::new(alloc),
            fresh,
        }
    }

    /// The largest id that is used.
    pub(crate) fn largest(&self) -> DocId
        ensures { result ≡ self.now.largest }
    {
        self.fresh.largest()
    }

    /// Whether the table's row with this id goes.
    pub(crate) fn is_gone(&self, doc: DocId) -> bool
        ensures { result ≡ is_among doc self.now.deaths }
    {
        self.gone.contains(&doc)
    }

    /// The row with this key that has come.
    pub(crate) fn find(&self, key: Key) -> Option<&Row>
        ensures { MatchOption result (with_key key self.now.births ≡ [])
            (λ row. with_key key self.now.births ≡ row_of row.now ∷ []) }
    {
        self.fresh.find(key)
    }

    /// The table's row with this id goes, if it has not gone yet.
    pub(crate) fn bury(&mut self, doc: DocId) -> Result<(), AllocError>
        ensures { OnOk result (self.new ≡ record {
          births = self.old.births;
          deaths = with_death doc self.old.deaths;
          largest = self.old.largest;
        }) }
    {
        self.gone.insert(doc)?;
        Ok(())
    }

    /// Takes the row with this key that has come out again, if there is one.
    pub(crate) fn forget(&mut self, key: Key)
        ensures { self.new ≡ record {
          births = without_key key self.old.births;
          deaths = self.old.deaths;
          largest = self.old.largest;
        } }
    {
        self.fresh.remove(key);
    }

    /// Adds a row.
    pub(crate) fn add(&mut self, row: Row) -> Result<(), AllocError>
        requires key { has_key row.key self.old.births ≡ false }
        requires id { self.old.largest < row.doc }
        ensures { OnOk result (self.new ≡ record {
          births = self.old.births ++ row_of row ∷ [];
          deaths = self.old.deaths;
          largest = row.doc;
        }) }
    {
        self.fresh.reserve(1)?;
        self.fresh.push(row);
        Ok(())
    }

    /// What has come and gone, in the order of the ids.
    pub(crate) fn finish(self) -> Result<Plan, AllocError>
        ensures plan { IfOk result (λ plan. plan ≡ self) }
        ensures deaths { Ascend self.deaths }
    {
        let largest = self.largest();
        let Draft { alloc, gone, fresh } = self;
        let deaths = ids_of(alloc, &gone)?;
        let births = fresh.into_rows()?;
        Ok(Plan::new(births, deaths, largest))
    }
}

/// The ids of a set.
fn ids_of(alloc: Global, ids: &BTreeSet<DocId>) -> Result<Vec<DocId>, AllocError>
    ensures ids { IfOk result (λ list. list.items ≡ ids.now.keys) }
    ensures ascend { Ascend ids.now.keys }
{
    ids.iter().copied().collect(alloc)
}
