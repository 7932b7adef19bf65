ghost use Rattle.std.specs.Prelude.{◌≡◌, ◌+◌, ◌<◌, ◌≤◌, ◌↔◌, [], ◌∷◌, ◌++◌, false, length, IsTrue};
ghost use Rattle.std.specs.Prelude.{IfOk, MatchOption, OnOk, map};
ghost use Rattle.std.specs.Arc.{arc_value};
ghost use Rattle.std.specs.Option.{option_copied, option_map};
ghost use Rattle.fts_commits.specs.Commit.{Rows as RowList, no_rows, has_key, with_key};
ghost use Rattle.fts_commits.specs.Commit.{without_key};
ghost use Rattle.fts_commits.specs.Turn.{RowsAscend, rows_but};
ghost use Rattle.fts_types.specs.Row.{row_of};
ghost use Rattle.fts_rows.specs.Rows.{rows_of, limits_of, row_with_key, texts_with_id};
ghost use Rattle.fts_rows.specs.Rows.{without_id};
ghost use Rattle.fts_rows.specs.Plan.{HaveKeysOnce, PlanFor};

use crate::plan::Plan;
use crate::slots::{Slots, compact, push_row, row_at, rows_of_slots, take_row};
use fts_types::{DocId, Key, Limits, Row, RowTexts};
use indexmap::IndexMap;
use std::alloc::{AllocError, Global};
use std::collections::HashMap;
use std::marker::Model;
use std::sync::Arc;

/// The rows of a table.
#[derive(Drop)]
pub struct Rows {
    alloc: Global,
    // By ascending ids.
    slots: Slots,
    // For each key the id of its row.
    docs: HashMap<Key, DocId>,
    largest: DocId,
    limits: Limits,
}

impl Model for Rows {
    ghost use Rattle.std.specs.Prelude.{min, nat_eq};
    ghost use Rattle.std.specs.HashMap.{get, spare, hash_map_len};
    ghost use Rattle.fts_rows.specs.Rows.{Held};
    ghost use Rattle.fts_rows.specs.Slots.{AreKept, rows_in};

    ghost Value = { Held };

    ghost view = { λ r. record {
      rows = record { list = rows_in r.slots.entries; largest = r.largest };
      limits = r.limits;
      room = min (spare r.docs) (spare r.slots);
    } };

    ghost invariant = { λ r. AreKept (get nat_eq r.docs) (hash_map_len r.docs) r.largest
        r.slots.entries };
}

impl Rows {
    /// No rows. What it holds later lies in the allocator's memory.
    pub fn new(alloc: Global, limits: Limits) -> Self
        ensures rows { rows_of result ≡ no_rows }
        ensures limits { limits_of result ≡ limits }
    {
        Rows {
            alloc,
            slots: IndexMap::new(alloc),
            docs: HashMap::new(alloc),
            largest: 0,
            limits,
        }
    }

    /// Sets the limits of later commits.
    pub fn set_limits(&mut self, limits: Limits)
        ensures rows { rows_of self.new ≡ rows_of self.old }
        ensures limits { limits_of self.new ≡ limits }
        ensures room { self.new.room ≡ self.old.room }
    {
        self.limits = limits;
    }

    /// The limits of later commits.
    pub fn limits(&self) -> Limits
        ensures { result ≡ limits_of self.now }
    {
        self.limits
    }

    /// The allocator.
    pub(crate) fn alloc(&self) -> Global {
        self.alloc
    }

    /// The largest document id that was used, 0 before the first. No row has a larger one.
    pub fn largest(&self) -> DocId
        ensures largest { result ≡ (rows_of self.now).largest }
        ensures ascend { RowsAscend 0 result (rows_of self.now).list }
    {
        self.largest
    }

    /// How many rows there are.
    pub fn len(&self) -> usize
        ensures { result ≡ length (rows_of self.now).list }
    {
        self.docs.len()
    }

    /// Whether there are none.
    pub fn is_empty(&self) -> bool
        ensures { IsTrue result ↔ ((rows_of self.now).list ≡ []) }
    {
        self.docs.is_empty()
    }

    /// An empty table, for rows with ids above all that were used here. Its rows will lie in the
    /// same memory.
    pub(crate) fn behind(&self) -> Self
        ensures rows { rows_of result
            ≡ record { list = []; largest = (rows_of self.now).largest } }
        ensures keys { HaveKeysOnce (rows_of self.now).list }
        ensures ascend { RowsAscend 0 (rows_of self.now).largest (rows_of self.now).list }
    {
        Rows {
            alloc: self.alloc,
            slots: IndexMap::new(self.alloc),
            docs: HashMap::new(self.alloc),
            largest: self.largest,
            limits: self.limits,
        }
    }

    /// The only row with this key, in constant time.
    pub(crate) fn find(&self, key: Key) -> Option<&Row>
        ensures row { MatchOption result (with_key key (rows_of self.now).list ≡ [])
            (λ row. with_key key (rows_of self.now).list ≡ row_of row.now ∷ []) }
        ensures ascend { RowsAscend 0 (rows_of self.now).largest (rows_of self.now).list }
    {
        match self.docs.get(&key) {
            Some(doc) => row_at(&self.slots, *doc),
            None => None,
        }
    }

    /// Whether a row has the key, in constant time.
    pub(crate) fn has(&self, key: Key) -> bool
        ensures has { result ≡ has_key key (rows_of self.now).list }
        ensures keys { HaveKeysOnce (rows_of self.now).list }
        ensures ascend { RowsAscend 0 (rows_of self.now).largest (rows_of self.now).list }
    {
        self.docs.contains_key(&key)
    }

    /// The row with this key, in constant time.
    pub fn row(&self, key: Key) -> Option<&Row>
        ensures { option_map row_of (option_copied result)
            ≡ row_with_key key (rows_of self.now).list }
    {
        match self.docs.get(&key) {
            Some(doc) => row_at(&self.slots, *doc),
            None => None,
        }
    }

    /// The texts of the row with this document id, in constant time. Who clones the pointer holds
    /// them, whatever becomes of the row.
    pub fn text_of(&self, doc: DocId) -> Option<&Arc<RowTexts>>
        ensures { option_map arc_value (option_copied result)
            ≡ texts_with_id doc (rows_of self.now).list }
    {
        match row_at(&self.slots, doc) {
            Some(row) => Some(&row.texts),
            None => None,
        }
    }

    /// Makes room for so many more rows. Places of rows that were taken out are given up here, once
    /// they are more than the rows.
    pub(crate) fn reserve(&mut self, more: usize) -> Result<(), AllocError>
        ensures rows { rows_of self.new ≡ rows_of self.old }
        ensures limits { limits_of self.new ≡ limits_of self.old }
        ensures room { OnOk result (more ≤ self.new.room) }
    {
        if self.docs.len() < self.slots.len() / 2 {
            compact(&mut self.slots);
        }
        self.docs.reserve(more)?;
        self.slots.reserve(more)
    }

    /// Puts a row behind the others.
    pub(crate) fn push(&mut self, row: Row)
        requires room { 0 < self.old.room }
        requires key { has_key row.key (rows_of self.old).list ≡ false }
        requires id { (rows_of self.old).largest < row.doc }
        ensures rows { rows_of self.new
            ≡ record { list = (rows_of self.old).list ++ row_of row ∷ []; largest = row.doc } }
        ensures limits { limits_of self.new ≡ limits_of self.old }
        ensures room { self.old.room ≤ self.new.room + 1 }
    {
        self.largest = row.doc;
        match self.docs.insert(row.key, row.doc) {
            Ok(_) => {}
            Err(_) => unreachable!(),
        }
        push_row(&mut self.slots, row);
    }

    /// Takes the row with this key out, and gives it, or nothing where no row has the key. It takes
    /// no memory, and constant time; the other rows stay in their order.
    pub fn remove(&mut self, key: Key) -> Option<Row>
        ensures row { option_map row_of result ≡ row_with_key key (rows_of self.old).list }
        ensures rows { rows_of self.new ≡ record {
          list = without_key key (rows_of self.old).list;
          largest = (rows_of self.old).largest;
        } }
        ensures limits { limits_of self.new ≡ limits_of self.old }
        ensures room { self.old.room ≤ self.new.room }
    {
        match self.docs.remove(&key) {
            Some(doc) => take_row(&mut self.slots, doc),
            None => None,
        }
    }

    /// Takes the row with this document id out, if there is one.
    fn remove_id(&mut self, doc: DocId)
        ensures rows { rows_of self.new ≡ record {
          list = without_id doc (rows_of self.old).list;
          largest = (rows_of self.old).largest;
        } }
        ensures limits { limits_of self.new ≡ limits_of self.old }
        ensures room { self.old.room ≤ self.new.room }
    {
        let key = match row_at(&self.slots, doc) {
            Some(row) => row.key,
            None => return,
        };
        self.remove(key);
    }

    /// Takes the rows with these document ids out.
    fn remove_all(&mut self, docs: &[DocId])
        ensures rows { rows_of self.new ≡ record {
          list = rows_but docs.now (rows_of self.old).list;
          largest = (rows_of self.old).largest;
        } }
        ensures limits { limits_of self.new ≡ limits_of self.old }
        ensures room { self.old.room ≤ self.new.room }
    {
        for doc in docs {
            self.remove_id(*doc);
        }
    }

    /// Puts rows behind the others, and notes the largest id that is used then.
    fn push_all(&mut self, births: Vec<Row>, largest: DocId)
        requires room { length births.items ≤ self.old.room }
        requires keys { HaveKeysOnce ((rows_of self.old).list ++ map row_of births.items) }
        requires ids { RowsAscend (rows_of self.old).largest largest (map row_of births.items) }
        ensures rows { rows_of self.new ≡ record {
          list = (rows_of self.old).list ++ map row_of births.items;
          largest = largest;
        } }
        ensures limits { limits_of self.new ≡ limits_of self.old }
    {
        for row in births {
            self.push(row);
        }
        self.largest = largest;
    }

    /// Does to the rows what was planned for them. It takes no memory, and constant time for each
    /// row that is born or dies.
    pub fn install(&mut self, plan: Plan)
        requires { (after : RowList) × PlanFor self.old plan after }
        ensures rows { (after : RowList) → PlanFor self.old plan after → rows_of self.new ≡ after }
        ensures limits { limits_of self.new ≡ limits_of self.old }
    {
        let (births, deaths, largest) = plan.into_parts();
        self.remove_all(&deaths);
        self.push_all(births, largest);
    }

    /// The rows, by ascending ids.
    pub(crate) fn into_rows(self) -> Result<Vec<Row>, AllocError>
        ensures { IfOk result (λ rows. map row_of rows.items ≡ (rows_of self).list) }
    {
        let Rows { alloc, slots, .. } = self;
        rows_of_slots(alloc, slots)
    }
}
