//! A set of ids, kept ascending, that tells of most ids in one look whether it has them.
ghost use Rattle.std.specs.Prelude.{◌≡◌, ◌-◌, ◌<◌, ◌≤◌, ℕ, [], length, cond, IsOk};
ghost use Rattle.std.specs.Prelude.{OnOk, OnErr};
ghost use Rattle.fts_ids.specs.Ids.{has, Ascend};
ghost use Rattle.fts_ids.specs.Marks.{is_marked};
ghost use Rattle.fts_lists.specs.Ids.{with_ids, without, AreMarked};

use crate::sorted::SortedIds;
use fts_ids::IdWalk;
use fts_types::DocId;
use std::alloc::{AllocError, Global};
use std::marker::Model;

/// At most so many marks for each id are made.
const SPREAD: u64 = 64;

/// A set of ids in ascending order, with a mark for each number below a bound.
#[derive(Drop)]
pub struct MarkedIds {
    ids: SortedIds,
    // For each number below their count, whether it is an id of the set.
    marks: Vec<bool>,
}

impl Model for MarkedIds {
    ghost use Rattle.fts_lists.specs.Ids.{Held, AreMarked};

    ghost Value = { Held };

    ghost view = { λ s. s.ids };

    ghost invariant = { λ s. AreMarked s.marks.items s.ids.ids };
}

/// Sets the marks of ids, as far as there are marks.
fn set_marks(marks: &mut Vec<bool>, ids: &[DocId], mark: bool)
    ensures size { length marks.new.items ≡ length marks.old.items }
    ensures each { (id : ℕ) → id < length marks.old.items → is_marked marks.new.items id
        ≡ cond (has ids.now id) mark (is_marked marks.old.items id) }
{
    for id in ids {
        let place = *id as usize;
        if place < marks.len() {
            marks[place] = mark;
        }
    }
}

/// Marks numbers up to one.
fn add_marks(marks: &mut Vec<bool>, ids: &[DocId], last: DocId) -> Result<(), AllocError>
    requires ids { Ascend ids.now }
    requires marks { AreMarked marks.old.items ids.now }
    ensures { AreMarked marks.new.items ids.now }
{
    let mut walk = IdWalk::new(ids);
    for id in marks.len() as u64..last.saturating_add(1) {
        marks.push(walk.has(id))?;
    }
    Ok(())
}

/// Whether an id is marked, or is told by a walk, where it has no mark.
fn is_among(marks: &[bool], walk: &mut IdWalk<'_>, id: DocId) -> bool
    requires { id < length marks.now → is_marked marks.now id ≡ has walk.old id }
    ensures found { result ≡ has walk.old id }
    ensures later { (later : ℕ) → id ≤ later → has walk.new later ≡ has walk.old later }
{
    let place = id as usize;
    if place < marks.len() {
        return marks[place];
    }
    walk.has(id)
}

impl MarkedIds {
    /// No ids, which will lie in the allocator's memory.
    pub fn new(alloc: Global) -> Self
        ensures { result ≡ record { ids = []; room = 0 } }
    {
        MarkedIds {
            ids: SortedIds::new(alloc),
            marks: Vec::new(alloc),
        }
    }

    /// The ids without their marks.
    pub fn ids(&self) -> &SortedIds
        ensures { result.now ≡ self.now }
    {
        &self.ids
    }

    /// Whether the id is in the set. It takes constant time where there is a mark, and else time
    /// that is logarithmic in the number of ids.
    pub fn contains(&self, id: DocId) -> bool
        ensures { result ≡ has self.now.ids id }
    {
        let place = id as usize;
        if place < self.marks.len() {
            return self.marks[place];
        }
        self.ids.contains(id)
    }

    /// Takes the ids of the set out of others that ascend: one look for each that has a mark, and a
    /// walk for the others. Each is written, and the next takes its place where it is of the set:
    /// so no branch hangs on which these are. It takes no memory.
    pub fn take_from(&self, ids: &mut Vec<DocId>)
        requires { Ascend ids.old.items }
        ensures { ids.new.items ≡ without self.now.ids ids.old.items }
    {
        let mut walk = IdWalk::new(self.ids.as_slice());
        let mut kept = 0;
        for at in 0..ids.len() {
            let id = ids[at];
            ids[kept] = id;
            kept += !is_among(&self.marks, &mut walk, id) as usize;
        }
        ids.truncate(kept);
    }

    /// Marks the numbers up to one, where the ids, and so many more that will be put in, are dense
    /// enough among them. It costs the numbers that have no mark yet.
    pub fn mark(&mut self, last: DocId, more: usize) -> Result<(), AllocError>
        ensures { self.new ≡ self.old }
    {
        let ids = self.ids.as_slice();
        if last / SPREAD > ids.len().saturating_add(more) as u64 {
            return Ok(());
        }
        add_marks(&mut self.marks, ids, last)
    }

    /// Makes room for so many more ids, in place of the room that was left.
    pub fn reserve(&mut self, more: usize) -> Result<(), AllocError>
        ensures ok { OnOk result (self.new ≡ record { ids = self.old.ids; room = more }) }
        ensures err { OnErr result (self.new ≡ self.old) }
        ensures succeeds { more ≤ self.old.room → IsOk result }
    {
        self.ids.reserve(more)
    }

    /// Puts these ids into the set, those that are not in it. It moves only what is above the
    /// smallest of them, takes no memory, and a place of the room for each.
    pub fn put(&mut self, ids: &[DocId])
        requires ascending { Ascend ids.now }
        requires room { length ids.now ≤ self.old.room }
        ensures { self.new ≡ record
            { ids = with_ids self.old.ids ids.now; room = self.old.room - length ids.now } }
    {
        self.ids.put(ids);
        set_marks(&mut self.marks, ids, true);
    }

    /// Takes the ids out that are in the other set too, in one pass over both.
    pub fn take_out(&mut self, taken: &SortedIds)
        ensures { self.new ≡ record
            { ids = without taken.now.ids self.old.ids; room = self.old.room } }
    {
        self.ids.take_out(taken);
        set_marks(&mut self.marks, taken.as_slice(), false);
    }

    /// Takes these ids out, those of them that are there, one after another.
    pub fn purge(&mut self, ids: &[DocId])
        ensures { self.new ≡ record { ids = without ids.now self.old.ids; room = self.old.room } }
    {
        self.ids.purge(ids);
        set_marks(&mut self.marks, ids, false);
    }
}
