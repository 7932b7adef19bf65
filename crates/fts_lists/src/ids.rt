//! One set of ids, kept in no order.
ghost use Rattle.std.specs.Prelude.{◌≡◌, ◌+◌, ◌-◌, ◌<◌, ◌≤◌, [], ◌∷◌, IsOk, IfOk, OnOk, OnErr};
ghost use Rattle.std.specs.Prelude.{nat_eq, length, ◌%◌, ℕ, List, IsTrue, true, false};
ghost use Rattle.std.specs.List.{IsDistinct};
ghost use Rattle.fts_lists.specs.Ids.{with_id, with_ids, without, MayBeAmong};
ghost use Rattle.fts_ids.specs.Ids.{has};
ghost use Rattle.fts_ids.specs.Marks.{is_marked};

use fts_types::DocId;
use std::alloc::{AllocError, Global};
use std::collections::HashSet;
use std::marker::Model;

/// So many remainders of ids have a mark.
const MARKS: u64 = 65_536;

/// A set of ids. An id is looked up, added and taken out in constant time; the ids are sorted when
/// they are listed.
#[derive(Drop)]
pub struct IdSet {
    ids: HashSet<DocId>,
    // How many more ids may be put in: what was asked for last, less what was put in since.
    room: usize,
    // For each remainder whether an id with it may be in the set, so that of most ids that are not
    // one look tells it. There are none before the first id, or where memory was wanting.
    marks: Vec<bool>,
}

impl Model for IdSet {
    ghost use Rattle.std.specs.Prelude.{◌≤◌};
    ghost use Rattle.std.specs.HashSet.{spare};
    ghost use Rattle.fts_lists.specs.Ids.{Held, ascending, MayBeAmong};

    ghost Value = { Held };

    ghost view = { λ s. record { ids = ascending s.ids.keys; room = s.room } };

    ghost invariant = { λ s. (s.room ≤ spare s.ids) × MayBeAmong s.marks.items s.ids.keys };
}

/// Whether an id's mark tells that it is not among some.
#[inline]
fn is_told(marks: &[bool], id: DocId) -> bool
    ensures { IsTrue result → (ids : List ℕ) → MayBeAmong marks.now ids → has ids id ≡ false }
{
    let place = (id % MARKS) as usize;
    if place < marks.len() {
        return !marks[place];
    }
    false
}

/// Sets the mark of an id, if there are marks.
fn set_mark(marks: &mut Vec<bool>, id: DocId)
    ensures size { length marks.new.items ≡ length marks.old.items }
    ensures own { id % 65536 < length marks.new.items
        → is_marked marks.new.items (id % 65536) ≡ true }
    ensures kept { (place : ℕ) → is_marked marks.old.items place ≡ true
        → is_marked marks.new.items place ≡ true }
{
    let place = (id % MARKS) as usize;
    if place < marks.len() {
        marks[place] = true;
    }
}

/// Sets the marks of the ids of a set, and no others.
fn mark_anew(marks: &mut Vec<bool>, ids: &HashSet<DocId>)
    ensures { MayBeAmong marks.new.items ids.now.keys }
{
    marks.fill(false);
    for id in ids.iter() {
        set_mark(marks, *id);
    }
}

/// The keys of a set, as they come.
fn keys_of(alloc: Global, set: &HashSet<DocId>) -> Result<Vec<DocId>, AllocError>
    ensures keys { IfOk result (λ ids. ids.items ≡ set.now.keys) }
    ensures distinct { IsDistinct nat_eq set.now.keys }
{
    set.iter().copied().collect(alloc)
}

impl IdSet {
    /// No ids, which will lie in the allocator's memory.
    pub fn new(alloc: Global) -> Self
        ensures { result ≡ record { ids = []; room = 0 } }
    {
        IdSet {
            ids: HashSet::new(alloc),
            room: 0,
            marks: Vec::new(alloc),
        }
    }

    /// The number of ids.
    pub fn len(&self) -> usize
        ensures { result ≡ length self.now.ids }
    {
        self.ids.len()
    }

    /// Whether the id is in the set.
    pub fn contains(&self, id: DocId) -> bool
        ensures { result ≡ has self.now.ids id }
    {
        if is_told(&self.marks, id) {
            return false;
        }
        self.ids.contains(&id)
    }

    /// Takes the ids of the set out of others. Each is written, and the next takes its place where
    /// it is of the set. It takes no memory.
    pub fn take_from(&self, ids: &mut Vec<DocId>)
        ensures { ids.new.items ≡ without self.now.ids ids.old.items }
    {
        let mut kept = 0;
        for at in 0..ids.len() {
            let id = ids[at];
            ids[kept] = id;
            kept += !self.contains(id) as usize;
        }
        ids.truncate(kept);
    }

    /// The ids, ascending.
    pub fn to_vec(&self, alloc: Global) -> Result<Vec<DocId>, AllocError>
        ensures { IfOk result (λ ids. ids.items ≡ self.now.ids) }
    {
        let mut ids = keys_of(alloc, &self.ids)?;
        ids.sort_unstable();
        Ok(ids)
    }

    /// Makes room for so many more ids, in place of the room that was left.
    pub fn reserve(&mut self, more: usize) -> Result<(), AllocError>
        ensures ok { OnOk result (self.new ≡ record { ids = self.old.ids; room = more }) }
        ensures err { OnErr result (self.new ≡ self.old) }
        ensures succeeds { more ≤ self.old.room → IsOk result }
    {
        if more > 0 {
            self.make_marks();
        }
        self.reserve_ids(more)
    }

    /// Makes the marks, where there are none. Where memory is wanting there are none then either.
    fn make_marks(&mut self)
        ensures { self.new ≡ self.old }
    {
        if self.marks.is_empty() {
            let _ = self.marks.resize(MARKS as usize, false);
            mark_anew(&mut self.marks, &self.ids);
        }
    }

    /// Makes room for so many more ids, and no marks.
    fn reserve_ids(&mut self, more: usize) -> Result<(), AllocError>
        ensures ok { OnOk result (self.new ≡ record { ids = self.old.ids; room = more }) }
        ensures err { OnErr result (self.new ≡ self.old) }
        ensures succeeds { more ≤ self.old.room → IsOk result }
    {
        self.ids.reserve(more)?;
        self.room = more;
        Ok(())
    }

    /// Puts the id into the set. It takes no memory, and one place of the room.
    fn add(&mut self, id: DocId)
        requires { 0 < self.old.room }
        ensures { self.new ≡ record { ids = with_id self.old.ids id; room = self.old.room - 1 } }
    {
        set_mark(&mut self.marks, id);
        match self.ids.insert(id) {
            Ok(_) => self.room -= 1,
            Err(_) => unreachable!(),
        }
    }

    /// Puts these ids into the set. It takes no memory, and a place of the room for each.
    pub fn put(&mut self, ids: &[DocId])
        requires { length ids.now ≤ self.old.room }
        ensures { self.new ≡ record
            { ids = with_ids self.old.ids ids.now; room = self.old.room - length ids.now } }
    {
        for id in ids {
            self.add(*id);
        }
    }

    /// Takes an id out, if it is there.
    fn remove(&mut self, id: DocId)
        ensures { self.new ≡ record { ids = without (id ∷ []) self.old.ids; room = self.old.room } }
    {
        self.ids.remove(&id);
    }

    /// Takes these ids out, those of them that are there.
    fn remove_all(&mut self, ids: &[DocId])
        ensures { self.new ≡ record { ids = without ids.now self.old.ids; room = self.old.room } }
    {
        for id in ids {
            self.remove(*id);
        }
    }

    /// Takes these ids out, those of them that are there, and marks what is left anew. It takes
    /// time for each of them and of those that are left.
    pub fn purge(&mut self, ids: &[DocId])
        ensures { self.new ≡ record { ids = without ids.now self.old.ids; room = self.old.room } }
    {
        self.remove_all(ids);
        mark_anew(&mut self.marks, &self.ids);
    }
}
