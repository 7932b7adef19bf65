//! A set of ids, kept ascending.
ghost use Rattle.std.specs.Prelude.{◌≡◌, ◌+◌, ◌-◌, ◌<◌, ◌≤◌, [], ◌∷◌, ◌++◌, length, take};
ghost use Rattle.std.specs.Prelude.{drop, IsOk, OnOk, OnErr};
ghost use Rattle.std.specs.Vec.{vec_len, vec_capacity};
ghost use Rattle.fts_lists.specs.Ids.{with_ids, without};
ghost use Rattle.fts_ids.specs.Ids.{has, Ascend, AscendFrom};

use crate::merge::{Merging, merge_next};
use fts_ids::IdWalk;
use fts_types::DocId;
use std::alloc::{AllocError, Global};
use std::marker::Model;

/// A set of ids as a vector in ascending order. Many ids are put in or taken out in one pass.
#[derive(Drop)]
pub struct SortedIds {
    ids: Vec<DocId>,
    // How many more ids may be put in: what was asked for last, less what was put in since.
    room: usize,
}

impl Model for SortedIds {
    ghost use Rattle.std.specs.Prelude.{◌+◌, ◌≤◌};
    ghost use Rattle.std.specs.Vec.{vec_len, vec_capacity};
    ghost use Rattle.fts_lists.specs.Ids.{Held};
    ghost use Rattle.fts_ids.specs.Ids.{AscendFrom};

    ghost Value = { Held };

    ghost view = { λ s. record { ids = s.ids.items; room = s.room } };

    ghost invariant = { λ s. AscendFrom 0 s.ids.items
        × (vec_len s.ids + s.room ≤ vec_capacity s.ids) };
}

/// Merges ids with those at the front, from the back. What is in order then stands in two parts,
/// with a gap between them where an id was in both.
fn merge_back(held: &mut [DocId], count: usize, ids: &[DocId]) -> Merging
    requires length { count + length ids.now ≡ length held.old }
    requires held { AscendFrom 0 (take count held.old) }
    requires ids { AscendFrom 0 ids.now }
    ensures merged { take result.kept held.new ++ drop result.end held.new
        ≡ with_ids (take count held.old) ids.now }
    ensures gap { (result.kept ≤ result.end) × (result.end ≤ length held.new) }
{
    let mut at = Merging {
        kept: count,
        left: ids.len(),
        end: held.len(),
    };
    while at.left > 0 {
        at = merge_next(held, ids, at);
    }
    at
}

/// Takes out what stands from one place to another.
fn close_gap(held: &mut Vec<DocId>, from: usize, to: usize)
    requires order { from ≤ to }
    requires within { to ≤ vec_len held.old }
    ensures items { held.new.items ≡ take from held.old.items ++ drop to held.old.items }
    ensures capacity { vec_capacity held.new ≡ vec_capacity held.old }
{
    if from == to {
        return;
    }
    let behind = held.len() - to;
    held.copy_within(to.., from);
    held.truncate(from + behind);
}

/// Puts ids into those that are held and have room for them.
fn put(held: &mut Vec<DocId>, ids: &[DocId])
    requires held { AscendFrom 0 held.old.items }
    requires ids { AscendFrom 0 ids.now }
    requires room { vec_len held.old + length ids.now ≤ vec_capacity held.old }
    ensures items { held.new.items ≡ with_ids held.old.items ids.now }
    ensures len { vec_len held.new ≤ vec_len held.old + length ids.now }
    ensures capacity { vec_capacity held.old ≤ vec_capacity held.new }
{
    let count = held.len();
    match held.extend_from_slice(ids) {
        Ok(()) => {
            let at = merge_back(held, count, ids);
            close_gap(held, at.kept, at.end);
        }
        Err(_) => unreachable!(),
    }
}

/// Takes out the ids that are among those taken.
fn take_out(held: &mut Vec<DocId>, taken: &[DocId])
    requires held { AscendFrom 0 held.old.items }
    requires taken { AscendFrom 0 taken.now }
    ensures items { held.new.items ≡ without taken.now held.old.items }
    ensures len { vec_len held.new ≤ vec_len held.old }
    ensures capacity { vec_capacity held.new ≡ vec_capacity held.old }
{
    let mut walk = IdWalk::new(taken);
    let mut kept = 0;
    for at in 0..held.len() {
        let id = held[at];
        if !walk.has(id) {
            held[kept] = id;
            kept += 1;
        }
    }
    held.truncate(kept);
}

impl SortedIds {
    /// No ids, which will lie in the allocator's memory.
    pub fn new(alloc: Global) -> Self
        ensures { result ≡ record { ids = []; room = 0 } }
    {
        SortedIds {
            ids: Vec::new(alloc),
            room: 0,
        }
    }

    /// The number of ids.
    pub fn len(&self) -> usize
        ensures { result ≡ length self.now.ids }
    {
        self.ids.len()
    }

    /// The ids, ascending.
    pub fn as_slice(&self) -> &[DocId]
        ensures value { result.now ≡ self.now.ids }
        ensures ascending { Ascend result.now }
    {
        &self.ids
    }

    /// Whether the id is in the set. It takes time that is logarithmic in their number.
    pub fn contains(&self, id: DocId) -> bool
        ensures { result ≡ has self.now.ids id }
    {
        self.ids.binary_search(&id).is_ok()
    }

    /// Makes room for so many more ids, in place of the room that was left.
    pub fn reserve(&mut self, more: usize) -> Result<(), AllocError>
        ensures ok { OnOk result (self.new ≡ record { ids = self.old.ids; room = more }) }
        ensures err { OnErr result (self.new ≡ self.old) }
        ensures succeeds { more ≤ self.old.room → IsOk result }
    {
        self.ids.reserve(more)?;
        self.room = more;
        Ok(())
    }

    /// Puts these ids into the set, those that are not in it. It moves only what is above the
    /// smallest of them, takes no memory, and a place of the room for each.
    pub fn put(&mut self, ids: &[DocId])
        requires ascending { Ascend ids.now }
        requires room { length ids.now ≤ self.old.room }
        ensures { self.new ≡ record
            { ids = with_ids self.old.ids ids.now; room = self.old.room - length ids.now } }
    {
        put(&mut self.ids, ids);
        self.room -= ids.len();
    }

    /// Takes the ids out that are in the other set too, in one pass over both.
    pub fn take_out(&mut self, taken: &SortedIds)
        ensures { self.new ≡ record
            { ids = without taken.now.ids self.old.ids; room = self.old.room } }
    {
        take_out(&mut self.ids, &taken.ids);
    }

    /// Has the ids of the other set in place of its own. It takes no memory, and a place of the
    /// room for each.
    pub fn copy(&mut self, other: &SortedIds)
        requires { length other.now.ids ≤ self.old.room }
        ensures { self.new ≡ record
            { ids = other.now.ids; room = self.old.room - length other.now.ids } }
    {
        self.ids.clear();
        match self.ids.extend_from_slice(&other.ids) {
            Ok(()) => {}
            Err(_) => unreachable!(),
        }
        self.room -= other.ids.len();
    }

    /// Takes all ids out.
    pub fn clear(&mut self)
        ensures { self.new ≡ record { ids = []; room = self.old.room } }
    {
        self.ids.clear();
    }

    /// Takes an id out, if it is there. It moves what is above it.
    fn remove(&mut self, id: DocId)
        ensures { self.new ≡ record { ids = without (id ∷ []) self.old.ids; room = self.old.room } }
    {
        take_out(&mut self.ids, &[id]);
    }

    /// Takes these ids out, those of them that are there, one after another.
    pub fn purge(&mut self, ids: &[DocId])
        ensures { self.new ≡ record { ids = without ids.now self.old.ids; room = self.old.room } }
    {
        for id in ids {
            self.remove(*id);
        }
    }
}
