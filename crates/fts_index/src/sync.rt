//! What a batch takes of an index.
ghost use Rattle.std.specs.Prelude.{◌≡◌, ◌+◌, ◌<◌, ◌≤◌, ℕ, length, drop, map, max, IfOk};
ghost use Rattle.std.specs.Prelude.{◌&&◌, nat_le};
ghost use Rattle.std.specs.List.{take_while};
ghost use Rattle.fts_ids.specs.Ids.{has, Ascend};
ghost use Rattle.fts_lists.specs.State.{room_of};
ghost use Rattle.fts_lists.specs.declared.lists.DeleteList.TheVariants.{Deleted, DeletedCache};
ghost use Rattle.fts_index.specs.Index.{pending_seen};
ghost use Rattle.fts_index.specs.Parts.{counted_within, deaths_through, MovesDead};

use crate::pending::Pending;
use fts_ilist::{Nodes, WordNodes};
use fts_lists::{DeleteList, Lists};
use fts_types::DocId;
use std::alloc::{AllocError, Global};
use std::collections::VecDeque;

/// A batch: what leaves the cache for the tables. Its room is made.
#[derive(Drop)]
pub struct SyncPlan {
    // How many commits it covers.
    pub(crate) count: usize,
    // Through which commit, and up to which id, the index is flushed with it.
    pub(crate) through: u64,
    pub(crate) synced: DocId,
    pub(crate) nodes: Nodes<'static>,
    // What died in the commits covered, ascending.
    pub(crate) dead: Vec<DocId>,
}

impl SyncPlan {
    /// Through which commit the index is flushed with this batch.
    pub fn through(&self) -> u64
        ensures { result ≡ self.now.through }
    {
        self.through
    }

    /// Up to which id the index is flushed with it.
    pub fn synced(&self) -> DocId
        ensures { result ≡ self.now.synced }
    {
        self.synced
    }

    /// Its words, each with its nodes.
    pub fn nodes(&self) -> &[WordNodes<'static>]
        ensures { result.now ≡ self.now.nodes.items }
    {
        &self.nodes
    }
}

/// How many of the first commits a batch covers: as many as have at most so many births together,
/// and at least one.
pub(crate) fn covers(limit: u32, pending: &VecDeque<Pending>) -> usize
    requires { 0 < length pending.now.items }
    ensures count { result ≡ max 1 (counted_within limit 0 (map pending_seen pending.now.items)) }
    ensures within { result ≤ length pending.now.items }
{
    let mut left = u64::from(limit);
    for place in 0..pending.len() {
        let births = pending[place].births as u64;
        if births > left {
            return place.max(1);
        }
        left -= births;
    }
    pending.len()
}

/// The number of so many commits behind those that are flushed. More than 64 bits count are more
/// than memory holds.
pub(crate) fn through_of(flushed: u64, count: usize) -> Result<u64, AllocError>
    ensures { IfOk result (λ through. through ≡ flushed + count) }
{
    match flushed.checked_add(count as u64) {
        Some(through) => Ok(through),
        None => Err(AllocError),
    }
}

/// What died in the first commits, in their order.
fn deaths_of(
    alloc: Global,
    pending: &VecDeque<Pending>,
    count: usize,
) -> Result<Vec<DocId>, AllocError>
    requires { count ≤ length pending.now.items }
    ensures { IfOk result (λ deaths. deaths.items ≡ deaths_through count pending.now.items) }
{
    let mut deaths = Vec::new(alloc);
    for place in 0..count {
        deaths.extend_from_slice(&pending[place].deaths)?;
    }
    Ok(deaths)
}

/// What died in the first commits, ascending. It costs a sort of these ids.
pub(crate) fn covered_deaths(
    alloc: Global,
    pending: &VecDeque<Pending>,
    count: usize,
) -> Result<Vec<DocId>, AllocError>
    requires { count ≤ length pending.now.items }
    ensures ascend { IfOk result (λ dead. Ascend dead.items) }
    ensures each { IfOk result (λ dead. (id : ℕ)
        → has dead.items id ≡ has (deaths_through count pending.now.items) id) }
{
    Ok(ascending(deaths_of(alloc, pending, count)?))
}

/// The same ids, ascending. It costs a sort of them.
pub(crate) fn ascending(ids: Vec<DocId>) -> Vec<DocId>
    ensures ascend { Ascend result.items }
    ensures each { (id : ℕ) → has result.items id ≡ has ids.items id }
{
    let mut ids = ids;
    ids.sort_unstable();
    ids.dedup();
    ids
}

/// Takes the first commits out.
pub(crate) fn pop_covered(pending: &mut VecDeque<Pending>, count: usize)
    requires { count ≤ length pending.old.items }
    ensures { pending.new.items ≡ drop count pending.old.items }
{
    for _ in 0..count {
        let _ = pending.pop_front();
    }
}

/// How many ids stand before the first that is above one.
fn count_up_to(ids: &[DocId], last: DocId) -> usize
    ensures { result ≡ length (take_while (λ id. nat_le id last) ids.now) }
{
    ids.iter().take_while(|id| **id <= last).count()
}

/// The first of ascending ids, up to one.
fn up_to(ids: &[DocId], last: DocId) -> &[DocId]
    requires { Ascend ids.now }
    ensures ascend { Ascend result.now }
    ensures each { (id : ℕ) → has result.now id ≡ (nat_le id last && has ids.now id) }
    ensures few { length result.now ≤ length ids.now }
{
    ids.split_at(count_up_to(ids, last)).0
}

/// What died in the commits of a batch leaves DELETED_CACHE, and what of it was flushed before
/// enters DELETED. It takes no memory.
pub(crate) fn move_dead(lists: &mut Lists, dead: &[DocId])
    requires ascend { Ascend dead.now }
    requires room { length dead.now ≤ room_of Deleted lists.old }
    ensures { MovesDead lists.old dead.now lists.new }
{
    // That the ids of DELETED ascend is known once they are read.
    let _deleted = lists.deleted();
    let flushed = up_to(dead, lists.synced());
    lists.add_all(DeleteList::Deleted, flushed);
    lists.purge(DeleteList::DeletedCache, dead);
}
