//! The lists and numbers of an index.
ghost use Rattle.std.specs.Prelude.{◌≡◌, ◌+◌, ◌<◌, ◌≤◌, ◌↔◌, [], length, true, false, Some, None};
ghost use Rattle.std.specs.Prelude.{IsTrue, IsOk, IfOk, OnOk, OnErr};
ghost use Rattle.std.specs.Option.{option_copied};
ghost use Rattle.fts_lists.specs.Ids.{with_id, with_ids, without};
ghost use Rattle.fts_ids.specs.Ids.{has, Ascend};
ghost use Rattle.fts_lists.specs.State.{ids_of, room_of, ChangesOnly, opened, closed};

use crate::ids::IdSet;
use crate::marked::MarkedIds;
use crate::sorted::SortedIds;
use fts_types::{DocId, Word};
use std::alloc::{AllocError, Global};
use std::marker::Model;

/// One of the lists of deleted documents.
#[derive(Debug, Clone, Copy, PartialEq, Eq)]
pub enum DeleteList {
    /// The documents of the tables that were deleted. They are kept ascending.
    Deleted,
    /// Those of them that the open pass takes out of the tables. They are kept ascending.
    BeingDeleted,
    /// The documents deleted since the last flush.
    DeletedCache,
}

/// The three lists of deleted documents, how far the index is flushed, and how far its pass has
/// come.
#[derive(Drop)]
pub struct Lists {
    deleted: MarkedIds,
    being_deleted: SortedIds,
    deleted_cache: IdSet,
    flushed: u64,
    synced: DocId,
    is_open: bool,
    checkpoint: Option<Word>,
}

impl Model for Lists {
    ghost use Rattle.fts_lists.specs.State.{State};

    ghost Value = { State };

    ghost view = { λ s. record {
      deleted = s.deleted;
      being_deleted = s.being_deleted;
      deleted_cache
          = s.deleted_cache;
      flushed = s.flushed;
      synced = s.synced;
      is_open = s.is_open;
      checkpoint =
          s.checkpoint;
    } };
}

impl Lists {
    /// Empty lists, nothing flushed, and no pass. What they hold later lies in the allocator's
    /// memory.
    pub fn new(alloc: Global) -> Self
        ensures lists { (list : _) → ids_of list result ≡ [] }
        ensures flushed { result.flushed ≡ 0 }
        ensures synced { result.synced ≡ 0 }
        ensures closed { result.is_open ≡ false }
        ensures checkpoint { result.checkpoint ≡ None }
    {
        Lists {
            deleted: MarkedIds::new(alloc),
            being_deleted: SortedIds::new(alloc),
            deleted_cache: IdSet::new(alloc),
            flushed: 0,
            synced: 0,
            is_open: false,
            checkpoint: None,
        }
    }

    /// The number of ids in a list.
    pub fn len(&self, list: DeleteList) -> usize
        ensures { result ≡ length (ids_of list self.now) }
    {
        match list {
            DeleteList::Deleted => self.deleted.ids().len(),
            DeleteList::BeingDeleted => self.being_deleted.len(),
            DeleteList::DeletedCache => self.deleted_cache.len(),
        }
    }

    /// Whether a list has no id.
    pub fn is_empty(&self, list: DeleteList) -> bool
        ensures { IsTrue result ↔ (ids_of list self.now ≡ []) }
    {
        self.len(list) == 0
    }

    /// Whether an id is in a list: in constant time for DELETED_CACHE and for an id of DELETED that
    /// has a mark, and else in time that is logarithmic in the number of its ids. For ids that
    /// ascend, an `IdWalk` over the list is faster.
    pub fn contains(&self, list: DeleteList, id: DocId) -> bool
        ensures { result ≡ has (ids_of list self.now) id }
    {
        match list {
            DeleteList::Deleted => self.deleted.contains(id),
            DeleteList::BeingDeleted => self.being_deleted.contains(id),
            DeleteList::DeletedCache => self.deleted_cache.contains(id),
        }
    }

    /// The ids of DELETED, ascending, each once.
    pub fn deleted(&self) -> &[DocId]
        ensures value { result.now ≡ ids_of DeleteList.Deleted self.now }
        ensures ascending { Ascend result.now }
    {
        self.deleted.ids().as_slice()
    }

    /// Takes the ids of DELETED out of others that ascend. An id below the bound of the marks takes
    /// one look, the others a walk. It takes no memory.
    pub fn without_deleted(&self, ids: &mut Vec<DocId>)
        requires { Ascend ids.old.items }
        ensures { ids.new.items ≡ without (ids_of DeleteList.Deleted self.now) ids.old.items }
    {
        self.deleted.take_from(ids);
    }

    /// Takes the ids of DELETED_CACHE out of others. It takes no memory, and constant time for each
    /// of these.
    pub fn without_dead(&self, ids: &mut Vec<DocId>)
        ensures { ids.new.items ≡ without (ids_of DeleteList.DeletedCache self.now) ids.old.items }
    {
        self.deleted_cache.take_from(ids);
    }

    /// Marks the ids of DELETED up to the largest that is flushed, where they are dense enough with
    /// so many more that will come, so that a test of an id is one look. It costs the numbers that
    /// have no mark yet. Where memory is wanting, some of them have none.
    pub fn mark_deleted(&mut self, more: usize) -> Result<(), AllocError>
        ensures { self.new ≡ self.old }
    {
        self.deleted.mark(self.synced, more)
    }

    /// The ids of BEING_DELETED, ascending, each once.
    pub fn being_deleted(&self) -> &[DocId]
        ensures value { result.now ≡ ids_of DeleteList.BeingDeleted self.now }
        ensures ascending { Ascend result.now }
    {
        self.being_deleted.as_slice()
    }

    /// The ids of a list, ascending, as a copy that lies in the allocator's memory. Those of
    /// DELETED_CACHE are sorted for it.
    pub fn ids(&self, alloc: Global, list: DeleteList) -> Result<Vec<DocId>, AllocError>
        ensures { IfOk result (λ ids. ids.items ≡ ids_of list self.now) }
    {
        match list {
            DeleteList::Deleted => self.deleted.ids().as_slice().to_vec(alloc),
            DeleteList::BeingDeleted => self.being_deleted.as_slice().to_vec(alloc),
            DeleteList::DeletedCache => self.deleted_cache.to_vec(alloc),
        }
    }

    /// Makes room in a list for so many more ids, in place of the room that it had. Where memory is
    /// wanting, all is as before.
    pub fn reserve(&mut self, list: DeleteList, more: usize) -> Result<(), AllocError>
        ensures ids { ids_of list self.new ≡ ids_of list self.old }
        ensures others { ChangesOnly list self.old self.new }
        ensures ok { OnOk result (room_of list self.new ≡ more) }
        ensures err { OnErr result (room_of list self.new ≡ room_of list self.old) }
        ensures succeeds { more ≤ room_of list self.old → IsOk result }
    {
        match list {
            DeleteList::Deleted => self.deleted.reserve(more),
            DeleteList::BeingDeleted => self.being_deleted.reserve(more),
            DeleteList::DeletedCache => self.deleted_cache.reserve(more),
        }
    }

    /// Puts ids that ascend into a list that has room for them. It takes no memory, and a place of
    /// the room for each. In a list that is kept ascending it moves only what stands above the
    /// smallest of them; in DELETED_CACHE it takes constant time for each.
    pub fn add_all(&mut self, list: DeleteList, ids: &[DocId])
        requires ascending { Ascend ids.now }
        requires room { length ids.now ≤ room_of list self.old }
        ensures ids { ids_of list self.new ≡ with_ids (ids_of list self.old) ids.now }
        ensures others { ChangesOnly list self.old self.new }
        ensures room { room_of list self.new + length ids.now ≡ room_of list self.old }
    {
        match list {
            DeleteList::Deleted => self.deleted.put(ids),
            DeleteList::BeingDeleted => self.being_deleted.put(ids),
            DeleteList::DeletedCache => self.deleted_cache.put(ids),
        }
    }

    /// Puts an id into a list that has room, as `add_all` does.
    pub fn add(&mut self, list: DeleteList, id: DocId)
        requires { 0 < room_of list self.old }
        ensures ids { ids_of list self.new ≡ with_id (ids_of list self.old) id }
        ensures others { ChangesOnly list self.old self.new }
        ensures room { room_of list self.new + 1 ≡ room_of list self.old }
    {
        self.add_all(list, &[id]);
    }

    /// Takes these ids out of a list, those of them that are there. It takes no memory; in
    /// DELETED_CACHE it takes constant time for each, and else it walks over the list for each.
    pub fn purge(&mut self, list: DeleteList, ids: &[DocId])
        ensures ids { ids_of list self.new ≡ without ids.now (ids_of list self.old) }
        ensures others { ChangesOnly list self.old self.new }
        ensures room { room_of list self.new ≡ room_of list self.old }
    {
        match list {
            DeleteList::Deleted => self.deleted.purge(ids),
            DeleteList::BeingDeleted => self.being_deleted.purge(ids),
            DeleteList::DeletedCache => self.deleted_cache.purge(ids),
        }
    }

    /// The number of commits whose documents are flushed, 0 before the first flush.
    pub fn flushed(&self) -> u64
        ensures { result ≡ self.now.flushed }
    {
        self.flushed
    }

    /// The largest id that was used by the flushed commits, 0 before the first flush.
    pub fn synced(&self) -> DocId
        ensures { result ≡ self.now.synced }
    {
        self.synced
    }

    /// Sets how far the index is flushed: through which commit, and up to which id.
    pub fn set_flushed(&mut self, through: u64, synced: DocId)
        ensures { self.new ≡ record self.old { flushed = through; synced = synced } }
    {
        self.flushed = through;
        self.synced = synced;
    }

    /// Whether a pass is open.
    pub fn is_open(&self) -> bool
        ensures { result ≡ self.now.is_open }
    {
        self.is_open
    }

    /// The last word that the open pass worked on, if it has worked on one.
    pub fn checkpoint(&self) -> Option<&Word>
        ensures { option_copied result ≡ self.now.checkpoint }
    {
        self.checkpoint.as_ref()
    }

    /// Opens a pass, which has worked on no word, over the ids of DELETED. They are copied within
    /// the room of BEING_DELETED, and no memory is taken.
    pub fn open_pass(&mut self)
        requires { length (ids_of DeleteList.Deleted self.old)
            ≤ room_of DeleteList.BeingDeleted self.old }
        ensures { self.new ≡ opened self.old }
    {
        self.being_deleted.copy(self.deleted.ids());
        self.is_open = true;
        self.checkpoint = None;
    }

    /// Notes the word that the open pass has worked on.
    pub fn set_checkpoint(&mut self, word: Word)
        requires { self.old.is_open ≡ true }
        ensures { self.new ≡ record self.old { checkpoint = Some word } }
    {
        self.checkpoint = Some(word);
    }

    /// Closes the pass: its ids leave DELETED, in one walk over both, and no memory is taken. There
    /// is no checkpoint any more.
    pub fn close_pass(&mut self)
        ensures { self.new ≡ closed self.old }
    {
        self.deleted.take_out(&self.being_deleted);
        self.being_deleted.clear();
        self.is_open = false;
        self.checkpoint = None;
    }
}
