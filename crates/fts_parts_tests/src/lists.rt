ghost use Rattle.std.specs.Prelude.{◌<◌, IsTrue, OnOk};
ghost use Rattle.fts_ids.specs.Ids.{Ascend};
ghost use Rattle.fts_lists.specs.State.{room_of};

use fts_lists::{DeleteList, IdWalk, Lists};
use fts_types::Word;
use std::alloc::{AllocError, Global};
use std::collections::BTreeSet;
use std::test::Fail;

const LISTS: &[DeleteList] = &[
    DeleteList::Deleted,
    DeleteList::BeingDeleted,
    DeleteList::DeletedCache,
];

// Ids that are put into a list together, some of them twice over.
const BATCHES: &[&[u64]] = &[
    &[40, 50, 60],
    &[45, 50, 55, 70],
    &[],
    &[1, 2],
    &[1, 2, 3, 40, 80],
    &[90],
];

// Whether a list has these ids and no others.
fn has_ids(lists: &Lists, list: DeleteList, plain: &BTreeSet<u64>) -> bool {
    for id in 0..300 {
        if lists.contains(list, id) != plain.contains(&id) {
            return false;
        }
    }
    lists.len(list) == plain.len()
}

// Makes room for one more id. The list has its ids, with or without memory.
fn make_room(lists: &mut Lists, list: DeleteList, plain: &BTreeSet<u64>) -> Result<(), Fail>
    ensures { OnOk result (0 < room_of list lists.new) }
{
    let reserved = lists.reserve(list, 1);
    if reserved.is_err() && !has_ids(lists, list, plain) {
        return Err(Fail::from("a list that is not as before"));
    }
    Ok(reserved?)
}

// Adds ids to a list, out of order and some twice, and takes some out again, beside a plain set.
fn fill(
    lists: &mut Lists,
    list: DeleteList,
    plain: &mut BTreeSet<u64>,
    step: u64,
) -> Result<(), Fail> {
    for n in 0..300_u64 {
        let id = n.wrapping_mul(step) % 257;
        make_room(lists, list, plain)?;
        if n % 50 == 0 {
            lists.set_flushed(n, n / 2);
            lists.mark_deleted(1)?;
        }
        lists.add(list, id);
        plain.insert(id)?;
    }
    lists.purge(list, &[256, 3, 500]);
    plain.remove(&256);
    plain.remove(&3);
    Ok(())
}

// Whether a list that was empty has the ids of a plain set.
fn is_as_plain(alloc: Global, lists: &mut Lists, list: DeleteList) -> Result<bool, Fail> {
    let was_empty = lists.is_empty(list);
    let mut plain = BTreeSet::new(alloc);
    fill(lists, list, &mut plain, 7)?;
    Ok(was_empty && !lists.is_empty(list) && has_ids(lists, list, &plain))
}

#[test]
fn lists_are_sets(rt: HostRuntime) -> Result<(), Fail> {
    let mut lists = Lists::new(rt.alloc());
    for list in LISTS {
        assert!(rt; is_as_plain(rt.alloc(), &mut lists, *list)?);
    }
    Ok(())
}

// Whether each id is above the one before.
fn ascend(ids: &[u64]) -> bool
    ensures { IsTrue result → Ascend ids.now }
{
    for at in 1..ids.len() {
        if ids[at - 1] >= ids[at] {
            return false;
        }
    }
    true
}

// Makes room for these ids and puts them into a list.
fn put(lists: &mut Lists, list: DeleteList, ids: &[u64]) -> Result<(), Fail> {
    lists.reserve(list, ids.len())?;
    if !ascend(ids) {
        return Err(Fail::from("ids out of order"));
    }
    lists.add_all(list, ids);
    Ok(())
}

// Puts the same ids into a plain set.
fn put_plain(plain: &mut BTreeSet<u64>, ids: &[u64]) -> Result<(), AllocError> {
    for id in ids {
        plain.insert(*id)?;
    }
    Ok(())
}

// Whether a list has the ids of a plain set behind each batch.
fn merges(alloc: Global, lists: &mut Lists, list: DeleteList) -> Result<bool, Fail> {
    let mut plain = BTreeSet::new(alloc);
    for ids in BATCHES {
        put(lists, list, ids)?;
        put_plain(&mut plain, ids)?;
        if !has_ids(lists, list, &plain) {
            return Ok(false);
        }
    }
    Ok(true)
}

// Whether all of a list's ids are these.
fn are_ids(
    alloc: Global,
    lists: &Lists,
    list: DeleteList,
    want: &[u64],
) -> Result<bool, AllocError> {
    Ok(lists.ids(alloc, list)?.as_slice() == want)
}

#[test]
fn batches_are_merged(rt: HostRuntime) -> Result<(), Fail> {
    let alloc = rt.alloc();
    let mut lists = Lists::new(alloc);
    for list in LISTS {
        assert!(rt; merges(alloc, &mut lists, *list)?);
    }
    let all = [1, 2, 3, 40, 45, 50, 55, 60, 70, 80, 90];
    assert!(rt; lists.deleted() == all.as_slice());
    assert!(rt; are_ids(alloc, &lists, DeleteList::DeletedCache, &all)?);
    Ok(())
}

// Opens a pass, which is over the ids of DELETED.
fn open(lists: &mut Lists) -> Result<(), Fail> {
    lists.reserve(DeleteList::BeingDeleted, lists.len(DeleteList::Deleted))?;
    lists.open_pass();
    if lists.being_deleted() != lists.deleted() {
        return Err(Fail::from("a pass over other ids"));
    }
    Ok(())
}

// What is deleted while a pass is open stays when it is closed.
#[test]
fn a_pass_takes_out_its_own_ids(rt: HostRuntime) -> Result<(), Fail> {
    let mut lists = Lists::new(rt.alloc());
    put(&mut lists, DeleteList::Deleted, &[5, 7, 20, 30])?;
    open(&mut lists)?;
    put(&mut lists, DeleteList::Deleted, &[6, 7, 40])?;
    lists.close_pass();
    assert!(rt; lists.deleted() == [6, 40].as_slice());
    assert!(rt; lists.is_empty(DeleteList::BeingDeleted));
    Ok(())
}

// Whether these ids without the deleted ones are those.
fn leaves(alloc: Global, lists: &Lists, ids: &[u64], want: &[u64]) -> Result<bool, AllocError>
    requires { Ascend ids.now }
{
    let mut left = Vec::from_slice(alloc, ids)?;
    lists.without_deleted(&mut left);
    Ok(left.as_slice() == want)
}

// Ids below the bound of the marks, and behind it.
#[test]
fn what_is_not_deleted_is_left(rt: HostRuntime) -> Result<(), Fail> {
    let mut lists = Lists::new(rt.alloc());
    let ids = [1, 2, 3, 4, 9, 10, 20, 21];
    put(&mut lists, DeleteList::Deleted, &[2, 4, 9])?;
    lists.set_flushed(1, 10);
    lists.mark_deleted(1)?;
    put(&mut lists, DeleteList::Deleted, &[3, 20])?;
    assert!(rt; leaves(rt.alloc(), &lists, &ids, &[1, 10, 21])?);
    lists.purge(DeleteList::Deleted, &[4, 20]);
    assert!(rt; leaves(rt.alloc(), &lists, &ids, &[1, 4, 10, 20, 21])?);
    Ok(())
}

// Whether a walk in these steps finds the ids of a plain set.
fn finds(ids: &[u64], plain: &BTreeSet<u64>, step: u64) -> bool
    requires { Ascend ids.now }
{
    let mut walk = IdWalk::new(ids);
    for n in 0..100_u64 {
        let id = n.wrapping_mul(step);
        if walk.has(id) != plain.contains(&id) {
            return false;
        }
    }
    true
}

// A walk agrees with a look-up of each id, in steps of any length.
#[test]
fn a_walk_finds_what_is_there(rt: HostRuntime) -> Result<(), Fail> {
    let mut lists = Lists::new(rt.alloc());
    let mut plain = BTreeSet::new(rt.alloc());
    for ids in BATCHES {
        put(&mut lists, DeleteList::Deleted, ids)?;
        put_plain(&mut plain, ids)?;
    }
    for step in 1..60 {
        assert!(rt; finds(lists.deleted(), &plain, step), "in steps of {step}");
    }
    Ok(())
}

fn is_new(lists: &Lists) -> bool {
    (lists.flushed(), lists.synced(), lists.is_open()) == (0, 0, false)
}

// Whether a pass is open, at this word.
fn is_open_at(lists: &Lists, word: &Word) -> bool {
    lists.is_open() && lists.checkpoint().is_some_and(|held| held == word)
}

// Whether a pass is open that has no word yet.
fn is_begun(lists: &Lists) -> bool {
    lists.is_open() && lists.checkpoint().is_none()
}

// Notes a word of the pass, where one is open.
fn note(lists: &mut Lists, word: Word) -> bool {
    if !lists.is_open() {
        return false;
    }
    lists.set_checkpoint(word);
    true
}

fn is_closed(lists: &Lists) -> bool {
    !lists.is_open() && lists.checkpoint().is_none()
}

#[test]
fn numbers_and_the_pass_are_kept(rt: HostRuntime) -> Result<(), Fail> {
    let mut lists = Lists::new(rt.alloc());
    let word = Word::copied(rt.alloc(), b"apple")?;
    assert!(rt; is_new(&lists));
    lists.set_flushed(3, 42);
    assert!(rt; (lists.flushed(), lists.synced()) == (3, 42));
    open(&mut lists)?;
    assert!(rt; is_begun(&lists));
    assert!(rt; note(&mut lists, Word::copied(rt.alloc(), b"apple")?));
    assert!(rt; is_open_at(&lists, &word));
    lists.close_pass();
    assert!(rt; is_closed(&lists));
    Ok(())
}

// What a list and the others held stays where memory is wanting.
#[test]
fn refused_room_changes_nothing(rt: HostRuntime) -> Result<(), Fail> {
    let mut lists = Lists::new(rt.alloc());
    lists.reserve(DeleteList::Deleted, 2)?;
    lists.add(DeleteList::Deleted, 9);
    lists.add(DeleteList::Deleted, 5);
    assert!(rt; lists.reserve(DeleteList::Deleted, usize::MAX).is_err());
    assert!(rt; are_ids(rt.alloc(), &lists, DeleteList::Deleted, &[5, 9])?);
    assert!(rt; lists.is_empty(DeleteList::DeletedCache));
    Ok(())
}
