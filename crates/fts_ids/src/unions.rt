ghost use Rattle.std.specs.Prelude.{◌≡◌, ◌+◌, ◌≤◌, ◌||◌, ℕ, All, IfOk, Some, ◌++◌};
ghost use Rattle.std.specs.Prelude.{nat_eq, length, slice_index, ◌<◌};
ghost use Rattle.std.specs.List.{list_any};
ghost use Rattle.fts_ids.specs.Ids.{Ascend, AscendFrom, has};

use crate::marks::{DENSE, by_marks, largest};
use fts_types::DocId;
use std::alloc::{AllocError, Global};

/// From so many lists on marks may cost less than halves.
const MANY: usize = 4;

/// The ids behind one that none of them is below: without the first, where that is it.
fn behind<'a>(ids: &'a [DocId], id: DocId) -> &'a [DocId]
    requires { AscendFrom id ids.now }
    ensures ascend { AscendFrom (id + 1) result.now }
    ensures same { (q : ℕ) → (nat_eq q id || has result.now q) ≡ (nat_eq q id || has ids.now q) }
    ensures shorter { length result.now ≤ length ids.now }
    ensures passed { 0 < length ids.now → slice_index ids.now 0 ≡ id
        → length result.now + 1 ≡ length ids.now }
{
    match ids {
        [] => ids,
        [first, rest @ ..] => {
            if *first == id {
                return rest;
            }
            ids
        }
    }
}

/// Puts ids behind those that are there.
fn extended(mut all: Vec<DocId>, ids: &[DocId]) -> Result<Vec<DocId>, AllocError>
    ensures { IfOk result (λ found. found.items ≡ all.items ++ ids.now) }
{
    all.extend_from_slice(ids)?;
    Ok(all)
}

/// The ids that one of two lists has, ascending, each once. The only refusal is for want of memory.
pub fn union(alloc: Global, a: &[DocId], b: &[DocId]) -> Result<Vec<DocId>, AllocError>
    requires a { Ascend a.now }
    requires b { Ascend b.now }
    ensures ascend { IfOk result (λ all. Ascend all.items) }
    ensures each { IfOk result (λ all. (id : ℕ)
        → has all.items id ≡ (has a.now id || has b.now id)) }
{
    let mut all = Vec::new(alloc);
    let (mut left, mut right) = (a, b);
    while let [x, ..] = left {
        let [y, ..] = right else {
            return extended(all, left);
        };
        let id = (*x).min(*y);
        all.push(id)?;
        left = behind(left, id);
        right = behind(right, id);
    }
    extended(all, right)
}

/// The ids that one of the lists has, ascending, each once. The only refusal is for want of memory.
///
/// Where ids are dense, each is marked, which costs the ids and the largest one. Else lists are
/// united by halves: an id is written at most as often as their number can be halved.
pub fn union_all(alloc: Global, lists: &[&[DocId]]) -> Result<Vec<DocId>, AllocError>
    requires { All (λ list. Ascend list.now) lists.now }
    ensures ascend { IfOk result (λ all. Ascend all.items) }
    ensures each { IfOk result (λ all. (id : ℕ)
        → has all.items id ≡ list_any (λ list. has list.now id) lists.now) }
{
    let largest = largest(lists);
    if lists.len() < MANY || largest / DENSE > count(lists) as u64 {
        return by_halves(alloc, lists);
    }
    match (largest as usize).checked_add(1) {
        Some(size) => by_marks(alloc, lists, size),
        None => by_halves(alloc, lists),
    }
}

/// How many ids the lists have, each counted in each list.
fn count(lists: &[&[DocId]]) -> usize {
    let mut count: usize = 0;
    for list in lists {
        count = count.saturating_add(list.len());
    }
    count
}

/// The ids that one of the lists has.
fn by_halves(alloc: Global, lists: &[&[DocId]]) -> Result<Vec<DocId>, AllocError>
    requires { All (λ list. Ascend list.now) lists.now }
    ensures ascend { IfOk result (λ all. Ascend all.items) }
    ensures each { IfOk result (λ all. (id : ℕ)
        → has all.items id ≡ list_any (λ list. has list.now id) lists.now) }
{
    match lists {
        [] => Ok(Vec::new(alloc)),
        [one] => one.to_vec(alloc),
        _ => {
            let (front, back) = lists.split_at(lists.len() / 2);
            let a = by_halves(alloc, front)?;
            let b = by_halves(alloc, back)?;
            union(alloc, &a, &b)
        }
    }
}
