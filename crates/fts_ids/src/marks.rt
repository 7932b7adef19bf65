//! Unions and what is common, by marks, one for each number up to the largest id.
ghost use Rattle.std.specs.Prelude.{◌≡◌, ◌<◌, ◌||◌, ℕ, All, IfOk, length, true};
ghost use Rattle.std.specs.List.{filter};
ghost use Rattle.fts_ids.specs.Ids.{Ascend, has, common};
ghost use Rattle.fts_ids.specs.Marks.{is_marked, some_has, AreUpTo};

use fts_types::DocId;
use std::alloc::{AllocError, Global};

/// Up to so many marks for an id of a list are made.
pub(crate) const DENSE: u64 = 8;

/// The last id, or 0 where there is none.
pub(crate) fn last_of(ids: &[DocId]) -> DocId
    requires { Ascend ids.now }
    ensures { AreUpTo result (has ids.now) }
{
    if ids.is_empty() {
        return 0;
    }
    ids[ids.len() - 1]
}

/// The largest id of the lists, or 0 where there is none.
pub(crate) fn largest(lists: &[&[DocId]]) -> DocId
    requires { All (λ list. Ascend list.now) lists.now }
    ensures { AreUpTo result (some_has lists.now) }
{
    let mut largest = 0;
    for list in lists {
        largest = last_of(list).max(largest);
    }
    largest
}

/// Marks the ids.
fn mark(marks: &mut [bool], ids: &[DocId])
    requires { (id : ℕ) → has ids.now id ≡ true → id < length marks.old }
    ensures size { length marks.new ≡ length marks.old }
    ensures each { (id : ℕ)
        → is_marked marks.new id ≡ (is_marked marks.old id || has ids.now id) }
{
    for id in ids {
        marks[*id as usize] = true;
    }
}

/// The ids that are marked.
fn marked(alloc: Global, marks: &[bool]) -> Result<Vec<DocId>, AllocError>
    ensures ascend { IfOk result (λ ids. Ascend ids.items) }
    ensures each { IfOk result (λ ids. (id : ℕ) → has ids.items id ≡ is_marked marks.now id) }
{
    let mut ids = Vec::new(alloc);
    for place in 0..marks.len() {
        if marks[place] {
            ids.push(place as u64)?;
        }
    }
    Ok(ids)
}

/// The ids that one of the lists has, by so many marks.
pub(crate) fn by_marks(
    alloc: Global,
    lists: &[&[DocId]],
    size: usize,
) -> Result<Vec<DocId>, AllocError>
    requires { (id : ℕ) → some_has lists.now id ≡ true → id < size }
    ensures ascend { IfOk result (λ ids. Ascend ids.items) }
    ensures each { IfOk result (λ ids. (id : ℕ) → has ids.items id ≡ some_has lists.now id) }
{
    let mut marks = vec![in alloc; false; size]?;
    for list in lists {
        mark(&mut marks, list);
    }
    marked(alloc, &marks)
}

/// So many marks, for each number whether it is among the ids.
fn marks_of(alloc: Global, ids: &[DocId], size: usize) -> Result<Vec<bool>, AllocError>
    requires { (id : ℕ) → has ids.now id ≡ true → id < size }
    ensures { IfOk result (λ marks. (id : ℕ) → is_marked marks.items id ≡ has ids.now id) }
{
    let mut marks = vec![in alloc; false; size]?;
    mark(&mut marks, ids);
    Ok(marks)
}

/// Those of the ids that are marked. Each is written, and the next takes its place where it has no
/// mark: so no branch hangs on marks, which no processor foresees.
fn marked_of(alloc: Global, ids: &[DocId], marks: &[bool]) -> Result<Vec<DocId>, AllocError>
    ensures { IfOk result (λ found. found.items ≡ filter (is_marked marks.now) ids.now) }
{
    let mut found = vec![in alloc; 0; ids.len()]?;
    let mut count = 0;
    for at in 0..ids.len() {
        let place = ids[at] as usize;
        found[count] = ids[at];
        count += (place < marks.len() && marks[place]) as usize;
    }
    found.truncate(count);
    Ok(found)
}

/// The ids that are among others too, by so many marks of these.
pub(crate) fn common_by_marks(
    alloc: Global,
    ids: &[DocId],
    others: &[DocId],
    size: usize,
) -> Result<Vec<DocId>, AllocError>
    requires { (id : ℕ) → has others.now id ≡ true → id < size }
    ensures { IfOk result (λ found. found.items ≡ common ids.now others.now) }
{
    let marks = marks_of(alloc, others, size)?;
    marked_of(alloc, ids, &marks)
}
