//! Sets of ids, as lists.
ghost use Rattle.std.specs.Prelude.{◌≡◌, ◌&&◌, not, ℕ, All, IfOk};
ghost use Rattle.std.specs.List.{list_any};
ghost use Rattle.fts_ids.specs.Ids.{has, Ascend};

use crate::{IdList, common, union_all, without};
use fts_types::DocId;
use std::alloc::{AllocError, Global};

/// The ids that both lists have. The only refusal is for want of memory.
///
/// It walks over the shorter one.
pub fn both(alloc: Global, ids: &IdList, others: &IdList) -> Result<IdList, AllocError>
    ensures ascend { IfOk result Ascend }
    ensures each { IfOk result (λ all. (id : ℕ)
        → has all id ≡ (has ids.now id && has others.now id)) }
{
    let (ids, others) = (ids.as_slice(), others.as_slice());
    if others.len() < ids.len() {
        return Ok(IdList::new(common(alloc, others, ids)?));
    }
    Ok(IdList::new(common(alloc, ids, others)?))
}

/// The ids of the first list that the other one has not. The only refusal is for want of memory.
pub fn first_alone(alloc: Global, ids: &IdList, others: &IdList) -> Result<IdList, AllocError>
    ensures { IfOk result (λ all. (id : ℕ)
        → has all id ≡ (has ids.now id && not (has others.now id))) }
{
    Ok(IdList::new(without(alloc, ids.as_slice(), others.as_slice())?))
}

/// The ids that some of the lists has. The only refusal is for want of memory.
pub fn united(alloc: Global, lists: &[&IdList]) -> Result<IdList, AllocError>
    ensures ascend { IfOk result Ascend }
    ensures each { IfOk result (λ all. (id : ℕ)
        → has all id ≡ list_any (λ list. has list.now id) lists.now) }
{
    let slices = slices(alloc, lists)?;
    Ok(IdList::new(union_all(alloc, &slices)?))
}

/// The ids of each of the lists.
fn slices<'a>(alloc: Global, lists: &'a [&'a IdList]) -> Result<Vec<&'a [DocId]>, AllocError>
    ensures ascend { IfOk result (λ all. All (λ list. Ascend list.now) all.items) }
    ensures each { IfOk result (λ all. (id : ℕ) → list_any (λ list. has list.now id) all.items
        ≡ list_any (λ list. has list.now id) lists.now) }
{
    let mut all = Vec::new(alloc);
    for list in lists {
        all.push(list.as_slice())?;
    }
    Ok(all)
}
