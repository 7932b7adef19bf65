ghost use Rattle.std.specs.Prelude.{◌≡◌, IfOk};
ghost use Rattle.fts_ids.specs.Ids.{Ascend, common, without};

use crate::marks::{DENSE, common_by_marks, last_of};
use crate::walk::IdWalk;
use fts_types::DocId;
use std::alloc::{AllocError, Global};

/// The ids that are among others too, by a walk over the others.
fn common_by_walk(alloc: Global, ids: &[DocId], others: &[DocId]) -> Result<Vec<DocId>, AllocError>
    requires ids { Ascend ids.now }
    requires others { Ascend others.now }
    ensures { IfOk result (λ found. found.items ≡ common ids.now others.now) }
{
    let mut walk = IdWalk::new(others);
    let mut found = Vec::new(alloc);
    for id in ids {
        if walk.has(*id) {
            found.push(*id)?;
        }
    }
    Ok(found)
}

/// The ids that are among others too, ascending. The only refusal is for want of memory.
///
/// It walks over all of the first list: the shorter one is best given first. Where its ids are
/// dense, the others are marked, which costs them and the largest id.
pub fn common(alloc: Global, ids: &[DocId], others: &[DocId]) -> Result<Vec<DocId>, AllocError>
    requires ids { Ascend ids.now }
    requires others { Ascend others.now }
    ensures { IfOk result (λ found. found.items ≡ common ids.now others.now) }
{
    let last = last_of(others);
    if last / DENSE > ids.len() as u64 {
        return common_by_walk(alloc, ids, others);
    }
    match (last as usize).checked_add(1) {
        Some(size) => common_by_marks(alloc, ids, others, size),
        None => common_by_walk(alloc, ids, others),
    }
}

/// The ids that are not among those taken, ascending. The only refusal is for want of memory.
pub fn without(alloc: Global, ids: &[DocId], taken: &[DocId]) -> Result<Vec<DocId>, AllocError>
    requires ids { Ascend ids.now }
    requires taken { Ascend taken.now }
    ensures { IfOk result (λ left. left.items ≡ without ids.now taken.now) }
{
    let mut walk = IdWalk::new(taken);
    // Mostly few are taken.
    let mut left = Vec::with_capacity(alloc, ids.len())?;
    for id in ids {
        if !walk.has(*id) {
            left.push(*id)?;
        }
    }
    Ok(left)
}
