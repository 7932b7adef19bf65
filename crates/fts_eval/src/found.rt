ghost use Rattle.std.specs.Prelude.{◌≡◌, ℕ, IfOk};
ghost use Rattle.std.specs.List.{list_any};
ghost use Rattle.fts_ids.specs.Ids.{has};
ghost use Rattle.fts_eval.specs.Found.{ids_of, some_has};

use fts_ids::{IdList, united};
use std::alloc::{AllocError, Global};

/// Ids that were found: the view's own, or others.
#[derive(Drop)]
pub(crate) enum Found<'a> {
    Lent(&'a IdList),
    Own(IdList),
}

impl Found<'_> {
    /// The ids.
    pub(crate) fn as_list(&self) -> &IdList
        ensures { result.now ≡ ids_of self.now }
    {
        match self {
            Found::Lent(ids) => ids,
            Found::Own(ids) => ids,
        }
    }
}

/// Each of the lists.
fn lists_of<'a>(alloc: Global, found: &'a [Found<'a>]) -> Result<Vec<&'a IdList>, AllocError>
    ensures { IfOk result (λ all. (id : ℕ)
        → list_any (λ list. has list.now id) all.items ≡ some_has found.now id) }
{
    let mut all = Vec::new(alloc);
    for list in found {
        all.push(list.as_list())?;
    }
    Ok(all)
}

/// The ids that one of the lists has.
pub(crate) fn any_listed(alloc: Global, found: &[Found<'_>]) -> Result<IdList, AllocError>
    ensures { IfOk result (λ all. (id : ℕ) → has all id ≡ some_has found.now id) }
{
    united(alloc, &lists_of(alloc, found)?)
}

/// The ids that one of the lists has. Where there is one list alone, it is not copied.
pub(crate) fn any_of<'a>(alloc: Global, mut lists: Vec<Found<'a>>) -> Result<Found<'a>, AllocError>
    ensures { IfOk result (λ all. (id : ℕ) → has (ids_of all) id ≡ some_has lists.entry.items id) }
{
    if lists.len() != 1 {
        return Ok(Found::Own(any_listed(alloc, lists.as_slice())?));
    }
    match lists.pop() {
        Some(list) => Ok(list),
        None => Ok(Found::Own(IdList::new(Vec::new(alloc)))),
    }
}

/// The ids as a list of their own: those of a view are copied.
pub(crate) fn into_list(alloc: Global, found: Found<'_>) -> Result<IdList, AllocError>
    ensures { IfOk result (λ list. list ≡ ids_of found.entry) }
{
    match found {
        Found::Own(ids) => Ok(ids),
        Found::Lent(ids) => Ok(IdList::new(ids.as_slice().to_vec(alloc)?)),
    }
}
