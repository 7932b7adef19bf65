//! A walk over ids that ascend.
ghost use Rattle.std.specs.Prelude.{◌≡◌, ◌<◌, ◌≤◌, ℕ, length, IfSome};
ghost use Rattle.fts_ids.specs.Ids.{has, AscendFrom, PassesBelow, Ascend};

use fts_types::DocId;
use std::marker::Model;

/// Ids that ascend, to be asked for ids that ascend too: those below the one that is asked for are
/// passed. An answer takes time that is logarithmic in how many are passed.
#[derive(Drop)]
pub struct IdWalk<'a> {
    rest: &'a [DocId],
}

impl<'a> Model for IdWalk<'a> {
    ghost use Rattle.std.specs.Prelude.{ℕ, List};
    ghost use Rattle.fts_ids.specs.Ids.{AscendFrom};

    ghost Value = { List ℕ };

    ghost view = { λ w. w.rest.now };

    ghost invariant = { λ w. AscendFrom 0 w.rest.now };
}

/// The ids from one place on, if the first of them is below the id.
fn jump<'a>(ids: &'a [DocId], place: usize, id: DocId) -> Option<&'a [DocId]>
    requires ascend { AscendFrom 0 ids.now }
    requires place { 0 < place }
    ensures passes { IfSome result (λ far. PassesBelow id ids.now far.now) }
    ensures shorter { IfSome result (λ far. length far.now < length ids.now) }
{
    if place >= ids.len() {
        return None;
    }
    let (_, far) = ids.split_at(place);
    if far[0] < id {
        return Some(far);
    }
    None
}

/// The ids without some that are below one, by steps that double, and the step that went too far.
fn near<'a>(ids: &'a [DocId], id: DocId) -> (&'a [DocId], usize)
    requires { AscendFrom 0 ids.now }
    ensures { PassesBelow id ids.now result.0.now }
{
    let mut rest = ids;
    let mut step = 1;
    while let Some(far) = jump(rest, step, id) {
        rest = far;
        step = step.saturating_mul(2);
    }
    (rest, step)
}

/// The ids without those that are below one.
fn behind<'a>(ids: &'a [DocId], id: DocId) -> &'a [DocId]
    requires { AscendFrom 0 ids.now }
    ensures { PassesBelow id ids.now result.now }
{
    let (rest, step) = near(ids, id);
    let (close, _) = rest.split_at(step.min(rest.len()));
    let place = match close.binary_search(&id) {
        Ok(place) => place,
        Err(place) => place,
    };
    rest.split_at(place).1
}

/// The ids without those that are below one, and whether that one is the first of them.
fn find<'a>(ids: &'a [DocId], id: DocId) -> (&'a [DocId], bool)
    requires { AscendFrom 0 ids.now }
    ensures passes { PassesBelow id ids.now result.0.now }
    ensures found { result.1 ≡ has ids.now id }
{
    // Mostly none is passed, and no step is made.
    let mut rest = if is_ahead(ids, id) {
        ids
    } else {
        behind(ids, id)
    };
    while let [first, others @ ..] = rest {
        if *first >= id {
            return (rest, *first == id);
        }
        rest = others;
    }
    (rest, false)
}

/// Whether no id is below one.
fn is_ahead(ids: &[DocId], id: DocId) -> bool {
    match ids {
        [] => true,
        [first, ..] => *first >= id,
    }
}

impl<'a> IdWalk<'a> {
    /// A walk from the first of the ids on.
    pub fn new(ids: &'a [DocId]) -> Self
        requires { Ascend ids.now }
        ensures { result ≡ ids.now }
    {
        IdWalk { rest: ids }
    }

    /// Whether an id is among those that are left. What is said of it and of a larger one stays as
    /// it is.
    pub fn has(&mut self, id: DocId) -> bool
        ensures found { result ≡ has self.old id }
        ensures later { (later : ℕ) → id ≤ later → has self.new later ≡ has self.old later }
    {
        let (rest, found) = find(self.rest, id);
        self.rest = rest;
        found
    }
}
