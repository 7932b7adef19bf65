//! A merge of ascending ids from the back, a step at a time.
ghost use Rattle.std.specs.Prelude.{◌+◌, ◌<◌, ◌≤◌, length};
ghost use Rattle.fts_lists.specs.Merging.{GoesOn};

use fts_types::DocId;

/// How far a merge has come.
#[derive(Debug, Clone, Copy, Drop)]
pub struct Merging {
    /// How many of the old ids are still in their place.
    pub kept: usize,
    /// How many of the new ids are still to be put.
    pub left: usize,
    /// From this place on all ids are in their order.
    pub end: usize,
}

/// Puts the largest id that is left, of the old and the new ones, before those that are in order. A
/// new id that is an old one too is passed over.
pub fn merge_next(held: &mut [DocId], ids: &[DocId], at: Merging) -> Merging
    requires some { 0 < at.left }
    requires of_ids { at.left ≤ length ids.now }
    requires room { at.kept + at.left ≤ at.end }
    requires within { at.end ≤ length held.old }
    ensures merging { GoesOn ids.now held.old at held.new result }
    ensures less { result.kept + result.left < at.kept + at.left }
{
    let next = ids[at.left - 1];
    if at.kept == 0 || held[at.kept - 1] < next {
        held[at.end - 1] = next;
        return Merging {
            left: at.left - 1,
            end: at.end - 1,
            ..at
        };
    }
    let last = held[at.kept - 1];
    if last == next {
        return Merging {
            left: at.left - 1,
            ..at
        };
    }
    held[at.end - 1] = last;
    Merging {
        kept: at.kept - 1,
        end: at.end - 1,
        ..at
    }
}
