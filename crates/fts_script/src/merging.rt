//! Replies in the order of a script's lines.
ghost use Rattle.std.specs.Prelude.{◌≡◌, ◌<◌, None, Some, length, map, replicate, slice_set, IfOk};
ghost use Rattle.fts_script.specs.Script.{lines_in};
ghost use Rattle.fts_script.specs.Group.{IsGrouping, shares_of};
ghost use Rattle.fts_script.specs.Merge.{IsMerged, AreApart, AreFree, Scatters, items_of};

use crate::grouping::Group;
use crate::lines::Script;
use std::alloc::{AllocError, Global};

/// What the sessions of a script answered, in the order of its lines. The replies are those of each
/// group, in the order of the groups and of each one's places. A line that is nobody's, or to which
/// its session gave no reply, has none.
pub fn merge_replies<T: Drop>(
    alloc: Global,
    script: &Script,
    groups: &[Group],
    replies: Vec<Vec<T>>,
) -> Result<Vec<Option<T>>, AllocError>
    requires { IsGrouping (lines_in script.now) (shares_of groups.now) }
    ensures { IfOk result (λ all. IsMerged (lines_in script.now) (shares_of groups.now)
        (map items_of replies.items) all.items) }
{
    let mut all = unanswered(alloc, script.lines().len())?;
    let mut left = replies;
    while let Some(own) = left.pop() {
        let at = left.len();
        if at < groups.len() {
            put_replies(&mut all, &groups[at].places, own);
        }
    }
    Ok(all)
}

// So many lines without a reply.
fn unanswered<T: Drop>(alloc: Global, count: usize) -> Result<Vec<Option<T>>, AllocError>
    ensures { IfOk result (λ all. all.items ≡ replicate count None) }
{
    let mut all = Vec::with_capacity(alloc, count)?;
    for _line in 0..count {
        all.push_reserved(None);
    }
    Ok(all)
}

// Puts the replies of a session to the places of its lines.
fn put_replies<T: Drop>(all: &mut Vec<Option<T>>, places: &[usize], own: Vec<T>)
    requires apart { AreApart places.now }
    requires free { AreFree places.now all.old.items }
    ensures { Scatters places.now own.items all.old.items all.new.items }
{
    let mut left = own;
    while let Some(reply) = left.pop() {
        let at = left.len();
        if at < places.len() {
            put_reply(all, places[at], reply);
        }
    }
}

// Puts a reply to the place of a line.
fn put_reply<T: Drop>(all: &mut Vec<Option<T>>, place: usize, reply: T)
    requires { place < length all.old.items }
    ensures { all.new.items ≡ slice_set all.old.items place (Some reply) }
{
    all[place] = Some(reply);
}
