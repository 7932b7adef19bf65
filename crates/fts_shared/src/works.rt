//! The work of all sessions of a script.
ghost use Rattle.std.specs.Prelude.{◌≡◌, ◌≤◌, [], ◌++◌, length, map, All, IfOk, OnOk};
ghost use Rattle.fts_script.specs.Script.{lines_in};
ghost use Rattle.fts_script.specs.Group.{IsGrouping, shares_of};
ghost use Rattle.fts_script.specs.Merge.{IsMerged, items_of};
ghost use Rattle.fts_shared.specs.Work.{shares_in, replies_in};

use crate::work::Work;
use fts_schema::Reply;
use fts_script::{Group, Script, merge_replies};
use std::alloc::{AllocError, Global};

/// The work of the sessions with these groups of lines, of which nothing was executed yet.
pub fn works_of(alloc: Global, groups: Vec<Group>) -> Result<Vec<Work>, AllocError>
    ensures { IfOk result (λ works. shares_in works.items ≡ shares_of groups.items) }
{
    let mut works = Vec::with_capacity(alloc, groups.len())?;
    for group in groups {
        match Work::new(alloc, group) {
            Ok(work) => works.push_reserved(work),
            Err(_) => return Err(AllocError),
        }
    }
    Ok(works)
}

/// What the sessions of a script were told, in the order of its lines. A line that is nobody's has
/// no reply.
pub fn replies_in_order(
    alloc: Global,
    script: &Script,
    works: Vec<Work>,
) -> Result<Vec<Option<Reply>>, AllocError>
    requires { IsGrouping (lines_in script.now) (shares_in works.items) }
    ensures { IfOk result (λ all. IsMerged (lines_in script.now) (shares_in works.items)
        (replies_in works.items) all.items) }
{
    let mut groups = Vec::with_capacity(alloc, works.len())?;
    let mut replies = Vec::with_capacity(alloc, works.len())?;
    for work in works {
        let (group, told) = work.into_parts();
        groups.push_reserved(group);
        replies.push_reserved(told);
    }
    merge_replies(alloc, script, &groups, replies)
}
