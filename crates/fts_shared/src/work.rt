//! The work of a session.
ghost use Rattle.std.specs.Prelude.{◌≡◌, ◌≤◌, [], length, vec_capacity, IfOk, IfErr};

use fts_schema::Reply;
use fts_script::Group;
use std::alloc::Global;

/// Which lines of a script are a session's, and what they were told, in their order.
#[derive(Drop)]
pub struct Work {
    pub(crate) group: Group,
    pub(crate) replies: Vec<Reply>,
    ghost room: { length group.places.items ≤ vec_capacity replies },
}

impl Work {
    ghost use Rattle.fts_shared.specs.Work.{work_share, work_replies};
    ghost use Rattle.fts_script.specs.Group.{share_of};

    /// The work of a session, of which nothing was executed yet. At `Err` there was no memory for
    /// as many replies, and the group comes back.
    pub fn new(alloc: Global, group: Group) -> Result<Work, Group>
        ensures group { IfOk result (λ work. work.group ≡ group) }
        ensures replies { IfOk result (λ work. work_replies work ≡ []) }
        ensures back { IfErr result (λ back. back ≡ group) }
    {
        match Vec::with_capacity(alloc, group.places.len()) {
            Ok(replies) => Ok(Work { group, replies }),
            Err(_) => Err(group),
        }
    }

    /// What its lines were told.
    pub fn replies(&self) -> &[Reply]
        ensures { result.now ≡ work_replies self.now }
    {
        &self.replies
    }

    /// The group, and what its lines were told.
    pub fn into_parts(self) -> (Group, Vec<Reply>)
        ensures group { share_of result.0 ≡ work_share self }
        ensures replies { result.1.items ≡ work_replies self }
    {
        let Work { group, replies } = self;
        (group, replies)
    }
}
