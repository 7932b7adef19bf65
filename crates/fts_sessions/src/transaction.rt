//! The transaction that is open in a session.
ghost use Rattle.std.specs.Prelude.{◌≡◌, ◌≤◌, ◌⊎◌, ◌↔◌, [], List, length, IsTrue, Some};
ghost use Rattle.fts_commits.specs.declared.change.Change.{Change};
ghost use Rattle.fts_sessions.specs.Conversation.{buffered_behind};
ghost use Rattle.fts_sessions.specs.Transaction.{with_change};

use fts_commits::Change;
use fts_schema::Reply;
use std::alloc::{AllocError, Global};
use std::marker::Model;

/// The most changes that a transaction can have.
const MOST: usize = 1000;

/// The changes that the statements of an open transaction asked for, first to last. Contracts see
/// the list of them.
#[derive(Debug, Drop)]
pub struct Transaction {
    changes: Vec<Change>,
}

impl Model for Transaction {
    ghost Value = { List Change };

    ghost view = { λ t. t.changes.items };
}

impl Transaction {
    /// A transaction without changes.
    pub fn new(alloc: Global) -> Self
        ensures { result ≡ [] }
    {
        Transaction {
            changes: Vec::new(alloc),
        }
    }

    /// Takes a change behind the others, and tells so; or refuses it, also for want of memory, and
    /// stays as it was. The change is moved, and none is copied.
    pub fn buffer(&mut self, change: Change) -> Reply
        requires { length self.old ≤ 1000 }
        ensures told { (result ≡ buffered_behind (length self.old)) ⊎ (result ≡ Reply.NoMemory) }
        ensures kept { Some self.new ≡ with_change (Some self.old) change result }
    {
        let count = self.changes.len();
        if count >= MOST {
            return Reply::TooManyChanges { changes: 1001 };
        }
        match self.changes.push(change) {
            Ok(()) => Reply::Buffered {
                changes: count as u64 + 1,
            },
            Err(_) => Reply::NoMemory,
        }
    }

    /// How many changes there are.
    pub fn len(&self) -> u64
        ensures { result ≡ length self.now }
    {
        self.changes.len() as u64
    }

    /// Whether there is none.
    pub fn is_empty(&self) -> bool
        ensures { IsTrue result ↔ (self.now ≡ []) }
    {
        self.changes.is_empty()
    }

    /// The changes.
    pub fn as_slice(&self) -> &[Change]
        ensures { result.now ≡ self.now }
    {
        &self.changes
    }
}
