ghost use Rattle.std.specs.Prelude.{◌≡◌, List};
ghost use Rattle.fts_commits.specs.declared.change.Change.{Change};

use crate::change::Change;
use std::marker::Model;

/// The changes of one transaction, in their order. Contracts see the list of them.
#[derive(Debug, Drop)]
pub struct Changes {
    changes: Vec<Change>,
}

impl Model for Changes {
    ghost Value = { List Change };

    ghost view = { λ c. c.changes.items };
}

impl Changes {
    /// The changes of a list.
    pub fn from_vec(changes: Vec<Change>) -> Self
        ensures { result ≡ changes.items }
    {
        Changes { changes }
    }

    /// The list that holds them.
    pub fn into_vec(self) -> Vec<Change>
        ensures { self ≡ result.items }
    {
        let Changes { changes } = self;
        changes
    }

    /// The changes.
    pub fn as_slice(&self) -> &[Change]
        ensures { result.now ≡ self.now }
    {
        &self.changes
    }
}
