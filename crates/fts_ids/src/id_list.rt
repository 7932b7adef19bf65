ghost use Rattle.std.specs.Prelude.{◌≡◌};
ghost use Rattle.fts_ids.specs.Ids.{Ascend};

use fts_types::DocId;
use std::marker::Model;

/// Document ids, each above the one before. A contract sees the list of them.
#[derive(Debug, Drop)]
pub struct IdList {
    ids: Vec<DocId>,
}

impl Model for IdList {
    ghost use Rattle.std.specs.Prelude.{ℕ, List};
    ghost use Rattle.fts_ids.specs.Ids.{AscendFrom};

    ghost Value = { List ℕ };

    ghost view = { λ list. list.ids.items };

    ghost invariant = { λ list. AscendFrom 0 list.ids.items };
}

impl IdList {
    /// These ids.
    pub fn new(ids: Vec<DocId>) -> Self
        requires { Ascend ids.items }
        ensures { result ≡ ids.items }
    {
        IdList { ids }
    }

    /// The ids.
    pub fn as_slice(&self) -> &[DocId]
        ensures value { result.now ≡ self.now }
        ensures ascend { Ascend result.now }
    {
        &self.ids
    }

    /// The vector that holds the ids.
    pub fn into_vec(self) -> Vec<DocId>
        ensures value { result.items ≡ self }
        ensures ascend { Ascend result.items }
    {
        let IdList { ids } = self;
        ids
    }
}
