ghost use Rattle.std.specs.Prelude.{◌≡◌, ℕ, List};

use crate::ids::DocId;
use std::marker::Model;

/// The document ids that a search found, in ascending order. A contract sees the list of them.
#[derive(Debug, Drop)]
pub struct DocIds {
    ids: Vec<DocId>,
}

impl Model for DocIds {
    ghost Value = { List ℕ };

    ghost view = { λ docs. docs.ids.items };
}

impl DocIds {
    /// These document ids, in this order.
    pub fn new(ids: Vec<DocId>) -> Self
        ensures { result ≡ ids.items }
    {
        DocIds { ids }
    }

    /// The document ids.
    pub fn as_slice(&self) -> &[DocId]
        ensures { result.now ≡ self.now }
    {
        &self.ids
    }
}
