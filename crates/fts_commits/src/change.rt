ghost use Rattle.std.specs.Prelude.{◌≡◌, ◌<◌, ℕ, List, Option, Some, None, MatchOption, length};
ghost use Rattle.std.specs.Prelude.{map, slice_index_or};
ghost use Rattle.fts_commits.specs.NewText.{new_text};

use fts_types::{DocId, Key, SharedTexts};
use std::marker::Model;

/// One change of a commit.
#[derive(Debug, Drop)]
pub enum Change {
    /// A new row with this key, this document id (or the next one, where none is given) and a text
    /// for each column. Its row holds these texts, and no copy of them.
    Insert {
        key: Key,
        doc: Option<DocId>,
        texts: SharedTexts,
    },
    /// New texts for some columns of the row with this key, if there is one. The row gets a new
    /// document id.
    Update {
        key: Key,
        texts: NewTexts,
    },
    /// The row with this key goes, if there is one.
    Delete {
        key: Key,
    },
}

/// For each column of a row a new text, or none where the old one is kept. Contracts see the list
/// of them.
#[derive(Debug, Drop)]
pub struct NewTexts {
    texts: Vec<Option<Vec<u8>>>,
}

impl Model for NewTexts {
    ghost Value = { List (Option (List ℕ)) };

    ghost view = { λ t. map new_text t.texts.items };
}

impl NewTexts {
    /// The texts of a list.
    pub fn from_vec(texts: Vec<Option<Vec<u8>>>) -> Self
        ensures { result ≡ map new_text texts.items }
    {
        NewTexts { texts }
    }

    /// The list that holds them.
    pub fn into_vec(self) -> Vec<Option<Vec<u8>>>
        ensures { self ≡ map new_text result.items }
    {
        let NewTexts { texts } = self;
        texts
    }

    /// The new text of a column by its place, from 0, or none where the old one is kept.
    pub fn text(&self, place: usize) -> Option<&[u8]>
        requires { place < length self.now }
        ensures { MatchOption result (slice_index_or self.now place None ≡ None)
            (λ text. slice_index_or self.now place None ≡ Some text.now) }
    {
        match &self.texts[place] {
            None => None,
            Some(text) => Some(text.as_slice()),
        }
    }

    /// How many columns there are.
    pub fn len(&self) -> usize
        ensures { result ≡ length self.now }
    {
        self.texts.len()
    }
}
