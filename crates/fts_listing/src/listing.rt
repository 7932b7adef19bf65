use fts_ilist::{Nodes, WordNodes};
use fts_types::{DocId, DocIds, Word};
use std::marker::Model;

/// Words in byte order, each with its documents, in groups.
#[derive(Drop)]
pub struct ListedWords {
    words: Nodes<'static>,
}

impl Model for ListedWords {
    ghost use Rattle.std.specs.Prelude.{ℕ, List};
    ghost use Rattle.fts_ilist.specs.Node.{Docs};

    ghost Value = { List (List ℕ × List Docs) };

    ghost view = { λ w. w.words.items };
}

impl ListedWords {
    ghost use Rattle.std.specs.Prelude.{◌≡◌};

    /// These words.
    pub fn new(words: Nodes<'static>) -> Self
        ensures { result ≡ words.entry.items }
    {
        ListedWords { words }
    }

    /// The words with their groups.
    pub fn as_slice(&self) -> &[WordNodes<'static>]
        ensures { result.now ≡ self.now }
    {
        &self.words
    }
}

/// Settings of a database, and how far its index is flushed.
#[derive(Drop)]
pub struct Config {
    /// The least length of an indexed word, in bytes.
    pub min: u8,
    /// The greatest length of an indexed word, in bytes.
    pub max: u8,
    /// Whether stopwords are left out.
    pub stopword: bool,
    /// How many commits are flushed.
    pub flushed: u64,
    /// The largest id that these used, 0 before the first flush.
    pub synced: DocId,
    /// The last word that the open pass worked on, if there is one.
    pub checkpoint: Option<Word>,
}

/// What a view lists.
#[derive(Drop)]
pub enum Listing {
    /// Of tables each word with its nodes; of the cache each word with all its documents as one
    /// group.
    Words { words: ListedWords },
    /// Document ids, ascending.
    Ids { ids: DocIds },
    /// Settings and numbers of the index.
    Config { config: Config },
    /// The default stopwords.
    Stopwords,
}

/// What a view listed as of a commit.
#[derive(Drop)]
pub struct NumberedListing {
    /// How many commits there were.
    pub number: u64,
    /// What it listed.
    pub listing: Listing,
}
