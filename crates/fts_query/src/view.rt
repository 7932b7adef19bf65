use fts_ids::IdList;
use fts_types::{DocId, RowTexts, Texts};
use std::sync::Arc;

/// What an operand of a query asks the index for. Its words have their letters lowered.
#[derive(Debug, Drop)]
pub enum Leaf {
    /// Nothing: it is a word that can't be an indexed word, or words of which none can.
    Nothing,
    /// The rows that have a word.
    Word(Vec<u8>),
    /// The rows that have a word that begins so.
    Prefix(Vec<u8>),
    /// The rows that have each of these words, the indexable ones of a phrase or a distance.
    Words(Texts),
}

/// A leaf, and the document ids of the rows that it asks for.
#[derive(Debug, Drop)]
pub struct Postings {
    pub leaf: Leaf,
    pub ids: IdList,
}

/// A row whose texts a search looks into.
#[derive(Debug, Drop)]
pub struct Candidate {
    pub doc: DocId,
    /// The texts of its columns, behind a counted pointer, as the row has them.
    pub texts: Arc<RowTexts>,
}

/// What the index tells of the leaves of a query, at one moment.
#[derive(Debug, Drop)]
pub struct View {
    /// The number of commits that it stands for.
    pub number: u64,
    /// What each leaf asked for, one for each operand of the query, in their order.
    pub postings: Vec<Postings>,
    /// The rows that have the words of a phrase or a distance, by ascending ids.
    pub texts: Vec<Candidate>,
}
