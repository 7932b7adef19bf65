use fts_meaning::Sign;
use fts_types::Texts;

/// What a term asks for. Its words have their letters lowered.
#[derive(Debug, Drop)]
pub enum Operand {
    /// A word.
    Word(Vec<u8>),
    /// The words that begin so: `word*`.
    Prefix(Vec<u8>),
    /// Words that stand one behind another: `"word word"`. Words that are not indexed are kept.
    Phrase(Texts),
    /// Words that stand close together, and how far the first is from the last at most: `"word
    /// word" @number`.
    Distance(Texts, u16),
}

/// A part of a query, with its sign.
#[derive(Debug, Drop)]
pub enum Term {
    /// A word, a prefix, a phrase or a distance.
    Leaf(Sign, Operand),
    /// Terms in brackets.
    Group(Sign, Vec<Term>),
}

/// A Boolean query.
#[derive(Debug, Drop)]
pub struct Query {
    /// Its terms, in their order.
    pub terms: Vec<Term>,
}
