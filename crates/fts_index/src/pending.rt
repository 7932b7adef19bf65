use fts_types::DocId;

/// A commit that is not flushed, as a batch needs it.
#[derive(Debug, Drop)]
pub struct Pending {
    /// How many documents were born in it.
    pub(crate) births: usize,
    /// The ids that died in it, ascending.
    pub(crate) deaths: Vec<DocId>,
    /// The largest id that was used after it.
    pub(crate) largest: DocId,
}
