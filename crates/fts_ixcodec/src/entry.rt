use fts_ilist::{NodeList, Nodes};
use fts_types::{DocId, Word};

/// What a step of the index adds to its log. The nodes of a batch that was read borrow its bytes.
#[derive(Drop)]
pub enum Entry<'a> {
    /// A batch: through which commit and up to which id it flushes, and its nodes.
    Sealed {
        through: u64,
        synced: DocId,
        nodes: Nodes<'a>,
    },
    /// The begin of a pass.
    Begun,
    /// A word of a pass, with the nodes that it has from then on.
    Worked {
        word: Word,
        nodes: NodeList,
    },
    /// The finish of a pass.
    Finished,
}
