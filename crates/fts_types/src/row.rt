use crate::ids::{DocId, Key};
use crate::texts::RowTexts;
use std::sync::Arc;

/// A row of the table.
#[derive(Debug, Drop)]
pub struct Row {
    pub key: Key,
    pub doc: DocId,
    /// The texts of its columns, behind a counted pointer: who clones it holds them, also when the
    /// row has gone.
    pub texts: Arc<RowTexts>,
}
