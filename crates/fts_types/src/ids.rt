/// The number that the index knows a row by, from 1 to 2^63 − 1 (InnoDB: `FTS_DOC_ID`, `doc_id_t`).
///
/// Ids ascend in the order of the commits and are never used again.
pub type DocId = u64;

/// The number that the user knows a row by, the value of its column `id`.
pub type Key = u64;
