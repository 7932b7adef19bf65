use fts_types::Text;

/// A value of an INSERT.
#[derive(Debug, Drop)]
pub enum Value {
    /// A number, below 2^64.
    Number(u64),
    /// A string's text, each doubled apostrophe as one.
    Text(Text),
}
