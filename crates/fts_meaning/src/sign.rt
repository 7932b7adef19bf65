/// What a term of a query asks of a row.
///
/// Source: MySQL 8.0 Reference Manual, "Boolean Full-Text Searches".
#[derive(Clone, Copy, Debug, Drop, PartialEq, Eq)]
pub enum Sign {
    /// No sign, `>`, `<` or `~`.
    Optional,
    /// `+`
    Required,
    /// `-`
    Excluded,
}
