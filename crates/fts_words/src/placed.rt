use crate::span::Span;

/// A raw word where it stands in a row.
#[derive(Clone, Copy, Debug, PartialEq, Eq)]
pub struct PlacedWord {
    /// Its column, from 0.
    pub column: usize,
    /// Its place in the column's text, in bytes.
    pub span: Span,
    /// How many raw words of its column start before it.
    pub number: u32,
    /// How many bytes of the row stand before it, where the row's columns are joined by one byte
    /// each.
    pub position: u32,
}
