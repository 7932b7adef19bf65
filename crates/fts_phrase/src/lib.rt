//! Whether a row has words that stand together: one behind another, or near each other.
//!
//! `phrase_holds(columns, &words)` looks for the words of `"apple pie"`, and
//! `distance_holds(columns, &words, 3, &mut last)` for those of `"apple pie" @3`. The words have
//! their letters lowered, and are compared with the raw words of each column, those included that
//! are not indexed.
//!
//! Each column is read once, in place, and no memory is taken. A phrase looks at 64 places at once
//! whether its first word may begin there, and at more only where that word stands: `a a .. b`
//! costs most in a text of many `a`. A distance costs a comparison with each of its words at each
//! raw word.
#![tactic(auto)]

mod distance;
mod phrase;
mod seek;
mod word;

pub use distance::distance_holds;
pub use phrase::phrase_holds;
