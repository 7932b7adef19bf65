//! The slow meaning of a search: each row is read, and the query is tried on it.
//!
//! `scan(alloc, &settings, &rows, &query)?` gives the ids of the rows in which the query holds. It
//! is written from the definitions alone, and costs all texts. Faster searches are compared with
//! it.
#![tactic(auto)]

mod operand;
mod rows;
mod terms;
mod verdict;
mod words;

pub use rows::scan;
