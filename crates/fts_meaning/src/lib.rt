//! What a Boolean query is and what it finds: its tree, the bytes of its text that are at fault,
//! the rows in which it holds.
//!
//! The definitions are in `specs/`: `+apple -"apple pie"` is a list of two terms, and holds in a
//! row that has the word and not the phrase. This crate has the types that they are about, and the
//! laws that a text without a fault has one tree and that a leaf's candidates are enough, which a
//! caller cites as `candidates_are_enough();` and which cost nothing.
#![tactic(auto)]

mod laws;
mod sign;

pub use laws::{candidates_are_enough, faultless_queries_have_one_tree};
pub use sign::Sign;
