//! Boolean queries: from their text to their tree.
//!
//! `parse(alloc, b"+apple -pie")?` gives the tree, or its refusal with the place of the leftmost
//! fault; the rules stand in `docs/LANGUAGE.md`, "The Boolean language".
//!
//! A query is read in six passes, each linear in its text, without recursion.
//!
//! A `Leaf` is what an operand asks the index for, and a `View` what the index tells of them.
#![tactic(auto)]

mod build;
mod distance;
mod faults;
mod parser;
mod plain;
mod query;
mod quotes;
mod view;
mod words;

pub use parser::{ParseError, parse};
pub use query::{Operand, Query, Term};
pub use view::{Candidate, Leaf, Postings, View};
pub use words::words_in;
