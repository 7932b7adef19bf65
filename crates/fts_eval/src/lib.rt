//! The evaluation of Boolean queries: what they ask the index for, and what they find in what it
//! tells.
//!
//! `leaves(alloc, &settings, &query)?` gives the leaves of a query, and `answer(alloc, &view,
//! &query)?` the ids of the rows in which it holds. An answer walks over the postings of the view,
//! from the required term with the fewest on; the others are tried on what is left, and the texts
//! of a phrase or a distance are read once.
#![tactic(auto)]

mod eval;
mod found;
mod leaf;
mod part;
mod resolve;
mod search;
mod tried;

pub use leaf::leaves;
pub use search::answer;
