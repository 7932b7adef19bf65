//! Ascending lists of document ids, as sets: what two have in common, one without another, and what
//! one or the other has.
//!
//! `common(alloc, &[1, 4, 9], &[4, 5, 9])?` gives 4 and 9. A list is walked from front to back, and
//! ids of the other one are passed by steps that double: two lists cost the ids of the first, each
//! with the logarithm of how many of the other lie between. Where the ids of the first are dense,
//! the others are marked instead. A union costs the ids of both; of many lists it is made by marks
//! where their ids are dense, and else by halves.
#![tactic(auto)]

mod id_list;
mod lists;
mod marks;
mod pairs;
mod unions;
mod walk;

pub use id_list::IdList;
pub use lists::{both, first_alone, united};
pub use pairs::{common, without};
pub use unions::{union, union_all};
pub use walk::IdWalk;
