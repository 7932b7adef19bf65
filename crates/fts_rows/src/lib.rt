//! The rows of the table, in memory.
//!
//! A commit is planned first: `let plan = rows.plan(&changes)?` holds the rows that are born in it
//! and the ids of those that die, or the commit is refused and nothing has changed.
//! `rows.install(plan)` takes no memory, so that nothing can fail once a commit is in the log.
//! `rows.row(7)` is the row with the key 7, and `rows.text_of(1)` has the texts of document 1.
//!
//! A plan costs its changes, and least where it is one INSERT; a look-up, and a row's removal,
//! constant time.
#![tactic(auto)]

mod draft;
mod error;
mod plan;
mod planning;
mod rows;
mod single;
mod slots;
mod updating;

pub use error::PlanError;
pub use plan::Plan;
pub use rows::Rows;
