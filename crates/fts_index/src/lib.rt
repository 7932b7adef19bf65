//! The index of a table's rows: the six auxiliary tables, the cache of what is not yet flushed to
//! them, the delete lists, and the commits that are not flushed.
//!
//! `index.plan_commit(&settings, plan.births(), plan.deaths(), plan.largest())?` cuts new rows into
//! words and makes the room for them, and `index.install_commit(plan)` adds them without memory.
//! `index.plan_sync(1_000)?` is the next batch, or None where all commits are flushed, and
//! `index.install_sync(plan)` moves its documents from the cache to the tables.
//! `index.gather(&leaves)?` gives the ids of the rows that have a word, a word that begins so, or
//! each of some words, and `index.listing(&settings, kind)?` what a view lists. Source: MySQL 8.0
//! Reference Manual, "InnoDB Full-Text Indexes".
//!
//! A plan costs the texts of its rows, and the sorting of their words; an install a step for each
//! word and occurrence; a batch the words of its documents; a search the documents of its leaves'
//! words.
#![tactic(auto)]

mod document;
mod gather;
mod index;
mod keyed;
mod listing;
mod occurrence;
mod passing;
mod pending;
mod restore;
mod sync;
mod walk;

pub use gather::Gathered;
pub use index::{CommitPlan, Index};
pub use passing::PassPlan;
pub use restore::{Covered, RestoreError};
pub use sync::SyncPlan;
