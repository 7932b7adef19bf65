//! The delete lists of the index, how far it is flushed, and its pass.
//!
//! InnoDB keeps the ids of deleted documents in the tables `DELETED`, `BEING_DELETED` and
//! `DELETED_CACHE` of an index, and its numbers in `CONFIG`. Source: MySQL 8.0 Reference Manual,
//! "InnoDB Full-Text Index Tables".
//!
//! `lists.reserve(DeleteList::Deleted, 3)?` makes room for three ids, and
//! `lists.add_all(DeleteList::Deleted, &ids)` puts them in without memory, in one merge from the
//! back. To look for an id costs constant time in `DELETED_CACHE` and, where the ids are dense and
//! marked, in `DELETED`, and a logarithm else.
#![tactic(auto)]

mod ids;
mod lists;
mod marked;
mod merge;
mod sorted;

pub use fts_ids::IdWalk;
pub use lists::{DeleteList, Lists};
