//! Definitions of an index over commits: the entries of its log, what these leave of tables and
//! delete lists, the batch that comes next, and what keeps an index right.
//!
//! An index is a function of two lists: the commits, of which it sees who is born and who dies
//! (`Turn` of `fts_commits`), and its entries, each a batch or a step of a pass. Source: MySQL 8.0
//! Reference Manual, "InnoDB Full-Text Indexes".
//!
//! What an index stands for (`index_of`, a fold over its entries) says nothing of the texts behind
//! the nodes: an opening takes any entries that the format allows. That what is not deleted of
//! tables and cache is what the rows have, and that the tables have of who is dead what was born
//! (`IsExact`), is another fact, which each step keeps: the laws `no_entries_are_right`,
//! `commits_keep`, `batches_keep` and `passes_keep`. Which batch comes next is one answer
//! (`one_batch_is_next`), of rows of the table (`alive_are_rows`), and so is which step of OPTIMIZE
//! comes next (`one_step_is_next`). Which entries can come is a fact on commits and entries alone
//! (`AreEntries`), that each such batch meets (`entries_can_come`). What stands in DELETED has
//! died, and what the index has of no row is deleted (`deleted_are_dead`).
//!
//! There is no code here but these laws, which a caller cites as `batches_keep();` and which cost
//! nothing.
#![tactic(auto)]

mod laws;

pub use laws::{
    alive_are_rows, batches_keep, commits_keep, deleted_are_dead, entries_can_come,
    no_entries_are_right, one_batch_is_next, one_step_is_next, passes_keep,
};
