//! The nodes that a pass gives a word: its documents without those that the pass takes out, packed
//! anew.
//!
//! InnoDB takes deleted documents out of the auxiliary tables word by word, as the table is
//! optimized. Source: MySQL 8.0 Reference Manual, "Optimizing InnoDB Full-Text Indexes".
//!
//! `rework(alloc, tables.nodes_of(b"apple"), lists.being_deleted())?` are the new nodes of a word.
//! It costs the word's own postings, and a step of a walk over the ids for each of its documents.
#![tactic(auto)]

mod reworking;

pub use reworking::rework;
