//! The auxiliary tables of the index: for each word its nodes, each a position list of some
//! documents.
//!
//! InnoDB keeps the words of a full-text index in six auxiliary tables by their first characters,
//! and each word's position lists in rows of such a table. Source: MySQL 8.0 Reference Manual,
//! "InnoDB Full-Text Index Tables".
//!
//! `tables.nodes_of(b"apple")` are the nodes of a word, `tables.next_after(&word)` is the next word
//! that has nodes, `tables.reserve(&batch)?` makes room for a batch's nodes, and
//! `tables.install_batch(&batch)` adds them without memory.
//!
//! A word is found in constant time, the next one in logarithmic time; a batch costs its words and
//! their bytes.
#![tactic(auto)]

mod table;
mod tables;

pub use tables::Tables;
