//! The words of documents that are not yet flushed to the tables of the index (InnoDB: the
//! full-text index cache).
//!
//! `cache.reserve(&documents)?` makes room for documents, `cache.add(&document)` takes them one
//! after another without memory, `cache.postings(b"apple")` reads the documents of a word in place,
//! and `cache.drop_until(7)` lets go of those up to an id.
//!
//! A document costs a look-up for each of its words and a step for each occurrence, once when it
//! comes, and a step for each word when it leaves.
#![tactic(auto)]

mod adding;
mod cache;
mod document;
mod words;

pub use cache::Cache;
pub use document::DocWords;
