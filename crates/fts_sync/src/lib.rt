//! The nodes of a batch: the words of the documents that leave the cache for the auxiliary tables.
//!
//! InnoDB writes the words of its full-text index cache to the auxiliary tables in batches. Source:
//! MySQL 8.0 Reference Manual, "InnoDB Full-Text Index Cache".
//!
//! `batch(alloc, &cache, 7, &lists)?` are the words of the cache's documents up to the id 7, each
//! with its documents packed into nodes, those left out that died. It costs the words and the
//! postings of these documents, and nothing of what stays in the cache.
#![tactic(auto)]

mod sealing;

pub use sealing::batch;
