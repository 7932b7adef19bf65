//! The engine: a database on two devices, its steps, and its opening again from its two logs.
//!
//! [`create_engine`] makes a database, and [`open_engine`] finds one:
//! `let mut engine = open_engine(alloc, rows, index, Limits::standard())?`. Then
//! `engine.commit(&[change])?` gives the commit's number once it is durable, and
//! `engine.view(leaves)?` what the rows have for the leaves of a query. `engine.sync_batch()?`
//! makes the next batch of the index, `engine.optimize_step()?` a step of OPTIMIZE;
//! `engine.listing(kind)?` tells what a view of the index lists, and `engine.cache_size()` what the
//! cache counts.
//!
//! A commit costs the bytes of its changes, a look-up for each key and word, two writes and two
//! syncs; a view the documents of its leaves' words, and a look-up for each candidate of a phrase
//! or a distance; a batch the words of its rows, two writes and two syncs; a word of OPTIMIZE its
//! own nodes, and as many writes and syncs; a listing what it lists; an opening each record of both
//! logs once, and the words of the rows that no batch flushed.
#![tactic(auto)]

mod create;
mod engine;
mod error;
mod kept;
mod laws;
mod load;
mod looking;
mod open;
mod optimize;
mod restoring;
mod room;

pub use create::{CreateError, INDEX_MAGIC, LARGEST_LOG, ROWS_MAGIC, create_engine};
pub use engine::Engine;
pub use error::{Device, OpenError};
pub use laws::one_database;
pub use open::open_engine;
