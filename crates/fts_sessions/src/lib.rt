//! Sessions: statements are executed line by line, over the steps of an engine.
//!
//! `session.execute(&mut steps, &gate, b"INSERT ..")` gives the line's reply; want of memory and a
//! fault have one too. [`EngineSteps`] is what a session asks of an engine, and [`Direct`] an
//! engine that one thread owns. [`optimize_once`] is an OPTIMIZE without a session.
//!
//! How many steps an OPTIMIZE makes, and that it is told how many of them were words, are the laws
//! [`passes_are_bounded`] and [`passes_are_counted`]; and that a SYNC flushes what was there at its
//! begin is [`syncs_flush_what_was_there`].
//!
//! A line costs its bytes and its steps, and a search what its query's evaluation costs.
#![tactic(auto)]

mod asked;
mod changes;
mod commits;
mod direct;
mod index;
mod laws;
mod names;
mod optimize;
mod query;
mod session;
mod steps;
mod transaction;
mod view;

pub use direct::Direct;
pub use laws::{passes_are_bounded, passes_are_counted, syncs_flush_what_was_there};
pub use optimize::optimize_once;
pub use session::Session;
pub use steps::EngineSteps;
