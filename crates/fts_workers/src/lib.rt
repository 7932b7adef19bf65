//! Batches behind commits, and the two workers that make them, and OPTIMIZE, beside sessions.
//!
//! `met_behind(&mut steps, &reply)` makes the batches that follow a reply where one thread does
//! all. In a thread of its own a worker makes its [`Rounds`] by [`make_rounds`], each time that its
//! [`Bell`] rings: [`SyncRounds`], or [`OptimizeRounds`]. What was met is a [`Health`].
//!
//! A round costs what its steps cost.
#![tactic(auto)]

mod batches;
mod bell;
mod health;
mod laws;
mod workers;

pub use batches::{batches_behind, met_behind};
pub use bell::{Bell, Bells};
pub use health::{Health, health_of};
pub use laws::{rounds_end_whole, rounds_leave_no_batch_due};
pub use workers::{OptimizeRounds, Rounds, SyncRounds, make_rounds};
