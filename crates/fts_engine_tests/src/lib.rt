//! Tests of the engine over devices in memory: commits, batches, passes, listings and openings,
//! each with what it answers, what the devices hold then, and what a fault in each call leaves.
//!
//! They stand apart so that the engine is proved once less.
//! `rt test` in this crate's folder runs them.
#![tactic(auto)]

#[cfg(test)]
mod tests;
