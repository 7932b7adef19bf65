//! A client of the headline, and tests: lists of events whose outcomes were worked out by hand,
//! events drawn from a number beside a plain model, and stops within each call of a pass.
//!
//! [`number_behind_crash`] is what the contract of `steps` is for: it makes a database, two
//! commits, a crash, an opening and a view, and its own contract says which number that view has.
//! `rt test` in this crate's folder runs the tests.
#![tactic(auto)]

mod client;

pub use client::number_behind_crash;

#[cfg(test)]
mod tests;
