//! Tests of the index, by the calls that are open to all: what commits leave of rows that were
//! worked out by hand; and of what a view of it lists.
//!
//! They stand apart so that what they test is proved once less.
//! `rt test` in this crate's folder runs them.
#![tactic(auto)]

#[cfg(test)]
mod index;
#[cfg(test)]
mod listing;
