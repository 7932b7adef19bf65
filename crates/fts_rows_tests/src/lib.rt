//! Tests of the rows and of their payloads: commits with the rows that they leave or the refusal
//! that they get, and payloads byte by byte; and of changes and numbers, of which these are made.
//!
//! They stand apart so that what they test is proved once less.
//! `rt test` in this crate's folder runs them.
#![tactic(auto)]

#[cfg(test)]
mod changes;
#[cfg(test)]
mod changing;
#[cfg(test)]
mod codec;
#[cfg(test)]
mod rowcodec;
#[cfg(test)]
mod rows;
