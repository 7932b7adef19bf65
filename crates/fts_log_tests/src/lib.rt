//! Tests of lines and pieces, of the devices in memory and of the system, and of logs: bytes with
//! what they hold or where they are at fault, and what a stop in each call leaves.
//!
//! They stand apart so that what they test is proved once less.
//! `rt test` in this crate's folder runs them.
#![tactic(auto)]

#[cfg(test)]
mod disk;
#[cfg(test)]
mod host;
#[cfg(test)]
mod io;
#[cfg(test)]
mod log;
