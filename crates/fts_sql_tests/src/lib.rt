//! Tests of command lines, scripts, statements and replies: lines with what they are read as or
//! where they are at fault, the sessions of a script, scripts from a number, and replies, listings
//! and sums byte by byte.
//!
//! They stand apart so that what they test is proved once less.
//! `rt test` in this crate's folder runs them.
#![tactic(auto)]

#[cfg(test)]
mod args;
#[cfg(test)]
mod generated;
#[cfg(test)]
mod listing;
#[cfg(test)]
mod parse;
#[cfg(test)]
mod reply;
#[cfg(test)]
mod script;
#[cfg(test)]
mod session;
#[cfg(test)]
mod summary;
