//! Tests of the program that no script shows: each status with its number and its text, and what a
//! session has seen.
//!
//! What the program shows from outside stands in the files below `cases/`, which `fts_cases` runs.
//! `rt test` in this crate's folder runs the tests.
#![tactic(auto)]

#[cfg(test)]
mod tests;
