//! Tests of queries: texts with their trees or faults, words and phrases in rows, and answers
//! beside the scan; and of what they stand on: plain data, words of texts, and lists of ids.
//!
//! They stand apart so that what they test is proved once less.
//! `rt test` in this crate's folder runs them.
#![tactic(auto)]

#[cfg(test)]
mod eval;
#[cfg(test)]
mod ids;
#[cfg(test)]
mod phrase;
#[cfg(test)]
mod plain_data;
#[cfg(test)]
mod query;
#[cfg(test)]
mod words;
