//! Tests of sessions in threads over one engine: what they are told, and what the devices hold
//! then, also where one fails.
//!
//! They stand apart so that what they test is proved once less.
//! `rt test` in this crate's folder runs them.
#![tactic(auto)]

#[cfg(test)]
mod tests;
