//! Tests of the parts that the index stands on, by the calls that are open to all: position lists,
//! cache, delete lists, tables, batches, passes, and the bytes of what they write.
//!
//! They stand apart so that what they test is proved once less.
//! `rt test` in this crate's folder runs them.
#![tactic(auto)]

#[cfg(test)]
mod aux;
#[cfg(test)]
mod cache;
#[cfg(test)]
mod ilist;
#[cfg(test)]
mod ixcodec;
#[cfg(test)]
mod lists;
#[cfg(test)]
mod nodes;
#[cfg(test)]
mod optimize;
#[cfg(test)]
mod sync;
