//! The devices and streams of the system: a folder, standard input and standard output.
//!
//! **This crate is trusted.** Its contracts say only that each failure is counted, since no
//! contract speaks of what the system keeps or shows. So its types tell nothing of content, and a
//! reader has to believe that each call does to the system what its page says, and that the system
//! keeps of a `HostDisk` what `docs/PROOF.md`, "What is assumed of a disk", says of each call. What
//! reads or writes here:
//!
//! - `OpenStreams` opens the null device three times, before all else.
//! - `HostDisk` opens, makes, locks, reads, writes, cuts and syncs files of one folder, and makes
//!   the folder.
//! - `StdSource` reads from a reader of std, as standard input.
//! - `StdSink` writes to a writer of std, as standard output.
//!
//! The last three count the errors that the system gave, up to `2^64 - 1`, answer `Failed` for
//! each, and keep the first of them, with the file or stream at which it came, as a `Refusal`.
//!
//! `let (rows, index) = HostDisk::pair(alloc, rt.clone()?, rt.clone()?, "shop")?;` makes both
//! devices of the folder `shop`, and touches nothing yet; `StdSource::new(rt.stdin())` makes the
//! source. A call costs one of the system, and the first of a file those that open and lock it.
#![tactic(auto)]

mod disk;
mod faults;
mod file;
mod folder;
mod lock;
mod refusal;
mod standard;
mod streams;

pub use disk::HostDisk;
pub use refusal::Refusal;
pub use standard::OpenStreams;
pub use streams::{StdSink, StdSource};
