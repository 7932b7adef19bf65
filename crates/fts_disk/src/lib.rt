//! Devices: numbered files that are read and written at places, and made durable by a sync.
//!
//! [`Disk`] is what a device does and what a crash at any moment may leave of it; [`MemDisk`] is
//! one in memory, which keeps a record of its calls and fails where it is told to:
//! `disk.write_at(0, 8, &bytes)?; disk.sync()?`. `docs/PROOF.md`, "What is assumed of a disk", has
//! the page on which every claim on crashes rests.
//!
//! A call of a `MemDisk` costs its bytes, and a record of it.
#![tactic(auto)]

mod disk;
mod memory;

pub use disk::Disk;
pub use fts_faults::Failed;
pub use memory::{Call, Kind, MemDisk};
