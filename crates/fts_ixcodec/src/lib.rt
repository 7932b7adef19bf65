//! The payloads of the index log: batches, the begin and the finish of a pass, and its words.
//!
//! `encode_sealed_into(7, 12, &nodes, &mut buf)` writes a batch, in the bytes that
//! `sealed_size(&nodes)` counts, and `decode(alloc, &settings, &bytes)?` gives the entry that bytes
//! are, or where the first field begins that can't stand there.
//! `docs/FORMATS.md`, "Payloads of the index log", has the format.
//!
//! Both cost the bytes, once. A list is read by `fts_ilist`, and kept as its bytes.
#![tactic(auto)]

mod building;
mod decoding;
mod encoding;
mod entry;
mod error;
mod laws;
mod lists;
mod measure;
mod words;
mod writing;

pub use decoding::decode;
pub use encoding::{
    encode, encode_begun_into, encode_finished_into, encode_sealed_into, encode_worked_into,
};
pub use entry::Entry;
pub use error::DecodeError;
pub use laws::{batches_are_entries, faults_have_one_place};
pub use measure::{entry_size, sealed_size, worked_size};
