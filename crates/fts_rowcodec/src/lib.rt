//! The payloads of the rows log: the settings, which are its first entry, and commits, which are
//! the others.
//!
//! `encode_commit(alloc, &changes)?` gives the bytes of a commit, and
//! `decode_commit(alloc, columns, &bytes)?` the changes that bytes stand for, or where the first
//! field begins that can't stand there. `docs/FORMATS.md`, "Payloads", has the format.
//!
//! Both cost the bytes, once.
#![tactic(auto)]

mod commit;
mod encode;
mod error;
mod laws;
mod measure;
mod settings;
mod writing;

pub use commit::decode_commit;
pub use encode::{encode_commit, encode_commit_into, encode_settings, encode_settings_into};
pub use error::DecodeError;
pub use laws::faults_have_one_place;
pub use measure::{commit_size, settings_size};
pub use settings::decode_settings;
