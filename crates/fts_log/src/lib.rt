//! A log of entries in file 0 of a device, each acknowledged only once it is durable.
//!
//! The file is a magic of 8 bytes, then records, then a closed gate, then any rest. A record is the
//! gate byte `01`, a length of four bytes, big end first, and that many bytes of payload. A closed
//! gate is any byte other than `01`; it ends the log. An append writes the length, the payload and
//! a closed gate behind the gate that is closed, makes them durable, then opens that gate and makes
//! it durable: so a crash at any moment leaves the old entries, or these and the new one.
//!
//! `log.append(&framed)?` gives the entry's number once it is durable, and `log.entry_at(0)?` its
//! payload. An append costs the record's bytes, two writes and two syncs; an opening goes over the
//! file once, and reads payloads a stretch at a time.
#![tactic(auto)]

mod begun;
mod create;
mod error;
mod found;
mod frame;
mod laws;
mod log;
mod opening;
mod place;
mod records;
mod window;

pub use begun::is_begun;
pub use create::create_log;
pub use error::{AppendError, EntryError, OpenError};
pub use frame::{AROUND_PAYLOAD, BEFORE_PAYLOAD, Framed};
pub use laws::{not_damaged, one_list, one_place};
pub use log::Log;
pub use opening::{open_log, read_records};
pub use records::Records;
