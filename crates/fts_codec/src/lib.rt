//! What payloads are read and written with: numbers, high byte first, and so many bytes.
//!
//! `u32_at(bytes)?` gives the number at the front and the bytes behind it, and
//! `at += put_u32(&mut buf[at..], 7)` writes one. `specs/Reading.antt` says what is read, and
//! `specs/Writing.antt` what a writer leaves of a buffer. That what is written is read back, and
//! what is read is written so, are laws of these alone (`proofs/Spelled.antt`). `Fault` is why a
//! reader of fields stopped, and `specs/Grammar.antt` says at which place bytes are at fault.
//!
//! None takes memory.
#![tactic(auto)]

mod fault;
mod reading;
mod writing;

pub use fault::Fault;
pub use reading::{behind, bytes_at, u16_at, u32_at, u64_at};
pub use writing::{put_bytes, put_u8, put_u16, put_u32, put_u64};
