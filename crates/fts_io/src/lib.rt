//! Bytes that come and go: a source that is read line by line, and a sink that is written piece by
//! piece.
//!
//! `lines.next_line(&mut source)` gives the next line, without its end, however the source splits
//! its bytes; `write_whole(&mut sink, b"OK")?` writes a piece. Both may fail at any call. A failure
//! has a cause that the caller can see: the count of faults of the object rose in that call.
//!
//! A byte is looked at once, and the source is asked for 64 KiB at a time.
#![tactic(auto)]

mod buffer;
mod calls;
mod gate;
mod lines;
mod memory;
mod sink;
mod source;
mod write;

pub use buffer::READ_SIZE;
pub use fts_faults::Failed;
pub use gate::{Gate, OpenGate, Point};
pub use lines::{LONGEST_LINE, LONGEST_TEXT, Lines, Next};
pub use memory::{MemSink, MemSource};
pub use sink::Sink;
pub use source::Source;
pub use write::{WriteFault, write_whole};
