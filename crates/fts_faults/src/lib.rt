//! A failure of the outside, and what a count of faults says of it.
//!
//! Files and streams can fail at any call. Each object of the outside counts its faults, and a call
//! answers `Failed` only where that count rose in it. So a failure has a cause that its caller can
//! see.
//!
//! Of `source.read(&mut buffer)` that answers `Err(Failed)`, the caller knows that
//! `source.faults()` rose. It costs nothing.
#![tactic(auto)]

use std::error::Error;
use std::fmt;

/// The outside failed: the count of faults of the object that was called rose in the call.
#[derive(Clone, Copy, Debug, PartialEq, Eq)]
pub struct Failed;

impl fmt::Display for Failed {
    fn fmt<W: fmt::Write>(&self, f: &mut fmt::Formatter<W>) -> fmt::Result {
        f.write_str("the outside failed")
    }
}

impl Error for Failed {}
