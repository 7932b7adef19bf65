use std::{fmt, io};

/// The first call of a device or a stream that failed: which file or stream it concerned, and why.
///
/// As text it has both, with the system's own words where the system refused the call:
/// `shop/rows.log: Permission denied (os error 13)`.
#[derive(Clone, Copy, Debug)]
pub struct Refusal<'a> {
    pub(crate) what: &'a str,
    pub(crate) error: io::Error,
}

impl fmt::Display for Refusal<'_> {
    fn fmt<W: fmt::Write>(&self, f: &mut fmt::Formatter<W>) -> fmt::Result {
        write!(f, "{}: {}", self.what, self.error)
    }
}

// What of a folder a call concerned.
#[derive(Clone, Copy, Debug)]
pub enum Place {
    // The folder that it lies in.
    Parent,
    Folder,
    Lock,
    File(u32),
}

// Why a call of a device failed, and where.
#[derive(Clone, Copy, Debug)]
pub struct Fault {
    pub place: Place,
    pub error: io::Error,
}

// What stands there does not let the call be made. The words say why.
pub fn refused(place: Place, words: &str) -> Fault {
    Fault {
        place,
        error: io::Error::other(words),
    }
}
