ghost use Rattle.std.specs.Prelude.{◌≡◌, ◌++◌, ℕ, take, IsTrue, OnOk, OnErr};
ghost use Rattle.fts_faults.specs.Count.{HasCause};

use crate::sink::Sink;
use std::error::Error;
use std::fmt;

/// The sink failed, and a part of the piece may have been written.
#[derive(Clone, Copy, Debug, PartialEq, Eq)]
pub struct WriteFault;

impl fmt::Display for WriteFault {
    fn fmt<W: fmt::Write>(&self, f: &mut fmt::Formatter<W>) -> fmt::Result {
        f.write_str("the sink failed")
    }
}

impl Error for WriteFault {}

/// Writes the whole piece, in as many calls of the sink as it takes. An empty piece writes nothing.
///
/// Where a call fails, the sink took a front of the piece.
pub fn write_whole<K: Sink>(sink: &mut K, bytes: &[u8]) -> Result<(), WriteFault>
    ensures appends { OnOk result (IsTrue K.tells
        → K.holds sink.new ≡ K.holds sink.old ++ bytes.now) }
    ensures front { OnErr result (IsTrue K.tells
        → (n : ℕ) × (K.holds sink.new ≡ K.holds sink.old ++ take n bytes.now)) }
    ensures cause { HasCause (K.faults sink.old) (K.faults sink.new) result }
{
    let mut written = 0;
    while written < bytes.len() {
        match sink.write(&bytes[written..]) {
            Ok(count) => written += count,
            Err(_) => return Err(WriteFault),
        }
    }
    Ok(())
}
