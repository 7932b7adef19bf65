//! A record before it is appended.
ghost use Rattle.std.specs.Prelude.{◌≡◌, ◌+◌, ◌^◌, ◌<◌, ◌≤◌, length};
ghost use Rattle.fts_log.specs.Framing.{staged, inner};

use byteorder::{BigEndian, ByteOrder};

/// How many bytes of a frame stand before its payload.
pub const BEFORE_PAYLOAD: usize = 4;

/// How many bytes of a frame stand before and behind its payload.
pub const AROUND_PAYLOAD: usize = 5;

/// The payload of a record, in the bytes that an append writes: the length, the payload and a
/// closed gate.
#[derive(Drop)]
pub struct Framed {
    bytes: Vec<u8>,
    ghost staged: { bytes.items ≡ staged (inner bytes.items) },
}

impl Framed {
    ghost use Rattle.fts_log.specs.Frame.{payload_of};

    /// Frames the payload that stands in these bytes: all but the first four and the last one,
    /// whatever these are. It takes no memory.
    pub fn around(bytes: Vec<u8>) -> Self
        requires room { 5 ≤ length bytes.items }
        requires fits { length bytes.items < 2 ^ 32 + 5 }
        ensures { payload_of result ≡ inner bytes.items }
    {
        let mut bytes = bytes;
        stage(&mut bytes);
        Framed { bytes }
    }

    /// The bytes that an append writes behind the closed gate.
    pub(crate) fn bytes(&self) -> &[u8]
        ensures { result.now ≡ staged (payload_of self.now) }
    {
        &self.bytes
    }
}

// Writes the length over the first four bytes, and a closed gate over the last.
fn stage(bytes: &mut [u8])
    requires room { 5 ≤ length bytes.old }
    requires fits { length bytes.old < 2 ^ 32 + 5 }
    ensures { bytes.new ≡ staged (inner bytes.old) }
{
    let last = bytes.len() - 1;
    BigEndian::write_u32(bytes, (last - BEFORE_PAYLOAD) as u32);
    bytes[last] = 0;
}
