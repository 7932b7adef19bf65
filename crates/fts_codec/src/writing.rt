//! Writers at the head of a buffer: each says how many bytes it wrote. None takes memory.
ghost use Rattle.std.specs.Prelude.{◌≤◌, ◌∷◌, [], length};
ghost use Rattle.std.specs.Int.{w16, w32, w64, to_be_bytes};
ghost use Rattle.fts_codec.specs.Writing.{Puts};

use byteorder::{BigEndian, ByteOrder};

/// A byte.
pub fn put_u8(buf: &mut [u8], byte: u8) -> usize
    requires { 1 ≤ length buf.old }
    ensures { Puts (byte ∷ []) buf.old buf.new result }
{
    buf[0] = byte;
    1
}

/// A number of two bytes.
pub fn put_u16(buf: &mut [u8], number: u16) -> usize
    requires { 2 ≤ length buf.old }
    ensures { Puts (to_be_bytes w16 number) buf.old buf.new result }
{
    BigEndian::write_u16(buf, number);
    2
}

/// A number of four bytes.
pub fn put_u32(buf: &mut [u8], number: u32) -> usize
    requires { 4 ≤ length buf.old }
    ensures { Puts (to_be_bytes w32 number) buf.old buf.new result }
{
    BigEndian::write_u32(buf, number);
    4
}

/// A number of eight bytes.
pub fn put_u64(buf: &mut [u8], number: u64) -> usize
    requires { 8 ≤ length buf.old }
    ensures { Puts (to_be_bytes w64 number) buf.old buf.new result }
{
    BigEndian::write_u64(buf, number);
    8
}

/// These bytes.
pub fn put_bytes(buf: &mut [u8], bytes: &[u8]) -> usize
    requires { length bytes.now ≤ length buf.old }
    ensures { Puts bytes.now buf.old buf.new result }
{
    buf[..bytes.len()].copy_from_slice(bytes);
    bytes.len()
}
