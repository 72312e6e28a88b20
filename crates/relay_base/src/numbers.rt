ghost use Rattle.std.specs.Prelude.{◌≡◌, ◌<◌, ◌≤◌, ◌^◌, length};
ghost use Rattle.relay_base.specs.Numbers.{be16_of, be24_of, be32_of, le32_of};

use byteorder::{BigEndian, ByteOrder, LittleEndian};

/// Reads the number in the first two bytes, the highest byte first.
pub fn be16(b: &[u8]) -> u16
    requires { 2 ≤ length b.now }
    ensures { result ≡ be16_of b.now }
{
    BigEndian::read_u16(b)
}

/// Reads the number in the first three bytes, the highest byte first.
pub fn be24(b: &[u8]) -> u32
    requires { 3 ≤ length b.now }
    ensures value { result ≡ be24_of b.now }
    ensures range { result < 2 ^ 24 }
{
    BigEndian::read_u24(b)
}

/// Reads the number in the first four bytes, the highest byte first.
pub fn be32(b: &[u8]) -> u32
    requires { 4 ≤ length b.now }
    ensures { result ≡ be32_of b.now }
{
    BigEndian::read_u32(b)
}

/// Reads the number in the first four bytes, the lowest byte first.
pub fn le32(b: &[u8]) -> u32
    requires { 4 ≤ length b.now }
    ensures { result ≡ le32_of b.now }
{
    LittleEndian::read_u32(b)
}
