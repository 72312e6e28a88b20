ghost use Rattle.std.specs.Prelude.{◌≡◌, ◌≤◌, length, true, IfOk};
ghost use Rattle.std.specs.List.{list_all};
ghost use Rattle.stream_model.specs.Names.{within, is_name_byte, is_name};

use av_unit::{Bytes, OutOfMemory};
use std::marker::Model;

/// A name that a caller gives to a broadcast: at most 64 bytes. Contracts see it as the list of its bytes.
#[derive(Debug, Drop)]
pub struct ShortName {
    bytes: Bytes,
}

impl Model for ShortName {
    ghost use Rattle.std.specs.Prelude.{List, ℕ, ◌≤◌, length};

    ghost Value = { List ℕ };

    ghost view = { λ n. n.bytes };

    ghost invariant = { λ n. length n.bytes ≤ 64 };

    ghost inverse = { λ b. record { bytes = b } };
}

impl ShortName {
    /// Makes a name of these bytes.
    pub fn new(bytes: Bytes) -> ShortName
        requires { length bytes ≤ 64 }
        ensures { result ≡ bytes }
    {
        ShortName { bytes }
    }

    /// Gives the bytes.
    pub fn as_slice(&self) -> &[u8]
        ensures bytes { result.now ≡ self.now }
        ensures few { length self.now ≤ 64 }
    {
        self.bytes.as_slice()
    }

    /// Copies the name, to memory of its own.
    pub fn again(&self) -> Result<ShortName, OutOfMemory>
        ensures { IfOk result (λ other. other ≡ self.now) }
    {
        Ok(ShortName {
            bytes: self.bytes.again()?,
        })
    }

    /// Gives the bytes, in the memory that they have.
    pub fn into_bytes(self) -> Bytes
        ensures bytes { result ≡ self }
        ensures few { length self ≤ 64 }
    {
        self.bytes
    }
}

/// Tells whether bytes are a name that a caller may give to a broadcast: 1 to 64 letters, digits, `.`, `_` or
/// `-`.
pub fn is_name(bytes: &[u8]) -> bool
    ensures value { result ≡ is_name bytes.now }
    ensures few { result ≡ true → length bytes.now ≤ 64 }
{
    is_name_length(bytes.len()) && are_name_bytes(bytes)
}

fn is_name_length(length: usize) -> bool
    ensures value { result ≡ within 1 64 length }
    ensures few { result ≡ true → length ≤ 64 }
{
    1 <= length && length <= 64
}

fn are_name_bytes(bytes: &[u8]) -> bool
    ensures { result ≡ list_all is_name_byte bytes.now }
{
    bytes.iter().all(|b| is_name_byte(*b))
}

fn is_name_byte(b: u8) -> bool
    ensures { result ≡ is_name_byte b }
{
    matches!(b, b'A'..=b'Z' | b'a'..=b'z' | b'0'..=b'9' | b'.' | b'_' | b'-')
}
