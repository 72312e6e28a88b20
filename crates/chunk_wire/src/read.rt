ghost use Rattle.std.specs.Prelude.{◌≡◌, ◌≤◌, ◌<◌, length, MatchOption};
ghost use Rattle.chunk_wire.specs.Layout.{basic_of, basic_size, id_in, head_of, head_in, head_size, IsBasicAt, IsHeadAt};

use crate::{Basic, Head};
use relay_base::{be24, le32};

// Returns the number of bytes of the basic header that `b` begins with.
#[tactic(auto, using(std::proofs::lemmas::Bool::Decides::nat_tests), unfolding(crate::specs::Layout::basic_size))]
fn size_of_basic(b: &[u8]) -> usize
    requires { 0 < length b.now }
    ensures { result ≡ basic_size b.now }
{
    let number = b[0] % 64;
    if number == 0 {
        return 2;
    }
    if number == 1 {
        return 3;
    }
    1
}

// Returns the id in a whole basic header.
#[tactic(auto, using(std::proofs::lemmas::Bool::Decides::nat_tests), unfolding(crate::specs::Layout::basic_size, crate::specs::Layout::id_in))]
fn id_of_basic(b: &[u8]) -> u32
    requires some { 0 < length b.now }
    requires whole { basic_size b.now ≤ length b.now }
    ensures { result ≡ id_in b.now }
{
    let number = b[0] % 64;
    if number == 0 {
        return b[1] as u32 + 64;
    }
    if number == 1 {
        return b[2] as u32 * 256 + b[1] as u32 + 64;
    }
    number as u32
}

/// Reads the basic header that `b` begins with, and returns the number of its bytes too, 1 to 3 (5.3.1.1).
/// `None` exactly if `b` ends before the header does.
#[tactic(auto, using(crate::proofs::Sizes::basic_size_some))]
pub fn read_basic(b: &[u8]) -> Option<(Basic, usize)>
    ensures exact { result ≡ basic_of b.now }
    ensures parts { MatchOption result (length b.now < basic_size b.now) (λ p. IsBasicAt b.now p.0 p.1) }
{
    if b.is_empty() {
        return None;
    }
    let size = size_of_basic(b);
    if b.len() < size {
        return None;
    }
    let format = b[0] / 64;
    let id = id_of_basic(b);
    Some((Basic { format, id }, size))
}

// Returns the number of bytes of a message header.
#[tactic(auto, using(std::proofs::lemmas::Bool::Decides::nat_tests), unfolding(crate::specs::Layout::head_size))]
fn size_of_head(format: u8) -> usize
    ensures { result ≡ head_size format }
{
    if format == 0 {
        return 11;
    }
    if format == 1 {
        return 7;
    }
    if format == 2 {
        return 3;
    }
    0
}

// Reads the fields of a whole message header.
#[tactic(auto, using(std::proofs::lemmas::Bool::Decides::nat_tests), unfolding(crate::specs::Layout::head_size, crate::specs::Layout::head_in))]
fn fields(basic: Basic, b: &[u8]) -> Head
    requires { head_size basic.format ≤ length b.now }
    ensures { result ≡ head_in basic b.now }
{
    let Basic { format, id } = basic;
    let mut head = Head {
        format,
        id,
        field: 0,
        length: 0,
        kind: 0,
        stream: 0,
    };
    if format < 3 {
        head.field = be24(b);
    }
    if format < 2 {
        head.length = be24(&b[3..]);
        head.kind = b[6];
    }
    if format == 0 {
        head.stream = le32(&b[7..]);
    }
    head
}

/// Reads the message header that `b` begins with, after a basic header, and returns the number of its bytes
/// too. It has 11, 7, 3 or 0 bytes by its format (5.3.1.2). `None` exactly if `b` ends before the header
/// does.
pub fn read_head(basic: Basic, b: &[u8]) -> Option<(Head, usize)>
    ensures exact { result ≡ head_of basic b.now }
    ensures parts { MatchOption result (length b.now < head_size basic.format) (λ p. IsHeadAt basic b.now p.0 p.1) }
{
    let size = size_of_head(basic.format);
    if b.len() < size {
        return None;
    }
    Some((fields(basic, b), size))
}
