//! The numbers of bytes of chunks.
ghost use Rattle.std.specs.Prelude.{◌≡◌, ◌≤◌, ◌<◌, ◌^◌, ℕ, List, length};
ghost use Rattle.chunk_wire.specs.declared.headers.Head.{Head};
ghost use Rattle.chunk_wire.specs.Written.{basic_bytes, field_bytes};
ghost use Rattle.chunk_writer.specs.Written.{extended_bytes, header_with, message_bytes, spread};

use crate::Begun;

// Returns the number of bytes of a basic header (5.3.1.1).
#[tactic(auto, using(std::proofs::lemmas::Bool::Decides::nat_tests), unfolding(chunk_wire::specs::Written::basic_bytes))]
fn basic_len(id: u32) -> usize
    ensures value { (format : ℕ) → length (basic_bytes format id) ≡ result }
    ensures most { result ≤ 3 }
{
    match id {
        0..64 => 1,
        64..320 => 2,
        _ => 3,
    }
}

// Returns the number of bytes of a message header of this format (5.3.1.2).
#[tactic(auto, using(std::proofs::lemmas::Bool::Decides::nat_tests), unfolding(chunk_wire::specs::Written::field_bytes))]
fn fields_len(format: u8) -> usize
    ensures value { (h : Head) → h.format ≡ format → length (field_bytes h) ≡ result }
    ensures most { result ≤ 11 }
    ensures none { format ≡ 3 → result ≡ 0 }
{
    match format {
        0 => 11,
        1 => 7,
        2 => 3,
        _ => 0,
    }
}

// Returns the number of bytes of the header of a chunk of the message.
#[tactic(auto, unfolding(crate::specs::Written::header_with, crate::specs::Written::extended_bytes))]
pub(crate) fn header_len(format: u8, begun: &Begun) -> usize
    ensures value { length (header_with format begun.now) ≡ result }
    ensures most { result ≤ 18 }
    ensures further { format ≡ 3 → result ≤ 7 }
{
    let extended = if begun.terms.extended { 4 } else { 0 };
    basic_len(begun.id) + fields_len(format) + extended
}

// Returns the number of bytes of a payload with the headers in it, if the chunk before has room for `room`
// bytes.
#[tactic(auto, using(crate::proofs::Counted::spread_by, std::proofs::lemmas::Grind::div_ceil_times))]
pub(crate) fn spread_len(header: usize, size: usize, room: usize, len: usize) -> usize
    requires header { header ≤ 7 }
    requires size { 1 ≤ size }
    requires len { len < 2 ^ 24 }
    ensures value { (h body : List ℕ) → length h ≡ header → length body ≡ len → length (spread h size room body) ≡ result }
    ensures most { result < 2 ^ 28 }
{
    if len <= room {
        return len;
    }
    len + (len - room).div_ceil(size) * header
}

/// Returns the number of bytes of a message as chunks, if it is begun so and its body has `len` bytes.
pub(crate) fn message_len(begun: &Begun, size: usize, len: usize) -> usize
    requires size { 1 ≤ size }
    requires len { len < 2 ^ 24 }
    ensures value { (body : List ℕ) → length body ≡ len → length (message_bytes size begun.now body) ≡ result }
    ensures most { result < 2 ^ 29 }
{
    header_len(begun.format, begun) + spread_len(header_len(3, begun), size, size, len)
}
