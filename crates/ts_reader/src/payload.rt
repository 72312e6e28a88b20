//! Checks the payload of a PES packet.
ghost use Rattle.std.specs.Prelude.{◌≡◌, ◌<◌, ◌≤◌, length, drop, option_map, IfSome};
ghost use Rattle.ts_reader.specs.Payloads.{behind_unit, is_carried, is_stream, unit_length};

use aac_adts::read_adts;
use avc_annexb::first_triple;

// Gives the bytes after the first ones.
fn after(bytes: &[u8], count: usize) -> &[u8]
    requires { count ≤ length bytes.now }
    ensures { result.now ≡ drop count bytes.now }
{
    &bytes[count..]
}

// Gives the number of bytes before the first 00 00 that a byte of at most 2 follows.
#[tactic(auto, unfolding(crate::specs::Payloads::unit_length))]
fn unit_len(bytes: &[u8]) -> usize
    ensures value { result ≡ unit_length bytes.now }
    ensures within { result ≤ length bytes.now }
{
    match first_triple(bytes) {
        Some(at) => at,
        None => bytes.len(),
    }
}

// Gives the bytes after the NAL unit at the front, which has a start code before it.
#[tactic(auto, using(std::proofs::lemmas::Bool::Decides::nat_tests), unfolding(crate::specs::Payloads::behind_unit))]
fn behind(bytes: &[u8]) -> Option<&[u8]>
    ensures value { option_map (λ r. r.now) result ≡ behind_unit bytes.now }
    ensures shorter { IfSome result (λ r. length r.now < length bytes.now) }
{
    if !bytes.starts_with(&[0, 0, 0, 1]) {
        return None;
    }
    let unit = after(bytes, 4);
    let len = unit_len(unit);
    if len == 0 || unit[len - 1] == 0 {
        return None;
    }
    Some(after(unit, len))
}

// Tells whether NAL units with start codes fill the bytes.
fn units_fill(bytes: &[u8]) -> bool
    ensures { result ≡ is_stream bytes.now }
{
    let mut left = bytes;
    while !left.is_empty() {
        match behind(left) {
            None => return false,
            Some(rest) => left = rest,
        }
    }
    true
}

/// Tells whether the bytes are an access unit that begins with a delimiter, or an ADTS frame.
pub(crate) fn may_be_carried(video: bool, bytes: &[u8]) -> bool
    ensures { result ≡ is_carried video bytes.now }
{
    if video {
        bytes.starts_with(&[0, 0, 0, 1, 9, 0xF0]) && units_fill(bytes)
    } else {
        read_adts(bytes).is_ok()
    }
}
