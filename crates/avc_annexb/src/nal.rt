//! One NAL unit: the test whether its bytes may be one.
ghost use Rattle.std.specs.Prelude.{◌≡◌, ◌<◌, ◌≤◌, ◌-◌, length, drop, IfSome};
ghost use Rattle.avc_annexb.specs.Nal.{is_triple, triple_in, further, dirty_in, verdict, refusal_of};

use crate::AvcFail;
use memchr::memchr;

/// Returns the bytes after the first `count`.
pub(crate) fn after(bytes: &[u8], count: usize) -> &[u8]
    requires { count ≤ length bytes.now }
    ensures { result.now ≡ drop count bytes.now }
{
    &bytes[count..]
}

/// Returns the bytes from the first zero byte on, or none if there is no zero byte.
fn from_zero(bytes: &[u8]) -> &[u8]
    ensures within { length result.now ≤ length bytes.now }
    ensures place { further (length bytes.now - length result.now) (triple_in result.now) ≡ triple_in bytes.now }
{
    match memchr(0, bytes) {
        Some(at) => after(bytes, at),
        None => &[],
    }
}

/// Tells whether three bytes that no unit has stand at the front: 00 00, and a byte of at most 2.
#[tactic(auto, using(std::proofs::lemmas::Bool::Decides::nat_tests))]
fn begins_triple(bytes: &[u8]) -> bool
    ensures { result ≡ is_triple bytes.now }
{
    match bytes {
        [first, second, third, ..] => *first == 0 && *second == 0 && *third <= 2,
        _ => false,
    }
}

/// Finds the place of the first three bytes that no unit has: 00 00, and a byte of at most 2.
pub fn first_triple(bytes: &[u8]) -> Option<usize>
    ensures value { result ≡ triple_in bytes.now }
    ensures within { IfSome result (λ at. at < length bytes.now) }
{
    let mut left = from_zero(bytes);
    while !left.is_empty() {
        if begins_triple(left) {
            return Some(bytes.len() - left.len());
        }
        left = from_zero(after(left, 1));
    }
    None
}

/// Finds the place at which bytes can't be a unit's.
#[tactic(auto, using(std::proofs::lemmas::Bool::Decides::nat_tests), unfolding(crate::specs::Nal::dirty_in))]
fn first_dirty(bytes: &[u8]) -> Option<usize>
    ensures { result ≡ dirty_in bytes.now }
{
    if let Some(at) = first_triple(bytes) {
        return Some(at);
    }
    match bytes {
        [.., 0] => Some(bytes.len() - 1),
        _ => None,
    }
}

/// Refuses bytes that can't be a unit, with `nal` as the number of the unit.
#[tactic(auto, unfolding(crate::specs::Nal::verdict))]
pub(crate) fn checked(nal: usize, bytes: &[u8]) -> Result<(), AvcFail>
    ensures { refusal_of result ≡ verdict nal bytes.now }
{
    if bytes.is_empty() {
        return Err(AvcFail::EmptyNal { nal });
    }
    match first_dirty(bytes) {
        Some(at) => Err(AvcFail::Dirty { nal, at }),
        None => Ok(()),
    }
}
