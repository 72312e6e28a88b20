ghost use Rattle.std.specs.Prelude.{◌≡◌, ◌≤◌, ℕ, List, length, drop, option_map, IfOk, Ok};
ghost use Rattle.avc_annexb.specs.Nal.{AreNals, Gives, IsFront};
ghost use Rattle.avc_annexb.specs.AnnexB.{annexb};
ghost use Rattle.avc_annexb.specs.Split.{is_start, start_in, end_in, started_at, started_front, split_of};

use crate::nal::{after, checked};
use crate::{AvcFail, NalList};
use av_unit::Bytes;
use relay_base::be32;
use std::alloc::Global;

/// Tells whether 00 00 00 01 stands at the front.
fn begins(bytes: &[u8]) -> bool
    ensures { result ≡ is_start bytes.now }
{
    if bytes.len() < 4 {
        return false;
    }
    be32(bytes) == 1
}

/// Finds the place of the first 00 00 00 01.
fn first_start(bytes: &[u8]) -> Option<usize>
    ensures { result ≡ start_in bytes.now }
{
    let mut left = bytes;
    while left.len() >= 4 {
        if left[3] > 1 {
            left = after(left, 4);
        } else if begins(left) {
            return Some(bytes.len() - left.len());
        } else {
            left = after(left, 1);
        }
    }
    None
}

/// Finds the end of the unit that begins with the bytes.
#[tactic(auto, using(crate::proofs::Splits::end_within), unfolding(crate::specs::Split::end_in))]
fn unit_end(bytes: &[u8]) -> usize
    ensures value { result ≡ end_in bytes.now }
    ensures most { result ≤ length bytes.now }
{
    match first_start(bytes) {
        Some(at) => at,
        None => bytes.len(),
    }
}

/// Returns the unit behind 00 00 00 01 at the front, and the bytes behind it.
#[tactic(auto, unfolding(crate::specs::Split::started_at))]
fn started_unit(bytes: &[u8]) -> Option<(&[u8], &[u8])>
    ensures { option_map (λ p. (p.0.now, p.1.now)) result ≡ started_at bytes.now }
{
    if !begins(bytes) {
        return None;
    }
    let rest = behind_start(bytes);
    Some(rest.split_at(unit_end(rest)))
}

/// Returns the bytes after the first four.
fn behind_start(bytes: &[u8]) -> &[u8]
    ensures { result.now ≡ drop 4 bytes.now }
{
    &bytes[bytes.len().min(4)..]
}

/// Returns the unit at the front and the bytes behind it, or refuses it as the unit of number `nal` at place
/// `at`.
#[tactic(auto, unfolding(crate::specs::Split::started_front))]
fn front_unit(bytes: &[u8], at: usize, nal: usize) -> Result<(&[u8], &[u8]), AvcFail>
    ensures { IsFront result (started_front at nal bytes.now) }
{
    let Some((unit, rest)) = started_unit(bytes) else {
        return Err(AvcFail::NoStart { at });
    };
    checked(nal, unit)?;
    Ok((unit, rest))
}

/// Reads the NAL units of a byte stream as `to_annexb` writes it: each stands behind `00 00 00 01` (ISO/IEC
/// 14496-10, B.1.1). A unit goes to the next `00 00 00 01` or to the end.
///
/// Refusals are `NoStart`, `EmptyNal`, `Dirty` and `OutOfMemory`.
pub fn split_annexb(alloc: Global, bytes: &[u8]) -> Result<NalList, AvcFail>
    ensures exact { Gives result (split_of bytes.now) }
    ensures found { IfOk result (λ units. bytes.now ≡ annexb units) }
    ensures only { (units : List (List ℕ)) → AreNals units → bytes.now ≡ annexb units → Gives result (Ok units) }
{
    let mut list = Vec::new(alloc);
    let mut left = bytes;
    while !left.is_empty() {
        let at = bytes.len() - left.len();
        let (unit, rest) = front_unit(left, at, list.len())?;
        list.push(Bytes::from_vec(Vec::from_slice(alloc, unit)?))?;
        left = rest;
    }
    Ok(NalList::from_vec(list))
}
