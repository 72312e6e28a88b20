ghost use Rattle.std.specs.Prelude.{◌≡◌, ℕ, ◌≤◌, ◌⊎◌, ◌++◌, List, length, option_map, IfOk, IfErr, OnOk, OnErr, Ok, Err};
ghost use Rattle.avc_annexb.specs.Nal.{Gives, IsFront};
ghost use Rattle.avc_annexb.specs.Prefixed.{IsSize, Nals, length_at, unit_at, front_of, nals_of};
ghost use Rattle.avc_annexb.specs.AnnexB.{kept_of, behind};

use crate::annexb::put_unless_delimiter;
use crate::nal::checked;
use crate::{AvcFail, NalList};
use av_unit::Bytes;
use relay_base::{be16, be32};
use std::alloc::Global;

/// Reads the length at the front. Its bytes must be there.
#[tactic(auto, using(std::proofs::lemmas::Bool::Decides::nat_tests), unfolding(crate::specs::Prefixed::length_at))]
fn length_in(bytes: &[u8], size: u8) -> usize
    requires size { IsSize size }
    requires whole { size ≤ length bytes.now }
    ensures { result ≡ length_at size bytes.now }
{
    match size {
        1 => bytes[0] as usize,
        2 => be16(bytes) as usize,
        _ => be32(bytes) as usize,
    }
}

/// Returns the unit at the front, behind its length, and the bytes behind both, if the whole unit is there.
#[tactic(auto, using(std::proofs::lemmas::Bool::Decides::nat_tests), unfolding(crate::specs::Prefixed::unit_at))]
fn unit_in(bytes: &[u8], size: u8) -> Option<(&[u8], &[u8])>
    requires { IsSize size }
    ensures { option_map (λ p. (p.0.now, p.1.now)) result ≡ unit_at size bytes.now }
{
    let from = size as usize;
    if bytes.len() < from {
        return None;
    }
    let len = length_in(bytes, size);
    if bytes.len() - from < len {
        return None;
    }
    Some(bytes[from..].split_at(len))
}

/// Returns the unit at the front and the bytes behind it, or refuses it as the unit of number `nal`. The
/// refusal is `missing` if the unit isn't whole.
#[tactic(auto, unfolding(crate::specs::Prefixed::front_of))]
pub(crate) fn front(
    bytes: &[u8],
    size: u8,
    nal: usize,
    missing: AvcFail,
) -> Result<(&[u8], &[u8]), AvcFail>
    requires { IsSize size }
    ensures { IsFront result (front_of missing nal size bytes.now) }
{
    let Some((unit, rest)) = unit_in(bytes, size) else {
        return Err(missing);
    };
    checked(nal, unit)?;
    Ok((unit, rest))
}

/// Reads the NAL units that fill the bytes, each behind its length of `size` bytes, which is 1, 2 or 4.
///
/// Refusals are `PastEnd`, `EmptyNal`, `Dirty` and `OutOfMemory`.
pub fn nals(alloc: Global, bytes: &[u8], size: u8) -> Result<NalList, AvcFail>
    requires { IsSize size }
    ensures exact { Gives result (nals_of size bytes.now) }
    ensures found { IfOk result (λ units. Nals size units bytes.now) }
    ensures only { (units : List (List ℕ)) → Nals size units bytes.now → Gives result (Ok units) }
{
    let mut list = Vec::new(alloc);
    let mut left = bytes;
    while !left.is_empty() {
        let at = bytes.len() - left.len();
        let (unit, rest) = front(left, size, list.len(), AvcFail::PastEnd { at })?;
        list.push(Bytes::from_vec(Vec::from_slice(alloc, unit)?))?;
        left = rest;
    }
    Ok(NalList::from_vec(list))
}

/// Appends the units that fill the bytes as a byte stream, without access unit delimiters. Each stands behind
/// its length of `size` bytes, which is 1, 2 or 4. A unit is copied once.
///
/// Refusals are those of `nals`. After a refusal, `out` begins with the bytes that it held before.
pub fn put_nals(bytes: &[u8], size: u8, out: &mut Bytes) -> Result<(), AvcFail>
    requires { IsSize size }
    ensures ok { OnOk result (behind out.old (kept_of size bytes.now) ≡ Ok out.new) }
    ensures err { IfErr result (λ e. (e ≡ AvcFail.OutOfMemory) ⊎ (kept_of size bytes.now ≡ Err e)) }
    ensures left { OnErr result ((more : List ℕ) × (out.new ≡ out.old ++ more)) }
{
    let mut nal = 0;
    let mut left = bytes;
    while !left.is_empty() {
        let at = bytes.len() - left.len();
        let (unit, rest) = front(left, size, nal, AvcFail::PastEnd { at })?;
        put_unless_delimiter(unit, out)?;
        nal += 1;
        left = rest;
    }
    Ok(())
}
