//! Readers over the bytes that are left. They skip values, and keep little or nothing of them.

ghost use Rattle.std.specs.Prelude.{◌≡◌, ◌+◌, ◌<◌, ◌≤◌, ◌∷◌, [], ℕ, Some, drop, length};
ghost use Rattle.std.specs.Option.{IfSome};
ghost use Rattle.amf0_value.specs.View.{tree};
ghost use Rattle.amf0_value.specs.Refusal.{Stops, StopsAll, scalar_needs, key_refusal};
ghost use Rattle.amf0_value.specs.Reading.{Gives, IsShort, Left, PairsStop, ItemsStop, scalar_byte, container_byte};
ghost use Rattle.amf0_value.specs.Brief.{brief_of, is_bare_byte, HasBare, HasScalar, HasValue, HasMembers, HasItems, HasAll, HasBrief, HasPair, NextAt, PairSoFar, HasKept};

use crate::amf::Amf;
use crate::fail::{Cause, Stop};
use crate::fields::{long_at, short_at, truncated, u16_at, u32_at, u64_at};
use crate::marker::{Container, Marker, Scalar, marker_of};
use crate::reading::{MOST_OPEN, value};
use av_unit::Bytes;
use std::alloc::Global;

/// A value of which only a number, a boolean or a text is kept.
#[derive(Drop)]
pub enum Brief {
    Number(u64),
    Boolean(bool),
    Text(Bytes),
    Other,
}

/// Skips the content behind the marker of a value with no values inside it.
fn skip_scalar(marker: Scalar, body: &[u8]) -> Result<&[u8], Stop>
    ensures { Gives (λ rest. HasScalar (scalar_byte marker ∷ body.now) rest.now) (IsShort body.now (scalar_needs marker body.now)) result }
{
    match marker {
        Scalar::Number => {
            let (_bits, rest) = u64_at(body)?;
            Ok(rest)
        }
        Scalar::Boolean => match body {
            [] => Err(truncated()),
            [_, rest @ ..] => Ok(rest),
        },
        Scalar::Text => {
            let (_text, rest) = short_at(body)?;
            Ok(rest)
        }
        Scalar::Null => Ok(body),
        Scalar::Undefined => Ok(body),
        Scalar::Reference => {
            let (_number, rest) = u16_at(body)?;
            Ok(rest)
        }
        Scalar::Date => skip_date(body),
        Scalar::Long => {
            let (_text, rest) = long_at(body)?;
            Ok(rest)
        }
        Scalar::Unsupported => Ok(body),
        Scalar::Xml => {
            let (_text, rest) = long_at(body)?;
            Ok(rest)
        }
    }
}

/// Skips the time and the zone of a date.
fn skip_date(body: &[u8]) -> Result<&[u8], Stop>
    ensures { Gives (λ rest. HasScalar (11 ∷ body.now) rest.now) (IsShort body.now 10) result }
{
    let (_bits, rest) = u64_at(body)?;
    let (_zone, rest) = u16_at(rest)?;
    Ok(rest)
}

/// Skips the value at the front of the bytes, if it is a whole one with no values inside it.
fn skip_whole(bytes: &[u8]) -> Option<&[u8]>
    ensures { IfSome result (λ rest. HasScalar bytes.now rest.now) }
{
    let (first, body) = match bytes {
        [] => return None,
        [first, body @ ..] => (*first, body),
    };
    match marker_of(first) {
        Some(Marker::Scalar(marker)) => match skip_scalar(marker, body) {
            Ok(rest) => Some(rest),
            Err(_) => None,
        },
        Some(Marker::Container(_)) => None,
        None => None,
    }
}

/// Skips the values of one byte at the front of the bytes, at most `most`, and returns the number of them.
fn skip_bare(bytes: &[u8], most: usize) -> (usize, &[u8])
    ensures most { result.0 ≤ most }
    ensures values { HasBare result.0 bytes.now result.1.now }
{
    let mut rest = bytes;
    let mut count = 0usize;
    while count < most {
        match rest {
            [] => return (count, rest),
            [first, after @ ..] => {
                if !is_bare(*first) {
                    return (count, rest);
                }
                rest = after;
                count += 1;
            }
        }
    }
    (count, rest)
}

/// Tells whether a byte is a whole value: null, undefined or unsupported.
fn is_bare(byte: u8) -> bool
    ensures { result ≡ is_bare_byte byte }
{
    byte == 0x05 || byte == 0x06 || byte == 0x0D
}

/// Skips the value at the front of the bytes, the quick way if it has no values inside it.
#[cycle(skip)]
fn skip_one(bytes: &[u8], outer: u32) -> Result<&[u8], Stop>
    requires { outer ≤ 32 }
    ensures { Gives (λ rest. HasValue outer bytes.now rest.now) (Left (Stops outer bytes.now)) result }
{
    match skip_whole(bytes) {
        Some(rest) => Ok(rest),
        None => skip(bytes, outer),
    }
}

/// Skips some of the values at the front of the bytes, of which there are to be `most`, and returns their
/// number. It skips all values of one byte up to a longer one, or else the longer one.
#[cycle(skip)]
fn skip_some(bytes: &[u8], most: usize, outer: u32) -> Result<(usize, &[u8]), Stop>
    requires outer { outer ≤ 32 }
    requires most { 0 < most }
    ensures { Gives (λ x. (0 < x.0) × (x.0 ≤ most) × HasItems outer x.0 bytes.now x.1.now) (Left (Stops outer bytes.now)) result }
{
    let (bare, behind) = skip_bare(bytes, most);
    if bare > 0 {
        return Ok((bare, behind));
    }
    let rest = skip_one(bytes, outer)?;
    Ok((1, rest))
}

/// Skips the value at the front of the bytes, inside `outer` open containers.
#[cycle(skip)]
pub fn skip(bytes: &[u8], outer: u32) -> Result<&[u8], Stop>
    requires { outer ≤ 32 }
    ensures { Gives (λ rest. HasValue outer bytes.now rest.now) (Left (Stops outer bytes.now)) result }
{
    let (first, body) = match bytes {
        [] => return Err(truncated()),
        [first, body @ ..] => (*first, body),
    };
    match marker_of(first) {
        None => Err(Stop::Refused {
            cause: Cause::BadMarker(first),
            left: bytes.len(),
        }),
        Some(Marker::Scalar(marker)) => skip_scalar(marker, body),
        Some(Marker::Container(marker)) => {
            if outer >= MOST_OPEN {
                return Err(Stop::Refused {
                    cause: Cause::TooDeep,
                    left: bytes.len(),
                });
            }
            skip_container(marker, body, outer)
        }
    }
}

/// Skips the content behind the marker of a container.
#[cycle(skip)]
fn skip_container(marker: Container, body: &[u8], outer: u32) -> Result<&[u8], Stop>
    requires { outer < 32 }
    ensures { Gives (λ rest. HasValue outer (container_byte marker ∷ body.now) rest.now) (Left (Stops outer (container_byte marker ∷ body.now))) result }
{
    match marker {
        Container::Object => {
            let rest = skip_pairs(body, outer + 1)?;
            Ok(rest)
        }
        Container::Ecma => {
            let (_count, rest) = u32_at(body)?;
            let rest = skip_pairs(rest, outer + 1)?;
            Ok(rest)
        }
        Container::Strict => {
            let (count, rest) = u32_at(body)?;
            if rest.len() < count as usize {
                return Err(truncated());
            }
            let rest = skip_values(count, rest, outer + 1)?;
            Ok(rest)
        }
        Container::Typed => {
            let (_name, rest) = short_at(body)?;
            let rest = skip_pairs(rest, outer + 1)?;
            Ok(rest)
        }
    }
}

/// The content at a place for a key: the end of the pairs, or a key without a copy, and the bytes behind it.
enum At<'a> {
    End(&'a [u8]),
    Key(&'a [u8], &'a [u8]),
}

/// Reads a key, or the end of the pairs.
fn key_at(bytes: &[u8]) -> Result<At, Stop>
    ensures { Gives (NextAt bytes.now) (Left (λ r. key_refusal bytes.now ≡ Some r)) result }
{
    let (key, rest) = short_at(bytes)?;
    if key.len() > 0 {
        return Ok(At::Key(key, rest));
    }
    let (last, after) = match rest {
        [] => return Err(truncated()),
        [last, after @ ..] => (*last, after),
    };
    if last != 0x09 {
        return Err(Stop::Refused {
            cause: Cause::BadEnd,
            left: rest.len(),
        });
    }
    Ok(At::End(after))
}

/// Skips keys and their values up to the end of the pairs.
#[cycle(skip)]
fn skip_pairs(bytes: &[u8], outer: u32) -> Result<&[u8], Stop>
    requires { outer ≤ 32 }
    ensures { Gives (λ rest. HasMembers outer bytes.now (0 ∷ 0 ∷ 9 ∷ rest.now)) (Left (PairsStop outer bytes.now)) result }
{
    let mut rest = bytes;
    loop {
        match key_at(rest)? {
            At::End(after) => return Ok(after),
            At::Key(_key, after) => {
                let after = skip_one(after, outer)?;
                rest = after;
            }
        }
    }
}

/// Skips `total` values.
#[cycle(skip)]
fn skip_values(total: u32, bytes: &[u8], outer: u32) -> Result<&[u8], Stop>
    requires { outer ≤ 32 }
    ensures { Gives (λ rest. HasItems outer total bytes.now rest.now) (Left (ItemsStop outer total bytes.now)) result }
{
    let mut rest = bytes;
    let mut left = total as usize;
    while left > 0 {
        let (count, after) = skip_some(rest, left, outer)?;
        rest = after;
        left -= count;
    }
    Ok(rest)
}

/// Skips values up to the end of the bytes.
pub fn skip_all(bytes: &[u8]) -> Result<(), Stop>
    ensures { Gives (λ _. HasAll bytes.now) (Left (StopsAll bytes.now)) result }
{
    let mut rest = bytes;
    while !rest.is_empty() {
        let (_count, after) = skip_some(rest, rest.len(), 0)?;
        rest = after;
    }
    Ok(())
}

/// Reads the value at the front of the bytes. It keeps only a number, a boolean or a text.
pub fn glance(alloc: Global, bytes: &[u8], outer: u32) -> Result<(Brief, &[u8]), Stop>
    requires { outer ≤ 32 }
    ensures { Gives (λ x. HasBrief outer bytes.now x.0 x.1.now) (Left (Stops outer bytes.now)) result }
{
    let first = match bytes {
        [] => return Err(truncated()),
        [first, ..] => *first,
    };
    if first > 0x02 {
        let rest = skip(bytes, outer)?;
        return Ok((Brief::Other, rest));
    }
    let (found, rest) = value(alloc, bytes, outer)?;
    Ok((in_brief(found), rest))
}

/// Returns the part of a value that is kept.
fn in_brief(value: Amf) -> Brief
    ensures { result ≡ brief_of (tree value) }
{
    match value {
        Amf::Number(bits) => Brief::Number(bits),
        Amf::Boolean(flag) => Brief::Boolean(flag),
        Amf::Text(text) => Brief::Text(text),
        Amf::Object(_) | Amf::Null | Amf::Undefined | Amf::Reference(_) => Brief::Other,
        Amf::Ecma { .. } | Amf::Strict(_) | Amf::Date { .. } => Brief::Other,
        Amf::Long(_) | Amf::Unsupported | Amf::Xml(_) | Amf::Typed { .. } => Brief::Other,
    }
}

/// Reads the value at the front of the bytes. If it is an object, the first pair of that key is kept, in
/// brief; all else is skipped.
pub fn pair<'a>(
    alloc: Global,
    bytes: &'a [u8],
    key: &[u8],
) -> Result<(Option<Option<Brief>>, &'a [u8]), Stop>
    ensures { Gives (λ x. HasPair key.now bytes.now x.0 x.1.now) (Left (Stops 0 bytes.now)) result }
{
    let (first, body) = match bytes {
        [] => return Err(truncated()),
        [first, body @ ..] => (*first, body),
    };
    if first != 0x03 {
        let rest = skip(bytes, 0)?;
        return Ok((None, rest));
    }
    let (found, rest) = first_pair(alloc, body, key)?;
    Ok((Some(found), rest))
}

/// Skips the pairs of an outermost object, and keeps the first pair of that key, in brief.
fn first_pair<'a>(
    alloc: Global,
    bytes: &'a [u8],
    key: &[u8],
) -> Result<(Option<Brief>, &'a [u8]), Stop>
    ensures { Gives (λ x. PairSoFar key.now bytes.now x.0 (0 ∷ 0 ∷ 9 ∷ x.1.now)) (Left (PairsStop 1 bytes.now)) result }
{
    let mut kept = None;
    let mut rest = bytes;
    loop {
        match key_at(rest)? {
            At::End(after) => return Ok((kept, after)),
            At::Key(at, after) => {
                let (found, after) = pair_value(alloc, kept, at == key, after)?;
                kept = found;
                rest = after;
            }
        }
    }
}

/// Reads the value of a key. It keeps the value, in brief, if nothing is kept yet and the key is the
/// requested one.
fn pair_value(
    alloc: Global,
    kept: Option<Brief>,
    same: bool,
    bytes: &[u8],
) -> Result<(Option<Brief>, &[u8]), Stop>
    ensures { Gives (λ x. HasKept kept same bytes.now x.0 x.1.now) (Left (Stops 1 bytes.now)) result }
{
    match kept {
        Some(found) => {
            let rest = skip(bytes, 1)?;
            Ok((Some(found), rest))
        }
        None => {
            if same {
                let (found, rest) = glance(alloc, bytes, 1)?;
                Ok((Some(found), rest))
            } else {
                let rest = skip(bytes, 1)?;
                Ok((None, rest))
            }
        }
    }
}
