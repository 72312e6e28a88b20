ghost use Rattle.std.specs.Prelude.{◌<◌, ◌^◌};

use crate::rows::{digit, first_row};
use amf0_value::walk::{Brief, glance, pair, skip, skip_all};
use amf0_value::{AmfFail, bits_of, decode, decode_all, encode, whole_of};
use av_unit::{Bytes, OutOfMemory};
use std::alloc::Global;
use std::test::Fail;

/// One value of each marker, of booleans both, and an object with a class's name that has no pairs.
const EACH_MARKER: &[u8] =
    b"\x00\x7F\xF8\x00\x00\x00\x00\x00\x01\x01\x00\x01\x01\x02\x00\x02\xFF\x00\
\x03\x00\x01a\x05\x00\x00\x09\x05\x06\x07\x01\x02\x08\x00\x00\x00\x00\x00\x01a\x06\x00\x00\x09\
\x0A\x00\x00\x00\x02\x05\x06\x0B\x01\x02\x03\x04\x05\x06\x07\x08\x09\x0A\x0C\x00\x00\x00\x01b\x0D\
\x0F\x00\x00\x00\x01<\x10\x00\x01N\x00\x01k\x0D\x00\x00\x09\x10\x00\x00\x00\x00\x09";

/// Writes the value at the front again, and gives the bytes after it.
fn front_again<'a>(alloc: Global, bytes: &'a [u8], out: &mut Bytes) -> Result<&'a [u8], AmfFail> {
    let (value, used) = decode(alloc, bytes)?;
    match encode(&value, out) {
        Ok(()) => Ok(&bytes[used..]),
        Err(_) => Err(AmfFail::OutOfMemory),
    }
}

/// Reads values one after the other, and gives them as `encode` writes them.
fn again(alloc: Global, bytes: &[u8]) -> Result<Bytes, AmfFail> {
    let mut out = Bytes::new(alloc);
    let mut left = bytes;
    for _ in 0..bytes.len() {
        if left.is_empty() {
            break;
        }
        left = front_again(alloc, left, &mut out)?;
    }
    Ok(out)
}

#[test]
fn each_marker_is_read_and_written_again(rt: HostRuntime) -> Result<(), Fail> {
    let alloc = rt.alloc();
    assert_eq!(rt; again(alloc, EACH_MARKER)?.as_slice(), EACH_MARKER);
    assert_eq!(rt; decode_all(alloc, EACH_MARKER)?.len(), 16);
    assert!(rt; skip_all(EACH_MARKER).is_ok());
    Ok(())
}

/// Values that are cut off, have no end or no marker.
const REFUSED: &[u8] =
    b"|\x03\x00\x00\x08|\x02\x00\x05a|\x0A\xFF\xFF\xFF\xFF|\x0A\x00\x00\x00\x02\x04|\x0A\x00\x00\x00\x01\x04|\
\x11|\x0C\x00\x01\x00\x00a|\x03\x00\x00|\x03\x00\x01a|\x08\x00\x00\x00\x09\x00\x01a\x0E|\x00\x01\x02\x03\x04\x05\x06\x07|";

/// Gives the letter of a refusal, and its place as a digit.
fn refusal(alloc: Global, bytes: &[u8]) -> [u8; 2] {
    let (letter, at) = match decode(alloc, bytes) {
        Ok(_) => (b'-', 0),
        Err(AmfFail::Truncated { at }) => (b't', at),
        Err(AmfFail::BadMarker { at, byte: _ }) => (b'm', at),
        Err(AmfFail::TooDeep { at }) => (b'd', at),
        Err(AmfFail::BadEnd { at }) => (b'e', at),
        Err(AmfFail::OutOfMemory) => (b'!', 0),
    };
    [letter, digit(at)]
}

fn refusals(alloc: Global, rows: &[u8]) -> Result<Bytes, OutOfMemory> {
    let mut out = Bytes::new(alloc);
    let mut left = rows;
    for _ in 0..rows.len() {
        let Some((row, rest)) = first_row(left) else {
            break;
        };
        out.append(&refusal(alloc, row))?;
        left = rest;
    }
    Ok(out)
}

/// Makes `count` strict arrays of one value, each inside the one before, and a null.
fn nested(alloc: Global, count: u32) -> Result<Bytes, OutOfMemory> {
    let mut bytes = Bytes::new(alloc);
    for _ in 0..count {
        bytes.append(b"\x0A\x00\x00\x00\x01")?;
    }
    bytes.append(b"\x05")?;
    Ok(bytes)
}

#[test]
fn refusals_have_their_places(rt: HostRuntime) -> Result<(), Fail> {
    let alloc = rt.alloc();
    assert_eq!(rt;
        refusals(alloc, REFUSED)?.as_slice(),
        b"t0e3t4t5t6m5m0t6t3t4m8t8".as_slice()
    );
    let deep = nested(alloc, 32)?;
    assert_eq!(rt; again(alloc, deep.as_slice())?.as_slice(), deep.as_slice());
    let deeper = nested(alloc, 33)?;
    assert_eq!(rt;
        refusal(alloc, deeper.as_slice()).as_slice(),
        b"d\xD0".as_slice()
    );
    Ok(())
}

/// Tells whether a number has that pattern and no other.
fn has_pattern(number: u64, bits: u64) -> bool
    requires { number < 2 ^ 53 }
{
    bits_of(number) == bits && whole_of(bits) == Some(number)
}

#[test]
fn whole_numbers_have_their_patterns(rt: HostRuntime) {
    assert!(rt; has_pattern(0, 0));
    assert!(rt; has_pattern(1, 0x3FF0_0000_0000_0000));
    assert!(rt; has_pattern(31, 0x403F_0000_0000_0000));
    assert!(rt; has_pattern(1_000_000, 0x412E_8480_0000_0000));
    assert!(rt; has_pattern(9_007_199_254_740_991, 0x433F_FFFF_FFFF_FFFF));
    assert!(rt; whole_of(0x8000_0000_0000_0000).is_none());
    assert!(rt; whole_of(0x3FE0_0000_0000_0000).is_none());
    assert!(rt; whole_of(0x4340_0000_0000_0000).is_none());
}

/// Adds the part of a value that a `Brief` keeps.
pub fn add_brief(brief: &Brief, out: &mut Bytes) -> Result<(), OutOfMemory> {
    match brief {
        Brief::Number(bits) => out.append(&bits.to_be_bytes()),
        Brief::Boolean(true) => out.append(b"+"),
        Brief::Boolean(false) => out.append(b"-"),
        Brief::Text(text) => out.append(text.as_slice()),
        Brief::Other => out.append(b"?"),
    }
}

/// Adds the part of the value at the front that a glance keeps, and the number of bytes after it.
fn add_glance(alloc: Global, bytes: &[u8], out: &mut Bytes) -> Result<(), OutOfMemory> {
    match glance(alloc, bytes, 0) {
        Ok((brief, rest)) => {
            add_brief(&brief, out)?;
            out.append(&[digit(rest.len())])
        }
        Err(_) => out.append(b"!"),
    }
}

/// Adds the result of the search for a key: `-` if there is no object, and `.` if it has no such key.
fn add_found(found: &Option<Option<Brief>>, out: &mut Bytes) -> Result<(), OutOfMemory> {
    match found {
        None => out.append(b"-"),
        Some(None) => out.append(b"."),
        Some(Some(brief)) => add_brief(brief, out),
    }
}

/// Adds the kept part of the first pair of a key, and the number of bytes after the object.
fn add_pair(alloc: Global, bytes: &[u8], key: &[u8], out: &mut Bytes) -> Result<(), OutOfMemory> {
    match pair(alloc, bytes, key) {
        Ok((found, rest)) => {
            add_found(&found, out)?;
            out.append(&[digit(rest.len())])
        }
        Err(_) => out.append(b"!"),
    }
}

/// Gives the number of bytes after the value at the front.
fn behind(bytes: &[u8]) -> usize {
    match skip(bytes, 32) {
        Ok(rest) => rest.len(),
        Err(_) => bytes.len(),
    }
}

/// Gives the value at the front of each row, and the pair of `app` if it is an object.
fn kept(alloc: Global, rows: &[u8]) -> Result<Bytes, OutOfMemory> {
    let mut out = Bytes::new(alloc);
    let mut left = rows;
    for _ in 0..rows.len() {
        let Some((row, rest)) = first_row(left) else {
            break;
        };
        add_glance(alloc, row, &mut out)?;
        add_pair(alloc, row, b"app", &mut out)?;
        out.append(b" ")?;
        left = rest;
    }
    Ok(out)
}

#[test]
fn numbers_booleans_and_texts_are_kept(rt: HostRuntime) -> Result<(), Fail> {
    let rows =
        b"\x00?\xF0\x00\x00\x00\x00\x00\x00|\x01\x01\x05|\x02\x00\x04live|\x0C\x00\x00\x00\x01a\x06|\
\x03\x00\x01a\x05\x00\x03app\x02\x00\x04live\x00\x03app\x05\x00\x00\x09\x06|\x03\x00\x02ap\x05\x00\x00\x09|";
    assert_eq!(rt;
        kept(rt.alloc(), rows)?.as_slice(),
        b"?\xF0\x00\x00\x00\x00\x00\x000-0 +1-1 live0-0 ?1-1 ?1live1 ?0.0 ".as_slice()
    );
    assert_eq!(rt; behind(b"\x05\x77"), 1);
    Ok(())
}
