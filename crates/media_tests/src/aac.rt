use crate::rows::{digit, first_row};
use aac_adts::*;
use av_unit::{Bytes, OutOfMemory};
use std::alloc::Global;
use std::test::Fail;

// A row is `c` with a configuration, or `f` with a frame. The first configuration is AAC LC at 44,100 samples
// a second in stereo. In each that follows, one number is a value that isn't read. Likewise a frame of three
// raw bytes is cut off, and each byte of its header altered.
const ROWS: &[u8] = b"c\x12\x10|c\x12|c\x02\x10|c\x2A\x10|c\x16\x90|c\x12\x00|c\x12\x40|\
f\xff\xf1\x50\x80\x01\x5f\xfc\x07\x07\x07|f|f\xff|f\xff\xf1|f\xff\xf1\x50|f\xff\xf1\x50\x80\x01\x5f\xfc\x07\x07|\
f\xfd\xf1\x50\x80\x01\x5f\xfc\x07\x07\x07|f\xff\xf3\x50\x80\x01\x5f\xfc\x07\x07\x07|f\xff\xf1\x52\x80\x01\x5f\xfc\x07\x07\x07|\
f\xff\xf1\x50\x82\x01\x5f\xfc\x07\x07\x07|f\xff\xf1\x50\x80\x03\x5f\xfc\x07\x07\x07|f\xff\xf1\x50\x80\x01\x5d\xfc\x07\x07\x07|\
f\xff\xf1\x50\x80\x01\x5f\xfe\x07\x07\x07|";

// Appends the reason for which a configuration is refused, or its numbers.
fn add_configuration(bytes: &[u8], out: &mut Bytes) -> Result<(), OutOfMemory> {
    match Asc::read(bytes) {
        Ok(asc) => out.append(&[b'=', asc.object, asc.index, asc.channels]),
        Err(AacFail::Short) => out.append(b"s"),
        Err(AacFail::Object { n }) => out.append(&[b'o', n]),
        Err(AacFail::Index { n }) => out.append(&[b'i', n]),
        Err(AacFail::Channels { n }) => out.append(&[b'c', n]),
        Err(_) => out.append(b"?"),
    }
}

// Appends the place at which a frame is refused, or its numbers and the number of its raw bytes.
fn add_frame(bytes: &[u8], out: &mut Bytes) -> Result<(), OutOfMemory> {
    match read_adts(bytes) {
        Ok((asc, raw)) => out.append(&[b'=', asc.object, asc.index, asc.channels, digit(raw)]),
        Err(AacFail::BadAdts { at }) => out.append(&[digit(at)]),
        Err(_) => out.append(b"?"),
    }
}

fn told(alloc: Global, rows: &[u8]) -> Result<Bytes, OutOfMemory> {
    let mut out = Bytes::new(alloc);
    let mut left = rows;
    for _ in 0..rows.len() {
        let Some((row, rest)) = first_row(left) else {
            break;
        };
        match row {
            [b'c', bytes @ ..] => add_configuration(bytes, &mut out)?,
            [_, bytes @ ..] => add_frame(bytes, &mut out)?,
            [] => {}
        }
        left = rest;
    }
    Ok(out)
}

#[test]
fn configurations_and_frames_are_read(rt: HostRuntime) -> Result<(), Fail> {
    let want = b"=\x02\x04\x02so\x00o\x05i\x0dc\x00c\x08=\x02\x04\x023012330123356";
    assert_eq!(rt; told(rt.alloc(), ROWS)?.as_slice(), want.as_slice());
    Ok(())
}

#[test]
fn a_frame_of_nine_raw_bytes(rt: HostRuntime) -> Result<(), Fail> {
    let asc = Asc {
        object: 2,
        index: 4,
        channels: 2,
    };
    let mut out = Bytes::new(rt.alloc());
    adts(asc, b"\x07\x07\x07\x07\x07\x07\x07\x07\x07", &mut out)?;
    let text = b"\xff\xf1\x50\x80\x02\x1f\xfc\x07\x07\x07\x07\x07\x07\x07\x07\x07";
    assert_eq!(rt; out.as_slice(), text.as_slice());
    Ok(())
}
