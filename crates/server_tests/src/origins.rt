//! The messages of an origin.

use crate::names::bytes;
use av_unit::{Bytes, OutOfMemory};
use std::alloc::Global;

// The answers of an origin to `connect` and `createStream`: the results of transactions 1 and 2, the second
// with stream 1.
const ANSWERS: &[u8] =
    b"\x03\x00\x00\x00\x00\x00\x15\x14\x00\x00\x00\x00\x02\x00\x07_result\x00?\xf0\x00\x00\x00\x00\x00\x00\x05\x05\
    \x03\x00\x00\x00\x00\x00\x1d\x14\x00\x00\x00\x00\x02\x00\x07_result\x00@\x00\x00\x00\x00\x00\x00\x00\x05\x00?\xf0\x00\x00\x00\x00\x00\x00";

// Its refusal of `connect`.
const ERROR: &[u8] =
    b"\x03\x00\x00\x00\x00\x00\x14\x14\x00\x00\x00\x00\x02\x00\x06_error\x00?\xf0\x00\x00\x00\x00\x00\x00\x05\x05";

// A control message that is too short.
const SHORT: &[u8] = b"\x02\x00\x00\x00\x00\x00\x02\x01\x00\x00\x00\x00\x00\x00";

const STATUS: &[u8] =
    b"\x02\x00\x08onStatus\x00\x00\x00\x00\x00\x00\x00\x00\x00\x05\x03\x00\x05level\x02\x00\x06status\x00\x04code\x02\x00";

// A message on message stream 1, in one chunk.
fn message(out: &mut Bytes, kind: u8, body: &[u8]) -> Result<(), OutOfMemory> {
    let Ok(len) = u8::try_from(body.len()) else {
        return Err(OutOfMemory);
    };
    out.append(&[6, 0, 0, 5, 0, 0, len, kind, 1, 0, 0, 0])?;
    out.append(body)
}

// A status with that code.
fn status(alloc: Global, out: &mut Bytes, code: &[u8]) -> Result<(), OutOfMemory> {
    let Ok(len) = u8::try_from(code.len()) else {
        return Err(OutOfMemory);
    };
    let mut body = bytes(alloc, STATUS)?;
    body.append(&[len])?;
    body.append(code)?;
    body.append(b"\x00\x00\x09")?;
    message(out, 20, body.as_slice())
}

// Adds the message of a letter.
fn say(alloc: Global, out: &mut Bytes, letter: u8) -> Result<(), OutOfMemory> {
    match letter {
        b'A' => out.append(ANSWERS),
        b'E' => out.append(ERROR),
        b'C' => out.append(SHORT),
        b'S' => status(alloc, out, b"NetStream.Play.Start"),
        b'P' => status(alloc, out, b"NetStream.Play.PublishNotify"),
        b'U' => status(alloc, out, b"NetStream.Play.UnpublishNotify"),
        b'm' => message(out, 18, b"\x02\x00\x0aonMetaData"),
        b'v' => message(out, 9, b"\x17\x00\x00\x00\x00"),
        b'a' => message(out, 8, b"\xaf\x00\x12\x10"),
        b'k' => message(out, 9, b"\x17\x01\x00\x00\x00"),
        b'i' => message(out, 9, b"\x27\x01\x00\x00\x00"),
        b'd' => message(out, 9, b"\x27\x01\x00\x00\x00\x00\x00\x00\x02\x01\x9a"),
        b's' => message(out, 8, b"\xaf\x01\x21\x1b"),
        _ => message(out, 9, b"\x17\x02\x00\x00\x00"),
    }
}

/// Returns the bytes of an origin: its handshake, which begins with this byte, and a message for each
/// letter.
pub fn said(alloc: Global, version: u8, letters: &[u8]) -> Result<Bytes, OutOfMemory> {
    let mut said = bytes(alloc, &[version])?;
    said.append(&[0; 3_072])?;
    for letter in letters {
        say(alloc, &mut said, *letter)?;
    }
    Ok(said)
}
