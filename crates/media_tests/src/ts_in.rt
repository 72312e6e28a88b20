ghost use Rattle.std.specs.Prelude.{◌≤◌, ◌<◌, ◌+◌, ◌^◌, length, IfOk, OnOk};

use crate::rows::first_row;
use av_unit::{Bytes, OutOfMemory};
use std::alloc::{AllocError, Global};
use std::test::Fail;
use ts_reader::*;

// A frame of ADTS of nine raw bytes behind its header, at time 0.
const FRAME: &[u8] =
    b"\x00\x00\x01\xc0\x00\x18\x80\x80\x05\x21\x00\x01\x00\x01\xff\xf1\x50\x80\x02\x1f\xfc123456789";

// The same with a length of one byte more, and with another first byte.
const LONG_FRAME: &[u8] =
    b"\x00\x00\x01\xc0\x00\x19\x80\x80\x05\x21\x00\x01\x00\x01\xff\xf1\x50\x80\x02\x1f\xfc123456789";

const NO_FRAME: &[u8] =
    b"\x00\x00\x01\xc0\x00\x18\x80\x80\x05\x21\x00\x01\x00\x01\xfe\xf1\x50\x80\x02\x1f\xfc123456789";

// An access unit with a delimiter, at the last times: presentation 8,589,934,412 and decoding 8,589,934,502.
const PICTURE: &[u8] =
    b"\x00\x00\x01\xe0\x00\x00\x80\xc0\x0a\x3f\xff\xff\xfe\x99\x1f\xff\xff\xff\x4d\x00\x00\x00\x01\x09\xf0\x00\x00\x00\x01\x65\x88";

// An access unit without a delimiter, one that ends in a zero byte, and one whose times are the same though
// both are there.
const BARE_PICTURE: &[u8] =
    b"\x00\x00\x01\xe0\x00\x00\x80\xc0\x0a\x3f\xff\xff\xfe\x99\x1f\xff\xff\xff\x4d\x00\x00\x00\x01\x65\x88";

const ENDED_PICTURE: &[u8] =
    b"\x00\x00\x01\xe0\x00\x00\x80\xc0\x0a\x3f\xff\xff\xfe\x99\x1f\xff\xff\xff\x4d\x00\x00\x00\x01\x09\xf0\x00\x00\x00\x01\x65\x88\x00";

const SAME_TIMES: &[u8] =
    b"\x00\x00\x01\xe0\x00\x00\x80\xc0\x0a\x31\x00\x01\x00\x01\x11\x00\x01\x00\x01\x00\x00\x00\x01\x09\xf0\x00\x00\x00\x01\x65\x88";

// Returns the first and the last bytes of a letter's packet; 0xFF fills the space between. Its counter is 0.
// The checks of sections were computed outside.
fn packet(letter: u8) -> (&'static [u8], &'static [u8]) {
    match letter {
        // Tables: the association, both streams, audio alone, video alone, none, and each in the place of the
        // other.
        b'A' => (
            b"\x47\x40\x00\x10\x00\x00\xb0\x0d\x00\x01\xc1\x00\x00\x00\x01\xf0\x00\x2a\xb1\x04\xb2",
            b"",
        ),
        b'B' => (
            b"\x47\x50\x00\x10\x00\x02\xb0\x17\x00\x01\xc1\x00\x00\xe1\x00\xf0\x00\x1b\xe1\x00\xf0\x00\x0f\xe1\x01\xf0\x00\x2f\x44\xb9\x9b",
            b"",
        ),
        b'S' => (
            b"\x47\x50\x00\x10\x00\x02\xb0\x12\x00\x01\xc1\x00\x00\xe1\x01\xf0\x00\x0f\xe1\x01\xf0\x00\xec\xe2\xb0\x94",
            b"",
        ),
        b'P' => (
            b"\x47\x50\x00\x10\x00\x02\xb0\x12\x00\x01\xc3\x00\x00\xe1\x00\xf0\x00\x1b\xe1\x00\xf0\x00\x1a\x50\x8b\x5a",
            b"",
        ),
        b'N' => (
            b"\x47\x50\x00\x10\x00\x02\xb0\x0d\x00\x01\xff\x00\x00\xe1\x01\xf0\x00\x9e\x70\xa0\x64",
            b"",
        ),
        b'T' => (
            b"\x47\x40\x00\x10\x00\x02\xb0\x17\x00\x01\xc1\x00\x00\xe1\x00\xf0\x00\x1b\xe1\x00\xf0\x00\x0f\xe1\x01\xf0\x00\x2f\x44\xb9\x9b",
            b"",
        ),
        b'X' => (
            b"\x47\x50\x00\x10\x00\x00\xb0\x0d\x00\x01\xc1\x00\x00\x00\x01\xf0\x00\x2a\xb1\x04\xb2",
            b"",
        ),
        // Audio, with a clock reference and without.
        b'c' => (b"\x47\x41\x01\x30\x99\x10\xff\xff\xa8\x1c\x7e\x00", FRAME),
        b'f' => (b"\x47\x41\x01\x30\x99\x00", FRAME),
        b'l' => (b"\x47\x41\x01\x30\x99\x00", LONG_FRAME),
        b'n' => (b"\x47\x41\x01\x30\x99\x00", NO_FRAME),
        // Video, with a clock reference but for one, and one of a stream that no table names.
        b'p' => (b"\x47\x41\x00\x30\x98\x10\xff\xff\xa8\x1c\x7e\x00", PICTURE),
        b'q' => (b"\x47\x41\x00\x30\x98\x00", PICTURE),
        b'b' => (
            b"\x47\x41\x00\x30\x9e\x10\xff\xff\xa8\x1c\x7e\x00",
            BARE_PICTURE,
        ),
        b'e' => (
            b"\x47\x41\x00\x30\x97\x10\xff\xff\xa8\x1c\x7e\x00",
            ENDED_PICTURE,
        ),
        b's' => (
            b"\x47\x41\x00\x30\x98\x10\xff\xff\xa8\x1c\x7e\x00",
            SAME_TIMES,
        ),
        b'o' => (b"\x47\x41\x02\x30\x98\x10\xff\xff\xa8\x1c\x7e\x00", PICTURE),
        // A video frame of 431 bytes in three packets, and the first packet without a clock reference.
        b'x' => (
            b"\x47\x41\x00\x30\x07\x10\xff\xff\xa8\x1c\x7e\x00\x00\x00\x01\xe0\x00\x00\x80\xc0\x0a\x3f\xff\xff\xfe\x99\x1f\xff\xff\xff\x4d\
\x00\x00\x00\x01\x09\xf0\x00\x00\x00\x01\x65\x88",
            b"",
        ),
        b'w' => (
            b"\x47\x41\x00\x10\x00\x00\x01\xe0\x00\x00\x80\xc0\x0a\x3f\xff\xff\xfe\x99\x1f\xff\xff\xff\x4d\x00\x00\x00\x01\x09\xf0\x00\x00\x00\x01\x65\x88",
            b"",
        ),
        b'y' => (b"\x47\x01\x00\x10", b""),
        _ => (b"\x47\x01\x00\x30\x70\x00", b""),
    }
}

// Appends the packet of a letter with that counter. A `-` takes one byte away.
fn put(letter: u8, counter: u8, out: &mut Bytes) -> Result<(), OutOfMemory> {
    if letter == b'-' {
        out.truncate(out.len().saturating_sub(1));
        return Ok(());
    }
    let (front, end) = packet(letter);
    if let [a, b, c, d, more @ ..] = front {
        out.append(&[*a, *b, *c, *d | counter])?;
        out.append(more)?;
    }
    for _ in front.len().saturating_add(end.len())..188 {
        out.append(b"\xff")?;
    }
    out.append(end)
}

// Returns a refusal as text.
fn refusal(alloc: Global, fail: TsFail) -> Result<String, AllocError> {
    format!(in alloc; "{fail:?}")
}

// Returns a unit as text: its stream, its times, and its number of bytes.
fn unit_text(alloc: Global, unit: &TsUnit) -> Result<String, AllocError> {
    let stream = if unit.video { "video" } else { "audio" };
    let (pts, dts, size) = (unit.pts, unit.dts, unit.payload.len());
    format!(in alloc; "{stream} {pts} {dts} {size}, ")
}

// Returns the answer of one call to a piece, and the number of bytes that it used.
fn answer(reader: &mut TsReader, alloc: Global, piece: &[u8]) -> Result<(String, usize), AllocError>
    requires { length reader.old.fed + length piece.now < 2 ^ 63 }
    ensures { IfOk result (λ a. (a.1 ≤ length piece.now) × (length reader.new.fed ≤ length reader.old.fed + a.1)) }
{
    match reader.feed(alloc, piece) {
        Err(fail) => Ok((refusal(alloc, fail)?, piece.len())),
        Ok(TsFed { used, unit: None }) => Ok((String::new(alloc), used)),
        Ok(
            TsFed {
                used,
                unit: Some(unit),
            },
        ) => Ok((unit_text(alloc, &unit)?, used)),
    }
}

// Feeds a piece to its end, and prints each unit, or the refusal.
fn feed_all(
    reader: &mut TsReader,
    alloc: Global,
    piece: &[u8],
    text: &mut String,
) -> Result<(), AllocError>
    requires { length reader.old.fed + length piece.now < 2 ^ 63 }
    ensures { OnOk result (length reader.new.fed ≤ length reader.old.fed + length piece.now) }
{
    let mut rest = piece;
    for _ in 0..piece.len() {
        let (more, used) = answer(reader, alloc, rest)?;
        text.push_str(more.as_str())?;
        if used >= rest.len() {
            break;
        }
        rest = &rest[used..];
    }
    Ok(())
}

// Returns the text of the reader's answer at the end.
fn end_text(reader: &mut TsReader, alloc: Global) -> Result<String, AllocError> {
    match reader.finish(alloc) {
        Err(fail) => refusal(alloc, fail),
        Ok(None) => format!(in alloc; "end"),
        Ok(Some(unit)) => {
            let mut text = unit_text(alloc, &unit)?;
            text.push_str("end")?;
            Ok(text)
        }
    }
}

// Returns the text that a reader gives of a stream.
fn given(alloc: Global, stream: &[u8]) -> Result<String, AllocError> {
    if stream.len() > 1_000_000 {
        return Err(AllocError);
    }
    let mut reader = TsReader::new(alloc);
    let mut text = String::new(alloc);
    let fed = feed_all(&mut reader, alloc, stream, &mut text);
    let end = end_text(&mut reader, alloc);
    drop(reader);
    fed?;
    text.push_str(end?.as_str())?;
    Ok(text)
}

// Returns the stream of a line: letters with their counters.
fn stream(alloc: Global, line: &[u8]) -> Result<Bytes, OutOfMemory> {
    let mut out = Bytes::new(alloc);
    for pair in line.chunks(2) {
        if let [letter, digit] = pair {
            put(*letter, *digit % 16, &mut out)?;
        }
    }
    Ok(out)
}

// Returns the text that a reader gives of each row's stream.
fn told(alloc: Global, rows: &[u8]) -> Result<String, Fail> {
    let mut text = String::new(alloc);
    let mut left = rows;
    for _ in 0..rows.len() {
        let Some((row, rest)) = first_row(left) else {
            break;
        };
        text.push_str(given(alloc, stream(alloc, row)?.as_slice())?.as_str())?;
        text.push('\n')?;
        left = rest;
    }
    Ok(text)
}

#[test]
fn units_end_with_the_next_packet_that_starts(rt: HostRuntime) -> Result<(), Fail> {
    let rows = b"A0S0c0|A0B0x0y1z2f0p3A1|A0B0f0f1N1A1P2p0|A0S0f0|A0B0q0|A0N0||";
    assert_eq!(rt;
        told(rt.alloc(), rows)?.as_str(),
        "audio 0 0 16, end\n\
         video 8589934412 8589934502 412, audio 0 0 16, video 8589934412 8589934502 12, end\n\
         audio 0 0 16, audio 0 0 16, video 8589934412 8589934502 12, end\n\
         audio 0 0 16, end\n\
         video 8589934412 8589934502 12, end\n\
         end\n\
         end\n"
    );
    Ok(())
}

#[test]
fn packets_and_units_are_refused(rt: HostRuntime) -> Result<(), Fail> {
    let rows =
        b"A0S0c0-0|A0S1|c0|S0|T0|A0X0|A0S0p0|A0B0o1|A0B0c0|A0B0w0y1z2|A0B0s0|A0B0y0z1|A0B0f0y0z1|\
A0B0l0|A0B0l0f1|A0B0n0|A0B0n0A1|A0B0b0|A0B0e0p1|";
    assert_eq!(rt;
        told(rt.alloc(), rows)?.as_str(),
        "NoSync { at: 376 }\n\
         BadCounter { at: 188, kept: 0, found: 1 }BadCounter { at: 188, kept: 0, found: 1 }\n\
         BadPes { at: 0 }BadPes { at: 0 }\n\
         BadTable { at: 0 }BadTable { at: 0 }\n\
         BadTable { at: 0 }BadTable { at: 0 }\n\
         BadTable { at: 188 }BadTable { at: 188 }\n\
         BadPes { at: 376 }BadPes { at: 376 }\n\
         BadCounter { at: 376, kept: 0, found: 1 }BadCounter { at: 376, kept: 0, found: 1 }\n\
         BadPes { at: 376 }BadPes { at: 376 }\n\
         BadPes { at: 376 }BadPes { at: 376 }\n\
         BadPes { at: 376 }BadPes { at: 376 }\n\
         BadPes { at: 376 }BadPes { at: 376 }\n\
         BadPes { at: 564 }BadPes { at: 564 }\n\
         BadPes { at: 376 }\n\
         BadPes { at: 376 }BadPes { at: 376 }\n\
         BadUnit { at: 376 }\n\
         BadUnit { at: 376 }BadUnit { at: 376 }\n\
         BadUnit { at: 376 }\n\
         BadUnit { at: 376 }BadUnit { at: 376 }\n"
    );
    Ok(())
}
