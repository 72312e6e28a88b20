use crate::capture::PUBLISH;
use chunk_reader::*;
use chunk_wire::Message;
use std::alloc::{AllocError, Global};
use std::test::Fail;

/// Payload.
const RUN: &[u8; 4_095] = &[0x5A; 4_095];

/// A video message of 200 bytes on id 6 at 40 ms, a Set Chunk Size of 4,096, and an Abort of id 6.
const VIDEO: &[u8] = b"\x06\x00\x00\x28\x00\x00\xc8\x09\x01\x00\x00\x00";

const SIZE: &[u8] = b"\x02\x00\x00\x00\x00\x00\x04\x01\x00\x00\x00\x00\x00\x00\x10\x00";

const ABORT: &[u8] = b"\x02\x00\x00\x00\x00\x00\x04\x02\x00\x00\x00\x00\x00\x00\x00\x06";

/// A Set Chunk Size of 4,095, and the header of a message of 4,096 bytes on id 20.
const FULL: &[u8] = b"\x02\x00\x00\x00\x00\x00\x04\x01\x00\x00\x00\x00\x00\x00\x0f\xff";

const MORE: &[u8] = b"\x14\x00\x00\x00\x00\x10\x00\x09\x00\x00\x00\x00";

/// All that ffmpeg 5.1.9 sends after its handshake to play a stream, up to its deleteStream.
const PLAY: &[u8] = b"\x03\x00\x00\x00\x00\x00\xc5\x14\x00\x00\x00\x00\x02\x00\x07connect\
\x00?\xf0\x00\x00\x00\x00\x00\x00\x03\x00\x03app\x02\x00\x04live\x00\x08flashVer\x02\x00\x0dLNX 9,0,124,2\
\x00\x05tcUrl\x02\x00\x1brtmp://127.0.0.1:19510/live\x00\x04fpad\x01\x00\x00\x0ccapabilities\x00@.\x00\x00\x00\x00\x00\x00\x00\x0b\
\xc3audioCodecs\x00@\xaf\xce\x00\x00\x00\x00\x00\x00\x0bvideoCodecs\
\x00@o\x80\x00\x00\x00\x00\x00\x00\x0dvideoFunction\x00?\xf0\x00\x00\x00\x00\x00\x00\x00\x00\x09\
\x02\x00\x00\x00\x00\x00\x04\x05\x00\x00\x00\x00\x00&%\xa0\
C\x00\x00\x00\x00\x00\x19\x14\x02\x00\x0ccreateStream\x00@\x00\x00\x00\x00\x00\x00\x00\x05\
\x08\x00\x00\x00\x00\x00#\x14\x00\x00\x00\x00\x02\x00\x0fgetStreamLength\x00@\x08\x00\x00\x00\x00\x00\x00\x05\x02\x00\x04long\
\x08\x00\x00\x00\x00\x00!\x14\x01\x00\x00\x00\x02\x00\x04play\x00@\x10\x00\x00\x00\x00\x00\x00\x05\x02\x00\x04long\x00\xc0\x9f@\x00\x00\x00\x00\x00\
B\x00\x00\x01\x00\x00\x0a\x04\x00\x03\x00\x00\x00\x01\x00\x00\x0b\xb8\
C\x00\x00\x00\x00\x00\x22\x14\x02\x00\x0cdeleteStream\x00@\x14\x00\x00\x00\x00\x00\x00\x05\x00?\xf0\x00\x00\x00\x00\x00\x00";

// Gives the answer of one call to a piece, and the number of bytes it used.
fn answer(reader: &mut Reader, alloc: Global, piece: &[u8]) -> Result<(String, usize), AllocError> {
    match reader.feed(alloc, piece) {
        Err(ReadFail { cause, at }) => {
            Ok((format!(in alloc; "{cause:?} at {at}, ")?, piece.len()))
        }
        Ok(
            Fed {
                used,
                message: None,
            },
        ) => Ok((String::new(alloc), used)),
        Ok(
            Fed {
                used,
                message: Some(
                    Message {
                        kind,
                        stream,
                        time,
                        body,
                    },
                ),
            },
        ) => {
            let length = body.len();
            Ok((
                format!(in alloc; "{kind} {stream} {time} {length}, ")?,
                used,
            ))
        }
    }
}

// Feeds a piece to its end, and writes each message, or the refusal.
fn feed_all(
    reader: &mut Reader,
    alloc: Global,
    piece: &[u8],
    text: &mut String,
) -> Result<(), AllocError> {
    let mut rest = piece;
    for _ in 0..piece.len() {
        let (more, used) = answer(reader, alloc, rest)?;
        text.push_str(more.as_str())?;
        if used >= rest.len() {
            break;
        }
        rest = &rest[used..];
    }
    Ok(())
}

fn held(reader: &Reader, alloc: Global) -> Result<String, AllocError> {
    let held = reader.held();
    format!(in alloc; "held {held}\n")
}

// Feeds pieces, one after the other.
fn feed_pieces(
    reader: &mut Reader,
    alloc: Global,
    pieces: &[&[u8]],
    text: &mut String,
) -> Result<(), AllocError> {
    for piece in pieces {
        feed_all(reader, alloc, piece, text)?;
    }
    Ok(())
}

// Gives the output of a reader for these pieces: type, message stream, time and length of each message, or
// the refusal. After them come the bytes that it holds.
fn given_by(mut reader: Reader, alloc: Global, pieces: &[&[u8]]) -> Result<String, AllocError> {
    let mut text = String::new(alloc);
    let fed = feed_pieces(&mut reader, alloc, pieces, &mut text);
    let held = held(&reader, alloc);
    drop(reader);
    fed?;
    text.push_str(held?.as_str())?;
    Ok(text)
}

// Gives the output of a reader of messages up to 4,096 bytes.
fn given(alloc: Global, pieces: &[&[u8]]) -> Result<String, AllocError> {
    given_by(Reader::new(alloc, 4_096), alloc, pieces)
}

// Gives its output for a row.
fn row(alloc: Global, letter: u8) -> Result<String, AllocError> {
    match letter {
        // A message at 16,777,216 ms in two chunks.
        b'a' => given(
            alloc,
            &[
                b"\x04\xff\xff\xff\x00\x00\xc8\x08\x01\x00\x00\x00\x01\x00\x00\x00",
                &RUN[..128],
                b"\xc4\x01\x00\x00\x00",
                &RUN[..72],
            ],
        ),
        // A fresh id needs a full header.
        b'b' => given(alloc, &[b"\xc4", b"\x04"]),
        b'c' => given(alloc, &[b"\x81\xff\xff"]),
        // A message of 4,097 bytes, and a chunk size of 2^31 and more.
        b'd' => given(
            alloc,
            &[b"\x03\x00\x00\x00\x00\x10\x01\x08\x00\x00\x00\x00"],
        ),
        b'e' => given(
            alloc,
            &[b"\x02\x00\x00\x00\x00\x00\x04\x01\x00\x00\x00\x00\x80\x00\x00\x80"],
        ),
        // A chunk size that comes within a message, an Abort of it, and one after which it begins again.
        b'f' => given(alloc, &[VIDEO, &RUN[..128], SIZE, b"\xc6", &RUN[..72]]),
        b'g' => given(alloc, &[VIDEO, &RUN[..128], ABORT]),
        b'h' => given(
            alloc,
            &[
                VIDEO,
                &RUN[..128],
                ABORT,
                b"\xc6",
                &RUN[..128],
                b"\xc6",
                &RUN[..72],
            ],
        ),
        // A ping answer in format 1 on a fresh id, and audio of each length around the chunk size.
        b'i' => given(
            alloc,
            &[
                b"\x42\x00\x00\x00\x00\x00\x06\x04\x00\x07\x00\x00\x00\x05\x04\x00\x00\x0a\x00\x00\x00\x08\x01\x00\x00\x00",
                b"\x44\x00\x00\x05\x00\x00\x7f\x08",
                &RUN[..127],
                b"\x44\x00\x00\x05\x00\x00\x80\x08",
                &RUN[..128],
                b"\x44\x00\x00\x05\x00\x00\x81\x08",
                &RUN[..128],
                b"\xc4\x5a",
            ],
        ),
        // Format 2, a message begun by format 3, and an extended delta that format 3 repeats.
        b'j' => given(
            alloc,
            &[
                b"\x04\x00\x00\x0a\x00\x00\x02\x08\x01\x00\x00\x00ab\x84\x00\x00\x07ab\xc4ab",
                b"\x44\xff\xff\xff\x00\x00\x82\x09\x01\x00\x00\x00",
                &RUN[..128],
                b"\xc4\x01\x00\x00\x00ab",
            ],
        ),
        // One id with messages of each type, and a chunk size that goes up and down.
        b'k' => given(
            alloc,
            &[
                b"\x04\x00\x00\x00\x00\x00\x01\x14\x00\x00\x00\x00a\x04\x00\x00\x28\x00\x00\xc8\x09\x01\x00\x00\x00",
                &RUN[..128],
                b"\xc4",
                &RUN[..72],
                b"\x44\x00\x00\x05\x00\x00\x0a\x080123456789",
                SIZE,
                b"\x44\x00\x00\x23\x00\x00\xc8\x09",
                &RUN[..200],
                b"\x02\x00\x00\x00\x00\x00\x04\x01\x00\x00\x00\x00\x00\x00\x00\x80\x84\x00\x00\x28",
                &RUN[..128],
                b"\xc4",
                &RUN[..72],
            ],
        ),
        _ => given(alloc, &[PLAY]),
    }
}

#[test]
fn messages_are_read(rt: HostRuntime) -> Result<(), Fail> {
    let alloc = rt.alloc();
    let mut text = String::new(alloc);
    for letter in b"abcdefghijkl" {
        text.push_str(row(alloc, *letter)?.as_str())?;
    }
    assert_eq!(rt;
        text.as_str(),
        "8 1 16777216 200, held 0\n\
NoHead { id: 4 } at 0, NoHead { id: 4 } at 0, held 0\n\
NoHead { id: 65599 } at 2, held 0\n\
TooLong { length: 4097 } at 11, held 0\n\
BadChunkSize { value: 2147483776 } at 15, held 0\n\
1 0 0 4, 9 1 40 200, held 0\n\
2 0 0 4, held 0\n\
2 0 0 4, 9 1 80 200, held 0\n\
4 0 0 6, 8 1 10 0, 8 1 15 127, 8 1 20 128, 8 1 25 129, held 0\n\
8 1 10 2, 8 1 17 2, 8 1 24 2, 9 1 16777240 130, held 0\n\
20 0 0 1, 9 1 40 200, 8 1 45 10, 1 0 0 4, 9 1 80 200, 1 0 0 4, 9 1 120 200, held 0\n\
20 0 0 197, 5 0 0 4, 20 0 0 25, 20 0 0 35, 20 1 0 33, 4 0 1 10, 20 0 0 34, held 0\n"
    );
    Ok(())
}

// Makes messages that are begun on ids whose last byte is below that, each with some payload.
fn begun(
    alloc: Global,
    front: &[u8],
    below: u8,
    head: &[u8],
    payload: &[u8],
) -> Result<Vec<u8>, AllocError> {
    let mut bytes = Vec::new(alloc);
    for id in 3..below {
        bytes.extend_from_slice(front)?;
        bytes.push(id)?;
        bytes.extend_from_slice(head)?;
        bytes.extend_from_slice(payload)?;
    }
    Ok(bytes)
}

#[test]
fn ids_and_parts_have_bounds_together(rt: HostRuntime) -> Result<(), Fail> {
    let alloc = rt.alloc();
    let head = b"\x00\x00\x00\x00\x00\x81\x08";
    let ids = begun(alloc, b"\x40", 67, head, &RUN[..128])?;
    assert_eq!(rt;
        given(alloc, &[ids.as_slice(), b"\x00\x00"])?.as_str(),
        "TooManyIds at 8769, held 0\n"
    );
    let head = b"\x00\x00\x00\x00\x10\x00\x09\x00\x00\x00\x00";
    let mut parts = FULL.to_vec(alloc)?;
    parts.extend_from_slice(&begun(alloc, b"", 20, head, RUN)?)?;
    parts.extend_from_slice(MORE)?;
    parts.extend_from_slice(&RUN[..18])?;
    assert_eq!(rt;
        given(alloc, &[parts.as_slice()])?.as_str(),
        "1 0 0 4, TooMuch at 69864, held 0\n"
    );
    Ok(())
}

// All that ffmpeg 5.1.9 sends to publish two seconds of H.264, from its handshake to its deleteStream. The messages are
// those that a reader of chunks in another language found.
#[test]
fn what_ffmpeg_sends_to_publish_is_read(rt: HostRuntime) -> Result<(), Fail> {
    let alloc = rt.alloc();
    let text = given_by(Reader::new(alloc, 65_536), alloc, &[PUBLISH.as_slice()])?;
    assert_eq!(rt;
        text.as_str(),
        "20 0 0 140, 1 0 0 4, 20 0 0 53, 20 0 0 49, 20 0 0 25, 20 1 0 54, 18 1 0 200, 9 1 0 45, \
9 1 0 3571, 9 1 40 1298, 9 1 80 490, 9 1 120 396, 9 1 160 480, 9 1 200 1602, 9 1 240 612, \
9 1 280 366, 9 1 320 469, 9 1 360 1706, 9 1 400 674, 9 1 440 412, 9 1 480 627, \
9 1 520 1926, 9 1 560 800, 9 1 600 568, 9 1 640 832, 9 1 680 1881, 9 1 720 913, \
9 1 760 920, 9 1 800 1929, 9 1 840 1062, 9 1 880 744, 9 1 920 1010, 9 1 960 1080, \
9 1 1000 4278, 9 1 1040 1974, 9 1 1080 949, 9 1 1120 781, 9 1 1160 976, 9 1 1200 1794, \
9 1 1240 1081, 9 1 1280 787, 9 1 1320 1019, 9 1 1360 1807, 9 1 1400 1131, 9 1 1440 875, \
9 1 1480 1130, 9 1 1520 2318, 9 1 1560 1235, 9 1 1600 907, 9 1 1640 1148, 9 1 1680 2132, \
9 1 1720 1255, 9 1 1760 860, 9 1 1800 921, 9 1 1840 1999, 9 1 1880 1073, 9 1 1920 1170, \
9 1 1960 1121, 9 1 1960 5, 20 0 0 51, 20 0 0 34, held 0\n"
    );
    Ok(())
}

// Gives the memory in bytes of the message that ends in a piece, else 0.
fn memory_of(reader: &mut Reader, alloc: Global, piece: &[u8]) -> usize {
    match reader.feed(alloc, piece) {
        Ok(
            Fed {
                used: _,
                message: Some(whole),
            },
        ) => whole.body.into_vec().capacity(),
        _ => 0,
    }
}

// Gives the largest memory of a message of 70,000 bytes in pieces of 1,000, which come after these.
fn memory_behind(reader: &mut Reader, alloc: Global, front: &[u8]) -> usize {
    let mut most = memory_of(reader, alloc, front);
    for _ in 0..70 {
        most = most.max(memory_of(reader, alloc, &RUN[..1_000]));
    }
    most
}

// A message longer than 65,536 bytes takes at most as much memory as it has bytes.
#[test]
fn a_body_has_the_memory_of_its_length(rt: HostRuntime) -> Result<(), Fail> {
    let alloc = rt.alloc();
    let mut reader = Reader::new(alloc, 4_194_304);
    let size = b"\x02\x00\x00\x00\x00\x00\x04\x01\x00\x00\x00\x00\x00\x01\x11\x70";
    let small = memory_of(&mut reader, alloc, size);
    let head = b"\x06\x00\x00\x28\x01\x11\x70\x09\x01\x00\x00\x00";
    let most = memory_behind(&mut reader, alloc, head);
    drop(reader);
    assert!(rt; small == 4 && most == 70_000);
    Ok(())
}
