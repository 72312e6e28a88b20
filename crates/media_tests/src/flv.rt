ghost use Rattle.std.specs.Prelude.{◌≤◌, ◌<◌, ◌+◌, ◌^◌, length, IfOk, OnOk};

use crate::rows::first_row;
use av_unit::{Bytes, Item, Kind, Unit, UnitArc};
use flv_tags::*;
use std::alloc::{AllocError, Global};
use std::test::Fail;

// The output of FFmpeg 5.1 for three video frames and twelve samples: metadata, a keyframe, audio, and two
// inter frames.
const PICTURES: &[u8; 402] = b"FLV\x01\x05\x00\x00\x00\x09\x00\x00\x00\x00\
\x12\x00\x01\x0c\x00\x00\x00\x00\x00\x00\x00\x02\x00\x0aonMetaData\x08\x00\x00\x00\x0c\
\x00\x08duration\x00?\xe3333333\x00\x05width\x00@0\x00\x00\x00\x00\x00\x00\
\x00\x06height\x00@0\x00\x00\x00\x00\x00\x00\x00\x0dvideodatarate\x00@hj\x00\x00\x00\x00\x00\
\x00\x09framerate\x00@\x14\x00\x00\x00\x00\x00\x00\x00\x0cvideocodecid\x00@\x00\x00\x00\x00\x00\x00\x00\
\x00\x0daudiodatarate\x00@U\x88\x80\x00\x00\x00\x00\x00\x0faudiosamplerate\x00@\xc5\x88\x80\x00\x00\x00\x00\
\x00\x0faudiosamplesize\x00@ \x00\x00\x00\x00\x00\x00\x00\x06stereo\x01\x00\
\x00\x0caudiocodecid\x00\x00\x00\x00\x00\x00\x00\x00\x00\x00\x08filesize\x00@y \x00\x00\x00\x00\x00\
\x00\x00\x09\x00\x00\x01\x17\
\x09\x00\x00\x0f\x00\x00\x00\x00\x00\x00\x00\x12\x00\x00\x84\x00\x08\x08\x11&\xa2\xa2\xa2\xa2\xb5\xe0\x00\x00\x00\x1a\
\x08\x00\x00\x0d\x00\x00\x00\x00\x00\x00\x00\x04\x80\x83\x87\x8a\x8d\x8f\x8f\x8f\x8e\x8c\x89\x85\x00\x00\x00\x18\
\x09\x00\x00\x09\x00\x00\xc8\x00\x00\x00\x00\x22\x00\x00\x84\x18\x08\x081 \x00\x00\x00\x14\
\x09\x00\x00\x09\x00\x01\x90\x00\x00\x00\x00\x22\x00\x00\x840\x08\x081 \x00\x00\x00\x14";

// Its output for twelve samples at 20,000 seconds, with the flags of audio alone.
const LATE: &[u8; 41] = b"FLV\x01\x04\x00\x00\x00\x09\x00\x00\x00\x00\
\x08\x00\x00\x0d\x31\x2d\x00\x01\x00\x00\x00\x04\x80\x83\x87\x8a\x8d\x8f\x8f\x8f\x8e\x8c\x89\x85\x00\x00\x00\x18";

// Returns a refusal as text.
fn refusal(alloc: Global, fail: FlvFail) -> Result<String, AllocError> {
    format!(in alloc; "{fail:?}")
}

// Returns the answer of one call to a piece, and the number of bytes that it used. The tag that it gives is
// written to `again`.
fn answer(
    reader: &mut TagReader,
    alloc: Global,
    piece: &[u8],
    again: &mut Bytes,
) -> Result<(String, usize), AllocError>
    requires { length reader.old.fed + length piece.now < 2 ^ 63 }
    ensures { IfOk result (λ a. (a.1 ≤ length piece.now) × (length reader.new.fed ≤ length reader.old.fed + a.1)) }
{
    match reader.feed(alloc, piece) {
        Err(fail) => Ok((refusal(alloc, fail)?, piece.len())),
        Ok(TagFed { used, tag: None }) => Ok((String::new(alloc), used)),
        Ok(
            TagFed {
                used,
                tag: Some(tag),
            },
        ) => {
            write_tag(&tag, again).map_err(|_| AllocError)?;
            let Tag { kind, time, body } = tag;
            let size = body.len();
            Ok((format!(in alloc; "{kind} {time} {size}, ")?, used))
        }
    }
}

// Feeds a piece to its end, and prints each tag, or the refusal.
fn feed_all(
    reader: &mut TagReader,
    alloc: Global,
    piece: &[u8],
    again: &mut Bytes,
    text: &mut String,
) -> Result<(), AllocError>
    requires { length reader.old.fed + length piece.now < 2 ^ 63 }
    ensures { OnOk result (length reader.new.fed ≤ length reader.old.fed + length piece.now) }
{
    let mut rest = piece;
    for _ in 0..piece.len() {
        let (more, used) = answer(reader, alloc, rest, again)?;
        text.push_str(more.as_str())?;
        if used >= rest.len() {
            break;
        }
        rest = &rest[used..];
    }
    Ok(())
}

// Returns the text of the reader's answer at the end.
fn end_text(reader: &TagReader, alloc: Global) -> Result<String, AllocError> {
    match reader.finish() {
        Ok(()) => format!(in alloc; "end"),
        Err(fail) => refusal(alloc, fail),
    }
}

// Returns the text that a reader gives of a file: type, time and size of each tag, or the refusal, and then
// its answer at the end.
fn given(alloc: Global, file: &[u8], again: &mut Bytes) -> Result<String, AllocError> {
    if file.len() > 1_000_000 {
        return Err(AllocError);
    }
    let mut reader = TagReader::new(alloc);
    let mut text = String::new(alloc);
    let fed = feed_all(&mut reader, alloc, file, again, &mut text);
    let end = end_text(&reader, alloc);
    drop(reader);
    fed?;
    text.push_str(end?.as_str())?;
    Ok(text)
}

#[test]
fn files_are_read_and_written_again(rt: HostRuntime) -> Result<(), Fail> {
    let alloc = rt.alloc();
    let mut again = Bytes::new(alloc);
    write_header(&mut again)?;
    let text = given(alloc, PICTURES, &mut again)?;
    assert_eq!(rt;
        text.as_str(),
        "18 0 268, 9 0 15, 8 0 13, 9 200 9, 9 400 9, end"
    );
    assert_eq!(rt; again.as_slice(), PICTURES.as_slice());
    let text = given(alloc, LATE, &mut again)?;
    assert_eq!(rt; text.as_str(), "8 20000000 13, end");
    Ok(())
}

// Files that end within their header and within a tag, and those that are refused. The causes are a wrong
// byte of the header, the header's length, a tag's type, the highest byte of a tag's length, and the size
// stored behind a tag.
const REFUSED: &[u8] =
    b"|FLV\x01\x05\x00\x00\x00|FLV\x01\x05\x00\x00\x00\x09\x00\x00|FLV\x01\x05\x00\x00\x00\x09\x00\x00\x00\x00|\
FLV\x01\x05\x00\x00\x00\x09\x00\x00\x00\x00\x08\x00\x00\x01\x00\x00\x00\x00\x00\x00\x00\xaf\x00\x00\x00|\
FLW\x01|FLV\x01\xff\x00\x00\x00\x0a|FLV\x01\x05\x00\x00\x00\x09\x01\x02\x03\x04\x28|\
FLV\x01\x05\x00\x00\x00\x09\x00\x00\x00\x00\x09\x40\x00\x01|\
FLV\x01\x05\x00\x00\x00\x09\x00\x00\x00\x00\x09\x00\x00\x01\x00\x00\x00\x00\x00\x00\x00\x17\x00\x00\x00\x0d|";

// Returns the text that a reader gives of each row.
fn told(alloc: Global, rows: &[u8]) -> Result<String, AllocError> {
    let mut text = String::new(alloc);
    let mut again = Bytes::new(alloc);
    let mut left = rows;
    for _ in 0..rows.len() {
        let Some((row, rest)) = first_row(left) else {
            break;
        };
        text.push_str(given(alloc, row, &mut again)?.as_str())?;
        text.push('\n')?;
        left = rest;
    }
    Ok(text)
}

#[test]
fn files_are_refused_and_refused_again(rt: HostRuntime) -> Result<(), Fail> {
    assert_eq!(rt;
        told(rt.alloc(), REFUSED)?.as_str(),
        "BadHeader { at: 0 }\nBadHeader { at: 8 }\nBadTag { at: 9 }\nend\nBadTag { at: 13 }\n\
         BadHeader { at: 2 }BadHeader { at: 2 }\nBadHeader { at: 8 }BadHeader { at: 8 }\n\
         BadTag { at: 13 }BadTag { at: 13 }\nBadTag { at: 13 }BadTag { at: 13 }\n\
         BadBack { at: 25, stored: 13, real: 12 }BadBack { at: 25, stored: 13, real: 12 }\n"
    );
    Ok(())
}

#[test]
fn markers_write_nothing(rt: HostRuntime) -> Result<(), Fail> {
    let alloc = rt.alloc();
    let unit = Unit {
        kind: Kind::Key,
        time: 0x0102_0304,
        body: Bytes::from_vec(vec![in alloc; 0x17, 1]?),
    };
    let mut out = Bytes::new(alloc);
    write_header(&mut out)?;
    write_item(&Item::Begin, &mut out)?;
    write_item(&Item::Unit(UnitArc::new(alloc, unit)?), &mut out)?;
    write_item(&Item::End, &mut out)?;
    assert_eq!(rt;
        out.as_slice(),
        b"FLV\x01\x05\x00\x00\x00\x09\x00\x00\x00\x00\x09\x00\x00\x02\x02\x03\x04\x01\x00\x00\x00\x17\x01\x00\x00\x00\x0d".as_slice()
    );
    Ok(())
}
