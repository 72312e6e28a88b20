use crate::rows::first_row;
use av_unit::*;
use std::alloc::Global;
use std::test::Fail;

// A row is a message with `|` after it. It has a letter for its type, a digit for the number of bytes of a
// NAL unit's length, and its body. The AVC bodies and the metadata are the first bytes of those that ffmpeg
// 5.1.9 publishes. `12 10` is the AudioSpecificConfig of AAC LC at 44,100 Hz in stereo, and `2f ff fb` begins
// MP3.

/// Nothing, AAC and MP3.
const SOUND: &[u8] =
    b"a4|a4\xaf\x00\x12\x10|a4\xa0\x00|a4\xaf\x01\x21\x1b\x8f|a4\xaf|a4\x2f\xff\xfb\x90|a4\x2f\x00|";

/// Nothing, frame types that aren't a video frame's, AVC, and other codecs.
const VIDEO: &[u8] = b"v4|v4\x07\x01|v4\x57\x01|v4\x52\x00|v4\xf2\x00|\
v4\x17|v4\x17\x00\x00\x00\x00\x01\x4d\x40\x0d\xff\xe1|v4\x27\x00|v4\x17\x01\x00\x00\x50\x00\x00\x02\xba\x06|v4\x47\x01|\
v4\x27\x01\x00\x00\xc8\x00\x00\x05\x09\x41|v4\x37\x01|v4\x17\x02\x00\x00\x00|v4\x27\x03|\
v4\x12|v4\x14\x00|v4\x42\x02|v4\x22\x00|v4\x32\x02|";

/// Nothing, data after `@setDataFrame`, data without it, and messages of other types.
const DATA: &[u8] = b"d4|\
d4\x02\x00\x0d@setDataFrame\x02\x00\x0aonMetaData\x08\x00\x00|d4\x02\x00\x0d@setDataFrame\x02\x00\x0bonTextData\x08\x00\x00|\
d4\x02\x00\x0d@setDataFrame|d4\x02\x00\x0d@setDataFrame\x02\x00\x0d@setDataFrame|d4\x02\x00\x0d@setDataFram|\
d4\x02\x00\x0aonMetaData|d4\x02\x00\x0aonMetaDat|d4\x02\x00\x0aonCuePoint\x03|d4\x02|\
s4\xaf\x00\x12\x10|k4\x02\x00\x0aonMetaData|c4\x02\x00\x0d@setDataFrame\x02\x00\x0aonMetaData|x4\x17\x01\x00\x00\x50|";

/// A slice that no other frame refers to, with lengths of 4, 2 and 1 byte, and with sizes of which there are
/// no lengths. Then two such slices; one after a delimiter and SEI, then one that others refer to; an empty
/// unit after one.
const SLICES: &[u8] =
    b"v4\x27\x01\x00\x00\x00\x00\x00\x00\x02\x01\xaa|v2\x27\x01\x00\x00\x00\x00\x02\x01\xaa|v1\x27\x01\x00\x00\x00\x02\x01\xaa|\
v3\x27\x01\x00\x00\x00\x00\x00\x01\x01|v0\x27\x01\x00\x00\x00\x00\x00\x00\x02\x01\xaa|v8\x27\x01\x00\x00\x00\x00\x00\x00\x02\x01\xaa|\
v4\x27\x01\x00\x00\x00\x00\x00\x00\x01\x01\x00\x00\x00\x01\x05|\
v4\x27\x01\x00\x00\x00\x00\x00\x00\x02\x09\x10\x00\x00\x00\x02\x06\x80\x00\x00\x00\x02\x01\xaa\x00\x00\x00\x01\x41|\
v4\x27\x01\x00\x00\x00\x00\x00\x00\x01\x01\x00\x00\x00\x00|";

/// NAL units of types 2, 3, 4 and 5 and with the forbidden bit. Then those that are referred to, by bit 5,
/// bit 6 and both. Then units that aren't slices, of types 0, 6, 7, 9 and 20. Then a frame that a publisher
/// marks as disposable, which isn't believed; a keyframe; a frame of another codec.
const OTHERS: &[u8] = b"v1\x27\x01\x00\x00\x00\x01\x02\x01\x03\x01\x04\x01\x05\x01\x81|\
v1\x27\x01\x00\x00\x00\x01\x21\x01\x01|v1\x27\x01\x00\x00\x00\x01\x41\x01\x01|v1\x27\x01\x00\x00\x00\x01\x65\x01\x01|\
v1\x27\x01\x00\x00\x00\x01\x00\x01\x06\x01\x67\x01\x09\x01\x14|\
v4\x37\x01\x00\x00\x00\x00\x00\x00\x01\x41|v4\x37\x01\x00\x00\x00\x00\x00\x00\x01\x01|\
v4\x17\x01\x00\x00\x00\x00\x00\x00\x01\x01|v4\x22\x01\x00\x00\x00\x00\x00\x00\x01\x01|";

/// Sequence headers; for type `l` the test asks for the number of bytes of a NAL unit's length.
const HEADERS: &[u8] =
    b"l4\x17\x00\x00\x00\x00\x01\x64\x00\x1f\xff\xe1|l4\x17\x00\x00\x00\x00\x01\x64\x00\x1f\x03|\
l4\x17\x00\x00\x00\x00\x01\x64\x00\x1f\xfe|l4\x17\x00\x00\x00\x00\x01\x64\x00\x1f\xfd|l4\x17\x00\x00\x00\x00\x01\x64\x00\x1f\xfc|\
l4\x17\x00\x00\x00\x00\x02\x64\x00\x1f\xff|l4\x17\x00\x00\x00\x00\x01\x64\x00\x1f|l4|";

fn message_of(letter: u8) -> u8 {
    match letter {
        b'a' => 8,
        b'v' => 9,
        b'd' => 18,
        b's' => 1,
        b'k' => 15,
        b'c' => 20,
        _ => 22,
    }
}

// Gives a class as a letter, a small one if the unit begins after `@setDataFrame`.
fn letter(class: Option<Class>) -> u8 {
    let Some(Class { kind, from }) = class else {
        return b'-';
    };
    let letter = match kind {
        Kind::AConfig => b'C',
        Kind::Audio => b'A',
        Kind::VConfig => b'V',
        Kind::Key => b'K',
        Kind::Inter => b'I',
        Kind::Spare => b'S',
        Kind::Meta => b'M',
        Kind::Data => b'D',
    };
    match from {
        0 => letter,
        16 => letter.to_ascii_lowercase(),
        _ => b'?',
    }
}

// Gives the result for a row, in one byte.
fn told(row: &[u8]) -> u8 {
    match row {
        [b'l', _, body @ ..] => b'0'.wrapping_add(length_size(body)),
        [of, size, body @ ..] => letter(class(message_of(*of), body, size.wrapping_sub(b'0'))),
        _ => b'?',
    }
}

// Gives the result for each row.
fn told_rows(alloc: Global, rows: &[u8]) -> Result<Bytes, OutOfMemory> {
    let mut text = Bytes::new(alloc);
    let mut left = rows;
    for _ in 0..rows.len() {
        let Some((row, rest)) = first_row(left) else {
            break;
        };
        text.append(&[told(row)])?;
        left = rest;
    }
    Ok(text)
}

// Gives the result for each beginning of a row's body, the empty one first, in a line for each row.
fn told_beginnings(alloc: Global, rows: &[u8]) -> Result<Bytes, OutOfMemory> {
    let mut text = Bytes::new(alloc);
    let mut left = rows;
    for _ in 0..rows.len() {
        let Some((row, rest)) = first_row(left) else {
            break;
        };
        for end in 2..=row.len() {
            text.append(&[told(&row[..end])])?;
        }
        text.append(b"\n")?;
        left = rest;
    }
    Ok(text)
}

#[test]
fn a_message_has_the_class_of_the_first_row_that_fits(rt: HostRuntime) -> Result<(), Fail> {
    let alloc = rt.alloc();
    assert_eq!(rt; told_rows(alloc, SOUND)?.as_slice(), b"-CCAAAA".as_slice());
    let video = told_rows(alloc, VIDEO)?;
    assert_eq!(rt; video.as_slice(), b"------VVKKII--KKKII".as_slice());
    assert_eq!(rt;
        told_rows(alloc, DATA)?.as_slice(),
        b"-md-dDMDDD----".as_slice()
    );
    Ok(())
}

#[test]
fn a_picture_that_no_other_needs_is_told_apart(rt: HostRuntime) -> Result<(), Fail> {
    let alloc = rt.alloc();
    let slices = b"--IIIIIIIIIS\n--IIIIIIIS\n--IIIIIIS\n--IIIIIIII\n--IIIIIIIIII\n--IIIIIIIIII\n\
--IIIIIIIISIIIIS\n--IIIIIIIIIIIIIIIIIIIIISIIIII\n--IIIIIIIISIIII\n";
    assert_eq!(rt;
        told_beginnings(alloc, SLICES)?.as_slice(),
        slices.as_slice()
    );
    let others = b"--IIIIISISISISIS\n--IIIIIIII\n--IIIIIIII\n--IIIIIIII\n--IIIIIIIIIIIIII\n\
--IIIIIIIII\n--IIIIIIIIS\n--KKKKKKKKK\n-IIIIIIIIII\n";
    assert_eq!(rt;
        told_beginnings(alloc, OTHERS)?.as_slice(),
        others.as_slice()
    );
    Ok(())
}

#[test]
fn a_configuration_tells_the_size_of_lengths(rt: HostRuntime) -> Result<(), Fail> {
    let told = told_rows(rt.alloc(), HEADERS)?;
    assert_eq!(rt; told.as_slice(), b"44021000".as_slice());
    Ok(())
}

// Gives the result for each row with `len` bytes of body; the bytes that the row doesn't have are zero.
fn told_filled(alloc: Global, rows: &[u8], len: usize) -> Result<Bytes, OutOfMemory> {
    let mut text = Bytes::new(alloc);
    let mut left = rows;
    for _ in 0..rows.len() {
        let Some((row, rest)) = first_row(left) else {
            break;
        };
        let mut whole = row.to_vec(alloc)?;
        whole.resize(len.saturating_add(2), 0)?;
        text.append(&[told(&whole)])?;
        left = rest;
    }
    Ok(text)
}

#[test]
fn a_configuration_has_at_most_65_536_bytes(rt: HostRuntime) -> Result<(), Fail> {
    let alloc = rt.alloc();
    let rows =
        b"a4\xaf\x00|a4\xaf\x01|v4\x17\x00|v4\x17\x01|d4\x02\x00\x0aonMetaData|d4\x02\x00\x0aonTextData|";
    assert_eq!(rt;
        told_filled(alloc, rows, 65_536)?.as_slice(),
        b"CAVKMD".as_slice()
    );
    assert_eq!(rt;
        told_filled(alloc, rows, 65_537)?.as_slice(),
        b"-A-K-D".as_slice()
    );
    let rows = b"d4\x02\x00\x0d@setDataFrame\x02\x00\x0aonMetaData|";
    assert_eq!(rt;
        told_filled(alloc, rows, 65_552)?.as_slice(),
        b"m".as_slice()
    );
    assert_eq!(rt;
        told_filled(alloc, rows, 65_553)?.as_slice(),
        b"-".as_slice()
    );
    Ok(())
}

// Gives the type, the time and the body of the unit that a message is.
fn unit_text(alloc: Global, message: u8, body: &[u8]) -> Result<Bytes, OutOfMemory> {
    let mut out = Bytes::new(alloc);
    let mut given = Bytes::new(alloc);
    given.append(body)?;
    if given.len() > 1_000 {
        return Ok(out);
    }
    if let Some(unit) = unit_of(message, 0x0102_0304, given, 4) {
        out.append(&[message_kind(unit.kind)])?;
        out.append(&unit.time.to_be_bytes())?;
        out.append(unit.body.as_slice())?;
    }
    Ok(out)
}

#[test]
fn a_unit_is_what_follows_set_data_frame(rt: HostRuntime) -> Result<(), Fail> {
    let alloc = rt.alloc();
    let data = b"\x02\x00\x0d@setDataFrame\x02\x00\x0aonMetaData\x08";
    let text = b"\x12\x01\x02\x03\x04\x02\x00\x0aonMetaData\x08";
    assert_eq!(rt; unit_text(alloc, 18, data)?.as_slice(), text.as_slice());
    assert!(rt; unit_text(alloc, 9, b"\x17\x02\x00\x00\x00")?.is_empty());
    Ok(())
}

#[test]
fn bytes_grow_at_their_end_and_are_cut_there(rt: HostRuntime) -> Result<(), Fail> {
    let mut bytes = Bytes::new(rt.alloc());
    bytes.reserve(6)?;
    assert!(rt; bytes.is_empty());
    bytes.append(b"\x01\x02\x03")?;
    bytes.append(b"\x04\x05\x06")?;
    bytes.truncate(9);
    bytes.truncate(4);
    assert_eq!(rt; bytes.as_slice(), b"\x01\x02\x03\x04".as_slice());
    Ok(())
}

#[test]
fn want_of_memory_has_a_text(rt: HostRuntime) -> Result<(), Fail> {
    let text = format!(in rt.alloc(); "{OutOfMemory}")?;
    assert!(rt; text.as_str() == "out of memory");
    Ok(())
}
