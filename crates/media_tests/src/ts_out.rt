ghost use Rattle.std.specs.Prelude.{◌≤◌, length};
ghost use Rattle.av_unit.specs.Fits.{most_bytes};

use crate::rows::first_row;
use aac_adts::AacFail;
use av_unit::{Bytes, Item, Kind, OutOfMemory, Unit, UnitArc};
use avc_annexb::AvcFail;
use std::alloc::Global;
use std::test::Fail;
use ts_writer::*;

/// Returns an answer as one letter. A cause that has a number is the letter of that number.
fn letter(wrote: Wrote) -> u8 {
    match wrote {
        Wrote::Unit => b'u',
        Wrote::Nothing => b'-',
        Wrote::LeftOut(Left::Codec) => b'c',
        Wrote::LeftOut(Left::NoConfig) => b'n',
        Wrote::LeftOut(Left::Empty) => b'e',
        Wrote::LeftOut(Left::Avc(AvcFail::Short { .. })) => b's',
        Wrote::LeftOut(Left::Avc(AvcFail::PastEnd { .. })) => b'p',
        Wrote::LeftOut(Left::Avc(AvcFail::Dirty { .. })) => b'd',
        Wrote::LeftOut(Left::Avc(_)) => b'v',
        Wrote::LeftOut(Left::Aac(AacFail::Short)) => b'S',
        Wrote::LeftOut(Left::Aac(AacFail::TooLong { .. })) => b'T',
        Wrote::LeftOut(Left::Aac(_)) => b'A',
    }
}

/// Returns the kind for a letter.
fn kind_of(letter: u8) -> Kind {
    match letter {
        b'C' => Kind::AConfig,
        b'A' => Kind::Audio,
        b'V' => Kind::VConfig,
        b'K' => Kind::Key,
        b'I' => Kind::Inter,
        b'S' => Kind::Spare,
        b'M' => Kind::Meta,
        _ => Kind::Data,
    }
}

/// Makes a unit.
fn unit(alloc: Global, kind: Kind, time: u32, body: &[u8]) -> Result<Item, OutOfMemory>
    requires { length body.now ≤ most_bytes kind }
{
    let body = Bytes::from_vec(Vec::from_slice(alloc, body)?);
    Ok(Item::Unit(UnitArc::new(alloc, Unit { kind, time, body })?))
}

/// Makes a unit of that letter, or an end if its body is too long.
fn unit_of(alloc: Global, letter: u8, time: u32, body: &[u8]) -> Result<Item, OutOfMemory> {
    let kind = kind_of(letter);
    if body.len() > kind.most_bytes() {
        return Ok(Item::End);
    }
    unit(alloc, kind, time, body)
}

/// Returns the item of a row: `(` begins and `)` ends a broadcast. Any other row is a unit's letter, four
/// bytes of its time and its body.
fn item(alloc: Global, row: &[u8]) -> Result<Item, OutOfMemory> {
    match row {
        [b'('] => Ok(Item::Begin),
        [letter, a, b, c, d, body @ ..] => {
            unit_of(alloc, *letter, u32::from_be_bytes([*a, *b, *c, *d]), body)
        }
        _ => Ok(Item::End),
    }
}

/// A writer's answers to the items of rows, as letters, and the bytes that it wrote.
#[derive(Drop)]
struct Written {
    said: Bytes,
    out: Bytes,
}

fn write(
    alloc: Global,
    writer: &mut TsWriter,
    row: &[u8],
    run: &mut Written,
) -> Result<(), OutOfMemory> {
    let item = item(alloc, row)?;
    let wrote = writer.item(&item, &mut run.out)?;
    run.said.append(&[letter(wrote)])
}

fn write_all(
    alloc: Global,
    writer: &mut TsWriter,
    rows: &[u8],
    run: &mut Written,
) -> Result<(), OutOfMemory> {
    let mut left = rows;
    for _ in 0..rows.len() {
        let Some((row, rest)) = first_row(left) else {
            break;
        };
        write(alloc, writer, row, run)?;
        left = rest;
    }
    Ok(())
}

fn run(alloc: Global, rows: &[u8]) -> Result<Written, OutOfMemory> {
    let mut writer = TsWriter::new(alloc);
    let mut run = Written {
        said: Bytes::new(alloc),
        out: Bytes::new(alloc),
    };
    let written = write_all(alloc, &mut writer, rows, &mut run);
    drop(writer);
    written?;
    Ok(run)
}

#[test]
fn a_frame_of_sound_behind_both_tables(rt: HostRuntime) -> Result<(), Fail> {
    let rows = b"C\x00\x00\x00\x00\xaf\x00\x12\x10|A\x00\x00\x00\x00\xaf\x01123456789|";
    let run = run(rt.alloc(), rows)?;
    assert_eq!(rt; run.said.as_slice(), b"-u".as_slice());
    let mut packets = run.out.as_slice().chunks(188);
    let pat =
        b"\x47\x40\x00\x10\x00\x00\xb0\x0d\x00\x01\xc1\x00\x00\x00\x01\xf0\x00\x2a\xb1\x04\xb2\xff";
    let pmt =
        b"\x47\x50\x00\x10\x00\x02\xb0\x12\x00\x01\xc1\x00\x00\xe1\x01\xf0\x00\x0f\xe1\x01\xf0\x00\xec\xe2\xb0\x94\xff";
    let pes = b"\x47\x41\x01\x30\x99\x10\xff\xff\xa8\x1c\x7e\x00\xff";
    let end =
        b"\xff\x00\x00\x01\xc0\x00\x18\x80\x80\x05\x21\x00\x01\x00\x01\xff\xf1\x50\x80\x02\x1f\xfc123456789";
    assert!(rt; packets.next().is_some_and(|p| p.starts_with(pat)));
    assert!(rt; packets.next().is_some_and(|p| p.starts_with(pmt)));
    assert!(rt; packets.next().is_some_and(|p| p.starts_with(pes)));
    assert!(rt; run.out.as_slice().ends_with(end) && run.out.len() == 564);
    Ok(())
}

/// Returns the three bytes after the first of each packet: start and PID, control and counter. The flags of
/// its adaptation field follow, or zero if it has none.
fn heads(alloc: Global, out: &Bytes) -> Result<Bytes, Fail> {
    let mut heads = Bytes::new(alloc);
    for packet in out.as_slice().chunks(188) {
        if let [_, a, b, c, size, flags, ..] = packet {
            let told = if *c >= 0x30 && *size > 0 { *flags } else { 0 };
            heads.append(&[*a, *b, *c, told])?;
        }
    }
    Ok(heads)
}

#[test]
fn pictures_and_sound_in_packets(rt: HostRuntime) -> Result<(), Fail> {
    let alloc = rt.alloc();
    let rows = b"(|C\x00\x00\x00\x00\xaf\x00\x12\x10|A\x00\x00\x00\x00\xaf\x01\x21|\
V\x00\x00\x00\x00\x17\x00\x00\x00\x00\x01\x64\x00\x1f\xff\xe1\x00\x02\x67\x64\x01\x00\x01\x68|\
K\x00\x00\x00\x00\x17\x01\x00\x00\x50\x00\x00\x00\x02\x09\xf0\x00\x00\x00\x01\x65|\
I\x00\x00\x00\x28\x27\x01\x00\x00\x00\x00\x00\x00\x01\x41|A\x00\x00\x00\x2e\xaf\x01\x21|)|(|\
C\x00\x00\x00\x50\xaf\x00\x12\x10|V\x00\x00\x00\x50\x17\x00\x00\x00\x00\x01\x64\x00\x1f\xff\xe1\x00\x02\x67\x64\x01\x00\x01\x68|\
K\x00\x00\x00\x50\x17\x01\xff\xff\xff\x00\x00\x00\x01\x65|";
    let run = run(alloc, rows)?;
    assert_eq!(rt; run.said.as_slice(), b"--u-uuu----u".as_slice());
    let told = b"\x40\x00\x10\x00\x50\x00\x10\x00\x41\x01\x30\x10\
\x40\x00\x11\x00\x50\x00\x11\x00\x41\x00\x30\x50\x41\x00\x31\x10\x41\x01\x31\x00\
\x40\x00\x12\x00\x50\x00\x12\x00\x41\x00\x32\xd0";
    assert_eq!(rt; heads(alloc, &run.out)?.as_slice(), told.as_slice());
    let both =
        b"\x47\x50\x00\x11\x00\x02\xb0\x17\x00\x01\xc3\x00\x00\xe1\x00\xf0\x00\x1b\xe1\x00\xf0\x00\x0f\xe1\x01\xf0\x00\x00\xe2\xdb\x21";
    let key = b"\x00\x00\x01\xe0\x00\x00\x80\xc0\x0a\x31\x00\x01\x38\x41\x11\x00\x01\x00\x01\
\x00\x00\x00\x01\x09\xf0\x00\x00\x00\x01\x67\x64\x00\x00\x00\x01\x68\x00\x00\x00\x01\x65";
    let mut packets = run.out.as_slice().chunks(188).skip(4);
    assert!(rt; packets.next().is_some_and(|p| p.starts_with(both)));
    assert!(rt; packets.next().is_some_and(|p| p.ends_with(key)));
    Ok(())
}

#[test]
fn times_at_the_wrap(rt: HostRuntime) -> Result<(), Fail> {
    let rows =
        b"V\x00\x00\x00\x00\x17\x00\x00\x00\x00\x01\x64\x00\x1f\xff\xe1\x00\x02\x67\x64\x01\x00\x01\x68|\
I\xff\xff\xff\xff\x27\x01\xff\xff\xff\x00\x00\x00\x01\x41|S\x00\x00\x00\x00\x27\x01\x00\x00\x00\x00\x00\x00\x01\x01|";
    let mut out = run(rt.alloc(), rows)?.out;
    let first = b"\xff\x00\x00\x01\xe0\x00\x00\x80\xc0\x0a\x3f\xff\xff\xfe\x99\x1f\xff\xff\xff\x4d\
\x00\x00\x00\x01\x09\xf0\x00\x00\x00\x01\x41";
    let second = b"\xff\x00\x00\x01\xe0\x00\x00\x80\x80\x05\x21\x00\x01\x00\x01\
\x00\x00\x00\x01\x09\xf0\x00\x00\x00\x01\x01";
    assert!(rt; out.as_slice().ends_with(second));
    out.truncate(564);
    assert!(rt; out.as_slice().ends_with(first));
    Ok(())
}

/// Returns the number of bytes written for `frames` frames of audio.
fn sound(alloc: Global, frames: u32) -> Result<usize, OutOfMemory> {
    let mut rows = Bytes::new(alloc);
    rows.append(b"C\x00\x00\x00\x00\xaf\x00\x12\x10|")?;
    for _ in 0..frames {
        rows.append(b"A\x00\x00\x00\x00\xaf\x01\x21|")?;
    }
    Ok(run(alloc, rows.as_slice())?.out.len())
}

#[test]
fn sound_alone_has_tables_before_each_33rd(rt: HostRuntime) -> Result<(), Fail> {
    assert_eq!(rt; sound(rt.alloc(), 32)?, 34 * 188);
    assert_eq!(rt; sound(rt.alloc(), 33)?, 37 * 188);
    Ok(())
}

#[test]
fn what_is_left_out_and_why(rt: HostRuntime) -> Result<(), Fail> {
    let alloc = rt.alloc();
    let rows = b"M\x00\x00\x00\x00\x02\x00\x0aonMetaData|D\x00\x00\x00\x00\x02|\
K\x00\x00\x00\x00\x17\x01\x00\x00\x00\x00\x00\x00\x01\x65|A\x00\x00\x00\x00\xaf\x01\x21|V\x00\x00\x00\x00\x1c\x00\x00\x00\x00\x01|\
V\x00\x00\x00\x00\x17\x00\x00\x00\x00\x01\x64\x00\x1f\xff\xe1\x00\x02\x67\x64\x01\x00\x01|\
V\x00\x00\x00\x00\x17\x00\x00\x00\x00\x01\x64\x00\x1f\xff\xe1\x00\x02\x67\x64\x01\x00\x01\x68|\
K\x00\x00\x00\x00\x12\x01\x00\x00\x00\x00\x00\x00\x01\x65|K\x00\x00\x00\x00\x17|S\x00\x00\x00\x00\x27\x01\x00\x00|\
I\x00\x00\x00\x00\x27\x01\x00\x00\x00\x00\x00\x00\x02\x41|I\x00\x00\x00\x00\x27\x01\x00\x00\x00\x00\x00\x00\x02\x41\x00|\
I\x00\x00\x00\x00\x27\x01\x00\x00\x00\x00\x00\x00\x02\x09\xf0|I\x00\x00\x00\x00\x27\x01\x00\x00\x00|";
    let told = run(alloc, rows)?;
    assert_eq!(rt; told.said.as_slice(), b"--nncs-ccspdee".as_slice());
    assert!(rt; told.out.is_empty());
    let rows =
        b"C\x00\x00\x00\x00\xaf\x00\x12|C\x00\x00\x00\x00\xaf\x00\x02\x10|A\x00\x00\x00\x00\xaf\x01\x21|\
C\x00\x00\x00\x00\xaf\x00\x12\x10|A\x00\x00\x00\x00\x2f\x01\x21|A\x00\x00\x00\x00\xaf\x01|(|\
A\x00\x00\x00\x00\xaf\x01\x21|K\x00\x00\x00\x00\x17\x01\x00\x00\x00\x00\x00\x00\x01\x65|";
    let told = run(alloc, rows)?;
    assert_eq!(rt; told.said.as_slice(), b"SAn-ce-nn".as_slice());
    assert!(rt; told.out.is_empty());
    Ok(())
}

#[test]
fn a_frame_of_sound_may_be_too_long(rt: HostRuntime) -> Result<(), Fail> {
    let alloc = rt.alloc();
    let mut rows = Bytes::new(alloc);
    rows.append(b"C\x00\x00\x00\x00\xaf\x00\x12\x10|A\x00\x00\x00\x00\xaf\x01")?;
    rows.append(&[7; 8_185])?;
    rows.append(b"|")?;
    let told = run(alloc, rows.as_slice())?;
    assert_eq!(rt; told.said.as_slice(), b"-T".as_slice());
    Ok(())
}
