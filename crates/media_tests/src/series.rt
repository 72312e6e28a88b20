//! Recordings as a series of files.
ghost use Rattle.std.specs.Prelude.{◌<◌, length};

use av_unit::{Bytes, Item, Kind, OutOfMemory, Unit, UnitArc};
use file_series::MemSeries;
use media_recorder::{Medium, TsMedium};
use relay_outside::{Put, Sink};
use series_medium::{FlvSeriesMedium, SeriesSink, TsSeriesMedium};
use std::alloc::Global;
use std::test::Fail;

// A header; the tag of the key picture, and that of the sound.
const HEADER: &[u8; 13] = b"FLV\x01\x05\x00\x00\x00\x09\x00\x00\x00\x00";

const PICTURE: &[u8; 17] = b"\x09\x00\x00\x02\x02\x03\x04\x01\x00\x00\x00\x17\x01\x00\x00\x00\x0d";

const SOUND: &[u8; 18] =
    b"\x08\x00\x00\x03\x00\x00\x05\x00\x00\x00\x00\xaf\x01\x21\x00\x00\x00\x0e";

fn unit(alloc: Global, kind: Kind, time: u32, body: &[u8]) -> Result<Item, OutOfMemory>
    requires { length body.now < 100 }
{
    let mut bytes = Bytes::new(alloc);
    bytes.append(body)?;
    Ok(Item::Unit(UnitArc::new(
        alloc,
        Unit {
            kind,
            time,
            body: bytes,
        },
    )?))
}

// Returns the item of a letter.
fn item(alloc: Global, letter: u8) -> Result<Item, OutOfMemory> {
    match letter {
        b'b' => Ok(Item::Begin),
        b'c' => unit(alloc, Kind::AConfig, 0, b"\xaf\x00\x12\x10"),
        b'k' => unit(alloc, Kind::Key, 0x0102_0304, b"\x17\x01"),
        b'a' => unit(alloc, Kind::Audio, 5, b"\xaf\x01\x21"),
        _ => Ok(Item::End),
    }
}

// Returns the text of the items of letters.
fn text<M: Medium>(alloc: Global, letters: &[u8]) -> Result<Bytes, OutOfMemory> {
    let mut out = Bytes::new(alloc);
    let mut medium = M::begin(alloc, &mut out)?;
    for letter in letters {
        let item = item(alloc, *letter)?;
        medium.write(&item, &mut out)?;
    }
    Ok(out)
}

// Puts bytes, at most `cut` at a time, and returns the last answer.
fn put_all(sink: &mut SeriesSink<MemSeries>, bytes: &[u8], cut: usize) -> u8
    requires { 0 < cut }
{
    let mut left = bytes;
    while !left.is_empty() {
        let piece = &left[..left.len().min(cut)];
        match sink.put(piece) {
            Put::Took(count) => left = &left[count..],
            Put::Failed => return b'F',
            Put::OutOfMemory => return b'O',
        }
    }
    b'.'
}

// Returns the last answer, and behind it the ended files, each followed by a `|`.
fn told(alloc: Global, text: &[u8], cut: usize, fails: &[u64]) -> Result<Bytes, OutOfMemory>
    requires { 0 < cut }
{
    let mut sink = SeriesSink::new(MemSeries::new(alloc, fails.to_vec(alloc)?));
    let answer = put_all(&mut sink, text, cut);
    let series = sink.into_series();
    let mut told = Bytes::new(alloc);
    told.append(&[answer])?;
    for place in 0..series.len() {
        if let Some(file) = series.file(place) {
            told.append(file)?;
            told.append(b"|")?;
        }
    }
    Ok(told)
}

// Returns whether the FLV files of these items are these tags, each file behind its header.
fn is_flv(
    alloc: Global,
    letters: &[u8],
    cut: usize,
    fails: &[u64],
    expected: &[&[u8]],
) -> Result<bool, OutOfMemory>
    requires { 0 < cut }
{
    let text = text::<FlvSeriesMedium>(alloc, letters)?;
    let told = told(alloc, text.as_slice(), cut, fails)?;
    let mut all = Bytes::new(alloc);
    for part in expected {
        all.append(part)?;
    }
    Ok(told.as_slice() == all.as_slice())
}

#[test]
fn each_broadcast_has_a_flv_file(rt: HostRuntime) -> Result<(), Fail> {
    let alloc = rt.alloc();
    assert!(rt; is_flv(alloc, b"bae", 100, &[], &[b".", HEADER, SOUND, b"|"])?);
    assert!(rt;
        is_flv(
            alloc,
            b"baebebke",
            100,
            &[],
            &[b".", HEADER, SOUND, b"|", HEADER, PICTURE, b"|"]
        )?
    );
    assert!(rt;
        is_flv(
            alloc,
            b"babk",
            1,
            &[],
            &[b".", HEADER, SOUND, b"|", HEADER, PICTURE, b"|"]
        )?
    );
    assert!(rt;
        is_flv(
            alloc,
            b"akebe",
            7,
            &[],
            &[b".", HEADER, SOUND, PICTURE, b"|"]
        )?
    );
    assert!(rt; is_flv(alloc, b"be", 1, &[], &[b"."])?);
    Ok(())
}

#[test]
fn a_series_that_fails_gets_no_more(rt: HostRuntime) -> Result<(), Fail> {
    let alloc = rt.alloc();
    assert!(rt; is_flv(alloc, b"baebke", 100, &[0], &[b"F"])?);
    assert!(rt; is_flv(alloc, b"baebke", 100, &[1], &[b"F"])?);
    assert!(rt; is_flv(alloc, b"baebke", 100, &[2], &[b"F", HEADER, SOUND, b"|"])?);
    assert!(rt; is_flv(alloc, b"baebke", 100, &[3], &[b"F", HEADER, SOUND, b"|"])?);
    Ok(())
}

// Returns whether a transport stream of two broadcasts has the file of one twice.
fn is_twice(alloc: Global, cut: usize) -> Result<bool, OutOfMemory>
    requires { 0 < cut }
{
    let one = text::<TsMedium>(alloc, b"bcaae")?;
    let two = text::<TsSeriesMedium>(alloc, b"bcaaebebcaae")?;
    let told = told(alloc, two.as_slice(), cut, &[])?;
    let mut all = Bytes::new(alloc);
    all.append(b".")?;
    all.append(one.as_slice())?;
    all.append(b"|")?;
    all.append(one.as_slice())?;
    all.append(b"|")?;
    Ok(told.as_slice() == all.as_slice() && one.len() == 752)
}

#[test]
fn each_broadcast_has_a_file_of_packets(rt: HostRuntime) -> Result<(), Fail> {
    let alloc = rt.alloc();
    assert!(rt; is_twice(alloc, 3)?);
    assert!(rt; is_twice(alloc, 10_000)?);
    Ok(())
}

#[test]
fn a_byte_that_begins_no_frame_is_a_fault(rt: HostRuntime) -> Result<(), Fail> {
    let alloc = rt.alloc();
    let mut sink = SeriesSink::new(MemSeries::new(alloc, Vec::new(alloc)));
    assert!(rt; put_all(&mut sink, b"\x01\x02", 2) == b'F');
    assert!(rt; put_all(&mut sink, b"\x00\x00\x00\x00\x00\x00", 6) == b'F');
    assert!(rt; put_all(&mut sink, b"\x01a", 2) == b'.');
    let (series, answer) = sink.finish();
    assert!(rt; matches!(answer, Ok(())));
    assert!(rt; series.len() == 1 && series.faults() == 0);
    Ok(())
}
