//! Bytes a second of the writer of transport streams, beside a plain copy of the same units.
use crate::rates::megabytes;
use av_unit::{Bytes, Item, Kind, Unit, UnitArc};
use std::alloc::{AllocError, Global};
use std::io;
use std::time::{Clock, Instant};
use ts_writer::TsWriter;

// How many units are written: some 100 MB.
const UNITS: usize = 6_400;

// The bytes of a unit's one NAL unit, and the bytes before it: the head of a picture, and the length in
// four bytes.
const NAL: usize = 16_384;

const HEAD: &[u8; 9] = b"\x27\x01\x00\x00\x00\x00\x00\x40\x00";

// A configuration of AVC with lengths of four bytes, one sequence and one picture parameter set.
const AVCC: &[u8; 20] =
    b"\x17\x00\x00\x00\x00\x01\x64\x00\x1f\xff\xe1\x00\x02\x67\x64\x01\x00\x01\x68\x00";

fn item(alloc: Global, kind: Kind, body: Bytes) -> Result<Item, AllocError> {
    if body.len() > kind.most_bytes() {
        return Err(AllocError);
    }
    let unit = Unit {
        kind,
        time: 40,
        body,
    };
    match UnitArc::new(alloc, unit) {
        Ok(shared) => Ok(Item::Unit(shared)),
        Err(_) => Err(AllocError),
    }
}

fn config(alloc: Global) -> Result<Item, AllocError> {
    let mut body = Bytes::new(alloc);
    body.append(AVCC).map_err(|_| AllocError)?;
    item(alloc, Kind::VConfig, body)
}

fn picture(alloc: Global) -> Result<Item, AllocError> {
    let mut body = Bytes::new(alloc);
    body.append(HEAD).map_err(|_| AllocError)?;
    let nal = vec![in alloc; 0x5Au8; NAL]?;
    body.append(&nal).map_err(|_| AllocError)?;
    item(alloc, Kind::Inter, body)
}

// Writes the picture again and again into bytes that are used again, and answers how many bytes that made.
fn write(alloc: Global, config: &Item, picture: &Item) -> Result<u64, AllocError> {
    let mut writer = TsWriter::new(alloc);
    let mut out = Bytes::new(alloc);
    writer.item(config, &mut out).map_err(|_| AllocError)?;
    let mut made = 0u64;
    for _ in 0..UNITS {
        out.truncate(0);
        writer.item(picture, &mut out).map_err(|_| AllocError)?;
        made = made.saturating_add(out.len() as u64);
    }
    Ok(made)
}

// Copies the bytes of a unit `UNITS` times, into bytes that are used again.
fn copy(alloc: Global) -> Result<u64, AllocError> {
    let body = vec![in alloc; 0x5Au8; NAL]?;
    let mut out = Bytes::new(alloc);
    let mut made = 0u64;
    for _ in 0..UNITS {
        out.truncate(0);
        out.append(&body).map_err(|_| AllocError)?;
        made = made.saturating_add(out.len() as u64);
    }
    Ok(made)
}

/// Prints the bytes of units a second of the writer and of the copy.
pub fn measure<R: Clock + Print>(rt: &R, alloc: Global) -> io::Result<()> {
    let config = config(alloc)?;
    let picture = picture(alloc)?;
    let start = Instant::now(rt)?;
    let made = write(alloc, &config, &picture)?;
    let writer = megabytes((UNITS * NAL) as u64, start.elapsed(rt)?.as_micros());
    let start = Instant::now(rt)?;
    let copied = copy(alloc)?;
    let copy = megabytes(copied, start.elapsed(rt)?.as_micros());
    println!(rt; "writer: {made} bytes, {writer} MB of units a second")?;
    println!(rt; "copy: {copied} bytes, {copy} MB a second")
}
