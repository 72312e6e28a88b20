use crate::rows::{digit, first_row};
use av_unit::{Bytes, OutOfMemory};
use avc_annexb::*;
use std::alloc::Global;
use std::test::Fail;

// A row is a letter with bytes: `n` for units behind lengths of one byte, `s` for a byte stream, `r` for a
// configuration record.
const ROWS: &[u8] =
    b"n|n\x00|n\x01\x65\x00|n\x01\x65\x02\x41|n\x01\x65\x05\x41\x00\x00\x01\x02|n\x05\x41\x00\x00\x03\x02|\
n\x04\x41\x00\x00\x00|n\x02\x41\x00|\
s|s\x00\x00\x01\x65|s\x00\x00\x00\x01|s\x00\x00\x00\x01\x65\x00\x00\x01\x41|s\x00\x00\x00\x01\x65\x00\x00\x00\x00\x01\x41|\
r\x01\x64\x00\x1f\xff\xe1\x00\x02\x67\x64\x01\x00\x02\x68\xee|r\x01\x64\x00\x1f\xff\xe1\x00\x02\x67\x64\x01\x00\x02\x68|\
r\x01\x64\x00\x1f\xff\xe1\x00\x02\x67\x64|r\x01\x64\x00\x1f\xff|r\x02\x64\x00\x1f\xff\xe1|r\x01\x64\x00\x1f\xfe\xe1|\
r\x01\x64\x00\x1f\xff\xe1\x00\x02\x67\x00\x00|r\x01\x64\x00\x1f\xff\xe0\x01\x00\x00|";

// Returns a refusal as its letter, and its numbers.
fn code(fail: AvcFail) -> [u8; 3] {
    let (letter, first, second) = match fail {
        AvcFail::Short { at } => (b's', at, 0),
        AvcFail::LengthSize { size } => (b'l', size as usize, 0),
        AvcFail::PastEnd { at } => (b'p', at, 0),
        AvcFail::Dirty { nal, at } => (b'd', nal, at),
        AvcFail::EmptyNal { nal } => (b'e', nal, 0),
        AvcFail::NoStart { at } => (b'n', at, 0),
        AvcFail::OutOfMemory => (b'!', 0, 0),
    };
    [letter, digit(first), digit(second)]
}

// Returns the reason for which units behind lengths are refused.
fn refused(alloc: Global, bytes: &[u8]) -> Option<AvcFail> {
    match nals(alloc, bytes, 1) {
        Ok(_) => None,
        Err(fail) => Some(fail),
    }
}

fn not_split(alloc: Global, bytes: &[u8]) -> Option<AvcFail> {
    match split_annexb(alloc, bytes) {
        Ok(_) => None,
        Err(fail) => Some(fail),
    }
}

fn no_record(alloc: Global, bytes: &[u8]) -> Option<AvcFail> {
    match Avcc::read(alloc, bytes) {
        Ok(_) => None,
        Err(fail) => Some(fail),
    }
}

// Returns the reason for which a row is refused.
fn refusal(alloc: Global, row: &[u8]) -> Option<AvcFail> {
    match row {
        [b'n', bytes @ ..] => refused(alloc, bytes),
        [b's', bytes @ ..] => not_split(alloc, bytes),
        [_, bytes @ ..] => no_record(alloc, bytes),
        [] => None,
    }
}

fn told(alloc: Global, rows: &[u8]) -> Result<Bytes, OutOfMemory> {
    let mut out = Bytes::new(alloc);
    let mut left = rows;
    for _ in 0..rows.len() {
        let Some((row, rest)) = first_row(left) else {
            break;
        };
        match refusal(alloc, row) {
            None => out.append(b"=")?,
            Some(fail) => out.append(&code(fail))?,
        }
        left = rest;
    }
    Ok(out)
}

#[test]
fn bytes_are_refused_at_the_first_place(rt: HostRuntime) -> Result<(), Fail> {
    let want = b"=e00e10p20d11=d01d01=n00e00d01d01=s>0s:0s50s00l30d01e00";
    assert_eq!(rt; told(rt.alloc(), ROWS)?.as_slice(), want.as_slice());
    Ok(())
}

// Returns the units of a byte stream, written again as a byte stream.
fn again(alloc: Global, bytes: &[u8]) -> Result<Bytes, AvcFail> {
    let list = split_annexb(alloc, bytes)?;
    let mut out = Bytes::new(alloc);
    to_annexb(&list, &mut out)?;
    Ok(out)
}

#[test]
fn units_are_read_and_written_with_start_codes(rt: HostRuntime) -> Result<(), Fail> {
    let alloc = rt.alloc();
    let text = b"\x00\x00\x00\x01\x09\xf0\x00\x00\x00\x01\x65\x00\x00\x03\x01";
    assert_eq!(rt; again(alloc, text)?.as_slice(), text.as_slice());
    let bytes = b"\x00\x00\x00\x02\x09\xf0\x00\x00\x00\x05\x65\x00\x00\x03\x01";
    let mut kept = Bytes::new(alloc);
    put_nals(bytes, 4, &mut kept)?;
    assert_eq!(rt;
        kept.as_slice(),
        b"\x00\x00\x00\x01\x65\x00\x00\x03\x01".as_slice()
    );
    Ok(())
}

fn add_sets(sets: &NalList, out: &mut Bytes) -> Result<(), OutOfMemory> {
    for set in sets.as_slice() {
        out.append(set.as_slice())?;
        out.append(b"|")?;
    }
    Ok(())
}

// Appends the parameter sets of a record, each followed by `|`, and the size of its lengths.
fn add_record(avcc: &Avcc, out: &mut Bytes) -> Result<(), OutOfMemory> {
    add_sets(&avcc.sps, out)?;
    add_sets(&avcc.pps, out)?;
    out.append(&[avcc.size])
}

fn sets(alloc: Global, bytes: &[u8]) -> Result<Bytes, AvcFail> {
    let avcc = Avcc::read(alloc, bytes)?;
    let mut out = Bytes::new(alloc);
    let added = add_record(&avcc, &mut out);
    drop(avcc);
    added?;
    Ok(out)
}

#[test]
fn a_configuration_record_has_its_sets(rt: HostRuntime) -> Result<(), Fail> {
    let bytes = b"\x01\x64\x00\x1f\xff\xe1\x00\x02\x67\x64\x01\x00\x02\x68\xee\xff";
    assert_eq!(rt;
        sets(rt.alloc(), bytes)?.as_slice(),
        b"\x67\x64|\x68\xee|\x04".as_slice()
    );
    Ok(())
}
