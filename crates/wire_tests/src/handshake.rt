use av_unit::Bytes;
use rtmp_handshake::*;
use std::alloc::{AllocError, Global};
use std::test::Fail;

/// Gives a client's C0, C1 and C2: version 3, time 01020304, a field that isn't zero, and other bytes.
fn client(alloc: Global) -> Result<Vec<u8>, AllocError> {
    let mut bytes = Vec::with_capacity(alloc, 3_073)?;
    for i in 0..3_073_usize {
        bytes.push(if i == 0 { 3 } else { (i % 253) as u8 })?;
    }
    Ok(bytes)
}

/// Gives the byte of S0, S1 and S2 at a place, for that client.
fn answer_at(i: usize) -> u8 {
    match i {
        0 => 3,
        1..=8 => 0,
        9..=1_536 => ((i - 9) % 251) as u8,
        1_537 => 1,
        1_538 => 2,
        1_539 => 3,
        1_540 => 4,
        1_541..=1_544 => 0,
        _ => ((i - 1_536) % 253) as u8,
    }
}

/// Tells whether these bytes are the whole answer.
fn is_answer(out: &[u8]) -> bool {
    if out.len() != 3_073 {
        return false;
    }
    for (i, byte) in out.iter().enumerate() {
        if *byte != answer_at(i) {
            return false;
        }
    }
    true
}

/// Adds the answer to a piece: `.` or, if the handshake is done, `!`, then the number of bytes left; or a
/// refusal.
fn add_fed(
    hand: &mut Hand,
    alloc: Global,
    piece: &[u8],
    out: &mut Bytes,
    marks: &mut Bytes,
) -> Result<(), Fail> {
    match hand.feed(alloc, piece) {
        Ok(fed) => {
            out.append(fed.out.as_slice())?;
            marks.append(if fed.done { b"!" } else { b"." })?;
            let left = piece.len().saturating_sub(fed.used);
            marks.append(format!(in alloc; "{left}")?.as_str().as_bytes())?;
        }
        Err(fail) => marks.append(format!(in alloc; "{fail}; ")?.as_str().as_bytes())?,
    }
    Ok(())
}

/// Feeds the bytes in pieces of that length.
fn feed_parts(
    hand: &mut Hand,
    alloc: Global,
    bytes: &[u8],
    piece: usize,
    out: &mut Bytes,
    marks: &mut Bytes,
) -> Result<(), Fail> {
    for part in bytes.chunks(piece.max(1)) {
        add_fed(hand, alloc, part, out, marks)?;
    }
    Ok(())
}

/// Gives the answers to the pieces, and after them `=` if the whole answer was sent.
fn told(alloc: Global, bytes: &[u8], piece: usize) -> Result<Bytes, Fail> {
    let mut hand = Hand::new(alloc);
    let mut out = Bytes::new(alloc);
    let mut marks = Bytes::new(alloc);
    let fed = feed_parts(&mut hand, alloc, bytes, piece, &mut out, &mut marks);
    drop(hand);
    fed?;
    if is_answer(out.as_slice()) {
        marks.append(b"=")?;
    }
    Ok(marks)
}

#[test]
fn a_client_is_answered(rt: HostRuntime) -> Result<(), Fail> {
    let alloc = rt.alloc();
    let mut bytes = client(alloc)?;
    bytes.extend_from_slice(b"\x02\x00\x00")?;
    assert!(rt; told(alloc, &bytes, 1_000)?.as_slice() == b".0.0.0!3=".as_slice());
    assert!(rt; told(alloc, &bytes, 1)?.as_slice().ends_with(b".0!0!1!1!1="));
    Ok(())
}

#[test]
fn another_version_is_refused_and_refused_again(rt: HostRuntime) -> Result<(), Fail> {
    let marks = told(rt.alloc(), b"\x06\x03\x03", 2)?;
    let text = b"version 6 of RTMP, where 3 is spoken; version 6 of RTMP, where 3 is spoken; ";
    assert!(rt; marks.as_slice() == text.as_slice());
    Ok(())
}
