//! Bytes a second of the reader of chunks, beside a plain copy of the same bytes.

use crate::rates::megabytes;
use chunk_reader::{Fed, Reader};
use std::alloc::{AllocError, Global};
use std::io;
use std::time::{Clock, Instant};

// The bytes of a message, of a chunk's payload, and of a piece that is fed at once.
const MESSAGE: usize = 65_536;

const CHUNK: usize = 4_096;

const PIECE: usize = 16_384;

// How many messages the bytes hold, and how often they are read.
const MESSAGES: u64 = 256;

const ROUNDS: u64 = 16;

// A Set Chunk Size, and video messages in chunks of that size.
fn video(alloc: Global) -> Result<Vec<u8>, AllocError> {
    let payload = vec![in alloc; 0x5Au8; CHUNK]?;
    let mut bytes = Vec::from_slice(
        alloc,
        b"\x02\x00\x00\x00\x00\x00\x04\x01\x00\x00\x00\x00\x00\x00\x10\x00",
    )?;
    for _ in 0..MESSAGES {
        bytes.extend_from_slice(b"\x06\x00\x00\x28\x01\x00\x00\x09\x01\x00\x00\x00")?;
        bytes.extend_from_slice(payload.as_slice())?;
        for _ in 1..MESSAGE / CHUNK {
            bytes.extend_from_slice(b"\xc6")?;
            bytes.extend_from_slice(payload.as_slice())?;
        }
    }
    Ok(bytes)
}

// Feeds a piece to its end, and answers how many messages end there.
fn feed(reader: &mut Reader, alloc: Global, piece: &[u8]) -> u64 {
    let mut ended = 0u64;
    let mut rest = piece;
    for _ in 0..piece.len() {
        match reader.feed(alloc, rest) {
            Err(_) => return ended,
            Ok(Fed { used, message }) => {
                if message.is_some() {
                    ended = ended.saturating_add(1);
                }
                if used >= rest.len() {
                    return ended;
                }
                rest = &rest[used..];
            }
        }
    }
    ended
}

fn read(alloc: Global, bytes: &[u8]) -> u64 {
    let mut reader = Reader::new(alloc, 1_048_576);
    let mut ended = 0u64;
    for piece in bytes.chunks(PIECE) {
        ended = ended.saturating_add(feed(&mut reader, alloc, piece));
    }
    ended
}

// Copies a message's number of bytes at once, into a list that is used again.
fn copy(alloc: Global, bytes: &[u8]) -> Result<u64, AllocError> {
    let mut list = Vec::new(alloc);
    let mut lists = 0u64;
    for message in bytes.chunks(MESSAGE) {
        list.clear();
        list.extend_from_slice(message)?;
        if list.len() == MESSAGE {
            lists = lists.saturating_add(1);
        }
    }
    Ok(lists)
}

/// Prints the bytes a second of the reader and of the copy.
pub fn measure<R: Clock + Print>(rt: &R, alloc: Global) -> io::Result<()> {
    let bytes = video(alloc)?;
    let all = (bytes.len() as u64).saturating_mul(ROUNDS);
    let start = Instant::now(rt)?;
    let mut ended = 0u64;
    for _ in 0..ROUNDS {
        ended = ended.saturating_add(read(alloc, bytes.as_slice()));
    }
    let reader = megabytes(all, start.elapsed(rt)?.as_micros());
    let start = Instant::now(rt)?;
    let mut lists = 0u64;
    for _ in 0..ROUNDS {
        lists = lists.saturating_add(copy(alloc, bytes.as_slice())?);
    }
    let copy = megabytes(all, start.elapsed(rt)?.as_micros());
    println!(rt; "reader: {ended} messages, {reader} MB a second")?;
    println!(rt; "copy: {lists} lists, {copy} MB a second")
}
