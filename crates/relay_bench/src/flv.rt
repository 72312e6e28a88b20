//! Bytes a second of the reader and the writer of FLV files, beside a plain copy of the same bodies.
ghost use Rattle.std.specs.Prelude.{◌≡◌, ◌+◌, ◌<◌, ◌≤◌, ◌^◌, length};
ghost use Rattle.flv_tags.specs.Written.{IsWritable};

use crate::rates::megabytes;
use av_unit::Bytes;
use flv_tags::{Tag, TagFed, TagReader, write_header, write_tag};
use std::alloc::{AllocError, Global};
use std::io;
use std::time::{Clock, Instant};

// The bytes of a tag's body, and of a piece that is fed at once.
const BODY: usize = 16_384;

const PIECE: usize = 65_536;

// How many tags a file has: some 100 MB.
const TAGS: usize = 6_400;

fn picture(alloc: Global) -> Result<Tag, AllocError>
    ensures { (t : Tag) → result ≡ Ok t → IsWritable t }
{
    Ok(Tag {
        kind: 9,
        time: 40,
        body: Bytes::from_vec(vec![in alloc; 0x5Au8; BODY]?),
    })
}

fn file(alloc: Global, tag: &Tag) -> Result<Bytes, AllocError>
    requires { IsWritable tag.now }
{
    let mut out = Bytes::new(alloc);
    write_header(&mut out).map_err(|_| AllocError)?;
    for _ in 0..TAGS {
        write_tag(tag, &mut out).map_err(|_| AllocError)?;
    }
    Ok(out)
}

// Writes the tag again and again into bytes that are used again, and answers how many bytes that made.
fn write(alloc: Global, tag: &Tag) -> Result<u64, AllocError>
    requires { IsWritable tag.now }
{
    let mut out = Bytes::new(alloc);
    let mut made = 0u64;
    for _ in 0..TAGS {
        out.truncate(0);
        write_tag(tag, &mut out).map_err(|_| AllocError)?;
        made = made.saturating_add(out.len() as u64);
    }
    Ok(made)
}

// Feeds a piece to its end, and answers how many tags end there.
fn feed(reader: &mut TagReader, alloc: Global, piece: &[u8]) -> u64
    requires { length reader.old.fed + length piece.now < 2 ^ 63 }
    ensures { length reader.new.fed ≤ length reader.old.fed + length piece.now }
{
    let mut ended = 0u64;
    let mut rest = piece;
    for _ in 0..piece.len() {
        match reader.feed(alloc, rest) {
            Err(_) => return ended,
            Ok(TagFed { used, tag }) => {
                if tag.is_some() {
                    ended = ended.saturating_add(1);
                }
                if used >= rest.len() {
                    return ended;
                }
                rest = &rest[used..];
            }
        }
    }
    ended
}

fn read(alloc: Global, bytes: &[u8]) -> u64
    requires { length bytes.now < 2 ^ 63 }
{
    let mut reader = TagReader::new(alloc);
    let mut ended = 0u64;
    let mut rest = bytes;
    while !rest.is_empty() {
        let (piece, more) = rest.split_at(PIECE.min(rest.len()));
        ended = ended.saturating_add(feed(&mut reader, alloc, piece));
        rest = more;
    }
    ended
}

// Copies a body's number of bytes at once, into bytes that are used again.
fn copy(alloc: Global, bytes: &[u8]) -> Result<u64, AllocError> {
    let mut out = Bytes::new(alloc);
    let mut made = 0u64;
    for body in bytes.chunks(BODY) {
        out.truncate(0);
        out.append(body).map_err(|_| AllocError)?;
        made = made.saturating_add(out.len() as u64);
    }
    Ok(made)
}

/// Prints the bytes a second of the reader, of the writer and of the copy.
pub fn measure<R: Clock + Print>(rt: &R, alloc: Global) -> io::Result<()> {
    let tag = picture(alloc)?;
    let bytes = file(alloc, &tag)?;
    let all = bytes.len() as u64;
    let start = Instant::now(rt)?;
    let ended = read(alloc, bytes.as_slice());
    let reader = megabytes(all, start.elapsed(rt)?.as_micros());
    let start = Instant::now(rt)?;
    let made = write(alloc, &tag)?;
    let writer = megabytes(made, start.elapsed(rt)?.as_micros());
    let start = Instant::now(rt)?;
    let copied = copy(alloc, bytes.as_slice())?;
    let copy = megabytes(copied, start.elapsed(rt)?.as_micros());
    println!(rt; "reader: {ended} tags, {reader} MB a second")?;
    println!(rt; "writer: {made} bytes, {writer} MB a second")?;
    println!(rt; "copy: {copied} bytes, {copy} MB a second")
}
