//! Bytes a second of the writer of chunks, beside a plain copy of the same bodies.
ghost use Rattle.std.specs.Prelude.{◌≡◌, ◌<◌, ◌^◌, length, true};
ghost use Rattle.chunk_writer.specs.Rule.{is_written};

use crate::rates::megabytes;
use av_unit::Bytes;
use chunk_wire::Message;
use chunk_writer::Writer;
use std::alloc::{AllocError, Global};
use std::io;
use std::time::{Clock, Instant};

// The bytes of a message and of a chunk's payload.
const MESSAGE: usize = 65_536;

const CHUNK: u32 = 4_096;

// How many messages are written.
const MESSAGES: u64 = 4_096;

fn video(alloc: Global) -> Result<Message, AllocError>
    ensures { (m : Message) → result ≡ Ok m → (is_written m.kind ≡ true) × (length m.body < 2 ^ 24) }
{
    Ok(Message {
        kind: 9,
        stream: 1,
        time: 40,
        body: Bytes::from_vec(vec![in alloc; 0x5Au8; MESSAGE]?),
    })
}

// Writes the message again and again into bytes that are used again, and answers how many bytes that made.
fn write(alloc: Global, message: &Message) -> Result<u64, AllocError>
    requires kind { is_written message.now.kind ≡ true }
    requires length { length message.now.body < 2 ^ 24 }
{
    let mut writer = Writer::new(alloc);
    writer.set_size(CHUNK);
    let mut out = Bytes::new(alloc);
    let mut made = 0u64;
    for _ in 0..MESSAGES {
        out.truncate(0);
        writer
            .put(
                message.kind,
                message.stream,
                message.time,
                message.body.as_slice(),
                &mut out,
            )
            .map_err(|_| AllocError)?;
        made = made.saturating_add(out.len() as u64);
    }
    Ok(made)
}

// Copies the body as often, into bytes that are used again.
fn copy(alloc: Global, body: &[u8]) -> Result<u64, AllocError> {
    let mut out = Bytes::new(alloc);
    let mut made = 0u64;
    for _ in 0..MESSAGES {
        out.truncate(0);
        out.append(body).map_err(|_| AllocError)?;
        made = made.saturating_add(out.len() as u64);
    }
    Ok(made)
}

/// Prints the bytes a second of the writer and of the copy.
pub fn measure<R: Clock + Print>(rt: &R, alloc: Global) -> io::Result<()> {
    let message = video(alloc)?;
    let start = Instant::now(rt)?;
    let written = write(alloc, &message)?;
    let writer = megabytes(written, start.elapsed(rt)?.as_micros());
    let start = Instant::now(rt)?;
    let copied = copy(alloc, message.body.as_slice())?;
    let copy = megabytes(copied, start.elapsed(rt)?.as_micros());
    println!(rt; "writer: {written} bytes, {writer} MB a second")?;
    println!(rt; "copy: {copied} bytes, {copy} MB a second")
}
