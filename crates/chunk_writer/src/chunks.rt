//! The bytes of a message that is begun.
ghost use Rattle.std.specs.Prelude.{◌≡◌, ◌≤◌, ◌<◌, ◌^◌, ◌++◌, List, ℕ, length, OnOk, OnErr};
ghost use Rattle.chunk_writer.specs.Written.{IsBegun, extended_bytes, header_with, message_bytes, spread};

use crate::Begun;
use crate::begun::EXTENDED;
use crate::lengths::message_len;
use av_unit::{Bytes, OutOfMemory};
use chunk_wire::{Head, write_head};

// Appends the extended time of a message that has one.
#[tactic(auto, unfolding(crate::specs::Written::extended_bytes))]
fn write_extended(begun: &Begun, out: &mut Bytes) -> Result<(), OutOfMemory>
    ensures ok { OnOk result (out.new ≡ out.old ++ extended_bytes begun.now.terms) }
    ensures err { OnErr result (out.new ≡ out.old) }
{
    if begun.terms.extended {
        return out.append(&begun.terms.delta.to_be_bytes());
    }
    Ok(())
}

// Appends the header of a chunk of the message.
#[tactic(auto, unfolding(crate::specs::Written::header_with))]
fn write_header(format: u8, begun: &Begun, out: &mut Bytes) -> Result<(), OutOfMemory>
    requires format { format < 4 }
    requires begun { IsBegun begun.now }
    ensures ok { OnOk result (out.new ≡ out.old ++ header_with format begun.now) }
    ensures err { OnErr result ((rest : List ℕ) × (out.new ≡ out.old ++ rest)) }
{
    let head = Head {
        format,
        id: begun.id,
        field: begun.terms.delta.min(EXTENDED),
        length: begun.terms.length,
        kind: begun.terms.kind,
        stream: begun.terms.stream,
    };
    write_head(&head, out)?;
    write_extended(begun, out)
}

// Appends a chunk.
fn write_parts(format: u8, begun: &Begun, piece: &[u8], out: &mut Bytes) -> Result<(), OutOfMemory>
    requires format { format < 4 }
    requires begun { IsBegun begun.now }
    ensures ok { OnOk result (out.new ≡ out.old ++ (header_with format begun.now ++ piece.now)) }
    ensures err { OnErr result ((rest : List ℕ) × (out.new ≡ out.old ++ rest)) }
{
    write_header(format, begun, out)?;
    out.append(piece)
}

/// Appends a chunk. If memory is refused, `out` stays as it was.
pub(crate) fn write_chunk(
    format: u8,
    begun: &Begun,
    piece: &[u8],
    out: &mut Bytes,
) -> Result<(), OutOfMemory>
    requires format { format < 4 }
    requires begun { IsBegun begun.now }
    ensures ok { OnOk result (out.new ≡ out.old ++ (header_with format begun.now ++ piece.now)) }
    ensures err { OnErr result (out.new ≡ out.old) }
{
    let before = out.len();
    let result = write_parts(format, begun, piece, out);
    if result.is_err() {
        out.truncate(before);
    }
    result
}

// Appends a chunk's payload and the header of the next chunk.
fn write_full(begun: &Begun, piece: &[u8], out: &mut Bytes) -> Result<(), OutOfMemory>
    requires begun { IsBegun begun.now }
    ensures ok { OnOk result (out.new ≡ out.old ++ (piece.now ++ header_with 3 begun.now)) }
    ensures err { OnErr result ((rest : List ℕ) × (out.new ≡ out.old ++ rest)) }
{
    out.append(piece)?;
    write_header(3, begun, out)
}

// Appends the payload, in runs of the chunk size.
fn write_payload(
    begun: &Begun,
    size: usize,
    body: &[u8],
    out: &mut Bytes,
) -> Result<(), OutOfMemory>
    requires begun { IsBegun begun.now }
    requires size { 1 ≤ size }
    ensures ok { OnOk result (out.new ≡ out.old ++ spread (header_with 3 begun.now) size size body.now) }
    ensures err { OnErr result ((rest : List ℕ) × (out.new ≡ out.old ++ rest)) }
{
    let mut left = body;
    while left.len() > size {
        let (piece, rest) = left.split_at(size);
        write_full(begun, piece, out)?;
        left = rest;
    }
    out.append(left)
}

/// Appends the message. After a refusal, `out` begins with the bytes that it held before.
pub(crate) fn write_message(
    size: usize,
    begun: &Begun,
    body: &[u8],
    out: &mut Bytes,
) -> Result<(), OutOfMemory>
    requires begun { IsBegun begun.now }
    requires size { 1 ≤ size }
    requires length { length body.now < 2 ^ 24 }
    ensures ok { OnOk result (out.new ≡ out.old ++ message_bytes size begun.now body.now) }
    ensures err { OnErr result ((rest : List ℕ) × (out.new ≡ out.old ++ rest)) }
{
    out.reserve(message_len(begun, size, body.len()))?;
    write_header(begun.format, begun, out)?;
    write_payload(begun, size, body, out)
}
