//! The first input of the clients of a soak.
ghost use Rattle.std.specs.Prelude.{◌≡◌, ◌<◌, ◌^◌, ◌++◌, length, IfOk, OnOk};
ghost use Rattle.std.proofs.Math.ListN.{replicate};
ghost use Rattle.chunk_writer.specs.WriterKnown.{fresh};
ghost use Rattle.chunk_writer.specs.Written.{bytes_of, next};
ghost use Rattle.relay_soak.specs.Clients.{after_first, command, connect, create_stream, first_input, play, publish};

use av_unit::{Bytes, OutOfMemory};
use chunk_wire::Message;
use chunk_writer::Writer;
use std::alloc::Global;

// The type of a message with a command.
const COMMAND: u8 = 20;

// The bytes of a handshake, but for the version.
const HANDSHAKE: usize = 3_072;

// connect 1 { app: "live" }
fn connect() -> &'static [u8]
    ensures { result.now ≡ connect }
{
    b"\x02\x00\x07connect\x00\x3f\xf0\x00\x00\x00\x00\x00\x00\x03\x00\x03app\x02\x00\x04live\x00\x00\x09".as_slice()
}

// createStream 2 null
fn create_stream() -> &'static [u8]
    ensures { result.now ≡ create_stream }
{
    b"\x02\x00\x0ccreateStream\x00\x40\x00\x00\x00\x00\x00\x00\x00\x05".as_slice()
}

/// publish 3 null "soak" "live"
pub(crate) fn publish() -> &'static [u8]
    ensures value { result.now ≡ publish }
    ensures short { length result.now < 2 ^ 24 }
{
    b"\x02\x00\x07publish\x00\x40\x08\x00\x00\x00\x00\x00\x00\x05\x02\x00\x04soak\x02\x00\x04live".as_slice()
}

/// play 3 null "soak"
pub(crate) fn play() -> &'static [u8]
    ensures value { result.now ≡ play }
    ensures short { length result.now < 2 ^ 24 }
{
    b"\x02\x00\x04play\x00\x40\x08\x00\x00\x00\x00\x00\x00\x05\x02\x00\x04soak".as_slice()
}

/// Adds `count` zero bytes.
pub(crate) fn add_zeros(alloc: Global, count: usize, out: &mut Bytes) -> Result<(), OutOfMemory>
    ensures { OnOk result (out.new ≡ out.old ++ replicate count 0) }
{
    let zeros = vec![in alloc; 0u8; count]?;
    out.append(&zeros)
}

// Writes a command on a message stream.
fn say(
    alloc: Global,
    writer: &mut Writer,
    stream: u32,
    text: &[u8],
    out: &mut Bytes,
) -> Result<(), OutOfMemory>
    requires { length text.now < 2 ^ 24 }
    ensures writer { OnOk result (writer.new ≡ next writer.old (command stream text.now)) }
    ensures bytes { OnOk result (out.new ≡ out.old ++ bytes_of writer.old (command stream text.now)) }
{
    let mut body = Bytes::new(alloc);
    body.append(text)?;
    let message = Message {
        kind: COMMAND,
        stream,
        time: 0,
        body,
    };
    writer.put_message(&message, out)
}

/// The first input of a session: a version and zero bytes in place of a handshake, and the requests of its
/// client. The client writes with this writer from then on.
pub(crate) fn first_input(
    alloc: Global,
    writer: &mut Writer,
    last: &[u8],
) -> Result<Bytes, OutOfMemory>
    requires fresh { writer.old ≡ fresh }
    requires short { length last.now < 2 ^ 24 }
    ensures bytes { IfOk result (λ b. b ≡ first_input last.now) }
    ensures writer { OnOk result (writer.new ≡ after_first last.now) }
{
    let mut out = Bytes::new(alloc);
    out.append(b"\x03")?;
    add_zeros(alloc, HANDSHAKE, &mut out)?;
    say(alloc, writer, 0, connect(), &mut out)?;
    say(alloc, writer, 0, create_stream(), &mut out)?;
    say(alloc, writer, 1, last, &mut out)?;
    Ok(out)
}
