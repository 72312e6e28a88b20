//! The units that are published in a soak.
ghost use Rattle.std.specs.Prelude.{◌≡◌, ◌<◌, ◌+◌, IfOk, OnOk};
ghost use Rattle.relay_soak.specs.Units.{before, body, head, kind, message, piece};

use crate::clients::add_zeros;
use av_unit::{Bytes, OutOfMemory};
use chunk_wire::Message;
use chunk_writer::Writer;
use std::alloc::Global;

// How unit `i` begins.
fn head(i: u32) -> &'static [u8]
    ensures { result.now ≡ head i }
{
    if i % 250 == 0 {
        b"\x17\x00".as_slice()
    } else if i % 250 == 1 {
        b"\x17\x01".as_slice()
    } else if i % 2 == 0 {
        b"\x27\x01".as_slice()
    } else {
        b"\xaf\x01".as_slice()
    }
}

// The type of its message.
fn kind(i: u32) -> u8
    ensures { result ≡ kind i }
{
    if i % 250 == 0 {
        9
    } else if i % 250 == 1 {
        9
    } else if i % 2 == 0 {
        9
    } else {
        8
    }
}

// Its bytes.
fn body(alloc: Global, i: u32) -> Result<Bytes, OutOfMemory>
    requires { i < 100000 }
    ensures { IfOk result (λ b. b ≡ body i) }
{
    let mut body = Bytes::new(alloc);
    body.append(head(i))?;
    let zeros = 8 + (37 * i) % 990;
    add_zeros(alloc, zeros as usize, &mut body)?;
    Ok(body)
}

/// The bytes of unit `i` as its client writes them.
pub(crate) fn piece(alloc: Global, writer: &mut Writer, i: u32) -> Result<Bytes, OutOfMemory>
    requires below { i < 100000 }
    requires written { writer.old ≡ before i }
    ensures bytes { IfOk result (λ b. b ≡ piece i) }
    ensures writer { OnOk result (writer.new ≡ before (i + 1)) }
{
    let message = Message {
        kind: kind(i),
        stream: 1,
        time: 20 * i,
        body: body(alloc, i)?,
    };
    let mut out = Bytes::new(alloc);
    writer.put_message(&message, &mut out)?;
    Ok(out)
}
