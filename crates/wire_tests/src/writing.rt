ghost use Rattle.std.specs.Prelude.{◌≡◌, ◌≤◌, ◌<◌, ◌^◌, length, true};
ghost use Rattle.chunk_writer.specs.Rule.{is_written};

use crate::rows::first_row;
use av_unit::{Bytes, OutOfMemory};
use chunk_wire::Message;
use chunk_writer::Writer;
use std::alloc::Global;
use std::test::Fail;

/// Gives the type that a letter stands for.
fn kind_of(letter: u8) -> u8
    ensures { is_written result ≡ true }
{
    match letter {
        b'k' => 3,
        b'w' => 5,
        b'b' => 6,
        b'v' => 9,
        b'd' => 18,
        b'c' => 20,
        _ => 8,
    }
}

/// Writes a message: the letter of its type, the digit of its message stream, four bytes of its time, and its body.
fn put(writer: &mut Writer, row: &[u8], out: &mut Bytes) -> Result<(), OutOfMemory> {
    match row {
        [letter, stream, a, b, c, d, body @ ..] if body.len() < 1_000 => writer.put(
            kind_of(*letter),
            u32::from(stream.wrapping_sub(b'0')),
            u32::from_be_bytes([*a, *b, *c, *d]),
            body,
            out,
        ),
        _ => Ok(()),
    }
}

/// Gives the bytes written of the messages in chunks of that size.
fn written(alloc: Global, size: u32, rows: &[u8]) -> Result<Bytes, OutOfMemory>
    requires some { 1 ≤ size }
    requires most { size < 2 ^ 31 }
{
    let mut writer = Writer::new(alloc);
    writer.set_size(size);
    let mut out = Bytes::new(alloc);
    let mut left = rows;
    for _ in 0..rows.len() {
        let Some((row, rest)) = first_row(left) else {
            break;
        };
        put(&mut writer, row, &mut out)?;
        left = rest;
    }
    Ok(out)
}

#[test]
fn control_messages_share_a_chunk_stream(rt: HostRuntime) -> Result<(), Fail> {
    let alloc = rt.alloc();
    let rows =
        b"w0\x00\x00\x00\x00\x00\x26\x25\xa0|b0\x00\x00\x00\x00\x00\x26\x25\xa0\x02|k0\x00\x00\x00\x00\x00\x00\x03\xe8|\
k0\x00\x00\x00\x00\x00\x00\x07\xd0|k0\x00\x00\x00\x00\x00\x00\x0b\xb8|";
    let text = b"\x02\x00\x00\x00\x00\x00\x04\x05\x00\x00\x00\x00\x00\x26\x25\xa0\
\x42\x00\x00\x00\x00\x00\x05\x06\x00\x26\x25\xa0\x02\
\x42\x00\x00\x00\x00\x00\x04\x03\x00\x00\x03\xe8\xc2\x00\x00\x07\xd0\xc2\x00\x00\x0b\xb8";
    assert_eq!(rt; written(alloc, 128, rows)?.as_slice(), text.as_slice());
    let rows =
        b"k0\x00\x00\x00\x00\x00\x00\x03\xe8|k0\x00\x00\x00\x00\x00\x00\x07\xd0|k0\x00\x00\x00\x00\x00\x00\x0b\xb8|";
    let text =
        b"\x02\x00\x00\x00\x00\x00\x04\x03\x00\x00\x00\x00\x00\x00\x03\xe8\x82\x00\x00\x00\x00\x00\x07\xd0\xc2\x00\x00\x0b\xb8";
    assert_eq!(rt; written(alloc, 128, rows)?.as_slice(), text.as_slice());
    Ok(())
}

#[test]
fn the_format_is_chosen_by_the_message_before(rt: HostRuntime) -> Result<(), Fail> {
    let rows =
        b"a1\x00\x00\x00\x00a|a1\x00\x00\x00\x28b|a1\x00\x00\x00\x50c|a1\x00\x00\x00\x78d|a1\x00\x00\x00\x96e|\
a1\x00\x00\x00\xaaf|a1\x00\x00\x00\xd2gh|a1\x00\x00\x00\xfai|a1\x00\x00\x01\x22j|a1\x00\x00\x01\x4akl|a1\x00\x00\x01\x54mn|\
a1\x00\x00\x01\x4aop|a1\x00\x00\x01\x54q|a2\x00\x00\x01\x54r|a2\x01\x00\x01\x53s|a2\x02\x00\x01\x52t|";
    let text =
        b"\x06\x00\x00\x00\x00\x00\x01\x08\x01\x00\x00\x00a\x86\x00\x00\x28b\xc6c\xc6d\x86\x00\x00\x1ee\
\x86\x00\x00\x14f\x46\x00\x00\x28\x00\x00\x02\x08gh\x46\x00\x00\x28\x00\x00\x01\x08i\xc6j\
\x46\x00\x00\x28\x00\x00\x02\x08kl\x86\x00\x00\x0amn\x06\x00\x01\x4a\x00\x00\x02\x08\x01\x00\x00\x00op\
\x46\x00\x00\x0a\x00\x00\x01\x08q\x06\x00\x01\x54\x00\x00\x01\x08\x02\x00\x00\x00r\
\x86\xff\xff\xff\x00\xff\xff\xffs\x86\xff\xff\xff\x00\xff\xff\xfft";
    assert_eq!(rt; written(rt.alloc(), 128, rows)?.as_slice(), text.as_slice());
    Ok(())
}

#[test]
fn each_chunk_of_a_message_has_its_extended_time(rt: HostRuntime) -> Result<(), Fail> {
    let rows =
        b"v1\x00\xff\xff\xffabcde|v1\x00\xff\xff\xff|c0\x00\x00\x00\x00fghi|d1\xff\xff\xff\xffj|";
    let text = b"\x07\xff\xff\xff\x00\x00\x05\x09\x01\x00\x00\x00\x00\xff\xff\xffab\
\xc7\x00\xff\xff\xffcd\xc7\x00\xff\xff\xffe\x47\x00\x00\x00\x00\x00\x00\x09\
\x03\x00\x00\x00\x00\x00\x04\x14\x00\x00\x00\x00fg\xc3hi\
\x05\xff\xff\xff\x00\x00\x01\x12\x01\x00\x00\x00\xff\xff\xff\xffj";
    assert_eq!(rt; written(rt.alloc(), 2, rows)?.as_slice(), text.as_slice());
    Ok(())
}

/// Writes all chunks of a message of type 9, message stream 1 and this time on chunk stream 4.
fn chunk_by_chunk(
    writer: &mut Writer,
    time: u32,
    body: &[u8],
    out: &mut Bytes,
) -> Result<(), OutOfMemory>
    requires { length body.now < 2 ^ 24 }
{
    let mut sending = writer.begin(4, 9, 1, time, body.len() as u32)?;
    for _ in 0..100 {
        if !sending.next_chunk(body, out)? {
            break;
        }
    }
    Ok(())
}

#[test]
fn a_message_goes_chunk_by_chunk(rt: HostRuntime) -> Result<(), Fail> {
    let alloc = rt.alloc();
    let mut writer = Writer::new(alloc);
    let mut out = Bytes::new(alloc);
    let resize = Message {
        kind: 1,
        stream: 0,
        time: 0,
        body: Bytes::from_vec(Vec::from_slice(alloc, b"\x00\x00\x00\x02")?),
    };
    writer.put_message(&resize, &mut out)?;
    chunk_by_chunk(&mut writer, 40, b"abcde", &mut out)?;
    chunk_by_chunk(&mut writer, 80, b"", &mut out)?;
    chunk_by_chunk(&mut writer, 16_777_296, b"fghi", &mut out)?;
    assert_eq!(rt;
        out.as_slice(),
        b"\x02\x00\x00\x00\x00\x00\x04\x01\x00\x00\x00\x00\x00\x00\x00\x02\
\x04\x00\x00\x28\x00\x00\x05\x09\x01\x00\x00\x00ab\xc4cd\xc4e\
\x44\x00\x00\x28\x00\x00\x00\x09\
\x44\xff\xff\xff\x00\x00\x04\x09\x01\x00\x00\x00fg\xc4\x01\x00\x00\x00hi"
            .as_slice()
    );
    Ok(())
}
