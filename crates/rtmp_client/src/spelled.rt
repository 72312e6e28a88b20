//! The commands that a client says (RTMP 1.0, sections 7.2.1 and 7.2.2).
ghost use Rattle.std.specs.Prelude.{◌≡◌, ◌<◌, ◌≤◌, ◌^◌, ◌++◌, length, IfOk, OnOk};
ghost use Rattle.amf0_value.specs.Tree.{null, number, text as a_text};
ghost use Rattle.amf0_value.specs.Encoding.{items_spelling, spelling};
ghost use Rattle.amf0_value.specs.Pattern.{pattern};
ghost use Rattle.client_owed.specs.Client.{ask as ask_of, asks, connect as connect_of, connects, create_stream as create_of, creates, delete_stream as delete_of, deletes, described, tc_url as url_of};
ghost use Rattle.client_owed.specs.declared.types.Wish.TheVariants as wish;
ghost use Rattle.rtmp_client.specs.Keeping.{IsNamed};

use amf0_value::{Amf, bits_of, encode};
use av_unit::{Bytes, OutOfMemory};
use chunk_wire::Message;
use client_owed::{Asked, Wish};
use std::alloc::Global;

// A command message (7.1.1).
const COMMAND: u8 = 20;

fn put_text(alloc: Global, text: &[u8], out: &mut Bytes) -> Result<(), OutOfMemory>
    requires { length text.now < 2 ^ 16 }
    ensures { OnOk result (out.new ≡ out.old ++ spelling (a_text text.now)) }
{
    let list = Vec::from_slice(alloc, text)?;
    let value = Amf::Text(Bytes::from_vec(list));
    encode(&value, out)
}

fn put_number(bits: u64, out: &mut Bytes) -> Result<(), OutOfMemory>
    ensures { OnOk result (out.new ≡ out.old ++ spelling (number bits)) }
{
    let value = Amf::Number(bits);
    encode(&value, out)
}

fn put_null(out: &mut Bytes) -> Result<(), OutOfMemory>
    ensures { OnOk result (out.new ≡ out.old ++ spelling null) }
{
    let value = Amf::Null;
    encode(&value, out)
}

// Returns the URL of the app at its server.
fn tc_url(alloc: Global, asked: &Asked) -> Result<Bytes, OutOfMemory>
    ensures { IfOk result (λ url. url ≡ url_of asked.now) }
{
    let mut url = Bytes::new(alloc);
    url.append(b"rtmp://")?;
    url.append(asked.address.as_slice())?;
    url.append(b"/")?;
    url.append(asked.app.as_slice())?;
    Ok(url)
}

// Appends the object of `connect`.
fn put_described(alloc: Global, asked: &Asked, out: &mut Bytes) -> Result<(), OutOfMemory>
    requires { IsNamed asked.now }
    ensures { OnOk result (out.new ≡ out.old ++ spelling (described asked.now)) }
{
    let url = tc_url(alloc, asked)?;
    out.append(b"\x03\x00\x03app")?;
    put_text(alloc, asked.app.as_slice(), out)?;
    out.append(b"\x00\x08flashVer")?;
    put_text(alloc, b"FMLE/3.0 (compatible; relay)", out)?;
    out.append(b"\x00\x05tcUrl")?;
    put_text(alloc, url.as_slice(), out)?;
    out.append(&[0x00, 0x00, 0x09])?;
    Ok(())
}

// Returns the bytes of a name and a transaction.
fn called(alloc: Global, name: &[u8], transaction: u64) -> Result<Bytes, OutOfMemory>
    requires name { length name.now < 2 ^ 16 }
    requires transaction { transaction < 2 ^ 53 }
    ensures { IfOk result (λ body. body ≡ spelling (a_text name.now) ++ spelling (number (pattern transaction))) }
{
    let mut out = Bytes::new(alloc);
    put_text(alloc, name, &mut out)?;
    put_number(bits_of(transaction), &mut out)?;
    Ok(out)
}

fn connect_body(alloc: Global, asked: &Asked) -> Result<Bytes, OutOfMemory>
    requires { IsNamed asked.now }
    ensures { IfOk result (λ body. body ≡ items_spelling (connects asked.now)) }
{
    let mut out = called(alloc, b"connect", 1)?;
    put_described(alloc, asked, &mut out)?;
    Ok(out)
}

fn create_body(alloc: Global) -> Result<Bytes, OutOfMemory>
    ensures { IfOk result (λ body. body ≡ items_spelling creates) }
{
    let mut out = called(alloc, b"createStream", 2)?;
    put_null(&mut out)?;
    Ok(out)
}

fn publish_body(alloc: Global, name: &[u8]) -> Result<Bytes, OutOfMemory>
    requires { length name.now ≤ 255 }
    ensures { IfOk result (λ body. body ≡ items_spelling (asks wish.Push name.now)) }
{
    let mut out = called(alloc, b"publish", 3)?;
    put_null(&mut out)?;
    put_text(alloc, name, &mut out)?;
    put_text(alloc, b"live", &mut out)?;
    Ok(out)
}

fn play_body(alloc: Global, name: &[u8]) -> Result<Bytes, OutOfMemory>
    requires { length name.now ≤ 255 }
    ensures { IfOk result (λ body. body ≡ items_spelling (asks wish.Pull name.now)) }
{
    let mut out = called(alloc, b"play", 3)?;
    put_null(&mut out)?;
    put_text(alloc, name, &mut out)?;
    Ok(out)
}

fn delete_body(alloc: Global, id: u32) -> Result<Bytes, OutOfMemory>
    ensures { IfOk result (λ body. body ≡ items_spelling (deletes id)) }
{
    let mut out = called(alloc, b"deleteStream", 4)?;
    put_null(&mut out)?;
    put_number(bits_of(u64::from(id)), &mut out)?;
    Ok(out)
}

// Makes a command message on a message stream.
fn command(stream: u32, body: Bytes) -> Message
    ensures { result ≡ record { kind = 20; stream = stream; time = 0; body = body } }
{
    Message {
        kind: COMMAND,
        stream,
        time: 0,
        body,
    }
}

/// Makes `connect` to the app at its server (7.2.1.1).
pub(crate) fn connect(alloc: Global, asked: &Asked) -> Result<Message, OutOfMemory>
    requires { IsNamed asked.now }
    ensures { IfOk result (λ m. m ≡ connect_of asked.now) }
{
    let body = connect_body(alloc, asked)?;
    Ok(command(0, body))
}

/// Makes `createStream` (7.2.1.3).
pub(crate) fn create_stream(alloc: Global) -> Result<Message, OutOfMemory>
    ensures { IfOk result (λ m. m ≡ create_of) }
{
    let body = create_body(alloc)?;
    Ok(command(0, body))
}

/// Makes `publish` or `play` on a message stream (7.2.2.6, 7.2.2.1).
pub(crate) fn ask(alloc: Global, asked: &Asked, id: u32) -> Result<Message, OutOfMemory>
    requires { IsNamed asked.now }
    ensures { IfOk result (λ m. m ≡ ask_of asked.now id) }
{
    let name = asked.name.as_slice();
    let body = match asked.wish {
        Wish::Push => publish_body(alloc, name)?,
        Wish::Pull => play_body(alloc, name)?,
    };
    Ok(command(id, body))
}

/// Makes `deleteStream` of a message stream (7.2.2.3).
pub(crate) fn delete_stream(alloc: Global, id: u32) -> Result<Message, OutOfMemory>
    ensures { IfOk result (λ m. m ≡ delete_of id) }
{
    let body = delete_body(alloc, id)?;
    Ok(command(0, body))
}
