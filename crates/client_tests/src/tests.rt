//! A client that plays, one that publishes and one that is refused. The input is cut into pieces of several
//! lengths.
ghost use Rattle.std.specs.Prelude.{◌≡◌, ◌<◌, false, IfOk};
ghost use Rattle.client_owed.specs.declared.types.Wish.TheVariants.{Push};
ghost use Rattle.rtmp_client.specs.ClientState.{lasting_of};

use av_unit::{Bytes, OutOfMemory};
use client_owed::{Gift, Wish};
use flv_tags::Tag;
use relay_outside::MemLink;
use rtmp_client::{Client, ClientEnd, ClientTurn};
use std::alloc::Global;
use std::test::Fail;

// The bytes of a server, in four parts. The first are its answers to `connect` and `createStream`. The second
// are its answer to `play` and the messages that a player is sent then, with a ping request before the end.
// The others are its answer to `publish`, and a refusal.
const ANSWERS: &[u8] =
    b"\x03\x00\x00\x00\x00\x00\x15\x14\x00\x00\x00\x00\x02\x00\x07_result\x00?\xf0\x00\x00\x00\x00\x00\x00\x05\x05\
    \x03\x00\x00\x00\x00\x00\x1d\x14\x00\x00\x00\x00\x02\x00\x07_result\x00@\x00\x00\x00\x00\x00\x00\x00\x05\x00?\xf0\x00\x00\x00\x00\x00\x00";

const PLAYS: &[u8] =
    b"\x03\x00\x00\x00\x00\x00F\x14\x01\x00\x00\x00\x02\x00\x08onStatus\x00\x00\x00\x00\x00\x00\x00\x00\x00\x05\
        \x03\x00\x05level\x02\x00\x06status\x00\x04code\x02\x00\x14NetStream.Play.Start\x00\x00\x09\
    \x03\x00\x00\x00\x00\x00N\x14\x01\x00\x00\x00\x02\x00\x08onStatus\x00\x00\x00\x00\x00\x00\x00\x00\x00\x05\
        \x03\x00\x05level\x02\x00\x06status\x00\x04code\x02\x00\x1cNetStream.Play.PublishNotify\x00\x00\x09\
    \x06\x00\x00\x05\x00\x00\x06\x09\x01\x00\x00\x00\x17\x01\x00\x00\x00\x07\x02\x00\x00\x00\x00\x00\x06\x04\x00\x00\x00\x00\x00\x06\x00\x00\x00\x09\
    \x03\x00\x00\x00\x00\x00P\x14\x01\x00\x00\x00\x02\x00\x08onStatus\x00\x00\x00\x00\x00\x00\x00\x00\x00\x05\
        \x03\x00\x05level\x02\x00\x06status\x00\x04code\x02\x00\x1eNetStream.Play.UnpublishNotify\x00\x00\x09";

const PUBLISHES: &[u8] =
    b"\x03\x00\x00\x00\x00\x00I\x14\x01\x00\x00\x00\x02\x00\x08onStatus\x00\x00\x00\x00\x00\x00\x00\x00\x00\x05\
        \x03\x00\x05level\x02\x00\x06status\x00\x04code\x02\x00\x17NetStream.Publish.Start\x00\x00\x09";

const REFUSES: &[u8] =
    b"\x03\x00\x00\x00\x00\x00J\x14\x01\x00\x00\x00\x02\x00\x08onStatus\x00\x00\x00\x00\x00\x00\x00\x00\x00\x05\
        \x03\x00\x05level\x02\x00\x05error\x00\x04code\x02\x00\x19NetStream.Publish.BadName\x00\x00\x09";

// The messages of a client: `connect`, the chunk size and `createStream`; `play` and a ping response;
// `publish`; a keyframe; and `deleteStream`.
const SAID: &[u8] =
    b"\x03\x00\x00\x00\x00\x00p\x14\x00\x00\x00\x00\x02\x00\x07connect\x00?\xf0\x00\x00\x00\x00\x00\x00\x03\x00\x03app\x02\x00\x04live\
    \x00\x08flashVer\x02\x00\x1cFMLE/3.0 (compatible; relay)\x00\x05tcUrl\x02\x00\x1artmp://127.0.0.1:1935/live\x00\x00\x09\
    \x02\x00\x00\x00\x00\x00\x04\x01\x00\x00\x00\x00\x00\x00\x10\x00\
    C\x00\x00\x00\x00\x00\x19\x14\x02\x00\x0ccreateStream\x00@\x00\x00\x00\x00\x00\x00\x00\x05";

const PLAY: &[u8] =
    b"\x03\x00\x00\x00\x00\x00\x17\x14\x01\x00\x00\x00\x02\x00\x04play\x00@\x08\x00\x00\x00\x00\x00\x00\x05\x02\x00\x03cam\
    B\x00\x00\x00\x00\x00\x06\x04\x00\x07\x00\x00\x00\x09";

const PUBLISH: &[u8] =
    b"\x03\x00\x00\x00\x00\x00!\x14\x01\x00\x00\x00\x02\x00\x07publish\x00@\x08\x00\x00\x00\x00\x00\x00\x05\x02\x00\x03cam\x02\x00\x04live";

const KEY: &[u8] = b"\x07\x00\x00\x05\x00\x00\x06\x09\x01\x00\x00\x00\x17\x01\x00\x00\x00\x07";

const DELETE: &[u8] =
    b"\x03\x00\x00\x00\x00\x00\x22\x14\x00\x00\x00\x00\x02\x00\x0cdeleteStream\x00@\x10\x00\x00\x00\x00\x00\x00\x05\x00?\xf0\x00\x00\x00\x00\x00\x00";

fn bytes(alloc: Global, text: &[u8]) -> Result<Bytes, OutOfMemory>
    ensures { IfOk result (λ b. b ≡ text.now) }
{
    let mut bytes = Bytes::new(alloc);
    bytes.append(text)?;
    Ok(bytes)
}

// Makes a link that gives a handshake and these bytes, in pieces of this length, and stays open.
fn server(alloc: Global, more: &[u8], piece: usize) -> Result<MemLink, OutOfMemory>
    requires { 0 < piece }
{
    let mut input = bytes(alloc, &[3])?;
    input.append(&[0; 3_072])?;
    input.append(ANSWERS)?;
    input.append(more)?;
    let mut link = MemLink::new(alloc);
    for part in input.as_slice().chunks(piece) {
        link.give(Vec::from_slice(alloc, part)?)?;
    }
    Ok(link)
}

fn letter_of(gift: &Gift) -> u8 {
    match gift {
        Gift::Published => b'P',
        Gift::Tag(_) => b'T',
        Gift::Unpublished => b'U',
    }
}

fn end_of(end: &Option<ClientEnd>) -> u8 {
    match end {
        None => b'-',
        Some(ClientEnd::PeerClosed) => b'c',
        Some(ClientEnd::Refused { .. }) => b'r',
        Some(ClientEnd::Done) => b'd',
        Some(_) => b'x',
    }
}

// Makes a client of the stream.
fn new_client(alloc: Global, wish: Wish) -> Result<Client, OutOfMemory>
    ensures asked { IfOk result (λ c. c.parts.asked.wish ≡ wish) }
    ensures max { IfOk result (λ c. c.parts.reader.max ≡ 65536) }
    ensures open { IfOk result (λ c. c.parts.finished ≡ false) }
{
    let address = bytes(alloc, b"127.0.0.1:1935")?;
    let app = bytes(alloc, b"live")?;
    let name = bytes(alloc, b"cam")?;
    Client::new(alloc, wish, address, app, name, 65_536)
}

// Appends its end and the bytes that it sent to its gifts.
fn told_of(client: &Client, link: &MemLink, mut told: Bytes) -> Result<Bytes, OutOfMemory> {
    told.append(&[end_of(client.end())])?;
    told.append(link.sent())?;
    Ok(told)
}

// Turns a client until it ends, and returns its gifts as letters.
fn gifts_of(alloc: Global, client: &mut Client, link: &mut MemLink) -> Result<Bytes, OutOfMemory> {
    let mut told = Bytes::new(alloc);
    for _ in 0..20_000 {
        match client.turn(alloc, link) {
            ClientTurn::Ended => break,
            ClientTurn::Moved => {}
            ClientTurn::Idle => {}
        }
        if let Some(gift) = client.take() {
            told.append(&[letter_of(&gift)])?;
        }
    }
    Ok(told)
}

// Runs a client until its input ends. Returns its gifts, its end and the bytes that it sent after the
// handshake.
fn run(alloc: Global, client: &mut Client, link: &mut MemLink) -> Result<Bytes, OutOfMemory> {
    link.end();
    let told = gifts_of(alloc, client, link)?;
    told_of(client, link, told)
}

fn told(alloc: Global, wish: Wish, more: &[u8], piece: usize) -> Result<Bytes, OutOfMemory>
    requires { 0 < piece }
{
    let mut client = new_client(alloc, wish)?;
    match server(alloc, more, piece) {
        Ok(mut link) => {
            let told = run(alloc, &mut client, &mut link);
            drop(client);
            drop(link);
            told
        }
        Err(e) => {
            drop(client);
            Err(e)
        }
    }
}

// Turns a client twenty times.
fn turned(alloc: Global, client: &mut Client, link: &mut MemLink)
    ensures { lasting_of client.new.parts ≡ lasting_of client.old.parts }
{
    for _ in 0..20 {
        client.turn(alloc, link);
    }
}

// Publishes a keyframe by a client, which then finishes. Returns its end and the bytes that it sent.
fn publish(alloc: Global, client: &mut Client, link: &mut MemLink) -> Result<Bytes, OutOfMemory>
    requires asked { client.old.parts.asked.wish ≡ Push }
    requires max { client.old.parts.reader.max ≡ 65536 }
    requires open { client.old.parts.finished ≡ false }
{
    turned(alloc, client, link);
    if client.end().is_none() && client.started() && client.pending() == 0 {
        let body = bytes(alloc, b"\x17\x01\x00\x00\x00\x07")?;
        client.give(Tag {
            kind: 9,
            time: 5,
            body,
        })?;
        client.finish(alloc)?;
    }
    turned(alloc, client, link);
    told_of(client, link, Bytes::new(alloc))
}

fn published(alloc: Global) -> Result<Bytes, OutOfMemory> {
    let mut client = new_client(alloc, Wish::Push)?;
    match server(alloc, PUBLISHES, 5_000) {
        Ok(mut link) => {
            let told = publish(alloc, &mut client, &mut link);
            drop(client);
            drop(link);
            told
        }
        Err(e) => {
            drop(client);
            Err(e)
        }
    }
}

fn expected(alloc: Global, letters: &[u8], asked: &[u8]) -> Result<Bytes, OutOfMemory> {
    let mut all = bytes(alloc, letters)?;
    all.append(&[3])?;
    all.append(&[0; 3_072])?;
    all.append(SAID)?;
    all.append(asked)?;
    Ok(all)
}

#[test]
fn a_client_plays(rt: HostRuntime) -> Result<(), Fail> {
    let alloc = rt.alloc();
    let all = expected(alloc, b"PTUc", PLAY)?;
    assert_eq!(rt; told(alloc, Wish::Pull, PLAYS, 5_000)?, all);
    assert_eq!(rt; told(alloc, Wish::Pull, PLAYS, 1)?, all);
    Ok(())
}

#[test]
fn a_client_publishes(rt: HostRuntime) -> Result<(), Fail> {
    let alloc = rt.alloc();
    let mut all = expected(alloc, b"d", PUBLISH)?;
    all.append(KEY)?;
    all.append(DELETE)?;
    assert_eq!(rt; published(alloc)?, all);
    Ok(())
}

#[test]
fn a_client_is_refused(rt: HostRuntime) -> Result<(), Fail> {
    let alloc = rt.alloc();
    let all = expected(alloc, b"r", PUBLISH)?;
    assert_eq!(rt; told(alloc, Wish::Push, REFUSES, 7)?, all);
    Ok(())
}
