//! The calls of an edge for the messages of its origin, in pieces of several lengths.
ghost use Rattle.std.specs.Prelude.{◌≡◌, ◌<◌, IfOk};
ghost use Rattle.stream_registry.specs.Books.{FitsSole, sole_rules};
ghost use Rattle.stream_registry.specs.Names.{places};
ghost use Rattle.origin_pull.specs.EdgeState.{IsNew};
ghost use Rattle.origin_pull.specs.Keeping.{IsAt};

use crate::names::{STREAM, bytes, names};
use crate::origins::said;
use av_unit::{Bytes, Kind, OutOfMemory};
use client_owed::Wish;
use origin_pull::{Edge, EdgeEnd, EdgeTurn};
use relay_outside::MemLink;
use rtmp_client::Client;
use std::alloc::Global;
use std::test::Fail;
use stream_model::{Call, Entry, Reply};
use stream_registry::{OpenList, Sole, StreamPort};

// A link to an origin that says this, in pieces of this length, and closes.
fn origin(alloc: Global, letters: &[u8], piece: usize) -> Result<MemLink, OutOfMemory>
    requires { 0 < piece }
{
    let said = said(alloc, 3, letters)?;
    let mut link = MemLink::new(alloc);
    for part in said.as_slice().chunks(piece) {
        link.give(Vec::from_slice(alloc, part)?)?;
    }
    link.end();
    Ok(link)
}

fn port(alloc: Global) -> Result<Sole, OutOfMemory>
    ensures { IfOk result (λ s. places (sole_rules s.rules) ≡ 1) }
{
    Sole::new(alloc, names(alloc)?, OpenList::new(alloc), STREAM)
}

fn client(alloc: Global) -> Result<Client, OutOfMemory>
    ensures { IfOk result IsNew }
{
    Client::new(
        alloc,
        Wish::Pull,
        bytes(alloc, b"127.0.0.1:1935")?,
        bytes(alloc, b"live")?,
        bytes(alloc, b"one")?,
        65_536,
    )
}

fn kind_of(kind: Kind) -> u8 {
    match kind {
        Kind::Meta => b'm',
        Kind::VConfig => b'v',
        Kind::AConfig => b'a',
        Kind::Key => b'k',
        Kind::Inter => b'i',
        Kind::Spare => b'd',
        Kind::Audio => b's',
        Kind::Data => b'o',
    }
}

fn called(call: &Call) -> u8 {
    match call {
        Call::Begin => b'B',
        Call::End => b'E',
        Call::Push(unit) => kind_of(unit.unit().kind),
        _ => b'?',
    }
}

fn answered(reply: &Reply) -> u8 {
    match reply {
        Reply::Began { .. } => b'b',
        Reply::InUse { .. } => b'u',
        Reply::Pushed { .. } => b'p',
        Reply::Ended { .. } => b'e',
        _ => b'x',
    }
}

fn end_of(end: Option<EdgeEnd>) -> u8 {
    match end {
        None => b'-',
        Some(EdgeEnd::Client) => b'C',
        Some(EdgeEnd::InUse { .. }) => b'I',
        Some(_) => b'X',
    }
}

// Turns an edge until it ends, and closes it.
fn turned(alloc: Global, edge: &mut Edge<Sole>, port: &mut Sole, link: &mut MemLink)
    requires { IsAt (FitsSole port.old) (places (sole_rules port.old.rules)) edge.old.parts edge.old.seat }
    ensures { sole_rules port.new.rules ≡ sole_rules port.old.rules }
{
    for _ in 0..20_000 {
        match edge.turn(alloc, port, link) {
            EdgeTurn::Ended(_) => break,
            EdgeTurn::Moved => {}
            EdgeTurn::Idle => {}
        }
    }
    edge.close(port);
}

// Somebody else publishes at the place.
fn publish(port: &mut Sole) -> Result<(), OutOfMemory>
    requires { 0 < places (sole_rules port.old.rules) }
    ensures { sole_rules port.new.rules ≡ sole_rules port.old.rules }
{
    let mut pass = port.attach(0);
    let entry = Entry {
        who: 5,
        at: 0,
        call: Call::Begin,
    };
    let answer = port.call(0, &mut pass, entry);
    port.detach(0, pass);
    match answer {
        Ok(_) => Ok(()),
        Err(_) => Err(OutOfMemory),
    }
}

// A port at which somebody else publishes, if that is said.
fn taken_port(alloc: Global, taken: bool) -> Result<Sole, OutOfMemory>
    ensures { IfOk result (λ s. places (sole_rules s.rules) ≡ 1) }
{
    let mut port = port(alloc)?;
    if taken {
        publish(&mut port)?;
    }
    Ok(port)
}

// Pulls the stream into the port by an edge, until that ends. How it ended.
#[tactic(auto, using(crate::proofs::Fresh::new_at))]
fn pulled(
    alloc: Global,
    port: &mut Sole,
    link: &mut MemLink,
) -> Result<Option<EdgeEnd>, OutOfMemory>
    requires { 0 < places (sole_rules port.old.rules) }
    ensures { sole_rules port.new.rules ≡ sole_rules port.old.rules }
{
    let mut edge = Edge::new(9, 0, client(alloc)?);
    turned(alloc, &mut edge, port, link);
    Ok(edge.end())
}

// The calls at the place and how they were answered, and how the edge ended.
fn text_of(
    alloc: Global,
    port: &Sole,
    end: Result<Option<EdgeEnd>, OutOfMemory>,
) -> Result<Bytes, OutOfMemory>
    requires { 0 < places (sole_rules port.now.rules) }
{
    let mut text = Bytes::new(alloc);
    for step in port.journal(0) {
        text.append(&[called(&step.0.call), answered(&step.1)])?;
    }
    text.append(&[end_of(end?)])?;
    Ok(text)
}

// The same of an edge over this link, at a port at which somebody else publishes, if that is said.
fn told_over(alloc: Global, taken: bool, link: &mut MemLink) -> Result<Bytes, OutOfMemory> {
    let mut port = taken_port(alloc, taken)?;
    let end = pulled(alloc, &mut port, link);
    text_of(alloc, &port, end)
}

// The same for an origin that says this, in such pieces.
fn told(alloc: Global, taken: bool, letters: &[u8], piece: usize) -> Result<Bytes, OutOfMemory>
    requires { 0 < piece }
{
    let mut link = origin(alloc, letters, piece)?;
    told_over(alloc, taken, &mut link)
}

// The same for pieces of several lengths.
fn all_told(alloc: Global, taken: bool, letters: &[u8]) -> Result<Bytes, OutOfMemory> {
    let whole = told(alloc, taken, letters, 5_000)?;
    if told(alloc, taken, letters, 1)? != whole || told(alloc, taken, letters, 7)? != whole {
        return bytes(alloc, b"they differ");
    }
    Ok(whole)
}

// The same for each of these, which have spaces between them.
fn each_told(alloc: Global, taken: bool, list: &[u8]) -> Result<Bytes, OutOfMemory> {
    let mut all = Bytes::new(alloc);
    for letters in list.split(|b| *b == b' ') {
        let told = all_told(alloc, taken, letters)?;
        all.append(told.as_slice())?;
        all.append(b" ")?;
    }
    Ok(all)
}

#[test]
fn a_broadcast_stands_at_the_place(rt: HostRuntime) -> Result<(), Fail> {
    let alloc = rt.alloc();
    assert_eq!(rt;
        each_told(
            alloc,
            false,
            b"ASPmvakisU ASkis ASPkPkU ASPkUk ASUUn ASPvkdU"
        )?,
        bytes(
            alloc,
            b"BbmpvpapkpipspEeC BbkpipspEeC BbkpEeBbkpEeC BbkpEeBbkpEeC C BbvpkpipEeC "
        )?
    );
    Ok(())
}

#[test]
fn somebody_else_publishes(rt: HostRuntime) -> Result<(), Fail> {
    let alloc = rt.alloc();
    assert_eq!(rt;
        each_told(alloc, true, b"ASPkU ASk")?,
        bytes(alloc, b"BbBuI BbBuI ")?
    );
    Ok(())
}
