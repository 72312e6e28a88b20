ghost use Rattle.std.specs.Prelude.{◌<◌, ◌≤◌, ◌+◌, ◌^◌, length, IfOk};
ghost use Rattle.relay_outside.specs.Doors.{IsNewDoor};
ghost use Rattle.relay_outside.specs.MemDoors.{IsNewMemLink};

use relay_outside::{
    Door, Got, Heard, House, Knock, Link, MemDoor, MemHouse, MemLink, MemSink, MemSource, Put,
    Rest, Said, Sink, Source,
};
use std::alloc::{AllocError, Global};
use std::test::Fail;

// Gives the answer of a get with room for `room` bytes, up to four, and the bytes.
fn next<S: Source>(
    source: &mut S,
    alloc: Global,
    room: usize,
) -> Result<(Got, Vec<u8>), AllocError> {
    let mut buffer = [9u8; 4];
    let into = &mut buffer[..room.clamp(1, 4)];
    let got = source.get(into);
    let bytes = match got {
        Got::Bytes(count) => into[..count].to_vec(alloc)?,
        _ => Vec::new(alloc),
    };
    Ok((got, bytes))
}

fn put<K: Sink>(sink: &mut K, piece: &[u8]) -> Put
    requires { 0 < length piece.now }
{
    sink.put(piece)
}

#[test]
fn a_source_gives_its_pieces_in_order(rt: HostRuntime) -> Result<(), Fail> {
    let alloc = rt.alloc();
    let pieces = vec![in alloc;
        vec![in alloc; 1, 2, 3]?,
        vec![in alloc]?,
        vec![in alloc; 4]?,
        vec![in alloc]?,
    ]?;
    let mut source = MemSource::new(pieces, vec![in alloc; 1, 5]?);
    for (room, want, bytes) in [
        (2, Got::Bytes(2), b"\x01\x02".as_slice()),
        (2, Got::Failed, b""),
        (4, Got::Bytes(1), b"\x03"),
        (4, Got::Bytes(1), b"\x04"),
        (1, Got::End, b""),
        (1, Got::Failed, b""),
        (1, Got::End, b""),
    ] {
        let (got, given) = next(&mut source, alloc, room)?;
        assert!(rt; got == want);
        assert_eq!(rt; given.as_slice(), bytes);
    }
    Ok(())
}

#[test]
fn a_sink_fails_in_the_middle(rt: HostRuntime) -> Result<(), Fail> {
    let alloc = rt.alloc();
    let mut sink = MemSink::new(alloc, vec![in alloc; 1]?);
    let first = put(&mut sink, b"\x01\x02");
    if first == Put::OutOfMemory {
        assert!(rt; sink.bytes().is_empty());
        return Err(AllocError.into());
    }
    assert!(rt; first == Put::Took(2));
    assert!(rt; put(&mut sink, b"\x03") == Put::Failed);
    assert_eq!(rt; sink.bytes(), b"\x01\x02".as_slice());
    assert!(rt; put(&mut sink, b"\x03\x04") == Put::Took(2));
    assert_eq!(rt; sink.bytes(), b"\x01\x02\x03\x04".as_slice());
    Ok(())
}

// Writes the bytes that a recv with room for two gives, else a letter.
fn hear<L: Link>(link: &mut L, out: &mut Vec<u8>) -> Result<(), AllocError> {
    let mut buffer = [0u8; 2];
    match link.recv(&mut buffer) {
        Heard::Bytes(count) => out.extend_from_slice(&buffer[..count]),
        Heard::End => out.extend_from_slice(b"E"),
        Heard::NotYet => out.extend_from_slice(b"N"),
        Heard::Failed => out.extend_from_slice(b"F"),
    }
}

// Writes the number of bytes, of two, that a send took, else a letter.
fn say<L: Link>(link: &mut L, out: &mut Vec<u8>) -> Result<(), AllocError> {
    match link.send(b"xy") {
        Said::Took(2) => out.extend_from_slice(b"2"),
        Said::Took(_) => out.extend_from_slice(b"1"),
        Said::NotYet => out.extend_from_slice(b"N"),
        Said::Failed => out.extend_from_slice(b"F"),
        Said::OutOfMemory => Err(AllocError),
    }
}

// Makes the call of that letter, and writes its answer.
fn call(
    link: &mut MemLink,
    alloc: Global,
    letter: u8,
    out: &mut Vec<u8>,
) -> Result<(), AllocError> {
    match letter {
        b'g' => link.give(b"abc".as_slice().to_vec(alloc)?)?,
        b'h' => link.give(Vec::new(alloc))?,
        b'e' => link.end(),
        b'3' => link.room(Some(3)),
        b'a' => link.room(None),
        b'R' => link.fail_recv(),
        b'S' => link.fail_send(),
        b'r' => hear(link, out)?,
        b's' => say(link, out)?,
        b'v' => out.extend_from_slice(link.sent())?,
        _ => out.extend_from_slice(&link.take_sent())?,
    }
    Ok(())
}

// Gives the answers of a new link to the calls of these letters.
fn answers(alloc: Global, letters: &[u8]) -> Result<Vec<u8>, AllocError> {
    let mut link = MemLink::new(alloc);
    let mut out = Vec::new(alloc);
    for letter in letters {
        call(&mut link, alloc, *letter, &mut out)?;
    }
    Ok(out)
}

#[test]
fn a_link_answers_as_its_input_its_room_and_its_faults_say(rt: HostRuntime) -> Result<(), Fail> {
    for (calls, want) in [
        // pieces in order, none that is empty, and the end after them
        (b"rghgrrrrrergrrr".as_slice(), b"NabcabcNEabcE".as_slice()),
        // one recv and one send fail, and take nothing
        (b"gRSrrssvrr", b"FabF2xycN"),
        // at most the room, until there is more
        (b"s3sssSssvasv", b"221NFNxyxyx2xyxyxxy"),
        // bytes that were handed over are gone
        (b"sstvst", b"22xyxy2xy"),
    ] {
        let given = answers(rt.alloc(), calls)?;
        assert_eq!(rt; given.as_slice(), want);
    }
    Ok(())
}

fn new_link(alloc: Global, input: &[u8]) -> Result<MemLink, AllocError>
    ensures { IfOk result IsNewMemLink }
{
    let mut link = MemLink::new(alloc);
    link.give(input.to_vec(alloc)?)?;
    Ok(link)
}

// Asks a door for a link. Writes the bytes of the link, sends two bytes to it and hands it back; writes a
// letter if there is none.
fn knock<D: Door>(door: &mut D, out: &mut Vec<u8>) -> Result<(), AllocError>
    requires { (D.told door.old).given < 2 ^ 40 }
    ensures { (D.told door.new).given ≤ (D.told door.old).given + 1 }
{
    match door.next() {
        Knock::Link(link) => {
            let mut link = link;
            hear(&mut link, out)?;
            say(&mut link, out)?;
            door.back(link)
        }
        Knock::NotYet => out.extend_from_slice(b"N"),
        Knock::Closed => out.extend_from_slice(b"C"),
        Knock::Failed => out.extend_from_slice(b"F"),
    }
}

#[test]
fn a_door_gives_its_links_in_order_and_closes(rt: HostRuntime) -> Result<(), Fail> {
    let alloc = rt.alloc();
    let links = vec![in alloc; new_link(alloc, b"ab")?, new_link(alloc, b"cd")?]?;
    let mut door = MemDoor::new(alloc, links, vec![in alloc; 1]?);
    let mut out = Vec::new(alloc);
    knock(&mut door, &mut out)?;
    knock(&mut door, &mut out)?;
    knock(&mut door, &mut out)?;
    knock(&mut door, &mut out)?;
    out.extend_from_slice(door.link_took(1).unwrap_or(b"-"))?;
    out.extend_from_slice(door.link_took(2).unwrap_or(b"-"))?;
    assert_eq!(rt; out.as_slice(), b"ab2Fcd2Cxy-".as_slice());
    Ok(())
}

// Asks a house for the door of a worker, knocks, and shuts the door once it is closed. Writes a letter if
// there is no door.
fn visit<H: House>(house: &mut H, worker: u32, out: &mut Vec<u8>) -> Result<(), AllocError> {
    match house.door(worker, b"", 1) {
        None => out.extend_from_slice(b"F"),
        Some(door) => leave(house, worker, door, out),
    }
}

fn leave<H: House>(
    house: &mut H,
    worker: u32,
    mut door: H::Door,
    out: &mut Vec<u8>,
) -> Result<(), AllocError>
    requires { IsNewDoor (H.Door.told door) }
{
    knock(&mut door, out)?;
    match door.next() {
        Knock::Closed => house.shut(worker, door),
        _ => out.extend_from_slice(b"?"),
    }
}

// Asks a house for a rest, and rests. Writes a letter.
fn rest<H: House>(house: &mut H, out: &mut Vec<u8>) -> Result<(), AllocError> {
    match house.rest(0) {
        None => out.extend_from_slice(b"F"),
        Some(mut rest) => {
            rest.moved();
            rest.pause();
            out.extend_from_slice(b"R")
        }
    }
}

// Keeps a file of that name with three bytes. Writes a letter.
fn keep<H: House>(house: &mut H, name: &[u8], out: &mut Vec<u8>) -> Result<(), AllocError> {
    match house.file(name) {
        None => out.extend_from_slice(b"F"),
        Some(mut file) => {
            let _put = file.put(b"123");
            house.keep(name, file)?;
            out.extend_from_slice(b"K")
        }
    }
}

// Makes the call of that letter.
fn ask(house: &mut MemHouse, letter: u8, out: &mut Vec<u8>) -> Result<(), AllocError> {
    match letter {
        b'0' => visit(house, 0, out),
        b'1' => visit(house, 1, out),
        b'r' => rest(house, out),
        b'k' => keep(house, b"a", out),
        b'f' => out.extend_from_slice(house.file_bytes(b"a").unwrap_or(b"-")),
        _ => out.extend_from_slice(house.link_sent(0, 0).unwrap_or(b"-")),
    }
}

#[test]
fn a_house_gives_doors_and_keeps_what_comes_back(rt: HostRuntime) -> Result<(), Fail> {
    let alloc = rt.alloc();
    let links = vec![in alloc; new_link(alloc, b"ab")?]?;
    let doors = vec![in alloc; MemDoor::new(alloc, links, vec![in alloc]?)]?;
    let mut house = MemHouse::new(alloc, doors, vec![in alloc; 1]?);
    let mut out = Vec::new(alloc);
    for letter in b"fs0rr10kkfs" {
        ask(&mut house, *letter, &mut out)?;
    }
    assert_eq!(rt; out.as_slice(), b"--ab2FRCCKK123xy".as_slice());
    Ok(())
}
