//! Players at a stream that is published by hand, until they have closed their links.
ghost use Rattle.std.specs.Prelude.{◌≡◌, ◌<◌, length, IfOk};
ghost use Rattle.relay_outside.specs.Doors.{IsNewDoor};
ghost use Rattle.relay_outside.specs.MemDoors.{IsNewMemLink, door_told};
ghost use Rattle.relay_session.specs.Places.{IsGrantThere};
ghost use Rattle.stream_registry.specs.Names.{places};
ghost use Rattle.stream_registry.specs.SharedState.{shared_rules};

use crate::doors::Listening;
use crate::names::{Always, LIMITS, STREAM, bytes, names};
use av_unit::{Kind, OutOfMemory, Unit, UnitArc};
use command_dialog::Grant;
use http_worker::{HttpFinished, HttpWorker};
use relay_outside::{MemDoor, MemLink, MemRest};
use std::alloc::{AllocError, Global};
use std::sync::Wait;
use std::test::Fail;
use stream_core::{Call, Entry, Reply};
use stream_model::StreamLimits;
use stream_registry::{OpenList, PlaceTable, PortFail, Shared, StreamPort, shared_ports};

// The bytes that a player is sent: the answer, the header of an FLV, and three tags, each with its size
// behind it. The tags are an AAC sequence header at 0 ms, a keyframe at 40 ms and audio at 41 ms.
const PLAYED: &[u8] = b"HTTP/1.1 200 OK\r\nContent-Type: video/x-flv\r\nConnection: close\r\n\r\n\
FLV\x01\x05\x00\x00\x00\x09\x00\x00\x00\x00\
\x08\x00\x00\x04\x00\x00\x00\x00\x00\x00\x00\xaf\x00\x12\x10\x00\x00\x00\x0f\
\x09\x00\x00\x06\x00\x00\x28\x00\x00\x00\x00\x17\x01\x00\x00\x00\x07\x00\x00\x00\x11\
\x08\x00\x00\x03\x00\x00\x29\x00\x00\x00\x00\xaf\x01\x21\x00\x00\x00\x0e";

const NO: &[u8] = b"\r\nContent-Length: 0\r\nConnection: close\r\n\r\n";

// The grant of a play at a port, by a letter.
fn granted<P: StreamPort>(port: &P, letter: u8, place: u32) -> Grant
    requires { place < places (P.rules port.now) }
    ensures { IsGrantThere (places (P.rules port.now)) result }
{
    let _ = port;
    match letter {
        b'n' => Grant::NoName,
        b'k' => Grant::Refused,
        _ => Grant::Place(place),
    }
}

type TwoPorts = (Shared<PlaceTable>, Shared<PlaceTable>);

/// Two ports to the same gates, at a stream for at most `players` players.
fn two_ports(alloc: Global, players: u32) -> Result<TwoPorts, OutOfMemory> {
    let limits = StreamLimits { players, ..STREAM };
    let mut list = shared_ports(alloc, names(alloc)?, OpenList::new(alloc), limits, 2)?;
    let Some(one) = list.pop() else {
        return Err(OutOfMemory);
    };
    let Some(other) = list.pop() else {
        return Err(OutOfMemory);
    };
    Ok((one, other))
}

// One byte more, which is dropped.
fn wait(alloc: Global, link: &mut MemLink) -> Result<(), AllocError>
    requires { IsNewMemLink link.old }
    ensures { IsNewMemLink link.new }
{
    let mut piece = Vec::new(alloc);
    piece.push(0)?;
    link.give(piece)
}

// Four of them, in four turns.
fn wait_on(alloc: Global, link: &mut MemLink) -> Result<(), AllocError>
    requires { IsNewMemLink link.old }
    ensures { IsNewMemLink link.new }
{
    wait(alloc, link)?;
    wait(alloc, link)?;
    wait(alloc, link)?;
    wait(alloc, link)
}

// The request of a client by a letter: to play by `g`, or a request that isn't allowed.
fn head(alloc: Global, letter: u8) -> Result<Vec<u8>, AllocError> {
    let mut head = Vec::new(alloc);
    head.extend_from_slice(if letter == b'g' { b"GET" } else { b"PUT" })?;
    head.extend_from_slice(b" /live/one.flv?key HTTP/1.1\r\nHost: relay\r\n\r\n")?;
    Ok(head)
}

// The link of such a client, which stays for eight turns.
fn link(alloc: Global, letter: u8) -> Result<MemLink, AllocError>
    ensures { IfOk result IsNewMemLink }
{
    let mut link = MemLink::new(alloc);
    link.give(head(alloc, letter)?)?;
    wait_on(alloc, &mut link)?;
    wait_on(alloc, &mut link)?;
    link.end();
    Ok(link)
}

fn door(alloc: Global, one: u8, other: u8) -> Result<MemDoor, AllocError>
    ensures { IfOk result (λ d. IsNewDoor (door_told d)) }
{
    let mut links = Vec::new(alloc);
    links.push(link(alloc, one)?)?;
    links.push(link(alloc, other)?)?;
    Ok(MemDoor::new(alloc, links, Vec::new(alloc)))
}

fn unit(alloc: Global, kind: Kind, time: u32, body: &[u8]) -> Result<Call, OutOfMemory>
    requires { length body.now < 100 }
{
    let body = bytes(alloc, body)?;
    Ok(Call::Push(UnitArc::new(alloc, Unit { kind, time, body })?))
}

// A publisher's call by its letter.
fn call(alloc: Global, letter: u8) -> Result<Call, OutOfMemory> {
    match letter {
        b'c' => unit(alloc, Kind::AConfig, 0, b"\xaf\x00\x12\x10"),
        b'k' => unit(alloc, Kind::Key, 40, b"\x17\x01\x00\x00\x00\x07"),
        b'a' => unit(alloc, Kind::Audio, 41, b"\xaf\x01\x21"),
        b'e' => Ok(Call::End),
        _ => Ok(Call::Begin),
    }
}

fn is_made(answer: Result<Reply, PortFail>) -> bool {
    answer.is_ok()
}

// Makes one call as a publisher. Whether it was made.
fn make<P: StreamPort>(
    alloc: Global,
    port: &mut P,
    place: u32,
    letter: u8,
) -> Result<bool, OutOfMemory>
    requires { place < places (P.rules port.old) }
    ensures { P.rules port.new ≡ P.rules port.old }
{
    let entry = Entry {
        who: 7,
        at: 0,
        call: call(alloc, letter)?,
    };
    let mut pass = port.attach(place);
    let made = is_made(port.call(place, &mut pass, entry));
    port.detach(place, pass);
    Ok(made)
}

// Makes a short broadcast. Whether all calls were made.
fn publish<P: StreamPort>(alloc: Global, port: &mut P, place: u32) -> Result<bool, OutOfMemory>
    requires { place < places (P.rules port.old) }
{
    let begun = make(alloc, port, place, b'b')?;
    let config = make(alloc, port, place, b'c')?;
    let key = make(alloc, port, place, b'k')?;
    let sound = make(alloc, port, place, b'a')?;
    let ended = make(alloc, port, place, b'e')?;
    Ok(begun && config && key && sound && ended)
}

// Which text of a refusal these bytes are, if one.
fn refusal(bytes: &[u8]) -> Option<u8> {
    let line = bytes.strip_prefix(b"HTTP/1.1 ")?.strip_suffix(NO)?;
    match line {
        b"403 Forbidden" => Some(b'3'),
        b"404 Not Found" => Some(b'4'),
        b"405 Method Not Allowed" => Some(b'5'),
        b"503 Service Unavailable" => Some(b'0'),
        _ => None,
    }
}

// Returns a letter for the bytes that a link took before it came back: all that is played, the text of a
// refusal by a digit of its number, or else.
fn took(door: &MemDoor, link: u32) -> u8 {
    match door.link_took(link) {
        None => b'-',
        Some(bytes) => {
            if bytes == PLAYED {
                return b'p';
            }
            refusal(bytes).unwrap_or(b'?')
        }
    }
}

/// The outcome of a worker: whether its first two rounds moved something, whether all calls of the
/// publisher were made, and the remains.
#[derive(Drop)]
struct Worked {
    moved: bool,
    made: Result<bool, OutOfMemory>,
    left: HttpFinished<Shared<PlaceTable>, Listening>,
}

// A worker at that port serves the links of the door: two rounds, a broadcast at the other port, and all
// rounds to the end.
fn work<W: Wait>(
    rt: &W,
    alloc: Global,
    near: Shared<PlaceTable>,
    far: &mut Shared<PlaceTable>,
    there: u32,
    desk: Always,
    door: Result<Listening, OutOfMemory>,
) -> Result<Worked, OutOfMemory>
    requires granted { IsGrantThere (places (shared_rules near)) desk.grant }
    requires there { there < places (shared_rules far.old) }
    requires door { IfOk door (λ d. IsNewDoor (door_told d.door)) }
{
    let mut worker = HttpWorker::new(alloc, 2, LIMITS, near, door?, MemRest)?;
    let first = worker.round(&desk);
    let second = worker.round(&desk);
    let made = publish(alloc, far, there);
    worker.run(rt, &desk);
    Ok(Worked {
        moved: first.moved && second.moved,
        made,
        left: worker.finish(),
    })
}

// Writes whether both were heard, and the bytes that the links took as they came back. It then writes
// whether all calls were made, and whether something was refused for want of memory. The news of each link
// follows in a line of its own.
fn text(
    alloc: Global,
    moved: bool,
    links: [u8; 2],
    made: Result<bool, OutOfMemory>,
    refused: bool,
    told: &[u8],
) -> Result<Vec<u8>, OutOfMemory> {
    let mut text = Vec::new(alloc);
    text.push(if moved { b'm' } else { b'i' })?;
    text.extend_from_slice(&links)?;
    text.push(if made? { b'+' } else { b'-' })?;
    text.push(if refused { b'!' } else { b'.' })?;
    text.push(b'\n')?;
    text.extend_from_slice(told)?;
    Ok(text)
}

fn text_of(alloc: Global, worked: Result<Worked, OutOfMemory>) -> Result<Vec<u8>, OutOfMemory> {
    let Worked { moved, made, left } = worked?;
    let HttpFinished {
        port,
        door,
        refused,
        worn: _,
    } = left;
    drop(port);
    let Listening { door, told } = door;
    let links = [took(&door, 0), took(&door, 1)];
    drop(door);
    text(alloc, moved, links, made, refused, &told)
}

fn heard_door(alloc: Global, one: u8, other: u8) -> Result<Listening, OutOfMemory>
    ensures { IfOk result (λ d. IsNewDoor (door_told d.door)) }
{
    Ok(Listening {
        door: door(alloc, one, other)?,
        told: Vec::new(alloc),
    })
}

// Returns the outcome if two clients ask before a desk with that grant, at a stream for at most `players`
// players, and then the stream is published.
fn served<W: Wait>(
    rt: &W,
    alloc: Global,
    letter: u8,
    players: u32,
    one: u8,
    other: u8,
) -> Result<Vec<u8>, OutOfMemory> {
    let (near, mut far) = two_ports(alloc, players)?;
    let Ok(place) = near.find(b"live", b"one") else {
        return Err(OutOfMemory);
    };
    let Ok(there) = far.find(b"live", b"one") else {
        return Err(OutOfMemory);
    };
    let desk = Always {
        grant: granted(&near, letter, place),
    };
    let door = heard_door(alloc, one, other);
    text_of(alloc, work(rt, alloc, near, &mut far, there, desk, door))
}

#[test]
fn each_player_is_sent_what_is_published(rt: HostRuntime) -> Result<(), Fail> {
    let alloc = rt.alloc();
    assert_eq!(rt;
        served(&rt, alloc, b'.', 4, b'g', b'g')?.as_slice(),
        b"mpp+.\n\
Plays live/one\nEnded { ending: PeerClosed, at: None } live/one\nPlays live/one\nEnded { ending: PeerClosed, at: None } live/one\n"
            .as_slice()
    );
    Ok(())
}

#[test]
fn who_may_not_play_is_told_why(rt: HostRuntime) -> Result<(), Fail> {
    let alloc = rt.alloc();
    assert_eq!(rt;
        served(&rt, alloc, b'.', 4, b'x', b'g')?.as_slice(),
        b"m5p+.\n\
Ended { ending: Answered(405), at: None } /\nPlays live/one\nEnded { ending: PeerClosed, at: None } live/one\n"
            .as_slice()
    );
    assert_eq!(rt;
        served(&rt, alloc, b'k', 4, b'g', b'x')?.as_slice(),
        b"m35+.\n\
Denied(WrongKey) live/one\nEnded { ending: Answered(403), at: None } live/one\nEnded { ending: Answered(405), at: None } /\n"
            .as_slice()
    );
    assert_eq!(rt;
        served(&rt, alloc, b'n', 4, b'g', b'x')?.as_slice(),
        b"m45+.\n\
Denied(NoName) live/one\nEnded { ending: Answered(404), at: None } live/one\nEnded { ending: Answered(405), at: None } /\n"
            .as_slice()
    );
    assert_eq!(rt;
        served(&rt, alloc, b'.', 1, b'g', b'g')?.as_slice(),
        b"m0p+.\n\
Denied(Full) live/one\nEnded { ending: Answered(503), at: None } live/one\nPlays live/one\nEnded { ending: PeerClosed, at: None } live/one\n"
            .as_slice()
    );
    Ok(())
}
