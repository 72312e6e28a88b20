//! Workers that run until their doors have closed and no session lives.
ghost use Rattle.std.specs.Prelude.{◌≡◌, ◌<◌, ℕ, length, IfOk};
ghost use Rattle.relay_session.specs.Places.{IsGrantThere};
ghost use Rattle.stream_registry.specs.Names.{places};
ghost use Rattle.relay_outside.specs.Doors.{IsNewDoor};
ghost use Rattle.relay_outside.specs.MemDoors.{door_told};

use crate::clients::client;
use crate::doors::Listening;
use crate::names::{Always, LIMITS, STREAM, names};
use av_unit::OutOfMemory;
use command_dialog::Grant;
use media_recorder::{FlvRecorder, TsRecorder};
use relay_outside::{MemDoor, MemRest, MemSink};
use relay_worker::{Finished, Recorder, Worker};
use std::alloc::{AllocError, Global};
use std::sync::Wait;
use std::test::Fail;
use stream_model::StreamLimits;
use stream_registry::{OpenList, Sole, StreamPort};

// A door with two links, which fails that number of times before it gives each.
fn door(alloc: Global, one: &[u8], other: &[u8], fails: u8) -> Result<MemDoor, AllocError>
    ensures { IfOk result (λ d. IsNewDoor (door_told d)) }
{
    let mut links = Vec::new(alloc);
    links.push(client(alloc, one)?)?;
    links.push(client(alloc, other)?)?;
    let fails = u64::from(fails);
    let mut numbers = Vec::new(alloc);
    for number in 0..fails {
        numbers.push(number)?;
        numbers.push(fails + 1 + number)?;
    }
    Ok(MemDoor::new(alloc, links, numbers))
}

// Returns a letter for the bytes that a link took before it came back: nothing, the handshake's answer, or
// more.
fn took(door: &MemDoor, link: u32) -> u8 {
    match door.link_took(link) {
        None => b'-',
        Some(taken) => match taken.len() {
            0 => b'0',
            3_073 => b'h',
            _ => b'+',
        },
    }
}

// The first byte of a file.
fn front(file: &MemSink) -> u8 {
    match file.bytes().first() {
        Some(byte) => *byte,
        None => b'-',
    }
}

// Whether a recorder joined before its stream had an item.
fn from(number: Option<u64>) -> u8 {
    match number {
        Some(0) => b'0',
        Some(_) => b'+',
        None => b'-',
    }
}

// The grant of a publish or a play, by a letter.
fn granted(letter: u8, place: u32) -> Grant
    ensures { (count : ℕ) → place < count → IsGrantThere count result }
{
    match letter {
        b'n' => Grant::NoName,
        b'k' => Grant::Refused,
        _ => Grant::Place(place),
    }
}

// Enlists a recorder that writes FLV and one that writes a transport stream.
fn enlist<P: StreamPort>(
    alloc: Global,
    worker: &mut Worker<P, Listening, MemRest, MemSink>,
) -> Result<(), OutOfMemory>
    requires { 0 < length (P.rules worker.old.bench.port).names }
    ensures { worker.new.bench.port ≡ worker.old.bench.port }
{
    let flv = FlvRecorder::new(alloc, 0, 1 << 60, LIMITS.max_message)?;
    worker.enlist(Recorder::Flv(flv, MemSink::new(alloc, Vec::new(alloc))))?;
    let ts = TsRecorder::new(alloc, 0, (1 << 60) + 1, LIMITS.max_message)?;
    worker.enlist(Recorder::Ts(ts, MemSink::new(alloc, Vec::new(alloc))))
}

// A worker of that door, with a recorder that writes FLV and one that writes a transport stream.
fn worker<P: StreamPort>(
    alloc: Global,
    port: P,
    door: Listening,
) -> Result<Worker<P, Listening, MemRest, MemSink>, OutOfMemory>
    requires there { 0 < length (P.rules port).names }
    requires door { IsNewDoor (door_told door.door) }
    ensures { IfOk result (λ w. w.bench.port ≡ port) }
{
    let mut worker = Worker::new(alloc, 0, 2, LIMITS, port, door, MemRest)?;
    match enlist(alloc, &mut worker) {
        Ok(()) => Ok(worker),
        Err(_) => {
            drop(worker);
            Err(OutOfMemory)
        }
    }
}

// Runs it, before a desk that grants always the same.
fn finished<W: Wait, P: StreamPort>(
    rt: &W,
    mut worker: Worker<P, Listening, MemRest, MemSink>,
    grant: Grant,
) -> Finished<P, Listening, MemSink>
    requires { IsGrantThere (places (P.rules worker.bench.port)) grant }
{
    worker.ready(rt);
    worker.run(rt, &Always { grant });
    worker.finish()
}

// Adds the marks, the item at which each recorder joined, and the beginning of its file.
fn add_files<P: StreamPort>(
    recorders: Vec<Recorder<P, MemSink>>,
    seen: &mut Vec<u8>,
    marks: &[u8],
) -> Result<(), AllocError> {
    seen.extend_from_slice(marks)?;
    for recorder in recorders {
        let joined = from(recorder.joined_from());
        seen.extend_from_slice(&[joined, front(&recorder.into_file())])?;
    }
    Ok(())
}

// Writes the news of its links in the order in which they came back, the bytes that they took, and whether
// something was refused for want of memory. Then follow the items at which its recorders joined and the
// beginnings of their files.
fn seen<P: StreamPort>(
    alloc: Global,
    finished: Finished<P, Listening, MemSink>,
) -> Result<Vec<u8>, OutOfMemory> {
    let Finished {
        port: _,
        door,
        recorders,
        refused,
        worn: _,
    } = finished;
    let marks = [
        took(&door.door, 0),
        took(&door.door, 1),
        if refused { b'!' } else { b'.' },
    ];
    let mut seen = Vec::new(alloc);
    let told = seen.extend_from_slice(&door.told);
    drop(door);
    let files = add_files(recorders, &mut seen, &marks);
    told?;
    files?;
    Ok(seen)
}

// The same of a worker over two such links, the one a round after the other, before a desk with that grant,
// at a stream for one player and two recorders.
fn ran<W: Wait, P: StreamPort>(
    rt: &W,
    alloc: Global,
    port: P,
    letter: u8,
    door: Listening,
) -> Result<Vec<u8>, OutOfMemory>
    requires there { 0 < length (P.rules port).names }
    requires door { IsNewDoor (door_told door.door) }
{
    let Ok(place) = port.find(b"live", b"one") else {
        return Err(OutOfMemory);
    };
    let worker = worker(alloc, port, door)?;
    seen(alloc, finished(rt, worker, granted(letter, place)))
}

// The same over a port of its own, by the door that fails that number of times.
fn told<W: Wait>(
    rt: &W,
    alloc: Global,
    letter: u8,
    one: &[u8],
    other: &[u8],
    fails: u8,
) -> Result<Vec<u8>, OutOfMemory> {
    let door = Listening {
        door: door(alloc, one, other, fails)?,
        told: Vec::new(alloc),
    };
    let limits = StreamLimits {
        players: 3,
        ..STREAM
    };
    let port = Sole::new(alloc, names(alloc)?, OpenList::new(alloc), limits)?;
    ran(rt, alloc, port, letter, door)
}

// A row of the test.
fn row<W: Wait>(rt: &W, alloc: Global, row: u8) -> Result<Vec<u8>, OutOfMemory> {
    match row {
        // Links that only shake hands, over a door that fails and one that doesn't, and over one that fails often.
        b'a' => told(rt, alloc, b'.', b"h", b"v", 0),
        b'b' => told(rt, alloc, b'.', b"h", b"v", 1),
        b'c' => told(rt, alloc, b'.', b"hcspfa", b"h", 100),
        // A publisher that goes on as a player, one that is refused, by its name and by its key.
        b'd' => told(rt, alloc, b'.', b"hcspfadcsy", b"v", 0),
        b'e' => told(rt, alloc, b'n', b"hcspspy", b"h", 0),
        b'f' => told(rt, alloc, b'k', b"hcspy", b"h", 0),
        // Two publishers, and two players.
        b'g' => told(rt, alloc, b'.', b"hcspfafa", b"hcsp", 0),
        _ => told(rt, alloc, b'.', b"hcsyyy", b"hcsy", 0),
    }
}

const TOLD: &[u8] = b"Ended { ending: PeerClosed, at: None } /
Ended { ending: BadVersion, at: Some(0) } /
h0.0F0-
Ended { ending: PeerClosed, at: None } /
Ended { ending: BadVersion, at: Some(0) } /
h0.0F0-
Connected live/
Publishes live/one
Ended { ending: PeerClosed, at: None } live/one
Ended { ending: PeerClosed, at: None } /
+h.0F0G
Ended { ending: BadVersion, at: Some(0) } /
Connected live/
Publishes live/one
Left live/one
Plays live/one
Ended { ending: PeerClosed, at: None } live/one
0+.0F0G
Ended { ending: PeerClosed, at: None } /
Connected live/
Denied(NoName) live/one
Denied(NoName) live/one
Denied(NoName) live/one
Ended { ending: PeerClosed, at: None } live/
h+.0F0-
Ended { ending: PeerClosed, at: None } /
Connected live/
Denied(WrongKey) live/one
Denied(WrongKey) live/one
Ended { ending: PeerClosed, at: None } live/
h+.0F0-
Connected live/
Denied(InUse) live/one
Ended { ending: PeerClosed, at: None } live/
Connected live/
Publishes live/one
Ended { ending: PeerClosed, at: None } live/one
++.0F0G
Connected live/
Denied(Full) live/one
Ended { ending: PeerClosed, at: None } live/
Connected live/
Plays live/one
Ended { ending: PeerClosed, at: None } live/one
++.0F0-
";

#[test]
fn links_come_back_and_are_told_what_is_done_over_them(rt: HostRuntime) -> Result<(), Fail> {
    let alloc = rt.alloc();
    let mut text = Vec::new(alloc);
    for letter in b"abcdefgh" {
        text.extend_from_slice(&row(&rt, alloc, *letter)?)?;
        text.push(b'\n')?;
    }
    assert_eq!(rt; text.as_slice(), TOLD);
    Ok(())
}
