//! Servers that run until the last link is gone, or that serve nobody.
use crate::clients::{client, ending};
use crate::commands::{guards, source, text, words};
use key_guard::Guards;
use relay_outside::{House, MemDoor, MemHouse, MemSink};
use relay_serve::serve;
use std::alloc::{AllocError, Global};
use std::sync::Wait;
use std::test::Fail;
use std::thread::Threads;

const RECORDS: &[u8] =
    b"[relay]\nlisten = \"127.0.0.1:1935\"\nworkers = 2\naccept = 1\n[[stream]]\napp = \"live\"\nname = \"one\"\nflv = \"one.flv\"\nts = \"one.ts\"\n";

const IS_OPEN: &[u8] =
    b"[relay]\nlisten = \"127.0.0.1:1935\"\nworkers = 2\naccept = 1\n[[stream]]\napp = \"live\"\nname = \"two\"\n[[open]]\napp = \"live\"\nnames = 2\n";

const SPEAKS_HTTP: &[u8] =
    b"[relay]\nlisten = \"127.0.0.1:1935\"\nhttp = \"127.0.0.1:8080\"\nworkers = 2\n[[stream]]\napp = \"live\"\nname = \"one\"\nplay = [\"key\"]\n";

// Serves by that configuration with these guards, and tells the code.
fn served_by<T: Threads + Wait + Sync, H: House>(
    rt: &T,
    alloc: Global,
    config: &[u8],
    guards: &Guards,
    house: &mut H,
    report: &mut MemSink,
) -> Result<u8, AllocError> {
    let words = words(alloc, b"serve relay.toml")?;
    let mut config = source(alloc, config)?;
    let status = serve(rt, alloc, &words, guards, &mut config, house, report);
    Ok(status.code)
}

// The same with guards of its own.
fn served<T: Threads + Wait + Sync, H: House>(
    rt: &T,
    alloc: Global,
    config: &[u8],
    house: &mut H,
    report: &mut MemSink,
) -> Result<u8, AllocError> {
    let guards = guards(alloc)?;
    let code = served_by(rt, alloc, config, &guards, house, report);
    drop(guards);
    code
}

// The first byte of a file.
fn front(file: Option<&[u8]>) -> u8 {
    match file {
        Some([first, ..]) => *first,
        Some([]) => b'0',
        None => b'-',
    }
}

// Serves by that configuration over a house whose first door has the link of a client that sends the parts
// of these letters. The calls of the house and of the door with these numbers fail. Returns the code, the
// beginnings of the files, whether the link was sent more than the handshake's answer, and the report.
fn told<T: Threads + Wait + Sync>(
    rt: &T,
    alloc: Global,
    config: &[u8],
    letters: &[u8],
    fails: Vec<u64>,
    door_fails: Vec<u64>,
) -> Result<Vec<u8>, AllocError> {
    let links = vec![in alloc; client(alloc, letters)?]?;
    let doors = vec![in alloc; MemDoor::new(alloc, links, door_fails)]?;
    let mut house = MemHouse::new(alloc, doors, fails);
    let mut report = MemSink::new(alloc, Vec::new(alloc));
    let code = served(rt, alloc, config, &mut house, &mut report);
    let front = marks(&house);
    drop(house);
    let told = text(alloc, code, &front, &report);
    drop(report);
    told
}

// How the files begin, and whether the link was sent more than the handshake's answer.
fn marks(house: &MemHouse) -> [u8; 3] {
    let sent = house.link_sent(0, 0).is_some_and(|sent| sent.len() > 3_073);
    [
        front(house.file_bytes(b"one.flv")),
        front(house.file_bytes(b"one.ts")),
        if sent { b'+' } else { b'-' },
    ]
}

// Serves over a house whose third door has the link of a client that sends this and ends. Returns the bytes
// that the client was sent, and the report.
fn answered<T: Threads + Wait + Sync>(
    rt: &T,
    alloc: Global,
    request: &[u8],
) -> Result<Vec<u8>, AllocError> {
    let links = vec![in alloc; ending(alloc, request.to_vec(alloc)?)?]?;
    let doors = vec![in alloc;
        MemDoor::new(alloc, Vec::new(alloc), Vec::new(alloc)),
        MemDoor::new(alloc, Vec::new(alloc), Vec::new(alloc)),
        MemDoor::new(alloc, links, Vec::new(alloc)),
    ]?;
    let mut house = MemHouse::new(alloc, doors, Vec::new(alloc));
    let mut report = MemSink::new(alloc, Vec::new(alloc));
    let code = served(rt, alloc, SPEAKS_HTTP, &mut house, &mut report);
    let told = text(alloc, code, house.link_sent(2, 0).unwrap_or(b""), &report);
    drop(house);
    drop(report);
    told
}

// A row of the test: two recordings, of which one has a frame and a door that fails, an open table, and two
// players over HTTP.
fn row<T: Threads + Wait + Sync>(rt: &T, alloc: Global, row: u8) -> Result<Vec<u8>, AllocError> {
    let none = Vec::new(alloc);
    match row {
        b'a' => told(rt, alloc, RECORDS, b"hcspf", none, Vec::new(alloc)),
        b'b' => told(rt, alloc, RECORDS, b"hcspfa", none, vec![in alloc; 0]?),
        b'c' => told(rt, alloc, IS_OPEN, b"hcspfa", none, Vec::new(alloc)),
        b'd' => answered(rt, alloc, b"GET /live/one.flv?key HTTP/1.1\r\n\r\n"),
        _ => answered(rt, alloc, b"GET /live/one.flv?kez HTTP/1.1\r\n\r\n"),
    }
}

// The name that is published at the open table was listed by nobody. An HTTP player is sent the header of
// an FLV at once, also if nobody publishes, and is refused if its key is wrong.
const TOLD: &[u8] = b"0F0+stream 0 began 1 pushed 1 ended 1 joined 2 skips 0\n\
0FG+stream 0 began 1 pushed 2 ended 1 joined 2 skips 0\n\
0--+stream 0 began 0 pushed 0 ended 0 joined 0 skips 0\nopen 0 began 1 pushed 2 ended 1 joined 0 skips 0\n\
0HTTP/1.1 200 OK\r\nContent-Type: video/x-flv\r\nConnection: close\r\n\r\nFLV\x01\x05\x00\x00\x00\x09\x00\x00\x00\x00\
stream 0 began 0 pushed 0 ended 0 joined 1 skips 0\n\
0HTTP/1.1 403 Forbidden\r\nContent-Length: 0\r\nConnection: close\r\n\r\nstream 0 began 0 pushed 0 ended 0 joined 0 skips 0\n";

#[test]
fn serves_until_the_last_link_is_gone(rt: HostRuntime) -> Result<(), Fail> {
    let alloc = rt.alloc();
    let mut text = Vec::new(alloc);
    for letter in b"abcde" {
        text.extend_from_slice(&row(&rt, alloc, *letter)?)?;
    }
    assert_eq!(rt; text.as_slice(), TOLD);
    Ok(())
}

// Two files, two doors and two rests are asked for before the first worker.
#[test]
fn nobody_is_served_where_the_house_fails(rt: HostRuntime) -> Result<(), Fail> {
    let alloc = rt.alloc();
    for number in 0..6 {
        let fails = vec![in alloc; number]?;
        let failed = told(&rt, alloc, RECORDS, b"hcspfa", fails, Vec::new(alloc))?;
        assert_eq!(rt; failed.as_slice(), b"7---".as_slice());
    }
    Ok(())
}
