//! Recorders on a port of one thread.
ghost use Rattle.std.specs.Prelude.{◌≡◌, ◌<◌, ℕ, length, IfOk};
ghost use Rattle.media_recorder.specs.Ports.{FitsIf};

use crate::starved::Starved;
use av_unit::{Bytes, Kind, OutOfMemory, Unit, UnitArc};
use media_recorder::*;
use std::alloc::Global;
use std::test::Fail;
use stream_core::{Call, Entry, ShortName, StreamLimits};
use stream_registry::{Name, NameList, OpenList, Sole, StreamPort};

// A header, and the tags of the publisher's three units.
const FILE: &[u8; 66] =
    b"FLV\x01\x05\x00\x00\x00\x09\x00\x00\x00\x00\x09\x00\x00\x03\x00\x00\x00\x00\x00\x00\x00\x17\x00\x01\x00\x00\x00\x0e\
\x09\x00\x00\x02\x02\x03\x04\x01\x00\x00\x00\x17\x01\x00\x00\x00\x0d\x08\x00\x00\x03\x00\x00\x05\x00\x00\x00\x00\xaf\x01\x21\x00\x00\x00\x0e";

fn bytes(alloc: Global, text: &[u8]) -> Result<Bytes, OutOfMemory>
    ensures { IfOk result (λ b. b ≡ text.now) }
{
    let mut bytes = Bytes::new(alloc);
    bytes.append(text)?;
    Ok(bytes)
}

// Makes a port to one stream.
fn port(alloc: Global, players: u32) -> Result<Sole, OutOfMemory>
    ensures { IfOk result (λ s. length s.rules.names ≡ 1) }
{
    let mut names = NameList::new(alloc);
    names.push(Name {
        app: bytes(alloc, b"live")?,
        name: ShortName::new(bytes(alloc, b"cam")?),
    })?;
    let limits = StreamLimits {
        bytes: 1000,
        items: 16,
        players,
    };
    Sole::new(alloc, names, OpenList::new(alloc), limits)
}

fn push(alloc: Global, kind: Kind, time: u32, body: &[u8]) -> Result<Call, OutOfMemory>
    requires { length body.now < 100 }
{
    let body = bytes(alloc, body)?;
    Ok(Call::Push(UnitArc::new(alloc, Unit { kind, time, body })?))
}

// Returns the publisher's call for a letter.
fn asked(alloc: Global, letter: u8) -> Result<Call, OutOfMemory> {
    match letter {
        b'b' => Ok(Call::Begin),
        b'c' => push(alloc, Kind::VConfig, 0, b"\x17\x00\x01"),
        b'k' => push(alloc, Kind::Key, 0x0102_0304, b"\x17\x01"),
        b'a' => push(alloc, Kind::Audio, 5, b"\xaf\x01\x21"),
        b'e' => Ok(Call::End),
        _ => Ok(Call::Count),
    }
}

fn turned(turn: RecTurn) -> u8 {
    match turn {
        RecTurn::Moved => b'M',
        RecTurn::Idle => b'I',
        RecTurn::Busy => b'B',
        RecTurn::Ended(RecEnd::SinkFault) => b'S',
        RecTurn::Ended(RecEnd::Full) => b'F',
        RecTurn::Ended(RecEnd::Worn) => b'W',
        RecTurn::Ended(RecEnd::OutOfMemory) => b'O',
    }
}

// Makes one call of the publisher.
fn publish<P: StreamPort>(
    alloc: Global,
    letter: u8,
    port: &mut P,
    pass: &mut P::Pass,
) -> Result<u8, OutOfMemory>
    requires { P.fits port.old 0 pass.old }
    ensures pass { P.fits port.new 0 pass.new }
    ensures rules { P.rules port.new ≡ P.rules port.old }
    ensures others { (q : ℕ) (p : P.Pass) → P.fits port.old q p → P.fits port.new q p }
{
    let call = asked(alloc, letter)?;
    match port.call(
        0,
        pass,
        Entry {
            who: 1,
            at: 0,
            call,
        },
    ) {
        Ok(_) => Ok(b'.'),
        Err(_) => Ok(b'-'),
    }
}

// Makes one turn of the recorder, or one call of the publisher.
fn step<P: StreamPort>(
    alloc: Global,
    letter: u8,
    port: &mut P,
    pass: &mut P::Pass,
    recorder: &mut FlvRecorder<P>,
    sink: &mut Starved,
) -> Result<u8, OutOfMemory>
    requires there { 0 < length (P.rules port.old).names }
    requires place { recorder.old.seat.place ≡ 0 }
    requires pass { P.fits port.old 0 pass.old }
    requires fits { FitsIf (P.fits port.old 0) recorder.old.seat.pass }
    ensures there { 0 < length (P.rules port.new).names }
    ensures place { recorder.new.seat.place ≡ 0 }
    ensures pass { P.fits port.new 0 pass.new }
    ensures fits { FitsIf (P.fits port.new 0) recorder.new.seat.pass }
{
    if letter == b't' {
        return Ok(turned(recorder.turn(port, sink)));
    }
    still_fits_law::<P>();
    publish(alloc, letter, port, pass)
}

// Makes the steps of the letters in turn, and returns the answers.
fn run<P: StreamPort>(
    alloc: Global,
    letters: &[u8],
    port: &mut P,
    recorder: &mut FlvRecorder<P>,
    sink: &mut Starved,
) -> Result<Bytes, OutOfMemory>
    requires there { 0 < length (P.rules port.old).names }
    requires place { recorder.old.seat.place ≡ 0 }
    requires fits { FitsIf (P.fits port.old 0) recorder.old.seat.pass }
    ensures there { 0 < length (P.rules port.new).names }
    ensures place { recorder.new.seat.place ≡ 0 }
    ensures fits { FitsIf (P.fits port.new 0) recorder.new.seat.pass }
{
    still_fits_law::<P>();
    let mut answers = Bytes::new(alloc);
    let mut pass = port.attach(0);
    for letter in letters {
        let answer = step(alloc, *letter, port, &mut pass, recorder, sink)?;
        answers.append(&[answer])?;
    }
    Ok(answers)
}

// A recorder's answers to its turns among a publisher's calls, whether it then leaves, and its file.
#[derive(Drop)]
struct Recorded {
    answers: Bytes,
    left: bool,
    file: Vec<u8>,
}

// Runs a recorder at that port. Its sink takes `puts` puts, and one byte of each if it is slow.
fn told_at(
    alloc: Global,
    letters: &[u8],
    port: &mut Sole,
    puts: u64,
    slow: bool,
) -> Result<Recorded, OutOfMemory>
    requires { 0 < length port.old.rules.names }
{
    let mut sink = Starved {
        list: Vec::new(alloc),
        puts,
        slow,
    };
    let mut recorder = FlvRecorder::new(alloc, 0, 7, 4_096)?;
    let answers = run(alloc, letters, port, &mut recorder, &mut sink);
    let left = matches!(recorder.leave(port), Leaving::Done);
    let Starved { list: file, .. } = sink;
    Ok(Recorded {
        answers: answers?,
        left,
        file,
    })
}

// Runs a recorder of a stream with room for `players` players. Its sink takes `puts` puts, and one byte of
// each if it is slow.
fn told(
    alloc: Global,
    letters: &[u8],
    players: u32,
    puts: u64,
    slow: bool,
) -> Result<Recorded, OutOfMemory> {
    let mut port = port(alloc, players)?;
    let told = told_at(alloc, letters, &mut port, puts, slow);
    drop(port);
    told
}

// Returns whether these are the answers if there is memory for `puts` puts, and whether the file has the
// first `len` bytes.
fn is_told(alloc: Global, puts: u64, answers: &[u8], len: usize) -> Result<bool, OutOfMemory> {
    let told = told(alloc, b"ttbckaetttttttttt", 4, puts, false)?;
    let file = told.file.as_slice();
    Ok(
        told.answers.as_slice() == answers
            && file.len() == len
            && FILE.starts_with(file)
            && told.left,
    )
}

#[test]
fn each_put_finds_no_memory_once(rt: HostRuntime) -> Result<(), Fail> {
    let alloc = rt.alloc();
    assert!(rt; is_told(alloc, 0, b"OO.....OOOOOOOOOO", 0)?);
    assert!(rt; is_told(alloc, 1, b"MM.....MMOOOOOOOO", 13)?);
    assert!(rt; is_told(alloc, 2, b"MM.....MMMMOOOOOO", 31)?);
    assert!(rt; is_told(alloc, 3, b"MM.....MMMMMMOOOO", 48)?);
    assert!(rt; is_told(alloc, 4, b"MM.....MMMMMMMMII", 66)?);
    Ok(())
}

#[test]
fn a_sink_that_takes_one_byte_takes_the_same(rt: HostRuntime) -> Result<(), Fail> {
    let letters = b"ttttttttttttttbcettttttttttttttttttttttt";
    let told = told(rt.alloc(), letters, 4, 100, true)?;
    assert!(rt; told.answers.as_slice() == b"MMMMMMMMMMMMMM...MMMMMMMMMMMMMMMMMMMMMII".as_slice());
    assert!(rt; told.file.len() == 31 && FILE.starts_with(told.file.as_slice()));
    Ok(())
}

#[test]
fn a_recorder_without_a_place_has_a_file_of_nothing(rt: HostRuntime) -> Result<(), Fail> {
    let told = told(rt.alloc(), b"ttt", 0, 100, false)?;
    assert!(rt; told.answers.as_slice() == b"MFF".as_slice());
    assert!(rt; told.file.len() == 13 && FILE.starts_with(told.file.as_slice()));
    assert!(rt; told.left);
    Ok(())
}
