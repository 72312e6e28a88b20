//! Seats at one stream.
ghost use Rattle.std.specs.Prelude.{◌<◌, ℕ};
ghost use Rattle.relay_session.specs.SeatState.{HasFit};
ghost use Rattle.stream_registry.specs.Names.{places};

use crate::names::names;
use av_unit::{Bytes, Kind, OutOfMemory, Unit, UnitArc, Want};
use relay_session::{Leaving, Made, Seat};
use std::alloc::Global;
use std::test::Fail;
use stream_model::{Call, Entry, Reply, StreamLimits};
use stream_registry::{OpenList, Sole, StreamPort};

const LIMITS: StreamLimits = StreamLimits {
    bytes: 1000,
    items: 16,
    players: 1,
};

fn key(alloc: Global) -> Result<UnitArc, OutOfMemory> {
    UnitArc::new(
        alloc,
        Unit {
            kind: Kind::Key,
            time: 0,
            body: Bytes::from_vec(vec![in alloc; 7; 16]?),
        },
    )
}

// The call of a letter.
fn call(letter: u8, unit: &UnitArc) -> Result<Call, OutOfMemory> {
    Ok(match letter {
        b'B' => Call::Begin,
        b'P' => Call::Push(unit.share()?),
        b'E' => Call::End,
        b'J' => Call::Join,
        b'T' => Call::Take {
            player: 0,
            want: Want {
                audio: true,
                video: true,
            },
        },
        b'L' => Call::Leave { player: 0 },
        _ => Call::Count,
    })
}

fn answered(reply: Reply) -> u8 {
    match reply {
        Reply::Began { .. } => b'b',
        Reply::InUse { .. } => b'u',
        Reply::Pushed { .. } => b'p',
        Reply::NotPublisher { .. } => b'x',
        Reply::Ended { .. } => b'e',
        Reply::Joined { .. } => b'j',
        Reply::Full => b'f',
        Reply::NoSlot { .. } => b'o',
        Reply::NotPlayer => b'y',
        Reply::Sent { .. } => b's',
        Reply::Skip { .. } => b'k',
        Reply::NotYet { .. } => b'n',
        Reply::Left { .. } => b'l',
        Reply::Counts { .. } => b'c',
    }
}

fn became(made: Made) -> u8 {
    match made {
        Made::Answer(reply) => answered(reply),
        Made::Busy(_) => b'1',
        Made::Worn(_) => b'2',
        Made::OutOfMemory(_) => b'3',
    }
}

fn left(leaving: Leaving) -> u8 {
    match leaving {
        Leaving::Done => b'd',
        Leaving::Busy => b'1',
        Leaving::Worn => b'2',
        Leaving::OutOfMemory => b'3',
    }
}

// Makes the call of each letter at the first place, or leaves at the letter X. Writes the outcome of each
// by a letter, after which stands whether it is at a place.
fn walk<P: StreamPort>(
    alloc: Global,
    port: &mut P,
    seat: &mut Seat<P>,
    who: u64,
    unit: &UnitArc,
    letters: &[u8],
) -> Result<Bytes, OutOfMemory>
    requires fit { HasFit (P.fits port.old) seat.old.spot }
    requires place { 0 < places (P.rules port.old) }
    ensures fit { HasFit (P.fits port.new) seat.new.spot }
    ensures place { 0 < places (P.rules port.new) }
    ensures passes { (q : ℕ) (p : P.Pass) → P.fits port.old q p → P.fits port.new q p }
{
    let mut told = Bytes::new(alloc);
    for letter in letters {
        let became = if *letter == b'X' {
            left(seat.leave(port, who, 9, &mut None))
        } else {
            let call = call(*letter, unit)?;
            became(seat.make(port, 0, Entry { who, at: 9, call }))
        };
        told.append(&[became])?;
    }
    told.append(if seat.place() == Some(0) { b"+" } else { b"-" })?;
    Ok(told)
}

// The outcomes of two seats at one stream.
fn story<P: StreamPort>(alloc: Global, port: &mut P, unit: &UnitArc) -> Result<Bytes, OutOfMemory>
    requires { 0 < places (P.rules port.old) }
{
    Seat::<P>::others_law();
    let mut one = Seat::new();
    let mut two = Seat::new();
    let mut all = walk(alloc, port, &mut one, 5, unit, b"BPPT")?;
    all.append(walk(alloc, port, &mut two, 6, unit, b"BJTT")?.as_slice())?;
    all.append(walk(alloc, port, &mut one, 5, unit, b"JPE")?.as_slice())?;
    all.append(walk(alloc, port, &mut two, 6, unit, b"TTTLBX")?.as_slice())?;
    Ok(all)
}

#[test]
fn two_seats_at_one_stream(rt: HostRuntime) -> Result<(), Fail> {
    let alloc = rt.alloc();
    let unit = key(alloc)?;
    let mut port = Sole::new(alloc, names(alloc)?, OpenList::new(alloc), LIMITS)?;
    let told = story(alloc, &mut port, &unit)?;
    assert_eq!(rt; told.as_slice(), b"bppy+ujsn+fpe-ssnlbd-".as_slice());
    Ok(())
}
