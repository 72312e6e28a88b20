//! Pushes and Takes a second of a stream, and of a pool of one slot, by the items of the window and by the players.
ghost use Rattle.std.specs.Prelude.{◌≤◌, length};
ghost use Rattle.stream_core.specs.Table.{known};

use av_unit::{Bytes, Kind, OutOfMemory, Unit, UnitArc, Want};
use std::alloc::{AllocError, Global};
use std::io;
use std::time::{Clock, Instant};
use stream_core::{Call, Entry, Reply, Shape, StreamLimits, Table};

// How many pushes are timed, and how many Takes.
const PUSHES: u64 = 1_000_000;

const TAKES: u64 = 4_194_304;

// More calls than a measurement makes.
const MOST_CALLS: u64 = 1_000_000_000;

const PUBLISHER: u64 = 1_000;

const BOTH: Want = Want {
    audio: true,
    video: true,
};

/// A stream or a pool after a number of calls.
#[derive(Drop)]
pub(crate) struct Busy {
    table: Table,
    calls: u64,
    ghost few: { length (known table).past ≤ calls },
}

impl Busy {
    /// A live stream with all its places taken, by the callers 0, 1 and so on.
    pub(crate) fn new(alloc: Global, limits: StreamLimits) -> Result<Busy, OutOfMemory> {
        let shape = Shape {
            limits,
            slots: None,
        };
        Busy::live(Table::new(alloc, shape)?, limits.players)
    }

    /// The same as the one slot of a pool.
    fn pool(alloc: Global, limits: StreamLimits) -> Result<Busy, OutOfMemory> {
        let shape = Shape {
            limits,
            slots: Some(1),
        };
        Busy::live(Table::new(alloc, shape)?, limits.players)
    }

    fn live(table: Table, players: u32) -> Result<Busy, OutOfMemory>
        requires { length (known table).past ≤ 0 }
    {
        let mut busy = Busy { table, calls: 0 };
        match busy.begin(players) {
            Ok(()) => Ok(busy),
            Err(OutOfMemory) => {
                drop(busy);
                Err(OutOfMemory)
            }
        }
    }

    fn begin(&mut self, players: u32) -> Result<(), OutOfMemory> {
        self.call(PUBLISHER, Call::Begin)?;
        for player in 0..players {
            self.call(player as u64, Call::Join)?;
        }
        Ok(())
    }

    pub(crate) fn call(&mut self, who: u64, call: Call) -> Result<Reply, OutOfMemory> {
        if self.calls >= MOST_CALLS {
            return Err(OutOfMemory);
        }
        self.calls += 1;
        self.table.apply(Entry { who, at: 0, call })
    }

    fn push(&mut self, unit: &UnitArc, count: u64) -> Result<(), OutOfMemory> {
        for _ in 0..count {
            self.call(PUBLISHER, Call::Push(unit.share()?))?;
        }
        Ok(())
    }

    // A Take of each player, and how many of them were sent an item.
    fn take(&mut self, players: u32) -> Result<u64, OutOfMemory> {
        let mut sent = 0_u64;
        for player in 0..players {
            let reply = self.call(player as u64, Call::Take { player, want: BOTH })?;
            if matches!(&reply, Reply::Sent { .. }) {
                sent = sent.saturating_add(1);
            }
        }
        Ok(sent)
    }

    // Makes `count` rounds of a push and of a Take of each player.
    fn rounds(&mut self, unit: &UnitArc, players: u32, count: u64) -> Result<u64, OutOfMemory> {
        let mut sent = 0_u64;
        for _ in 0..count {
            self.push(unit, 1)?;
            sent = sent.saturating_add(self.take(players)?);
        }
        Ok(sent)
    }
}

fn sound(alloc: Global) -> Result<UnitArc, OutOfMemory> {
    UnitArc::new(
        alloc,
        Unit {
            kind: Kind::Audio,
            time: 40,
            body: Bytes::from_vec(vec![in alloc; 0x5Au8; 200]?),
        },
    )
}

fn refused(_: OutOfMemory) -> AllocError {
    AllocError
}

// The nanoseconds of one of `count` calls.
fn each(nanos: u128, count: u64) -> u128 {
    nanos.checked_div(u128::from(count)).unwrap_or(0)
}

// Pushes into a full window whose players take nothing.
fn push_nanos<R: Clock>(rt: &R, unit: &UnitArc, busy: &mut Busy, items: u32) -> io::Result<u128> {
    busy.push(unit, items as u64).map_err(refused)?;
    let start = Instant::now(rt)?;
    busy.push(unit, PUSHES).map_err(refused)?;
    Ok(start.elapsed(rt)?.as_nanos())
}

// Rounds of a push and of a Take of each player, which stands at the base of a full window; with how many
// items were sent.
fn round_nanos<R: Clock>(
    rt: &R,
    unit: &UnitArc,
    busy: &mut Busy,
    limits: StreamLimits,
    rounds: u64,
) -> io::Result<(u128, u64)> {
    let lag = (limits.items as u64).saturating_sub(1);
    busy.push(unit, lag).map_err(refused)?;
    let start = Instant::now(rt)?;
    let sent = busy.rounds(unit, limits.players, rounds).map_err(refused)?;
    Ok((start.elapsed(rt)?.as_nanos(), sent))
}

// A live stream, or the one slot of a pool.
fn live(alloc: Global, limits: StreamLimits, slot: bool) -> io::Result<Busy> {
    let busy = if slot {
        Busy::pool(alloc, limits)
    } else {
        Busy::new(alloc, limits)
    };
    Ok(busy.map_err(refused)?)
}

// The pushes at one of its own.
fn pushing<R: Clock>(
    rt: &R,
    alloc: Global,
    unit: &UnitArc,
    limits: StreamLimits,
    slot: bool,
) -> io::Result<u128> {
    let mut busy = live(alloc, limits, slot)?;
    let nanos = push_nanos(rt, unit, &mut busy, limits.items);
    drop(busy);
    nanos
}

// The rounds at one of its own.
fn turning<R: Clock>(
    rt: &R,
    alloc: Global,
    unit: &UnitArc,
    limits: StreamLimits,
    slot: bool,
) -> io::Result<(u128, u64)> {
    let mut busy = live(alloc, limits, slot)?;
    let rounds = rounds_of(limits);
    let nanos = round_nanos(rt, unit, &mut busy, limits, rounds);
    drop(busy);
    nanos
}

fn rounds_of(limits: StreamLimits) -> u64 {
    TAKES.checked_div(limits.players as u64).unwrap_or(0)
}

fn measure_one<R: Clock + Print>(
    rt: &R,
    alloc: Global,
    limits: StreamLimits,
    slot: bool,
) -> io::Result<()> {
    let unit = sound(alloc).map_err(refused)?;
    let pushing = pushing(rt, alloc, &unit, limits, slot)?;
    let (nanos, sent) = turning(rt, alloc, &unit, limits, slot)?;
    let pushes = u128::from(rounds_of(limits)).saturating_mul(pushing) / u128::from(PUSHES);
    let push = each(pushing.saturating_mul(10), PUSHES);
    let take = each(nanos.saturating_sub(pushes).saturating_mul(10), sent);
    let StreamLimits { items, players, .. } = limits;
    let place = if slot {
        "a pool of one slot"
    } else {
        "a stream"
    };
    println!(rt;
        "{place}, window {items}, {players} players: a push {push}, a Take {take} tenths of a nanosecond; {sent} items sent"
    )
}

/// Prints the time of a push and of a Take at a stream and at a pool of one slot. The windows have 16,
/// 1,024 and 65,536 items, and there are 1, 16 and 256 players.
pub fn measure<R: Clock + Print>(rt: &R, alloc: Global) -> io::Result<()> {
    for items in [16, 1_024, 65_536] {
        for players in [1, 16, 256] {
            let limits = StreamLimits {
                bytes: 1_000_000_000,
                items,
                players,
            };
            measure_one(rt, alloc, limits, false)?;
            measure_one(rt, alloc, limits, true)?;
        }
    }
    Ok(())
}
