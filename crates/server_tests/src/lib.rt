//! Tests of whole sessions, workers, servers and edges over doors, houses and links in memory, and a caller
//! that turns a session a given number of times.
//!
//! Read [`turn_often`] first. The other modules are compiled for tests alone, and use no sockets and no files.
#![tactic(auto)]

ghost use Rattle.std.specs.Prelude.{◌≡◌, ◌≤◌};
ghost use Rattle.std.specs.Option.{IfSome};
ghost use Rattle.relay_session.specs.Places.{AskedAlone, IsAt, IsOffered};
ghost use Rattle.relay_session.specs.SessionState.{StandsFor};
ghost use Rattle.stream_registry.specs.Names.{places};
ghost use Rattle.server_tests.specs.Often.{Often, moved_by};

use relay_outside::Link;
use relay_session::{Desk, Session, Turn};
use std::alloc::Global;
use stream_registry::StreamPort;

#[cfg(test)]
mod clients;
#[cfg(test)]
mod commands;
#[cfg(test)]
mod doors;
#[cfg(test)]
mod edges;
#[cfg(test)]
mod http_workers;
#[cfg(test)]
mod names;
#[cfg(test)]
mod origins;
#[cfg(test)]
mod pulls;
#[cfg(test)]
mod seats;
#[cfg(test)]
mod servers;
#[cfg(test)]
mod sessions;
#[cfg(test)]
mod workers;

// Returns the number of times that a turn of that answer moved something. None goes on after a turn that
// ended.
fn moved_by(answer: Turn) -> Option<u64>
    ensures value { result ≡ moved_by answer }
    ensures once { IfSome result (λ n. n ≤ 1) }
{
    match answer {
        Turn::Moved => Some(1),
        Turn::Idle => Some(0),
        Turn::Ended(_) => None,
    }
}

/// Turns a session until it ends, or the given number of times, and returns the number of turns that moved
/// something. It never waits.
pub fn turn_often<P: StreamPort, D: Desk, L: Link>(
    session: &mut Session<P>,
    alloc: Global,
    port: &mut P,
    link: &mut L,
    desk: &D,
    most: u64,
) -> u64
    requires at { IsAt (P.fits port.old) (places (P.rules port.old)) session.old.parts session.old.seat }
    requires offered { IsOffered (D.grants desk.now) (places (P.rules port.old)) }
    ensures at { IsAt (P.fits port.new) (places (P.rules port.new)) session.new.parts session.new.seat }
    ensures stands { StandsFor (D.grants desk.now) session.old → StandsFor (D.grants desk.now) session.new }
    ensures fixed { P.rules port.new ≡ P.rules port.old }
    ensures turns { Often (AskedAlone P.fits P.rules P.root P.seen P.count P.wants P.busies P.adds P.kin P.branches) (D.grants desk.now) L.hears L.says most
        (record { session = session.old; port = port.old; link = link.old }) result (record { session = session.new; port = port.new; link = link.new }) }
{
    let mut moved = 0u64;
    for _ in 0..most {
        match moved_by(session.turn(alloc, port, link, desk)) {
            None => return moved,
            Some(count) => moved += count,
        }
    }
    moved
}
