//! An edge is turned until it ends, and is then closed.
ghost use Rattle.std.specs.Prelude.{◌≡◌, ℕ, None, is_some, true};
ghost use Rattle.client_owed.specs.declared.types.Asked.{Asked};
ghost use Rattle.origin_pull.specs.EdgeState.{StandsFor, ended_by};
ghost use Rattle.origin_pull.specs.Keeping.{AreHere, IsAt};
ghost use Rattle.relay_session.specs.SeatState.{StandsAt};
ghost use Rattle.stream_registry.specs.Names.{places};
ghost use Rattle.edge_serve.specs.Coming.{ByCloses, ByTurns, TakesTurn, at_port, on_link};
ghost use Rattle.edge_serve.specs.Driving.{DrivenBy, Drives, HasDriven, HasLeft};
ghost use Rattle.edge_serve.specs.Pulls.{Origin, origin};

use crate::pulling::PLACE;
use crate::telling::{tell_begun, tell_live};
use origin_pull::{Edge, EdgeEnd, EdgeTurn};
use relay_outside::{Link, Rest};
use relay_session::Leaving;
use std::alloc::Global;
use std::sync::Wait;
use stream_registry::StreamPort;

// One turn.
fn turn_once<P: StreamPort, L: Link>(
    alloc: Global,
    edge: &mut Edge<P>,
    port: &mut P,
    link: &mut L,
) -> EdgeTurn
    requires lives { edge.old.ended ≡ None }
    requires stands { StandsFor edge.old }
    requires at { IsAt (P.fits port.old) (places (P.rules port.old)) edge.old.parts edge.old.seat }
    ensures at { IsAt (P.fits port.new) (places (P.rules port.new)) edge.new.parts edge.new.seat }
    ensures ended { edge.new.ended ≡ ended_by result }
    ensures stands { StandsFor edge.new }
    ensures fixed { P.rules port.new ≡ P.rules port.old }
    ensures known { StandsAt P.rules P.root P.seen port.old edge.old.seat → StandsAt P.rules P.root P.seen port.new edge.new.seat }
    ensures alone { TakesTurn P.fits P.rules P.root P.seen P.count P.wants P.busies P.adds P.kin P.branches L.hears L.says
        (on_link edge.old port.old link.old) result (on_link edge.new port.new link.new) }
    ensures goes { (k : Asked) (max who place : ℕ) (start : Origin)
        → Drives k max who place start (origin (L.told link.old) (L.counts link.old)) edge.old
        → DrivenBy result k max who place start (origin (L.told link.new) (L.counts link.new)) edge.new }
{
    edge.turn(alloc, port, link)
}

// Something may have been pushed to the edge's stream.
fn tell_moved<R: Rest>(rest: &mut R) {
    rest.pushed(PLACE);
    rest.moved();
}

/// Turns an edge until it has ended, with a pause after each turn in which nothing moved. It does nothing else
/// at the port. Its link is told when the stream is played, and when a broadcast begins and ends.
pub(crate) fn drive<W: Wait, P: StreamPort, L: Link, R: Rest>(
    rt: &W,
    alloc: Global,
    edge: &mut Edge<P>,
    port: &mut P,
    link: &mut L,
    rest: &mut R,
    app: &[u8],
    name: &[u8],
) -> EdgeEnd
    requires lives { edge.old.ended ≡ None }
    requires stands { StandsFor edge.old }
    requires at { IsAt (P.fits port.old) (places (P.rules port.old)) edge.old.parts edge.old.seat }
    ensures at { IsAt (P.fits port.new) (places (P.rules port.new)) edge.new.parts edge.new.seat }
    ensures ended { is_some edge.new.ended ≡ true }
    ensures stands { StandsFor edge.new }
    ensures fixed { P.rules port.new ≡ P.rules port.old }
    ensures known { StandsAt P.rules P.root P.seen port.old edge.old.seat → StandsAt P.rules P.root P.seen port.new edge.new.seat }
    ensures turns { ByTurns P.fits P.rules P.root P.seen P.count P.wants P.busies P.adds P.kin P.branches L.hears L.says
        (on_link edge.old port.old link.old) (on_link edge.new port.new link.new) }
    ensures driven { (k : Asked) (max who place : ℕ) (start : Origin)
        → Drives k max who place start (origin (L.told link.old) (L.counts link.old)) edge.old
        → HasDriven k max who place start (origin (L.told link.new) (L.counts link.new)) result edge.new }
{
    let mut told = false;
    let mut live = false;
    for _ in rt.forever() {
        told = tell_begun(&*link, edge.started(), told, app, name);
        live = tell_live(&*link, edge.is_live(), live, app, name);
        match turn_once(alloc, edge, port, link) {
            EdgeTurn::Moved => tell_moved(rest),
            EdgeTurn::Idle => rest.pause(),
            EdgeTurn::Ended(end) => return end,
        }
    }
    unreachable!()
}

/// Closes an edge that has ended until it has left its place, with a pause after each time that it
/// couldn't. Whether the history there is full.
pub(crate) fn leave<W: Wait, P: StreamPort, R: Rest>(
    rt: &W,
    edge: &mut Edge<P>,
    port: &mut P,
    rest: &mut R,
) -> bool
    requires ended { is_some edge.old.ended ≡ true }
    requires at { IsAt (P.fits port.old) (places (P.rules port.old)) edge.old.parts edge.old.seat }
    ensures away { edge.new.seat.spot ≡ None }
    ensures fixed { P.rules port.new ≡ P.rules port.old }
    ensures known { StandsAt P.rules P.root P.seen port.old edge.old.seat → StandsAt P.rules P.root P.seen port.new edge.new.seat }
    ensures client { edge.new.client ≡ edge.old.client }
    ensures here { AreHere edge.old.parts.place edge.new.seat.visits }
    ensures closes { ByCloses P.fits P.rules P.root P.seen P.count P.wants P.busies P.adds P.kin P.branches
        (at_port edge.old port.old) (at_port edge.new port.new) }
    ensures left { HasLeft edge.old.parts.who edge.old.parts.kept edge.old.seat.active edge.old.seat.visits result edge.new.seat.visits }
{
    for _ in rt.forever() {
        match edge.close(port) {
            Leaving::Done => return false,
            Leaving::Worn => return true,
            Leaving::Busy => rest.pause(),
            Leaving::OutOfMemory => rest.pause(),
        }
    }
    unreachable!()
}
