ghost use Rattle.std.specs.Prelude.{◌≡◌, ◌≤◌, ℕ, IfOk, OnOk, Some, None};
ghost use Rattle.relay_session.specs.SeatState.{HasFit};
ghost use Rattle.origin_pull.specs.Keeping.{IsAt};
ghost use Rattle.stream_registry.specs.Books.{FitsSole, SeenState, sole_rules};
ghost use Rattle.stream_registry.specs.Names.{places};
ghost use Rattle.relay_replay.specs.Cast.{EdgeAnsweredBy, told_edge};
ghost use Rattle.relay_replay.specs.Plays.{IsNewEdge, told_link};
ghost use Rattle.relay_replay.specs.Prints.{EdgeHolds};
ghost use Rattle.relay_replay.specs.Scenes.{AreShort, EdgeReady};
ghost use Rattle.relay_replay.specs.Turning.{AfterEdgeTurn, EdgeClosed};

use crate::connection::tell;
use crate::guest::Answered;
use av_unit::{Bytes, OutOfMemory};
use client_owed::Wish;
use origin_pull::{Edge, EdgeEnd, EdgeTurn};
use relay_base::Limits;
use relay_outside::MemLink;
use relay_script::ReplayLine;
use relay_session::Leaving;
use rtmp_client::{Client, ClientEnd};
use std::alloc::Global;
use std::marker::Model;
use stream_registry::Sole;

/// An edge with its link.
#[derive(Drop)]
pub struct Pulling {
    edge: Edge<Sole>,
    link: MemLink,
    ended: Option<EdgeEnd>,
}

impl Model for Pulling {
    ghost use Rattle.relay_replay.specs.Guests.{PullState};

    ghost Value = { PullState };

    ghost view = { λ p. record { edge = p.edge; link = p.link; ended = p.ended } };
}

fn told_edge(answer: EdgeTurn) -> Answered
    ensures { result ≡ told_edge answer }
{
    match answer {
        EdgeTurn::Moved => Answered::Moved,
        EdgeTurn::Idle => Answered::Idle,
        EdgeTurn::Ended(_) => Answered::Ended,
    }
}

impl Pulling {
    // An edge of that name at that stream, with room for all. It tells the address `replay`.
    pub(crate) fn new(
        alloc: Global,
        who: u64,
        stream: u32,
        app: Bytes,
        name: Bytes,
        limits: Limits,
    ) -> Result<Pulling, OutOfMemory>
        requires message { limits.max_message ≤ 4194304 }
        requires short { AreShort app name }
        ensures { IfOk result (IsNewEdge limits who stream app name) }
    {
        let mut address = Bytes::new(alloc);
        address.append(b"replay")?;
        let client = Client::new(alloc, Wish::Pull, address, app, name, limits.max_message)?;
        Ok(Pulling {
            edge: Edge::new(who, stream, client),
            link: MemLink::new(alloc),
            ended: None,
        })
    }

    pub(crate) fn sent(&self) -> &[u8]
        ensures { result.now ≡ self.now.link.sent }
    {
        self.link.sent()
    }

    pub(crate) fn ended(&self) -> Option<EdgeEnd>
        ensures { result ≡ self.now.ended }
    {
        self.ended
    }

    pub(crate) fn client_end(&self) -> &Option<ClientEnd>
        ensures { result.now ≡ self.now.edge.client.ended }
    {
        self.edge.client_end()
    }

    // The number of bytes that it holds: 0 if it has ended.
    pub(crate) fn held(&self) -> u64
        ensures { EdgeHolds self.now.ended self.now result }
    {
        match self.ended {
            None => self.edge.held(),
            Some(_) => 0,
        }
    }

    // Does the action of a line at it.
    pub(crate) fn take(&mut self, line: ReplayLine) -> Result<(), OutOfMemory>
        ensures { OnOk result (self.new ≡ record self.old { link = told_link line self.old.link }) }
    {
        tell(&mut self.link, line)
    }

    // Takes one turn, and returns the turn's answer. An edge that has ended takes none. An edge that ends
    // is closed at once.
    pub(crate) fn turn(&mut self, alloc: Global, port: &mut Sole) -> Result<Answered, OutOfMemory>
        requires { EdgeReady self.old.ended port.old self.old.edge }
        ensures turn { IfOk result (λ a. EdgeAnsweredBy a self.old.ended port.old self.old port.new self.new) }
        ensures ready { OnOk result (EdgeReady self.new.ended port.new self.new.edge) }
        ensures fixed { sole_rules port.new.rules ≡ sole_rules port.old.rules }
        ensures fits { (q : ℕ) (p : SeenState) → FitsSole port.old q p → FitsSole port.new q p }
    {
        if self.ended.is_some() {
            return Ok(Answered::Nothing);
        }
        let answer = self.edge.turn(alloc, port, &mut self.link);
        after(&mut self.edge, &mut self.ended, port, answer)?;
        Ok(told_edge(answer))
    }
}

// Takes the step that follows a turn's answer.
fn after(
    edge: &mut Edge<Sole>,
    ended: &mut Option<EdgeEnd>,
    port: &mut Sole,
    answer: EdgeTurn,
) -> Result<(), OutOfMemory>
    requires at { IsAt (FitsSole port.old) (places (sole_rules port.old.rules)) edge.old.parts edge.old.seat }
    requires live { ended.old ≡ None }
    ensures leads { OnOk result (AfterEdgeTurn answer edge.old port.old edge.new ended.new port.new) }
    ensures ready { OnOk result (EdgeReady ended.new port.new edge.new) }
    ensures fixed { sole_rules port.new.rules ≡ sole_rules port.old.rules }
    ensures fits { (q : ℕ) (p : SeenState) → FitsSole port.old q p → FitsSole port.new q p }
{
    match answer {
        EdgeTurn::Moved => Ok(()),
        EdgeTurn::Idle => Ok(()),
        EdgeTurn::Ended(EdgeEnd::OutOfMemory) => Err(OutOfMemory),
        EdgeTurn::Ended(end) => close(edge, ended, port, end),
    }
}

// Closes an edge that has ended with this ending. If the streams don't let it leave there was no memory for
// its calls.
fn close(
    edge: &mut Edge<Sole>,
    ended: &mut Option<EdgeEnd>,
    port: &mut Sole,
    end: EdgeEnd,
) -> Result<(), OutOfMemory>
    requires { HasFit (FitsSole port.old) edge.old.seat.spot }
    ensures closed { OnOk result (EdgeClosed port.old edge.old port.new edge.new) }
    ensures ended { ended.new ≡ Some end }
    ensures fixed { sole_rules port.new.rules ≡ sole_rules port.old.rules }
    ensures fits { (q : ℕ) (p : SeenState) → FitsSole port.old q p → FitsSole port.new q p }
{
    *ended = Some(end);
    match edge.close(port) {
        Leaving::Done => Ok(()),
        Leaving::Worn => Ok(()),
        Leaving::Busy => Err(OutOfMemory),
        Leaving::OutOfMemory => Err(OutOfMemory),
    }
}
