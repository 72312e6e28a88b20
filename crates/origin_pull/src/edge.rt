ghost use Rattle.stream_registry.specs.Names.{places};
ghost use Rattle.std.specs.Prelude.{◌≡◌, ◌≤◌, ℕ, [], None, Some};
ghost use Rattle.relay_session.specs.Alone.{GrowsFrom, LeavesSplit};
ghost use Rattle.relay_session.specs.Onward.{GoesOn};
ghost use Rattle.relay_session.specs.Places.{AskedAlone};
ghost use Rattle.relay_session.specs.SeatState.{GoOn, HasFit, IsElsewhere, LeaveFails, LeaveTries, LeavesFrom, StandsAt, known, left_at, place_of};
ghost use Rattle.relay_session.specs.declared.seat_answers.Active.TheVariants as active;
ghost use Rattle.rtmp_client.specs.Bounds.{IsWithin};
ghost use Rattle.rtmp_client.specs.ClientState.{has_started};
ghost use Rattle.origin_pull.specs.Causes.{Did, MayBe};
ghost use Rattle.origin_pull.specs.EdgeState.{EdgeState, Holds, IsNew, StandsFor, end_or_closed, ended_by, lasting_of, life_at};
ghost use Rattle.origin_pull.specs.Keeping.{IsAt};
ghost use Rattle.origin_pull.specs.Turns.{ClientTurns, EndedBy};
ghost use Rattle.origin_pull.specs.declared.due.Due.TheVariants.{Nothing};

use crate::body::Body;
use crate::held::waiting_len;
use crate::steps::turn_on;
use crate::{Core, Due, EdgeEnd, EdgeTurn};
use past::Flow;
use relay_outside::Link;
use relay_session::{Leaving, Seat};
use rtmp_client::{Client, ClientEnd};
use std::alloc::Global;
use std::marker::Model;
use stream_registry::StreamPort;

/// A publisher at one place, of the stream that its client pulls.
///
/// Contracts see its state at its place, its client, its seat at the streams, and why it has ended, if it
/// has.
#[derive(Drop)]
pub struct Edge<P: StreamPort> {
    body: Body<P>,
    ended: Option<EdgeEnd>,
}

impl<P: StreamPort> Model for Edge<P> {
    ghost use Rattle.origin_pull.specs.EdgeState.{EdgeState, IsLiving};

    ghost Value = { EdgeState P.Pass };

    ghost view = { λ s. record { parts = s.body.core; client = s.body.client; seat = s.body.seat; ended = s.ended } };

    ghost invariant = { λ s. IsLiving s.ended s.body.core s.body.client };
}

// Returns why a turn ended the edge, if it did.
fn end_in(answer: EdgeTurn) -> Option<EdgeEnd>
    ensures { result ≡ ended_by answer }
{
    match answer {
        EdgeTurn::Moved => None,
        EdgeTurn::Idle => None,
        EdgeTurn::Ended(end) => Some(end),
    }
}

// Returns why an edge that is closed has ended.
fn end_or_closed(ended: Option<EdgeEnd>) -> EdgeEnd
    ensures { result ≡ end_or_closed ended }
{
    match ended {
        None => EdgeEnd::Closed,
        Some(end) => end,
    }
}

impl<P: StreamPort> Edge<P> {
    /// Makes an edge of this name that publishes at this place the stream that a client plays. The client has
    /// had no turn. It takes no memory.
    pub fn new(who: u64, place: u32, client: Client) -> Edge<P>
        requires { IsNew client }
        ensures stands { StandsFor result }
        ensures fixed { (result.parts.who ≡ who) × (result.parts.place ≡ place) }
        ensures empty { (result.parts.calls ≡ []) × (result.parts.kept ≡ None) × (result.parts.due ≡ Nothing) }
        ensures client { result.client ≡ client }
        ensures lives { result.ended ≡ None }
        ensures at { result.seat ≡ record { spot = None; active = active.Nothing; visits = [] } }
    {
        Edge {
            body: Body {
                core: Core {
                    who,
                    place,
                    live: false,
                    kept: None,
                    due: Due::Nothing,
                    calls: Flow::new(),
                },
                seat: Seat::new(),
                client,
            },
            ended: None,
        }
    }

    /// Takes one turn. It makes the call that found the port busy, else the next call that is due. If there
    /// is none, the client takes a turn, and the gift that it is then told of the stream is taken.
    pub fn turn<L: Link>(&mut self, alloc: Global, port: &mut P, link: &mut L) -> EdgeTurn
        requires at { IsAt (P.fits port.old) (places (P.rules port.old)) self.old.parts self.old.seat }
        ensures at { IsAt (P.fits port.new) (places (P.rules port.new)) self.new.parts self.new.seat }
        ensures turn { EndedBy (AskedAlone P.fits P.rules P.root P.seen P.count P.wants P.busies P.adds P.kin P.branches)
            (ClientTurns L.hears L.says) self.old.ended (life_at self.old port.old) link.old result (life_at self.new port.new) link.new }
        ensures ended { self.new.ended ≡ ended_by result }
        ensures stands { StandsFor self.new }
        ensures lasts { lasting_of self.new.parts self.new.client ≡ lasting_of self.old.parts self.old.client }
        ensures goes_on { GoesOn P.fits P.rules P.root P.seen P.busies port.old self.old.seat port.new self.new.seat }
        ensures did { Did result self.old.parts self.old.client self.new.parts self.new.client }
        ensures may_be { MayBe result (P.busies port.old) (P.busies port.new) (L.counts link.old) (L.counts link.new) }
    {
        match self.ended {
            Some(end) => EdgeTurn::Ended(end),
            None => {
                let answer = turn_on(&mut self.body, port, link, alloc);
                self.ended = end_in(answer);
                answer
            }
        }
    }

    /// Returns why it has ended, if it has.
    pub fn end(&self) -> Option<EdgeEnd>
        ensures { result ≡ self.now.ended }
    {
        self.ended
    }

    /// Returns why its client has ended, if it has.
    pub fn client_end(&self) -> &Option<ClientEnd>
        ensures { result.now ≡ self.now.client.ended }
    {
        self.body.client.end()
    }

    /// Returns whether its origin has said that the stream is played.
    pub fn started(&self) -> bool
        ensures { result ≡ has_started self.now.client.parts.phase }
    {
        self.body.client.started()
    }

    /// Returns whether a broadcast is live, by the gifts of its client.
    pub fn is_live(&self) -> bool
        ensures { result ≡ self.now.parts.live }
    {
        self.body.core.live
    }

    /// Makes the kept call, if there is one, and the End of a broadcast that is live then, and leaves the
    /// stream. It has then ended, with `Closed` if it lived.
    ///
    /// If the port was busy or had no memory it is still there, and is to be closed again; the kept call is
    /// kept unless it was made. Calls that were due and not kept aren't made. All else that it keeps stays.
    pub fn close(&mut self, port: &mut P) -> Leaving
        requires { HasFit (P.fits port.old) self.old.seat.spot }
        ensures fit { HasFit (P.fits port.new) self.new.seat.spot }
        ensures spot { place_of self.new.seat.spot ≡ left_at result (place_of self.old.seat.spot) }
        ensures leaves { LeavesFrom (place_of self.old.seat.spot) self.old.parts.who 0 self.old.parts.kept
            self.old.seat.active self.old.seat.visits result self.new.parts.kept self.new.seat.active self.new.seat.visits }
        ensures fails { LeaveFails (P.fits port.new) P.count P.wants (place_of self.old.seat.spot) self.old.parts.who 0
            self.old.parts.kept (P.busies port.old) (P.busies port.new) result }
        ensures tries { LeaveTries (P.busies port.old) (P.busies port.new) result }
        ensures seat { StandsAt P.rules P.root P.seen port.old self.old.seat → StandsAt P.rules P.root P.seen port.new self.new.seat }
        ensures roots { GoOn (P.root port.old) (P.root port.new) }
        ensures fixed { P.rules port.new ≡ P.rules port.old }
        ensures busies { P.busies port.old ≤ P.busies port.new }
        ensures others { (q : ℕ) → IsElsewhere self.old.seat.spot q → P.root port.new q ≡ P.root port.old q }
        ensures passes { (q : ℕ) (p : P.Pass) → P.fits port.old q p → P.fits port.new q p }
        ensures adds { GrowsFrom P.adds (P.rules port.old).limits (P.root port.old) (known P.root P.seen port.old self.old.seat) (place_of self.old.seat.spot)
            self.old.seat.visits self.new.seat.visits (P.root port.new) (known P.root P.seen port.new self.new.seat) }
        ensures splits { LeavesSplit (place_of self.old.seat.spot) P.branches (P.kin port.old) self.old.seat.spot self.old.seat.visits
            self.new.seat.visits (P.kin port.new) self.new.seat.spot }
        ensures ended { self.new.ended ≡ Some (end_or_closed self.old.ended) }
        ensures stands { StandsFor self.new }
        ensures parts { self.new.parts ≡ record self.old.parts { kept = self.new.parts.kept } }
        ensures client { self.new.client ≡ self.old.client }
    {
        let who = self.body.core.who;
        self.ended = Some(end_or_closed(self.ended));
        self.body.seat.leave(port, who, 0, &mut self.body.core.kept)
    }

    /// Returns the number of bytes that it holds: those of its client, and the units of the kept call and of
    /// those due. That is at most the number that a client alone may hold.
    pub fn held(&self) -> u64
        ensures holds { Holds self.now.parts self.now.client result }
        ensures most { IsWithin self.now.client.parts.reader.max result }
    {
        self.body.client.held() + waiting_len(&self.body.core)
    }

    /// Shows that its calls are those of its client's bytes. If it has ended, they begin them.
    pub fn calls_law(&self)
        ensures { StandsFor self.now }
    {
        let _ = &self.ended;
    }

    /// Shows that an edge belongs to its port as before, after others have made calls at the same port.
    pub fn others_law()
        ensures { (x y : P) (s : EdgeState P.Pass) → P.rules y ≡ P.rules x → ((q : ℕ) (p : P.Pass) → P.fits x q p → P.fits y q p)
            → IsAt (P.fits x) (places (P.rules x)) s.parts s.seat → IsAt (P.fits y) (places (P.rules y)) s.parts s.seat }
    {}
}
