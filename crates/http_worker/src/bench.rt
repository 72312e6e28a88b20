//! The state of a worker during its rounds: its port, its door, and its players with their links.
ghost use Rattle.std.specs.Prelude.{◌≡◌, ◌≢◌, true, false, None, is_some};
ghost use Rattle.stream_registry.specs.Names.{places};
ghost use Rattle.relay_session.specs.Places.{IsOffered};
ghost use Rattle.relay_session.specs.SeatState.{HasFit};
ghost use Rattle.relay_worker.specs.Rounds.{has_left};
ghost use Rattle.relay_worker.specs.Running.{GoesAhead};
ghost use Rattle.http_flv.specs.Keeping.{IsAt};
ghost use Rattle.http_flv.specs.PlayerState.{ended_by};
ghost use Rattle.http_worker.specs.Benches.{IsSound};
ghost use Rattle.http_worker.specs.Players.{Closes, TakesTurn, is_moved, is_spent, is_worn, lacks_memory, wears_out};
ghost use Rattle.http_worker.specs.Rounds.{AdmitsIf, ClosesAt, HandsBack, TurnsAt, WalksAll, answered, asks_door, is_joining, leaves_due};

use crate::telling::{Before, NotingDesk, Request, hinted, told};
use http_flv::{HttpEnd, HttpPlayer, HttpTurn, Stage};
use relay_base::Limits;
use relay_outside::{Door, Knock, Link, Rest};
use relay_session::{Desk, Leaving};
use relay_worker::{Round, leaves_due, pushes_at};
use slab::Slab;
use std::alloc::Global;
use std::cell::Cell;
use stream_registry::StreamPort;

/// How many links a worker has at most at a time, and the limits of its players.
#[derive(Clone, Copy)]
pub struct Terms {
    pub links: u32,
    pub limits: Limits,
}

/// A player with its link. `over` says that it has ended. `asked` is the names in its request, once it was
/// read. `due` says that it takes a turn in the next round, whether or not its link is ready. It is due if
/// it is new, or if its last turn moved, left it asking to join, or found the port busy. `stream` is the
/// number for hints of the stream that it plays. `pushes` is the number of pushes to that stream before its
/// last turn.
#[derive(Drop)]
pub struct Seated<P: StreamPort, L: Link> {
    pub player: HttpPlayer<P>,
    pub link: L,
    pub over: bool,
    pub asked: Option<Request>,
    pub due: bool,
    pub stream: Option<u32>,
    pub pushes: u64,
}

impl<P: StreamPort, L: Link> Seated<P, L> {
    // Whether it takes a turn in this round.
    fn is_due<R: Rest>(&self, rest: &R) -> bool
        ensures { result ≡ false → (self.now.due ≡ false) × L.ready self.now.link false }
    {
        if self.due {
            return true;
        }
        if self.link.is_ready() {
            return true;
        }
        pushes_at(rest, self.stream) != self.pushes
    }

    // One turn of a player that lives.
    fn turn<R: Rest, G: Desk>(
        &mut self,
        alloc: Global,
        port: &mut P,
        rest: &mut R,
        desk: &G,
    ) -> HttpTurn
        requires living { self.old.player.ended ≡ None }
        requires at { IsAt (P.fits port.old) (places (P.rules port.old)) self.old.player.parts self.old.player.seat }
        requires offered { IsOffered (G.grants desk.now) (places (P.rules port.old)) }
        ensures at { IsAt (P.fits port.new) (places (P.rules port.new)) self.new.player.parts self.new.player.seat }
        ensures over { self.new.over ≡ is_some self.new.player.ended }
        ensures ahead { GoesAhead P.fits P.rules P.root port.old port.new }
        ensures due { self.new.due ≡ leaves_due (P.busies port.old) (P.busies port.new) result self.new.player }
        ensures turn { TakesTurn P.fits P.rules P.root P.seen P.count P.wants P.busies P.adds P.kin P.branches
            (G.grants desk.now) L.counts L.hears L.says port.old self.old result port.new self.new }
    {
        let pushes = pushes_at(rest, self.stream);
        let busies = port.busies();
        let before = Before::of(&self.player);
        let noting = NotingDesk {
            inner: desk,
            noted: Cell::new(self.asked),
        };
        let answer = self.player.turn(alloc, port, &mut self.link, &noting);
        self.over = is_over(answer);
        let NotingDesk { inner: _, noted } = noting;
        self.asked = noted.into_inner();
        let after = self.player.stage();
        told(
            &self.link,
            &self.asked,
            before,
            Before::of(&self.player),
            answer,
        );
        self.pushes = pushes;
        self.stream = hinted(port, rest, self.stream, after, &self.asked);
        self.due = leaves_due(busies, port.busies(), is_moved(answer), is_joining(after));
        answer
    }

    // One close of a player that has ended.
    fn close(&mut self, port: &mut P) -> Leaving
        requires fit { HasFit (P.fits port.old) self.old.player.seat.spot }
        requires over { self.old.player.ended ≢ None }
        ensures link { self.new ≡ record self.old { player = self.new.player } }
        ensures over { is_some self.new.player.ended ≡ true }
        ensures who { self.new.player.parts.who ≡ self.old.player.parts.who }
        ensures ahead { GoesAhead P.fits P.rules P.root port.old port.new }
        ensures closes { Closes P.fits P.rules P.root P.seen P.count P.wants P.busies P.adds P.kin P.branches
            port.old self.old.player result port.new self.new.player }
    {
        self.player.close(port)
    }
}

// Whether the player asks to join a stream.
fn is_joining(stage: Stage) -> bool
    ensures { result ≡ is_joining stage }
{
    match stage {
        Stage::Reading => false,
        Stage::Joining { place: _ } => true,
        Stage::Telling { refusal: _ } => false,
        Stage::Playing {
            place: _,
            player: _,
        } => false,
    }
}

// Whether the player has left its stream.
fn has_left(answer: Leaving) -> bool
    ensures { result ≡ has_left answer }
{
    match answer {
        Leaving::Done => true,
        Leaving::Worn => true,
        Leaving::Busy => false,
        Leaving::OutOfMemory => false,
    }
}

// Whether the player has ended.
fn is_over(answer: HttpTurn) -> bool
    ensures { result ≡ is_some (ended_by answer) }
{
    match answer {
        HttpTurn::Moved => false,
        HttpTurn::Idle => false,
        HttpTurn::Ended(_) => true,
    }
}

// Whether the turn moved something.
fn is_moved(answer: HttpTurn) -> bool
    ensures { result ≡ is_moved answer }
{
    match answer {
        HttpTurn::Moved => true,
        HttpTurn::Idle => false,
        HttpTurn::Ended(_) => false,
    }
}

// Whether a player that ended so lacked memory.
fn lacks_memory(end: HttpEnd) -> bool
    ensures { result ≡ lacks_memory end }
{
    match end {
        HttpEnd::PeerClosed => false,
        HttpEnd::LinkFault => false,
        HttpEnd::Answered { .. } => false,
        HttpEnd::Worn => false,
        HttpEnd::OutOfMemory => true,
        HttpEnd::Closed => false,
    }
}

// Whether a player that ended so found the history of a stream full.
fn wears_out(end: HttpEnd) -> bool
    ensures { result ≡ wears_out end }
{
    match end {
        HttpEnd::PeerClosed => false,
        HttpEnd::LinkFault => false,
        HttpEnd::Answered { .. } => false,
        HttpEnd::Worn => true,
        HttpEnd::OutOfMemory => false,
        HttpEnd::Closed => false,
    }
}

// Whether the player has ended for want of memory.
fn is_spent(answer: HttpTurn) -> bool
    ensures { result ≡ is_spent answer }
{
    match answer {
        HttpTurn::Moved => false,
        HttpTurn::Idle => false,
        HttpTurn::Ended(end) => lacks_memory(end),
    }
}

// Whether the player has ended as the history of a stream was full.
fn is_worn(answer: HttpTurn) -> bool
    ensures { result ≡ is_worn answer }
{
    match answer {
        HttpTurn::Moved => false,
        HttpTurn::Idle => false,
        HttpTurn::Ended(end) => wears_out(end),
    }
}

// Tells the others that something moved.
fn wake<R: Rest>(rest: &mut R, moved: bool) {
    if moved {
        rest.moved();
    }
}

/// The port of a worker, its door and its players, each under a key. `had` is the number of links it has
/// had, and `closed` says that the door has closed. `refused` says that a link was dropped, or that a
/// player has ended, for want of memory. `worn` says that a player has ended because the history of a
/// stream was full. `moved` and `dropped` describe this round: something moved, or a link was dropped.
#[derive(Drop)]
pub struct Bench<P: StreamPort, D: Door> {
    pub port: P,
    pub door: D,
    pub players: Slab<Seated<P, D::Link>>,
    pub had: u64,
    pub closed: bool,
    pub refused: bool,
    pub worn: bool,
    pub moved: bool,
    pub dropped: bool,
}

// The most links of a worker.
const MOST: u64 = 1 << 40;

// The name of its first player.
const FIRST: u64 = 1 << 61;

impl<P: StreamPort, D: Door> Bench<P, D> {
    // A link more, if a place is free and one comes.
    pub(crate) fn admit(&mut self, alloc: Global, terms: &Terms)
        requires sound { IsSound P.fits P.rules D.told terms.now self.old }
        ensures sound { IsSound P.fits P.rules D.told terms.now self.new }
        ensures ahead { GoesAhead P.fits P.rules P.root self.old.port self.new.port }
        ensures admits { AdmitsIf D.Link.told D.Link.counts D.told terms.now (asks_door terms.now self.old) self.old self.new }
    {
        if self.players.len() >= terms.links as usize {
            return;
        }
        if self.had >= MOST {
            return;
        }
        match self.door.next() {
            Knock::Link(link) => {
                let player = HttpPlayer::new(alloc, FIRST + self.had, terms.limits);
                self.players.insert_reserved(Seated {
                    player,
                    link,
                    over: false,
                    asked: None,
                    due: true,
                    stream: None,
                    pushes: 0,
                });
                self.had += 1;
                self.moved = true;
            }
            Knock::NotYet => {}
            Knock::Closed => {
                self.closed = true;
            }
            Knock::Failed => {}
        }
    }

    // The player at this key takes a turn, if it lives and is due.
    fn turn_at<R: Rest, G: Desk>(
        &mut self,
        alloc: Global,
        rest: &mut R,
        desk: &G,
        terms: &Terms,
        key: usize,
    )
        requires sound { IsSound P.fits P.rules D.told terms.now self.old }
        requires offered { IsOffered (G.grants desk.now) (places (P.rules self.old.port)) }
        ensures sound { IsSound P.fits P.rules D.told terms.now self.new }
        ensures ahead { GoesAhead P.fits P.rules P.root self.old.port self.new.port }
        ensures turns { TurnsAt (TakesTurn P.fits P.rules P.root P.seen P.count P.wants P.busies P.adds P.kin P.branches
            (G.grants desk.now) D.Link.counts D.Link.hears D.Link.says) P.busies D.Link.ready key self.old self.new }
    {
        let _ = terms;
        let Some(seated) = self.players.get(key) else {
            return;
        };
        if seated.over {
            return;
        }
        if !seated.is_due(rest) {
            return;
        }
        let Some(seated) = self.players.get_mut(key) else {
            return;
        };
        let answer = seated.turn(alloc, &mut self.port, rest, desk);
        self.moved |= is_moved(answer);
        self.refused |= is_spent(answer);
        self.worn |= is_worn(answer);
        wake(rest, is_moved(answer));
    }

    // The player at this key is closed, if it has ended, and its link is handed back.
    fn close_at(&mut self, terms: &Terms, key: usize)
        requires sound { IsSound P.fits P.rules D.told terms.now self.old }
        ensures sound { IsSound P.fits P.rules D.told terms.now self.new }
        ensures ahead { GoesAhead P.fits P.rules P.root self.old.port self.new.port }
        ensures closes { ClosesAt D.Link.told D.Link.counts D.told
            (Closes P.fits P.rules P.root P.seen P.count P.wants P.busies P.adds P.kin P.branches) key self.old self.new }
    {
        let Some(seated) = self.players.get(key) else {
            return;
        };
        if !seated.over {
            return;
        }
        let Some(mut seated) = self.players.try_remove(key) else {
            return;
        };
        let answer = seated.close(&mut self.port);
        if has_left(answer) {
            self.hand_back(seated);
            return;
        }
        self.players.insert_reserved(seated);
    }

    // A player has left, and its link goes back to the door.
    fn hand_back(&mut self, seated: Seated<P, D::Link>)
        ensures back { HandsBack D.Link.told D.Link.counts D.told seated.link self.old self.new }
        ensures port { self.new.port ≡ self.old.port }
        ensures players { self.new.players ≡ self.old.players }
    {
        let Seated {
            player,
            link,
            over: _,
            asked: _,
            due: _,
            stream: _,
            pushes: _,
        } = seated;
        drop(player);
        self.moved = true;
        if self.door.back(link).is_err() {
            self.refused = true;
            self.dropped = true;
        }
    }

    // One turn of each player that is due, in the order of the keys.
    pub(crate) fn turn_all<R: Rest, G: Desk>(
        &mut self,
        alloc: Global,
        rest: &mut R,
        desk: &G,
        terms: &Terms,
    )
        requires sound { IsSound P.fits P.rules D.told terms.now self.old }
        requires offered { IsOffered (G.grants desk.now) (places (P.rules self.old.port)) }
        ensures sound { IsSound P.fits P.rules D.told terms.now self.new }
        ensures ahead { GoesAhead P.fits P.rules P.root self.old.port self.new.port }
        ensures turns { WalksAll (TurnsAt (TakesTurn P.fits P.rules P.root P.seen P.count P.wants P.busies P.adds P.kin P.branches
            (G.grants desk.now) D.Link.counts D.Link.hears D.Link.says) P.busies D.Link.ready) self.old self.new }
    {
        for key in 0..self.players.capacity() {
            self.turn_at(alloc, rest, desk, terms, key);
        }
    }

    // One close of each player that has ended, in the order of the keys.
    pub(crate) fn close_all(&mut self, terms: &Terms)
        requires sound { IsSound P.fits P.rules D.told terms.now self.old }
        ensures sound { IsSound P.fits P.rules D.told terms.now self.new }
        ensures ahead { GoesAhead P.fits P.rules P.root self.old.port self.new.port }
        ensures closes { WalksAll (ClosesAt D.Link.told D.Link.counts D.told
            (Closes P.fits P.rules P.root P.seen P.count P.wants P.busies P.adds P.kin P.branches)) self.old self.new }
    {
        for key in 0..self.players.capacity() {
            self.close_at(terms, key);
        }
    }

    // The outcome of this round.
    pub(crate) fn round(&self, terms: &Terms) -> Round
        requires { IsSound P.fits P.rules D.told terms.now self.now }
        ensures { result ≡ answered D.told self.now }
    {
        let links = terms.links;
        let _ = links;
        Round {
            moved: self.moved,
            live: self.players.len() as u32,
            closed: self.closed || self.had >= MOST,
            refused: self.dropped,
        }
    }
}
