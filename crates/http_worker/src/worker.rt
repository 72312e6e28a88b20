//! A worker.
ghost use Rattle.std.specs.Prelude.{◌≡◌, ◌≤◌, ◌<◌, ℕ, List, length, false, IfOk};
ghost use Rattle.command_dialog.specs.declared.types.Ask.{Ask};
ghost use Rattle.command_dialog.specs.declared.types.Grant.{Grant};
ghost use Rattle.slab.specs.Slab.{slab_len};
ghost use Rattle.relay_outside.specs.Doors.{IsNewDoor};
ghost use Rattle.relay_outside.specs.Heard.{Came, HearStep};
ghost use Rattle.relay_outside.specs.Said.{SayStep};
ghost use Rattle.relay_outside.specs.declared.link.Said.{Said};
ghost use Rattle.stream_registry.specs.Names.{places};
ghost use Rattle.relay_session.specs.Places.{IsOffered};
ghost use Rattle.http_worker.specs.Benches.{IsSound};
ghost use Rattle.http_worker.specs.Books.{HasBooks, Settled};
ghost use Rattle.http_worker.specs.Coming.{ByRounds};
ghost use Rattle.http_worker.specs.Players.{Closes, TakesTurn};
ghost use Rattle.http_worker.specs.Rounds.{Rounds};
ghost use Rattle.http_worker.specs.Running.{HasRun, KeepsOn};

use crate::bench::{Bench, Terms};
use av_unit::OutOfMemory;
use relay_base::Limits;
use relay_outside::{Door, Link, Rest};
use relay_session::Desk;
use relay_worker::Round;
use slab::Slab;
use std::alloc::Global;
use std::marker::Model;
use std::sync::Wait;
use stream_registry::StreamPort;

/// One thread of the relay for HTTP: it takes links from its door, gives the player of each link its turns,
/// and hands the links back. Its players have names of their own from 2^61 on, which no session of a worker
/// has.
#[derive(Drop)]
pub struct HttpWorker<P: StreamPort, D: Door, R: Rest> {
    alloc: Global,
    terms: Terms,
    bench: Bench<P, D>,
    rest: R,
}

impl<P: StreamPort, D: Door, R: Rest> Model for HttpWorker<P, D, R> {
    ghost use Rattle.http_worker.specs.Benches.{IsSound, WorkerState};

    ghost Value = { WorkerState P D P.Pass D.Link };

    ghost view = { λ w. record { terms = w.terms; bench = w.bench } };

    ghost invariant = { λ w. IsSound P.fits P.rules D.told w.terms w.bench };
}

/// The remains of a worker: its port, its door, and whether a link was dropped, or a player has ended, for
/// want of memory. `worn` says that a player has ended because the history of a stream was full.
#[derive(Drop)]
pub struct HttpFinished<P: StreamPort, D: Door> {
    pub port: P,
    pub door: D,
    pub refused: bool,
    pub worn: bool,
}

impl<P: StreamPort, D: Door, R: Rest> HttpWorker<P, D, R> {
    /// Makes a worker with at most `links` links at a time, whose players have these limits. All link
    /// places are taken now, and no link needs memory when it comes. The door is a new one.
    pub fn new(
        alloc: Global,
        links: u32,
        limits: Limits,
        port: P,
        door: D,
        rest: R,
    ) -> Result<HttpWorker<P, D, R>, OutOfMemory>
        requires short { limits.max_message ≤ 4194304 }
        requires door { IsNewDoor (D.told door) }
        ensures terms { IfOk result (λ w. w.terms ≡ record { links = links; limits = limits }) }
        ensures port { IfOk result (λ w. w.bench.port ≡ port) }
        ensures door { IfOk result (λ w. w.bench.door ≡ door) }
        ensures none { IfOk result (λ w. slab_len w.bench.players ≡ 0) }
        ensures whole { IfOk result (λ w. (w.bench.refused ≡ false) × (w.bench.worn ≡ false)) }
        ensures books { IfOk result (λ w. (desk : Ask → Grant) → HasBooks P.rules P.root P.seen D.Link.told D.Link.counts D.told desk w) }
    {
        let Ok(players) = Slab::with_capacity(alloc, links as usize) else {
            return Err(OutOfMemory);
        };
        Ok(HttpWorker {
            alloc,
            terms: Terms { links, limits },
            bench: Bench {
                port,
                door,
                players,
                had: 0,
                closed: false,
                refused: false,
                worn: false,
                moved: false,
                dropped: false,
            },
            rest,
        })
    }

    /// The invariant: it has at most `links` players, each with a name of its own, and all of them fit its
    /// port.
    pub fn law(&self)
        ensures { IsSound P.fits P.rules D.told self.now.terms self.now.bench }
    {
        let _ = &self.bench;
    }

    // Waits until there is something to do.
    fn pause(&mut self)
        ensures { self.new ≡ self.old }
    {
        self.rest.pause();
    }

    /// Runs one round. The door is asked for a link if a place is free. Each player that is due takes one
    /// turn, and each that has ended is closed. A player takes a turn for certain if it is new or its link
    /// is ready. It also takes one if its last turn moved, left it asking to join, or found the port busy.
    /// A player that takes none stays as it is. Each desk that is handed in is to be the same.
    pub fn round<G: Desk>(&mut self, desk: &G) -> Round
        requires offered { IsOffered (G.grants desk.now) (places (P.rules self.old.bench.port)) }
        ensures rounds { Rounds D.Link.told D.Link.counts D.told
            (TakesTurn P.fits P.rules P.root P.seen P.count P.wants P.busies P.adds P.kin P.branches
            (G.grants desk.now) D.Link.counts D.Link.hears D.Link.says) P.busies D.Link.ready
            (Closes P.fits P.rules P.root P.seen P.count P.wants P.busies P.adds P.kin P.branches) self.old result self.new }
        ensures keeps { KeepsOn P.fits P.rules P.root self.old self.new }
        ensures books { HasBooks P.rules P.root P.seen D.Link.told D.Link.counts D.told (G.grants desk.now) self.old
            → HasBooks P.rules P.root P.seen D.Link.told D.Link.counts D.told (G.grants desk.now) self.new }
    {
        link_law::<D::Link>();
        self.bench.moved = false;
        self.bench.dropped = false;
        self.bench.admit(self.alloc, &self.terms);
        self.bench
            .turn_all(self.alloc, &mut self.rest, desk, &self.terms);
        self.bench.close_all(&self.terms);
        self.bench.round(&self.terms)
    }

    /// Runs rounds until the door has closed and no player lives, with a pause after each round in which
    /// nothing moved. The worker comes there by rounds, and does nothing between them. So it makes no call at
    /// a stream but in a turn or a close of a player.
    pub fn run<W: Wait, G: Desk>(&mut self, rt: &W, desk: &G)
        requires offered { IsOffered (G.grants desk.now) (places (P.rules self.old.bench.port)) }
        ensures rounds { ByRounds P.fits P.rules P.root P.seen P.count P.wants P.busies P.adds P.kin P.branches
            D.Link.told D.Link.counts D.Link.hears D.Link.says D.Link.ready D.told (G.grants desk.now) self.old self.new }
        ensures keeps { KeepsOn P.fits P.rules P.root self.old self.new }
        ensures run { HasRun D.told self.new }
        ensures books { HasBooks P.rules P.root P.seen D.Link.told D.Link.counts D.told (G.grants desk.now) self.old
            → HasBooks P.rules P.root P.seen D.Link.told D.Link.counts D.told (G.grants desk.now) self.new }
    {
        for _ in rt.forever() {
            let round = self.round(desk);
            if round.closed && round.live == 0 {
                self.law();
                return;
            }
            if !round.moved {
                self.pause();
            }
        }
        unreachable!()
    }

    /// Takes a worker apart of whose players none lives.
    pub fn finish(self) -> HttpFinished<P, D>
        requires { slab_len self.bench.players ≡ 0 }
        ensures port { result.port ≡ self.bench.port }
        ensures door { result.door ≡ self.bench.door }
        ensures refused { (result.refused ≡ self.bench.refused) × (result.worn ≡ self.bench.worn) }
        ensures books { (desk : Ask → Grant) → HasBooks P.rules P.root P.seen D.Link.told D.Link.counts D.told desk self
            → Settled desk self.terms (P.rules result.port).limits (P.root result.port) (D.told result.door) result.refused result.worn }
    {
        let HttpWorker {
            alloc: _,
            terms: _,
            bench,
            rest,
        } = self;
        drop(rest);
        let Bench {
            port,
            door,
            players,
            had: _,
            closed: _,
            refused,
            worn,
            moved: _,
            dropped: _,
        } = bench;
        drop(players);
        HttpFinished {
            port,
            door,
            refused,
            worn,
        }
    }
}

// The meaning of a link's steps.
fn link_law<L: Link>()
    ensures heard { (l : L) (room : ℕ) (answer : Came) (m : L) → 0 < room → L.hears l room answer m
        → HearStep room (L.told l) (L.told m) (L.counts l) (L.counts m) answer }
    ensures said { (l : L) (piece : List ℕ) (answer : Said) (m : L) → 0 < length piece → L.says l piece answer m
        → SayStep piece (L.told l) (L.told m) (L.counts l) (L.counts m) answer }
{}
