//! A worker.
ghost use Rattle.std.specs.Prelude.{◌≡◌, ◌≤◌, ◌<◌, ◌^◌, [], ◌∷◌, ◌++◌, ℕ, List, All, length, true, false, IfOk, OnOk, OnErr};
ghost use Rattle.command_dialog.specs.declared.types.Ask.{Ask};
ghost use Rattle.command_dialog.specs.declared.types.Grant.{Grant};
ghost use Rattle.slab.specs.Slab.{slab_len};
ghost use Rattle.stream_registry.specs.Names.{places};
ghost use Rattle.relay_outside.specs.Doors.{IsNewDoor};
ghost use Rattle.relay_outside.specs.Heard.{Came, HearStep};
ghost use Rattle.relay_outside.specs.Said.{SayStep};
ghost use Rattle.relay_outside.specs.declared.link.Said.{Said};
ghost use Rattle.relay_session.specs.Onward.{GoesOn};
ghost use Rattle.relay_session.specs.Places.{AskedAlone, IsOffered};
ghost use Rattle.relay_worker.specs.Benches.{AreFiled, IsFiled, IsSound};
ghost use Rattle.relay_worker.specs.Books.{HasBooks, Settled};
ghost use Rattle.relay_worker.specs.Coming.{ByRounds};
ghost use Rattle.relay_worker.specs.Filed.{TakesTurn as FileTurn, Tallies, is_ready};
ghost use Rattle.relay_worker.specs.Rounds.{Rounds};
ghost use Rattle.relay_worker.specs.Running.{HasRun, IsReadied, KeepsOn};
ghost use Rattle.relay_worker.specs.Sessions.{Closes, TakesTurn};

use crate::bench::{Bench, Terms};
use crate::recorder::Recorder;
use crate::round::Round;
use av_unit::OutOfMemory;
use relay_base::Limits;
use relay_outside::{Door, Link, Rest, Sink};
use relay_session::{Desk, decided_law};
use slab::Slab;
use std::alloc::Global;
use std::marker::Model;
use std::sync::Wait;
use stream_registry::StreamPort;

/// One thread of the relay: it takes links from its door, gives each session of them its turns, and hands
/// the links back. It gives its recorders their turns too.
#[derive(Drop)]
pub struct Worker<P: StreamPort, D: Door, R: Rest, K: Sink> {
    alloc: Global,
    terms: Terms,
    bench: Bench<P, D>,
    rest: R,
    recorders: Vec<Recorder<P, K>>,
}

impl<P: StreamPort, D: Door, R: Rest, K: Sink> Model for Worker<P, D, R, K> {
    ghost use Rattle.relay_worker.specs.Benches.{AreFiled, IsSound, WorkerState};

    ghost Value = { WorkerState P D K P.Pass D.Link };

    ghost view = { λ w. record { terms = w.terms; bench = w.bench; recorders = w.recorders.items } };

    ghost invariant = { λ w. IsSound P.fits P.rules D.told w.terms w.bench × AreFiled P.fits P.rules w.bench.port w.recorders.items };
}

/// The remains of a worker: its port, its door, its recorders, and whether a link was dropped, or a session
/// or recorder has ended, for want of memory. `worn` says that a session has ended because the history of a
/// stream was full.
#[derive(Drop)]
pub struct Finished<P: StreamPort, D: Door, K: Sink> {
    pub port: P,
    pub door: D,
    pub recorders: Vec<Recorder<P, K>>,
    pub refused: bool,
    pub worn: bool,
}

impl<P: StreamPort, D: Door, R: Rest, K: Sink> Worker<P, D, R, K> {
    /// Makes a worker of this number, which is below 2^20, with at most `links` links at a time, whose
    /// sessions have these limits. All link places are taken now, and no link needs memory when it comes.
    /// The door is a new one.
    pub fn new(
        alloc: Global,
        number: u32,
        links: u32,
        limits: Limits,
        port: P,
        door: D,
        rest: R,
    ) -> Result<Worker<P, D, R, K>, OutOfMemory>
        requires number { number < 2 ^ 20 }
        requires short { limits.max_message ≤ 4194304 }
        requires door { IsNewDoor (D.told door) }
        ensures terms { IfOk result (λ w. w.terms ≡ record { number = number; links = links; limits = limits }) }
        ensures port { IfOk result (λ w. w.bench.port ≡ port) }
        ensures door { IfOk result (λ w. w.bench.door ≡ door) }
        ensures none { IfOk result (λ w. (slab_len w.bench.sessions ≡ 0) × (w.recorders ≡ [])) }
        ensures whole { IfOk result (λ w. (w.bench.refused ≡ false) × (w.bench.worn ≡ false)) }
        ensures books { IfOk result (λ w. (desk : Ask → Grant) → HasBooks P.rules P.root P.seen D.Link.told D.Link.counts D.told desk w) }
    {
        let Ok(sessions) = Slab::with_capacity(alloc, links as usize) else {
            return Err(OutOfMemory);
        };
        Ok(Worker {
            alloc,
            terms: Terms {
                number,
                links,
                limits,
            },
            bench: Bench {
                port,
                door,
                sessions,
                had: 0,
                closed: false,
                refused: false,
                worn: false,
                moved: false,
                dropped: false,
            },
            rest,
            recorders: Vec::new(alloc),
        })
    }

    /// The invariant: it has at most `links` sessions, each with a name of its own, and all of them and the
    /// recorders fit its port.
    pub fn law(&self)
        ensures sound { IsSound P.fits P.rules D.told self.now.terms self.now.bench }
        ensures filed { AreFiled P.fits P.rules self.now.bench.port self.now.recorders }
    {
        let _ = &self.bench;
    }

    /// One recorder more. Its place is there, and a pass that it has was attached to the worker's port or
    /// to one made with it. A refusal drops this recorder, and changes nothing else.
    pub fn enlist(&mut self, recorder: Recorder<P, K>) -> Result<(), OutOfMemory>
        requires { IsFiled (P.fits self.old.bench.port) (length (P.rules self.old.bench.port).names) recorder }
        ensures enlisted { OnOk result (self.new ≡ record self.old { recorders = self.old.recorders ++ recorder ∷ [] }) }
        ensures refused { OnErr result (self.new ≡ self.old) }
    {
        let _ = &self.bench;
        self.rest.plays(recorder.place());
        if self.recorders.push(recorder).is_err() {
            return Err(OutOfMemory);
        }
        Ok(())
    }

    /// Lets each recorder take turns until it has joined its stream, or has ended. A recorder that has
    /// joined takes all items published from then on.
    pub fn ready<W: Wait>(&mut self, rt: &W)
        ensures keeps { KeepsOn P.fits P.rules P.root self.old self.new }
        ensures ready { All (λ r. is_ready r ≡ true) self.new.recorders }
        ensures readied { IsReadied self.old.bench self.new.bench }
        ensures tallies { All (Tallies P.count K.holds K.faults) self.old.recorders → All (Tallies P.count K.holds K.faults) self.new.recorders }
        ensures books { (desk : Ask → Grant) → HasBooks P.rules P.root P.seen D.Link.told D.Link.counts D.told desk self.old
            → HasBooks P.rules P.root P.seen D.Link.told D.Link.counts D.told desk self.new }
    {
        self.bench
            .ready_all(rt, self.recorders.as_mut_slice(), &self.terms);
    }

    // Waits until there is something to do.
    fn pause(&mut self)
        ensures { self.new ≡ self.old }
    {
        self.rest.pause();
    }

    /// Runs one round. The door is asked for a link if a place is free. Each session that is due takes one
    /// turn, in the order of the keys, each that has ended is closed, and each recorder takes one turn. A
    /// session takes a turn for certain if it is new or its link is ready. It also takes one if its last
    /// turn moved, left a call that waits, or found the port busy. A session that takes none stays as it
    /// is. Each desk that is handed in is to be the same.
    pub fn round<G: Desk>(&mut self, desk: &G) -> Round
        requires offered { IsOffered (G.grants desk.now) (places (P.rules self.old.bench.port)) }
        ensures rounds { Rounds D.Link.told D.Link.counts D.told
            (TakesTurn (AskedAlone P.fits P.rules P.root P.seen P.count P.wants P.busies P.adds P.kin P.branches) (GoesOn P.fits P.rules P.root P.seen P.busies)
            (G.grants desk.now) D.Link.hears D.Link.says) P.busies D.Link.ready
            (Closes P.fits P.rules P.root P.seen P.count P.wants P.busies P.adds P.kin P.branches)
            (FileTurn P.fits P.rules P.root P.busies P.seen P.mine P.count P.adds P.kin P.branches K.takes K.holds) self.old result self.new }
        ensures keeps { KeepsOn P.fits P.rules P.root self.old self.new }
        ensures tallies { All (Tallies P.count K.holds K.faults) self.old.recorders → All (Tallies P.count K.holds K.faults) self.new.recorders }
        ensures books { HasBooks P.rules P.root P.seen D.Link.told D.Link.counts D.told (G.grants desk.now) self.old
            → HasBooks P.rules P.root P.seen D.Link.told D.Link.counts D.told (G.grants desk.now) self.new }
    {
        link_law::<D::Link>();
        decided_law();
        self.bench.moved = false;
        self.bench.dropped = false;
        self.bench.admit(self.alloc, &self.terms);
        self.bench
            .turn_all(self.alloc, &mut self.rest, desk, &self.terms);
        self.bench.close_all(&mut self.rest, &self.terms);
        self.bench
            .record_all(&mut self.rest, self.recorders.as_mut_slice(), &self.terms);
        self.bench.round(&self.terms)
    }

    /// Runs rounds until the door has closed and no session lives, with a pause after each round in which
    /// nothing moved. The worker comes there by rounds, and does nothing between them. So it makes no call at
    /// a stream but in a turn or a close of a session, or in a turn of a recorder.
    pub fn run<W: Wait, G: Desk>(&mut self, rt: &W, desk: &G)
        requires offered { IsOffered (G.grants desk.now) (places (P.rules self.old.bench.port)) }
        ensures rounds { ByRounds P.fits P.rules P.root P.seen P.mine P.count P.wants P.busies P.adds P.kin P.branches
            D.Link.told D.Link.counts D.Link.hears D.Link.says D.Link.ready D.told K.takes K.holds (G.grants desk.now) self.old self.new }
        ensures keeps { KeepsOn P.fits P.rules P.root self.old self.new }
        ensures run { HasRun D.told self.new }
        ensures tallies { All (Tallies P.count K.holds K.faults) self.old.recorders → All (Tallies P.count K.holds K.faults) self.new.recorders }
        ensures books { HasBooks P.rules P.root P.seen D.Link.told D.Link.counts D.told (G.grants desk.now) self.old
            → HasBooks P.rules P.root P.seen D.Link.told D.Link.counts D.told (G.grants desk.now) self.new }
    {
        for _ in rt.forever() {
            let round = self.round(desk);
            if round.closed && round.live == 0 {
                self.law();
                return;
            }
            if !round.moved {
                self.pause();
            }
        }
        unreachable!()
    }

    /// Takes a worker apart of whose sessions none lives.
    pub fn finish(self) -> Finished<P, D, K>
        requires { slab_len self.bench.sessions ≡ 0 }
        ensures port { result.port ≡ self.bench.port }
        ensures door { result.door ≡ self.bench.door }
        ensures recorders { result.recorders.items ≡ self.recorders }
        ensures filed { AreFiled P.fits P.rules result.port result.recorders.items }
        ensures refused { (result.refused ≡ self.bench.refused) × (result.worn ≡ self.bench.worn) }
        ensures books { (desk : Ask → Grant) → HasBooks P.rules P.root P.seen D.Link.told D.Link.counts D.told desk self
            → Settled desk self.terms (P.rules result.port).limits (P.root result.port) (D.told result.door) result.refused result.worn }
    {
        let Worker {
            alloc: _,
            terms: _,
            bench,
            rest,
            recorders,
        } = self;
        drop(rest);
        let Bench {
            port,
            door,
            sessions,
            had: _,
            closed: _,
            refused,
            worn,
            moved: _,
            dropped: _,
        } = bench;
        drop(sessions);
        Finished {
            port,
            door,
            recorders,
            refused,
            worn,
        }
    }
}

// The meaning of a link's steps.
fn link_law<L: Link>()
    ensures heard { (l : L) (room : ℕ) (answer : Came) (m : L) → 0 < room → L.hears l room answer m
        → HearStep room (L.told l) (L.told m) (L.counts l) (L.counts m) answer }
    ensures said { (l : L) (piece : List ℕ) (answer : Said) (m : L) → 0 < length piece → L.says l piece answer m
        → SayStep piece (L.told l) (L.told m) (L.counts l) (L.counts m) answer }
{}
