//! The state of a worker during its rounds: its port, its door, and its sessions with their links.
ghost use Rattle.std.specs.Prelude.{◌≡◌, ◌≢◌, ◌||◌, All, length, map, true, false, None, is_some, nat_lt};
ghost use Rattle.stream_registry.specs.Names.{places};
ghost use Rattle.relay_session.specs.Onward.{GoesOn};
ghost use Rattle.relay_session.specs.Places.{AskedAlone, IsAt, IsOffered};
ghost use Rattle.relay_session.specs.SeatState.{HasFit};
ghost use Rattle.relay_session.specs.SessionState.{ended_by};
ghost use Rattle.relay_worker.specs.Benches.{AreFiled, IsFiled, IsSound};
ghost use Rattle.relay_worker.specs.Filed.{TakesTurn as FileTurn, Tallies, is_ready};
ghost use Rattle.relay_worker.specs.Rounds.{AdmitsIf, ClosesAt, HandsBack, Recorded, RecordsAt, TurnsAt, Walks, WalksAll};
ghost use Rattle.relay_worker.specs.Rounds.{answered, asks_door, has_left, is_starved, is_written, leaves_due, starves};
ghost use Rattle.relay_worker.specs.Running.{GoesAhead, IsReadied, label_of};
ghost use Rattle.relay_worker.specs.Sessions.{Closes, TakesTurn, is_moved, is_spent, is_worn, lacks_memory, wears_out};

use crate::hints::{Parts, pushes_at, tell_pushed, tell_turn};
use crate::recorder::Recorder;
use crate::round::Round;
use crate::telling::{Before, NotingDesk, Request, granted, told};
use media_recorder::{RecEnd, RecTurn};
use relay_base::Limits;
use relay_outside::{Door, Knock, Link, Rest, Sink};
use relay_session::{Active, Desk, End, Leaving, Session, Turn, decided_law};
use slab::Slab;
use std::alloc::Global;
use std::cell::Cell;
use std::sync::Wait;
use stream_registry::StreamPort;

/// The number of a worker, how many links it has at most at a time, and the limits of its sessions.
#[derive(Clone, Copy)]
pub struct Terms {
    pub number: u32,
    pub links: u32,
    pub limits: Limits,
}

/// A session with its link. `over` says that it has ended. `asked` is its peer's request that waits or was
/// granted. `due` says that it takes a turn in the next round, whether or not its link is ready. It is due
/// if it is new, or if its last turn moved, left a call that waits, or found the port busy. `stream` is the
/// number for hints of the last stream that was granted to it. `pushes` is the number of pushes to the
/// stream that it plays, before its last turn.
#[derive(Drop)]
pub struct Seated<P: StreamPort, L: Link> {
    pub session: Session<P>,
    pub link: L,
    pub over: bool,
    pub asked: Option<Request>,
    pub due: bool,
    pub stream: Option<u32>,
    pub pushes: u64,
}

impl<P: StreamPort, L: Link> Seated<P, L> {
    // Which stream it publishes, and which it plays.
    fn parts(&self) -> Parts {
        match self.session.active() {
            Active::Nothing => Parts {
                publishes: None,
                plays: None,
            },
            Active::Publishes => Parts {
                publishes: self.stream,
                plays: None,
            },
            Active::Plays { player: _ } => Parts {
                publishes: None,
                plays: self.stream,
            },
        }
    }

    // Whether it takes a turn in this round.
    fn is_due<R: Rest>(&self, rest: &R) -> bool
        ensures { result ≡ false → (self.now.due ≡ false) × L.ready self.now.link false }
    {
        if self.due {
            return true;
        }
        if self.link.is_ready() {
            return true;
        }
        pushes_at(rest, self.parts().plays) != self.pushes
    }

    // One turn of a session that lives.
    fn turn<R: Rest, G: Desk>(
        &mut self,
        alloc: Global,
        port: &mut P,
        rest: &mut R,
        desk: &G,
    ) -> Turn
        requires living { self.old.session.ended ≡ None }
        requires at { IsAt (P.fits port.old) (places (P.rules port.old)) self.old.session.parts self.old.session.seat }
        requires offered { IsOffered (G.grants desk.now) (places (P.rules port.old)) }
        ensures at { IsAt (P.fits port.new) (places (P.rules port.new)) self.new.session.parts self.new.session.seat }
        ensures over { self.new.over ≡ is_some self.new.session.ended }
        ensures ahead { GoesAhead P.fits P.rules P.root port.old port.new }
        ensures due { self.new.due ≡ leaves_due (P.busies port.old) (P.busies port.new) result self.new.session }
        ensures turn { TakesTurn (AskedAlone P.fits P.rules P.root P.seen P.count P.wants P.busies P.adds P.kin P.branches)
            (GoesOn P.fits P.rules P.root P.seen P.busies)
            (G.grants desk.now) L.hears L.says port.old self.old result port.new self.new }
    {
        decided_law();
        let was = self.parts();
        let pushes = pushes_at(rest, was.plays);
        let busies = port.busies();
        let before = Before::of(&self.session);
        let noting = NotingDesk {
            inner: desk,
            noted: Cell::new(None),
        };
        let answer = self.session.turn(alloc, port, &mut self.link, &noting);
        self.over = is_over(answer);
        let NotingDesk { inner: _, noted } = noting;
        let noted = noted.into_inner();
        self.stream = granted(port, &self.session, self.stream, noted);
        self.asked = told(&self.link, &self.session, before, self.asked, noted, answer);
        self.pushes = pushes;
        self.due = leaves_due(
            busies,
            port.busies(),
            is_moved(answer),
            self.session.waits(),
        );
        let now = self.parts();
        tell_turn(rest, answer, was, now);
        answer
    }

    // One close of a session that has ended.
    fn close(&mut self, port: &mut P) -> Leaving
        requires fit { HasFit (P.fits port.old) self.old.session.seat.spot }
        requires over { self.old.session.ended ≢ None }
        ensures link { self.new ≡ record self.old { session = self.new.session } }
        ensures over { is_some self.new.session.ended ≡ true }
        ensures who { self.new.session.parts.who ≡ self.old.session.parts.who }
        ensures ahead { GoesAhead P.fits P.rules P.root port.old port.new }
        ensures closes { Closes P.fits P.rules P.root P.seen P.count P.wants P.busies P.adds P.kin P.branches
            port.old self.old.session result port.new self.new.session }
    {
        self.session.close(port)
    }
}

/// Whether a session takes a turn in the next round, whether or not its link is ready. `moved` says that
/// its last turn moved something, and `waits` that the turn left a call that waits. `before` and `after`
/// are the numbers of the port's calls that were answered Busy before and after that turn.
pub fn leaves_due(before: u64, after: u64, moved: bool, waits: bool) -> bool
    ensures { result ≡ (moved || (waits || nat_lt before after)) }
{
    moved || (waits || before < after)
}

// Whether the session has left its stream.
fn has_left(answer: Leaving) -> bool
    ensures { result ≡ has_left answer }
{
    match answer {
        Leaving::Done => true,
        Leaving::Worn => true,
        Leaving::Busy => false,
        Leaving::OutOfMemory => false,
    }
}

// Whether the session has ended.
fn is_over(answer: Turn) -> bool
    ensures { result ≡ is_some (ended_by answer) }
{
    match answer {
        Turn::Moved => false,
        Turn::Idle => false,
        Turn::Ended(_) => true,
    }
}

// Whether the turn moved something.
fn is_moved(answer: Turn) -> bool
    ensures { result ≡ is_moved answer }
{
    match answer {
        Turn::Moved => true,
        Turn::Idle => false,
        Turn::Ended(_) => false,
    }
}

// Whether the session has ended for want of memory.
fn is_spent(answer: Turn) -> bool
    ensures { result ≡ is_spent answer }
{
    match answer {
        Turn::Moved => false,
        Turn::Idle => false,
        Turn::Ended(end) => lacks_memory(end),
    }
}

// Whether the session has ended as the history of a stream was full.
fn is_worn(answer: Turn) -> bool
    ensures { result ≡ is_worn answer }
{
    match answer {
        Turn::Moved => false,
        Turn::Idle => false,
        Turn::Ended(end) => wears_out(end),
    }
}

// Whether the recorder moved something.
fn is_written(answer: RecTurn) -> bool
    ensures { result ≡ is_written answer }
{
    match answer {
        RecTurn::Moved => true,
        RecTurn::Idle => false,
        RecTurn::Busy => false,
        RecTurn::Ended(_) => false,
    }
}

// Whether the recorder has ended for want of memory.
fn is_starved(answer: RecTurn) -> bool
    ensures { result ≡ is_starved answer }
{
    match answer {
        RecTurn::Moved => false,
        RecTurn::Idle => false,
        RecTurn::Busy => false,
        RecTurn::Ended(end) => starves(end),
    }
}

// Says that something moved here.
fn wake<R: Rest>(rest: &mut R, moved: bool) {
    if moved {
        rest.moved();
    }
}

/// The port of a worker, its door and its sessions, each under a key. `had` is the number of links it has
/// had, and `closed` says that the door has closed. `refused` says that a link was dropped, or that a
/// session or recorder has ended, for want of memory. `worn` says that a session has ended because the
/// history of a stream was full. `moved` and `dropped` describe this round: something moved, or a link was
/// dropped.
#[derive(Drop)]
pub struct Bench<P: StreamPort, D: Door> {
    pub port: P,
    pub door: D,
    pub sessions: Slab<Seated<P, D::Link>>,
    pub had: u64,
    pub closed: bool,
    pub refused: bool,
    pub worn: bool,
    pub moved: bool,
    pub dropped: bool,
}

// The most links of a worker.
const MOST: u64 = 1 << 40;

impl<P: StreamPort, D: Door> Bench<P, D> {
    // A link more, if a place is free and one comes.
    pub(crate) fn admit(&mut self, alloc: Global, terms: &Terms)
        requires sound { IsSound P.fits P.rules D.told terms.now self.old }
        ensures sound { IsSound P.fits P.rules D.told terms.now self.new }
        ensures ahead { GoesAhead P.fits P.rules P.root self.old.port self.new.port }
        ensures admits { AdmitsIf D.Link.told D.Link.counts D.told terms.now (asks_door terms.now self.old) self.old self.new }
    {
        if self.sessions.len() >= terms.links as usize {
            return;
        }
        if self.had >= MOST {
            return;
        }
        match self.door.next() {
            Knock::Link(link) => {
                let who = u64::from(terms.number) * MOST + self.had;
                let session = Session::new(alloc, who, terms.limits);
                self.sessions.insert_reserved(Seated {
                    session,
                    link,
                    over: false,
                    asked: None,
                    due: true,
                    stream: None,
                    pushes: 0,
                });
                self.had += 1;
                self.moved = true;
            }
            Knock::NotYet => {}
            Knock::Closed => {
                self.closed = true;
            }
            Knock::Failed => {}
        }
    }

    // The session at this key takes a turn, if it lives and is due.
    fn turn_at<R: Rest, G: Desk>(
        &mut self,
        alloc: Global,
        rest: &mut R,
        desk: &G,
        terms: &Terms,
        key: usize,
    )
        requires sound { IsSound P.fits P.rules D.told terms.now self.old }
        requires offered { IsOffered (G.grants desk.now) (places (P.rules self.old.port)) }
        ensures sound { IsSound P.fits P.rules D.told terms.now self.new }
        ensures ahead { GoesAhead P.fits P.rules P.root self.old.port self.new.port }
        ensures turns { TurnsAt (TakesTurn (AskedAlone P.fits P.rules P.root P.seen P.count P.wants P.busies P.adds P.kin P.branches)
            (GoesOn P.fits P.rules P.root P.seen P.busies)
            (G.grants desk.now) D.Link.hears D.Link.says) P.busies D.Link.ready key self.old self.new }
    {
        let _ = terms;
        let Some(seated) = self.sessions.get(key) else {
            return;
        };
        if seated.over {
            return;
        }
        if !seated.is_due(rest) {
            return;
        }
        let Some(seated) = self.sessions.get_mut(key) else {
            return;
        };
        let answer = seated.turn(alloc, &mut self.port, rest, desk);
        self.moved |= is_moved(answer);
        self.refused |= is_spent(answer);
        self.worn |= is_worn(answer);
        wake(rest, is_moved(answer));
    }

    // The session at this key is closed, if it has ended, and its link is handed back.
    fn close_at<R: Rest>(&mut self, rest: &mut R, terms: &Terms, key: usize)
        requires sound { IsSound P.fits P.rules D.told terms.now self.old }
        ensures sound { IsSound P.fits P.rules D.told terms.now self.new }
        ensures ahead { GoesAhead P.fits P.rules P.root self.old.port self.new.port }
        ensures closes { ClosesAt D.Link.told D.Link.counts D.told
            (Closes P.fits P.rules P.root P.seen P.count P.wants P.busies P.adds P.kin P.branches) key self.old self.new }
    {
        let Some(seated) = self.sessions.get(key) else {
            return;
        };
        if !seated.over {
            return;
        }
        let Some(mut seated) = self.sessions.try_remove(key) else {
            return;
        };
        let was = seated.parts();
        let answer = seated.close(&mut self.port);
        tell_pushed(rest, was.publishes);
        if has_left(answer) {
            self.hand_back(seated);
            return;
        }
        self.sessions.insert_reserved(seated);
    }

    // A session has left, and its link goes back to the door.
    fn hand_back(&mut self, seated: Seated<P, D::Link>)
        ensures back { HandsBack D.Link.told D.Link.counts D.told seated.link self.old self.new }
        ensures port { self.new.port ≡ self.old.port }
        ensures sessions { self.new.sessions ≡ self.old.sessions }
    {
        let Seated {
            session,
            link,
            over: _,
            asked: _,
            due: _,
            stream: _,
            pushes: _,
        } = seated;
        drop(session);
        self.moved = true;
        if self.door.back(link).is_err() {
            self.refused = true;
            self.dropped = true;
        }
    }

    // One turn of each session that is due, in the order of the keys.
    pub(crate) fn turn_all<R: Rest, G: Desk>(
        &mut self,
        alloc: Global,
        rest: &mut R,
        desk: &G,
        terms: &Terms,
    )
        requires sound { IsSound P.fits P.rules D.told terms.now self.old }
        requires offered { IsOffered (G.grants desk.now) (places (P.rules self.old.port)) }
        ensures sound { IsSound P.fits P.rules D.told terms.now self.new }
        ensures ahead { GoesAhead P.fits P.rules P.root self.old.port self.new.port }
        ensures turns { WalksAll (TurnsAt (TakesTurn (AskedAlone P.fits P.rules P.root P.seen P.count P.wants P.busies P.adds P.kin P.branches)
            (GoesOn P.fits P.rules P.root P.seen P.busies) (G.grants desk.now) D.Link.hears D.Link.says) P.busies D.Link.ready) self.old self.new }
    {
        for key in 0..self.sessions.capacity() {
            self.turn_at(alloc, rest, desk, terms, key);
        }
    }

    // One close of each session that has ended, in the order of the keys.
    pub(crate) fn close_all<R: Rest>(&mut self, rest: &mut R, terms: &Terms)
        requires sound { IsSound P.fits P.rules D.told terms.now self.old }
        ensures sound { IsSound P.fits P.rules D.told terms.now self.new }
        ensures ahead { GoesAhead P.fits P.rules P.root self.old.port self.new.port }
        ensures closes { WalksAll (ClosesAt D.Link.told D.Link.counts D.told
            (Closes P.fits P.rules P.root P.seen P.count P.wants P.busies P.adds P.kin P.branches)) self.old self.new }
    {
        for key in 0..self.sessions.capacity() {
            self.close_at(rest, terms, key);
        }
    }

    // The recorder takes a turn.
    fn record<R: Rest, K: Sink>(
        &mut self,
        rest: &mut R,
        recorder: &mut Recorder<P, K>,
        terms: &Terms,
    )
        requires sound { IsSound P.fits P.rules D.told terms.now self.old }
        requires filed { IsFiled (P.fits self.old.port) (length (P.rules self.old.port).names) recorder.old }
        ensures sound { IsSound P.fits P.rules D.told terms.now self.new }
        ensures ahead { GoesAhead P.fits P.rules P.root self.old.port self.new.port }
        ensures filed { IsFiled (P.fits self.new.port) (length (P.rules self.new.port).names) recorder.new }
        ensures tallies { Tallies P.count K.holds K.faults recorder.old → Tallies P.count K.holds K.faults recorder.new }
        ensures records { Recorded (FileTurn P.fits P.rules P.root P.busies P.seen P.mine P.count P.adds P.kin P.branches K.takes K.holds) recorder.old self.old recorder.new self.new }
    {
        let _ = terms;
        let answer = recorder.turn(&mut self.port);
        self.moved |= is_written(answer);
        self.refused |= is_starved(answer);
        wake(rest, is_written(answer));
    }

    // One turn of each recorder, in order.
    pub(crate) fn record_all<R: Rest, K: Sink>(
        &mut self,
        rest: &mut R,
        recorders: &mut [Recorder<P, K>],
        terms: &Terms,
    )
        requires sound { IsSound P.fits P.rules D.told terms.now self.old }
        requires filed { AreFiled P.fits P.rules self.old.port recorders.old }
        ensures sound { IsSound P.fits P.rules D.told terms.now self.new }
        ensures ahead { GoesAhead P.fits P.rules P.root self.old.port self.new.port }
        ensures filed { AreFiled P.fits P.rules self.new.port recorders.new }
        ensures labels { map label_of recorders.new ≡ map label_of recorders.old }
        ensures tallies { All (Tallies P.count K.holds K.faults) recorders.old → All (Tallies P.count K.holds K.faults) recorders.new }
        ensures records { Walks (RecordsAt (FileTurn P.fits P.rules P.root P.busies P.seen P.mine P.count P.adds P.kin P.branches K.takes K.holds)) (length recorders.old)
            (self.old, recorders.old) (self.new, recorders.new) }
    {
        for recorder in recorders.iter_mut() {
            self.record(rest, recorder, terms);
        }
    }

    // The recorder takes turns until it has joined its stream, or has ended.
    fn ready<W: Wait, K: Sink>(&mut self, rt: &W, recorder: &mut Recorder<P, K>, terms: &Terms)
        requires sound { IsSound P.fits P.rules D.told terms.now self.old }
        requires filed { IsFiled (P.fits self.old.port) (length (P.rules self.old.port).names) recorder.old }
        ensures sound { IsSound P.fits P.rules D.told terms.now self.new }
        ensures ahead { GoesAhead P.fits P.rules P.root self.old.port self.new.port }
        ensures filed { IsFiled (P.fits self.new.port) (length (P.rules self.new.port).names) recorder.new }
        ensures label { label_of recorder.new ≡ label_of recorder.old }
        ensures tallies { Tallies P.count K.holds K.faults recorder.old → Tallies P.count K.holds K.faults recorder.new }
        ensures ready { is_ready recorder.new ≡ true }
        ensures readied { IsReadied self.old self.new }
    {
        let _ = terms;
        let answer = recorder.ready(rt, &mut self.port);
        self.refused |= is_starved(answer);
    }

    // The same of each recorder, in order.
    pub(crate) fn ready_all<W: Wait, K: Sink>(
        &mut self,
        rt: &W,
        recorders: &mut [Recorder<P, K>],
        terms: &Terms,
    )
        requires sound { IsSound P.fits P.rules D.told terms.now self.old }
        requires filed { AreFiled P.fits P.rules self.old.port recorders.old }
        ensures sound { IsSound P.fits P.rules D.told terms.now self.new }
        ensures ahead { GoesAhead P.fits P.rules P.root self.old.port self.new.port }
        ensures filed { AreFiled P.fits P.rules self.new.port recorders.new }
        ensures labels { map label_of recorders.new ≡ map label_of recorders.old }
        ensures tallies { All (Tallies P.count K.holds K.faults) recorders.old → All (Tallies P.count K.holds K.faults) recorders.new }
        ensures ready { All (λ r. is_ready r ≡ true) recorders.new }
        ensures readied { IsReadied self.old self.new }
    {
        for recorder in recorders.iter_mut() {
            self.ready(rt, recorder, terms);
        }
    }

    // The outcome of this round.
    pub(crate) fn round(&self, terms: &Terms) -> Round
        requires { IsSound P.fits P.rules D.told terms.now self.now }
        ensures { result ≡ answered D.told self.now }
    {
        let links = terms.links;
        let _ = links;
        Round {
            moved: self.moved,
            live: self.sessions.len() as u32,
            closed: self.closed || self.had >= MOST,
            refused: self.dropped,
        }
    }
}

// Whether a session that ended so lacked memory.
fn lacks_memory(end: End) -> bool
    ensures { result ≡ lacks_memory end }
{
    match end {
        End::PeerClosed => false,
        End::LinkFault => false,
        End::BadVersion { .. } => false,
        End::BadChunk { .. } => false,
        End::BadControl { .. } => false,
        End::BadCommand { .. } => false,
        End::TooManyStreams { .. } => false,
        End::Quit => false,
        End::Worn => false,
        End::OutOfMemory => true,
    }
}

// Whether a session that ended so found the history of a stream full.
fn wears_out(end: End) -> bool
    ensures { result ≡ wears_out end }
{
    match end {
        End::PeerClosed => false,
        End::LinkFault => false,
        End::BadVersion { .. } => false,
        End::BadChunk { .. } => false,
        End::BadControl { .. } => false,
        End::BadCommand { .. } => false,
        End::TooManyStreams { .. } => false,
        End::Quit => false,
        End::Worn => true,
        End::OutOfMemory => false,
    }
}

// Whether a recorder that ended so lacked memory.
fn starves(end: RecEnd) -> bool
    ensures { result ≡ starves end }
{
    match end {
        RecEnd::SinkFault => false,
        RecEnd::Full => false,
        RecEnd::Worn => false,
        RecEnd::OutOfMemory => true,
    }
}
