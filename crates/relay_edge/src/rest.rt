//! Rests over a poll.

use crate::cells::{CLOSING, Cells, DOOR, LEFT, READABLE, WRITABLE};
use crate::control::Control;
use crate::giving_way::Way;
use crate::life::STALE;
use crate::post::Post;
use crate::throttle::Kind;
use crate::turnstile::Turnstile;
use log::warn;
use mio::event::Event;
use mio::{Events, Poll, Token};
use relay_outside::Rest;
use std::alloc::Global;
use std::sync::Arc;
use std::time::Duration;

/// The token of a waker.
pub const WAKER: usize = usize::MAX;

/// The longest wait, in milliseconds. A link is looked into after a wait if it wasn't for as long.
const LONGEST: u64 = STALE;

/// The time after which the streams that a worker plays are learned anew, in milliseconds.
const LEARN_PLAYS: u64 = 1000;

/// The first waits, in milliseconds, if another worker was awake, so that a call may have found a stream
/// busy.
const FIRST: [u64; 4] = [0, 1, 4, 16];

/// The waits after them, in milliseconds, while a call may find a stream busy.
const NEXT: u64 = 32;

/// The time between two checks whether a connection finds no place, in milliseconds.
const CROWDED: u64 = 100;

/// The most players that are turned away at a time.
const AT_ONCE: usize = 64;

/// The longest wait in milliseconds, once the server stops.
const STOPPING: u64 = 20;

/// The longest wait in milliseconds, if the door has left a connection to a worker that hasn't looked yet.
const LEAVING: u64 = 4;

/// The number of pauses in a row with sendable bytes kept, after which the worker waits all the same, but not
/// for long.
const HURRIES: usize = 64;

/// The number of turns that moved something after which the poll is asked without waiting.
const LOOK: u32 = 32;

/// The number of such turns after which the door is asked again, even if the poll doesn't report it.
const LOOK_AT_DOOR: u32 = 8192;

/// The number of such turns within which the worker has asked its door for a link, if it has a place for one.
const LOOK_AT_PLACES: u32 = 256;

/// Waits until there is something to do for a worker: at its sockets, or since another worker pushed to a
/// stream that it plays. The rest of one worker also answers at the control socket. To the others, a worker
/// whose rest is gone waits for ever and has no place for a link.
pub struct RealRest {
    poll: Poll,
    events: Events,
    post: Arc<Post, Global>,
    // Turns that moved something.
    moves: u32,
    // Pauses since the last of them, or since the last that ended before its time.
    pauses: usize,
    // The board's stillness when the worker last went on.
    stillness: Option<u64>,
    // When it last looked whether a connection finds no place.
    looked: u64,
    // Each link has said in the last round that there is nothing to do.
    calm: bool,
    // The streams that its recorders play, and when those that its links play were forgotten last.
    recorded: Vec<u32>,
    learned: u64,
    runs: bool,
    control: Option<Control>,
    // The turnstile, which turns away HTTP players that find no place.
    turnstile: Option<Turnstile>,
}

impl Drop for RealRest {
    fn drop(self) {
        let RealRest {
            poll,
            events,
            post,
            moves: _,
            pauses: _,
            stillness: _,
            looked: _,
            calm: _,
            recorded,
            learned: _,
            runs: _,
            control,
            turnstile,
        } = self;
        post.retire();
        drop(recorded);
        drop(turnstile);
        drop(control);
        drop(events);
        drop(poll);
        drop(post);
    }
}

// Marks the states that an event reports.
fn mark(cells: &Cells, event: &Event) {
    let Token(token) = event.token();
    let mut bits = 0;
    if event.is_readable() {
        bits |= READABLE;
    }
    if event.is_writable() {
        bits |= WRITABLE;
    }
    if event.is_read_closed() || event.is_write_closed() || event.is_error() {
        bits |= READABLE | WRITABLE | CLOSING;
    }
    if token == DOOR {
        cells.remove(DOOR, LEFT);
    }
    cells.add(token, bits);
}

// Logs that a connection waits, once until a link is gone.
fn tell_crowd(post: &Post) {
    if post.watch.crowd() {
        warn!(post.watch.log;
            "relay: a connection waits, since all places for links are taken, {} of them at this worker",
            post.links()
        );
    }
}

// Answers all HTTP players that wait that no place is left.
fn turn_away(post: &Post, turnstile: &mut Turnstile) {
    for _ in 0..AT_ONCE {
        let Some(address) = turnstile.turn_away(post.now()) else {
            return;
        };
        post.warn_of(
            Kind::turned_away(),
            address,
            "all places for players are taken",
        );
    }
    post.hurry();
}

impl RealRest {
    /// Creates the rest of a worker whose waker is registered.
    pub(crate) fn new(
        poll: Poll,
        events: Events,
        post: Arc<Post, Global>,
        turnstile: Option<Turnstile>,
    ) -> RealRest {
        let recorded = Vec::new(post.alloc);
        RealRest {
            poll,
            events,
            post,
            moves: 0,
            pauses: 0,
            stillness: None,
            looked: 0,
            calm: false,
            recorded,
            learned: 0,
            runs: false,
            control: None,
            turnstile,
        }
    }

    // Opens the control socket and reports the server's addresses, in the first worker that runs.
    fn open(&mut self) {
        let watch = &self.post.watch;
        watch.say_addresses(self.post.alloc);
        let Some(socket) = watch.take_control() else {
            return;
        };
        match Control::new(self.post.alloc, socket, self.poll.registry()) {
            Ok(control) => self.control = Some(control),
            Err(error) => watch.say_of(b"the socket of RELAY_CONTROL", &error),
        }
    }

    // Waits at most `milliseconds`, and marks the sockets that are ready. Returns whether any is.
    fn wait(&mut self, milliseconds: u64) -> bool {
        let most = Some(Duration::from_millis(milliseconds));
        if self.poll.poll(&mut self.events, most).is_err() {
            // A signal ended the wait, maybe long ago. The events since then must be seen before the clock
            // is.
            let now = Some(Duration::from_millis(0));
            let _ = self.poll.poll(&mut self.events, now);
        }
        self.post.tick();
        self.learn_plays();
        let mut ready = false;
        let mut asked = false;
        for event in self.events.iter() {
            let Token(token) = event.token();
            asked |= Control::has(token);
            mark(&self.post.cells, event);
            ready = true;
        }
        self.answer(asked);
        ready
    }

    // Makes room for a connection that waits, if no worker at this address has a place. A link that neither
    // publishes nor plays gives up its place. If none does so now, an HTTP player is turned away. If none can
    // at all, an RTMP connection that waits is logged.
    fn make_room(&mut self) {
        let post = &self.post;
        let now = post.now();
        let wait = if post.is_http() { 0 } else { CROWDED };
        if now.saturating_sub(self.looked) < wait || !post.is_crowded() || !post.has_waiting() {
            return;
        }
        self.looked = now;
        let way = post.ask_for_place();
        match &mut self.turnstile {
            Some(turnstile) if way != Way::Given => turn_away(post, turnstile),
            None if way == Way::Closed => tell_crowd(post),
            _ => {}
        }
    }

    // Makes room if the worker has no place for a link, and goes on with the players that were turned away.
    fn attend(&mut self) {
        if !self.post.take_knocked() {
            self.make_room();
        }
        let now = self.post.now();
        if self.post.watch.is_stopped() {
            self.turnstile = None;
        } else if let Some(turnstile) = &mut self.turnstile {
            turnstile.see_off(now);
        }
        self.post.tell_left_out();
    }

    // Marks the worker as running, and logs the workers that don't run.
    fn run(&mut self) {
        if !self.runs {
            self.runs = true;
            self.post.watch.run(self.post.now());
            if self.post.serves() {
                self.open();
            }
        }
        let post = &self.post;
        if let Some(waiting) = post.watch.waiting(post.now()) {
            warn!(post.watch.log;
                "relay: {waiting} of the workers have no thread, since the system gives no more: they wait until another ends"
            );
        }
    }

    // Answers at the control socket, if a client has sent something or may have waited for too long.
    fn answer(&mut self, asked: bool) {
        let now = self.post.now();
        if let Some(control) = &mut self.control {
            if (asked || control.is_asked())
                && control.go_on(self.poll.registry(), &self.post.watch, now)
            {
                self.post.wake_all();
            }
        }
    }

    // Returns whether no other worker made a call since the worker last went on.
    fn is_still(&self) -> bool {
        match self.post.stillness() {
            None => false,
            Some(now) => self.stillness == Some(now),
        }
    }

    // Returns whether no call found a stream busy in the last round: each session was skipped, and there are
    // no recorders and no edge.
    fn is_calm(&self) -> bool {
        self.calm && self.recorded.is_empty() && self.post.has_door()
    }

    // Forgets at times which streams are played here. The next round asks for the stream of each player,
    // which is played again from then on.
    fn learn_plays(&mut self) {
        if self.post.now().saturating_sub(self.learned) < LEARN_PLAYS {
            return;
        }
        self.learned = self.post.now();
        self.post.forget_plays();
        for stream in self.recorded.as_slice() {
            self.post.play(*stream);
        }
    }

    // Returns how long the worker may wait, in milliseconds, by its links and streams.
    fn patience(&self) -> u64 {
        let holding = self.post.cells.is_holding();
        if holding && self.pauses < HURRIES {
            return 0;
        }
        if !holding && (self.is_calm() || self.is_still()) {
            return LONGEST;
        }
        match FIRST.get(self.pauses) {
            Some(wait) => *wait,
            None => NEXT,
        }
    }

    // Returns the next wait in milliseconds, at most until kept bytes are due. It is short if the door has left
    // a connection to a worker that hasn't looked yet, or if the server stops.
    fn next_wait(&self) -> u64 {
        let most = match self.post.cells.take_due() {
            Some(due) => self
                .patience()
                .min(due.saturating_sub(self.post.now()).max(1)),
            None => self.patience(),
        };
        if self.post.is_leaving() {
            most.min(LEAVING)
        } else if self.post.watch.is_stopped() {
            most.min(STOPPING)
        } else {
            most
        }
    }
}

impl Rest for RealRest {
    fn pause(&mut self) {
        self.run();
        self.post.tell_all();
        self.calm = self.post.cells.take_calm();
        self.attend();
        let most = self.next_wait();
        let due = self.post.begin_wait();
        let ready = self.wait(if due { 0 } else { most });
        let woken = self.post.end_wait();
        if due || ready || woken {
            self.pauses = 0;
        } else {
            self.pauses = self.pauses.saturating_add(1);
            if most == LONGEST {
                self.post.ask_door();
            }
        }
        self.post.age();
        self.stillness = self.post.stillness();
    }

    fn moved(&mut self) {
        self.post.tell_done((self.moves % LOOK) == 0);
        self.pauses = 0;
        self.stillness = self.post.stillness();
        self.moves = self.moves.wrapping_add(1);
        if self.moves % LOOK_AT_DOOR == 0 {
            self.post.ask_door();
        }
        if self.moves % LOOK_AT_PLACES == 0 {
            self.attend();
        }
        if self.moves % LOOK == 0 {
            self.run();
            self.post.age();
            self.wait(0);
        }
    }

    fn pushed(&mut self, stream: u32) {
        self.post.push(stream);
    }

    fn plays(&mut self, stream: u32) {
        if !self.runs {
            let _ = self.recorded.push(stream);
        }
        self.post.play(stream);
    }

    fn pushes(&self, stream: u32) -> u64 {
        self.post.pushes(stream)
    }
}
