//! The state that the door, the links and the rest of a worker share.

use crate::board::Board;
use crate::cells::{Cells, DOOR, LEFT, READABLE};
use crate::clock::milliseconds;
use crate::forwarded::Head;
use crate::giving_way::Way;
use crate::seats::{Seat, Seats};
use crate::throttle::Kind;
use crate::watch::{EDGE, Watch};
use libc::net::{POLLIN, poll};
use libc::types::pollfd;
use log::log;
use std::alloc::{AllocError, Global};
use std::net::{IpAddr, SocketAddr};
use std::sync::Arc;
use std::sync::atomic::{AtomicBool, AtomicI64, AtomicU64, Ordering};

/// How long a worker gives another to look at its door, in pauses. 32 turns that moved something count as a
/// pause.
const GRACE: u64 = 8;

/// The post of a worker: the cells of its sockets, and its place on the board of all workers.
#[derive(Drop)]
pub struct Post {
    pub alloc: Global,
    pub cells: Cells,
    pub watch: Arc<Watch, Global>,
    seats: Arc<Seats, Global>,
    // The clock, as it was read last.
    clock: AtomicU64,
    // The door was asked for a link since the last call of `take_knocked`.
    knocked: AtomicBool,
    // The descriptor of its socket, once it is there.
    door: AtomicI64,
    // Its links are those of HTTP players.
    http: AtomicBool,
    board: Arc<Board, Global>,
    worker: usize,
    // The workers to wake for pushes made here, a bit for each.
    listeners: AtomicU64,
    // The worker to which the door left a connection last, and the pauses that remain of its grace.
    heir: AtomicU64,
    grace: AtomicU64,
}

impl Post {
    /// Creates the post of a worker of at most `links` links.
    pub fn new(
        alloc: Global,
        board: Arc<Board, Global>,
        watch: Arc<Watch, Global>,
        worker: usize,
        links: usize,
    ) -> Result<Arc<Post, Global>, AllocError> {
        let cells = Cells::new(alloc, links)?;
        let seats = Arc::new(alloc, Seats::new(alloc, links)?)?;
        watch.join(worker, Arc::try_clone(&seats)?);
        let post = Post {
            alloc,
            cells,
            watch,
            seats,
            clock: AtomicU64::new(milliseconds()),
            knocked: AtomicBool::new(false),
            door: AtomicI64::new(-1),
            http: AtomicBool::new(false),
            board,
            worker,
            listeners: AtomicU64::new(0),
            heir: AtomicU64::new(0),
            grace: AtomicU64::new(0),
        };
        Ok(Arc::new(alloc, post)?)
    }

    /// Returns the clock in milliseconds, as the worker read it last: in each pause, and after some turns
    /// that moved something.
    pub fn now(&self) -> u64 {
        self.clock.load(Ordering::SeqCst)
    }

    /// Reads the clock.
    pub fn tick(&self) {
        self.clock.store(milliseconds(), Ordering::SeqCst);
    }

    /// Returns the seat of the link of a token.
    pub fn seat(&self, token: usize) -> Option<&Seat> {
        self.seats.get(token)
    }

    /// Returns whether the door was asked for a link since the last call. A worker that has all its links
    /// doesn't ask.
    pub fn take_knocked(&self) -> bool {
        let knocked = self.knocked.swap(false, Ordering::SeqCst);
        self.board.fill(self.worker, !knocked);
        knocked
    }

    /// Sets the descriptor of the door's socket, which stays open as long as the worker.
    pub fn set_door(&self, descriptor: i32) {
        self.door.store(i64::from(descriptor), Ordering::SeqCst);
    }

    /// Makes its door that of HTTP players.
    pub fn serve_http(&self) {
        self.http.store(true, Ordering::SeqCst);
    }

    /// Returns whether its links are those of HTTP players.
    pub fn is_http(&self) -> bool {
        self.http.load(Ordering::SeqCst)
    }

    /// Returns a head for the request of a peer that has that address, if it is an HTTP proxy in front of the server.
    pub fn head_of(&self, address: SocketAddr) -> Option<Head> {
        let forwards = self.is_http() && self.watch.is_proxy(address.ip());
        forwards.then_some(Head::new(self.alloc))
    }

    /// Returns who asks by a proxy, if the head of its request is over and says it.
    pub fn client_of(&self, head: &Head) -> Option<IpAddr> {
        match &self.watch.proxies {
            Some(proxies) => head.client(self.alloc, proxies),
            None => None,
        }
    }

    /// Returns whether a connection waits at the door.
    pub fn has_waiting(&self) -> bool {
        let fd = i32::try_from(self.door.load(Ordering::SeqCst)).unwrap_or(-1);
        let mut asked = [pollfd {
            fd,
            events: POLLIN,
            revents: 0,
        }];
        poll(&mut asked, 0) == 1 && asked[0].revents == POLLIN
    }

    /// Returns whether a connection that came finds no place at any worker.
    pub fn is_crowded(&self) -> bool {
        self.board.is_full(self.worker)
    }

    /// Returns whether the worker has a door.
    pub fn has_door(&self) -> bool {
        self.door.load(Ordering::SeqCst) >= 0
    }

    /// Returns whether this is the post of a worker of the server, and not of the session that pulls from an
    /// origin.
    pub fn serves(&self) -> bool {
        self.worker != EDGE as usize
    }

    /// Returns the number of the worker's links.
    pub fn links(&self) -> u64 {
        self.board.links(self.worker)
    }

    /// Wakes all other workers, since the server stops or an origin is gone, for example.
    pub fn wake_all(&self) {
        self.board.wake_others(self.worker);
    }

    /// Asks the link that publishes under a name to give way, if it gives nothing. A client was refused since
    /// the name is in use.
    pub fn ask_for_name(&self, app: &[u8], name: &[u8]) {
        if self.watch.ask_for_name(app, name) {
            self.wake_all();
        }
    }

    /// Asks a link to give its place to a connection that waits, and wakes the workers if one does.
    pub fn ask_for_place(&self) -> Way {
        let asked = self
            .watch
            .ask_for_place(&self.board, self.worker, self.now());
        if asked == Way::Given {
            self.wake_all();
            self.board.hurry(self.worker);
        }
        asked
    }

    /// Returns whether the stream that the link of that token plays has a publisher, or may have one.
    pub fn is_played_live(&self, token: usize) -> bool {
        let Some(seat) = self.seat(token) else {
            return true;
        };
        match seat.names(self.alloc) {
            Ok(Some(names)) => self
                .watch
                .is_published_as(names.app.as_slice(), names.name.as_slice()),
            _ => true,
        }
    }

    /// Returns whether the address of a peer may have one link more: that one has then the seat of the token.
    pub fn admits(&self, token: usize, address: SocketAddr) -> bool {
        match self.seat(token) {
            Some(seat) => self.watch.admit(self.alloc, seat, address, self.now()),
            None => true,
        }
    }

    /// Frees the seat of a link that wasn't given.
    pub fn dismiss(&self, token: usize) {
        if let Some(seat) = self.seat(token) {
            seat.leave();
        }
    }

    /// Makes the worker go on before it waits again.
    pub fn hurry(&self) {
        self.board.hurry(self.worker);
    }

    /// Logs a line of that kind, if the log has room for one more.
    pub fn warn_of(&self, kind: Kind, address: SocketAddr, what: &str) {
        if self.watch.throttle.admits(kind, self.now()) {
            log!(self.watch.log; kind.level(), "{address} {kind}: {what}");
        }
    }

    /// Logs the number of lines of one kind that were left out.
    pub fn tell_left_out(&self) {
        if let Some((kind, more)) = self.watch.throttle.left_out(self.now()) {
            log!(self.watch.log; kind.level(), "relay: and {more} more: {kind}");
        }
    }

    /// Records that a link is gone and its peer is seen off.
    pub fn begin_farewell(&self) {
        self.board.add_farewell(self.worker);
        self.remove_link();
    }

    /// Records that a farewell is over.
    pub fn end_farewell(&self) {
        self.board.remove_farewell(self.worker);
        self.board.wake_others(self.worker);
        self.cells.add(DOOR, READABLE);
    }

    /// Counts a link that was given.
    pub fn add_link(&self) {
        self.board.add_link(self.worker);
    }

    /// Records that a link is gone. Its descriptor is free again, so the door must be asked. The other
    /// workers are woken, since the end of its session may give them something to do.
    pub fn remove_link(&self) {
        self.board.remove_link(self.worker);
        self.watch.thin();
        self.board.wake_others(self.worker);
        self.cells.add(DOOR, READABLE);
    }

    /// Records that the worker takes links, and looks at its door.
    pub fn look(&self) {
        if !self.knocked.load(Ordering::SeqCst) {
            self.knocked.store(true, Ordering::SeqCst);
        }
        self.board.look(self.worker);
    }

    /// Has the door asked, and has it decide anew which connections it leaves to others.
    pub fn ask_door(&self) {
        self.cells.add(DOOR, READABLE);
        self.cells.remove(DOOR, LEFT);
    }

    /// Returns whether the worker is done: all links are gone, and enough were given or the server stops.
    /// Until then its recorders may have something to write. A worker that is done takes no more links and
    /// wakes the others.
    pub fn is_done(&self, accept: u32) -> bool {
        let stopped = self.watch.is_stopped() && self.board.is_empty();
        if !stopped && !self.board.is_over(accept) {
            return false;
        }
        self.board.close(self.worker);
        self.board.wake_others(self.worker);
        true
    }

    /// Returns whether all doors have closed, so that no client is served any more.
    pub fn is_deserted(&self) -> bool {
        self.board.is_deserted()
    }

    /// Claims a link, if one more may be given. Returns whether it may.
    pub fn claim(&self, accept: u32) -> bool {
        self.board.claim(accept)
    }

    /// Takes back the claim of a link that isn't given.
    pub fn unclaim(&self) {
        self.board.unclaim();
    }

    fn heir(&self) -> usize {
        self.heir.load(Ordering::SeqCst) as usize
    }

    // Returns whether the door has left something to a worker that has time to look, and hasn't yet.
    fn is_awaited(&self) -> bool {
        self.grace.load(Ordering::SeqCst) > 0 && !self.board.has_looked(self.heir())
    }

    // Returns whether a connection that came belongs to the worker to which the door left the last one. That
    // worker has looked and nothing came since, or it is about to look.
    fn is_left(&self) -> bool {
        let looked = self.cells.has(DOOR, LEFT) && self.board.has_looked(self.heir());
        (looked || self.is_awaited()) && self.board.is_lighter(self.worker, self.heir())
    }

    /// Returns whether a connection that came to the door is left to a worker that has clearly fewer links,
    /// which is woken once for it.
    pub fn leaves(&self) -> bool {
        if self.is_left() {
            self.cells.add(DOOR, LEFT);
            return true;
        }
        match self.board.leave(self.worker) {
            Some(heir) => {
                self.heir.store(heir as u64, Ordering::SeqCst);
                self.grace.store(GRACE, Ordering::SeqCst);
                self.cells.add(DOOR, LEFT);
                true
            }
            None => {
                self.cells.remove(DOOR, LEFT);
                false
            }
        }
    }

    /// Returns whether a connection that came to the door waits for a worker that is about to look.
    pub fn is_leaving(&self) -> bool {
        self.cells.has(DOOR, LEFT) && self.is_awaited()
    }

    /// Shortens the grace, after a pause or as many turns as count for one.
    pub fn age(&self) {
        let grace = self.grace.load(Ordering::SeqCst);
        if grace > 0 {
            self.grace.store(grace.saturating_sub(1), Ordering::SeqCst);
        }
    }

    /// Counts a push to this stream. The workers that play it are woken by the next [`Post::tell`].
    pub fn push(&self, stream: u32) {
        let players = self.board.hints.push(stream);
        self.listeners.fetch_or(players, Ordering::SeqCst);
    }

    /// Returns the number of pushes to this stream, which the worker plays.
    pub fn pushes(&self, stream: u32) -> u64 {
        self.board.hints.pushes(stream, self.worker)
    }

    /// Records that the worker plays this stream.
    pub fn play(&self, stream: u32) {
        self.board.hints.play(stream, self.worker);
    }

    /// Records that the worker plays no stream, until its next call of `play`.
    pub fn forget_plays(&self) {
        self.board.hints.forget(self.worker);
    }

    /// Wakes the workers that play a stream that was pushed to here since they were woken last.
    pub fn tell(&self) {
        if self.listeners.load(Ordering::SeqCst) != 0 {
            let listeners = self.listeners.swap(0, Ordering::SeqCst);
            self.board.wake_those(listeners, self.worker);
        }
    }

    /// Wakes them after a turn that moved something, if it may have completed the effects of received bytes.
    pub fn tell_done(&self, at_once: bool) {
        if self.cells.take_done(at_once) {
            self.tell();
        }
    }

    /// Wakes them before a pause, for all pushes that are left.
    pub fn tell_all(&self) {
        self.cells.take_begun();
        self.tell();
    }

    /// Begins the worker's wait. Returns whether it must look at once, since something came.
    pub fn begin_wait(&self) -> bool {
        self.board.begin_wait(self.worker)
    }

    /// Records that the worker is gone.
    pub fn retire(&self) {
        self.tell_all();
        self.board.fill(self.worker, true);
        let _ = self.board.begin_wait(self.worker);
    }

    /// Ends the worker's wait. Returns whether another worker woke it.
    pub fn end_wait(&self) -> bool {
        self.board.end_wait(self.worker)
    }

    /// Returns a number that stays the same while all other workers wait, or `None` if another is awake.
    pub fn stillness(&self) -> Option<u64> {
        self.board.stillness()
    }
}
