//! Links to an origin.
ghost use Rattle.std.specs.Prelude.{◌≡◌, None};
ghost use Rattle.std.specs.Io.{ReadsAtMost, WritesAtMost};
ghost use Rattle.relay_outside.specs.Heard.{HearStep};
ghost use Rattle.relay_outside.specs.Said.{SayStep};

use crate::cause::Cause;
use crate::cells::{CLOSING, DOOR, READABLE, WRITABLE};
use crate::options::keep_alive;
use crate::origin_line::OriginLine;
use crate::post::Post;
use crate::seats::Doing;
use log::log;
use mio::net::TcpStream;
use mio::{Interest, Registry, Token};
use relay_outside::{Heard, Link, News, Said};
use std::alloc::Global;
use std::cell::Cell;
use std::io;
use std::io::{ErrorKind, Read, Write};
use std::marker::Model;
use std::net::{Net, Shutdown, SocketAddr};
use std::sync::Arc;

/// The milliseconds after which a broadcast is a new one, and not the items that an origin has of the last
/// one.
const SETTLES: u64 = 1_000;

/// The token of its socket.
const ORIGIN: usize = DOOR + 1;

// Begins a connection, whose calls don't wait.
fn open<R: Net>(rt: &R, registry: &Registry, address: SocketAddr) -> io::Result<TcpStream> {
    let mut stream = TcpStream::connect(rt, address)?;
    stream.set_nodelay(true)?;
    keep_alive(&stream);
    let both = Interest::READABLE | Interest::WRITABLE;
    registry.register(&mut stream, Token(ORIGIN), both)?;
    Ok(stream)
}

// The progress of a link to an origin.
#[derive(Clone, Copy)]
enum State {
    // The origin hasn't said that it plays.
    Waits,
    Plays,
    Over,
}

// The socket of a link to an origin, if there is one, with its state.
#[derive(Drop)]
struct Pipe {
    stream: Option<TcpStream>,
    address: SocketAddr,
    post: Arc<Post, Global>,
    // It gave bytes, and wasn't asked for more since.
    fed: bool,
    // When it was made, by the clock.
    begun: u64,
    // When it gave bytes last.
    gave: u64,
    // When the broadcast began that is live, or 0.
    live: Cell<u64>,
    state: Cell<State>,
    cause: Cause,
    // Why a call of the system failed.
    error: Option<io::Error>,
}

impl Pipe {
    fn has(&self, bit: u64) -> bool {
        self.post.cells.has(ORIGIN, bit)
    }

    // Records that it is asked for bytes.
    fn ask(&mut self) {
        if self.fed {
            self.post.cells.ask();
        }
        self.fed = false;
    }

    // Records that it gave bytes, and whether it may have more.
    fn feed(&mut self, count: usize, more: bool) {
        self.gave = self.post.now();
        if let Some(seat) = self.post.seat(ORIGIN) {
            seat.receive(count);
        }
        if more {
            self.post.cells.begin();
            return;
        }
        if !self.has(CLOSING) {
            self.post.cells.remove(ORIGIN, READABLE);
        }
        if !self.fed {
            self.post.cells.feed();
        }
        self.fed = true;
    }

    // Returns whether it ends, since the server does.
    fn is_stopped(&mut self) -> bool {
        let stopped = self.post.watch.is_stopped() || self.post.is_deserted();
        if stopped {
            self.cause = Cause::Stopped;
        }
        stopped
    }

    // Returns since when the origin may not be silent, or `None` if it may. It must say that it plays, and it
    // must send while a broadcast is live. Between two broadcasts an origin sends at once the items that it
    // has of the last one, and then nothing. A broadcast therefore counts from the second after it began.
    fn awaited(&self) -> Option<u64> {
        let live = self.live.get();
        match self.state.get() {
            State::Waits => Some(self.begun),
            State::Plays if live > 0 && self.gave >= live.saturating_add(SETTLES) => {
                Some(self.gave)
            }
            State::Plays | State::Over => None,
        }
    }

    // Returns whether the origin has been silent for too long.
    fn is_silent(&mut self) -> bool {
        let most = self.post.watch.silence;
        let Some(since) = self.awaited() else {
            return false;
        };
        if most == 0 || self.post.now().saturating_sub(since) < most {
            return false;
        }
        self.cause = Cause::Silent {
            seconds: most / 1000,
        };
        true
    }

    // Reads bytes from the socket, if the poll has reported some.
    fn give(&mut self, into: &mut [u8]) -> io::Result<usize>
        ensures { ReadsAtMost result into.new }
    {
        if !self.has(READABLE) {
            return Err(io::Error::from(ErrorKind::WouldBlock));
        }
        let Some(stream) = &mut self.stream else {
            return Err(io::Error::from(ErrorKind::NotConnected));
        };
        let count = stream.read(into)?;
        let more = count >= into.len();
        self.feed(count, more);
        Ok(count)
    }

    // Writes bytes to the socket, if the poll has reported room.
    fn take(&mut self, piece: &[u8]) -> io::Result<usize>
        ensures { WritesAtMost result piece.now }
    {
        if !self.has(WRITABLE) {
            return Err(io::Error::from(ErrorKind::WouldBlock));
        }
        let Some(stream) = &mut self.stream else {
            return Err(io::Error::from(ErrorKind::NotConnected));
        };
        let count = stream.write(piece)?;
        if let Some(seat) = self.post.seat(ORIGIN) {
            seat.send(count);
        }
        Ok(count)
    }

    // Returns true if the link fails by this error of a system call, and keeps the first such error.
    // Otherwise the call is made again later; if it would block, the poll reports when.
    fn fails(&mut self, error: io::Error, bit: u64) -> bool {
        match error.kind() {
            ErrorKind::WouldBlock => {
                self.post.cells.remove(ORIGIN, bit);
                false
            }
            ErrorKind::Interrupted => false,
            _ => {
                if self.error.is_none() {
                    self.error = Some(error);
                }
                true
            }
        }
    }

    // Records that the stream is played.
    fn begin(&self, app: &[u8], name: &[u8]) {
        if self.state.get() != State::Waits {
            return;
        }
        self.state.set(State::Plays);
        self.post
            .watch
            .begin(self.post.alloc, app, name, self.post.now());
        if let Some(seat) = self.post.seat(ORIGIN) {
            seat.tell(self.post.alloc, Doing::Pulled, app, name, self.post.now());
            // Holds until the origin reports otherwise.
            seat.air(true);
        }
    }

    // Ends the link. All workers are woken, since its end may give them something to do.
    fn end(&self) {
        if self.state.get() == State::Plays {
            self.post.watch.end();
        }
        self.state.set(State::Over);
        if let Some(stream) = &self.stream {
            let _ = stream.shutdown(Shutdown::Both);
        }
        if let Some(seat) = self.post.seat(ORIGIN) {
            seat.leave();
        }
        self.post.wake_all();
    }

    // Records that a broadcast has begun, or is over.
    fn air(&self, live: bool) {
        self.live.set(if live { self.post.now() } else { 0 });
        if let Some(seat) = self.post.seat(ORIGIN) {
            seat.air(live);
        }
    }

    fn tell(&self, news: News, app: &[u8], name: &[u8]) {
        match news {
            News::Publishes => return self.air(true),
            News::Left => return self.air(false),
            _ => {}
        }
        let line = OriginLine {
            address: self.address,
            news,
            app,
            name,
            cause: self.cause,
            error: self.error,
            tally: self
                .post
                .seat(ORIGIN)
                .map(|seat| seat.tally(self.post.now())),
        };
        log!(self.post.watch.log; line.level(), "{line}");
        match news {
            News::Plays => self.begin(app, name),
            _ => self.end(),
        }
    }
}

/// A link to an origin over a socket. It calls the system only if the poll has reported that there is
/// something to do. If there is no connection, each call fails. Contracts see none of its bytes.
///
/// Its news goes to the log. It fails if the origin takes longer to begin to play than the server allows
/// silence. It also fails if the origin is silent for that time while a broadcast is live. Between two
/// broadcasts the origin may be silent for ever. If the server stops, or all its doors have closed, the link
/// answers as at its peer's end.
#[derive(Drop)]
pub struct OriginLink {
    pipe: Pipe,
    failed: u64,
    waited: u64,
    ended: u64,
}

impl Model for OriginLink {
    ghost use Rattle.relay_outside.specs.Told.{LinkCounts};

    ghost Value = { LinkCounts };

    ghost view = { λ l. record { faults = l.failed; waits = l.waited; ends = l.ended } };
}

impl OriginLink {
    /// Begins a link to the server at that address.
    pub(crate) fn reach<R: Net>(
        rt: &R,
        registry: &Registry,
        address: SocketAddr,
        post: Arc<Post, Global>,
    ) -> OriginLink
        ensures { result ≡ record { faults = 0; waits = 0; ends = 0 } }
    {
        let (stream, error) = match open(rt, registry, address) {
            Ok(stream) => (Some(stream), None),
            Err(error) => (None, Some(error)),
        };
        if let Some(seat) = post.seat(ORIGIN) {
            seat.take(post.alloc, address, post.now());
        }
        if stream.is_none() {
            post.cells.add(ORIGIN, READABLE | WRITABLE);
        }
        let begun = post.now();
        OriginLink {
            pipe: Pipe {
                stream,
                address,
                post,
                fed: false,
                begun,
                gave: begun,
                live: Cell::new(0),
                state: Cell::new(State::Waits),
                cause: Cause::Peer,
                error,
            },
            failed: 0,
            waited: 0,
            ended: 0,
        }
    }
}

impl Link for OriginLink {
    ghost counts = { λ l. l };

    ghost told = { λ _. None };

    ghost hears = { λ l room answer m. HearStep room None None l m answer };

    ghost says = { λ l piece answer m. SayStep piece None None l m answer };

    ghost ready = { λ l answer. Unit {0} };

    fn is_ready(&self) -> bool {
        true
    }

    fn recv(&mut self, into: &mut [u8]) -> Heard {
        self.pipe.ask();
        if self.pipe.is_stopped() {
            self.ended = self.ended.saturating_add(1);
            return Heard::End;
        }
        match self.pipe.give(into) {
            Ok(0) => {
                self.ended = self.ended.saturating_add(1);
                Heard::End
            }
            Ok(count) => Heard::Bytes(count),
            Err(error) => {
                if self.pipe.fails(error, READABLE) || self.pipe.is_silent() {
                    self.failed = self.failed.saturating_add(1);
                    return Heard::Failed;
                }
                self.waited = self.waited.saturating_add(1);
                Heard::NotYet
            }
        }
    }

    fn send(&mut self, piece: &[u8]) -> Said {
        match self.pipe.take(piece) {
            Ok(count) if count > 0 => Said::Took(count),
            Ok(_) => {
                self.failed = self.failed.saturating_add(1);
                Said::Failed
            }
            Err(error) => {
                if self.pipe.fails(error, WRITABLE) {
                    self.failed = self.failed.saturating_add(1);
                    return Said::Failed;
                }
                self.waited = self.waited.saturating_add(1);
                Said::NotYet
            }
        }
    }

    fn tell(&self, news: News, app: &[u8], name: &[u8]) {
        self.pipe.tell(news, app, name);
    }

    ghost hears_mean = { λ l room answer m some step. step };

    ghost says_mean = { λ l piece answer m some step. step };
}
