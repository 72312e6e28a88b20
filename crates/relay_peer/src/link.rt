//! Links to servers.
ghost use Rattle.std.specs.Prelude.{◌≡◌, None};
ghost use Rattle.std.specs.Io.{ReadsAtMost, WritesAtMost};
ghost use Rattle.relay_outside.specs.Heard.{HearStep};
ghost use Rattle.relay_outside.specs.Said.{SayStep};

use crate::PeerRest;
use crate::clock::milliseconds;
use crate::flow::Flow;
use crate::parting::{LastWords, Parting};
use libc::net::{POLLIN, poll};
use libc::types::pollfd;
use mio::net::TcpStream;
use relay_outside::{Heard, Link, News, Said};
use std::alloc::Global;
use std::io;
use std::io::{ErrorKind, Read, Write};
use std::marker::Model;
use std::net::Shutdown;
use std::os::fd::AsRawFd;
use std::sync::Arc;

/// How long a server may take to close the connection once all was sent, in milliseconds.
const LAST: u64 = 8000;

/// The longest pause in that time, in milliseconds.
const LAST_PAUSE: u64 = 250;

/// The most tries of a wait that signals interrupt.
const TRIES: u32 = 1000;

/// The most pieces that are read once nothing more is sent.
const LAST_PIECES: u32 = 1_000_000;

// Reads bytes. A read that was interrupted is made again.
fn read(stream: &mut TcpStream, into: &mut [u8]) -> io::Result<usize>
    ensures { ReadsAtMost result into.new }
{
    for _ in 0..u64::MAX {
        match stream.read(into) {
            Err(error) if error.kind() == ErrorKind::Interrupted => {}
            answer => return answer,
        }
    }
    Err(io::Error::from(ErrorKind::Interrupted))
}

// Writes bytes from the front of the piece. A write that was interrupted is made again.
fn write(stream: &mut TcpStream, piece: &[u8]) -> io::Result<usize>
    ensures { WritesAtMost result piece.now }
{
    for _ in 0..u64::MAX {
        match stream.write(piece) {
            Err(error) if error.kind() == ErrorKind::Interrupted => {}
            answer => return answer,
        }
    }
    Err(io::Error::from(ErrorKind::Interrupted))
}

// Waits until standard input has bytes or is over, or the socket has bytes or has failed.
fn wait_for_film(stream: &TcpStream) {
    let mut asked = [
        pollfd {
            fd: stream.as_raw_fd(),
            events: POLLIN,
            revents: 0,
        },
        pollfd {
            fd: libc::STDIN_FILENO,
            events: POLLIN,
            revents: 0,
        },
    ];
    for _ in 0..TRIES {
        if poll(&mut asked, -1) >= 0 {
            return;
        }
    }
}

/// A link to a server over a socket, which keeps its last error. If there is no connection, each call fails.
/// Contracts see none of its bytes.
///
/// It fails if the server is silent for longer than it may be, or takes nothing for as long. If it is bounded in
/// time, it answers as at its peer's end once the time is over. Between two tags of a film from standard input,
/// it waits for the film and for the server at once.
#[derive(Drop)]
pub struct PeerLink {
    stream: Option<TcpStream>,
    flow: Arc<Flow, Global>,
    // The milliseconds that a server may be silent. 0 is for ever.
    silence: u64,
    // When the link ends by itself.
    until: Option<u64>,
    // When the last bytes came, and when the server began to take nothing.
    heard: u64,
    stuck: Option<u64>,
    // Bytes were sent since the last recv, or some wait.
    sent: bool,
    silent: bool,
    over: bool,
    failed: u64,
    waited: u64,
    ended: u64,
    last: Option<io::Error>,
}

impl Model for PeerLink {
    ghost use Rattle.relay_outside.specs.Told.{LinkCounts};

    ghost Value = { LinkCounts };

    ghost view = { λ l. record { faults = l.failed; waits = l.waited; ends = l.ended } };
}

impl PeerLink {
    pub(crate) fn new(
        stream: Option<TcpStream>,
        last: Option<io::Error>,
        silence: u64,
        until: Option<u64>,
        flow: Arc<Flow, Global>,
    ) -> PeerLink
        ensures { result ≡ record { faults = 0; waits = 0; ends = 0 } }
    {
        PeerLink {
            stream,
            flow,
            silence,
            until,
            heard: milliseconds(),
            stuck: None,
            sent: false,
            silent: false,
            over: false,
            failed: 0,
            waited: 0,
            ended: 0,
            last,
        }
    }

    /// Returns the last error: why there is no connection, or why a call failed.
    pub fn error(&self) -> Option<io::Error> {
        self.last
    }

    /// Returns whether the link failed because its server was silent, or took nothing, for too long.
    pub fn is_silent(&self) -> bool {
        self.silent
    }

    /// Returns whether the link has ended because its time was over.
    pub fn is_over(&self) -> bool {
        self.over
    }

    /// Returns whether there is a connection.
    pub fn is_open(&self) -> bool {
        self.stream.is_some()
    }

    // Returns whether its time is over.
    fn is_due(&self) -> bool {
        self.until.is_some_and(|until| milliseconds() >= until)
    }

    // Returns whether that moment is longer ago than the server may be silent.
    fn is_too_long(&self, since: u64) -> bool {
        self.silence > 0 && milliseconds().saturating_sub(since) > self.silence
    }

    // Returns whether the server owes bytes, and was silent for too long.
    fn is_late(&self) -> bool {
        self.flow.is_owed() && self.is_too_long(self.heard)
    }

    /// Shuts the link down for writing, then reads on until the server closes the connection, for at most 8
    /// seconds. A connection that is closed with bytes unread is reset, and the server may lose the last bytes
    /// sent to it. Returns how the server parted.
    ///
    /// A status of level `error` is found by its bytes as AMF0, wherever they come. Those of a status whose
    /// properties go over the end of a chunk aren't found.
    pub fn close(mut self, alloc: Global, rest: &mut PeerRest) -> Parting {
        if let Some(stream) = &self.stream {
            let _ = stream.shutdown(Shutdown::Write);
        }
        let until = milliseconds().saturating_add(LAST);
        let mut words = LastWords::new(Vec::new(alloc));
        let mut room = [0u8; 4096];
        for _ in 0..LAST_PIECES {
            let left = until.saturating_sub(milliseconds());
            if left == 0 {
                break;
            }
            match self.recv(&mut room) {
                Heard::Bytes(count) => words.hear(room.get(..count).unwrap_or(&[])),
                Heard::NotYet => rest.wait(left.min(LAST_PAUSE)),
                Heard::End => break,
                Heard::Failed => {
                    if let Some(error) = self.last {
                        return Parting::Failed(error);
                    }
                    break;
                }
            }
        }
        words.parting(alloc)
    }
}

impl Link for PeerLink {
    ghost counts = { λ l. l };

    ghost told = { λ _. None };

    ghost hears = { λ l room answer m. HearStep room None None l m answer };

    ghost says = { λ l piece answer m. SayStep piece None None l m answer };

    ghost ready = { λ l answer. Unit {0} };

    fn is_ready(&self) -> bool {
        true
    }

    fn recv(&mut self, into: &mut [u8]) -> Heard {
        let idle = !self.sent;
        self.sent = false;
        if self.is_open() && self.is_due() {
            self.over = true;
            self.ended = self.ended.saturating_add(1);
            return Heard::End;
        }
        let Some(stream) = &mut self.stream else {
            self.failed = self.failed.saturating_add(1);
            return Heard::Failed;
        };
        // Nothing is left to be sent, so the film is asked for its next bytes after this call.
        if idle && self.flow.is_asked() {
            wait_for_film(stream);
        }
        match read(stream, into) {
            Ok(0) => {
                self.ended = self.ended.saturating_add(1);
                Heard::End
            }
            Ok(count) => {
                self.heard = milliseconds();
                Heard::Bytes(count)
            }
            Err(error) if error.kind() == ErrorKind::WouldBlock => {
                if self.is_late() {
                    self.silent = true;
                    self.failed = self.failed.saturating_add(1);
                    return Heard::Failed;
                }
                self.waited = self.waited.saturating_add(1);
                Heard::NotYet
            }
            Err(error) => {
                self.last = Some(error);
                self.failed = self.failed.saturating_add(1);
                Heard::Failed
            }
        }
    }

    fn send(&mut self, piece: &[u8]) -> Said {
        self.sent = true;
        let Some(stream) = &mut self.stream else {
            self.failed = self.failed.saturating_add(1);
            return Said::Failed;
        };
        let error = match write(stream, piece) {
            Ok(count) if count > 0 => {
                self.stuck = None;
                return Said::Took(count);
            }
            Ok(_) => io::Error::from(ErrorKind::WriteZero),
            Err(error) if error.kind() == ErrorKind::WouldBlock => {
                let since = self.stuck.unwrap_or(milliseconds());
                self.stuck = Some(since);
                if self.is_too_long(since) {
                    self.silent = true;
                    self.failed = self.failed.saturating_add(1);
                    return Said::Failed;
                }
                self.waited = self.waited.saturating_add(1);
                return Said::NotYet;
            }
            Err(error) => error,
        };
        self.last = Some(error);
        self.failed = self.failed.saturating_add(1);
        Said::Failed
    }

    fn tell(&self, news: News, _app: &[u8], _name: &[u8]) {
        if news == News::Plays {
            self.flow.owe(false);
        }
    }

    ghost hears_mean = { λ l room answer m some step. step };

    ghost says_mean = { λ l piece answer m some step. step };
}
